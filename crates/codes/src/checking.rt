// Checking: a text is refused, or it is a line whose parts are named.
ghost use Rattle.std.specs.Prelude.{◌≡◌, ℕ, ◌+◌, ◌≤◌, List, map, length, drop, ◌==◌};
ghost use Rattle.codes.specs.Checking.{Checksum, check_answer, headed, is_threshold, typed};
ghost use Rattle.codes.specs.Reading.{answered, then};
ghost use Rattle.codes.specs.Shown.{shown};
ghost use Rattle.codes.specs.Texts.{symbol};
ghost use Rattle.kinds.specs.Characters.{capital, place};

use crate::parts::{Line, Part};
use crate::reading::{Word, read};
use crate::refusals::Refusal;
use crate::texts::{capital, place_of};
use kinds::Kind;

// What a text is: a lone secret or a share, with its parts as they were typed.
pub fn check<K: Kind>(text: &[u8]) -> Result<Line<'_>, Refusal>
    ensures answer { shown result ≡ check_answer K.Symbol.Field.ops K.Kind.code text.now }
    ensures checksum { Checksum K.Symbol.Field.ops K.Kind.code }
{
    let word = read::<K>(text)?;
    if !word.register.is_target() {
        return Err(Refusal::Checksum);
    }
    named(word)
}

// Whether a character is 0 or 2 to 9.
fn is_threshold(c: u8) -> bool
    ensures { result ≡ is_threshold c }
{
    matches!(c, b'0' | b'2'..=b'9')
}

// Whether a character stands for the secret's index.
fn is_secret<K: Kind>(c: u8) -> bool
    ensures { result ≡ (place K.Kind.code.alphabet (capital c) == K.Symbol.Field.ops.number K.Kind.code.secret) }
{
    place_of::<K>(c) == K::secret_number()
}

// The parts of data.
fn named<K: Kind>(word: Word<'_, K>) -> Result<Line<'_>, Refusal>
    requires { 6 + K.Kind.code.checks ≤ length word.«data».now }
    ensures { (t : List ℕ) → drop 3 t ≡ word.entry.«data».now → shown result ≡ then (headed K.Symbol.Field.ops K.Kind.code (map (symbol K.Symbol.Field.ops K.Kind.code) word.entry.«data».now)) (λ p. answered (typed t p)) }
{
    let text = word.data;
    let [threshold, _, _, _, _, index, rest @ ..] = text else {
        unreachable()
    };
    let identifier = Part {
        place: 4,
        text: &text[1..5],
    };
    let payload = Part {
        place: 9,
        text: &rest[0..rest.len() - K::check_symbols()],
    };
    let threshold = capital(*threshold);
    if !is_threshold(threshold) {
        return Err(Refusal::Threshold);
    }
    if threshold != b'0' {
        return Ok(Line::Share {
            threshold: threshold - b'0',
            identifier,
            index: Part {
                place: 8,
                text: &text[5..6],
            },
            payload,
        });
    }
    if !is_secret::<K>(*index) {
        return Err(Refusal::LoneIndex);
    }
    Ok(Line::Lone {
        identifier,
        payload,
    })
}
