// Reading: from a text to its data, with the remainder of the data worked out in the same pass.
ghost use Rattle.std.specs.Prelude.{◌≡◌, true, false, ◌||◌, ◌++◌, map, take, drop, MatchOption, MatchResult};
ghost use Rattle.codes.specs.Division.{remainder};
ghost use Rattle.codes.specs.Reading.{answered, refused, fits, read};
ghost use Rattle.codes.specs.Refusals.{number_of};
ghost use Rattle.codes.specs.Texts.{all, any, known, same_numbers, symbol};
ghost use Rattle.kinds.specs.Characters.{capital, capital_letter, small_letter};

use crate::division::Register;
use crate::refusals::Refusal;
use crate::texts::{Cases, capital, symbol};
use kinds::Kind;

// Data whose characters are all in the alphabet, and the register after the start word and the data.
#[derive(Drop)]
pub(crate) struct Word<'a, K: Kind> {
    pub(crate) data: &'a [u8],
    pub(crate) register: Register<K>,
    ghost alphabet: { all (known K.Kind.code) data.now ≡ true },
    ghost divided: { register ≡ remainder K.Symbol.Field.ops K.Kind.code.generator (K.Kind.code.start ++ map (symbol K.Symbol.Field.ops K.Kind.code) data.now) },
}

// Whether a line of this kind can have this many characters.
fn has_length<K: Kind>(n: usize) -> bool
    ensures { result ≡ fits K.Kind.code n }
{
    let frame = 9 + K::check_symbols();
    frame <= n && K::allows(n - frame)
}

// Whether a text begins with the prefix, in either case.
// By hand: the library's comparison without case speaks of small letters, and the definition of capitals.
fn has_prefix<K: Kind>(text: &[u8]) -> bool
    ensures { result ≡ same_numbers (map capital (take 3 text.now)) K.Kind.code.prefix }
{
    let [a, b, c, ..] = text else {
        return false;
    };
    let [x, y, z] = K::prefix() else {
        return false;
    };
    capital(*a) == *x && capital(*b) == *y && capital(*c) == *z
}

#[derive(Drop)]
struct Scan<'a, K: Kind> {
    cases: Cases,
    word: Word<'a, K>,
}

// One pass over data: its word, and the cases added to those that were seen before; nothing where a character is not in the
// alphabet.
fn scanned<K: Kind>(seen: Cases, text: &[u8]) -> Option<Scan<'_, K>>
    ensures { MatchOption result (all (known K.Kind.code) text.now ≡ false) (λ s.
        (s.cases.small ≡ (seen.small || any small_letter text.now))
        × (s.cases.capitals ≡ (seen.capitals || any capital_letter text.now))
        × (s.word.«data».now ≡ text.now)) }
{
    let mut cases = seen;
    let mut register = Register::started();
    // A `try_fold` over both would be no plainer: its closure hands on a pair.
    for c in text {
        register.shift(symbol::<K>(*c)?);
        cases = cases.and(*c);
    }
    Some(Scan {
        cases,
        word: Word {
            data: text,
            register,
        },
    })
}

// The data of a text, or the first refusal of its length, prefix, characters and cases.
pub(crate) fn read<K: Kind>(text: &[u8]) -> Result<Word<'_, K>, Refusal>
    ensures { MatchResult result (λ w.
        (read K.Symbol.Field.ops K.Kind.code text.now ≡ answered (map (symbol K.Symbol.Field.ops K.Kind.code) w.«data».now))
        × (w.«data».now ≡ drop 3 text.now))
        (λ e. read K.Symbol.Field.ops K.Kind.code text.now ≡ refused (number_of e)) }
{
    if !has_length::<K>(text.len()) {
        return Err(Refusal::Length);
    }
    if !has_prefix::<K>(text) {
        return Err(Refusal::Prefix);
    }
    let [a, b, c, data @ ..] = text else {
        return Err(Refusal::Length);
    };
    let seen = Cases::none().and(*a).and(*b).and(*c);
    let Some(scan) = scanned::<K>(seen, data) else {
        return Err(Refusal::Character);
    };
    if scan.cases.both() {
        return Err(Refusal::MixedCase);
    }
    Ok(scan.word)
}
