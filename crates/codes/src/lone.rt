// Lone secrets: lines with threshold 0.
ghost use Rattle.std.specs.Prelude.{◌≡◌, true, false, ◌&&◌, length, ◌==◌, MatchOption};
ghost use Rattle.codes.specs.Shown.{shown_count};
ghost use Rattle.codes.specs.Writing.{Completion, LoneAccepted, Wrote, all_numbers, lone_answer};

use crate::refusals::Refusal;
use crate::writing::{are_numbers, write_line};
use kinds::Kind;

// The same four bytes, if they are the numbers of four symbols.
fn as_identifier<K: Kind>(identifier: &[u8]) -> Option<&[u8; 4]>
    ensures { MatchOption result ((length identifier.now == 4 && all_numbers K.Symbol.Field.ops K.Kind.code identifier.now) ≡ false) (λ i.
        ((length identifier.now == 4 && all_numbers K.Symbol.Field.ops K.Kind.code identifier.now) ≡ true) × (i.now ≡ identifier.now)) }
{
    let four: &[u8; 4] = identifier.try_into().ok()?;
    are_numbers::<K>(four).then_some(four)
}

// Writes the line of a secret that is not shared, from the numbers of the symbols, and answers its length.
pub fn write_lone<K: Kind>(
    identifier: &[u8],
    payload: &[u8],
    out: &mut [u8],
) -> Result<usize, Refusal>
    ensures wrote { Wrote (lone_answer K.Symbol.Field.ops K.Kind.code identifier.now payload.now (length out.old)) out.old (shown_count result) out.new }
    ensures completion { Completion K.Symbol.Field.ops K.Kind.code }
    ensures accepted { LoneAccepted K.Symbol.Field.ops K.Kind.code }
{
    let Some(identifier) = as_identifier::<K>(identifier) else {
        return Err(Refusal::Identifier);
    };
    if !K::allows(payload.len()) {
        return Err(Refusal::Payload);
    }
    if !are_numbers::<K>(payload) {
        return Err(Refusal::Symbol);
    }
    let length = 9 + payload.len() + K::check_symbols();
    if out.len() < length {
        return Err(Refusal::Buffer);
    }
    write_line::<K>(0, identifier, K::secret_number(), payload, out);
    Ok(length)
}
