// Writing: the parts of a line go over pieces of the caller's buffer, one behind the other.
ghost use Rattle.std.specs.Prelude.{◌≡◌, ◌+◌, ◌≤◌, ◌++◌, map, length, drop};
ghost use Rattle.codes.specs.Texts.{character};
ghost use Rattle.codes.specs.Writing.{all_numbers, completed, head_numbers, line};
ghost use Rattle.fields.specs.Numbered.{numbered};

use crate::division::Register;
use crate::texts::place_of;
use fields::{Field, numbered};
use kinds::Kind;

// Whether each is the number of a symbol.
pub(crate) fn are_numbers<K: Kind>(symbols: &[u8]) -> bool
    ensures { result ≡ all_numbers K.Symbol.Field.ops K.Kind.code symbols.now }
{
    symbols.iter().all(|n| u16::from(*n) < K::Symbol::order())
}

// The character of a symbol. It cannot fail, as `symbol_character` of any number can.
fn character<K: Kind>(symbol: K::Symbol) -> u8
    ensures { result ≡ character K.Symbol.Field.ops K.Kind.code symbol }
{
    K::alphabet()[usize::from(symbol.number())]
}

// Writes the characters of symbols, given by their numbers, over a piece of their length.
fn write_symbols<K: Kind>(numbers: &[u8], piece: &mut [u8])
    requires { length piece.old ≡ length numbers.now }
    ensures { piece.new ≡ map (character K.Symbol.Field.ops K.Kind.code) (map (numbered K.Symbol.Field.ops) numbers.now) }
{
    // By index: behind `iter_mut` and `zip` a proof knows no entry.
    for (i, n) in numbers.iter().enumerate() {
        piece[i] = character::<K>(numbered(u16::from(*n)));
    }
}

// Writes the line with these parts, given by the numbers of their symbols, at the front of a buffer.
pub(crate) fn write_line<K: Kind>(
    threshold: u8,
    identifier: &[u8; 4],
    index: u8,
    payload: &[u8],
    out: &mut [u8],
)
    requires digit { threshold ≤ 9 }
    requires room { 9 + length payload.now + K.Kind.code.checks ≤ length out.old }
    ensures { out.new ≡ line K.Symbol.Field.ops K.Kind.code (completed K.Symbol.Field.ops K.Kind.code (map (numbered K.Symbol.Field.ops) (head_numbers K.Kind.code threshold identifier.now index ++ payload.now))) ++ drop (9 + length payload.now + K.Kind.code.checks) out.old }
{
    let [a, b, c, d] = *identifier;
    let head = [place_of::<K>(b'0' + threshold), a, b, c, d, index];
    let mut register = Register::<K>::started();
    register.shift_all(&head);
    register.shift_all(payload);
    register.shift_zeros();
    register.complete();
    let (first, rest) = out.split_at_mut(3);
    first.copy_from_slice(K::prefix());
    let (second, rest) = rest.split_at_mut(6);
    write_symbols::<K>(&head, second);
    let (third, rest) = rest.split_at_mut(payload.len());
    write_symbols::<K>(payload, third);
    let (fourth, _) = rest.split_at_mut(K::check_symbols());
    write_symbols::<K>(register.numbers(), fourth);
}
