// Characters as they are typed and shown, and the numbers of symbols that the library takes and gives.
ghost use Rattle.std.specs.Prelude.{◌≡◌, IfOk};
ghost use Rattle.movkrig.specs.Symbols.{characters_of, numbers_of};

use kinds::Kind;
use std::alloc::{AllocError, Global};

// No symbol has this number. It stands for none, since the library counts symbols first, and then refuses this one.
const NO_SYMBOL: u8 = 255;

// The number of each character's symbol.
pub fn numbers<K: Kind>(heap: Global, text: &[u8]) -> Result<Vec<u8>, AllocError>
    ensures { IfOk result (λ v. v.items ≡ numbers_of K.Kind.code text.now) }
{
    text.iter()
        .map(|c| codes::symbol_number::<K>(*c).unwrap_or(NO_SYMBOL))
        .collect(heap)
}

// The character of each symbol; the definition has `?` for a number that is none, though the library gives none such.
pub fn characters<K: Kind>(heap: Global, numbers: &[u8]) -> Result<Vec<u8>, AllocError>
    ensures { IfOk result (λ v. v.items ≡ characters_of K.Kind.code numbers.now) }
{
    numbers
        .iter()
        .map(|n| codes::symbol_character::<K>(*n).unwrap_or(b'?'))
        .collect(heap)
}
