// Characters of texts: their case, and the symbols that they stand for.
ghost use Rattle.std.specs.Prelude.{◌≡◌, false, ◌&&◌, ◌||◌};
ghost use Rattle.codes.specs.Texts.{SymbolOf, character_in, number_in};
ghost use Rattle.kinds.specs.Characters.{capital, small_letter, capital_letter, place};

use fields::Field;
use kinds::Kind;

// A small letter's capital; any other byte as it is.
pub(crate) fn capital(c: u8) -> u8
    ensures { result ≡ capital c }
{
    c.to_ascii_uppercase()
}

// Which cases of letters have occurred.
#[derive(Clone, Copy, Default)]
pub(crate) struct Cases {
    small: bool,
    capitals: bool,
}

impl Cases {
    pub(crate) fn none() -> Cases
        ensures small { result.small ≡ false }
        ensures capitals { result.capitals ≡ false }
    {
        Cases::default()
    }

    // The same after one more character.
    pub(crate) fn and(self, c: u8) -> Cases
        ensures small { result.small ≡ (self.small || small_letter c) }
        ensures capitals { result.capitals ≡ (self.capitals || capital_letter c) }
    {
        Cases {
            small: self.small || c.is_ascii_lowercase(),
            capitals: self.capitals || c.is_ascii_uppercase(),
        }
    }

    pub(crate) fn both(self) -> bool
        ensures { result ≡ (self.small && self.capitals) }
    {
        self.small && self.capitals
    }
}

// The place of a character in the alphabet, in either case; q for one that has none.
// No `Option`: it is a byte of a table, and `element` says of q that there is none.
pub(crate) fn place_of<K: Kind>(c: u8) -> u8
    ensures { result ≡ place K.Kind.code.alphabet (capital c) }
{
    K::symbol_table()[usize::from(c)]
}

// The symbol that a character stands for, in either case.
pub(crate) fn symbol<K: Kind>(c: u8) -> Option<K::Symbol>
    ensures { SymbolOf K.Symbol.Field.ops K.Kind.code c result }
{
    K::Symbol::element(u16::from(place_of::<K>(c)))
}

// The number of the symbol that a character stands for, in either case.
pub fn symbol_number<K: Kind>(c: u8) -> Option<u8>
    ensures { result ≡ number_in K.Kind.code c }
{
    let number = place_of::<K>(c);
    (usize::from(number) < K::alphabet().len()).then_some(number)
}

// The character of the symbol with a number.
pub fn symbol_character<K: Kind>(number: u8) -> Option<u8>
    ensures { result ≡ character_in K.Kind.code number }
{
    K::alphabet().get(usize::from(number)).copied()
}
