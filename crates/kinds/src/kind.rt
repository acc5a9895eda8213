// A kind of share. The ghost member holds its code as a definition, and the law says that the code is fit for use;
// the functions give generic code all of it. Words of symbols are given by the numbers of the symbols.
ghost use Rattle.std.specs.Prelude.{◌≡◌, ℕ};
ghost use Rattle.kinds.specs.Code.{Code, Lawful};
ghost use Rattle.kinds.specs.Characters.{places};
ghost use Rattle.kinds.specs.Words.{numbers};

use fields::Field;

pub trait Kind {
    type Symbol: Field;

    type Correction: Field;

    // How many check symbols a line has.
    const CHECK_COUNT: usize;

    // The first exponent of eight in a row whose powers of the base are roots.
    const FIRST_EXPONENT: usize;

    // The index at which the secret lies, by its number.
    const SECRET_INDEX: u8;

    ghost CHECK_COUNT: { ℕ };

    ghost FIRST_EXPONENT: { ℕ };

    ghost SECRET_INDEX: { ℕ };

    ghost code: { Code Self.Symbol Self.Correction };

    // The three characters in front.
    fn prefix<'a>() -> &'a [u8]
        ensures { result.now ≡ code.prefix };

    // The character of each symbol, by its number.
    fn alphabet<'a>() -> &'a [u8]
        ensures { result.now ≡ code.alphabet };

    // For each byte the number of the symbol that it stands for, in either case; q for a byte that stands for none.
    fn symbol_table<'a>() -> &'a [u8]
        ensures { result.now ≡ places code.alphabet };

    // The index at which the secret lies, by its number.
    fn secret_number() -> u8
        ensures { result ≡ Self.Symbol.Field.ops.number code.secret }
    {
        Self::SECRET_INDEX
    }

    // The word in front of the data.
    fn start<'a>() -> &'a [u8]
        ensures { result.now ≡ numbers Self.Symbol.Field.ops code.start };

    // The generator below its leading 1.
    fn generator<'a>() -> &'a [u8]
        ensures { result.now ≡ numbers Self.Symbol.Field.ops code.generator };

    // The remainder that is asked for.
    fn target<'a>() -> &'a [u8]
        ensures { result.now ≡ numbers Self.Symbol.Field.ops code.target };

    // How many check symbols a line has.
    fn check_symbols() -> usize
        ensures { result ≡ code.checks }
    {
        Self::CHECK_COUNT
    }

    // A symbol as an element of the correction field.
    fn embed(symbol: Self::Symbol) -> Self::Correction
        ensures { result ≡ code.embed symbol };

    // The element whose powers are roots of the generator and tell the places of a line apart.
    fn base() -> Self::Correction
        ensures { result ≡ code.base };

    // The first exponent of eight in a row whose powers of the base are roots.
    fn first_power() -> usize
        ensures { result ≡ code.first }
    {
        Self::FIRST_EXPONENT
    }

    // Whether a payload may have n symbols.
    fn allows(n: usize) -> bool
        ensures { result ≡ code.allows n };

    // The constants are the code's.
    ghost checks_are: { CHECK_COUNT ≡ code.checks };

    ghost first_is: { FIRST_EXPONENT ≡ code.first };

    ghost secret_is: { SECRET_INDEX ≡ Self.Symbol.Field.ops.number code.secret };

    ghost lawful: { Lawful Self.Symbol.Field.ops Self.Correction.Field.ops code };
}
