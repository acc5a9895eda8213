// The long code of BIP-93, for payloads of 76 to 103 symbols.
ghost use Rattle.std.specs.Prelude.{refl};
ghost use Rattle.kinds.specs.Letters.{long_parts};
ghost use Rattle.kinds.specs.Three.{long_lawful};
ghost use Rattle.kinds.specs.Wholes.{long_whole};

use crate::parts::{CodeParts, LetterCode};
use fields::numbered;

pub struct LongLetters;

impl LetterCode for LongLetters {
    const CHECK_COUNT: usize = 15;

    const FIRST_EXPONENT: usize = 1019;

    ghost CHECK_COUNT = { 15 };

    ghost FIRST_EXPONENT = { 1019 };

    ghost parts = { long_parts };

    ghost checks_are = { refl };

    ghost first_is = { refl };

    ghost lawful = { long_lawful };

    ghost whole = { long_whole };

    fn parts<'a>() -> CodeParts<'a> {
        CodeParts {
            generator: &[15, 10, 25, 26, 9, 25, 21, 6, 23, 21, 6, 5, 22, 4, 23],
            // SECRETSHARE32EX
            target: &[16, 25, 24, 3, 25, 11, 16, 23, 29, 3, 25, 17, 10, 25, 6],
            base: numbered(217),
            shortest: 76,
            longest: 103,
            fewest_bytes: 47,
            most_bytes: 64,
        }
    }
}
