// The short code of BIP-93, for payloads of 26 to 74 symbols.
ghost use Rattle.std.specs.Prelude.{refl};
ghost use Rattle.kinds.specs.Letters.{short_parts};
ghost use Rattle.kinds.specs.Three.{short_lawful};
ghost use Rattle.kinds.specs.Wholes.{short_whole};

use crate::parts::{CodeParts, LetterCode};
use fields::numbered;

pub struct ShortLetters;

impl LetterCode for ShortLetters {
    const CHECK_COUNT: usize = 13;

    const FIRST_EXPONENT: usize = 77;

    ghost CHECK_COUNT = { 13 };

    ghost FIRST_EXPONENT = { 77 };

    ghost parts = { short_parts };

    ghost checks_are = { refl };

    ghost first_is = { refl };

    ghost lawful = { short_lawful };

    ghost whole = { short_whole };

    fn parts<'a>() -> CodeParts<'a> {
        CodeParts {
            generator: &[25, 27, 17, 8, 0, 25, 25, 25, 31, 27, 24, 16, 16],
            // SECRETSHARE32
            target: &[16, 25, 24, 3, 25, 11, 16, 23, 29, 3, 25, 17, 10],
            base: numbered(256),
            shortest: 26,
            longest: 74,
            fewest_bytes: 16,
            most_bytes: 46,
        }
    }
}
