// The parts in which the codes over the letters differ.
ghost use Rattle.std.specs.Prelude.{◌≡◌, ℕ};
ghost use Rattle.fields.specs.Gf32.{gf32};
ghost use Rattle.fields.specs.Extensions.{gf1024};
ghost use Rattle.kinds.specs.Bytes.{Bytes};
ghost use Rattle.kinds.specs.Code.{Lawful};
ghost use Rattle.kinds.specs.Letters.{Parts, letters_bytes, letters_code};
ghost use Rattle.kinds.specs.Words.{numbers};

use fields::{Gf32, Pair};

// Words by the numbers of their symbols, the base, and the fewest and the most symbols or bytes of a payload.
#[derive(Clone, Copy)]
pub struct CodeParts<'a> {
    pub generator: &'a [u8],
    pub target: &'a [u8],
    pub base: Pair<Gf32>,
    pub shortest: usize,
    pub longest: usize,
    pub fewest_bytes: usize,
    pub most_bytes: usize,
}

pub trait LetterCode {
    const CHECK_COUNT: usize;

    const FIRST_EXPONENT: usize;

    ghost CHECK_COUNT: { ℕ };

    ghost FIRST_EXPONENT: { ℕ };

    ghost parts: { Parts };

    fn parts<'a>() -> CodeParts<'a>
        ensures generator { result.generator.now ≡ numbers gf32 parts.generator }
        ensures target { result.target.now ≡ numbers gf32 parts.target }
        ensures base { result.base ≡ parts.base }
        ensures shortest { result.shortest ≡ parts.shortest }
        ensures longest { result.longest ≡ parts.longest }
        ensures fewest_bytes { result.fewest_bytes ≡ parts.fewest_bytes }
        ensures most_bytes { result.most_bytes ≡ parts.most_bytes };

    // What each `impl` must prove.
    ghost checks_are: { CHECK_COUNT ≡ parts.checks };

    ghost first_is: { FIRST_EXPONENT ≡ parts.first };

    ghost lawful: { Lawful gf32 gf1024 (letters_code parts) };

    ghost whole: { Bytes gf32 (letters_code parts) (letters_bytes parts) };
}
