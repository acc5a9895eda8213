// The kinds over the 32 letters and digits, by the parts of their codes.
ghost use Rattle.std.specs.Prelude.{◌≡◌, refl};
ghost use Rattle.kinds.specs.Letters.{letters_bytes, letters_code, whole};

use crate::bytes::ByteKind;
use crate::embedding::embedded;
use crate::kind::Kind;
use crate::parts::LetterCode;
use fields::{Gf32, Pair};

impl<C: LetterCode> Kind for C {
    type Symbol = Gf32;

    type Correction = Pair<Gf32>;

    const CHECK_COUNT: usize = C::CHECK_COUNT;

    const FIRST_EXPONENT: usize = C::FIRST_EXPONENT;

    const SECRET_INDEX: u8 = 16;

    ghost CHECK_COUNT = { C.CHECK_COUNT };

    ghost FIRST_EXPONENT = { C.FIRST_EXPONENT };

    ghost SECRET_INDEX = { 16 };

    ghost code = { letters_code C.parts };

    ghost checks_are = { C.checks_are };

    ghost first_is = { C.first_is };

    ghost secret_is = { refl };

    ghost lawful = { C.lawful };

    fn prefix<'a>() -> &'a [u8] {
        b"MS1"
    }

    fn alphabet<'a>() -> &'a [u8] {
        b"QPZRY9X8GF2TVDW0S3JN54KHCE6MUA7L"
    }

    fn symbol_table<'a>() -> &'a [u8] {
        &SYMBOLS
    }

    fn start<'a>() -> &'a [u8] {
        &[1, 3, 3, 0, 13, 19]
    }

    fn generator<'a>() -> &'a [u8] {
        C::parts().generator
    }

    fn target<'a>() -> &'a [u8] {
        C::parts().target
    }

    fn embed(symbol: Gf32) -> Pair<Gf32> {
        embedded(symbol)
    }

    fn base() -> Pair<Gf32> {
        C::parts().base
    }

    fn allows(n: usize) -> bool {
        let parts = C::parts();
        (parts.shortest..=parts.longest).contains(&n) && is_whole(n)
    }
}

impl<C: LetterCode> ByteKind for C {
    ghost takes = { letters_bytes C.parts };

    ghost whole = { C.whole };

    fn takes_bytes(m: usize) -> bool {
        let parts = C::parts();
        (parts.fewest_bytes..=parts.most_bytes).contains(&m)
    }
}

// Whether a payload of n symbols can come from whole bytes.
fn is_whole(n: usize) -> bool
    ensures { result ≡ whole n }
{
    !matches!(n % 8, 1 | 3 | 6)
}

// The place of each byte in the alphabet, small letters as capitals; 32 for a byte that has none.
const SYMBOLS: [u8; 256] = *b"\
    \x20\x20\x20\x20\x20\x20\x20\x20\x20\x20\x20\x20\x20\x20\x20\x20\x20\x20\x20\x20\x20\x20\x20\x20\x20\x20\x20\x20\x20\x20\x20\x20\
    \x20\x20\x20\x20\x20\x20\x20\x20\x20\x20\x20\x20\x20\x20\x20\x20\x0f\x20\x0a\x11\x15\x14\x1a\x1e\x07\x05\x20\x20\x20\x20\x20\x20\
    \x20\x1d\x20\x18\x0d\x19\x09\x08\x17\x20\x12\x16\x1f\x1b\x13\x20\x01\x00\x03\x10\x0b\x1c\x0c\x0e\x06\x04\x02\x20\x20\x20\x20\x20\
    \x20\x1d\x20\x18\x0d\x19\x09\x08\x17\x20\x12\x16\x1f\x1b\x13\x20\x01\x00\x03\x10\x0b\x1c\x0c\x0e\x06\x04\x02\x20\x20\x20\x20\x20\
    \x20\x20\x20\x20\x20\x20\x20\x20\x20\x20\x20\x20\x20\x20\x20\x20\x20\x20\x20\x20\x20\x20\x20\x20\x20\x20\x20\x20\x20\x20\x20\x20\
    \x20\x20\x20\x20\x20\x20\x20\x20\x20\x20\x20\x20\x20\x20\x20\x20\x20\x20\x20\x20\x20\x20\x20\x20\x20\x20\x20\x20\x20\x20\x20\x20\
    \x20\x20\x20\x20\x20\x20\x20\x20\x20\x20\x20\x20\x20\x20\x20\x20\x20\x20\x20\x20\x20\x20\x20\x20\x20\x20\x20\x20\x20\x20\x20\x20\
    \x20\x20\x20\x20\x20\x20\x20\x20\x20\x20\x20\x20\x20\x20\x20\x20\x20\x20\x20\x20\x20\x20\x20\x20\x20\x20\x20\x20\x20\x20\x20\x20";
