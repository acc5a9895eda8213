// Bytes of the input as they may be shown: a terminal obeys some bytes that are not printable.
ghost use Rattle.std.specs.Prelude.{◌≡◌};
ghost use Rattle.movkrig.specs.Printable.{printable};

use std::fmt;
use std::fmt::Write;

#[derive(Clone, Copy)]
pub struct Printable<'a>(pub &'a [u8]);

// The character for a byte; a question mark for one that is not printable ASCII, which no method of the library gives.
fn shown(b: u8) -> char
    ensures { result ≡ printable b }
{
    if b.is_ascii_graphic() {
        char::from(b)
    } else {
        '?'
    }
}

impl fmt::Display for Printable<'_> {
    fn fmt<W: fmt::Write>(&self, f: &mut fmt::Formatter<W>) -> fmt::Result {
        for b in self.0 {
            f.write_char(shown(*b))?;
        }
        Ok(())
    }
}
