// Bytes in hexadecimal: two digits each, the higher first, letters in either case.
ghost use Rattle.std.specs.Prelude.{◌≡◌, ◌+◌, ◌*◌, is_some, IfOk};
ghost use Rattle.std.specs.List.{list_all};
ghost use Rattle.movkrig.specs.Hexadecimal.{hex_digit, hex_value, hex_bytes, is_hexadecimal};

use std::alloc::{AllocError, Global};
use std::fmt;

// What a digit stands for.
fn digit(c: u8) -> Option<u8>
    ensures { result ≡ hex_digit c }
{
    char::from(c).to_digit(16).map(|value| value as u8)
}

// Whether a word is pairs of digits.
pub fn is_hexadecimal(word: &[u8]) -> bool
    ensures { result ≡ is_hexadecimal word.now }
{
    word.len() % 2 == 0 && are_digits(word)
}

fn are_digits(word: &[u8]) -> bool
    ensures { result ≡ list_all (λ c. is_some (hex_digit c)) word.now }
{
    word.iter().all(|c| digit(*c).is_some())
}

// The byte of two digits. What is none counts as 0: words are tested where they are read, and nothing is asked here.
fn byte(high: u8, low: u8) -> u8
    ensures { result ≡ 16 * hex_value high + hex_value low }
{
    16 * digit(high).unwrap_or(0) + digit(low).unwrap_or(0)
}

// The bytes that pairs of digits stand for.
pub fn bytes_of(heap: Global, word: &[u8]) -> Result<Vec<u8>, AllocError>
    ensures { IfOk result (λ v. v.items ≡ hex_bytes word.now) }
{
    let (pairs, _) = word.as_chunks::<2>();
    pairs
        .iter()
        .map(|pair| byte(pair[0], pair[1]))
        .collect(heap)
}

// Bytes as they are shown, in small letters.
#[derive(Clone, Copy)]
pub struct Hexadecimal<'a>(pub &'a [u8]);

impl fmt::Display for Hexadecimal<'_> {
    fn fmt<W: fmt::Write>(&self, f: &mut fmt::Formatter<W>) -> fmt::Result {
        for b in self.0 {
            write!(f, "{b:02x}")?;
        }
        Ok(())
    }
}
