// Lengths of the buffers that commands write into.
ghost use Rattle.std.specs.Prelude.{◌≡◌};
ghost use Rattle.movkrig.specs.Lengths.{length_of, with_digit};

// Where a command does not say it; any line and any payload has room.
pub const USUAL_LENGTH: usize = 128;

pub const MOST_LENGTH: usize = 1024;

// The length that a word says in decimal, if it is one.
pub fn read_length(word: &[u8]) -> Option<usize>
    ensures { result ≡ length_of word.now }
{
    let mut length = 0;
    // A `try_fold` was tried, and its goal stayed open.
    for c in word {
        length = with_digit(length, *c)?;
    }
    Some(length)
}

// The number with one digit more behind it, if it is no longer than a length may be.
fn with_digit(number: usize, c: u8) -> Option<usize>
    ensures { result ≡ with_digit number c }
{
    let digit = char::from(c).to_digit(10)? as usize;
    let more = number.checked_mul(10)?.checked_add(digit)?;
    (more <= MOST_LENGTH).then_some(more)
}
