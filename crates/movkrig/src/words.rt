// The words of a line: its longest runs of bytes that are not blank.
ghost use Rattle.std.specs.Prelude.{◌≡◌, not, [], ◌∷◌, length, MatchOption};
ghost use Rattle.std.specs.List.{position};
ghost use Rattle.movkrig.specs.Words.{blank, without_return, left_words};
ghost use Rattle.std.specs.Iterator.{at_most};

// Spaces and tabs stand between words.
fn is_blank(b: u8) -> bool
    ensures { result ≡ blank b }
{
    b == b' ' || b == b'\t'
}

// Where the first word begins. The next differs in a `!`: one function for both would have a flag.
fn word_start(line: &[u8]) -> Option<usize>
    ensures { result ≡ position (λ b. not (blank b)) line.now }
{
    line.iter().position(|b| !is_blank(*b))
}

// Where the word at the front ends, if it is not the rest of the line.
fn word_end(line: &[u8]) -> Option<usize>
    ensures { result ≡ position blank line.now }
{
    line.iter().position(|b| is_blank(*b))
}

// Some systems end a line by a carriage return and a newline.
fn without_return(line: &[u8]) -> &[u8]
    ensures { result.now ≡ without_return line.now }
{
    line.strip_suffix(b"\r").unwrap_or(line)
}

// What is left of a line whose words are read one by one.
#[derive(Clone, Copy)]
pub struct Words<'a> {
    rest: &'a [u8],
}

impl<'a> Words<'a> {
    pub fn of(line: &'a [u8]) -> Words<'a>
        ensures { result.rest.now ≡ without_return line.now }
    {
        Words {
            rest: without_return(line),
        }
    }
}

impl<'a> Iterator for Words<'a> {
    type Item = &'a [u8];

    ghost next_gives = { λ s r t. MatchOption r ((left_words s ≡ []) × (left_words t ≡ [])) (λ w. left_words s ≡ w.now ∷ left_words t) };

    ghost remaining = { λ s. at_most (length s.rest.now) };

    fn next(&mut self) -> Option<&'a [u8]> {
        let Some(start) = word_start(self.rest) else {
            // Blanks at the end are looked at once, however often the next word is asked for.
            self.rest = &[];
            return None;
        };
        let (_, rest) = self.rest.split_at(start);
        let (word, rest) = rest.split_at(word_end(rest).unwrap_or(rest.len()));
        self.rest = rest;
        Some(word)
    }
}
