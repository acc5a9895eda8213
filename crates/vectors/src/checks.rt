// Lines under check: what each is made of, or why it is refused.
use crate::refusals::is_refused;
use crate::tally::Tally;
use codes::{Line, Part, Refusal};
use kinds::Kind;

// The line of a lone secret, and its parts.
#[derive(Clone, Copy)]
pub struct Lone<'a> {
    pub line: &'a str,
    pub identifier: &'a str,
    pub payload: &'a str,
}

// The line of a share, and its parts.
#[derive(Clone, Copy)]
pub struct Share<'a> {
    pub line: &'a str,
    pub threshold: u8,
    pub identifier: &'a str,
    pub index: &'a str,
    pub payload: &'a str,
}

impl Tally<'_> {
    pub fn lone<K: Kind>(&mut self, lone: Lone<'_>) -> anyhow::Result<()> {
        let parts = Line::Lone {
            identifier: part(4, lone.identifier),
            payload: part(9, lone.payload),
        };
        self.accepted::<K>(lone.line, parts)
    }

    pub fn share<K: Kind>(&mut self, share: Share<'_>) -> anyhow::Result<()> {
        let parts = Line::Share {
            threshold: share.threshold,
            identifier: part(4, share.identifier),
            index: part(8, share.index),
            payload: part(9, share.payload),
        };
        self.accepted::<K>(share.line, parts)
    }

    // A line with these parts.
    fn accepted<K: Kind>(&mut self, line: &str, parts: Line<'_>) -> anyhow::Result<()> {
        self.add(line, codes::check::<K>(line.as_bytes()) == Ok(parts))
    }

    // No line of this kind.
    pub fn refused<K: Kind>(&mut self, line: &str, refusal: Refusal) -> anyhow::Result<()> {
        let agrees = is_refused(codes::check::<K>(line.as_bytes()), refusal);
        self.add(line, agrees)
    }
}

fn part(place: usize, text: &str) -> Part<'_> {
    Part {
        place,
        text: text.as_bytes(),
    }
}
