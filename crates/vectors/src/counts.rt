// How many symbols a payload may have: 26 to 74 and 76 to 103 letters, as many as some whole bytes need, and 4 to 40 digits.
use crate::tally::Tally;
use kinds::{Digits, Kind, LongLetters, ShortLetters};

pub fn compare(tally: &mut Tally<'_>) -> anyhow::Result<()> {
    tally.counts::<ShortLetters>(SHORT)?;
    tally.counts::<LongLetters>(LONG)?;
    tally.counts::<Digits>(DIGITS)
}

#[derive(Clone, Copy)]
struct Counts {
    of: &'static str,
    allowed: &'static [usize],
    forbidden: &'static [usize],
}

const SHORT: Counts = Counts {
    of: "short letters",
    allowed: &[26, 28, 29, 31, 32, 52, 74],
    forbidden: &[0, 25, 27, 30, 33, 73, 75, 76, 103, 104],
};

const LONG: Counts = Counts {
    of: "long letters",
    allowed: &[76, 77, 79, 80, 82, 103],
    forbidden: &[0, 25, 26, 27, 74, 75, 78, 81, 83, 102, 104],
};

const DIGITS: Counts = Counts {
    of: "digits",
    allowed: &[4, 5, 39, 40],
    forbidden: &[0, 3, 41],
};

impl Tally<'_> {
    fn counts<K: Kind>(&mut self, counts: Counts) -> anyhow::Result<()> {
        let of = counts.of;
        // Two loops: one for both would need a flag.
        for n in counts.allowed {
            self.add(format_args!("{n} {of}"), K::allows(*n))?;
        }
        for n in counts.forbidden {
            self.add(format_args!("{n} {of}"), !K::allows(*n))?;
        }
        Ok(())
    }
}
