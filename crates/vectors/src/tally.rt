// How many values of a group agree; the first that does not ends the program.
use anyhow::ensure;
use std::alloc::Global;
use std::fmt;
use std::fmt::Display;

#[derive(Clone, Copy)]
pub struct Tally<'a> {
    pub heap: Global,
    group: &'a str,
    agreed: usize,
}

impl<'a> Tally<'a> {
    pub fn new(heap: Global, group: &'a str) -> Tally<'a> {
        Tally {
            heap,
            group,
            agreed: 0,
        }
    }

    // Counts a value that agrees; whether it does is a test's answer, as `ensure!` takes one, and no choice of what to do.
    pub fn add(&mut self, value: impl Display + Drop, agrees: bool) -> anyhow::Result<()> {
        ensure!(agrees, "{}: {value} differs", self.group);
        self.agreed = self.agreed.saturating_add(1);
        Ok(())
    }

    // Counts the values of another group too.
    pub fn join(&mut self, other: Tally<'_>) {
        self.agreed = self.agreed.saturating_add(other.agreed);
    }
}

impl Display for Tally<'_> {
    fn fmt<W: fmt::Write>(&self, f: &mut fmt::Formatter<W>) -> fmt::Result {
        write!(f, "{}: {} agree", self.group, self.agreed)
    }
}
