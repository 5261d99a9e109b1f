// What reading the solvers' graphs back came to.
use std::fmt;

/// How many pairs of vertices were read back, and how many of them were not as recorded.
#[derive(Clone, Copy, Debug, Default, PartialEq, Eq)]
pub struct Readings {
    pairs: usize,
    wrong: usize,
}

impl Readings {
    /// Adds a pair that was read back.
    pub fn note(&mut self, as_recorded: bool) {
        self.pairs = self.pairs.saturating_add(1);
        self.wrong = self.wrong.saturating_add(usize::from(!as_recorded));
    }

    /// Adds what another solver's graph came to.
    pub fn add(&mut self, other: Readings) {
        self.pairs = self.pairs.saturating_add(other.pairs);
        self.wrong = self.wrong.saturating_add(other.wrong);
    }
}

impl fmt::Display for Readings {
    fn fmt<W: fmt::Write>(&self, f: &mut fmt::Formatter<W>) -> fmt::Result {
        let Readings { pairs, wrong } = self;
        write!(f, "pairs read back {pairs}, wrong {wrong}")
    }
}
