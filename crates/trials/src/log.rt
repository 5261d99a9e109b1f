// What the calls on a solver came to: an entry for each, and how many there are of a kind.
use nulla::{Refusal, Verdict};
use std::alloc::{AllocError, Global};
use std::collections::BTreeMap;
use std::fmt;

/// Which call was made. Those by which a graph is read back are not among them.
#[derive(Clone, Copy, Debug, PartialEq, Eq)]
pub enum Call {
    OpenVertex,
    AddEdge,
    RemoveEdge,
    Raise,
    TryEdge,
    Check,
    /// the check of a trial's certificate, once the edge stands
    Confirm,
}

/// What a call came to, with the verdict that a raise or a trial gives.
pub type Outcome = Result<Option<Verdict>, Refusal>;

/// A call that was made.
#[derive(Clone, Copy, Debug, PartialEq, Eq)]
pub struct Entry {
    pub call: Call,
    pub outcome: Outcome,
    /// whether the solver is to say infeasible after it, noted apart from the solver
    pub infeasible: bool,
}

impl Entry {
    // The verdict, where one was given.
    fn verdict(&self) -> Option<Verdict> {
        self.outcome.ok().flatten()
    }

    fn is_infeasible(&self) -> bool {
        self.verdict()
            .is_some_and(|verdict| verdict.is_infeasible())
    }

    fn is_open(&self) -> bool {
        self.verdict()
            .is_some_and(|verdict| !verdict.is_infeasible())
    }
}

/// The calls on one solver.
#[derive(Drop)]
pub struct Log {
    entries: Vec<Entry>,
    /// how many calls were refused by each number
    refusals: BTreeMap<u8, usize>,
}

impl Log {
    /// No call yet.
    pub fn new(heap: Global) -> Log {
        Log {
            entries: Vec::new(heap),
            refusals: BTreeMap::new(heap),
        }
    }

    /// Adds a call that was made.
    pub fn note(&mut self, entry: Entry) -> Result<(), AllocError> {
        if let Err(refusal) = entry.outcome {
            let times = self.refusals.entry(u8::from(refusal))?.or_insert(0);
            *times = times.saturating_add(1);
        }
        self.entries.push(entry)?;
        Ok(())
    }

    // How many entries pass a test.
    fn count<F: Fn(&Entry) -> bool>(&self, test: F) -> usize
        requires { F.IsAlwaysCallable test }
    {
        self.entries.iter().filter(|entry| test(entry)).count()
    }

    fn calls(&self, call: Call) -> usize {
        self.count(|entry| entry.call == call)
    }

    // How many calls of a kind were accepted.
    fn accepted(&self, call: Call) -> usize {
        self.count(|entry| entry.call == call && entry.outcome.is_ok())
    }

    fn fmt_calls<W: fmt::Write>(&self, f: &mut fmt::Formatter<W>) -> fmt::Result {
        let checks = self
            .calls(Call::Check)
            .saturating_add(self.calls(Call::Confirm));
        writeln!(
            f,
            "{} open, {} add, {} remove, {} raise, {} try, {checks} check",
            self.calls(Call::OpenVertex),
            self.calls(Call::AddEdge),
            self.calls(Call::RemoveEdge),
            self.calls(Call::Raise),
            self.calls(Call::TryEdge)
        )
    }

    fn fmt_verdicts<W: fmt::Write>(&self, f: &mut fmt::Formatter<W>, call: Call) -> fmt::Result {
        write!(
            f,
            "{} infeasible, {} open",
            self.count(|entry| entry.call == call && entry.is_infeasible()),
            self.count(|entry| entry.call == call && entry.is_open())
        )
    }

    fn fmt_all_verdicts<W: fmt::Write>(&self, f: &mut fmt::Formatter<W>) -> fmt::Result {
        write!(f, "  raises ")?;
        self.fmt_verdicts(f, Call::Raise)?;
        write!(f, "; trials ")?;
        self.fmt_verdicts(f, Call::TryEdge)?;
        let while_infeasible = self.count(|entry| {
            entry.call == Call::TryEdge && entry.outcome.is_ok() && entry.infeasible
        });
        write!(f, ", {while_infeasible} of them while infeasible; ")
    }

    fn fmt_checks<W: fmt::Write>(&self, f: &mut fmt::Formatter<W>) -> fmt::Result {
        let confirmed = self.accepted(Call::Confirm);
        let passed = confirmed.saturating_add(self.accepted(Call::Check));
        writeln!(
            f,
            "checks {passed} passed, {confirmed} of them of trials whose edge was added"
        )
    }

    fn fmt_refusals<W: fmt::Write>(&self, f: &mut fmt::Formatter<W>) -> fmt::Result {
        write!(f, "  refusals by number:")?;
        for (number, times) in self.refusals.iter() {
            write!(f, " {number}:{times}")?;
        }
        Ok(())
    }
}

impl fmt::Display for Log {
    fn fmt<W: fmt::Write>(&self, f: &mut fmt::Formatter<W>) -> fmt::Result {
        self.fmt_calls(f)?;
        self.fmt_all_verdicts(f)?;
        self.fmt_checks(f)?;
        self.fmt_refusals(f)
    }
}
