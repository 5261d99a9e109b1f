// A solver, and the memory lent to it. After every call its graph is read back.
use crate::log::{Call, Entry, Log, Outcome};
use crate::readings::Readings;
use crate::record::Record;
use crate::sizes::{Counted, Sizes, rows};
use crate::step::{Lent, Round, Step, Trial};
use fields::Field;
use layout::HEAD;
use nulla::{Refusal, Solver, Verdict};
use std::alloc::{AllocError, Global};

/// What degree 1 needs where seven vertices are all joined: 330 rows, and 63 equations by 8 monomials.
const ELEMENTS: usize = 330 * 505;

const BYTES: usize = HEAD + 504 + 63;

/// A certificate that was written: its degree, and how many bytes it has.
#[derive(Clone, Copy, Debug, Default, PartialEq, Eq)]
struct Written {
    degree: u8,
    length: usize,
}

/// A solver, the memory lent to it, and what its calls came to.
#[derive(Drop)]
pub struct Side<E: Counted> {
    solver: Solver<E>,
    table: Vec<E::Coeff>,
    /// holds the certificate last written, which later calls leave as it is until one writes another
    certificate: Vec<u8>,
    written: Option<Written>,
    /// whether the solver is to say infeasible by what its calls gave: noted here, apart from the solver
    infeasible: bool,
    log: Log,
    /// what reading the graph back came to
    readings: Readings,
}

// The first elements of a memory, or all where there are no more.
fn first<T>(memory: &mut [T], most: usize) -> &mut [T] {
    let count = most.min(memory.len());
    &mut memory[..count]
}

impl<E: Counted + Drop> Side<E> {
    /// A new solver over an encoding.
    pub fn new(heap: Global, encoding: E) -> Result<Self, AllocError> {
        Ok(Side {
            solver: Solver::new(encoding),
            table: vec![in heap; E::Coeff::zero(); ELEMENTS]?,
            certificate: vec![in heap; 0u8; BYTES]?,
            written: None,
            infeasible: false,
            log: Log::new(heap),
            readings: Readings::default(),
        })
    }

    /// What the calls came to.
    pub fn log(&self) -> &Log {
        &self.log
    }

    /// What reading the graph back came to.
    pub fn readings(&self) -> Readings {
        self.readings
    }

    // An edge that stands cannot be added, and one that does not cannot be removed: neither call changes the solver.
    fn is_as_recorded(&mut self, i: usize, j: usize, record: &Record) -> bool {
        if record.joins(i, j) {
            matches!(self.solver.add_edge(i, j), Err(Refusal::AlreadyJoined))
        } else {
            matches!(self.solver.remove_edge(i, j), Err(Refusal::NotJoined))
        }
    }

    // Compares the solver's graph with the record.
    fn read_back(&mut self, record: &Record) {
        for i in 0..record.open() {
            for j in i + 1..record.open() {
                let as_recorded = self.is_as_recorded(i, j, record);
                self.readings.note(as_recorded);
            }
        }
    }

    // Notes what a call came to, after which the graph is to be as recorded.
    fn note(&mut self, call: Call, outcome: Outcome, after: &Record) -> Result<(), AllocError> {
        self.log.note(Entry {
            call,
            outcome,
            infeasible: self.infeasible,
        })?;
        self.read_back(after);
        Ok(())
    }

    fn open_vertex(&mut self, after: &Record) -> Result<(), AllocError> {
        let outcome = self.solver.open_vertex();
        self.note(Call::OpenVertex, outcome.map(|_| None), after)
    }

    fn add_edge(&mut self, i: usize, j: usize, after: &Record) -> Result<(), AllocError> {
        let outcome = self.solver.add_edge(i, j);
        self.note(Call::AddEdge, outcome.map(|()| None), after)
    }

    fn remove_edge(&mut self, i: usize, j: usize, after: &Record) -> Result<(), AllocError> {
        let outcome = self.solver.remove_edge(i, j);
        self.infeasible = self.infeasible && outcome.is_err();
        self.note(Call::RemoveEdge, outcome.map(|()| None), after)
    }

    // Notes which certificate was written, where one was.
    fn keep(&mut self, verdict: Verdict) {
        if let Verdict::Infeasible { degree, length } = verdict {
            self.written = Some(Written { degree, length });
        }
    }

    fn raise(&mut self, after: &Record) -> Result<(), AllocError> {
        let outcome = self.solver.raise(&mut self.table, &mut self.certificate);
        if let Ok(verdict) = outcome {
            self.infeasible = verdict.is_infeasible();
            self.keep(verdict);
        }
        self.note(Call::Raise, outcome.map(Some), after)
    }

    // Checks the certificate last written, with exactly the table that its sum takes. Before any is written, an empty certificate is
    // checked, which is refused.
    fn check(&mut self, call: Call, after: &Record) -> Result<(), AllocError> {
        let Written { degree, length } = self.written.unwrap_or_default();
        let certificate = first(&mut self.certificate, length);
        let table = first(&mut self.table, rows(after, usize::from(degree)));
        let outcome = self.solver.check(certificate, table);
        self.note(call, outcome.map(|()| None), after)
    }

    // The memory that a trial is lent, given the graph with its edge.
    fn sizes_lent(&self, trial: Trial, with: &Record) -> Sizes {
        let needed = Sizes::of::<E>(with, trial.degree);
        let ample = Sizes {
            elements: self.table.len(),
            bytes: self.certificate.len(),
        };
        match trial.lent {
            Lent::Ample => ample,
            Lent::Exact => needed,
            Lent::ShortTable => Sizes {
                elements: needed.elements.saturating_sub(1),
                ..ample
            },
            Lent::ShortCertificate => Sizes {
                bytes: needed.bytes.saturating_sub(1),
                ..ample
            },
        }
    }

    // Adds an edge that was tried, checks the certificate that the trial wrote, and removes the edge again.
    fn confirm(
        &mut self,
        i: usize,
        j: usize,
        before: &Record,
        with: &Record,
    ) -> Result<(), AllocError> {
        self.add_edge(i, j, with)?;
        self.check(Call::Confirm, with)?;
        self.remove_edge(i, j, before)
    }

    fn try_edge(&mut self, trial: Trial, after: &Record) -> Result<(), AllocError> {
        let Trial { i, j, degree, .. } = trial;
        let with = after.with_edge(i, j);
        let sizes = self.sizes_lent(trial, &with);
        let table = first(&mut self.table, sizes.elements);
        let certificate = first(&mut self.certificate, sizes.bytes);
        let outcome = self.solver.try_edge(i, j, degree, table, certificate);
        self.note(Call::TryEdge, outcome.map(Some), after)?;
        if let Ok(verdict) = outcome {
            self.keep(verdict);
            if verdict.is_infeasible() {
                self.confirm(i, j, after, &with)?;
            }
        }
        Ok(())
    }

    /// Takes the step of a round, after which the graph is to be as recorded.
    pub fn take(&mut self, round: &Round) -> Result<(), AllocError> {
        let after = &round.after;
        match round.step {
            Step::OpenVertex => self.open_vertex(after),
            Step::AddEdge(i, j) => self.add_edge(i, j, after),
            Step::RemoveEdge(i, j) => self.remove_edge(i, j, after),
            Step::Raise => self.raise(after),
            Step::TryEdge(trial) => self.try_edge(trial, after),
            Step::Check => self.check(Call::Check, after),
        }
    }
}
