// One step of the program, which each solver takes, and how it is drawn.
use crate::draws::Draws;
use crate::record::Record;

/// What memory a trial is lent.
#[derive(Clone, Copy, Debug, PartialEq, Eq)]
pub enum Lent {
    /// more than enough of both
    Ample,
    /// exactly enough of both
    Exact,
    /// a table one element too small
    ShortTable,
    /// certificate memory one byte too short
    ShortCertificate,
}

/// A trial of the edge between two vertices.
#[derive(Clone, Copy, Debug, PartialEq, Eq)]
pub struct Trial {
    pub i: usize,
    pub j: usize,
    pub degree: usize,
    pub lent: Lent,
}

impl Trial {
    // A trial with more memory than it needs.
    fn ample((i, j): (usize, usize), degree: usize) -> Trial {
        Trial {
            i,
            j,
            degree,
            lent: Lent::Ample,
        }
    }
}

/// A call on a solver, with the memory still to be lent.
#[derive(Clone, Copy, Debug, PartialEq, Eq)]
pub enum Step {
    OpenVertex,
    AddEdge(usize, usize),
    RemoveEdge(usize, usize),
    Raise,
    TryEdge(Trial),
    Check,
}

/// A step, and the record of the graph after it.
#[derive(Clone, Copy, Debug, PartialEq, Eq)]
pub struct Round {
    pub step: Step,
    pub after: Record,
}

/// How often a pair is drawn before it is taken as it comes.
const DRAWS: usize = 12;

/// Up to how many vertices trials are of degree 2 too.
const FEW: usize = 4;

/// Steps that are drawn one after the other, each for the graph that those before it come to.
#[derive(Drop)]
pub struct Script {
    draws: Draws,
    record: Record,
}

impl Script {
    /// The script that starts from a seed.
    pub fn new(seed: u64) -> Self {
        Script {
            draws: Draws::new(seed),
            record: Record::default(),
        }
    }

    // An open vertex.
    fn vertex(&mut self) -> usize {
        self.draws.below(self.record.open())
    }

    // Two vertices, of which the last number may be that of one not open.
    fn ends(&mut self) -> (usize, usize) {
        let bound = self.record.open().saturating_add(1);
        (self.draws.below(bound), self.draws.below(bound))
    }

    // Two open vertices between which an edge stands, or could and does not. Where few draws find none, the last are taken.
    fn pair(&mut self, stands: bool) -> (usize, usize) {
        let mut pair = (self.vertex(), self.vertex());
        for _ in 1..DRAWS {
            let (i, j) = pair;
            if self.record.takes(i, j) && self.record.joins(i, j) == stands {
                break;
            }
            pair = (self.vertex(), self.vertex());
        }
        pair
    }

    // A trial of an edge that does not stand, with memory of a kind.
    fn new_edge(&mut self, lent: Lent) -> Trial {
        let (i, j) = self.pair(false);
        let degree = if self.record.open() <= FEW && self.draws.below(3) == 0 {
            2
        } else {
            1
        };
        Trial { i, j, degree, lent }
    }

    fn trial(&mut self) -> Trial {
        match self.draws.below(14) {
            // one vertex twice
            0 => {
                let vertex = self.vertex();
                Trial::ample((vertex, vertex), 1)
            }
            // a vertex that is not open
            1 => Trial::ample((self.vertex(), self.record.open()), 1),
            // degrees that there are not
            2 => Trial::ample(self.pair(false), 0),
            3 => Trial::ample(self.pair(false), 49),
            // an edge that stands
            4 => Trial::ample(self.pair(true), 1),
            5 => self.new_edge(Lent::ShortTable),
            6 => self.new_edge(Lent::ShortCertificate),
            7 => self.new_edge(Lent::Exact),
            _ => self.new_edge(Lent::Ample),
        }
    }

    fn step(&mut self, most: usize) -> Step {
        match self.draws.below(20) {
            0 | 1 if self.record.open() < most => Step::OpenVertex,
            2..=6 => {
                let (i, j) = self.ends();
                Step::AddEdge(i, j)
            }
            7 | 8 => {
                let (i, j) = self.ends();
                Step::RemoveEdge(i, j)
            }
            9 | 10 => Step::Raise,
            11..=13 => Step::Check,
            _ => Step::TryEdge(self.trial()),
        }
    }

    /// Draws the next round, with so many vertices open at most.
    pub fn round(&mut self, most: usize) -> Round {
        let step = self.step(most);
        self.record.follow(step);
        Round {
            step,
            after: self.record,
        }
    }
}
