// What a solver replies to a call.
ghost use Rattle.std.specs.Prelude.{Some};
ghost use Rattle.nulla.specs.Words.{answer_text};

use certificates::{Refusal, Verdict};
use std::fmt;

/// What a call comes to that is not refused.
#[derive(Clone, Copy, Debug, PartialEq, Eq, Hash)]
pub enum Answer {
    /// The new vertex has this number.
    Opened(u8),
    /// An edge was added or removed.
    Done,
    /// A raise or a trial worked a degree.
    Worked(Verdict),
    /// The certificate adds up to one.
    Passed,
}

impl fmt::Display for Answer {
    ghost output = { λ answer. Some (answer_text answer) };

    fn fmt<W: fmt::Write>(&self, f: &mut fmt::Formatter<W>) -> fmt::Result {
        match self {
            Answer::Opened(vertex) => write!(f, "batch {vertex}"),
            Answer::Done => write!(f, "ok"),
            Answer::Worked(verdict) => write!(f, "{verdict}"),
            Answer::Passed => write!(f, "passes"),
        }
    }
}

/// The reply to a call: its answer, or the ground on which it was refused. A refused call changed nothing, but for the zeros that a check
/// leaves in the table where the sum is not one.
pub type Reply = Result<Answer, Refusal>;
