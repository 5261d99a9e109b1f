// A solver of graph coloring by Nullstellensatz certificates: its calls, its replies and its refusals.
#![tactic(auto)]

pub mod call;
pub mod replay;
pub mod reply;
pub mod solver;
mod theorems;

pub use call::Call;
pub use certificates::{Refusal, Verdict};
use coloring::{Plain, Triangles};
use fields::{Bit, Four};
pub use layout::bytes_stand;
pub use reply::{Answer, Reply};
pub use solver::Solver;
pub use theorems::{one_outcome, runs_stand, verdicts_mean};

/// A solver over bits with the plain encoding.
pub type BitSolver = Solver<Plain<Bit>>;

/// A solver over the four values with the plain encoding.
pub type FourSolver = Solver<Plain<Four>>;

/// A solver over bits with triangles added to the plain encoding.
pub type BitTriangleSolver = Solver<Triangles<Plain<Bit>>>;

/// A solver over the four values with triangles added to the plain encoding.
pub type FourTriangleSolver = Solver<Triangles<Plain<Four>>>;
