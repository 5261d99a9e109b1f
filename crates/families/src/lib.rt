// Graphs of known families, and solvers that have them.
#![tactic(auto)]

mod family;
mod solvers;

pub use family::Family;
pub use solvers::{build, work};
