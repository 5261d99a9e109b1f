// Polynomials over a field in 24 variables, one for each vertex that a graph may have, and what sums of multiples of equations can say.
#![tactic(auto)]

mod term;
pub mod theorems;

pub use term::{Term, VARIABLES};
