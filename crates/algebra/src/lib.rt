// Elimination over any finite field in which one plus one is zero, in a lent slice, and what it says of linear systems.
#![tactic(auto)]

mod elimination;
pub mod theorems;

pub use elimination::Grid;
pub use fields::{Bit, Field, Four};
