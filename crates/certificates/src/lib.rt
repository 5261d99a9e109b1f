// Certificates of one degree: how large their matrix is, the search for one, their bytes, the check of one, and why any of that
// is refused.
#![tactic(auto)]

pub mod checking;
mod matrix;
mod reading;
pub mod refusal;
pub mod sizes;
mod system;
pub mod verdict;

pub use checking::check;
pub use matrix::search::work;
pub use refusal::Refusal;
pub use verdict::Verdict;
