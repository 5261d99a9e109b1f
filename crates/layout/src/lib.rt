// How a certificate is laid out in bytes: what is written, and that it can be read back.
#![tactic(auto)]

mod theorems;
mod writing;

pub use theorems::bytes_stand;
pub use writing::{FORM, HEAD, write};
