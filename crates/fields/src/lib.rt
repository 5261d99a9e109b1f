// Finite fields in which one plus one is zero: what a field is, bits, and the four values.
#![tactic(auto)]

mod bit;
mod field;
mod four;

pub use bit::Bit;
pub use field::Field;
pub use four::Four;
