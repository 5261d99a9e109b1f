// The calls of a script made on two solvers over two fields, and the text of what both reply, certificates included.
#![tactic(auto)]

pub mod hexadecimal;
pub mod side;
pub mod text;
