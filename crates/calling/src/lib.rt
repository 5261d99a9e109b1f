// All six calls of a script made on two solvers over two fields, trials of an edge and checks of a certificate among them, and the text of what
// both reply.
#![tactic(auto)]

pub mod digits;
pub mod script;
pub mod side;
pub mod text;
