// A solver with memory of its own for every call. The memory is on the heap: tables for graphs that people ask about are larger than a
// stack.
use nulla::Solver;

pub mod calls;

/// A solver, and the memory that each of its calls is lent.
#[derive(Drop)]
pub struct Side<E, C> {
    pub solver: Solver<E>,
    pub table: Vec<C>,
    pub certificate: Vec<u8>,
}
