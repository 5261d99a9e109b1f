// A solver: a graph that grows and shrinks by calls, an encoding of its colorings as equations, and what it says at the degree that it
// has reached. It holds no memory of its own for matrices: callers lend it.
ghost use Rattle.std.specs.Prelude.{◌≤◌};
ghost use Rattle.nulla.specs.Standing.{reached};

use certificates::Verdict;
use graphs::Graph;

pub mod calls;

/// Searches certificates of rising degree that a graph has no proper 3-coloring.
#[derive(Drop)]
pub struct Solver<E> {
    encoding: E,
    graph: Graph,
    standing: Verdict,
    ghost low: { reached standing ≤ 48 },
}
