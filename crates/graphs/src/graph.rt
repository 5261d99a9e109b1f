// A graph of up to 24 vertices, with a row of flags for each vertex: the vertices above it that it is
// joined to. An edge stands in the row of its lower end alone, so that one row restores it.

ghost use Rattle.std.specs.Prelude.{◌≡◌, ℕ, ◌<◌, ◌≤◌, [], length, slice_index_or};

use crate::LIMIT;

mod operations;
pub mod trial;

/// The vertices above one vertex that are joined to it.
#[derive(Clone, Copy, Debug, PartialEq, Eq, Hash)]
pub struct Row {
    above: [bool; LIMIT],
}

/// A graph: how many vertices it has, and a row for each that it can have.
#[derive(Clone, Copy, Debug, PartialEq, Eq, Hash)]
pub struct Graph {
    vertices: u8,
    rows: [Row; LIMIT],
    ghost few: { vertices ≤ 24 },
    ghost full: { length rows ≡ 24 },
    ghost wide: { (i : ℕ) → i < 24 → length (slice_index_or rows i (record { above = [] })).above ≡ 24 },
}

impl Graph {
    /// How many vertices there are.
    pub fn vertices(&self) -> u8
        ensures value { result ≡ self.now.vertices }
        ensures few { result ≤ 24 }
    {
        self.vertices
    }
}
