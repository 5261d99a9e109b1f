// The calls on a graph. Each writes at most one flag, through the row that has it.

ghost use Rattle.std.specs.Prelude.{◌≡◌, ℕ, ◌<◌, Bool, true, false, length, slice_set};
ghost use Rattle.graphs.specs.Graph.{joined, Empty, Opened, Put, Marked};

use crate::LIMIT;
use crate::edge::Edge;
use crate::graph::{Graph, Row};

impl Row {
    fn mark(&mut self, place: u8, value: bool)
        requires { place < 24 }
        ensures { self.new.above ≡ slice_set self.old.above place value }
    {
        self.above[usize::from(place)] = value;
    }
}

impl Graph {
    /// The graph without vertices.
    pub fn new() -> Graph
        ensures { Empty result }
    {
        Graph {
            vertices: 0,
            rows: [Row {
                above: [false; LIMIT],
            }; LIMIT],
        }
    }

    /// One vertex more, and its number, which is the next; none, and nothing changed, where there are 24.
    pub fn open(&mut self) -> Option<u8>
        ensures { Opened self.old result self.new }
    {
        if usize::from(self.vertices) < LIMIT {
            let number = self.vertices;
            self.vertices += 1;
            Some(number)
        } else {
            None
        }
    }

    fn mark(&mut self, edge: Edge, joined: bool)
        ensures rows { Put self.old edge.lower edge.higher joined self.new }
        ensures pairs { Marked self.old edge.lower edge.higher joined self.new }
    {
        let row = &mut self.rows[usize::from(edge.lower())];
        row.mark(edge.higher(), joined);
    }

    /// Joins the two ends of an edge.
    pub fn join(&mut self, edge: Edge)
        ensures rows { Put self.old edge.lower edge.higher true self.new }
        ensures pairs { Marked self.old edge.lower edge.higher true self.new }
    {
        self.mark(edge, true);
    }

    /// Parts the two ends of an edge.
    pub fn part(&mut self, edge: Edge)
        ensures rows { Put self.old edge.lower edge.higher false self.new }
        ensures pairs { Marked self.old edge.lower edge.higher false self.new }
    {
        self.mark(edge, false);
    }

    /// Whether the two ends of an edge are joined.
    pub fn joins(&self, edge: Edge) -> bool
        ensures { result ≡ joined self.now edge.lower edge.higher }
    {
        self.rows[usize::from(edge.lower())].above[usize::from(edge.higher())]
    }

    /// Whether a vertex is joined to one above it; no vertex is to one that no graph has.
    pub fn has(&self, i: u8, j: u8) -> bool
        ensures { result ≡ joined self.now i j }
    {
        let (i, j) = (usize::from(i), usize::from(j));
        i < LIMIT && j < LIMIT && self.rows[i].above[j]
    }
}

// By hand, to say that it is empty.
impl Default for Graph {
    ghost is_default = { Empty };

    fn default() -> Graph {
        Graph::new()
    }
}
