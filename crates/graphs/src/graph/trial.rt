// An edge on trial. It stands while its guard lives, and the guard's end puts the row back that it changed, on whichever way the
// trial is left.

ghost use Rattle.std.specs.Prelude.{◌≡◌, ◌<◌, true, length, slice_index_or, slice_set};
ghost use Rattle.graphs.specs.Graph.{blank, Put, Marked};

use crate::edge::Edge;
use crate::graph::{Graph, Row};

/// A graph in which an edge stands until this ends.
pub struct Trial<'a> {
    graph: &'a mut Graph,
    lower: u8,
    saved: Row,
    ghost inside: { lower < 24 },
    ghost wide: { length saved.above ≡ 24 },
}

impl Drop for Trial<'_> {
    fn drop(self)
        ensures vertices { self.exit.0.now.vertices ≡ self.entry.graph.now.vertices }
        ensures rows { self.exit.0.now.rows ≡ slice_set self.entry.graph.now.rows self.entry.lower self.entry.saved }
    {
        let Trial {
            graph,
            lower,
            saved,
        } = self;
        graph.rows[usize::from(lower)] = saved;
    }
}

impl<'a> Trial<'a> {
    /// Joins the two ends of an edge, until the guard ends.
    pub fn begin(graph: &'a mut Graph, edge: Edge) -> Trial<'a>
        ensures lent { result.graph.ghost_name ≡ graph.entry.ghost_name }
        ensures rows { Put graph.old edge.lower edge.higher true result.graph.now }
        ensures pairs { Marked graph.old edge.lower edge.higher true result.graph.now }
        ensures lower { result.lower ≡ edge.lower }
        ensures saved { result.saved ≡ slice_index_or graph.old.rows edge.lower blank }
    {
        let lower = edge.lower();
        let saved = graph.rows[usize::from(lower)];
        graph.join(edge);
        Trial {
            graph,
            lower,
            saved,
        }
    }

    /// The graph, with the edge.
    pub fn graph(&self) -> &Graph
        ensures { result.now ≡ self.now.graph.now }
    {
        &*self.graph
    }
}
