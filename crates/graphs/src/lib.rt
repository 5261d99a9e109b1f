// Graphs of up to 24 vertices, their edges, and an edge that stands for the time of a trial.
#![tactic(auto)]

mod edge;
mod graph;

pub use edge::Edge;
pub use graph::Graph;
pub use graph::trial::Trial;

/// How many vertices a graph can have.
const LIMIT: usize = 24;
