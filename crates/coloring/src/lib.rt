// The 3-coloring of graphs as polynomial equations.
#![tactic(auto)]

pub mod encoding;
mod pairs;
pub mod theorems;
mod triangles;

pub use encoding::Encoding;
pub use encoding::plain::Plain;
pub use encoding::triangles::Triangles;
pub use graphs::{Edge, Graph};
