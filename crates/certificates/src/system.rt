// A graph's equations at a degree, with the sizes of their matrix.
ghost use Rattle.std.specs.Prelude.{◌≤◌, length};
ghost use Rattle.coloring.specs.Encoding.{over};
ghost use Rattle.certificates.specs.Measures.{Measured};

use crate::sizes::Sizes;
use coloring::encoding::Encoding;
use graphs::Graph;

/// The equations that an encoding lists for a graph, and the sizes of their matrix at a degree that is worked.
#[derive(Drop)]
pub(crate) struct System<'a, E: Encoding> {
    pub(crate) encoding: &'a E,
    pub(crate) graph: &'a Graph,
    pub(crate) sizes: Sizes,
    ghost narrow: { sizes.degree ≤ 48 },
    ghost measured: { Measured (length (over (E.lists encoding.now) graph.now)) graph.now.vertices sizes.degree sizes },
}
