// An encoding with an equation more for each triangle. It follows from those of the triangle's edges, and saves
// degree: what else takes multiples of higher degree to say is one of the equations.

ghost use Rattle.std.specs.Prelude.{◌≡◌, ℕ, ◌<◌, ◌≤◌, ◌↔◌, IsTrue, length, slice_index_or};
ghost use Rattle.std.specs.List.{slice_get};
ghost use Rattle.coloring.specs.Encoding.{over};
ghost use Rattle.coloring.specs.Equations.{squares, with_triangles};
ghost use Rattle.coloring.specs.Absent.{absent};
ghost use Rattle.coloring.specs.Triangles.{chosen, raised, room};
ghost use Rattle.coloring.specs.Added.{added_bounded, added_lawful};

use crate::encoding::Encoding;
use crate::triangles::{Triangle, count_triangles, find_triangle};
use fields::Field;
use graphs::Graph;
use polynomials::Term;

/// The equations of another encoding, and then one for each triangle where there is room for all of them.
#[derive(Clone, Copy, Debug, PartialEq, Eq, Hash)]
pub struct Triangles<E> {
    base: E,
}

/// How many equations an encoding may have at most for triangles to be added.
const ROOM: usize = 2071;

/// How many triangles twenty-four vertices have at most.
const TRIANGLES: usize = 2024;

const SQUARES: usize = 3;

impl<E: Encoding> Triangles<E> {
    /// The triangles over an encoding.
    pub fn new(base: E) -> Triangles<E>
        ensures { result.base ≡ base }
    {
        Triangles { base }
    }

    fn has_room(&self) -> bool
        ensures { IsTrue result ↔ (E.high self.now.base ≤ room) }
    {
        self.base.most() <= ROOM
    }

    fn triangle(&self, graph: &Graph, wanted: usize) -> Option<Triangle>
        ensures { result ≡ slice_get (over (chosen (E.high self.now.base)) graph.now) wanted }
    {
        if self.has_room() {
            find_triangle(graph, wanted)
        } else {
            None
        }
    }
}

/// A term of v_i^2 + v_j^2 + v_k^2.
fn squares_term<F: Field>(triangle: Triangle, index: usize) -> Term<F>
    ensures { result ≡ slice_index_or (squares F.ops.one triangle) index (absent F.ops) }
{
    match index {
        0 => super::monomial(super::power(triangle.low, 2)),
        1 => super::monomial(super::power(triangle.middle, 2)),
        2 => super::monomial(super::power(triangle.high, 2)),
        _ => super::no_term(),
    }
}

impl<E: Encoding> Encoding for Triangles<E> {
    type Coeff = E::Coeff;

    ghost lists = { λ s. with_triangles E.Coeff.ops.one (E.high s.base) (E.lists s.base) };

    ghost high = { λ s. raised (E.high s.base) };

    ghost bounded = { λ s. added_bounded E.Coeff.ops E.Coeff.laws (E.lists s.base) (E.high s.base) (E.bounded s.base) };

    ghost lawful = { λ s. added_lawful E.Coeff.ops E.Coeff.laws (E.lists s.base) (E.high s.base) (E.lawful s.base) };

    fn most(&self) -> usize {
        let below = self.base.most();
        if self.has_room() {
            below + TRIANGLES
        } else {
            below
        }
    }

    fn count(&self, graph: &Graph) -> usize {
        let below = self.base.count(graph);
        if self.has_room() {
            below + count_triangles(graph)
        } else {
            below
        }
    }

    fn terms(&self, graph: &Graph, equation: usize) -> usize {
        let below = self.base.count(graph);
        if equation < below {
            return self.base.terms(graph, equation);
        }
        self.triangle(graph, equation - below)
            .map_or(0, |_| SQUARES)
    }

    fn term(&self, graph: &Graph, equation: usize, index: usize) -> Term<E::Coeff> {
        let below = self.base.count(graph);
        if equation < below {
            return self.base.term(graph, equation, index);
        }
        self.triangle(graph, equation - below)
            .map_or(super::no_term(), |triangle| squares_term(triangle, index))
    }
}
