// The plain encoding: a cube for each vertex says that it has one of three colors, and an edge for each
// joined pair that its colors differ.

ghost use Rattle.std.specs.Prelude.{◌≡◌, ℕ, ◌<◌, List, [], length, slice_index_or};
ghost use Rattle.coloring.specs.Encoding.{over};
ghost use Rattle.coloring.specs.Equations.{cube, edge, plain};
ghost use Rattle.coloring.specs.Absent.{absent};
ghost use Rattle.coloring.specs.Bounds.{plain_bounded};
ghost use Rattle.coloring.specs.Kept.{plain_lawful};
ghost use Rattle.coloring.specs.Pairs.{ends};

use crate::encoding::Encoding;
use crate::pairs::{count_pairs, find_pair};
use fields::Field;
use graphs::{Edge, Graph};
use polynomials::Term;
use std::marker::PhantomData;

/// A cube for each vertex, and then an edge for each joined pair.
#[derive(Clone, Copy, Debug, PartialEq, Eq, Hash)]
pub struct Plain<F> {
    field: PhantomData<F>,
}

/// Twenty-four cubes, and 276 edges.
const MOST: usize = 300;

const CUBE_TERMS: usize = 2;

const EDGE_TERMS: usize = 3;

impl<F: Field> Plain<F> {
    /// The plain encoding over a field.
    pub fn new() -> Plain<F>
        ensures { result ≡ record { field = record {} } }
    {
        Plain { field: PhantomData }
    }
}

// A derive would ask a `Default` of the field.
impl<F: Field> Default for Plain<F> {
    ghost is_default = { λ p. p ≡ record { field = record {} } };

    fn default() -> Plain<F> {
        Plain::new()
    }
}

/// A term of v_i^3 + 1.
fn cube_term<F: Field>(i: u8, index: usize) -> Term<F>
    requires { i < 24 }
    ensures { result ≡ slice_index_or (cube F.ops.one i) index (absent F.ops) }
{
    match index {
        0 => super::monomial(super::power(i, 3)),
        1 => super::monomial([0; 24]),
        _ => super::no_term(),
    }
}

/// A term of v_i^2 + v_i v_j + v_j^2.
fn edge_term<F: Field>(pair: Edge, index: usize) -> Term<F>
    ensures { result ≡ slice_index_or (edge F.ops.one (ends pair)) index (absent F.ops) }
{
    match index {
        0 => super::monomial(super::power(pair.lower(), 2)),
        1 => super::monomial(super::product(pair.lower(), pair.higher())),
        2 => super::monomial(super::power(pair.higher(), 2)),
        _ => super::no_term(),
    }
}

impl<F: Field> Encoding for Plain<F> {
    type Coeff = F;

    ghost lists = { λ _. plain F.ops.one };

    ghost high = { λ _. 300 };

    ghost bounded = { λ s. plain_bounded F.ops F.laws };

    ghost lawful = { λ s. plain_lawful F.ops F.laws };

    fn most(&self) -> usize {
        MOST
    }

    fn count(&self, graph: &Graph) -> usize {
        usize::from(graph.vertices()) + count_pairs(graph)
    }

    fn terms(&self, graph: &Graph, equation: usize) -> usize {
        let n = usize::from(graph.vertices());
        if equation < n {
            return CUBE_TERMS;
        }
        find_pair(graph, equation - n).map_or(0, |_| EDGE_TERMS)
    }

    fn term(&self, graph: &Graph, equation: usize, index: usize) -> Term<F> {
        let n = usize::from(graph.vertices());
        if equation < n {
            return cube_term(equation as u8, index);
        }
        find_pair(graph, equation - n).map_or(super::no_term(), |pair| edge_term(pair, index))
    }
}
