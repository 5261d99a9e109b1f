// How large the matrix of a degree is, and what memory it takes. Counts come from a capped table, so the rows are looked at
// first: where they are within the limit the multipliers are too, and the products are counted exactly.
ghost use Rattle.std.specs.Prelude.{◌≡◌, ℕ, ◌+◌, ◌*◌, ◌/◌, ◌<◌, ◌≤◌, ◌++◌, length, MatchOption, MatchResult};
ghost use Rattle.coloring.specs.Encoding.{over};
ghost use Rattle.certificates.specs.Grounds.{First, limit, room, Fitted};
ghost use Rattle.certificates.specs.Measures.{Excess, Measured};

use crate::refusal::Refusal;
use coloring::encoding::Encoding;
use graphs::Graph;
use layout::HEAD;

/// The degree that equations have at most.
const EQUATION_DEGREE: usize = 3;

/// The most rows, and the most products, that a matrix may have.
const LIMIT: usize = 1_000_000;

/// The largest degree that is worked.
pub(crate) const LAST_DEGREE: u8 = 48;

/// The sizes of the matrix of a degree.
#[derive(Clone, Copy, Debug, PartialEq, Eq, Hash)]
pub struct Sizes {
    pub vertices: u8,
    pub degree: u8,
    pub equations: usize,
    pub multipliers: usize,
    pub products: usize,
    pub rows: usize,
    /// the elements of the table
    pub cells: usize,
    /// the bytes of a certificate's map
    pub map: usize,
    /// the bytes that a certificate may take
    pub bytes: usize,
}

// The sizes, where neither rows nor products pass the limit. Encoding and graph are a solver's own, each behind a loan, until a `System` has
// their sizes too.
pub(crate) fn measure<E: Encoding>(encoding: &E, graph: &Graph, degree: u8) -> Option<Sizes>
    requires { degree ≤ 48 }
    ensures { MatchOption result (Excess (length (over (E.lists encoding.now) graph.now)) graph.now.vertices degree) (λ z. Measured (length (over (E.lists encoding.now) graph.now)) graph.now.vertices degree z) }
{
    let vertices = graph.vertices();
    let rows = monomials::count(vertices as usize, degree as usize + EQUATION_DEGREE)?;
    let multipliers = monomials::count(vertices as usize, degree as usize)?;
    if rows > LIMIT {
        return None;
    }
    let equations = encoding.count(graph);
    let products = equations * multipliers;
    if products > LIMIT {
        return None;
    }
    let map = products.div_ceil(8);
    Some(Sizes {
        vertices,
        degree,
        equations,
        multipliers,
        products,
        rows,
        cells: rows * (products + 1),
        map,
        bytes: HEAD + map + products,
    })
}

/// The sizes of the matrix of a degree, where the degree is worked, the matrix is not too large, and so many elements of a
/// table and bytes of a certificate suffice for it.
pub fn fit<E: Encoding>(
    encoding: &E,
    graph: &Graph,
    degree: u8,
    elements: usize,
    bytes: usize,
) -> Result<Sizes, Refusal>
    ensures { MatchResult result (λ z. Fitted (length (over (E.lists encoding.now) graph.now)) graph.now.vertices degree elements bytes z) (λ e. First (limit degree ++ room (length (over (E.lists encoding.now) graph.now)) graph.now.vertices degree elements bytes) e) }
{
    if degree > LAST_DEGREE {
        return Err(Refusal::LastDegree);
    }
    let sizes = measure(encoding, graph, degree).ok_or(Refusal::TooLarge)?;
    if elements < sizes.cells {
        return Err(Refusal::TableTooSmall);
    }
    if bytes < sizes.bytes {
        return Err(Refusal::OutputTooSmall);
    }
    Ok(sizes)
}
