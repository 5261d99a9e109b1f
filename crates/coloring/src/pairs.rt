// The joined pairs of a graph, numbered by the lower vertex and then the higher. Nothing is stored: a pair is
// found by its number each time, in a graph of at most 276 pairs.

ghost use Rattle.std.specs.Prelude.{◌≡◌, ℕ, ◌<◌, length, option_map};
ghost use Rattle.std.specs.List.{slice_get};
ghost use Rattle.graphs.specs.Graph.{joined};
ghost use Rattle.coloring.specs.Pairs.{ends, pairs, row};

use graphs::{Edge, Graph};

/// How many vertices above one are joined to it.
fn count_row(graph: &Graph, i: u8) -> usize
    requires { i < graph.now.vertices }
    ensures { result ≡ length (row (joined graph.now) graph.now.vertices i) }
{
    (i + 1..graph.vertices())
        .map(|j| usize::from(graph.has(i, j)))
        .sum()
}

/// How many pairs are joined.
pub fn count_pairs(graph: &Graph) -> usize
    ensures { result ≡ length (pairs (joined graph.now) graph.now.vertices) }
{
    (0..graph.vertices()).map(|i| count_row(graph, i)).sum()
}

/// The joined pair with this number.
pub fn find_pair(graph: &Graph, wanted: usize) -> Option<Edge>
    ensures { option_map ends result ≡ slice_get (pairs (joined graph.now) graph.now.vertices) wanted }
{
    let n = graph.vertices();
    let mut seen = 0;
    // Two loops, since a chain of both ranges up to its `nth` takes twice the time.
    for i in 0..n {
        for j in i + 1..n {
            if graph.has(i, j) {
                if seen == wanted {
                    return Edge::between(usize::from(i), usize::from(j));
                }
                seen += 1;
            }
        }
    }
    None
}
