// The calls on a solver, written down: what a plan's line asks, and what a run is a list of.

/// A call, with what it is passed. The two ends of an edge may come in either order.
#[derive(Clone, Copy, Debug, PartialEq, Eq, Hash)]
pub enum Call<'a> {
    OpenVertex,
    AddEdge(usize, usize),
    RemoveEdge(usize, usize),
    Raise,
    /// The ends of the edge on trial, and the degree.
    TryEdge(usize, usize, usize),
    /// The bytes of the certificate.
    Check(&'a [u8]),
}
