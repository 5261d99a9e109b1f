// Graphs of known families: how many vertices each has, and which of them are joined.
ghost use Rattle.std.specs.Prelude.{◌≡◌, ◌<◌, Some};
ghost use Rattle.families.specs.Cycle.{next_to};
ghost use Rattle.families.specs.Family.{vertices_of, joins_of, family_text, grotzsch_joins, spindle_joins};

use std::fmt;

/// How many vertices the cycle has that the Grötzsch graph is made from.
const CYCLE: usize = 5;

/// A graph of a family.
#[derive(Clone, Copy, Debug, PartialEq, Eq, Hash)]
pub enum Family {
    /// So many vertices, all joined.
    Complete(u8),
    /// A cycle of so many vertices, and a hub that is joined to them all.
    Wheel(u8),
    /// Eleven vertices and twenty edges, without a triangle.
    Grotzsch,
    /// The Moser spindle, seven vertices and eleven edges.
    Spindle,
}

// Whether two places of a cycle are next to each other.
fn are_neighbors(length: usize, a: usize, b: usize) -> bool
    requires { (a < length) × (b < length) }
    ensures { result ≡ next_to length a b }
{
    (a + 1) % length == b || (b + 1) % length == a
}

// Each vertex of a cycle has a twin that is joined to its two neighbors, and the last vertex is joined to all twins.
fn joins_grotzsch(lower: usize, higher: usize) -> bool
    requires { (lower < higher) × (higher < 11) }
    ensures { result ≡ grotzsch_joins lower higher }
{
    if higher < CYCLE {
        are_neighbors(CYCLE, lower, higher)
    } else if higher < 2 * CYCLE {
        lower < CYCLE && are_neighbors(CYCLE, lower, higher - CYCLE)
    } else {
        lower >= CYCLE
    }
}

// Two triangles, 1 2 3 and 4 5 6: the vertex 0 is joined to two corners of each, and their last corners are joined.
fn joins_spindle(lower: usize, higher: usize) -> bool
    requires { (lower < higher) × (higher < 7) }
    ensures { result ≡ spindle_joins lower higher }
{
    match lower {
        0 => higher % 3 != 0,
        1 | 2 => higher <= 3,
        3 => higher == 6,
        _ => true,
    }
}

impl Family {
    /// How many vertices the graph has.
    pub fn vertices(self) -> usize
        ensures { result ≡ vertices_of self }
    {
        match self {
            Family::Complete(vertices) => usize::from(vertices),
            Family::Wheel(rim) => usize::from(rim) + 1,
            Family::Grotzsch => 2 * CYCLE + 1,
            Family::Spindle => 7,
        }
    }

    /// Whether two of the vertices are joined.
    pub(crate) fn joins(self, lower: usize, higher: usize) -> bool
        requires { (lower < higher) × (higher < vertices_of self) }
        ensures { result ≡ joins_of self lower higher }
    {
        match self {
            Family::Complete(_) => true,
            Family::Wheel(rim) => {
                let hub = usize::from(rim);
                higher == hub || are_neighbors(hub, lower, higher)
            }
            Family::Grotzsch => joins_grotzsch(lower, higher),
            Family::Spindle => joins_spindle(lower, higher),
        }
    }
}

impl fmt::Display for Family {
    ghost output = { λ family. Some (family_text family) };

    fn fmt<W: fmt::Write>(&self, f: &mut fmt::Formatter<W>) -> fmt::Result {
        match self {
            Family::Complete(vertices) => write!(f, "complete {vertices}"),
            Family::Wheel(rim) => write!(f, "wheel {rim}"),
            Family::Grotzsch => write!(f, "grotzsch"),
            Family::Spindle => write!(f, "spindle"),
        }
    }
}
