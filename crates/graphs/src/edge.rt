// An edge as a type of its own: whoever holds one knows that its ends differ, are in order and are
// vertices that a graph can have, so no call that takes one has anything left to refuse.

ghost use Rattle.std.specs.Prelude.{◌≡◌, ℕ, ◌<◌, min, max, MatchOption};

use crate::LIMIT;

/// Two vertices, the lower named first.
#[derive(Clone, Copy, Debug, PartialEq, Eq, PartialOrd, Ord, Hash)]
pub struct Edge {
    lower: u8,
    higher: u8,
    ghost ordered: { lower < higher },
    ghost small: { higher < 24 },
}

impl Edge {
    /// The edge between two vertices, named in either order; none where they are one vertex or too high.
    pub fn between(a: usize, b: usize) -> Option<Edge>
        ensures { MatchOption result (a < 24 → b < 24 → a ≡ b) (λ e. (e.lower ≡ min a b) × (e.higher ≡ max a b)) }
    {
        if a == b || a >= LIMIT || b >= LIMIT {
            return None;
        }
        let (lower, higher) = (a.min(b), a.max(b));
        Some(Edge {
            lower: lower as u8,
            higher: higher as u8,
        })
    }

    /// The end with the lower number.
    pub fn lower(&self) -> u8
        ensures { result ≡ self.now.lower }
    {
        self.lower
    }

    /// The end with the higher number.
    pub fn higher(&self) -> u8
        ensures { result ≡ self.now.higher }
    {
        self.higher
    }
}
