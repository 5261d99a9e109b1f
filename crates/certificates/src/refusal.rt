// Why a call is refused. Each ground has a number, which stands in texts and in what C sees.
ghost use Rattle.std.specs.Prelude.{◌≡◌, Some, decimal};
ghost use Rattle.certificates.specs.Refusals.{number_of};

use std::error::Error;
use std::fmt;

/// The ground on which a call is refused.
#[derive(Clone, Copy, Debug, PartialEq, Eq, Hash)]
pub enum Refusal {
    /// A vertex number above 23, or a degree that is not 1 to 48.
    OutOfRange = 1,
    /// Both ends of an edge are the same vertex.
    SameVertex = 2,
    /// The table has fewer elements than the matrix, or the sum of a check, needs.
    TableTooSmall = 3,
    /// The memory for a certificate or a text is too short.
    OutputTooSmall = 4,
    /// A certificate has fewer than 6 bytes, is not of form 1, or has a degree that is not 1 to 48.
    MalformedHead = 5,
    /// A certificate's length is not that of its head, its map and its coefficients.
    WrongLength = 6,
    /// A bit past the products stands in a certificate's map, or a coefficient byte is 0 or no code.
    MalformedBody = 7,
    /// What a certificate stands for does not add up to one.
    NotOne = 8,
    /// A line of a plan is malformed.
    MalformedLine = 9,
    /// A plan is above 4,096 bytes.
    PlanTooLong = 10,
    /// All 24 vertices are open.
    NoVertexLeft = 11,
    /// A vertex is not open.
    NoSuchVertex = 12,
    /// The edge stands already.
    AlreadyJoined = 13,
    /// The edge does not stand.
    NotJoined = 14,
    /// The solver already says infeasible.
    AlreadyInfeasible = 15,
    /// The last degree is reached.
    LastDegree = 16,
    /// The matrix has more than a million rows or products.
    TooLarge = 17,
    /// A certificate's field, number of vertices or number of equations is not the solver's.
    OtherSolver = 18,
}

impl Refusal {
    /// The number of the ground.
    pub fn number(self) -> u8
        ensures { result ≡ number_of self }
    {
        self as u8
    }
}

impl From<Refusal> for u8 {
    ghost from_gives = { λ refusal number. number ≡ number_of refusal };

    fn from(refusal: Refusal) -> u8 {
        refusal.number()
    }
}

impl fmt::Display for Refusal {
    ghost output = { λ refusal. Some (decimal (number_of refusal)) };

    fn fmt<W: fmt::Write>(&self, f: &mut fmt::Formatter<W>) -> fmt::Result {
        write!(f, "{}", self.number())
    }
}

impl Error for Refusal {}
