// What an encoding of 3-coloring is: for each graph a list of polynomial equations, each read by number and term by term,
// so that nothing is stored. The list is one function of the vertices and of the joined pairs; every call answers from it.

ghost use Rattle.std.specs.Prelude.{◌≡◌, ℕ, ◌<◌, Bool, List, [], length, slice_index_or, slice_set};
ghost use Rattle.polynomials.specs.declared.term.Term.{Term};
ghost use Rattle.coloring.specs.Encoding.{over, Bounded, Lawful};
ghost use Rattle.polynomials.specs.Polynomial.{zeros};
ghost use Rattle.coloring.specs.Absent.{absent};

use fields::Field;
use graphs::Graph;
use polynomials::Term;

pub mod plain;
pub mod triangles;

/// The coloring of a graph as numbered polynomial equations, left side equal to zero.
pub trait Encoding {
    type Coeff: Field;

    /// The equations of so many vertices, of which these pairs are joined.
    ghost lists: { Self → ℕ → (ℕ → ℕ → Bool) → List (List (Term Self.Coeff)) };

    /// How many equations there are at most.
    ghost high: { Self → ℕ };

    /// How many equations there are at most, whatever the graph.
    fn most(&self) -> usize
        ensures { result ≡ high self.now };

    /// How many equations a graph has.
    fn count(&self, graph: &Graph) -> usize
        ensures { result ≡ length (over (lists self.now) graph.now) };

    /// How many terms an equation has; none where there is no such equation.
    fn terms(&self, graph: &Graph, equation: usize) -> usize
        ensures { result ≡ length (slice_index_or (over (lists self.now) graph.now) equation []) };

    /// A term of an equation; zero where there is no such term.
    fn term(&self, graph: &Graph, equation: usize, index: usize) -> Term<Self::Coeff>
        ensures { result ≡ slice_index_or (slice_index_or (over (lists self.now) graph.now) equation []) index (absent Self.Coeff.ops) };

    ghost bounded: { (s : Self) → Bounded Self.Coeff.ops (lists s) (high s) };

    ghost lawful: { (s : Self) → Lawful Self.Coeff.ops (lists s) };
}

/// The exponents of one variable to a power.
fn power(i: u8, exponent: u8) -> [u8; 24]
    requires { i < 24 }
    ensures { result ≡ slice_set zeros i exponent }
{
    let mut exponents = [0; 24];
    exponents[usize::from(i)] = exponent;
    exponents
}

/// The exponents of the product of two variables.
fn product(i: u8, j: u8) -> [u8; 24]
    requires { (i < 24) × (j < 24) }
    ensures { result ≡ slice_set (slice_set zeros i 1) j 1 }
{
    let mut exponents = power(i, 1);
    exponents[usize::from(j)] = 1;
    exponents
}

/// A monomial with the coefficient one.
fn monomial<F: Field>(exponents: [u8; 24]) -> Term<F>
    ensures { result ≡ record { coeff = F.ops.one; exponents = exponents } }
{
    Term {
        coeff: F::one(),
        exponents,
    }
}

/// The term where there is none: past the end every question of an encoding has an answer, so that no caller owes a bound.
fn no_term<F: Field>() -> Term<F>
    ensures { result ≡ absent F.ops }
{
    Term {
        coeff: F::zero(),
        exponents: [0; 24],
    }
}
