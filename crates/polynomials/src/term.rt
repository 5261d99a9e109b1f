// One term of a polynomial. Every term has an exponent for each of the 24 variables v_0 .. v_23, and zero where a vertex is absent,
// so that one more vertex changes no term.
ghost use Rattle.std.specs.Prelude.{◌≡◌};
ghost use Rattle.polynomials.specs.Polynomial.{zeros};

/// How many variables there are, one for each vertex that a graph may have.
pub const VARIABLES: usize = 24;

#[derive(Clone, Copy, Debug, PartialEq, Eq, Hash)]
pub struct Term<C> {
    pub coeff: C,
    pub exponents: [u8; VARIABLES],
}

impl<C> Term<C> {
    /// The coefficient times the monomial one.
    pub fn constant(coeff: C) -> Term<C>
        ensures { result ≡ record { coeff = coeff; exponents = zeros } }
    {
        Term {
            coeff,
            exponents: [0; VARIABLES],
        }
    }
}
