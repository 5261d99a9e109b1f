// The order of monomials: lower degree first, then the larger exponent at the first variable that differs. Within one
// degree the exponents after the first one run through a shorter list of the same kind, so a place is a sum of one
// binomial for each variable, and the monomial at a place is found one exponent after the other.
ghost use Rattle.std.specs.Prelude.{◌≡◌, ◌+◌, ◌<◌, ◌≤◌, min, length, MatchBool, IsSome, IsTrue, IfSome, ◌↔◌};
ghost use Rattle.monomials.specs.Choose.{choose};
ghost use Rattle.monomials.specs.Order.{Counted, Placed, Onto, Ordered, Apart, degree as degree_of, rank_of, lower};
ghost use Rattle.monomials.specs.Reach.{count_for, Lists, rank_for, listed, reached, Written};

const MOST_VARIABLES: usize = 24;

const LAST_ROW: usize = 75;

const MOST_MONOMIALS: usize = 1_000_000;

/// How many monomials there are, where each stands, that each place is taken, and that places follow the order.
pub fn order_stands()
    ensures counted { Counted }
    ensures placed { Placed }
    ensures onto { Onto }
    ensures ordered { Ordered }
    ensures apart { Apart }
{}

/// How many monomials in so many variables have at most that degree, or 1_000_001 where there are more than a million.
/// `None` for more than 24 variables, and where variables and degree together pass 75.
#[tactic(auto, unfolding(crate::specs::Reach::count_for), using(crate::proofs::Places::counted))]
pub fn count(variables: usize, degree: usize) -> Option<usize>
    ensures is { result ≡ count_for variables degree }
    ensures lists { Lists variables degree result }
{
    if variables > MOST_VARIABLES || degree > LAST_ROW - variables {
        return None;
    }
    Some(super::capped(variables + degree, variables))
}

/// The place of a monomial in the order, counted from zero. `None` where `count` at its degree is `None` or passes a million.
#[tactic(auto, unfolding(crate::specs::Reach::rank_for))]
pub fn rank(exponents: &[u8]) -> Option<usize>
    ensures { result ≡ rank_for exponents.now }
{
    if exponents.len() > MOST_VARIABLES {
        return None;
    }
    let monomials = Monomials::listed(exponents.len(), degree_of(exponents))?;
    Some(monomials.place_of(exponents))
}

/// Writes the exponents of the monomial at `place` among those of at most that degree in as many variables as there are
/// exponents. False, with nothing changed, where `count` is `None` or passes a million, or there is no such place.
/// The exponents are the caller's memory, so a truth value is all that is left to answer.
#[tactic(auto, unfolding(crate::specs::Reach::reached))]
pub fn unrank(place: usize, degree: usize, exponents: &mut [u8]) -> bool
    ensures reached { result ≡ reached (length exponents.old) degree place }
    ensures written { MatchBool result (Written (length exponents.old) degree place exponents.new) (exponents.new ≡ exponents.old) }
{
    match Monomials::listed(exponents.len(), degree) {
        Some(monomials) if place < monomials.count => {
            monomials.write(place, exponents);
            true
        }
        _ => false,
    }
}

#[tactic(auto, using(crate::proofs::Turn::degree_is_sum))]
fn degree_of(exponents: &[u8]) -> usize
    requires { length exponents.now ≤ 24 }
    ensures { result ≡ degree_of exponents.now }
{
    exponents.iter().map(|&x| usize::from(x)).sum()
}

// The monomials in so many variables of at most a degree, where their places are told: within the table, and a million
// of them at most.
#[derive(Clone, Copy)]
struct Monomials {
    variables: usize,
    degree: usize,
    count: usize,
    ghost few: { variables ≤ 24 },
    ghost narrow: { variables + degree ≤ 75 },
    ghost small: { count ≤ 1000000 },
    ghost counted: { count ≡ choose (variables + degree) variables },
}

impl Monomials {
    #[tactic(auto, unfolding(crate::specs::Reach::count_for))]
    fn listed(variables: usize, degree: usize) -> Option<Monomials>
        ensures some { IsSome result ↔ IsTrue (listed variables degree) }
        ensures variables { IfSome result (λ m. m.variables ≡ variables) }
        ensures degree { IfSome result (λ m. m.degree ≡ degree) }
    {
        let count = count(variables, degree)?;
        if count > MOST_MONOMIALS {
            return None;
        }
        Some(Monomials {
            variables,
            degree,
            count,
        })
    }

    // The place of one of them. Each variable adds the monomials of a lower degree in it and those after it.
    fn place_of(self, exponents: &[u8]) -> usize
        requires variables { length exponents.now ≤ self.variables }
        requires degree { degree_of exponents.now ≤ self.degree }
        ensures { result ≡ rank_of exponents.now }
    {
        let mut left = degree_of(exponents);
        let mut place: usize = 0;
        for (i, x) in exponents.iter().enumerate() {
            place += self.fewer(exponents.len() - i, left);
            left -= usize::from(*x);
        }
        place
    }

    // Writes the one at a place. From the first exponent to the last: the degree that the later variables have left tells
    // the exponent.
    fn write(self, place: usize, exponents: &mut [u8])
        requires variables { length exponents.old ≡ self.variables }
        requires within { place < self.count }
        ensures { Written self.variables self.degree place exponents.new }
    {
        let mut top = self.degree_at(self.variables, self.degree, place);
        let mut left = place - self.fewer(self.variables, top);
        for (i, exponent) in exponents.iter_mut().enumerate() {
            let later = self.variables - i - 1;
            let rest = self.degree_at(later, top, left);
            left -= self.fewer(later, rest);
            *exponent = (top - rest) as u8;
            top = rest;
        }
    }

    // How many monomials in `variables` of these variables have a degree below `degree`.
    #[tactic(auto, using(crate::proofs::Turn::lower_is, crate::proofs::Turn::lower_none, crate::proofs::Turn::lower_most))]
    fn fewer(self, variables: usize, degree: usize) -> usize
        requires variables { variables ≤ self.variables }
        requires degree { degree ≤ self.degree }
        ensures { result ≡ lower variables degree }
    {
        if degree == 0 {
            return 0;
        }
        super::capped(variables + degree - 1, variables)
    }

    // The degree of the monomial in `variables` of these variables at a place, which is at most `top`.
    fn degree_at(self, variables: usize, top: usize, place: usize) -> usize
        requires variables { variables ≤ self.variables }
        requires degree { top ≤ self.degree }
        requires within { place < lower variables (top + 1) }
        ensures most { result ≤ top }
        ensures from { lower variables result ≤ place }
        ensures below { place < lower variables (result + 1) }
    {
        // Half-open: going down `1..=top` would test at each degree whether the range is spent.
        (1..top + 1)
            .rev()
            .find(|&degree| self.fewer(variables, degree) <= place)
            .unwrap_or(0)
    }
}
