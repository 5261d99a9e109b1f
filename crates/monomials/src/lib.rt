// Monomials in a few variables, each given by its exponents: how many there are up to a degree, the place of each in one
// order, and the monomial at a place.
#![tactic(auto)]

mod pascal;

pub use pascal::order::{count, order_stands, rank, unrank};
