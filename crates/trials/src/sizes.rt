// How much memory working a degree takes, counted from the record of a graph.
use crate::record::Record;
use coloring::encoding::Encoding;
use coloring::encoding::plain::Plain;
use coloring::encoding::triangles::Triangles;
use fields::Field;
use layout::HEAD;
use monomials::count;

/// By how much the degree of a product can pass that of its multiplier.
const EQUATION_DEGREE: usize = 3;

/// An encoding whose equations can be counted from the record.
pub trait Counted: Encoding {
    /// How many equations the graph has.
    fn equations(record: &Record) -> usize;
}

impl<F: Field> Counted for Plain<F> {
    fn equations(record: &Record) -> usize {
        record.open().saturating_add(record.edges())
    }
}

impl<E: Counted> Counted for Triangles<E> {
    fn equations(record: &Record) -> usize {
        E::equations(record).saturating_add(record.triangles())
    }
}

/// How much memory is lent.
#[derive(Clone, Copy, Debug, PartialEq, Eq)]
pub struct Sizes {
    pub elements: usize,
    pub bytes: usize,
}

// How many monomials in a variable for each vertex have at most a degree.
fn monomials(record: &Record, degree: usize) -> usize {
    count(record.open(), degree).unwrap_or(0)
}

/// How many rows the matrix of a degree has, and the sum of a certificate of that degree.
pub fn rows(record: &Record, degree: usize) -> usize {
    monomials(record, degree.saturating_add(EQUATION_DEGREE))
}

impl Sizes {
    /// What working a degree takes at least.
    pub fn of<E: Counted>(record: &Record, degree: usize) -> Sizes {
        let products = E::equations(record).saturating_mul(monomials(record, degree));
        Sizes {
            elements: rows(record, degree).saturating_mul(products.saturating_add(1)),
            bytes: products
                .saturating_add(products.div_ceil(8))
                .saturating_add(HEAD),
        }
    }
}
