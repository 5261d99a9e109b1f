// The sum of the products, each by the coefficient that a certificate gives it: one column with a row for each monomial, in
// the front of a lent table.
ghost use Rattle.std.specs.Prelude.{◌≡◌, ℕ, ◌*◌, ◌<◌, ◌≤◌, ◌↔◌, IsTrue, length, slice_index_or};
ghost use Rattle.algebra.specs.Grid.{Kept};
ghost use Rattle.algebra.specs.Held.{held, Held};
ghost use Rattle.polynomials.specs.Polynomial.{scaled};
ghost use Rattle.certificates.specs.Summing.{Unity};

use crate::reading::marked;
use crate::system::System;
use algebra::Grid;
use coloring::encoding::Encoding;
use fields::Field;
use layout::HEAD;

impl<E: Encoding> System<'_, E> {
    ghost use Rattle.certificates.specs.System.{product_at, HasRows, IsBlank, Adds, HasTotals};

    // Adds the product of a number, times a factor, into the first column.
    fn add_multiple(&self, number: usize, factor: E::Coeff, grid: &mut Grid<'_, E::Coeff>)
        requires listed { number < self.now.sizes.products }
        requires rows { HasRows self.now grid.old }
        ensures held { Held grid.old grid.new }
        ensures summed { Adds self.now 0 (scaled E.Coeff.ops factor (product_at self.now number)) grid.old grid.new }
    {
        let multipliers = self.sizes.multipliers;
        let monomial = self.multiplier(number % multipliers);
        self.add_product(number / multipliers, monomial, factor, 0, grid);
    }

    // Adds the products, each by its coefficient, into a column of zeros. The codes of the coefficients stand behind the map,
    // one for each bit of it.
    fn add_products(&self, certificate: &[u8], grid: &mut Grid<'_, E::Coeff>)
        requires rows { HasRows self.now grid.old }
        requires column { grid.old.cols ≡ 1 }
        requires blank { IsBlank self.now grid.old }
        ensures held { Held grid.old grid.new }
        ensures kept { Kept E.Coeff.ops self.now.sizes.rows (held grid.old) (held grid.new) }
        ensures totals { HasTotals self.now certificate.now self.now.sizes.products (held grid.new) }
    {
        // By `next` where a bit stands: a loop over the marked numbers zipped with the codes has a closure in its iterator, and
        // in a method over every encoding no invariant can be said of that.
        let mut codes = certificate
            .get(HEAD + self.sizes.map..)
            .unwrap_or(&[])
            .iter();
        for number in 0..self.sizes.products {
            if marked(certificate, number) {
                let code = codes.next().copied().unwrap_or(0);
                if let Some(factor) = <E::Coeff as Field>::from_code(code) {
                    self.add_multiple(number, factor, grid);
                }
            }
        }
    }

    // Leaves in the front of the table the coefficients of the sum of the products.
    pub(crate) fn sum(&self, certificate: &[u8], table: &mut [E::Coeff])
        requires { self.now.sizes.rows ≤ length table.old }
        ensures totals { HasTotals self.now certificate.now self.now.sizes.products table.new }
        ensures kept { Kept E.Coeff.ops self.now.sizes.rows table.old table.new }
    {
        let mut grid = Grid::new(table, self.sizes.rows, 1);
        grid.clear();
        self.add_products(certificate, &mut grid);
    }
}

// Whether coefficients are those of the polynomial one: one in the first row, and zero in every other.
pub fn is_one<F: Field>(coefficients: &[F]) -> bool
    ensures { IsTrue result ↔ Unity F.ops coefficients.now }
{
    // By codes: a field is asked for no equality.
    coefficients
        .iter()
        .enumerate()
        .all(|(row, x)| x.code() == u8::from(row == 0))
}
