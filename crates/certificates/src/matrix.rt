// The matrix of a degree: a row for each monomial that can occur, a column for each product of an equation and a multiplier,
// and a last column for the polynomial one. Each term of a product is added into its row, so that a column holds the
// coefficients of its product whatever the order of the terms. `Held` and `Kept` stand in each contract that changes a grid:
// they tie the grid after the call to the one before it, which no type can.
ghost use Rattle.std.specs.Prelude.{◌≡◌, ℕ, ◌+◌, ◌*◌, ◌<◌, ◌≤◌, [], length, slice_index, slice_index_or};
ghost use Rattle.algebra.specs.Held.{held, Held};
ghost use Rattle.polynomials.specs.Polynomial.{plus as product, scaled, times};
ghost use Rattle.algebra.specs.Grid.{Kept};

use crate::system::System;

pub mod search;
pub mod sum;

use algebra::Grid;
use coloring::encoding::Encoding;
use fields::Field;

// The exponents of a product of two monomials.
fn plus(multiplier: [u8; 24], exponents: [u8; 24]) -> [u8; 24]
    requires { (i : ℕ) → slice_index multiplier i + slice_index exponents i < 256 }
    ensures { result ≡ product multiplier exponents }
{
    // A closure for each exponent, as in `array::from_fn`, takes much longer in a build that does not inline it. By places: a
    // proof does not see what a loop through `zip` writes.
    let mut sum = multiplier;
    for (i, exponent) in exponents.iter().enumerate() {
        sum[i] += exponent;
    }
    sum
}

impl<E: Encoding> System<'_, E> {
    ghost use Rattle.certificates.specs.System.{equations, multiplier_at, IsMultiplier, HasRows, IsBlank, Adds, HasColumns, IsFilled, IsDecided};

    // The multiplier of a rank, by the exponents of all 24 variables.
    fn multiplier(&self, rank: usize) -> [u8; 24]
        requires { rank < self.now.sizes.multipliers }
        ensures { result ≡ multiplier_at self.now rank }
    {
        let mut exponents = [0; 24];
        let vertices = self.graph.vertices() as usize;
        let _ = monomials::unrank(rank, self.sizes.degree as usize, &mut exponents[..vertices]);
        exponents
    }

    // Adds the coefficients of an equation, times a monomial and a factor, into a column.
    fn add_product(
        &self,
        equation: usize,
        monomial: [u8; 24],
        factor: E::Coeff,
        column: usize,
        grid: &mut Grid<'_, E::Coeff>,
    )
        requires listed { equation < length (equations self.now) }
        requires monomial { IsMultiplier self.now monomial }
        requires rows { HasRows self.now grid.old }
        requires column { column < grid.old.cols }
        ensures held { Held grid.old grid.new }
        ensures summed { Adds self.now column (scaled E.Coeff.ops factor (times monomial (slice_index_or (equations self.now) equation []))) grid.old grid.new }
    {
        let encoding = self.encoding;
        let graph = self.graph;
        let vertices = graph.vertices() as usize;
        // An encoding holds no list of terms: it works each out from its number.
        for index in 0..encoding.terms(graph, equation) {
            let term = encoding.term(graph, equation, index);
            let exponents = plus(monomial, term.exponents);
            if let Some(row) = monomials::rank(&exponents[..vertices]) {
                let sum = grid.get(row, column).add(factor.mul(term.coeff));
                grid.set(row, column, sum);
            }
        }
    }

    // Writes the columns of one equation's products.
    fn fill_equation(&self, equation: usize, grid: &mut Grid<'_, E::Coeff>)
        requires listed { equation < length (equations self.now) }
        requires rows { HasRows self.now grid.old }
        requires columns { grid.old.cols ≡ self.now.sizes.products + 1 }
        requires begun { HasColumns self.now (equation * self.now.sizes.multipliers) grid.old }
        ensures held { Held grid.old grid.new }
        ensures kept { Kept E.Coeff.ops (grid.old.rows * grid.old.cols) (held grid.old) (held grid.new) }
        ensures begun { HasColumns self.now ((equation + 1) * self.now.sizes.multipliers) grid.new }
    {
        let multipliers = self.sizes.multipliers;
        for rank in 0..multipliers {
            let monomial = self.multiplier(rank);
            self.add_product(
                equation,
                monomial,
                <E::Coeff as Field>::one(),
                equation * multipliers + rank,
                grid,
            );
        }
    }

    // Writes the matrix of a degree into a grid of zeros: in each column the coefficients of its product, and in the last the
    // polynomial one.
    fn fill(&self, grid: &mut Grid<'_, E::Coeff>)
        requires rows { HasRows self.now grid.old }
        requires columns { grid.old.cols ≡ self.now.sizes.products + 1 }
        requires blank { IsBlank self.now grid.old }
        ensures held { Held grid.old grid.new }
        ensures kept { Kept E.Coeff.ops (grid.old.rows * grid.old.cols) (held grid.old) (held grid.new) }
        ensures filled { IsFilled self.now grid.new }
    {
        for equation in 0..self.sizes.equations {
            self.fill_equation(equation, grid);
        }
        grid.set(0, self.sizes.products, <E::Coeff as Field>::one());
    }

    // Decides whether a certificate of the degree exists; the coefficients of the one that uses independent products only then
    // stand in front of the table, in lent memory, so a truth value is all that is left to answer.
    fn solve(&self, table: &mut [E::Coeff]) -> bool
        requires { self.now.sizes.cells ≤ length table.old }
        ensures decided { IsDecided self.now table.new result }
        ensures kept { Kept E.Coeff.ops self.now.sizes.cells table.old table.new }
    {
        let mut grid = Grid::new(table, self.sizes.rows, self.sizes.products + 1);
        grid.clear();
        self.fill(&mut grid);
        grid.solve()
    }
}
