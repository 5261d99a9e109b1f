// A grid of cells in a slice that is lent to it: the methods hand the slice to the functions of elimination. Each method tests
// whether the slice has room for the grid, and where it has not, does nothing. `Held` stands in each contract that changes a grid: it says
// of the grid after the call that it still holds the loan it had, which the type of one grid cannot say. No call fails, so that a slice has room
// is no invariant either: without room there is no rank and no solution, and zero is read.
ghost use Rattle.std.specs.Prelude.{◌≡◌, ◌-◌, ◌≤◌, ◌↔◌, IsTrue, true, false};
ghost use Rattle.algebra.specs.Grid.{Kept};
ghost use Rattle.algebra.specs.Held.{held, Roomy, Held, Inside, Got, Put, Untouched, BlankGrid, EliminatedGrid, ReadGrid, SolvedGrid};

use super::{clear, eliminate, read_cell, read_solution, solve, write_cell};
use fields::Field;

#[derive(Drop)]
pub struct Grid<'a, F: Field> {
    cells: &'a mut [F],
    rows: usize,
    cols: usize,
}

impl<'a, F: Field> Grid<'a, F> {
    pub fn new(cells: &'a mut [F], rows: usize, cols: usize) -> Grid<'a, F>
        ensures lent { result.cells.ghost_name ≡ cells.entry.ghost_name }
        ensures cells { held result ≡ cells.old }
        ensures rows { result.rows ≡ rows }
        ensures cols { result.cols ≡ cols }
    {
        Grid { cells, rows, cols }
    }

    /// Whether the slice has room for the grid, and the grid has a cell.
    pub fn fits(&self) -> bool
        ensures yes { result ≡ true → Roomy self.now }
        ensures no { result ≡ false → Roomy self.now → ⊥ }
    {
        self.rows > 0
            && self.cols > 0
            && self
                .rows
                .checked_mul(self.cols)
                .is_some_and(|size| size <= self.cells.len())
    }

    // Whether the grid has such a row and such a column.
    fn contains(&self, row: usize, col: usize) -> bool
        ensures { IsTrue result ↔ Inside self.now row col }
    {
        row < self.rows && col < self.cols && self.fits()
    }

    /// The cell of a row and a column; zero where the grid has none.
    pub fn get(&self, row: usize, col: usize) -> F
        ensures { Got F.ops self.now row col result }
    {
        if self.contains(row, col) {
            read_cell(self.cells, self.cols, row, col)
        } else {
            F::zero()
        }
    }

    /// Writes the cell of a row and a column; nothing where the grid has none.
    pub fn set(&mut self, row: usize, col: usize, x: F)
        ensures held { Held self.old self.new }
        ensures cell { Put self.old self.new row col x }
    {
        if self.contains(row, col) {
            write_cell(self.cells, self.cols, row, col, x);
        }
    }

    /// Makes each cell of the grid zero.
    pub fn clear(&mut self)
        ensures held { Held self.old self.new }
        ensures done { Roomy self.old → BlankGrid F.ops self.old self.new }
        ensures refused { (Roomy self.old → ⊥) → Untouched self.old self.new }
    {
        if self.fits() {
            clear(self.cells, self.rows, self.cols);
        }
    }

    /// Brings the rows into reduced form, and returns their rank.
    pub fn eliminate(&mut self) -> usize
        ensures held { Held self.old self.new }
        ensures done { Roomy self.old → EliminatedGrid F.ops self.old self.new result }
        ensures refused { (Roomy self.old → ⊥) → (result ≡ 0) × Untouched self.old self.new }
    {
        if self.fits() {
            eliminate(self.cells, self.rows, self.cols)
        } else {
            0
        }
    }

    /// After elimination, with the rank that it returned: writes over the first row the coefficients by which the other columns give the last;
    /// false where they do not.
    pub fn read_solution(&mut self, rank: usize) -> bool
        ensures held { Held self.old self.new }
        ensures done { Roomy self.old → ReadGrid F.ops self.old self.new rank result }
        ensures kept { Kept F.ops (self.old.cols - 1) (held self.old) (held self.new) }
        ensures refused { (Roomy self.old → rank ≤ self.old.rows → ⊥) → (result ≡ false) × Untouched self.old self.new }
    {
        rank <= self.rows && self.fits() && read_solution(self.cells, self.rows, self.cols, rank)
    }

    /// Writes over the first row the coefficients by which the other columns give the last; false where they do not.
    pub fn solve(&mut self) -> bool
        ensures held { Held self.old self.new }
        ensures done { Roomy self.old → SolvedGrid F.ops self.old self.new result }
        ensures refused { (Roomy self.old → ⊥) → (result ≡ false) × Untouched self.old self.new }
    {
        self.fits() && solve(self.cells, self.rows, self.cols)
    }
}
