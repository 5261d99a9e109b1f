// Elimination over bits as a C caller sees it, so that it can be timed beside another program on the same matrix.
#![tactic(auto)]

ghost use Rattle.std.specs.Prelude.{◌≡◌, ℕ, ◌*◌, length};
ghost use Rattle.fields.specs.Bit.{bit_ops};
ghost use Rattle.algebra.specs.Grid.{Fits, Blank};
ghost use Rattle.algebra.specs.Reduced.{Eliminated};

use algebra::Grid;
use fields::Bit;

/// Brings the rows of a matrix into reduced form, and gives their rank.
#[unsafe(no_mangle)]
pub extern "C" fn bits_eliminate(rows: usize, cols: usize, cells: &mut [Bit]) -> usize
    ensures { Fits rows cols (length cells.old) → Eliminated bit_ops rows cols result cells.old cells.new }
{
    let mut grid = Grid::new(cells, rows, cols);
    grid.eliminate()
}

/// Makes each cell of a matrix zero.
#[unsafe(no_mangle)]
pub extern "C" fn bits_clear(rows: usize, cols: usize, cells: &mut [Bit])
    ensures { Fits rows cols (length cells.old) → Blank bit_ops (rows * cols) cells.old cells.new }
{
    let mut grid = Grid::new(cells, rows, cols);
    grid.clear();
}
