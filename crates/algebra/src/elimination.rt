// Gauss-Jordan elimination in place, on a slice that holds the rows one after the other. Each step is a function of its own
// whose contract says what it did to the cells; a row's pivot is its first cell that is not zero, so no pivots are stored.
// The functions work on the slice that was lent, and take its rows and columns beside it; a `Grid` keeps the three together for callers.
ghost use Rattle.std.specs.Prelude.{◌≡◌, ℕ, ◌+◌, ◌-◌, ◌*◌, ◌<◌, ◌≤◌, true, false, length, MatchOption, ◌≢◌, slice_set, slice_index_or};
ghost use Rattle.algebra.specs.Grid.{cell, Fits, Kept, Blank, Added, BlankBefore, ClearedRows, Swapped, Scaled, AllZero, FirstNonzero};
ghost use Rattle.algebra.specs.Reduced.{Cleared, Pivoted, Reduced, Eliminated, Read, Solved};

mod grid;

use fields::Field;
pub use grid::Grid;

// The cell of a row and a column.
fn read_cell<F: Field>(cells: &[F], cols: usize, row: usize, col: usize) -> F
    requires row { row * cols + cols ≤ length cells.now }
    requires column { col < cols }
    ensures { result ≡ cell F.ops cells.now cols row col }
{
    cells[row * cols + col]
}

// Writes the cell of a row and a column.
fn write_cell<F: Field>(cells: &mut [F], cols: usize, row: usize, col: usize, x: F)
    requires row { row * cols + cols ≤ length cells.old }
    requires column { col < cols }
    ensures { cells.new ≡ slice_set cells.old (row * cols + col) x }
{
    cells[row * cols + col] = x;
}

// Writes zero into each cell of the grid.
fn clear<F: Field>(cells: &mut [F], rows: usize, cols: usize)
    requires { rows * cols ≤ length cells.old }
    ensures { Blank F.ops (rows * cols) cells.old cells.new }
{
    // not `fill`, which asks that a clone cannot fail: `Copy` does not say so
    for cell in &mut cells[..rows * cols] {
        *cell = F::zero();
    }
}

// Adds `factor` times the row `source` to the row `target`.
fn add_multiple<F: Field>(target: &mut [F], source: &[F], factor: F)
    requires { length source.now ≡ length target.old }
    ensures { Added F.ops factor source.now target.old target.new }
{
    // by the index, since a proof sees what this loop writes, and not what one through `zip` does
    for (c, x) in target.iter_mut().enumerate() {
        *x = x.add(factor.mul(source[c]));
    }
}

// Exchanges the rows `a` and `b`, where `b` is not above `a`.
fn swap_rows<F: Field>(cells: &mut [F], cols: usize, a: usize, b: usize)
    requires order { a ≤ b }
    requires within { b * cols + cols ≤ length cells.old }
    ensures { Swapped F.ops cols a b cells.old cells.new }
{
    if a < b {
        let (above, below) = cells.split_at_mut(b * cols);
        above[a * cols..a * cols + cols].swap_with_slice(&mut below[..cols]);
    }
}

// Multiplies the row `row` by `factor`.
fn scale_row<F: Field>(cells: &mut [F], cols: usize, row: usize, factor: F)
    requires { row * cols + cols ≤ length cells.old }
    ensures { Scaled F.ops cols row factor cells.old cells.new }
{
    for x in &mut cells[row * cols..row * cols + cols] {
        *x = factor.mul(*x);
    }
}

// The first row from `from` on whose cell in the column `col` is not zero.
fn find_pivot<F: Field>(
    cells: &[F],
    rows: usize,
    cols: usize,
    from: usize,
    col: usize,
) -> Option<usize>
    requires within { rows * cols ≤ length cells.now }
    requires column { col < cols }
    ensures { MatchOption result (AllZero F.ops cells.now cols from rows col) (λ i. FirstNonzero F.ops cells.now cols from rows col i) }
{
    (from..rows).find(|&row| !read_cell(cells, cols, row, col).is_zero())
}

// Makes the row `target` zero in the column `col`, by a multiple of the row `source`, which begins there with one. Most cells are
// zero already, and then nothing is to be done.
fn clear_cell<F: Field>(target: &mut [F], source: &[F], col: usize)
    requires long { length source.now ≡ length target.old }
    requires column { col < length source.now }
    requires blank { BlankBefore F.ops col source.now }
    ensures { Added F.ops (slice_index_or target.old col F.ops.zero) source.now target.old target.new }
{
    let factor = target[col];
    if !factor.is_zero() {
        add_multiple(&mut target[col..], &source[col..], factor);
    }
}

// Makes the column `col` zero in the rows that the slice holds, by the row `source`, which begins there with one.
fn clear_rows<F: Field>(cells: &mut [F], source: &[F], col: usize)
    requires column { col < length source.now }
    requires blank { BlankBefore F.ops col source.now }
    ensures { ClearedRows F.ops (length source.now) col source.now cells.old cells.new }
{
    let cols = source.len();
    // by the index, since a proof does not see what is written through `chunks_exact_mut`
    for row in 0..cells.len() / cols {
        clear_cell(&mut cells[row * cols..row * cols + cols], source, col);
    }
}

// Makes the column `col` zero but in the row `row`, which begins there with one. The rows above and below are two slices apart from
// the row, so that the compiler can tell them from it and add by vectors.
fn clear_column<F: Field>(cells: &mut [F], rows: usize, cols: usize, row: usize, col: usize)
    requires within { rows * cols ≤ length cells.old }
    requires row { row < rows }
    requires column { col < cols }
    requires blank { (c : ℕ) → c < col → cell F.ops cells.old cols row c ≡ F.ops.zero }
    requires one { cell F.ops cells.old cols row col ≡ F.ops.one }
    ensures { Cleared F.ops rows cols row col cells.old cells.new }
{
    let (above, rest) = cells.split_at_mut(row * cols);
    let (source, below) = rest.split_at_mut(cols);
    clear_rows(above, source, col);
    clear_rows(&mut below[..(rows - row - 1) * cols], source, col);
}

// Makes the column `col` the unit of the row `rank`, where some row from `rank` on is not zero there; says whether there is one.
// Its number is no answer: the row has changed places by then.
fn reduce_column<F: Field>(
    cells: &mut [F],
    rows: usize,
    cols: usize,
    rank: usize,
    col: usize,
) -> bool
    requires within { rows * cols ≤ length cells.old }
    requires column { col < cols }
    requires blank { (r c : ℕ) → rank ≤ r → r < rows → c < col → cell F.ops cells.old cols r c ≡ F.ops.zero }
    ensures found { result ≡ true → Pivoted F.ops rows cols rank col cells.old cells.new }
    ensures none { result ≡ false → (cells.new ≡ cells.old) × AllZero F.ops cells.old cols rank rows col }
{
    let Some(row) = find_pivot(cells, rows, cols, rank, col) else {
        return false;
    };
    swap_rows(cells, cols, rank, row);
    let x = cells[rank * cols + col];
    scale_row(cells, cols, rank, x.inv());
    clear_column(cells, rows, cols, rank, col);
    true
}

// Brings the rows into reduced form; returns how many are not zero.
fn eliminate<F: Field>(cells: &mut [F], rows: usize, cols: usize) -> usize
    requires { Fits rows cols (length cells.old) }
    ensures { Eliminated F.ops rows cols result cells.old cells.new }
{
    // The rank so far says where the next column's pivot is sought.
    let mut rank = 0;
    for col in 0..cols {
        if reduce_column(cells, rows, cols, rank, col) {
            rank += 1;
        }
    }
    rank
}

// Whether the row `row` is one of the first `rank`, and not zero in the column `col`.
fn begins_at<F: Field>(
    cells: &[F],
    rows: usize,
    cols: usize,
    rank: usize,
    row: usize,
    col: usize,
) -> bool
    requires within { rows * cols ≤ length cells.now }
    requires rank { rank ≤ rows }
    requires column { col < cols }
    ensures yes { result ≡ true → (row < rank) × (cell F.ops cells.now cols row col ≢ F.ops.zero) }
    ensures no { result ≡ false → row < rank → cell F.ops cells.now cols row col ≡ F.ops.zero }
{
    row < rank && !cells[row * cols + col].is_zero()
}

// Writes over the first row the coefficients that give the last column, of reduced rows; false where the last column is a pivot's.
// A row's pivot is the first column, after the pivots of the rows before it, where it is not zero. The first row's cells are read before
// they are written over.
fn read_solution<F: Field>(cells: &mut [F], rows: usize, cols: usize, rank: usize) -> bool
    requires fits { Fits rows cols (length cells.old) }
    requires rank { rank ≤ rows }
    ensures kept { Kept F.ops (cols - 1) cells.old cells.new }
    ensures read { (pivot : ℕ → ℕ) → Reduced F.ops rows cols rank pivot (cell F.ops cells.old cols) → Read F.ops rows cols rank pivot cells.old cells.new result }
{
    let last = cols - 1;
    let mut row = 0;
    // by the index, since the loop reads the other rows while it writes the first
    for col in 0..last {
        if begins_at(cells, rows, cols, rank, row, col) {
            cells[col] = cells[row * cols + last];
            row += 1;
        } else {
            cells[col] = F::zero();
        }
    }
    row == rank
}

// Writes over the first row the coefficients by which the other columns give the last; false where they do not. The coefficients stand in
// the memory that was lent, so a truth value is all that is left to answer.
fn solve<F: Field>(cells: &mut [F], rows: usize, cols: usize) -> bool
    requires { Fits rows cols (length cells.old) }
    ensures { Solved F.ops rows cols cells.old cells.new result }
{
    let rank = eliminate(cells, rows, cols);
    read_solution(cells, rows, cols, rank)
}
