// Solves small pseudo-random systems over the bits and over the field of four elements, and compares each answer with a search through all
// assignments: an independent account of what elimination decides. A line for each system.
#![tactic(auto)]

use algebra::{Bit, Field, Four, Grid};
use std::{fmt, io};

const COLUMNS: usize = 4;

const MOST_ROWS: usize = 4;

const CELLS: usize = MOST_ROWS * COLUMNS;

const CASES: usize = 24;

// A linear congruential generator.
#[derive(Drop)]
struct Generator {
    state: u32,
}

impl Generator {
    // Two bits of the next state.
    fn next_code(&mut self) -> u8 {
        self.state = self.state.wrapping_mul(1664525).wrapping_add(1013904223);
        ((self.state >> 16) & 3) as u8
    }
}

// Values of the three variables.
#[derive(Clone, Copy)]
struct Assignment<F> {
    x: F,
    y: F,
    z: F,
}

impl<F: Field> fmt::Display for Assignment<F> {
    fn fmt<W: fmt::Write>(&self, f: &mut fmt::Formatter<W>) -> fmt::Result {
        write!(f, "{} {} {}", self.x.code(), self.y.code(), self.z.code())
    }
}

// The element of a code, or zero where the field has none. `scripts` reads a byte alike; a method would be one more that a field could give
// another meaning.
fn element<F: Field>(code: u8) -> F {
    F::from_code(code).unwrap_or(F::zero())
}

// Writes random elements into a system.
fn fill<F: Field>(cells: &mut [F], generator: &mut Generator) {
    for cell in cells {
        *cell = element(generator.next_code());
    }
}

// Whether the values solve each equation of the system. By codes: a field is asked for no equality.
fn satisfies<F: Field>(system: &Grid<F>, rows: usize, values: Assignment<F>) -> bool {
    (0..rows).all(|row| {
        let first = system.get(row, 0).mul(values.x);
        let second = system.get(row, 1).mul(values.y);
        let third = system.get(row, 2).mul(values.z);
        first.add(second).add(third).code() == system.get(row, 3).code()
    })
}

// Whether some assignment solves the system, by trying all.
fn search<F: Field>(system: &Grid<F>, rows: usize) -> bool {
    (0..F::order()).any(|a| {
        (0..F::order()).any(|b| {
            (0..F::order()).any(|c| {
                let values = Assignment {
                    x: element(a),
                    y: element(b),
                    z: element(c),
                };
                satisfies(system, rows, values)
            })
        })
    })
}

// The solution of a system that elimination gives, if it gives one.
fn solve<F: Field>(cells: &mut [F], rows: usize) -> Option<Assignment<F>> {
    let mut grid = Grid::new(cells, rows, COLUMNS);
    grid.solve().then(|| Assignment {
        x: grid.get(0, 0),
        y: grid.get(0, 1),
        z: grid.get(0, 2),
    })
}

// Whether the search finds a solution exactly where there is one, and the values solve the system.
fn agrees<F: Field>(cells: &mut [F], rows: usize, solution: Option<Assignment<F>>) -> bool {
    let system = Grid::new(cells, rows, COLUMNS);
    let found = search(&system, rows);
    solution.map_or(!found, |values| found && satisfies(&system, rows, values))
}

// Solves the next system in these cells, and searches a copy of it; writes what came.
fn compare<F: Field>(
    rt: &HostRuntime,
    case: usize,
    generator: &mut Generator,
    mut cells: [F; CELLS],
) -> io::Result<()> {
    let rows = 1 + case % MOST_ROWS;
    fill(&mut cells[..rows * COLUMNS], generator);
    let mut copy = cells;
    let solution = solve(&mut cells, rows);
    let verdict = if agrees(&mut copy, rows, solution) {
        "as the search says"
    } else {
        "and the search differs"
    };
    let size = F::order();
    print!(rt; "{size} elements, system {case} of {rows} equations: ")?;
    match solution {
        Some(values) => println!(rt; "solved by {values}, {verdict}"),
        None => println!(rt; "no solution, {verdict}"),
    }
}

fn main(rt: HostRuntime) -> io::Result<()> {
    let mut generator = Generator { state: 1 };
    for case in 1..=CASES {
        compare(&rt, case, &mut generator, [Bit::zero(); CELLS])?;
        compare(&rt, case, &mut generator, [Four::zero(); CELLS])?;
    }
    Ok(())
}
