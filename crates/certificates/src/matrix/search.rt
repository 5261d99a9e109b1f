// Works a degree on lent memory: lays out its matrix, eliminates, writes the certificate if there is one, and leaves zeros
// where the matrix was. Raising a solver and trying an edge both come to this.
ghost use Rattle.std.specs.Prelude.{◌≡◌, ℕ, ◌+◌, ◌*◌, ◌<◌, ◌≤◌, ◌++◌, length, drop, replicate};
ghost use Rattle.algebra.specs.Grid.{Kept};
ghost use Rattle.coloring.specs.Encoding.{over};
ghost use Rattle.certificates.specs.Outcome.{memory};
ghost use Rattle.certificates.specs.Grounds.{Works};

use crate::refusal::Refusal;
use crate::sizes::fit;
use crate::system::System;
use crate::verdict::Verdict;
use algebra::Grid;
use coloring::encoding::Encoding;
use fields::Field;
use graphs::Graph;
use layout::write;

impl<E: Encoding> System<'_, E> {
    ghost use Rattle.certificates.specs.System.{IsSought};

    // Looks for a certificate, and writes it if there is one.
    fn seek(&self, table: &mut [E::Coeff], certificate: &mut [u8]) -> Option<usize>
        requires table { self.now.sizes.cells ≤ length table.old }
        requires bytes { self.now.sizes.bytes ≤ length certificate.old }
        ensures sought { IsSought self.now certificate.old result certificate.new }
        ensures kept { Kept E.Coeff.ops self.now.sizes.cells table.old table.new }
    {
        if !self.solve(table) {
            return None;
        }
        let sizes = self.sizes;
        write(
            &table[..sizes.products],
            sizes.vertices,
            sizes.degree,
            sizes.equations,
            certificate,
        )
    }
}

// Leaves zeros where the matrix was.
pub(crate) fn wipe<F: Field>(table: &mut [F], rows: usize, cols: usize)
    requires rows { 0 < rows }
    requires cols { 0 < cols }
    requires room { rows * cols ≤ length table.old }
    ensures { table.new ≡ replicate (rows * cols) F.ops.zero ++ drop (rows * cols) table.old }
{
    let mut grid = Grid::new(table, rows, cols);
    grid.clear();
}

/// Works a degree. Refuses a degree above 48, a matrix that is too large, and memory that is too small for it.
pub fn work<E: Encoding>(
    encoding: &E,
    graph: &Graph,
    degree: u8,
    table: &mut [E::Coeff],
    certificate: &mut [u8],
) -> Result<Verdict, Refusal>
    ensures { Works E.Coeff.ops graph.now.vertices degree (over (E.lists encoding.now) graph.now) (memory table.old certificate.old) result (memory table.new certificate.new) }
{
    let sizes = fit(encoding, graph, degree, table.len(), certificate.len())?;
    let system = System {
        encoding,
        graph,
        sizes,
    };
    let found = system.seek(table, certificate);
    wipe(table, sizes.rows, sizes.products + 1);
    Ok(found.map_or(Verdict::Open { degree }, |length| {
        Verdict::Infeasible { degree, length }
    }))
}
