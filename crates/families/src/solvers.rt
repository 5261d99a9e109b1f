// Solvers that have the graph of a family.
ghost use Rattle.std.specs.Prelude.{◌≡◌, ◌+◌, ◌<◌, ◌≤◌, ◌↔◌, IfOk, IfErr, IsOk};
ghost use Rattle.certificates.specs.Outcome.{memory};
ghost use Rattle.nulla.specs.State.{state_of};
ghost use Rattle.families.specs.Family.{vertices_of};
ghost use Rattle.families.specs.Building.{Stands, Reaches, Raises};

use crate::family::Family;
use coloring::encoding::Encoding;
use nulla::{Refusal, Solver, Verdict};

// Joins the last vertex to those below it.
fn join_below<E: Encoding>(
    solver: &mut Solver<E>,
    family: Family,
    vertex: usize,
) -> Result<(), Refusal>
    requires inside { (vertex < vertices_of family) × (vertex < 24) }
    requires below { Reaches family (vertex + 1) vertex 0 (state_of solver.old) }
    ensures ok { IsOk result }
    ensures joined { Reaches family (vertex + 1) (vertex + 1) 0 (state_of solver.new) }
    ensures encoding { solver.new.encoding ≡ solver.old.encoding }
{
    for lower in 0..vertex {
        if family.joins(lower, vertex) {
            solver.add_edge(lower, vertex)?;
        }
    }
    Ok(())
}

/// A new solver over an encoding, with the graph of a family. A graph of more than 24 vertices is refused.
pub fn build<E: Encoding + Drop>(encoding: E, family: Family) -> Result<Solver<E>, Refusal>
    ensures ok { IsOk result ↔ (vertices_of family ≤ 24) }
    ensures refused { IfErr result (λ r. r ≡ Refusal.NoVertexLeft) }
    ensures graph { IfOk result (λ s. Stands family (state_of s)) }
    ensures encoding { IfOk result (λ s. s.encoding ≡ encoding) }
{
    let mut solver = Solver::new(encoding);
    for vertex in 0..family.vertices() {
        solver.open_vertex()?;
        join_below(&mut solver, family, vertex)?;
    }
    Ok(solver)
}

/// Works degree 1 on a new solver with the graph of a family.
pub fn work<E: Encoding + Drop>(
    encoding: E,
    family: Family,
    table: &mut [E::Coeff],
    certificate: &mut [u8],
) -> Result<Verdict, Refusal>
    ensures { Raises E.Coeff.ops E.lists encoding family (memory table.old certificate.old) result (memory table.new certificate.new) }
{
    build(encoding, family)?.raise(table, certificate)
}
