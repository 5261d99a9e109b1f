// Checks a certificate: reads it, adds up the products of the graph's equations in a column of the table, each by the
// coefficient that the certificate gives it, and looks whether the sum is one. No power is folded into a lower one.
ghost use Rattle.std.specs.Prelude.{◌≡◌, length, MatchResult};
ghost use Rattle.coloring.specs.Encoding.{over};
ghost use Rattle.certificates.specs.Grounds.{First, Clear};
ghost use Rattle.certificates.specs.Checking.{degree_of, heads, checking, Admitted, Checks};

use crate::matrix::search::wipe;
use crate::matrix::sum::is_one;
use crate::reading::{bad_code, byte_at, marked_past, marks};
use crate::refusal::Refusal;
use crate::sizes::{LAST_DEGREE, Sizes, measure};
use crate::system::System;
use coloring::encoding::Encoding;
use fields::Field;
use graphs::Graph;
use layout::{FORM, HEAD};

// The degree that a certificate names, where its head is that of a certificate for this field, so many vertices and so many
// equations.
fn head(order: u8, vertices: u8, equations: usize, certificate: &[u8]) -> Result<u8, Refusal>
    ensures { MatchResult result (λ d. (d ≡ degree_of certificate.now) × Clear (heads order vertices equations certificate.now)) (λ e. First (heads order vertices equations certificate.now) e) }
{
    let form = byte_at(certificate, 0);
    let degree = byte_at(certificate, 3);
    if certificate.len() < HEAD || form != FORM || degree < 1 || degree > LAST_DEGREE {
        return Err(Refusal::MalformedHead);
    }
    let count = u16::from_be_bytes([byte_at(certificate, 4), byte_at(certificate, 5)]);
    if byte_at(certificate, 1) != order
        || byte_at(certificate, 2) != vertices
        || usize::from(count) != equations
    {
        return Err(Refusal::OtherSolver);
    }
    Ok(degree)
}

// The sizes of the degree that a certificate names, where nothing stands in the way of its sum: it is well-formed, for this
// field and this graph, not too large, and a table of so many elements suffices.
fn admit<E: Encoding>(
    encoding: &E,
    graph: &Graph,
    certificate: &[u8],
    elements: usize,
) -> Result<Sizes, Refusal>
    ensures { MatchResult result (λ z. Admitted E.Coeff.ops.size graph.now.vertices (length (over (E.lists encoding.now) graph.now)) certificate.now elements z) (λ e. First (checking E.Coeff.ops.size graph.now.vertices (length (over (E.lists encoding.now) graph.now)) certificate.now elements) e) }
{
    let order = <E::Coeff as Field>::order();
    let degree = head(order, graph.vertices(), encoding.count(graph), certificate)?;
    let sizes = measure(encoding, graph, degree).ok_or(Refusal::TooLarge)?;
    let products = sizes.products;
    if certificate.len() != HEAD + sizes.map + marks(certificate, products) {
        return Err(Refusal::WrongLength);
    }
    if marked_past(certificate, products) || bad_code(certificate, products, order) {
        return Err(Refusal::MalformedBody);
    }
    if elements < sizes.rows {
        return Err(Refusal::TableTooSmall);
    }
    Ok(sizes)
}

/// Checks a certificate: passes exactly when the products of the graph's equations, each by the coefficient that the
/// certificate gives it, add up to one. Refuses bytes that are no certificate for this field and this graph, a matrix that is
/// too large, and a table that has fewer elements than monomials can occur; leaves zeros in the elements that it used.
pub fn check<E: Encoding>(
    encoding: &E,
    graph: &Graph,
    certificate: &[u8],
    table: &mut [E::Coeff],
) -> Result<(), Refusal>
    ensures { Checks E.Coeff.ops graph.now.vertices (over (E.lists encoding.now) graph.now) certificate.now table.old result table.new }
{
    let sizes = admit(encoding, graph, certificate, table.len())?;
    let rows = sizes.rows;
    let system = System {
        encoding,
        graph,
        sizes,
    };
    system.sum(certificate, table);
    let one = is_one(&table[..rows]);
    wipe(table, rows, 1);
    if one { Ok(()) } else { Err(Refusal::NotOne) }
}
