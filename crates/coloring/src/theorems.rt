// What certificates over an encoding say of colorings, and which encodings say the same. Each theorem is the contract of a call that
// does nothing else, so that the crate is proved only with it.

ghost use Rattle.coloring.specs.Theorems.{CertificatesExcludeColorings, CertificatesGrow, PlainAlike, TrianglesAlike};

use crate::encoding::Encoding;
use fields::Field;

/// A certificate shows that a graph has no proper coloring.
pub fn certificates_exclude_colorings<E: Encoding>()
    ensures { (s : E) → CertificatesExcludeColorings E.Coeff.ops (E.lists s) }
{}

/// One more vertex or edge keeps a certificate.
pub fn certificates_grow<E: Encoding>()
    ensures { (s : E) → CertificatesGrow E.Coeff.ops (E.lists s) }
{}

/// The plain equations are the same over every field, with all coefficients one.
pub fn plain_alike<F: Field, G: Field>()
    ensures { PlainAlike F.ops G.ops }
{}

/// Encodings that are the same over two fields stay so with triangles added.
pub fn triangles_alike<E: Encoding, D: Encoding>()
    ensures { (s : E) (t : D) → TrianglesAlike E.Coeff.ops D.Coeff.ops (E.lists s) (E.high s) (D.lists t) (D.high t) }
{}
