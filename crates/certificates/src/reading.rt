// Reading the bytes of a certificate: the bits of its map, how many stand, and whether a bit or a code stands where none may.
// A place past the end reads as zero, so that every question has an answer whatever the bytes.
ghost use Rattle.std.specs.Prelude.{◌≡◌, ◌≤◌, ◌↔◌, IsTrue};
ghost use Rattle.layout.specs.Reading.{byte, stands, before};
ghost use Rattle.certificates.specs.Checking.{BitPast, BadCode};

use layout::HEAD;

// The byte at a place; zero past the end.
pub(crate) fn byte_at(certificate: &[u8], place: usize) -> u8
    ensures { result ≡ byte certificate.now place }
{
    certificate.get(place).copied().unwrap_or(0)
}

// Whether the map says that a product has a coefficient that is not zero.
pub(crate) fn marked(certificate: &[u8], product: usize) -> bool
    ensures { result ≡ stands certificate.now product }
{
    (byte_at(certificate, HEAD + product / 8) >> (product % 8)) % 2 == 1
}

// How many of the first products have one.
pub(crate) fn marks(certificate: &[u8], products: usize) -> usize
    ensures { result ≡ before certificate.now products }
{
    (0..products)
        .filter(|product| marked(certificate, *product))
        .count()
}

// Whether a bit of the map that is no product's stands.
pub(crate) fn marked_past(certificate: &[u8], products: usize) -> bool
    requires { products ≤ 1000000 }
    ensures { IsTrue result ↔ BitPast products certificate.now }
{
    (products..8 * products.div_ceil(8)).any(|product| marked(certificate, product))
}

// Whether a byte behind the map is 0 or no code of a field of so many elements.
pub(crate) fn bad_code(certificate: &[u8], products: usize, order: u8) -> bool
    requires { products ≤ 1000000 }
    ensures { IsTrue result ↔ BadCode order products certificate.now }
{
    certificate
        .iter()
        .skip(HEAD + products.div_ceil(8))
        .any(|&code| code == 0 || code >= order)
}
