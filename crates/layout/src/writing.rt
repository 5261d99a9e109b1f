// The bytes of a certificate. Head, map and codes stand one after the other, and each is written into a part of the lent memory
// of its own.
ghost use Rattle.std.specs.Prelude.{◌≡◌, ℕ, ◌+◌, ◌*◌, ◌^◌, ◌<◌, ◌≤◌, length, slice_index_or};
ghost use Rattle.layout.specs.Length.{map_bytes};
ghost use Rattle.layout.specs.Certificate.{present, bits, codes_of, map_of, head_of};
ghost use Rattle.layout.specs.Written.{Ended, Stored};

use fields::Field;

/// The first byte of every certificate.
pub const FORM: u8 = 1;

/// The bytes before the map.
pub const HEAD: usize = 6;

/// The most products that a certificate is written for.
const MOST_PRODUCTS: usize = 1_000_000;

// Whether a product is there and has a coefficient that is not zero.
fn stands<F: Field>(coefficients: &[F], product: usize) -> bool
    ensures { result ≡ present F.ops (length coefficients.now) (λ k. slice_index_or coefficients.now k F.ops.zero) product }
{
    coefficients.get(product).is_some_and(|x| !x.is_zero())
}

// The byte of the map for the eight products from 8 times `place` on: the first of them has the lowest bit.
fn map_byte<F: Field>(coefficients: &[F], place: usize) -> u8
    requires { 8 * place + 8 < 2 ^ 64 }
    ensures { result ≡ bits F.ops (length coefficients.now) (λ k. slice_index_or coefficients.now k F.ops.zero) place 8 }
{
    (0..8)
        .map(|k| u8::from(stands(coefficients, 8 * place + k)) << k)
        .sum()
}

// The head: the form, the field, the vertices, the degree and the equations.
fn head(order: u8, vertices: u8, degree: u8, equations: u16) -> [u8; HEAD]
    ensures { result ≡ head_of order vertices degree equations }
{
    let [high, low] = equations.to_be_bytes();
    [FORM, order, vertices, degree, high, low]
}

// Writes the map.
fn write_map<F: Field>(coefficients: &[F], map: &mut [u8])
    requires few { length coefficients.now ≤ 1000000 }
    requires long { length map.old ≡ map_bytes (length coefficients.now) }
    ensures { map.new ≡ map_of F.ops (length coefficients.now) (λ k. slice_index_or coefficients.now k F.ops.zero) }
{
    for (place, byte) in map.iter_mut().enumerate() {
        *byte = map_byte(coefficients, place);
    }
}

// Writes the codes of the coefficients that are not zero, and gives how many.
fn write_codes<F: Field>(coefficients: &[F], codes: &mut [u8]) -> usize
    requires { length coefficients.now ≤ length codes.old }
    ensures { Ended result (codes_of F.ops (length coefficients.now) (λ k. slice_index_or coefficients.now k F.ops.zero)) codes.old codes.new }
{
    // The place moves on only where a code is written, and is the result: a zip with the places would have to count them again.
    let mut end = 0;
    for x in coefficients {
        if !x.is_zero() {
            codes[end] = x.code();
            end += 1;
        }
    }
    end
}

/// Writes the certificate with these coefficients, one for each product, and gives its length. `None`, and nothing written,
/// where there are more than a million, more equations than two bytes can say, or not enough bytes.
pub fn write<F: Field>(
    coefficients: &[F],
    vertices: u8,
    degree: u8,
    equations: usize,
    certificate: &mut [u8],
) -> Option<usize>
    ensures { Stored F.ops coefficients.now vertices degree equations certificate.old result certificate.new }
{
    let products = coefficients.len();
    let equations = u16::try_from(equations).ok()?;
    let bytes = products.div_ceil(8);
    if products > MOST_PRODUCTS || certificate.len() < HEAD + bytes + products {
        return None;
    }
    let (front, rest) = certificate.split_at_mut(HEAD);
    let (map, codes) = rest.split_at_mut(bytes);
    front.copy_from_slice(&head(F::order(), vertices, degree, equations));
    write_map(coefficients, map);
    Some(HEAD + bytes + write_codes(coefficients, codes))
}
