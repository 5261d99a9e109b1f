// Elements of a field as bytes, the code of each: a caller in C lends a table of these.
ghost use Rattle.std.specs.Prelude.{◌≡◌, length};
ghost use Rattle.scripts.specs.Codes.{CountsAs, Read, codes_of};

use fields::Field;

// The element that a byte counts as.
fn element<F: Field>(byte: u8) -> F
    ensures { CountsAs F.ops byte result }
{
    F::from_code(byte).unwrap_or(F::zero())
}

/// Reads each byte as an element.
pub fn read_codes<F: Field>(bytes: &[u8], elements: &mut [F])
    requires { length elements.old ≡ length bytes.now }
    ensures { Read F.ops bytes.now elements.new }
{
    // By places, since what a zipped loop writes isn't proved.
    for (k, byte) in bytes.iter().enumerate() {
        elements[k] = element(*byte);
    }
}

/// Writes the code of each element.
pub fn write_codes<F: Field>(elements: &[F], bytes: &mut [u8])
    requires { length elements.now ≡ length bytes.old }
    ensures { bytes.new ≡ codes_of F.ops elements.now }
{
    // By places too.
    for (k, x) in elements.iter().enumerate() {
        bytes[k] = x.code();
    }
}
