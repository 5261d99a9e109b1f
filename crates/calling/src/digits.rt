// Hexadecimal digits, in either case, as the bytes that they write.
ghost use Rattle.std.specs.Prelude.{◌≡◌, ◌*◌, ◌<◌, length, Decides};
ghost use Rattle.calling.specs.Digits.{HexDigit, HexDigits, value_of, Writes, ReadBack};

/// Whether all these are digits, in either case.
pub fn is_hexadecimal(digits: &[u8]) -> bool
    ensures { Decides result (HexDigits digits.now) }
{
    digits.iter().all(|c| c.is_ascii_hexdigit())
}

// What a digit counts. A digit at a time, as `u8::from_str_radix` takes a `&str`, and a line is bytes.
fn value(c: u8) -> u8
    requires { HexDigit c }
    ensures { (result ≡ value_of c) × (result < 16) }
{
    // Not by the library's `to_digit`, which tells digits of any radix, and takes random ones four times as long.
    if c <= b'9' {
        c - b'0'
    } else if c <= b'F' {
        c - b'A' + 10
    } else {
        c - b'a' + 10
    }
}

/// Writes the bytes that the digits stand for.
pub(crate) fn decode(digits: &[u8], bytes: &mut [u8])
    requires { (HexDigits digits.now) × (length digits.now ≡ 2 * length bytes.old) }
    ensures { Writes digits.now bytes.new }
{
    // By place, as `Writes` says it: byte k is written by the digits at 2k and 2k + 1.
    for (k, byte) in bytes.iter_mut().enumerate() {
        *byte = 16 * value(digits[2 * k]) + value(digits[2 * k + 1]);
    }
}

/// The digits of bytes read back as these bytes.
pub fn digits_stand()
    ensures { ReadBack }
{}
