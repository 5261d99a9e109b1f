// Bytes as hexadecimal digits, so that a certificate can be read, compared and copied as text.
ghost use Rattle.std.specs.Prelude.{◌≡◌, ◌<◌, IfOk, string_bytes};
ghost use Rattle.certifying.specs.Hexadecimal.{digit_of, hex_of};

use std::alloc::{AllocError, Global};

// The digit of a value below sixteen. By hand: to print each byte by `write!` takes five times as long.
fn digit(value: u8) -> char
    requires { value < 16 }
    ensures { result ≡ digit_of value }
{
    if value < 10 {
        char::from(b'0' + value)
    } else {
        char::from(b'A' + (value - 10))
    }
}

/// Two upper-case digits for each byte, without spaces.
pub fn hexadecimal(heap: Global, bytes: &[u8]) -> Result<String, AllocError>
    ensures { IfOk result (λ t. string_bytes t ≡ hex_of bytes.now) }
{
    let mut text = String::new(heap);
    for byte in bytes {
        text.push(digit(*byte / 16))?;
        text.push(digit(*byte % 16))?;
    }
    Ok(text)
}
