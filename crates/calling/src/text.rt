// The text that answers a line, where a line may ask for a check.
ghost use Rattle.std.specs.Prelude.{◌≡◌, IfOk, string_bytes};
ghost use Rattle.calling.specs.Text.{checked_of, Text};

use crate::script::handed;
use certifying::text::{answer, words};
use nulla::Reply;
use std::alloc::{AllocError, Global};

/// The text for a check, from what both solvers reply to it.
pub fn checked(heap: Global, bits: Reply, four: Reply) -> Result<String, AllocError>
    ensures { IfOk result (λ t. string_bytes t ≡ checked_of bits four) }
{
    let first = words(heap, bits)?;
    let second = words(heap, four)?;
    format!(in heap; "bits {first}\nfour {second}\n")
}

/// The text for a line, from what both solvers reply to it and from their memory for certificates.
pub fn text_for(
    heap: Global,
    line: &[u8],
    bits: Reply,
    four: Reply,
    first: &[u8],
    second: &[u8],
) -> Result<String, AllocError>
    ensures { IfOk result (λ t. Text line.now bits four first.now second.now (string_bytes t)) }
{
    // A match, and no test by `is_some`, since its arms show a proof what was handed.
    match handed(line) {
        Some(_) => checked(heap, bits, four),
        None => answer(heap, bits, four, first, second),
    }
}
