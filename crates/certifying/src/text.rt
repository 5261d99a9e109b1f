// What two solvers reply to one line, as text: the answer that both give, and then both certificates where it is that no
// proper coloring exists. Answers that differ stand on one line, so that a reader sees both.
ghost use Rattle.std.specs.Prelude.{◌≡◌, IfOk, string_bytes};
ghost use Rattle.nulla.specs.Words.{words_of};
ghost use Rattle.certifying.specs.Text.{certificate_of, Answer, ReadAsInPlans};

use crate::hexadecimal::hexadecimal;
use certificates::Verdict;
use nulla::Reply;
use std::alloc::{AllocError, Global};

/// A reply in words, as a plan's answer has it, without the line's end.
pub fn words(heap: Global, reply: Reply) -> Result<String, AllocError>
    ensures { IfOk result (λ t. string_bytes t ≡ words_of reply) }
{
    match reply {
        Ok(answer) => format!(in heap; "{answer}"),
        Err(refusal) => format!(in heap; "no {refusal}"),
    }
}

// The line with the certificate that a reply tells of; nothing where it tells of none.
fn certificate_line(
    heap: Global,
    label: &str,
    reply: Reply,
    certificate: &[u8],
) -> Result<String, AllocError>
    ensures { IfOk result (λ t. string_bytes t ≡ certificate_of label.now reply certificate.now) }
{
    if let Ok(nulla::Answer::Worked(Verdict::Infeasible { length, .. })) = reply {
        let digits = hexadecimal(heap, &certificate[..length.min(certificate.len())])?;
        return format!(in heap; "{label} {digits}\n");
    }
    Ok(String::new(heap))
}

/// The text for a line, from what both solvers reply to it and from their memory for certificates.
pub fn answer(
    heap: Global,
    bits: Reply,
    four: Reply,
    first: &[u8],
    second: &[u8],
) -> Result<String, AllocError>
    ensures { IfOk result (λ t. Answer bits four first.now second.now (string_bytes t)) }
{
    let of_bits = words(heap, bits)?;
    let of_four = words(heap, four)?;
    if of_bits != of_four {
        return format!(in heap; "differ: {of_bits}, {of_four}\n");
    }
    let below = certificate_line(heap, "bits", bits, first)?;
    let last = certificate_line(heap, "four", four, second)?;
    format!(in heap; "{of_bits}\n{below}{last}")
}

/// The words are those of the answers to a plan.
pub fn words_stand()
    ensures { ReadAsInPlans }
{}
