// Prints what the first degree comes to for graphs whose answers are known: wheels with an odd rim and the Grötzsch graph
// have certificates of degree 1, wheels with an even rim have none there. Then it lends a solver exactly what it needs, and
// one element or byte less.
#![tactic(auto)]

use coloring::encoding::plain::Plain;
use families::{Family, work};
use fields::{Bit, Field};
use std::io;

/// How much memory a solver is lent.
#[derive(Clone, Copy, Debug, PartialEq, Eq)]
struct Lent {
    elements: usize,
    bytes: usize,
}

/// More than any of the graphs needs.
const AMPLE: Lent = Lent {
    elements: 4_194_304,
    bytes: 65_536,
};

// Works a graph with so much memory, and ends the line with what that comes to. Each program that works a family prints that by
// itself, as each shows other parts of a certificate: here none, since the verdict alone is known of these graphs.
fn answer(rt: HostRuntime, family: Family, lent: Lent) -> io::Result<()> {
    let mut table = vec![in rt.alloc(); Bit::zero(); lent.elements]?;
    let mut certificate = vec![in rt.alloc(); 0u8; lent.bytes]?;
    match work(Plain::new(), family, &mut table, &mut certificate) {
        Ok(verdict) => println!(rt; "{verdict}"),
        Err(refusal) => println!(rt; "refused by {refusal}"),
    }
}

fn answer_plainly(rt: HostRuntime, family: Family) -> io::Result<()> {
    print!(rt; "{family}: ")?;
    answer(rt, family, AMPLE)
}

fn answer_within(rt: HostRuntime, family: Family, lent: Lent) -> io::Result<()> {
    let Lent { elements, bytes } = lent;
    print!(rt; "{family} with {elements} elements and {bytes} bytes: ")?;
    answer(rt, family, lent)
}

fn main(rt: HostRuntime) -> io::Result<()> {
    for rim in 3..12 {
        answer_plainly(rt, Family::Wheel(rim))?;
    }
    for family in [
        Family::Grotzsch,
        Family::Complete(0),
        Family::Complete(3),
        Family::Complete(4),
    ] {
        answer_plainly(rt, family)?;
    }
    for elements in [23_730, 23_729] {
        answer_within(rt, Family::Wheel(5), Lent { elements, ..AMPLE })?;
    }
    answer_within(
        rt,
        Family::Complete(4),
        Lent {
            elements: 3_569,
            ..AMPLE
        },
    )?;
    for bytes in [62, 63] {
        answer_within(rt, Family::Complete(4), Lent { bytes, ..AMPLE })?;
    }
    Ok(())
}
