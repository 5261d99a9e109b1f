// Works an encoding that a client wrote on the library's own solver, beside the plain one, over bits and over four values: the
// equations are twice as many, and the degrees and verdicts are the same.
#![tactic(auto)]

use coloring::encoding::Encoding;
use coloring::encoding::plain::Plain;
use custom::Repeated;
use families::{Family, work};
use fields::{Bit, Field, Four};
use nulla::Verdict;
use std::io;

const ELEMENTS: usize = 65_536;

const BYTES: usize = 1024;

// Works so many vertices, all joined, and prints what that comes to. Each program that works a family prints that by itself, as each
// shows other parts of a certificate: here its length alone.
fn show<E: Encoding + Drop>(
    rt: HostRuntime,
    name: &str,
    encoding: E,
    vertices: u8,
) -> io::Result<()> {
    let mut table = vec![in rt.alloc(); E::Coeff::zero(); ELEMENTS]?;
    let mut certificate = vec![in rt.alloc(); 0u8; BYTES]?;
    print!(rt; "{name} {vertices}: ")?;
    match work(
        encoding,
        Family::Complete(vertices),
        &mut table,
        &mut certificate,
    ) {
        Ok(verdict @ Verdict::Infeasible { length, .. }) => {
            println!(rt; "{verdict}, {length} bytes")
        }
        Ok(verdict) => println!(rt; "{verdict}"),
        Err(refusal) => println!(rt; "refused by {refusal}"),
    }
}

fn main(rt: HostRuntime) -> io::Result<()> {
    for vertices in 3..5 {
        show(rt, "plain over bits", Plain::<Bit>::new(), vertices)?;
        show(rt, "repeated over bits", Repeated::<Bit>::new(), vertices)?;
        show(
            rt,
            "repeated over four values",
            Repeated::<Four>::new(),
            vertices,
        )?;
    }
    Ok(())
}
