// Works the Moser spindle, seven vertices and eleven edges, at degree 1: the plain equations have no certificate there, those with
// triangles have one. Prints how many equations it is over, and which products it uses, by equation and place of the monomial: it
// reads these from the bytes by itself, as anyone can who is given a certificate and has no solver.
#![tactic(auto)]

use coloring::encoding::Encoding;
use coloring::encoding::plain::Plain;
use coloring::encoding::triangles::Triangles;
use families::{Family, work};
use fields::{Bit, Field, Four};
use layout::HEAD;
use nulla::Verdict;
use std::io;

/// How many monomials of degree at most 1 there are.
const MONOMIALS: usize = 8;

const ELEMENTS: usize = 65_536;

const BYTES: usize = 1024;

// The byte at a place, or 0 past the end.
fn byte(bytes: &[u8], place: usize) -> u8 {
    bytes.get(place).copied().unwrap_or(0)
}

fn show_products(rt: HostRuntime, certificate: &[u8]) -> io::Result<()> {
    let equations = u16::from_be_bytes([byte(certificate, 4), byte(certificate, 5)]);
    println!(rt;
        "over {equations} equations, with {} elements",
        byte(certificate, 1)
    )?;
    for product in 0..usize::from(equations) * MONOMIALS {
        if byte(certificate, HEAD + product / 8) >> (product % 8) & 1 == 1 {
            println!(rt;
                "product {product}: equation {}, monomial {}",
                product / MONOMIALS,
                product % MONOMIALS
            )?;
        }
    }
    Ok(())
}

// Works the graph, and prints what that comes to. Each program that works a family prints that by itself, as each shows other parts
// of a certificate: here its length and its products.
fn show<E: Encoding + Drop>(rt: HostRuntime, encoding: E) -> io::Result<()> {
    let mut table = vec![in rt.alloc(); E::Coeff::zero(); ELEMENTS]?;
    let mut certificate = vec![in rt.alloc(); 0u8; BYTES]?;
    match work(encoding, Family::Spindle, &mut table, &mut certificate) {
        Ok(verdict @ Verdict::Infeasible { length, .. }) => {
            println!(rt; "{verdict}, {length} bytes")?;
            show_products(rt, &certificate)
        }
        Ok(verdict) => println!(rt; "{verdict}"),
        Err(refusal) => println!(rt; "refused by {refusal}"),
    }
}

fn main(rt: HostRuntime) -> io::Result<()> {
    show(rt, Plain::<Bit>::new())?;
    show(rt, Triangles::new(Plain::<Bit>::new()))?;
    show(rt, Triangles::new(Plain::<Four>::new()))
}
