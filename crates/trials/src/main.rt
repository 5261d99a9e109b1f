// Makes trials of edges between all the other calls, drawn from a fixed seed, on four solvers that take the same steps, and reads each
// solver's graph back after every call: no trial leaves its edge behind, whatever it answers. Where a trial answers infeasible the
// edge is added, and the certificate that the trial wrote is checked. Prints what the calls came to.
#![tactic(auto)]

mod draws;
mod log;
mod readings;
mod record;
mod side;
mod sizes;
mod step;

use coloring::encoding::plain::Plain;
use coloring::encoding::triangles::Triangles;
use fields::{Bit, Four};
use readings::Readings;
use side::Side;
use sizes::Counted;
use std::alloc::{AllocError, Global};
use std::io;
use step::{Round, Script};

const SEED: u64 = 97;

const ROUNDS: usize = 400;

/// How many vertices may be open at first, and after how many rounds each may be one more.
const FIRST_VERTICES: usize = 4;

const ROUNDS_EACH: usize = 100;

// What all solvers go through.
fn draw_rounds(heap: Global) -> Result<Vec<Round>, AllocError> {
    let mut script = Script::new(SEED);
    let mut rounds = Vec::new(heap);
    for number in 0..ROUNDS {
        rounds.push(script.round(FIRST_VERTICES + number / ROUNDS_EACH))?;
    }
    Ok(rounds)
}

// Has a new solver take the step of each round, prints what its calls came to, and adds what was read back to the rest.
fn play<E: Counted + Drop>(
    rt: HostRuntime,
    name: &str,
    encoding: E,
    rounds: &[Round],
    readings: &mut Readings,
) -> io::Result<()> {
    let mut side = Side::new(rt.alloc(), encoding)?;
    for round in rounds {
        side.take(round)?;
    }
    readings.add(side.readings());
    println!(rt; "{name}: {}", side.log())
}

fn main(rt: HostRuntime) -> io::Result<()> {
    let rounds = draw_rounds(rt.alloc())?;
    let mut readings = Readings::default();
    let bits = Plain::<Bit>::new();
    let four = Plain::<Four>::new();
    play(rt, "bits, plain", bits, &rounds, &mut readings)?;
    play(
        rt,
        "bits, triangles",
        Triangles::new(bits),
        &rounds,
        &mut readings,
    )?;
    play(rt, "four values, plain", four, &rounds, &mut readings)?;
    play(
        rt,
        "four values, triangles",
        Triangles::new(four),
        &rounds,
        &mut readings,
    )?;
    println!(rt; "{readings}")
}
