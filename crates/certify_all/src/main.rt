// Answers the script on standard input, a line for each of the six calls, on a solver over bits and on one over four values, and shows both
// certificates where no proper coloring exists. The argument `triangles` picks the encoding with triangles for both.
#![tactic(auto)]

use calling::side::Side;
use calling::side::calls::answer_line;
use coloring::encoding::Encoding;
use coloring::encoding::plain::Plain;
use coloring::encoding::triangles::Triangles;
use fields::{Bit, Field, Four};
use programs::{Equations, LONGEST_SCRIPT, answer_script, asked_for, read_script};
use std::process::ExitCode;

const ELEMENTS: usize = 4_194_304;

const BYTES: usize = 65_536;

// No certificate on a line of a script is longer: two digits a byte.
const GIVEN: usize = LONGEST_SCRIPT / 2;

fn answer_with<P: Encoding<Coeff = Bit> + Drop, Q: Encoding<Coeff = Four> + Drop>(
    rt: &HostRuntime,
    script: &[u8],
    over_bits: P,
    over_four: Q,
) -> anyhow::Result<()> {
    let heap = rt.alloc();
    let table = vec![in heap; Bit::zero(); ELEMENTS]?;
    let certificate = vec![in heap; 0u8; BYTES]?;
    let given = vec![in heap; 0u8; GIVEN]?;
    let mut bits = Side::new(over_bits, table, certificate, given);
    let table = vec![in heap; Four::zero(); ELEMENTS]?;
    let certificate = vec![in heap; 0u8; BYTES]?;
    let given = vec![in heap; 0u8; GIVEN]?;
    let mut four = Side::new(over_four, table, certificate, given);
    answer_script(script, rt.stdout(), |line| {
        answer_line(heap, line, &mut bits, &mut four)
    })
}

// `certify` has the same: one function for both would take `answer_with`, which is generic, and no closure is.
fn run(rt: &HostRuntime) -> anyhow::Result<()> {
    let equations = asked_for(rt)?;
    let script = read_script(rt.alloc(), rt.stdin())?;
    match equations {
        Equations::Plain => answer_with(rt, &script, Plain::new(), Plain::new()),
        Equations::Triangles => answer_with(
            rt,
            &script,
            Triangles::new(Plain::new()),
            Triangles::new(Plain::new()),
        ),
    }
}

fn main(rt: HostRuntime) -> ExitCode {
    match run(&rt) {
        Ok(()) => ExitCode::SUCCESS,
        Err(error) => {
            let _ = eprintln!(rt; "certify_all: {error}");
            ExitCode::FAILURE
        }
    }
}
