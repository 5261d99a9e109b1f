// What a line of a script says, and the call that it says, made on a solver. A certificate on a line is decoded into memory that the
// caller lends, once all of the line is seen to be well formed.
ghost use Rattle.std.specs.Prelude.{◌≡◌, length};
ghost use Rattle.std.specs.Option.{option_map};
ghost use Rattle.nulla.specs.State.{state_of};
ghost use Rattle.certificates.specs.Outcome.{memory};
ghost use Rattle.calling.specs.Script.{AskedOnce, Named, Handed, Parsed, Replied, Holds};

use crate::digits::{decode, is_hexadecimal};
use coloring::encoding::Encoding;
use nulla::{Call, Refusal, Reply, Solver};
use plan::line;
use plan::line::{ends, number};
use plan::lines::find;

const SPACE: u8 = b' ';

// The three numbers after a line's letter.
fn three(line: &[u8]) -> Option<(usize, usize, usize)>
    ensures { Named line.now result }
{
    let first = find(line, SPACE, 2);
    let second = find(line, SPACE, first + 1);
    let third = line.get(second + 1..)?;
    let (i, j) = ends(&line[..second])?;
    let d = number(third)?;
    Some((i, j, d))
}

/// The call that a line says; none where it is malformed or asks for a check.
pub fn parse(line: &[u8]) -> Option<Call<'static>>
    ensures { Parsed line.now result }
{
    if !line.starts_with(b"T") {
        return line::parse(line);
    }
    let (i, j, d) = three(line)?;
    Some(Call::TryEdge(i, j, d))
}

/// The digits of the certificate that a line hands over for a check; none where it asks for no check.
pub fn handed(line: &[u8]) -> Option<&[u8]>
    ensures { Handed line.now (option_map (λ x. x.now) result) }
{
    let rest = line.strip_prefix(b"K ")?;
    if rest.is_empty() || rest.len() % 2 != 0 || !is_hexadecimal(rest) {
        return None;
    }
    Some(rest)
}

/// Has a solver make the call that a line says; a line that says none is refused. The certificate on a line is decoded into `given`, and
/// refused where that is too short.
pub fn reply_to<E: Encoding>(
    solver: &mut Solver<E>,
    line: &[u8],
    given: &mut [u8],
    table: &mut [E::Coeff],
    certificate: &mut [u8],
) -> Reply
    ensures replied { Replied E.Coeff.ops (E.lists solver.old.encoding) line.now (length given.old) (state_of solver.old) (memory table.old certificate.old) result (state_of solver.new) (memory table.new certificate.new) }
    ensures holds { Holds line.now given.old given.new }
    ensures encoding { solver.new.encoding ≡ solver.old.encoding }
{
    if let Some(digits) = handed(line) {
        let length = digits.len() / 2;
        if length > given.len() {
            return Err(Refusal::OutputTooSmall);
        }
        decode(digits, &mut given[..length]);
        return solver.make(Call::Check(&given[..length]), table, certificate);
    }
    let call = parse(line).ok_or(Refusal::MalformedLine)?;
    solver.make(call, table, certificate)
}

/// A line says one thing at most.
pub fn asking_stands()
    ensures { AskedOnce }
{}
