// A whole script answered for a caller in C, on a solver of any of four kinds, so that the answers can be compared with others. Script, table,
// certificate and text are four slices that C lends, so they stay apart, and each contract says what it asks of them.
#![tactic(auto)]

ghost use Rattle.std.specs.Prelude.{◌≡◌, ◌≤◌, length};
ghost use Rattle.fields.specs.Bit.{bit_ops};
ghost use Rattle.fields.specs.Four.{four_ops};
ghost use Rattle.scripts.specs.Entries.{lent, room_of, Ran, RanAs, Entry, seen};
ghost use Rattle.scripts.specs.Kinds.{kind_number};

use answers::answer_lines;
use codes::{read_codes, write_codes};
use coloring::encoding::Encoding;
use coloring::encoding::plain::Plain;
use coloring::encoding::triangles::Triangles;
use fields::{Bit, Field, Four};
use kind::{Fault, Kind};
use nulla::Solver;
use plan::answers::LONGEST_LINE;
use plan::lines::count_lines;

mod answers;
mod codes;
mod kind;

/// The most bytes that a script may have.
pub const LONGEST_SCRIPT: usize = 65_536;

/// The most elements that a table may have.
pub const LARGEST_TABLE: usize = 1_048_576;

// No certificate on a line of a script is longer: two digits a byte.
const GIVEN: usize = LONGEST_SCRIPT / 2;

// The bytes that the text for a script is given. A plan's are told alike, with another bound on its length.
fn room(script: &[u8]) -> usize
    requires { length script.now ≤ 65536 }
    ensures { result ≡ room_of script.now }
{
    LONGEST_LINE * count_lines(script).max(1)
}

// Answers a script on a new solver that works in the front of these elements.
fn answer<E: Encoding + Drop>(
    encoding: E,
    elements: &mut [E::Coeff; LARGEST_TABLE],
    script: &[u8],
    table: &mut [u8],
    certificate: &mut [u8],
    text: &mut [u8],
) -> usize
    requires short { length script.now ≤ 65536 }
    requires room { room_of script.now ≤ length text.old }
    requires small { length table.old ≤ 1048576 }
    ensures { Ran E.Coeff.ops (E.lists encoding) script.now (lent table.old certificate.old text.old) result (lent table.new certificate.new text.new) }
{
    let elements = &mut elements[..table.len()];
    let mut solver = Solver::new(encoding);
    let mut given = [0u8; GIVEN];
    read_codes(table, elements);
    let length = answer_lines(&mut solver, script, &mut given, text, elements, certificate);
    write_codes(elements, table);
    length
}

// The same over bits, in elements of its own. Each field has a function: how large a type parameter's array is isn't known, and one function
// with the arrays of both would take both on the stack.
fn answer_over_bits<E: Encoding<Coeff = Bit> + Drop>(
    encoding: E,
    script: &[u8],
    table: &mut [u8],
    certificate: &mut [u8],
    text: &mut [u8],
) -> usize
    requires short { length script.now ≤ 65536 }
    requires room { room_of script.now ≤ length text.old }
    requires small { length table.old ≤ 1048576 }
    ensures { Ran bit_ops (E.lists encoding) script.now (lent table.old certificate.old text.old) result (lent table.new certificate.new text.new) }
{
    let mut elements = [Bit::zero(); LARGEST_TABLE];
    answer(encoding, &mut elements, script, table, certificate, text)
}

// The same over four values.
fn answer_over_four<E: Encoding<Coeff = Four> + Drop>(
    encoding: E,
    script: &[u8],
    table: &mut [u8],
    certificate: &mut [u8],
    text: &mut [u8],
) -> usize
    requires short { length script.now ≤ 65536 }
    requires room { room_of script.now ≤ length text.old }
    requires small { length table.old ≤ 1048576 }
    ensures { Ran four_ops (E.lists encoding) script.now (lent table.old certificate.old text.old) result (lent table.new certificate.new text.new) }
{
    let mut elements = [Four::zero(); LARGEST_TABLE];
    answer(encoding, &mut elements, script, table, certificate, text)
}

// The same on a solver of a kind.
fn answer_as(
    kind: Kind,
    script: &[u8],
    table: &mut [u8],
    certificate: &mut [u8],
    text: &mut [u8],
) -> usize
    requires short { length script.now ≤ 65536 }
    requires room { room_of script.now ≤ length text.old }
    requires small { length table.old ≤ 1048576 }
    ensures { RanAs script.now (lent table.old certificate.old text.old) result (lent table.new certificate.new text.new) (kind_number kind) }
{
    let bits = Plain::<Bit>::new();
    let four = Plain::<Four>::new();
    match kind {
        Kind::Bits => answer_over_bits(bits, script, table, certificate, text),
        Kind::BitsTriangles => {
            answer_over_bits(Triangles::new(bits), script, table, certificate, text)
        }
        Kind::Four => answer_over_four(four, script, table, certificate, text),
        Kind::FourTriangles => {
            answer_over_four(Triangles::new(four), script, table, certificate, text)
        }
    }
}

// The same on a solver of the kind that a number names, if there is one and the memory is enough. What is at fault is looked at in the
// order of these lines.
fn answer_by_number(
    kind: u32,
    script: &[u8],
    table: &mut [u8],
    certificate: &mut [u8],
    text: &mut [u8],
) -> Result<usize, Fault>
    ensures { Entry kind script.now (lent table.old certificate.old text.old) (seen result) (lent table.new certificate.new text.new) }
{
    let kind = Kind::try_from(kind)?;
    if script.len() > LONGEST_SCRIPT {
        return Err(Fault::ScriptTooLong);
    }
    if text.len() < room(script) {
        return Err(Fault::TextTooShort);
    }
    if table.len() > LARGEST_TABLE {
        return Err(Fault::TableTooLarge);
    }
    Ok(answer_as(kind, script, table, certificate, text))
}

/// Answers a script on a new solver of a kind: 0 over bits, 1 over bits with triangles, 2 over four values, 3 over four values with
/// triangles. The bytes of `table` are codes of elements. It gives the length of the text; or -1 for another kind, -10 for a script that
/// is too long, -4 where `text` is too short for it, -3 for a table that is too large, and then it changes nothing.
#[unsafe(no_mangle)]
pub extern "C" fn nulla_script(
    kind: u32,
    script: &[u8],
    table: &mut [u8],
    certificate: &mut [u8],
    text: &mut [u8],
) -> i64
    ensures { Entry kind script.now (lent table.old certificate.old text.old) result (lent table.new certificate.new text.new) }
{
    match answer_by_number(kind, script, table, certificate, text) {
        Ok(length) => length as i64,
        Err(fault) => i64::from(fault),
    }
}
