// The answers to a plan, written line by line into memory that the caller lends. How much they can take is counted first, so
// that memory which is too short is refused before a byte changes.
ghost use Rattle.std.specs.Prelude.{◌≡◌, ◌*◌, ◌≤◌, length};
ghost use Rattle.certificates.specs.Outcome.{memory};
ghost use Rattle.nulla.specs.State.{state_of};
ghost use Rattle.plan.specs.Lines.{lines_of};
ghost use Rattle.plan.specs.Solving.{store};
ghost use Rattle.plan.specs.Spelling.{Spells};
ghost use Rattle.plan.specs.Texts.{Turn};
ghost use Rattle.plan.specs.Plans.{Lined, Answer, room_of, AnsweredEach, WrittenOnce};

use crate::line::parse;
use crate::lines::{count_lines, lines};
use crate::text::Text;
use coloring::encoding::Encoding;
use coloring::encoding::plain::Plain;
use fields::Bit;
use nulla::{Refusal, Reply, Solver};

/// The most bytes that a plan may have.
pub const LONGEST_PLAN: usize = 4096;

/// The most bytes that an answer line has: `batch`, a space, two digits and the line's end.
pub const LONGEST_LINE: usize = 9;

/// Has a solver make the call that a line of a plan says; a line that says none is refused.
#[tactic(auto, using(crate::specs::Texts::says, crate::specs::Texts::unsaid))]
pub fn reply_to<E: Encoding>(
    solver: &mut Solver<E>,
    line: &[u8],
    table: &mut [E::Coeff],
    certificate: &mut [u8],
) -> Reply
    ensures turn { Turn Spells E.Coeff.ops (E.lists solver.old.encoding) line.now (state_of solver.old) (memory table.old certificate.old) result (state_of solver.new) (memory table.new certificate.new) }
    ensures encoding { solver.new.encoding ≡ solver.old.encoding }
{
    let call = parse(line).ok_or(Refusal::MalformedLine)?;
    solver.make(call, table, certificate)
}

// Answers each line of a plan on a new solver, and says how many bytes the answers are.
fn answer_lines(plan: &[u8], text: &mut [u8], table: &mut [Bit], certificate: &mut [u8]) -> usize
    requires { 9 * length (lines_of plan.now) ≤ length text.old }
    ensures { Lined plan.now text.old (store table.old certificate.old) result text.new (store table.new certificate.new) }
{
    let mut solver = Solver::new(Plain::new());
    let mut answers = Text::new(text);
    for line in lines(plan) {
        answers.push_reply(reply_to(&mut solver, line, table, certificate));
    }
    answers.end()
}

/// The bytes that the answers to a plan are given.
pub fn room(plan: &[u8]) -> usize
    ensures { result ≡ room_of plan.now }
{
    if plan.len() > LONGEST_PLAN {
        return LONGEST_LINE;
    }
    LONGEST_LINE * count_lines(plan).max(1)
}

/// Writes the answers to a plan into `text`, on a new solver that works in `table` and `certificate`, and says how many bytes
/// they are.
pub fn answer(
    plan: &[u8],
    text: &mut [u8],
    table: &mut [Bit],
    certificate: &mut [u8],
) -> Result<usize, Refusal>
    ensures { Answer plan.now text.old (store table.old certificate.old) result text.new (store table.new certificate.new) }
{
    if text.len() < room(plan) {
        return Err(Refusal::OutputTooSmall);
    }
    if plan.len() > LONGEST_PLAN {
        let mut answers = Text::new(text);
        answers.push_reply(Err(Refusal::PlanTooLong));
        return Ok(answers.end());
    }
    Ok(answer_lines(plan, text, table, certificate))
}

/// A plan that is not too long has an answer line for each of its lines.
pub fn answers_stand()
    ensures { AnsweredEach }
{}

/// A plan has one text.
pub fn text_stands()
    ensures { WrittenOnce }
{}
