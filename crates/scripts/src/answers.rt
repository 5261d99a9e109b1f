// The lines of a script answered one after the other, a line of text for each.
ghost use Rattle.std.specs.Prelude.{◌*◌, ◌≤◌, length};
ghost use Rattle.certificates.specs.Outcome.{memory};
ghost use Rattle.nulla.specs.State.{state_of};
ghost use Rattle.plan.specs.Lines.{lines_of};
ghost use Rattle.plan.specs.Texts.{Filled};
ghost use Rattle.calling.specs.Script.{Asks};

use calling::script::reply_to;
use coloring::encoding::Encoding;
use nulla::Solver;
use plan::lines::lines;
use plan::text::Text;

/// Answers each line of a script, and says how many bytes the answers are. A certificate on a line is decoded into `given`.
pub fn answer_lines<E: Encoding>(
    solver: &mut Solver<E>,
    script: &[u8],
    given: &mut [u8],
    text: &mut [u8],
    table: &mut [E::Coeff],
    certificate: &mut [u8],
) -> usize
    requires { (9 * length (lines_of script.now) ≤ length text.old) × (length script.now ≤ 2 * length given.old) }
    ensures { Filled Asks E.Coeff.ops (E.lists solver.old.encoding) script.now text.old (state_of solver.old) (memory table.old certificate.old) result text.new (memory table.new certificate.new) }
{
    // `plan` has this loop over its own `reply_to`: a closure's promise would have to carry the run.
    let mut answers = Text::new(text);
    for line in lines(script) {
        answers.push_reply(reply_to(solver, line, given, table, certificate));
    }
    answers.end()
}
