// The calls on a side, and a line answered on two sides.
ghost use Rattle.std.specs.Prelude.{IfOk, string_bytes};
ghost use Rattle.certifying.specs.Text.{Answer};
ghost use Rattle.certifying.specs.Sides.{New, Turned, Both};

use crate::side::Side;
use crate::text::answer;
use coloring::encoding::Encoding;
use nulla::{Reply, Solver};
use plan::answers::reply_to;
use std::alloc::{AllocError, Global};

impl<E: Encoding> Side<E, E::Coeff> {
    /// A new solver that is lent this memory.
    pub fn new(encoding: E, table: Vec<E::Coeff>, certificate: Vec<u8>) -> Side<E, E::Coeff>
        ensures { New encoding table.items certificate.items result }
    {
        Side {
            solver: Solver::new(encoding),
            table,
            certificate,
        }
    }

    /// Makes the call that a line says; a line that says none is refused.
    pub fn reply(&mut self, line: &[u8]) -> Reply
        ensures { Turned E.Coeff.ops E.lists line.now self.old result self.new }
    {
        reply_to(
            &mut self.solver,
            line,
            &mut self.table,
            &mut self.certificate,
        )
    }
}

/// Makes the call that a line says on two sides, and gives the text for the line.
pub fn answer_line<P: Encoding, Q: Encoding>(
    heap: Global,
    line: &[u8],
    bits: &mut Side<P, P::Coeff>,
    four: &mut Side<Q, Q::Coeff>,
) -> Result<String, AllocError>
    ensures { Both (λ a. Turned P.Coeff.ops P.lists line.now bits.old a bits.new) (λ b. Turned Q.Coeff.ops Q.lists line.now four.old b four.new) (λ a b. IfOk result (λ t. Answer a b bits.new.certificate.items four.new.certificate.items (string_bytes t))) }
{
    let one = bits.reply(line);
    let other = four.reply(line);
    answer(heap, one, other, &bits.certificate, &four.certificate)
}
