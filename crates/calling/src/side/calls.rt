// The calls on a side, and a line answered on two sides.
ghost use Rattle.std.specs.Prelude.{IfOk, string_bytes};
ghost use Rattle.calling.specs.Text.{Text};
ghost use Rattle.calling.specs.Sides.{New, Turned};
ghost use Rattle.certifying.specs.Sides.{Both};

use crate::script::reply_to;
use crate::side::Side;
use crate::text::text_for;
use coloring::encoding::Encoding;
use nulla::Reply;
use std::alloc::{AllocError, Global};

impl<E: Encoding> Side<E, E::Coeff> {
    /// A new solver that is lent this memory.
    pub fn new(
        encoding: E,
        table: Vec<E::Coeff>,
        certificate: Vec<u8>,
        given: Vec<u8>,
    ) -> Side<E, E::Coeff>
        ensures { New encoding table.items certificate.items given.items result }
    {
        Side {
            side: certifying::side::Side::new(encoding, table, certificate),
            given,
        }
    }

    /// Makes the call that a line says; a line that says none is refused.
    pub fn reply(&mut self, line: &[u8]) -> Reply
        ensures { Turned E.Coeff.ops E.lists line.now self.old result self.new }
    {
        reply_to(
            &mut self.side.solver,
            line,
            &mut self.given,
            &mut self.side.table,
            &mut self.side.certificate,
        )
    }
}

// `certifying` has a function of this shape for its own sides. One for both would take the side's reply and the text as parameters, and
// they are all that it does.
/// Makes the call that a line says on two sides, and gives the text for the line.
pub fn answer_line<P: Encoding, Q: Encoding>(
    heap: Global,
    line: &[u8],
    bits: &mut Side<P, P::Coeff>,
    four: &mut Side<Q, Q::Coeff>,
) -> Result<String, AllocError>
    ensures { Both (λ a. Turned P.Coeff.ops P.lists line.now bits.old a bits.new) (λ b. Turned Q.Coeff.ops Q.lists line.now four.old b four.new) (λ a b. IfOk result (λ t. Text line.now a b bits.new.side.certificate.items four.new.side.certificate.items (string_bytes t))) }
{
    let one = bits.reply(line);
    let other = four.reply(line);
    let (first, second) = (&bits.side.certificate, &four.side.certificate);
    text_for(heap, line, one, other, first, second)
}
