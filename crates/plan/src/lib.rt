// The text of plans: a line for each call on a solver, and a line of answer for each.
#![tactic(auto)]

ghost use Rattle.plan.specs.Plans.{Tracked};

use fields::{Bit, Field};
use nulla::Refusal;

pub mod answers;
pub mod line;
pub mod lines;
pub mod text;

use answers::answer;

/// The elements of the table that `tracks_plan` works in.
pub const TABLE: usize = 65536;

/// The bytes for certificates that `tracks_plan` works in.
pub const CERTIFICATE: usize = 16384;

/// Writes the answers to a plan into `text`, on a new solver that works in memory of the call's own, and says how many bytes they are.
pub fn tracks_plan(plan: &[u8], text: &mut [u8]) -> Result<usize, Refusal>
    ensures { Tracked plan.now text.old result text.new }
{
    let mut table = [Bit::zero(); TABLE];
    let mut certificate = [0u8; CERTIFICATE];
    answer(plan, text, &mut table, &mut certificate)
}
