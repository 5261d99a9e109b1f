// Answers the plan on standard input, on standard output. One byte more than a plan may have is read, so that a longer input
// is seen to be one.
#![tactic(auto)]

ghost use Rattle.std.specs.Prelude.{◌≤◌, length, pos};
ghost use Rattle.plan.specs.Plans.{Entry, room_of};

use plan::answers::{LONGEST_LINE, LONGEST_PLAN};
use plan::tracks_plan;
use std::io;
use std::io::{Cursor, Read, Write};

const INPUT: usize = LONGEST_PLAN + 1;

const TEXT: usize = LONGEST_PLAN * LONGEST_LINE;

// Writes the answers to a plan into `text`, and says how many bytes they are: none where `text` is too short for them.
fn answers_to(plan: &[u8], text: &mut [u8]) -> usize
    ensures within { result ≤ length text.new }
    ensures whole { room_of plan.now ≤ length text.old → Entry plan.now text.old (pos result) text.new }
{
    tracks_plan(plan, text).unwrap_or(0)
}

fn main(rt: HostRuntime) -> io::Result<()> {
    // Plan and text stand in arrays, so that nothing rests on an allocator.
    let mut buffer = [0u8; INPUT];
    let read = io::copy(
        &mut rt.stdin().take(INPUT as u64),
        &mut Cursor::new(&mut buffer[..]),
    )?;
    let plan = &buffer[..INPUT.min(read as usize)];
    let mut text = [0u8; TEXT];
    let length = answers_to(plan, &mut text);
    rt.stdout().write_all(&text[..length])
}
