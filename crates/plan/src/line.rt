// What a line of a plan says. A line is read by its letter and its spaces, so that each part is a slice of the plan itself.
ghost use Rattle.std.specs.Prelude.{◌≡◌, ◌-◌, MatchOption};
ghost use Rattle.plan.specs.Spelling.{Digit, Valued, Named, Parsed, SpelledOnce};

use crate::lines::find;
use nulla::Call;

const SPACE: u8 = b' ';

// What a decimal digit counts.
fn digit(byte: u8) -> Option<usize>
    ensures { MatchOption result (Digit byte → ⊥) (λ n. Digit byte × (n ≡ byte - 48)) }
{
    byte.is_ascii_digit().then(|| usize::from(byte - b'0'))
}

/// The number that one to three decimal digits write.
pub fn number(digits: &[u8]) -> Option<usize>
    ensures { Valued digits.now result }
{
    match *digits {
        [a] => digit(a),
        [a, b] => Some(10 * digit(a)? + digit(b)?),
        [a, b, c] => Some(100 * digit(a)? + 10 * digit(b)? + digit(c)?),
        _ => None,
    }
}

/// The two numbers after a line's letter.
// Inline, since the compiler keeps a function of two callers apart.
#[inline(always)]
pub fn ends(line: &[u8]) -> Option<(usize, usize)>
    ensures { Named line.now result }
{
    if line.get(1) != Some(&SPACE) {
        return None;
    }
    let space = find(line, SPACE, 2);
    if space >= line.len() {
        return None;
    }
    let i = number(&line[2..space])?;
    let j = number(&line[space + 1..])?;
    Some((i, j))
}

/// The call that a line says, or none where it is malformed.
pub fn parse(line: &[u8]) -> Option<Call<'static>>
    ensures { Parsed line.now result }
{
    match line {
        [b'B'] => Some(Call::OpenVertex),
        [b'R'] => Some(Call::Raise),
        [b'C', ..] => ends(line).map(|(i, j)| Call::AddEdge(i, j)),
        [b'W', ..] => ends(line).map(|(i, j)| Call::RemoveEdge(i, j)),
        _ => None,
    }
}

/// A line says one call at most.
pub fn spelling_stands()
    ensures { SpelledOnce }
{}
