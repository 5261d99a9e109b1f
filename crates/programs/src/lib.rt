// What the programs that answer a script share: their argument, the script that they read, and its lines answered one after the other.
#![tactic(auto)]

ghost use Rattle.std.specs.Prelude.{◌≡◌, ◌≤◌, length, IfOk, IfSome, OnOk, option_map};
ghost use Rattle.plan.specs.Lines.{lines_of};
ghost use Rattle.programs.specs.Arguments.{equations_named};
ghost use Rattle.programs.specs.Answering.{AnswersEach};

use anyhow::anyhow;
use plan::lines::lines;
use std::alloc::{AllocError, Global};
use std::env;
use std::io::{Read, Write};
use std::rt::Env;

/// The most bytes that a script may have.
pub const LONGEST_SCRIPT: usize = 65_536;

/// The equations that a graph's colorings are encoded as.
#[derive(Clone, Copy, Debug, PartialEq, Eq)]
pub enum Equations {
    Plain,
    Triangles,
}

/// The equations that a program's one argument asks for, or the plain ones where there is no argument.
pub fn asked_for(rt: &(impl Env + Alloc)) -> anyhow::Result<Equations> {
    let mut arguments = env::args(rt)?.skip(1);
    let first = arguments.next();
    let more = arguments.next().is_some();
    equations_for(first.as_ref().map(|name| name.as_str()), more).ok_or_else(|| anyhow!(
        "the only argument is `triangles`, for the encoding with triangles"
    ))
}

/// The equations that the first argument asks for, where there may be more arguments.
fn equations_for(first: Option<&str>, more: bool) -> Option<Equations>
    ensures { result ≡ equations_named (option_map (λ name. name.now) first.entry) more }
{
    match first {
        None => Some(Equations::Plain),
        Some(name) => (name == "triangles" && !more).then_some(Equations::Triangles),
    }
}

/// Reads a script to its end.
pub fn read_script<R: Read + Drop>(heap: Global, from: R) -> anyhow::Result<Vec<u8>>
    ensures short { IfOk result (λ script. length script.items ≤ 65536) }
    ensures whole { IfOk result (λ script. IfSome (R.remaining from) (λ bytes. script.items ≡ bytes)) }
{
    let mut script = Vec::new(heap);
    // One byte more than a script may have tells of a longer one.
    from.take(LONGEST_SCRIPT as u64 + 1)
        .read_to_end(&mut script)?;
    if script.len() > LONGEST_SCRIPT {
        return Err(anyhow!("a script has 65536 bytes at most"));
    }
    Ok(script)
}

/// Writes the text for each line of a script, as it is answered.
pub fn answer_script<W: Write + Drop, F: FnMut(&[u8]) -> Result<String, AllocError>>(
    script: &[u8],
    mut to: W,
    mut answer: F,
) -> anyhow::Result<()>
    requires { F.IsAlwaysCallable answer }
    ensures { OnOk result (AnswersEach F.FnMut W.contents (answer, to) (lines_of script.now)) }
{
    for line in lines(script) {
        to.write_all(answer(line)?.as_bytes())?;
    }
    Ok(())
}

#[cfg(test)]
mod tests {
    use crate::{LONGEST_SCRIPT, answer_script, read_script};
    use std::test::Fail;

    #[test]
    fn a_script_is_read_whole(rt: HostRuntime) -> Result<(), Fail> {
        let script = read_script(rt.alloc(), b"B\nB\nC 0 1\n".as_slice())?;
        assert_eq!(rt; script.as_slice(), b"B\nB\nC 0 1\n".as_slice());
        Ok(())
    }

    #[test]
    fn a_longer_script_is_refused(rt: HostRuntime) -> Result<(), Fail> {
        let longest = vec![in rt.alloc(); b'B'; LONGEST_SCRIPT]?;
        assert!(rt; read_script(rt.alloc(), longest.as_slice()).is_ok());
        let longer = vec![in rt.alloc(); b'B'; LONGEST_SCRIPT + 1]?;
        assert!(rt; read_script(rt.alloc(), longer.as_slice()).is_err());
        Ok(())
    }

    #[test]
    fn each_line_is_answered(rt: HostRuntime) -> Result<(), Fail> {
        let heap = rt.alloc();
        let mut text = Vec::new(heap);
        answer_script(b"B\n\nR", &mut text, |line| {
            let n = line.len();
            format!(in heap; "{n};")
        })?;
        assert_eq!(rt; text.as_slice(), b"1;0;1;".as_slice());
        Ok(())
    }
}
