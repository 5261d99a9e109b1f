// The text of answers: a line for each reply, written into memory that a caller lends.
ghost use Rattle.std.specs.Prelude.{◌≡◌, ◌+◌, ◌<◌, ◌≤◌, ◌++◌, length, decimal};
ghost use Rattle.nulla.specs.Words.{words_of};
ghost use Rattle.plan.specs.Rendering.{line_of, Short, held, used, Appended};

use crate::lines::LINE_END;
use nulla::{Answer, Reply, Verdict};

const TEN: u8 = 10;

/// A text at the front of the memory that is lent to it. A `Cursor` would answer each write by a `Result`; here there is room.
#[derive(Drop)]
pub struct Text<'a> {
    memory: &'a mut [u8],
    used: usize,
}

impl<'a> Text<'a> {
    /// The empty text.
    pub fn new(memory: &'a mut [u8]) -> Text<'a>
        ensures lent { result.memory.ghost_name ≡ memory.entry.ghost_name }
        ensures memory { held result ≡ memory.old }
        ensures empty { used result ≡ 0 }
    {
        Text { memory, used: 0 }
    }

    /// Where the text ends: how many bytes it has.
    pub fn end(&self) -> usize
        ensures { result ≡ used self.now }
    {
        self.used
    }

    // Writes bytes after the text.
    fn push(&mut self, bytes: &[u8])
        requires { used self.old + length bytes.now ≤ length (held self.old) }
        ensures { Appended self.old bytes.now self.new }
    {
        let end = self.used + bytes.len();
        self.memory[self.used..end].copy_from_slice(bytes);
        self.used = end;
    }

    // Writes a number of one or two digits. They are made by hand, since what the library prints it prints by a `fmt`, which may fail.
    fn push_number(&mut self, n: u8)
        requires { (n < 100) × (used self.old + 2 ≤ length (held self.old)) }
        ensures { Appended self.old (decimal n) self.new }
    {
        if n < TEN {
            return self.push(&[b'0' + n]);
        }
        self.push(&[b'0' + n / TEN, b'0' + n % TEN]);
    }

    // Writes a word and a number of one or two digits.
    fn push_numbered(&mut self, word: &[u8], n: u8)
        requires { (n < 100) × (used self.old + length word.now + 2 ≤ length (held self.old)) }
        ensures { Appended self.old (word.now ++ decimal n) self.new }
    {
        self.push(word);
        self.push_number(n);
    }

    // Writes what a reply prints. By `write!` it might fail, since no contract says when a `fmt` succeeds; here there is room.
    // Inline, so that a reply is not stored to be read again.
    #[inline(always)]
    fn push_words(&mut self, reply: Reply)
        requires { (Short reply) × (used self.old + 8 ≤ length (held self.old)) }
        ensures { Appended self.old (words_of reply) self.new }
    {
        match reply {
            Ok(Answer::Opened(vertex)) => self.push_numbered(b"batch ", vertex),
            Ok(Answer::Done) => self.push(b"ok"),
            Ok(Answer::Worked(Verdict::Infeasible { degree, .. })) => {
                self.push_numbered(b"few ", degree)
            }
            Ok(Answer::Worked(Verdict::Open { degree })) => self.push_numbered(b"open ", degree),
            Ok(Answer::Passed) => self.push(b"passes"),
            Err(ground) => self.push_numbered(b"no ", ground.number()),
        }
    }

    /// Writes the line that answers a call.
    #[inline(always)]
    pub fn push_reply(&mut self, reply: Reply)
        requires { (Short reply) × (used self.old + 9 ≤ length (held self.old)) }
        ensures { Appended self.old (line_of reply) self.new }
    {
        self.push_words(reply);
        self.push(&[LINE_END]);
    }
}
