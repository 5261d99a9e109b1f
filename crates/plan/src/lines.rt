// Where a byte stands in a text: lines and words are cut there. The lines of a text, and how many they are.
ghost use Rattle.std.specs.Prelude.{◌≡◌, ◌≤◌, length};
ghost use Rattle.std.specs.Iterator.{YieldsFirstBy, item_count};
ghost use Rattle.plan.specs.Lines.{Found, lines_of, left, unended};

/// The byte that ends a line.
pub const LINE_END: u8 = b'\n';

/// The first place of `byte` in `text` at or after `from`; the text's end where it does not stand there, so that the text can be cut at the
/// answer either way.
pub fn find(text: &[u8], byte: u8, from: usize) -> usize
    ensures { Found text.now byte from result }
{
    // Place by place: on short lines a search through `skip`, or by `find` with a closure, takes longer.
    for place in from..text.len() {
        if text[place] == byte {
            return place;
        }
    }
    text.len().max(from)
}

/// The lines of a text one after the other, without their ends.
#[derive(Clone, Debug, Drop)]
pub struct TextLines<'a> {
    text: &'a [u8],
    at: usize,
}

/// The lines of a text, without their ends.
pub fn lines(text: &[u8]) -> TextLines<'_>
    ensures { left result ≡ lines_of text.now }
{
    TextLines { text, at: 0 }
}

impl<'a> Iterator for TextLines<'a> {
    type Item = &'a [u8];

    ghost next_gives = { YieldsFirstBy (λ line. line.now) left };

    ghost remaining = { item_count left };

    fn next(&mut self) -> Option<&'a [u8]> {
        let text = self.text;
        let start = self.at;
        if start >= text.len() {
            return None;
        }
        let end = find(text, LINE_END, start);
        self.at = end + 1;
        Some(&text[start..end])
    }
}

// One for a last line that lacks its end.
fn unended(text: &[u8]) -> usize
    ensures { result ≡ unended text.now }
{
    if text.is_empty() {
        return 0;
    }
    usize::from(text[text.len() - 1] != LINE_END)
}

/// How many lines a text has.
pub fn count_lines(text: &[u8]) -> usize
    ensures value { result ≡ length (lines_of text.now) }
    ensures few { result ≤ length text.now }
{
    // By adding, which the compiler does by vectors, and not line by line.
    let ended: usize = text.iter().map(|byte| usize::from(*byte == LINE_END)).sum();
    ended + unended(text)
}
