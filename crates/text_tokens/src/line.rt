//! The lines of a text, one after another.
ghost use Rattle.std.specs.Prelude.{◌≡◌, ◌≤◌, length};
ghost use Rattle.std.specs.List.{prefix_len};
ghost use Rattle.std.specs.Iterator.{YieldsFirstRef, item_count};
ghost use Rattle.text_tokens.specs.Text.{SplitsFirst, lines_of, is_line_byte};

/// The lines of a text, without their line feeds.
///
/// A line ends with a line feed, and bytes after the last line feed, if any, are a last line.
#[derive(Clone, Copy)]
pub struct Lines<'a> {
    /// The text of the lines that are not taken yet.
    pub rest: &'a [u8],
}

/// How many bytes are before the first line feed, or all.
fn line_len(text: &[u8]) -> usize
    ensures value { result ≡ prefix_len is_line_byte text.now }
    ensures within { result ≤ length text.now }
{
    text.iter().take_while(|b| **b != b'\n').count()
}

/// The first line and what follows its line feed, if there is any text.
#[tactic(auto, using(crate::proofs::SplitLine::lines_steps))]
fn split_line(text: &[u8]) -> Option<(&[u8], &[u8])>
    ensures { SplitsFirst lines_of text.now result }
{
    if text.is_empty() {
        return None;
    }
    match text.split_at(line_len(text)) {
        (line, []) => Some((line, &[])),
        (line, [_, after @ ..]) => Some((line, after)),
    }
}

impl<'a> Lines<'a> {
    /// The lines of the text, of which there are no more than it has bytes.
    #[tactic(auto, using(crate::proofs::SplitLine::few_lines))]
    pub fn new(text: &'a [u8]) -> Lines<'a>
        ensures rest { result.rest.now ≡ text.now }
        ensures few { length (lines_of text.now) ≤ length text.now }
    {
        Lines { rest: text }
    }
}

impl<'a> Iterator for Lines<'a> {
    type Item = &'a [u8];

    ghost next_gives = { YieldsFirstRef (λ s. lines_of s.rest.now) };

    ghost remaining = { item_count (λ s. lines_of s.rest.now) };

    fn next(&mut self) -> Option<&'a [u8]> {
        let (line, after) = split_line(self.rest)?;
        self.rest = after;
        Some(line)
    }
}
