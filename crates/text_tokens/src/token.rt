//! The tokens of a line, one after another, and which bytes a line may have.
ghost use Rattle.std.specs.Prelude.{◌≡◌, ◌<◌, ◌≤◌, false, length, slice_index};
ghost use Rattle.std.specs.List.{prefix_len};
ghost use Rattle.std.specs.Iterator.{YieldsFirstRef, item_count};
ghost use Rattle.text_tokens.specs.Text.{SplitsFirst, tokens_by, tokens_of, past_blanks, is_blank, is_one_of, is_run_by, is_plain, is_plain_line};

/// The tokens of a line.
///
/// Each of `,` `[` `]` `:` is a token, and so is a run of other characters. Blanks (space, tab and
/// carriage return) part tokens, and `#` starts a comment up to the line's end.
#[derive(Clone, Copy)]
pub struct Tokens<'a> {
    /// The part of the line whose tokens are not taken yet.
    pub rest: &'a [u8],
}

/// Whether the byte is a space, a tab or a carriage return.
pub fn is_blank(byte: u8) -> bool
    ensures { result ≡ is_blank byte }
{
    matches!(byte, b' ' | b'\t' | b'\r')
}

fn is_one_of(chars: &[u8], byte: u8) -> bool
    ensures { result ≡ is_one_of chars.now byte }
{
    chars.iter().any(|c| byte == *c)
}

fn is_run_byte(marks: &[u8], ends: &[u8], byte: u8) -> bool
    ensures { result ≡ is_run_by marks.now ends.now byte }
{
    !is_blank(byte) && !is_one_of(marks, byte) && !is_one_of(ends, byte)
}

fn is_plain(byte: u8) -> bool
    ensures { result ≡ is_plain byte }
{
    is_blank(byte) || (b'!' <= byte && byte <= b'~')
}

/// Whether the line has blanks and visible characters (`!` to `~`) alone.
pub fn is_plain_line(line: &[u8]) -> bool
    ensures { result ≡ is_plain_line line.now }
{
    line.iter().all(|b| is_plain(*b))
}

fn blank_len(text: &[u8]) -> usize
    ensures value { result ≡ prefix_len is_blank text.now }
    ensures within { result ≤ length text.now }
{
    text.iter().take_while(|b| is_blank(**b)).count()
}

fn run_len(marks: &[u8], ends: &[u8], text: &[u8]) -> usize
    ensures value { result ≡ prefix_len (is_run_by marks.now ends.now) text.now }
    ensures within { result ≤ length text.now }
{
    text.iter()
        .take_while(|b| is_run_byte(marks, ends, **b))
        .count()
}

/// The text from its first byte on that is no blank.
#[tactic(auto, using(crate::proofs::SplitToken::blank_steps))]
pub fn skip_blanks(text: &[u8]) -> &[u8]
    ensures text { result.now ≡ past_blanks text.now }
    ensures front { 0 < length result.now → is_blank (slice_index result.now 0) ≡ false }
{
    let (_, others) = text.split_at(blank_len(text));
    others
}

/// The first token and what follows it, if there is one, where each of `marks` is a token by itself,
/// and each of `ends` ends the text.
#[tactic(auto, using(crate::proofs::SplitToken::token_steps))]
pub fn split_token<'a>(marks: &[u8], ends: &[u8], text: &'a [u8]) -> Option<(&'a [u8], &'a [u8])>
    ensures { SplitsFirst (tokens_by marks.now ends.now) text.now result }
{
    match skip_blanks(text) {
        [] => None,
        text @ [first, ..] if is_one_of(marks, *first) => Some(text.split_at(1)),
        [first, ..] if is_one_of(ends, *first) => None,
        text => Some(text.split_at(run_len(marks, ends, text))),
    }
}

#[tactic(auto, unfolding(crate::specs::Text::tokens_of))]
fn first_token(line: &[u8]) -> Option<(&[u8], &[u8])>
    ensures { SplitsFirst tokens_of line.now result }
{
    split_token(b",[]:", b"#", line)
}

impl<'a> Tokens<'a> {
    /// The tokens of the line.
    pub fn new(line: &'a [u8]) -> Tokens<'a>
        ensures { result.rest.now ≡ line.now }
    {
        Tokens { rest: line }
    }
}

impl<'a> Iterator for Tokens<'a> {
    type Item = &'a [u8];

    ghost next_gives = { YieldsFirstRef (λ s. tokens_of s.rest.now) };

    ghost remaining = { item_count (λ s. tokens_of s.rest.now) };

    fn next(&mut self) -> Option<&'a [u8]> {
        let (token, after) = first_token(self.rest)?;
        self.rest = after;
        Some(token)
    }
}
