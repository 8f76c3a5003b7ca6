//! The tokens of a line of questions.
ghost use Rattle.std.specs.Prelude.{◌≡◌};
ghost use Rattle.std.specs.Iterator.{YieldsFirstRef, item_count};
ghost use Rattle.std.specs.List.{list_any};
ghost use Rattle.std.specs.Prelude.{bytes_eq};
ghost use Rattle.lines_layout.specs.Names.{begins_with_letter};
ghost use Rattle.text_tokens.specs.Text.{SplitsFirst};
ghost use Rattle.questions.specs.Tokens.{is_identifier, is_keyword, is_sign, item_tokens, place_of};

use crate::question::Place;
use text_tokens::split_token;

/// Words that name no item.
const KEYWORDS: [&str; 10] = [
    "not",
    "and",
    "or",
    "persisted",
    "coherent",
    "reg",
    "trapped",
    "let",
    "every",
    "some",
];

/// The tokens of a line: each of `,` `[` `]` `:` `(` `)`, and each run of other characters. Blanks (space, tab and
/// carriage return) part tokens, and `#` starts a comment up to the line's end.
#[derive(Clone, Copy)]
pub(crate) struct ItemTokens<'a> {
    /// The part of the line whose tokens are not taken yet.
    pub rest: &'a [u8],
}

#[tactic(auto, unfolding(crate::specs::Tokens::item_tokens))]
fn first_token(line: &[u8]) -> Option<(&[u8], &[u8])>
    ensures { SplitsFirst item_tokens line.now result }
{
    split_token(b",[]:()", b"#", line)
}

impl<'a> ItemTokens<'a> {
    /// The tokens of the line.
    pub(crate) fn new(line: &'a [u8]) -> ItemTokens<'a>
        ensures { result.rest.now ≡ line.now }
    {
        ItemTokens { rest: line }
    }
}

impl<'a> Iterator for ItemTokens<'a> {
    type Item = &'a [u8];

    ghost next_gives = { YieldsFirstRef (λ s. item_tokens s.rest.now) };

    ghost remaining = { item_count (λ s. item_tokens s.rest.now) };

    fn next(&mut self) -> Option<&'a [u8]> {
        let (token, after) = first_token(self.rest)?;
        self.rest = after;
        Some(token)
    }
}

/// Whether a token is one of these words.
fn is_among(token: &[u8], words: &[&str]) -> bool
    ensures { result ≡ list_any (λ word. bytes_eq token.now word.now) words.now }
{
    words.iter().any(|word| token == word.as_bytes())
}

/// Whether a token names no item.
pub(crate) fn is_keyword(token: &[u8]) -> bool
    ensures { result ≡ is_keyword token.now }
{
    is_among(token, &KEYWORDS)
}

/// Whether a token begins with a lower case letter.
fn begins_with_letter(token: &[u8]) -> bool
    ensures { result ≡ begins_with_letter token.now }
{
    match token {
        [] => false,
        [first, ..] => first.is_ascii_lowercase(),
    }
}

/// Whether a token is meant as the name of an item or of a word.
pub(crate) fn is_identifier(token: &[u8]) -> bool
    ensures { result ≡ is_identifier token.now }
{
    begins_with_letter(token) && !is_keyword(token)
}

/// Whether a token is a sign: it begins as a number does, and is none.
pub(crate) fn is_sign(token: &[u8]) -> bool
    ensures { result ≡ is_sign token.now }
{
    token == b"-".as_slice() || token == b"->".as_slice()
}

/// The place that is written so.
#[tactic(auto, unfolding(crate::specs::Tokens::place_of))]
pub(crate) fn place(token: &[u8]) -> Option<Place>
    ensures { result ≡ place_of token.now }
{
    if token == b"crash".as_slice() {
        Some(Place::Crash)
    } else if token == b"end".as_slice() {
        Some(Place::End)
    } else if token == b"recovery".as_slice() {
        Some(Place::Recovery)
    } else {
        None
    }
}
