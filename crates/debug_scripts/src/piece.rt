//! The pieces of a line that declares a stop: blanks alone part them, and a comment ends them. And the two of NAME=V.
ghost use Rattle.std.specs.Prelude.{◌≡◌, ◌≤◌, drop, length};
ghost use Rattle.std.specs.List.{prefix_len};
ghost use Rattle.debug_scripts.specs.Pieces.{is_solid, name_and_value, piece_of, stands_before_comment, stands_before_equals, uncommented};

use text_tokens::{is_blank, skip_blanks};

fn comment_place(line: &[u8]) -> usize
    ensures value { result ≡ prefix_len stands_before_comment line.now }
    ensures within { result ≤ length line.now }
{
    line.iter().take_while(|b| **b != b'#').count()
}

fn piece_len(text: &[u8]) -> usize
    ensures value { result ≡ prefix_len is_solid text.now }
    ensures within { result ≤ length text.now }
{
    text.iter().take_while(|b| !is_blank(**b)).count()
}

/// The line before its comment.
#[tactic(auto, unfolding(crate::specs::Pieces::uncommented))]
pub fn before_comment(line: &[u8]) -> &[u8]
    ensures { result.now ≡ uncommented line.now }
{
    let (before, _) = line.split_at(comment_place(line));
    before
}

/// The first piece of a text, and what comes after it.
#[tactic(auto, unfolding(crate::specs::Pieces::piece_of))]
pub fn split_piece(text: &[u8]) -> (&[u8], &[u8])
    ensures { (result.0.now, result.1.now) ≡ piece_of text.now }
{
    let text = skip_blanks(text);
    text.split_at(piece_len(text))
}

fn name_len(token: &[u8]) -> usize
    ensures value { result ≡ prefix_len stands_before_equals token.now }
    ensures within { result ≤ length token.now }
{
    token.iter().take_while(|b| **b != b'=').count()
}

/// What is behind the first byte of a text, if it has one.
fn past_first(text: &[u8]) -> &[u8]
    ensures { result.now ≡ drop 1 text.now }
{
    if text.is_empty() {
        return text;
    }
    let (_, behind) = text.split_at(1);
    behind
}

/// NAME=V: what is before the first `=`, and what is behind it.
#[tactic(auto, unfolding(crate::specs::Pieces::name_and_value))]
pub(crate) fn split_value(token: &[u8]) -> (&[u8], &[u8])
    ensures { (result.0.now, result.1.now) ≡ name_and_value token.now }
{
    let (name, behind) = token.split_at(name_len(token));
    (name, past_first(behind))
}
