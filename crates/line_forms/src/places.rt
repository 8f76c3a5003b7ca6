//! The places of tokens in a text.
ghost use Rattle.std.specs.Prelude.{◌≡◌, ◌-◌, ◌<◌, ◌≤◌, [], length, take, drop, true, codes, IfSome, IsNone, MatchOption, option_map};
ghost use Rattle.std.specs.List.{list_all, prefix_len};
ghost use Rattle.line_forms.specs.Places.{line_at, IsConditionPlace, IsFirstOf, IsPlaceOf, IsWithin, before_comment, is_before_comment, is_no_end};
ghost use Rattle.text_tokens.specs.Text.{tokens_by, tokens_of};

use text_tokens::{Lines, skip_blanks, split_token};

/// A place in a text: its bytes from `from` to before `to`. Where something is missing the two are equal.
#[derive(Clone, Copy, Debug, PartialEq, Eq)]
pub struct Place {
    /// The first byte of the place.
    pub from: usize,
    /// The first byte after it.
    pub to: usize,
}

impl Place {
    /// The place of no bytes, before this byte.
    pub(crate) fn at(byte: usize) -> Place
        ensures { result ≡ record { from = byte; to = byte } }
    {
        Place {
            from: byte,
            to: byte,
        }
    }
}

/// The place of the first token from this byte on, where each of `marks` is a token by itself, and each of `ends` ends
/// the text.
fn next_place(marks: &[u8], ends: &[u8], text: &[u8], from: usize) -> Option<Place>
    requires within { from ≤ length text.now }
    requires goes_on { list_all (is_no_end marks.now ends.now) (take from text.now) ≡ true }
    ensures within { IfSome result (IsWithin text.now) }
    ensures token { let tokens = tokens_by marks.now ends.now (drop from text.now) in
        MatchOption result (tokens ≡ []) (IsFirstOf marks.now ends.now text.now tokens) }
{
    let (_, rest) = text.split_at(from);
    let rest = skip_blanks(rest);
    let Some((token, _)) = split_token(marks, ends, rest) else {
        return None;
    };
    let from = text.len() - rest.len();
    Some(Place {
        from,
        to: from + token.len(),
    })
}

/// The place of the token of this index, from 0.
fn nth_place(marks: &[u8], ends: &[u8], text: &[u8], index: usize) -> Option<Place>
    ensures within { IfSome result (IsWithin text.now) }
    ensures token { let tokens = tokens_by marks.now ends.now text.now in
        MatchOption result (length tokens ≤ index) (IsFirstOf marks.now ends.now text.now (drop index tokens)) }
{
    let mut place = next_place(marks, ends, text, 0)?;
    for _passed in 0..index {
        place = next_place(marks, ends, text, place.to)?;
    }
    Some(place)
}

/// The place of the token of this index. Where there is none, it is right after the token before it, or at the end where
/// that one is missing too.
fn place_or_end(marks: &[u8], ends: &[u8], text: &[u8], index: usize) -> Place
    ensures within { IsWithin text.now result }
    ensures token { IsPlaceOf marks.now ends.now text.now index result }
{
    if let Some(place) = nth_place(marks, ends, text, index) {
        return place;
    }
    if index == 0 {
        return Place::at(0);
    }
    match nth_place(marks, ends, text, index - 1) {
        Some(before) => Place::at(before.to),
        None => Place::at(text.len()),
    }
}

/// The line of this number, from 1, if the text has it.
pub fn line(text: &[u8], number: usize) -> Option<&[u8]>
    ensures none { number ≡ 0 → IsNone result }
    ensures line { 0 < number → option_map (λ line. line.now) result ≡ line_at text.now number }
{
    if number == 0 {
        return None;
    }
    Lines::new(text).nth(number - 1)
}

/// The place of a line's token of this index, from 0, if the line has so many.
#[tactic(auto, unfolding(text_tokens::specs::Text::tokens_of))]
pub(crate) fn token_place(line: &[u8], index: usize) -> Option<Place>
    ensures within { IfSome result (IsWithin line.now) }
    ensures token { MatchOption result (length (tokens_of line.now) ≤ index)
        (IsFirstOf (codes ",[]:") (codes "#") line.now (drop index (tokens_of line.now))) }
{
    nth_place(b",[]:", b"#", line, index)
}

/// The place of a line's token of this index. Where there is none, it is right after the token before it, or at the end
/// where that one is missing too.
#[tactic(auto, unfolding(text_tokens::specs::Text::tokens_of))]
pub fn token_or_end(line: &[u8], index: usize) -> Place
    ensures within { IsWithin line.now result }
    ensures token { IsPlaceOf (codes ",[]:") (codes "#") line.now index result }
{
    place_or_end(b",[]:", b"#", line, index)
}

/// The place of a condition's token of this index. Where there is none, it is right after the token before it, or at the
/// end where that one is missing too.
pub fn condition_or_end(text: &[u8], index: usize) -> Place
    ensures within { IsWithin text.now result }
    ensures token { IsPlaceOf (codes "()") [] text.now index result }
{
    place_or_end(b"()", b"", text, index)
}

/// The place of the token of this index of a condition that is written as in an item of a sheet. Where there is none, it is right
/// after the token before it, or at the end where that one is missing too.
pub fn statement_or_end(text: &[u8], index: usize) -> Place
    ensures within { IsWithin text.now result }
    ensures token { IsPlaceOf (codes ",[]:()") (codes "#") text.now index result }
{
    place_or_end(b",[]:()", b"#", text, index)
}

/// The place of a piece of a line of this index, where blanks alone separate the pieces. Where there is none, it is
/// right after the piece before it, or at the end where that one is missing too.
pub(crate) fn piece_or_end(line: &[u8], index: usize) -> Place
    ensures within { IsWithin line.now result }
    ensures token { IsPlaceOf [] (codes "#") line.now index result }
{
    place_or_end(b"", b"#", line, index)
}

/// How many bytes the line has before its comment.
fn comment_place(line: &[u8]) -> usize
    ensures value { result ≡ prefix_len is_before_comment line.now }
    ensures within { result ≤ length line.now }
{
    line.iter().take_while(|byte| **byte != b'#').count()
}

/// The line before its comment.
pub fn before_comment(line: &[u8]) -> &[u8]
    ensures { result.now ≡ before_comment line.now }
{
    let (before, _) = line.split_at(comment_place(line));
    before
}

/// The place, on a line `stop ID CONDITION`, of the condition's token of this index. Where there is none, it is right
/// after the token before it, or at the end where that one is missing too.
pub fn stop_condition_or_end(line: &[u8], index: usize) -> Place
    ensures within { IsWithin line.now result }
    ensures token { IsConditionPlace line.now index result }
{
    let before = before_comment(line);
    let start = piece_or_end(before, 1).to;
    let (_, condition) = before.split_at(start);
    let place = condition_or_end(condition, index);
    Place {
        from: start + place.from,
        to: start + place.to,
    }
}
