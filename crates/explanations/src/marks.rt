//! A line of a text, with marks under a place in it.
ghost use Rattle.std.specs.Prelude.{◌≤◌, ◌<◌, ◌+◌};

use crate::parts::Pushed;
use line_forms::Place;

/// How many bytes of a line are shown at most.
const SHOWN: usize = 160;

/// Where the part of a line that is shown begins. The byte at `from` is in it, where the line has that byte.
fn window_start(length: usize, from: usize) -> usize
    ensures within { result ≤ length }
    ensures before { result ≤ from }
    ensures seen { from < length → from < result + 160 }
{
    if length <= SHOWN {
        0
    } else {
        from.saturating_sub(SHOWN / 2).min(length - SHOWN)
    }
}

/// What is shown of a byte: itself where it is visible, otherwise a blank or a question mark.
fn shown(byte: u8) -> char {
    match byte {
        b'\t' | b'\r' => ' ',
        b' '..=b'~' => char::from(byte),
        _ => '?',
    }
}

/// Appends what is shown of bytes.
pub(crate) fn push_shown(text: &mut String, bytes: &[u8]) -> Pushed {
    for byte in bytes {
        text.push(shown(*byte))?;
    }
    Ok(())
}

/// Appends a line without marks, or its beginning, where it is long; and no line feed.
pub(crate) fn push_unmarked(text: &mut String, line: &[u8]) -> Pushed {
    let end = SHOWN.min(line.len());
    text.push_str(" | ")?;
    push_shown(text, &line[..end])
}

/// Appends a character so many times.
fn push_repeated(text: &mut String, character: char, count: usize) -> Pushed {
    for _ in 0..count {
        text.push(character)?;
    }
    Ok(())
}

/// Appends the line after a label of this width, and on the next line a mark under each byte of a place in it: one mark
/// where it has no byte. A long line is shown around the place.
pub(crate) fn push_pointed(text: &mut String, width: usize, line: &[u8], place: Place) -> Pushed {
    let start = window_start(line.len(), place.from);
    let end = start.saturating_add(SHOWN).min(line.len());
    text.push_str(" | ")?;
    push_shown(text, &line[start..end])?;
    text.push_str("\n")?;
    push_repeated(text, ' ', width)?;
    text.push_str(" | ")?;
    push_repeated(text, ' ', place.from - start)?;
    push_repeated(
        text,
        '^',
        place.to.min(end).saturating_sub(place.from).max(1),
    )
}
