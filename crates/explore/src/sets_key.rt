//! The part of a key that tells memories by what each line may hold.
ghost use Rattle.std.specs.Prelude.{◌≡◌, ◌*◌, ◌+◌, ◌++◌, ◌<◌, ◌≤◌, OnOk, length, map, slice_index};
ghost use Rattle.std.specs.List.{range_with_len};
ghost use Rattle.lines_layout.specs.Lines.{line_words, max_lines, max_words};
ghost use Rattle.persist_buffer.specs.Memories.{coherent};
ghost use Rattle.explore.specs.Codes.{coded};
ghost use Rattle.explore.specs.Keys.{joined, line_key, lines_key, none_key, sets_key, words_now};

use crate::codes::{push_number, push_numbers};
use crate::line_sets::others;
use crate::numbers::Numbers;
use lines_layout::{LINE_WORDS, LineId, Shape, WordId};
use machine::View;
use persist_buffer::Pending;
use std::alloc::{AllocError, Global};

/// Appends the bytes of the coherent values of so many words from this one on.
fn push_words(
    bytes: &mut Vec<u8>,
    start: usize,
    count: usize,
    pending: &Pending,
) -> Result<(), AllocError>
    requires { start + count ≤ max_words }
    ensures { OnOk result
        (bytes.new.items ≡ bytes.old.items ++ coded (map (coherent pending.now.memory) (range_with_len start count))) }
{
    for place in 0..count {
        let word = WordId::new(start + place).unwrap();
        push_number(bytes, pending.value(word))?;
    }
    Ok(())
}

/// Appends the bytes of the coherent values of all words.
fn push_words_now(bytes: &mut Vec<u8>, pending: &Pending) -> Result<(), AllocError>
    ensures { OnOk result (bytes.new.items ≡ bytes.old.items ++ coded (words_now pending.now.memory pending.now.shape)) }
{
    let counts = pending.shape().words();
    for line in 0..counts.len() {
        push_words(bytes, LINE_WORDS * line, usize::from(counts[line]), pending)?;
    }
    Ok(())
}

/// Appends the bytes of a list of numbers.
fn push_list(bytes: &mut Vec<u8>, list: &Numbers) -> Result<(), AllocError>
    ensures { OnOk result (bytes.new.items ≡ bytes.old.items ++ coded list.now) }
{
    push_numbers(bytes, list.values())
}

/// Appends the bytes of lists of numbers, one after another.
#[tactic(auto, using(crate::proofs::CodesTell::coded_append))]
fn push_lists(bytes: &mut Vec<u8>, lists: &[Numbers]) -> Result<(), AllocError>
    ensures { OnOk result (bytes.new.items ≡ bytes.old.items ++ coded (joined lists.now)) }
{
    for list in lists {
        push_list(bytes, list)?;
    }
    Ok(())
}

/// Appends the bytes of the other values that a line of so many words may hold.
fn push_line(
    bytes: &mut Vec<u8>,
    alloc: Global,
    pending: &Pending,
    line: LineId,
    count: usize,
) -> Result<(), AllocError>
    requires { line_words * line + count ≤ max_words }
    ensures { OnOk result (bytes.new.items ≡ bytes.old.items ++ coded (line_key pending.now.memory line count)) }
{
    if pending.writes(line) == 0 {
        push_number(bytes, 0)?;
        return Ok(());
    }
    let found = others(alloc, pending, line, count)?;
    push_number(bytes, found.len() as u64)?;
    push_lists(bytes, &found)
}

/// Appends the bytes of the other values that each line may hold.
fn push_lines(bytes: &mut Vec<u8>, alloc: Global, pending: &Pending) -> Result<(), AllocError>
    ensures { OnOk result (bytes.new.items ≡ bytes.old.items ++ coded (lines_key pending.now.memory 0 pending.now.shape)) }
{
    let counts = pending.shape().words();
    for line in 0..counts.len() {
        let number = LineId::new(line).unwrap();
        push_line(bytes, alloc, pending, number, usize::from(counts[line]))?;
    }
    Ok(())
}

/// Appends the bytes of the coherent values, and of the other values that each line may hold.
pub(crate) fn push_sets(
    bytes: &mut Vec<u8>,
    alloc: Global,
    view: &View<'_>,
) -> Result<(), AllocError>
    ensures { OnOk result (bytes.new.items ≡ bytes.old.items ++ coded (sets_key view.now)) }
{
    let pending = view.pending();
    push_words_now(bytes, pending)?;
    push_lines(bytes, alloc, pending)?;
    Ok(())
}

/// Appends the bytes that say that no line may hold other values.
pub(crate) fn push_no_others(bytes: &mut Vec<u8>, shape: &Shape) -> Result<(), AllocError>
    ensures { OnOk result (bytes.new.items ≡ bytes.old.items ++ coded (none_key shape.now)) }
{
    for _line in 0..shape.words().len() {
        bytes.push(0)?;
    }
    Ok(())
}
