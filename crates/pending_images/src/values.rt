//! The values that a word has in the images in which other words have given values.
//!
//! Where it is told how many markers went, no line binds another: each has its own numbers of first writes that may be persisted. So
//! for each number of markers it is asked of each line whether one of its numbers leaves the given values; then the word has the
//! values that those of its own line leave.
ghost use Rattle.std.specs.Prelude.{◌≡◌, ◌+◌, ◌++◌, IfOk, OnOk, Contains, ◌↔◌, ℕ, length};
ghost use Rattle.std.specs.List.Sorted.{IsStrictlySortedBy};
ghost use Rattle.std.specs.Ordering.{nat_cmp};
ghost use Rattle.persist_buffer.specs.Memories.{write_count};
ghost use Rattle.pending_images.specs.Agreements.{all_agree_in, all_found_in, allowed_in, column_in, found_in, has_all, has_given, value_next};
ghost use Rattle.pending_images.specs.LeastCuts.{FitsPending};
ghost use Rattle.pending_images.specs.Values.{AreValuesIn, values_in};

use crate::first_cut::least_counts;
use crate::fits::LineFits;
use crate::gone::{Gone, line_at, lines};
use lines_layout::{LineId, Shape, WordId};
use persist_buffer::Pending;
use std::alloc::{AllocError, Global};

/// Whether a shape has all given words.
fn has_given(shape: &Shape, given: &[(WordId, u64)]) -> bool
    ensures { result ≡ has_given shape.now given.now }
{
    given.iter().all(|g| shape.has_word(g.0))
}

/// Whether it has another word too.
fn has_all(shape: &Shape, given: &[(WordId, u64)], word: WordId) -> bool
    ensures { result ≡ has_all shape.now given.now word }
{
    has_given(shape, given) && shape.has_word(word)
}

/// Of each line which numbers of its first writes leave the given values.
fn agreeing(
    alloc: Global,
    pending: &Pending,
    given: &[(WordId, u64)],
) -> Result<Vec<LineFits>, AllocError>
    ensures { IfOk result (λ fits. fits.items ≡ all_agree_in pending.now given.now) }
{
    let mut all = Vec::with_capacity(alloc, lines())?;
    for number in 0..lines() {
        all.push(LineFits::agreeing(alloc, pending, line_at(number), given)?)?;
    }
    Ok(all)
}

/// A word's value after a write of its line, which may be to another word.
fn value_next(word: WordId, value: u64, target: WordId, written: u64) -> u64
    ensures { result ≡ value_next word value target written }
{
    if target == word { written } else { value }
}

/// The value of a word after each number of its line's first writes, from none to all.
fn column(alloc: Global, pending: &Pending, word: WordId) -> Result<Vec<u64>, AllocError>
    ensures { IfOk result (λ values. values.items ≡ column_in pending.now word) }
{
    let line = word.line();
    let mut value = pending.persisted(word);
    let mut values = Vec::new(alloc);
    values.push(value)?;
    for i in 0..pending.writes(line) {
        let (target, written) = pending.write(line, i);
        let next = value_next(word, value, target, written);
        value = next;
        values.push(next)?;
    }
    Ok(values)
}

/// Adds the values of a line's word that are allowed once these markers went, where each line has a number of writes that fits.
fn push_allowed(
    gone: &Gone<'_>,
    fits: &[LineFits],
    line: LineId,
    column: &[u64],
    values: &mut Vec<u64>,
) -> Result<(), AllocError>
    requires fits { FitsPending fits.now gone.now.pending.memory.pending }
    requires column { length column.now ≡ 1 + write_count gone.now.pending.memory line }
    ensures { OnOk result (values.new.items ≡ values.old.items ++ allowed_in fits.now line column.now gone.now) }
{
    let least = gone.low(line);
    let most = gone.before(line);
    let number = line.number();
    match least_counts(gone, fits) {
        Some(_) => fits[number].push_all_fitting(least, most, column, values),
        None => Ok(()),
    }
}

/// The values of a word, with repeats.
fn found(
    alloc: Global,
    pending: &Pending,
    given: &[(WordId, u64)],
    word: WordId,
) -> Result<Vec<u64>, AllocError>
    ensures { IfOk result (λ values. values.items ≡ found_in pending.now given.now word) }
{
    let fits = agreeing(alloc, pending, given)?;
    let column = column(alloc, pending, word)?;
    let mut gone = Gone::new(pending);
    let mut values = Vec::new(alloc);
    push_allowed(&gone, &fits, word.line(), &column, &mut values)?;
    for k in 0..pending.markers() {
        gone.pass(k + 1);
        push_allowed(&gone, &fits, word.line(), &column, &mut values)?;
    }
    Ok(values)
}

/// The values of a word, with repeats; none where the shape lacks a word.
fn all_found(
    alloc: Global,
    pending: &Pending,
    given: &[(WordId, u64)],
    word: WordId,
) -> Result<Vec<u64>, AllocError>
    ensures { IfOk result (λ values. values.items ≡ all_found_in pending.now given.now word) }
{
    if has_all(pending.shape(), given, word) {
        found(alloc, pending, given, word)
    } else {
        Ok(Vec::new(alloc))
    }
}

/// Sorts numbers and drops repeats.
fn once(values: &mut Vec<u64>)
    ensures same { (value : ℕ) → Contains values.new.items value ↔ Contains values.old.items value }
    ensures ascending { IsStrictlySortedBy nat_cmp values.new.items }
{
    values.sort_unstable();
    values.dedup();
}

/// The values that a word has in the images in which each given word has the value beside it, ascending and each once. There are
/// none where no image has these values, as where a word is given twice with two values, or where the shape lacks a word. How many
/// candidates there are does not matter. The only error is out of memory.
pub fn values_of(
    alloc: Global,
    pending: &Pending,
    given: &[(WordId, u64)],
    word: WordId,
) -> Result<Vec<u64>, AllocError>
    ensures exact { IfOk result (λ values. AreValuesIn pending.now given.now word values.items) }
    ensures value { IfOk result (λ values. values.items ≡ values_in pending.now given.now word) }
{
    pending.keeps_to_layouts();
    let mut values = all_found(alloc, pending, given, word)?;
    once(&mut values);
    Ok(values)
}
