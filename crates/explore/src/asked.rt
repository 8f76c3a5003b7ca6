//! The least image that makes a condition false, where the lines that it asks have few candidates and all lines together have many.
//!
//! Where it is told how many markers went, the lines do not depend on each other. So the images are listed over the lines that are asked;
//! of each other line the least values are taken that it may have.
ghost use Rattle.std.specs.Prelude.{◌≡◌, ◌<◌, ◌≤◌, IfOk, IsErrOf, OnOk, count_by, length};
ghost use Rattle.lines_layout.specs.Lines.{line_of, max_lines, max_words};
ghost use Rattle.lines_layout.specs.Shapes.{IsShape};
ghost use Rattle.persist_buffer.specs.Listings.{LinesBelow};
ghost use Rattle.persist_buffer.specs.Memories.{is_write_on};
ghost use Rattle.pending_images.specs.Candidates.{all_lines, candidates, low, markers, most_candidates};
ghost use Rattle.pending_images.specs.declared.fault.ImageFault.TheVariants.{TooMany};
ghost use Rattle.conditions.specs.Truth.{asks_line};
ghost use Rattle.images.specs.Firsts.{IsLeastImage};
ghost use Rattle.explore.specs.Asked.{asked_by, asked_candidates};
ghost use Rattle.explore.specs.Narrow.{AddsOpens, AddsWrites, AreChosen, AreMade, AreWithin, BreaksAt, IsChosen, IsFirstFailing, IsLeastCount, IsNarrowed, asked_product, lesser, line_values, value_after};
ghost use Rattle.explore.specs.Reachable.{breaks};

use images::{Cond, Image, ImageFault, MOST_CANDIDATES, all_images};
use lines_layout::{LINE_WORDS, LineId, MAX_LINES, MAX_WORDS, WordId, WordValues};
use machine::View;
use pending_images::{count, list};
use persist_buffer::{Pending, PendingFault};
use std::alloc::{AllocError, Global};
use std::cmp::Ordering;

/// How many lines there may be.
#[tactic(auto, unfolding(pending_images::specs::Candidates::all_lines))]
fn lines() -> usize
    ensures value { result ≡ all_lines }
    ensures all { result ≡ max_lines }
{
    MAX_LINES
}

/// The line of a number.
fn line_at(number: usize) -> LineId
    requires { number < max_lines }
    ensures { result ≡ number }
{
    LineId::new(number).unwrap()
}

/// How many writes of a line must be persisted where the first k markers went: those before the last of these that is the line's.
pub(crate) fn low(pending: &Pending, line: LineId, k: usize) -> usize
    requires { k ≤ markers pending.now.memory.pending }
    ensures { result ≡ low line k pending.now.memory.pending }
{
    for j in 0..k {
        let last = k - 1 - j;
        if pending.marker(last) == line {
            return pending.before(line, last);
        }
    }
    0
}

/// The value of a word where so many first writes of its line are persisted.
fn value_after(pending: &Pending, word: WordId, count: usize) -> u64
    requires { count ≤ count_by (is_write_on (line_of word)) pending.now.memory.pending }
    ensures { result ≡ value_after pending.now.memory count word }
{
    let mut value = pending.persisted(word);
    for i in 0..count {
        let (target, written) = pending.write(word.line(), i);
        if target == word {
            value = written;
        }
    }
    value
}

/// The values of a line's words there.
#[tactic(auto, using(crate::proofs::AskedSteps::words_next, crate::proofs::AskedSteps::word_there))]
fn line_values(
    alloc: Global,
    pending: &Pending,
    line: LineId,
    count: usize,
) -> Result<Vec<u64>, AllocError>
    requires { count ≤ count_by (is_write_on line) pending.now.memory.pending }
    ensures { IfOk result (λ values. values.items ≡ line_values pending.now.memory line count) }
{
    let mut values = Vec::new(alloc);
    for place in 0..LINE_WORDS {
        let word = WordId::new(LINE_WORDS * line.number() + place).unwrap();
        values.push(value_after(pending, word, count))?;
    }
    Ok(values)
}

/// Of so many first writes of a line, from a least number to a most one, a number that leaves the least values.
fn least_count(
    alloc: Global,
    pending: &Pending,
    line: LineId,
    least: usize,
    most: usize,
) -> Result<usize, AllocError>
    requires ordered { least ≤ most }
    requires there { most ≤ count_by (is_write_on line) pending.now.memory.pending }
    ensures { IfOk result (λ n. IsLeastCount pending.now.memory line least most n) }
{
    let mut first = least;
    let mut values = line_values(alloc, pending, line, least)?;
    for count in least..most {
        let others = line_values(alloc, pending, line, count + 1)?;
        if others.cmp(&values) == Ordering::Less {
            first = count + 1;
            values = others;
        }
    }
    Ok(first)
}

/// How many writes of a line are made where k markers went: of a line that is asked those that must be persisted, of another
/// one as many as leave the least values.
fn chosen(
    alloc: Global,
    cond: &Cond,
    pending: &Pending,
    line: LineId,
    k: usize,
) -> Result<usize, AllocError>
    requires { k ≤ markers pending.now.memory.pending }
    ensures { IfOk result (λ n. IsChosen (asks_line line cond.now) pending.now.memory k line n) }
{
    let least = low(pending, line, k);
    if cond.asks_line(line) {
        return Ok(least);
    }
    least_count(alloc, pending, line, least, pending.before(line, k))
}

/// How many writes of each line are made.
fn counts_at(
    alloc: Global,
    cond: &Cond,
    pending: &Pending,
    k: usize,
) -> Result<[usize; MAX_LINES], AllocError>
    requires { k ≤ markers pending.now.memory.pending }
    ensures { IfOk result (λ counts. AreChosen (asked_by cond.now) pending.now.memory k counts) }
{
    let mut counts = [0; MAX_LINES];
    for number in 0..MAX_LINES {
        counts[number] = chosen(alloc, cond, pending, line_at(number), k)?;
    }
    Ok(counts)
}

/// The persisted values with those writes made.
fn values_at(
    alloc: Global,
    pending: &Pending,
    counts: &[usize; MAX_LINES],
) -> Result<WordValues, AllocError>
    requires { AreWithin counts.now pending.now.memory }
    ensures { IfOk result (λ values. AreMade pending.now.memory counts.now values) }
{
    let mut values = WordValues::zeroed(alloc)?;
    for number in 0..MAX_WORDS {
        let word = WordId::new(number).unwrap();
        values.set(
            word,
            value_after(pending, word, counts[word.line().number()]),
        );
    }
    Ok(values)
}

/// Adds the writes of a line from one place among them to another.
#[tactic(auto, using(crate::proofs::AskedSteps::none_yet))]
fn push_writes(
    narrow: &mut Pending,
    pending: &Pending,
    line: LineId,
    from: usize,
    to: usize,
) -> Result<(), PendingFault>
    requires ordered { from ≤ to }
    requires there { to ≤ count_by (is_write_on line) pending.now.memory.pending }
    ensures pending { OnOk result (AddsWrites pending.now line from to narrow.old narrow.new) }
    ensures persisted { OnOk result (narrow.new.memory.persisted ≡ narrow.old.memory.persisted) }
    ensures shape { narrow.new.shape ≡ narrow.old.shape }
{
    for i in from..to {
        let (word, value) = pending.write(line, i);
        narrow.add_write(word, value)?;
    }
    Ok(())
}

/// Adds the open writes of the lines that are asked. There is room for them: they are no more than were pending before.
fn push_opens(
    narrow: &mut Pending,
    cond: &Cond,
    pending: &Pending,
    k: usize,
) -> Result<(), PendingFault>
    requires { k ≤ markers pending.now.memory.pending }
    ensures pending { OnOk result (AddsOpens cond.now pending.now k narrow.old narrow.new) }
    ensures persisted { OnOk result (narrow.new.memory.persisted ≡ narrow.old.memory.persisted) }
    ensures shape { narrow.new.shape ≡ narrow.old.shape }
{
    for number in 0..lines() {
        let line = line_at(number);
        if cond.asks_line(line) {
            push_writes(
                narrow,
                pending,
                line,
                low(pending, line, k),
                pending.before(line, k),
            )?;
        }
    }
    Ok(())
}

/// A pending list of the open writes of the lines that are asked, where k markers went, beside the values that all lines have by the
/// others.
fn narrowed(alloc: Global, cond: &Cond, pending: &Pending, k: usize) -> Result<Pending, AllocError>
    requires { k ≤ markers pending.now.memory.pending }
    ensures narrow { IfOk result (IsNarrowed cond.now pending.now k) }
    ensures shape { IfOk result (λ narrow. narrow.shape ≡ pending.now.shape) }
    ensures lines { LinesBelow max_lines pending.now.memory.pending }
    ensures every_word { length pending.now.memory.persisted ≡ max_words }
    ensures is_shape { IsShape pending.now.shape }
{
    pending.keeps_to_layouts();
    let counts = counts_at(alloc, cond, pending, k)?;
    let values = values_at(alloc, pending, &counts)?;
    let Ok(mut narrow) = Pending::new(alloc, pending.shape(), values) else {
        return Err(AllocError);
    };
    match push_opens(&mut narrow, cond, pending, k) {
        Ok(()) => Ok(narrow),
        Err(_) => Err(AllocError),
    }
}

/// The first image of a pending list that makes a condition false, if there is one; and how many candidates it has.
fn first_of(
    alloc: Global,
    cond: &Cond,
    view: &View<'_>,
    pending: &Pending,
) -> Result<(u64, Option<Image>), ImageFault>
    ensures first { IfOk result (λ r. IsFirstFailing cond.now view.now pending.now r.1) }
    ensures count { IfOk result (λ r. r.0 ≡ candidates pending.now.memory.pending) }
    ensures few { IfOk result (λ r. r.0 ≤ most_candidates) }
    ensures many { IsErrOf result TooMany → most_candidates < candidates pending.now.memory.pending }
{
    let Some(countable) = count(pending) else {
        return Err(ImageFault::TooMany);
    };
    let images = list(alloc, &countable)?;
    match all_images(cond, view, &images) {
        Some(image) => Ok((countable.number(), Some(image.copy(alloc)?))),
        None => Ok((countable.number(), None)),
    }
}

/// The least image that makes a condition false where k markers went, if there is one; and how many candidates count there.
fn least_at(
    alloc: Global,
    cond: &Cond,
    view: &View<'_>,
    k: usize,
) -> Result<(u64, Option<Image>), ImageFault>
    requires { k ≤ markers view.now.memory.pending }
    ensures least { IfOk result (λ r. BreaksAt cond.now view.now k r.1) }
    ensures count { IfOk result (λ r. r.0 ≡ asked_product cond.now k view.now) }
    ensures few { IfOk result (λ r. r.0 ≤ most_candidates) }
    ensures many { IsErrOf result TooMany → most_candidates < asked_product cond.now k view.now }
{
    let narrow = narrowed(alloc, cond, view.pending(), k)?;
    first_of(alloc, cond, view, &narrow)
}

/// The lesser of two images, where both are there.
fn lesser(one: Option<Image>, other: Option<Image>) -> Option<Image>
    ensures { result ≡ lesser one other }
{
    match (one, other) {
        (None, other) => other,
        (one, None) => one,
        (Some(one), Some(other)) => {
            if other.cmp(&one) == Ordering::Less {
                Some(other)
            } else {
                Some(one)
            }
        }
    }
}

/// The least image of a state that makes a condition false, if there is one.
///
/// # Errors
///
/// `TooMany` exactly where the lines that the condition asks have more candidates than are counted; otherwise only `NoMemory`.
pub(crate) fn least_breaking(
    alloc: Global,
    cond: &Cond,
    view: &View<'_>,
) -> Result<Option<Image>, ImageFault>
    ensures least { IfOk result (IsLeastImage view.now (breaks cond.now view.now)) }
    ensures few { IfOk result (λ found. asked_candidates cond.now view.now ≤ most_candidates) }
    ensures many { IsErrOf result TooMany → most_candidates < asked_candidates cond.now view.now }
{
    let pending = view.pending();
    pending.keeps_to_layouts();
    let last = pending.markers();
    let (mut sum, mut least) = least_at(alloc, cond, view, 0)?;
    for k in 0..last {
        let (candidates, image) = least_at(alloc, cond, view, k + 1)?;
        sum += candidates;
        if sum > MOST_CANDIDATES {
            return Err(ImageFault::TooMany);
        }
        least = lesser(least, image);
    }
    Ok(least)
}
