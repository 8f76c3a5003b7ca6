//! Which numbers of a line's first writes leave its words as they are wanted.
ghost use Rattle.std.specs.Prelude.{◌≡◌, ◌<◌, ◌≤◌, ◌+◌, ◌-◌, ◌++◌, IfOk, OnOk, length, slice_get};
ghost use Rattle.pending_images.specs.Agreements.{agree, agree_in, agrees_on, line_now, picked, picked_at};
ghost use Rattle.pending_images.specs.LeastCuts.{all_fits_in, first_true, fits_in, part_of};
ghost use Rattle.pending_images.specs.Values.{is_value};

use crate::base::push_values;
use crate::gone::{line_at, lines};
use crate::image::Image;
use lines_layout::{LINE_WORDS, LineId, Shape, WordId};
use persist_buffer::Pending;
use std::alloc::{AllocError, Global};
use std::marker::Model;

/// The values of a line's words in an image; none where the shape lacks the line.
#[tactic(auto, using(crate::proofs::PartsByLine::part_steps))]
fn part_of<'a>(shape: &Shape, values: &'a [u64], line: usize) -> &'a [u64]
    ensures { result.now ≡ part_of shape.now values.now line }
{
    let words = shape.words();
    if line >= words.len() {
        return &values[..0];
    }
    let mut rest = values;
    for number in 0..line {
        let count = usize::from(words[number]).min(rest.len());
        rest = &rest[count..];
    }
    let count = usize::from(words[line]).min(rest.len());
    &rest[..count]
}

/// The persisted values of a line's words.
fn line_now(alloc: Global, pending: &Pending, line: LineId) -> Result<Image, AllocError>
    ensures { IfOk result (λ values. values ≡ line_now pending.now.memory.persisted line) }
{
    let mut values = Vec::new(alloc);
    push_values(&mut values, LINE_WORDS * line.number(), LINE_WORDS, pending)?;
    Ok(Image::new(values))
}

/// Whether this value is found.
fn is_value(value: u64, found: Option<u64>) -> bool
    ensures { result ≡ is_value value found }
{
    match found {
        Some(other) => other == value,
        None => false,
    }
}

/// Whether a word has this value, where it is on the line, whose words have these.
fn agrees_on(line: LineId, values: &[u64], word: WordId, value: u64) -> bool
    ensures { result ≡ agrees_on line values.now word value }
{
    word.line() != line || is_value(value, values.get(word.number() % LINE_WORDS).copied())
}

/// Whether the given words of a line have their values, where its words have these.
fn agree(line: LineId, given: &[(WordId, u64)], values: &[u64]) -> bool
    ensures { result ≡ agree line given.now values.now }
{
    given.iter().all(|g| agrees_on(line, values, g.0, g.1))
}

/// For each number of a line's first writes, from none to all: whether they leave its words as they
/// are wanted.
#[derive(Drop)]
pub struct LineFits {
    fits: Vec<bool>,
}

impl Model for LineFits {
    ghost use Rattle.std.specs.Prelude.{Bool, List};

    ghost Value = { List Bool };

    ghost view = { λ f. f.fits.items };
}

impl LineFits {
    /// Of the pending writes of a line, where its words have values now and others are wanted.
    fn new(
        alloc: Global,
        pending: &Pending,
        line: LineId,
        now: &[u64],
        wanted: &[u64],
    ) -> Result<LineFits, AllocError>
        ensures { IfOk result (λ fits. fits ≡ fits_in pending.now line wanted.now now.now) }
    {
        let mut values = Image::new(Vec::from_slice(alloc, now)?);
        let mut fits = Vec::new(alloc);
        fits.push(values.values() == wanted)?;
        for i in 0..pending.writes(line) {
            let (word, value) = pending.write(line, i);
            values.write(word.number() % LINE_WORDS, value);
            fits.push(values.values() == wanted)?;
        }
        Ok(LineFits { fits })
    }

    /// Of the pending writes of a line: whether they leave the given values of its words.
    pub(crate) fn agreeing(
        alloc: Global,
        pending: &Pending,
        line: LineId,
        given: &[(WordId, u64)],
    ) -> Result<LineFits, AllocError>
        ensures { IfOk result (λ fits. fits ≡ agree_in pending.now line given.now) }
    {
        let mut values = line_now(alloc, pending, line)?;
        let mut fits = Vec::new(alloc);
        fits.push(agree(line, given, values.values()))?;
        for i in 0..pending.writes(line) {
            let (word, value) = pending.write(line, i);
            values.write(word.number() % LINE_WORDS, value);
            fits.push(agree(line, given, values.values()))?;
        }
        Ok(LineFits { fits })
    }

    /// Adds the value of a number, if it fits.
    fn push_fitting(
        &self,
        n: usize,
        column: &[u64],
        values: &mut Vec<u64>,
    ) -> Result<(), AllocError>
        requires there { n < length self.now }
        requires column { n < length column.now }
        ensures { OnOk result (values.new.items ≡ values.old.items ++ picked_at self.now column.now n) }
    {
        if !self.fits[n] {
            return Ok(());
        }
        values.push(column[n])?;
        Ok(())
    }

    /// Adds the values of those numbers that fit, from a least one to a most one.
    #[tactic(auto, using(crate::proofs::AgreeingNumbers::fitting_steps))]
    pub(crate) fn push_all_fitting(
        &self,
        from: usize,
        to: usize,
        column: &[u64],
        values: &mut Vec<u64>,
    ) -> Result<(), AllocError>
        requires ordered { from ≤ to }
        requires there { to < length self.now }
        requires column { to < length column.now }
        ensures { OnOk result (values.new.items ≡ values.old.items ++ picked self.now column.now from (to - from + 1)) }
    {
        for n in from..=to {
            self.push_fitting(n, column, values)?;
        }
        Ok(())
    }

    /// The least number that fits, from a least one to a most one.
    #[tactic(auto, using(crate::proofs::FindingFirstCut::first_next))]
    pub(crate) fn first(&self, least: usize, most: usize) -> Option<usize>
        requires ordered { least ≤ most }
        requires there { most < length self.now }
        ensures { result ≡ first_true self.now least (most - least + 1) }
    {
        for n in least..=most {
            if self.fits[n] {
                return Some(n);
            }
        }
        None
    }
}

/// The same of each line, where an image is wanted and another is persisted now.
pub(crate) fn fits_by_line(
    alloc: Global,
    pending: &Pending,
    now: &[u64],
    wanted: &[u64],
) -> Result<Vec<LineFits>, AllocError>
    ensures { IfOk result (λ fits. fits.items ≡ all_fits_in pending.now wanted.now now.now) }
{
    let shape = pending.shape();
    let mut all = Vec::with_capacity(alloc, lines())?;
    for number in 0..lines() {
        let wanted = part_of(shape, wanted, number);
        let now = part_of(shape, now, number);
        all.push(LineFits::new(alloc, pending, line_at(number), now, wanted)?)?;
    }
    Ok(all)
}
