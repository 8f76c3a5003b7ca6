//! Why a pending write may be missing.
ghost use Rattle.std.specs.Prelude.{◌≡◌};
ghost use Rattle.image_reasons.specs.Reasons.{comes_before, comes_between, first_later, has_passed, is_buffered_flush, is_delayed, is_later_flush, is_later_own, is_marker_of, is_write, marker_among, newest_flush, of_later, passing_write, why_behind, why_buffered, why_delayed, why_flushed, why_later, why_missing, why_passed, why_unmarked, write_before, write_between};

use crate::delays::Delays;
use crate::entries::{Flushed, Operation, Pended, Site};
use crate::missing::Why;
use crate::origins::{Origins, is_write_on};
use crate::stores::Stores;
use lines_layout::LineId;
use machine::PendingEntry;

/// Whether an entry is the marker of a line.
fn is_marker_of(line: LineId, entry: PendingEntry) -> bool
    ensures { result ≡ is_marker_of line entry }
{
    match entry {
        PendingEntry::Marker(other) => other == line,
        PendingEntry::Write(..) => false,
    }
}

/// Whether an entry is a write.
fn is_write(entry: PendingEntry) -> bool
    ensures { result ≡ is_write entry }
{
    matches!(entry, PendingEntry::Write(..))
}

/// The flush of the first marker of a line among pending entries.
pub(crate) fn marker_among(line: LineId, pended: &[Pended]) -> Option<Site>
    ensures { result ≡ marker_among line pended.now }
{
    for p in pended {
        if is_marker_of(line, p.entry) {
            return Some(p.operation.site);
        }
    }
    None
}

/// Whether the operation of a step is delayed by one of the store buffers.
fn is_delayed(buffered: &[Delays], n: usize) -> bool
    ensures { result ≡ is_delayed buffered.now n }
{
    buffered.iter().any(|own| own.has(n))
}

/// Whether this is a flush of the line that is still buffered.
fn is_buffered_flush(buffered: &[Delays], line: LineId, flush: &Flushed) -> bool
    ensures { result ≡ is_buffered_flush buffered.now line flush.now }
{
    flush.line == line && is_delayed(buffered, flush.operation.step)
}

/// The same, executed after step n.
fn is_later_flush(buffered: &[Delays], line: LineId, n: usize, flush: &Flushed) -> bool
    ensures { result ≡ is_later_flush buffered.now line n flush.now }
{
    n < flush.operation.step && is_buffered_flush(buffered, line, flush)
}

/// Whether one operation was executed after another, by the same processor.
fn is_later_own(first: &Operation, later: &Operation) -> bool
    ensures { result ≡ is_later_own first.now later.now }
{
    later.site.processor == first.site.processor && first.step < later.step
}

/// Whether an entry is a write that the processor of a flush executed after it.
fn has_passed(flush: &Operation, p: &Pended) -> bool
    ensures { result ≡ has_passed flush.now p.now }
{
    is_write(p.entry) && is_later_own(flush, &p.operation)
}

/// Whether it is one that the processor of a flush executed before it, and after step n.
fn comes_between(n: usize, flush: &Operation, p: &Pended) -> bool
    ensures { result ≡ comes_between n flush.now p.now }
{
    is_write(p.entry) && (n < p.operation.step && is_later_own(&p.operation, flush))
}

/// Whether it is a write of a line that the processor of an operation executed before it.
fn comes_before(line: LineId, operation: &Operation, p: &Pended) -> bool
    ensures { result ≡ comes_before line operation.now p.now }
{
    is_write_on(line, p.entry) && is_later_own(&p.operation, operation)
}

/// The first of these stores that has passed a flush.
fn passing_write(stores: &[Pended], flush: &Operation) -> Option<Site>
    ensures { result ≡ passing_write stores.now flush.now }
{
    for p in stores {
        if has_passed(flush, p) {
            return Some(p.operation.site);
        }
    }
    None
}

/// The first of them between step n and a flush.
fn write_between(stores: &[Pended], n: usize, flush: &Operation) -> Option<Site>
    ensures { result ≡ write_between stores.now n flush.now }
{
    for p in stores {
        if comes_between(n, flush, p) {
            return Some(p.operation.site);
        }
    }
    None
}

/// The newest of these stores that is of a line, and of the processor of an operation, before it.
fn write_before(stores: &[Pended], line: LineId, operation: &Operation) -> Option<Site>
    ensures { result ≡ write_before stores.now line operation.now }
{
    let mut newest = None;
    for p in stores {
        if comes_before(line, operation, p) {
            newest = Some(p.operation.site);
        }
    }
    newest
}

/// The newest flush of a line.
fn newest_flush(line: LineId, flushed: &[Flushed]) -> Option<Site>
    ensures { result ≡ newest_flush line flushed.now }
{
    let mut newest = None;
    for flush in flushed {
        if flush.line == line {
            newest = Some(flush.operation.site);
        }
    }
    newest
}

/// That a flush is still buffered, and one of these stores has passed it.
fn why_passed(stores: &[Pended], flush: &Flushed) -> Option<Why>
    ensures { result ≡ why_passed stores.now flush.now }
{
    let store = passing_write(stores, &flush.operation)?;
    Some(Why::FlushBuffered(flush.operation.site, Some(store)))
}

/// That it is buffered, and one of these stores comes between step n and it.
fn why_behind(stores: &[Pended], n: usize, flush: &Flushed) -> Option<Why>
    ensures { result ≡ why_behind stores.now n flush.now }
{
    let store = write_between(stores, n, &flush.operation)?;
    Some(Why::FlushBehind(flush.operation.site, store))
}

/// Why a write may be missing of whose line no flush is pending behind it, and no later one is buffered.
fn why_flushed(newest: Option<Site>) -> Why
    ensures { result ≡ why_flushed newest }
{
    match newest {
        Some(flush) => Why::FlushedBefore(flush),
        None => Why::NeverFlushed,
    }
}

/// Why a buffered write may be missing, where the image has these stores.
pub(crate) fn why_delayed(kept: &[Pended], line: LineId, operation: &Operation) -> Why
    ensures { result ≡ why_delayed (write_before kept.now line operation.now) }
{
    match write_before(kept, line, operation) {
        Some(store) => Why::StoredAfter(store),
        None => Why::InStoreBuffer,
    }
}

impl Origins {
    /// That a flush of a line, executed after step n, is still buffered, and one of these stores has passed it.
    fn why_later_passed(
        &self,
        stores: &[Pended],
        line: LineId,
        n: usize,
        flush: &Flushed,
    ) -> Option<Why>
        ensures { result ≡ of_later self.now line n (why_passed stores.now) flush.now }
    {
        if is_later_flush(&self.buffered, line, n, flush) {
            why_passed(stores, flush)
        } else {
            None
        }
    }

    /// The same of the first that is so.
    fn first_passed(&self, stores: &[Pended], line: LineId, n: usize) -> Option<Why>
        ensures { result ≡ first_later self.now line n (why_passed stores.now) }
    {
        for flush in &self.flushed {
            let why = self.why_later_passed(stores, line, n, flush);
            if why.is_some() {
                return why;
            }
        }
        None
    }

    /// That a flush of a line, executed after step n, is still buffered, and one of these stores comes between.
    fn why_later_behind(
        &self,
        stores: &[Pended],
        line: LineId,
        n: usize,
        flush: &Flushed,
    ) -> Option<Why>
        ensures { result ≡ of_later self.now line n (why_behind stores.now n) flush.now }
    {
        if is_later_flush(&self.buffered, line, n, flush) {
            why_behind(stores, n, flush)
        } else {
            None
        }
    }

    /// The same of the first that is so.
    fn first_behind(&self, stores: &[Pended], line: LineId, n: usize) -> Option<Why>
        ensures { result ≡ first_later self.now line n (why_behind stores.now n) }
    {
        for flush in &self.flushed {
            let why = self.why_later_behind(stores, line, n, flush);
            if why.is_some() {
                return why;
            }
        }
        None
    }

    /// That a flush of a line, executed after step n, is still buffered: the first.
    fn first_buffered(&self, line: LineId, n: usize) -> Option<Why>
        ensures { result ≡ first_later self.now line n why_buffered }
    {
        for flush in &self.flushed {
            if is_later_flush(&self.buffered, line, n, flush) {
                return Some(Why::FlushBuffered(flush.operation.site, None));
            }
        }
        None
    }

    /// Why a write of a line may be missing that step n executed, if a later flush of the line is still buffered.
    fn why_later(&self, stores: &Stores, line: LineId, n: usize) -> Option<Why>
        ensures { result ≡ why_later self.now stores.now line n }
    {
        let kept = self.first_passed(&stores.kept, line, n);
        let left = self.first_passed(&stores.left, line, n);
        let behind = self.first_behind(&stores.kept, line, n);
        let buffered = self.first_buffered(line, n);
        kept.or(left.or(behind.or(buffered)))
    }

    /// Why one may be missing behind which no flush of its line is pending.
    fn why_unmarked(&self, stores: &Stores, line: LineId, n: usize) -> Why
        ensures { result ≡ why_unmarked self.now stores.now line n }
    {
        match self.why_later(stores, line, n) {
            Some(why) => why,
            None => why_flushed(newest_flush(line, &self.flushed)),
        }
    }

    /// Why a write of a line may be missing that step n executed, where the first marker of the line behind it is of this flush.
    pub(crate) fn why_missing(
        &self,
        stores: &Stores,
        line: LineId,
        n: usize,
        marker: Option<Site>,
    ) -> Why
        ensures { result ≡ why_missing self.now stores.now line n marker }
    {
        match marker {
            Some(flush) => Why::FlushPending(flush),
            None => self.why_unmarked(stores, line, n),
        }
    }
}
