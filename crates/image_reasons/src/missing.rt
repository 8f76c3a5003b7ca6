//! Which writes are missing in an image, and why each may be.
ghost use Rattle.std.specs.Prelude.{◌≡◌, ◌<◌, ◌++◌, [], IfOk, OnOk, length};
ghost use Rattle.std.specs.List.{cons_option};
ghost use Rattle.image_reasons.specs.Reasons.{is_missing, is_value, holds, missing_buffered, missing_by, missing_delayed, missing_found, missing_in, missing_own, missing_pending, missing_place, missing_write, missing_writes};

use crate::entries::{Delayed, Operation, Pended, Site};
use crate::origins::Origins;
use crate::reasons::{marker_among, why_delayed};
use crate::stores::Stores;
use lines_layout::{Shape, WordId};
use machine::{Entry, PendingEntry};
use pending_images::{Image, closed_set};
use persist_buffer::Pending;
use std::alloc::{AllocError, Global};

/// Why a write may be missing. Flushes and other writes are told by where their instructions stand. What the image *has* is all that
/// has persisted since the last crash, and of what is pending the least closed set that leaves the image.
#[derive(Clone, Copy, PartialEq, Eq)]
pub enum Why {
    /// It has not left its store buffer.
    InStoreBuffer,
    /// The same, and this store of its line, by its processor before it, is the newest such that the image has.
    StoredAfter(Site),
    /// This flush of its line is pending behind it: nothing that is behind the flush has persisted.
    FlushPending(Site),
    /// This flush of its line, executed after it, is still buffered. And a store that has passed the flush in the store buffer, if
    /// one has.
    FlushBuffered(Site, Option<Site>),
    /// The same, and this store, which the image has, comes between the write and the flush, on the flush's processor.
    FlushBehind(Site, Site),
    /// This was the last flush of its line. It was executed before the write was, or took effect before the write did.
    FlushedBefore(Site),
    /// Its line was not flushed since the last crash.
    NeverFlushed,
}

/// A write that is missing.
#[derive(Clone, Copy, PartialEq, Eq)]
pub struct Missing {
    /// The word that it writes.
    pub word: WordId,
    /// Its value.
    pub value: u64,
    /// Where its instruction stands.
    pub site: Site,
    /// Why it may be missing.
    pub why: Why,
}

/// Whether a set of places holds a place.
fn holds(places: &[usize], place: usize) -> bool
    ensures { result ≡ holds places.now place }
{
    places.iter().any(|held| place == *held)
}

/// Whether this is the value.
fn is_value(value: u64, there: Option<u64>) -> bool
    ensures { result ≡ is_value value there }
{
    match there {
        Some(v) => v == value,
        None => false,
    }
}

/// Whether the write at a place is missing: the places do not hold it, and the image has another value of its word.
fn is_missing(
    shape: &Shape,
    image: &Image,
    places: &[usize],
    place: usize,
    word: WordId,
    value: u64,
) -> bool
    ensures { result ≡ is_missing shape.now image.now places.now place word value }
{
    !(holds(places, place) || is_value(value, image.get(shape, word)))
}

/// A buffered entry, if it is a write of which the image has another value.
fn missing_delayed(
    kept: &[Pended],
    shape: &Shape,
    image: &Image,
    delayed: &Delayed,
) -> Option<Missing>
    ensures { result ≡ missing_delayed kept.now shape.now image.now delayed.now }
{
    match delayed.entry {
        Entry::Write(word, value) => {
            if is_value(value, image.get(shape, word)) {
                return None;
            }
            Some(Missing {
                word,
                value,
                site: delayed.operation.site,
                why: why_delayed(kept, word.line(), &delayed.operation),
            })
        }
        Entry::Flush(_) | Entry::FlushOpt(_) | Entry::Sfence => None,
    }
}

/// Puts one more behind others, if there is one.
fn push_some(missing: &mut Vec<Missing>, found: Option<Missing>) -> Result<(), AllocError>
    ensures { OnOk result (missing.new.items ≡ missing.old.items ++ cons_option found []) }
{
    if let Some(one) = found {
        missing.push(one)?;
    }
    Ok(())
}

/// Puts the writes of one store buffer that are missing behind others.
fn push_own(
    kept: &[Pended],
    shape: &Shape,
    image: &Image,
    own: &[Delayed],
    missing: &mut Vec<Missing>,
) -> Result<(), AllocError>
    ensures { OnOk result (missing.new.items ≡ missing.old.items ++ missing_own kept.now shape.now image.now own.now) }
{
    for delayed in own {
        push_some(missing, missing_delayed(kept, shape, image, delayed))?;
    }
    Ok(())
}

impl Origins {
    /// What is said of a pending write that is missing, with these entries behind it.
    fn missing_write(
        &self,
        stores: &Stores,
        word: WordId,
        value: u64,
        operation: &Operation,
        later: &[Pended],
    ) -> Missing
        ensures { result ≡ missing_write self.now stores.now word value operation.now later.now }
    {
        let line = word.line();
        let marker = marker_among(line, later);
        Missing {
            word,
            value,
            site: operation.site,
            why: self.why_missing(stores, line, operation.step, marker),
        }
    }

    /// The pending entry at a place, if it is a write that is missing.
    fn missing_at(
        &self,
        stores: &Stores,
        shape: &Shape,
        image: &Image,
        places: &[usize],
        place: usize,
    ) -> Option<Missing>
        requires { place < length self.now.pended }
        ensures { result ≡ missing_place self.now stores.now shape.now image.now places.now place }
    {
        let pended = &self.pended[place];
        match pended.entry {
            PendingEntry::Write(word, value) => {
                if is_missing(shape, image, places, place, word, value) {
                    let later = &self.pended[place + 1..];
                    Some(self.missing_write(stores, word, value, &pended.operation, later))
                } else {
                    None
                }
            }
            PendingEntry::Marker(_) => None,
        }
    }

    /// Puts the pending writes that are missing behind others, oldest first, where these are the places of a closed set that leaves
    /// the image.
    fn push_pending(
        &self,
        stores: &Stores,
        shape: &Shape,
        image: &Image,
        places: &[usize],
        missing: &mut Vec<Missing>,
    ) -> Result<(), AllocError>
        ensures { OnOk result (missing.new.items
            ≡ missing.old.items ++ missing_pending self.now stores.now shape.now image.now places.now) }
    {
        for place in 0..self.pended.len() {
            push_some(
                missing,
                self.missing_at(stores, shape, image, places, place),
            )?;
        }
        Ok(())
    }

    /// Puts the buffered writes that are missing behind others, by processor.
    fn push_buffered(
        &self,
        kept: &[Pended],
        shape: &Shape,
        image: &Image,
        missing: &mut Vec<Missing>,
    ) -> Result<(), AllocError>
        ensures { OnOk result (missing.new.items ≡ missing.old.items ++ missing_buffered self.now kept.now shape.now image.now) }
    {
        for own in &self.buffered {
            push_own(kept, shape, image, own.entries(), missing)?;
        }
        Ok(())
    }

    /// The writes that are missing, where these are the places of a closed set that leaves the image, and the stores of it.
    fn missing_by(
        &self,
        alloc: Global,
        stores: &Stores,
        shape: &Shape,
        image: &Image,
        places: &[usize],
    ) -> Result<Vec<Missing>, AllocError>
        ensures { IfOk result (λ m. m.items ≡ missing_by self.now stores.now shape.now image.now places.now) }
    {
        let mut missing = Vec::new(alloc);
        self.push_pending(stores, shape, image, places, &mut missing)?;
        self.push_buffered(&stores.kept, shape, image, &mut missing)?;
        Ok(missing)
    }

    /// The same, where these are the places.
    fn missing_writes(
        &self,
        alloc: Global,
        shape: &Shape,
        image: &Image,
        places: &[usize],
    ) -> Result<Vec<Missing>, AllocError>
        ensures { IfOk result (λ m. m.items ≡ missing_writes self.now shape.now image.now places.now) }
    {
        let stores = self.stores_of(alloc, places)?;
        self.missing_by(alloc, &stores, shape, image, places)
    }

    /// The same where what has left the store buffers is this: by the least closed set that leaves the image, if there is one.
    pub(crate) fn missing_in(
        &self,
        alloc: Global,
        pending: &Pending,
        image: &Image,
    ) -> Result<Option<Vec<Missing>>, AllocError>
        ensures { IfOk result (λ m. missing_found m ≡ missing_in self.now pending.now image.now) }
    {
        match closed_set(alloc, pending, image)? {
            Some(places) => {
                let missing = self.missing_writes(alloc, pending.shape(), image, &places)?;
                Ok(Some(missing))
            }
            None => Ok(None),
        }
    }
}
