//! Which operation each buffered and each pending entry is of.
ghost use Rattle.std.specs.Prelude.{◌≡◌, ◌<◌, ◌++◌, ◌∷◌, [], IfOk, IfSome, IsSome, OnOk, length, replicate};
ghost use Rattle.std.specs.Option.{ForSome};
ghost use Rattle.persist_buffer.specs.Memories.{is_marker, is_write_on};
ghost use Rattle.image_reasons.specs.Origins.{act_noted, buffered_site, delayed_at, delayed_by, executed_by, first_alone, first_place, flush_noted, left_by, lost, no_origins, operation_at, origins_next, pending_site, persisted_on, put, put_as, released_by, settled, with_flush, without_place, written_by};

use crate::delays::Delays;
use crate::entries::{Delayed, Flushed, Operation, Pended, Site};
use lines_layout::{LineId, WordId};
use machine::{Act, Entry, PendingEntry, Seen};
use std::alloc::{AllocError, Global};
use std::marker::Model;

/// Of a run the operations of what is buffered and pending, the flushes that were executed since its last crash, and the writes that
/// have persisted since.
#[derive(Drop)]
pub struct Origins {
    recovering: bool,
    pub(crate) buffered: Vec<Delays>,
    pub(crate) pended: Vec<Pended>,
    pub(crate) flushed: Vec<Flushed>,
    pub(crate) persisted: Vec<Pended>,
}

impl Model for Origins {
    ghost use Rattle.image_reasons.specs.Origins.{Origins};

    ghost Value = { Origins };

    ghost view = { λ o. record {
      recovering = o.recovering;
      buffered = o.buffered.items;
      pended = o.pended.items;
      flushed = o.flushed.items;
      persisted = o.persisted.items;
    } };
}

/// Whether an entry is a write of a line.
pub(crate) fn is_write_on(line: LineId, entry: PendingEntry) -> bool
    ensures { result ≡ is_write_on line entry }
{
    match entry {
        PendingEntry::Write(word, _) => word.line() == line,
        PendingEntry::Marker(_) => false,
    }
}

/// Whether an entry is a marker.
fn is_marker(entry: PendingEntry) -> bool
    ensures { result ≡ is_marker entry }
{
    matches!(entry, PendingEntry::Marker(_))
}

/// The place of the oldest pending write of a line.
fn write_place(pended: &[Pended], line: LineId) -> Option<usize>
    ensures place { result ≡ first_place (is_write_on line) pended.now }
    ensures there { IfSome result (λ place. place < length pended.now) }
{
    pended.iter().position(|p| is_write_on(line, p.entry))
}

/// The place of the oldest pending marker.
fn marker_place(pended: &[Pended]) -> Option<usize>
    ensures place { result ≡ first_place is_marker pended.now }
    ensures there { IfSome result (λ place. place < length pended.now) }
{
    pended.iter().position(|p| is_marker(p.entry))
}

/// The entry at a place goes, if one is given.
fn remove_place(pended: &mut Vec<Pended>, place: Option<usize>)
    requires { ForSome place (λ i. i < length pended.old.items) }
    ensures { pended.new.items ≡ without_place place pended.old.items }
{
    if let Some(i) = place {
        pended.remove(i);
    }
}

/// Puts one more behind others.
pub(crate) fn push_entry(pended: &mut Vec<Pended>, one: &Pended) -> Result<(), AllocError>
    ensures { OnOk result (pended.new.items ≡ pended.old.items ++ one.now ∷ []) }
{
    // The toolchain has no proof for a push of an entry outside its own crate.
    pended.extend_from_slice(&[*one])
}

/// Puts the oldest pending write of a line behind others, if there is one.
fn push_oldest(pended: &[Pended], line: LineId, others: &mut Vec<Pended>) -> Result<(), AllocError>
    ensures { OnOk result (others.new.items ≡ others.old.items ++ first_alone (is_write_on line) pended.now) }
{
    for p in pended {
        if is_write_on(line, p.entry) {
            return push_entry(others, p);
        }
    }
    Ok(())
}

/// Nothing is delayed by any of so many processors.
fn none_delayed(alloc: Global, processors: usize) -> Result<Vec<Delays>, AllocError>
    ensures { IfOk result (λ delays. delays.items ≡ replicate processors []) }
{
    let mut delays = Vec::with_capacity(alloc, processors)?;
    for _processor in 0..processors {
        delays.push(Delays::new(alloc))?;
    }
    Ok(delays)
}

/// What each of some store buffers delays, once more.
fn copies(alloc: Global, buffered: &[Delays]) -> Result<Vec<Delays>, AllocError>
    ensures { IfOk result (λ copies. copies.items ≡ buffered.now) }
{
    let mut copies = Vec::with_capacity(alloc, buffered.len())?;
    for delays in buffered {
        copies.push(delays.copy(alloc)?)?;
    }
    Ok(copies)
}

impl Origins {
    /// Before the first step of a machine of so many processors.
    ///
    /// # Errors
    ///
    /// Out of memory.
    pub fn new(alloc: Global, processors: usize) -> Result<Origins, AllocError>
        ensures { IfOk result (λ o. o ≡ no_origins processors) }
    {
        Ok(Origins {
            recovering: false,
            buffered: none_delayed(alloc, processors)?,
            pended: Vec::new(alloc),
            flushed: Vec::new(alloc),
            persisted: Vec::new(alloc),
        })
    }

    /// The same once more.
    ///
    /// # Errors
    ///
    /// Out of memory.
    pub fn copy(&self, alloc: Global) -> Result<Origins, AllocError>
        ensures { IfOk result (λ copy. copy ≡ self.now) }
    {
        let mut copy = Origins {
            recovering: self.recovering,
            buffered: copies(alloc, &self.buffered)?,
            pended: Vec::new(alloc),
            flushed: Vec::new(alloc),
            persisted: Vec::new(alloc),
        };
        copy.pended.extend_from_slice(&self.pended)?;
        copy.flushed.extend_from_slice(&self.flushed)?;
        copy.persisted.extend_from_slice(&self.persisted)?;
        Ok(copy)
    }

    /// Where the instruction stands that the entry at a place of a processor's store buffer is of, if there is such an entry.
    pub fn buffered_site(&self, p: usize, place: usize) -> Option<Site>
        ensures { result ≡ buffered_site self.now p place }
    {
        self.buffered.get(p)?.site(place)
    }

    /// Where the instruction stands that the pending entry at a place is of, if there is such an entry.
    pub fn pending_site(&self, place: usize) -> Option<Site>
        ensures { result ≡ pending_site self.now place }
    {
        let pended = self.pended.get(place)?;
        Some(pended.operation.site)
    }

    /// The entry at a place of a processor's store buffer.
    pub(crate) fn delayed_at(&self, p: u32, place: usize) -> Option<Delayed>
        ensures { result ≡ delayed_at p place self.now }
    {
        self.buffered.get(p as usize)?.get(place)
    }

    /// An entry goes into a processor's store buffer.
    fn delay(&mut self, p: u32, delayed: Delayed) -> Result<(), AllocError>
        ensures { OnOk result (self.new ≡ delayed_by p delayed self.old) }
    {
        if (p as usize) < self.buffered.len() {
            self.buffered[p as usize].push(delayed)?;
        }
        Ok(())
    }

    /// A flush of a line was executed.
    fn flush(&mut self, line: LineId, operation: Operation) -> Result<(), AllocError>
        ensures { OnOk result (self.new ≡ with_flush line operation self.old) }
    {
        self.flushed.push(Flushed { line, operation })?;
        Ok(())
    }

    /// Notes an executed entry, if it is a flush.
    fn note_flush(&mut self, delayed: &Delayed) -> Result<(), AllocError>
        ensures { OnOk result (self.new ≡ flush_noted delayed.now.entry delayed.now.operation self.old) }
    {
        match delayed.entry {
            Entry::Flush(line) | Entry::FlushOpt(line) => self.flush(line, delayed.operation),
            Entry::Write(..) | Entry::Sfence => Ok(()),
        }
    }

    /// An instruction put an entry into a processor's store buffer.
    fn execute(&mut self, p: u32, delayed: Delayed) -> Result<(), AllocError>
        ensures { OnOk result (self.new ≡ executed_by p delayed self.old) }
    {
        self.note_flush(&delayed)?;
        self.delay(p, delayed)
    }

    /// The entry at a place of a processor's store buffer is delayed no more.
    fn release(&mut self, p: u32, place: usize)
        requires { IsSome (delayed_at p place self.old) }
        ensures { self.new ≡ released_by p place self.old }
    {
        self.buffered[p as usize].remove(place);
    }

    /// An entry goes to the end of the pending list.
    fn put(&mut self, entry: PendingEntry, operation: Operation) -> Result<(), AllocError>
        ensures { OnOk result (self.new ≡ put entry operation self.old) }
    {
        self.pended.push(Pended { entry, operation })?;
        Ok(())
    }

    /// What an entry that left a store buffer puts there.
    fn put_as(&mut self, entry: Entry, operation: Operation) -> Result<(), AllocError>
        ensures { OnOk result (self.new ≡ put_as entry operation self.old) }
    {
        match entry {
            Entry::Write(word, value) => self.put(PendingEntry::Write(word, value), operation),
            Entry::Flush(line) | Entry::FlushOpt(line) => {
                self.put(PendingEntry::Marker(line), operation)
            }
            Entry::Sfence => Ok(()),
        }
    }

    /// The entry at a place of a processor's store buffer leaves it.
    fn leave(&mut self, p: u32, place: usize) -> Result<(), AllocError>
        ensures { OnOk result (self.new ≡ left_by p place self.old) }
    {
        match self.delayed_at(p, place) {
            Some(delayed) => {
                self.release(p, place);
                self.put_as(delayed.entry, delayed.operation)
            }
            None => Ok(()),
        }
    }

    /// The oldest pending write of a line is persisted.
    fn persist(&mut self, line: LineId) -> Result<(), AllocError>
        ensures { OnOk result (self.new ≡ persisted_on line self.old) }
    {
        push_oldest(&self.pended, line, &mut self.persisted)?;
        let place = write_place(&self.pended, line);
        remove_place(&mut self.pended, place);
        Ok(())
    }

    /// The oldest pending marker goes.
    fn settle(&mut self)
        ensures { self.new ≡ settled self.old }
    {
        let place = marker_place(&self.pended);
        remove_place(&mut self.pended, place);
    }

    /// A crash loses all.
    fn lose(&mut self) -> Result<(), AllocError>
        ensures { OnOk result (self.new ≡ lost self.old) }
    {
        self.buffered = none_delayed(*self.pended.allocator(), self.buffered.len())?;
        self.pended.clear();
        self.flushed.clear();
        self.persisted.clear();
        self.recovering = true;
        Ok(())
    }

    /// A locked operation was executed, which wrote a value, if one is given.
    fn write(
        &mut self,
        word: WordId,
        written: Option<u64>,
        operation: Operation,
    ) -> Result<(), AllocError>
        ensures { OnOk result (self.new ≡ written_by word written operation self.old) }
    {
        match written {
            Some(value) => self.put(PendingEntry::Write(word, value), operation),
            None => Ok(()),
        }
    }

    /// What a processor executes at a place of its program in the n-th step.
    fn operation_at(&self, n: usize, processor: u32, place: usize) -> Operation
        ensures { result ≡ operation_at n self.now processor place }
    {
        let site = Site {
            processor,
            recovering: self.recovering,
            place,
        };
        Operation { step: n, site }
    }

    /// Notes what an operation of a processor showed.
    fn note_act(&mut self, p: u32, act: Act, operation: Operation) -> Result<(), AllocError>
        ensures { OnOk result (self.new ≡ act_noted p act operation self.old) }
    {
        match act {
            Act::Delay(entry) => self.execute(p, Delayed { entry, operation }),
            Act::Locked(word, _, written) => self.write(word, written, operation),
            Act::Local | Act::Fence | Act::Read(..) | Act::Trap(_) => Ok(()),
        }
    }

    /// Notes what the n-th step showed, from 0.
    ///
    /// # Errors
    ///
    /// Out of memory.
    #[tactic(auto, unfolding(crate::specs::Origins::origins_next))]
    pub fn note(&mut self, n: usize, seen: Seen) -> Result<(), AllocError>
        ensures { OnOk result (self.new ≡ origins_next n self.old seen) }
    {
        match seen {
            Seen::Ran(p, place, act) => self.note_act(p, act, self.operation_at(n, p, place)),
            Seen::Left(p, i, _) => self.leave(p, i as usize),
            Seen::Persisted(word, _) => self.persist(word.line()),
            Seen::Settled(_) => {
                self.settle();
                Ok(())
            }
            Seen::Crashed(_) => self.lose(),
        }
    }
}
