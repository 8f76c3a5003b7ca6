//! The pending list and the persisted values.
ghost use Rattle.std.specs.Prelude.{◌≡◌, ◌<◌, ◌≤◌, Ok, Err, Some, [], count_by, length, slice_index, IfOk, IfErr};
ghost use Rattle.lines_layout.specs.Lines.{max_lines, max_words};
ghost use Rattle.lines_layout.specs.Shapes.{IsShape};
ghost use Rattle.outcomes.specs.Outcomes.{tested};
ghost use Rattle.persist_buffer.specs.Limits.{serial_limit};
ghost use Rattle.persist_buffer.specs.State.{opening_pending};
ghost use Rattle.persist_buffer.specs.Memories.{coherent, with_pending, write_room_of, add_write_of, marker_room_of, add_marker_of, persisting_write_in, persist_of, settling_marker_of, settle_of, is_write_on, write_count, marker_count, Stores, Takes};
ghost use Rattle.persist_buffer.specs.Listings.{before_marker, IsNthMarker, IsNthWrite, LinesBelow};
ghost use Rattle.persist_buffer.specs.Nexts.{IsNextWrite, IsNextMarker};

use crate::entry::PendingEntry;
use crate::fault::PendingFault;
use crate::pending_list::PendingList;
use lines_layout::{LineId, Shape, WordId, WordValues};
use std::alloc::{AllocError, AllocFailed, Global};
use std::marker::Model;

/// How many writes of one cache line may be pending.
pub const LINE_ROOM: usize = 256;

/// How many markers may be pending.
pub const MARKER_ROOM: usize = 256;

/// What has left the store buffers: the pending list, and the persisted value of each word. A
/// refused call leaves them as they were.
///
/// Raad, Wickerson, Neiger, Vafeiadis, "Persistency Semantics of the Intel-x86 Architecture",
/// POPL 2020: the persistent buffer and the non-volatile memory of Px86sim. The markers, which keep
/// the order that a flush gives, are this project's own choice.
#[derive(Drop)]
pub struct Pending {
    shape: Shape,
    list: PendingList,
    /// The coherent value of each word, so that a read need not search the list.
    coherent: WordValues,
    persisted: WordValues,
}

impl Model for Pending {
    ghost use Rattle.persist_buffer.specs.State.{Pending};
    ghost use Rattle.persist_buffer.specs.CoherentValues.{AreCoherent};

    ghost Value = { Pending };

    ghost view = { λ p. record { shape = p.shape; memory = record { pending = p.list; persisted = p.persisted } } };

    ghost invariant = { λ p. AreCoherent p.coherent (record { pending = p.list; persisted = p.persisted }) };
}

impl Pending {
    /// Nothing pending, and these values persisted. All room that later calls need is taken here.
    /// Without memory the values come back.
    pub fn new(
        alloc: Global,
        shape: &Shape,
        initial: WordValues,
    ) -> Result<Pending, AllocFailed<WordValues>>
        ensures opening { IfOk result (λ p. p ≡ opening_pending shape.now initial) }
        ensures back { IfErr result (λ failed. failed.value ≡ initial) }
    {
        Pending::starting_at(alloc, shape, initial, 0)
    }

    /// The same, where the first entry gets this serial, up to [`SERIAL_LIMIT`]. What is seen of a pending list
    /// does not depend on it. It is there so that a list can be seen whose serials begin anew, which takes 2^63
    /// entries from 0 on.
    pub fn starting_at(
        alloc: Global,
        shape: &Shape,
        initial: WordValues,
        serial: u64,
    ) -> Result<Pending, AllocFailed<WordValues>>
        requires { serial ≤ serial_limit }
        ensures opening { IfOk result (λ p. p ≡ opening_pending shape.now initial) }
        ensures back { IfErr result (λ failed. failed.value ≡ initial) }
    {
        let Ok(list) = PendingList::starting_at(alloc, serial) else {
            return Err(AllocFailed { value: initial });
        };
        let Ok(coherent) = initial.copy(alloc) else {
            return Err(AllocFailed { value: initial });
        };
        Ok(Pending {
            shape: shape.copy(),
            list,
            coherent,
            persisted: initial,
        })
    }

    /// How many words each cache line has.
    pub fn shape(&self) -> &Shape
        ensures { result.now ≡ self.now.shape }
    {
        &self.shape
    }

    /// The coherent value of a word, which a processor reads that has no write of it buffered: that
    /// of its newest pending write, otherwise the persisted one.
    pub fn value(&self, word: WordId) -> u64
        ensures { result ≡ coherent self.now.memory word }
    {
        self.coherent.get(word)
    }

    /// The persisted value of a word, which a crash leaves.
    pub fn persisted(&self, word: WordId) -> u64
        ensures value { result ≡ slice_index self.now.memory.persisted word }
        ensures every_word { length self.now.memory.persisted ≡ max_words }
    {
        self.persisted.get(word)
    }

    /// Whether a write to a word would be taken: [`PendingFault::LineFull`] where not.
    pub fn write_room(&self, word: WordId) -> Result<(), PendingFault>
        ensures { result ≡ write_room_of self.now.memory word }
    {
        if self.list.writes(word.line()) >= LINE_ROOM {
            Err(PendingFault::LineFull)
        } else {
            Ok(())
        }
    }

    /// Appends a write, or [`PendingFault::LineFull`].
    pub fn add_write(&mut self, word: WordId, value: u64) -> Result<(), PendingFault>
        ensures memory { Stores (λ m. add_write_of m word value) self.old result self.new }
        ensures shape { self.new.shape ≡ self.old.shape }
    {
        self.write_room(word)?;
        self.list.push_write(word, value);
        self.coherent.set(word, value);
        Ok(())
    }

    /// Whether a marker would be taken: [`PendingFault::MarkersFull`] where not.
    pub fn marker_room(&self) -> Result<(), PendingFault>
        ensures { result ≡ marker_room_of self.now.memory }
    {
        if self.list.markers() >= MARKER_ROOM {
            Err(PendingFault::MarkersFull)
        } else {
            Ok(())
        }
    }

    /// Appends a marker, or [`PendingFault::MarkersFull`].
    pub fn add_marker(&mut self, line: LineId) -> Result<(), PendingFault>
        ensures memory { Stores (λ m. add_marker_of m line) self.old result self.new }
        ensures shape { self.new.shape ≡ self.old.shape }
    {
        self.marker_room()?;
        self.list.push_marker(line);
        Ok(())
    }

    /// The write of a line that persists next: its oldest, where no marker is before it.
    fn persisting_write(&self, line: u32) -> Result<(WordId, u64), PendingFault>
        ensures line { IfOk result (λ _. line < length self.now.shape) }
        ensures next { IfOk result (λ w. IsNextWrite line w.0 w.1 self.now.memory.pending) }
        ensures refused { IfErr result (λ fault. persisting_write_in self.now line ≡ Err fault) }
    {
        if line as usize >= self.shape.line_count() {
            return Err(PendingFault::NoLine);
        }
        let Some(line) = LineId::new(line as usize) else {
            return Err(PendingFault::NoLine);
        };
        let Some(oldest) = self.list.oldest_write(line) else {
            return Err(PendingFault::NoPending);
        };
        if self.list.marker_stands_before(line) {
            return Err(PendingFault::BehindMarker);
        }
        Ok(oldest)
    }

    /// Whether [`Pending::persist`] would be accepted, or its refusal.
    pub fn check_persist(&self, line: u32) -> Result<(), PendingFault>
        ensures { result ≡ tested (persist_of self.now.shape self.now.memory line) }
    {
        self.persisting_write(line)?;
        Ok(())
    }

    /// Persists the oldest pending write of a line: its word and value. Refused, in this order, with
    /// [`PendingFault::NoLine`], [`PendingFault::NoPending`], [`PendingFault::BehindMarker`].
    pub fn persist(&mut self, line: u32) -> Result<(WordId, u64), PendingFault>
        ensures memory { Takes (λ m. persist_of self.old.shape m line) self.old result self.new }
        ensures shape { self.new.shape ≡ self.old.shape }
    {
        let (word, value) = self.persisting_write(line)?;
        self.list.pop_write(word.line());
        self.persisted.set(word, value);
        Ok((word, value))
    }

    /// The marker that goes next: the oldest, where no write of its line is before it. Its line.
    fn settling_marker(&self) -> Result<LineId, PendingFault>
        ensures next { IfOk result (λ line. IsNextMarker line self.now.memory.pending) }
        ensures refused { IfErr result (λ fault. settling_marker_of self.now.memory ≡ Err fault) }
    {
        let Some(line) = self.list.oldest_marker() else {
            return Err(PendingFault::NoMarker);
        };
        if self.list.write_stands_before(line) {
            return Err(PendingFault::MarkerWaits);
        }
        Ok(line)
    }

    /// Whether [`Pending::settle`] would be accepted, or its refusal.
    pub fn check_settle(&self) -> Result<(), PendingFault>
        ensures { result ≡ tested (settle_of self.now.memory) }
    {
        self.settling_marker()?;
        Ok(())
    }

    /// Takes out the oldest pending marker: its line. Refused with [`PendingFault::NoMarker`], or
    /// with [`PendingFault::MarkerWaits`].
    pub fn settle(&mut self) -> Result<LineId, PendingFault>
        ensures memory { Takes settle_of self.old result self.new }
        ensures shape { self.new.shape ≡ self.old.shape }
    {
        let line = self.settling_marker()?;
        self.list.pop_marker();
        Ok(line)
    }

    /// Loses what is pending. The persisted values stay.
    pub fn crash(&mut self)
        ensures memory { self.new.memory ≡ with_pending self.old.memory [] }
        ensures shape { self.new.shape ≡ self.old.shape }
    {
        self.list.clear();
        self.coherent.copy_from(&self.persisted);
    }

    /// Makes the pending list and the persisted values those of another. It takes no memory.
    pub fn restore(&mut self, from: &Pending)
        ensures memory { self.new.memory ≡ from.now.memory }
        ensures shape { self.new.shape ≡ self.old.shape }
    {
        self.list.restore(&from.list);
        self.coherent.copy_from(&from.coherent);
        self.persisted.copy_from(&from.persisted);
    }

    /// An equal one, with its own room. The only error is that memory ran out.
    pub fn copy(&self, alloc: Global) -> Result<Pending, AllocError>
        ensures { IfOk result (λ p. p ≡ self.now) }
    {
        let list = self.list.copy(alloc)?;
        let coherent = self.coherent.copy(alloc)?;
        let persisted = self.persisted.copy(alloc)?;
        Ok(Pending {
            shape: self.shape.copy(),
            list,
            coherent,
            persisted,
        })
    }

    /// The pending list, oldest first. The only error is that memory ran out.
    pub fn list(&self, alloc: Global) -> Result<Vec<PendingEntry>, AllocError>
        ensures { IfOk result (λ list. list.items ≡ self.now.memory.pending) }
    {
        let list = self.list.list(alloc)?;
        Ok(list)
    }

    /// What is so of every pending list. It is a law, and does nothing: each write is of a line that a layout
    /// can have, and each word that a layout can have has a persisted value.
    pub fn keeps_to_layouts(&self)
        ensures lines { LinesBelow max_lines self.now.memory.pending }
        ensures every_word { length self.now.memory.persisted ≡ max_words }
        ensures shape { IsShape self.now.shape }
    {
        self.list.keeps_to_lines();
        let _ = &self.persisted;
        let _ = self.shape.words();
    }

    /// How many writes and markers are pending.
    pub fn len(&self) -> usize
        ensures { result ≡ length self.now.memory.pending }
    {
        self.list.len()
    }

    /// How many writes of a line are pending. Every pending write is of a line below
    /// [`lines_layout::MAX_LINES`].
    pub fn writes(&self, line: LineId) -> usize
        ensures value { result ≡ write_count self.now.memory line }
        ensures lines { LinesBelow max_lines self.now.memory.pending }
    {
        self.list.writes(line)
    }

    /// The word and value of pending write i of a line, from 0 and oldest first.
    pub fn write(&self, line: LineId, i: usize) -> (WordId, u64)
        requires { i < write_count self.now.memory line }
        ensures { IsNthWrite line i result self.now.memory.pending }
    {
        self.list.write(line, i)
    }

    /// How many markers are pending.
    pub fn markers(&self) -> usize
        ensures { result ≡ marker_count self.now.memory }
    {
        self.list.markers()
    }

    /// The line of pending marker k, from 0 and oldest first.
    pub fn marker(&self, k: usize) -> LineId
        requires { k < marker_count self.now.memory }
        ensures { IsNthMarker k result self.now.memory.pending }
    {
        self.list.marker(k)
    }

    /// How many pending writes of a line are before marker k, from 0; where k is the count of
    /// markers, all of them.
    pub fn before(&self, line: LineId, k: usize) -> usize
        requires { k ≤ marker_count self.now.memory }
        ensures { result ≡ count_by (is_write_on line) (before_marker k self.now.memory.pending) }
    {
        self.list.writes_before(line, k)
    }
}
