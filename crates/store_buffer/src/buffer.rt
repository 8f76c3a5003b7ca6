//! A store buffer.
ghost use Rattle.std.specs.Prelude.{◌≡◌, ◌==◌, ◌<◌, ◌≤◌, [], None, length, remove, IfOk, IfSome};
ghost use Rattle.outcomes.specs.Calls.{Does, DoesAlone};
ghost use Rattle.store_buffer.specs.Buffers.{buffer_room, forward_of, room_of, push_of, holder_at, leaving_entry, free_places, take_of};

use crate::entry::{Entry, kind_of, line_named, value_to};
use crate::fault::BufferFault;
use crate::holders::{free_places, held_by, with_place};
use crate::newest::{note, note_from};
use arrayvec::ArrayVec;
use lines_layout::{MAX_WORDS, WordId};
use order_table::{Mask, Masks, PLACES};
use std::marker::Model;

/// How many entries a store buffer holds.
pub const BUFFER_ROOM: usize = PLACES;

/// The entries that a processor has delayed, oldest first. A refused call leaves them as they were.
///
/// Raad, Wickerson, Neiger, Vafeiadis, "Persistency Semantics of the Intel-x86 Architecture",
/// POPL 2020: the per-thread buffer of Px86sim.
///
/// Beside the entries there are: the operations that they delay, as masks; for each word the place
/// after its newest write, 0 where none is buffered; the places whose entries may leave.
#[derive(Drop)]
pub struct Buffer {
    entries: ArrayVec<Entry, BUFFER_ROOM>,
    operations: Masks,
    after_newest: [u8; MAX_WORDS],
    free: Mask,
}

impl Model for Buffer {
    ghost use Rattle.std.specs.Prelude.{◌≡◌, List, map};
    ghost use Rattle.store_buffer.specs.declared.entry.Entry.{Entry};
    ghost use Rattle.store_buffer.specs.Buffers.{free_places};
    ghost use Rattle.store_buffer.specs.Indexes.{AreAfterNewest, operation_of};

    ghost Value = { List Entry };

    ghost view = { λ b. b.entries.items };

    ghost invariant = { λ b. (b.operations ≡ map operation_of b.entries.items) × AreAfterNewest b.after_newest b.entries.items × (b.free ≡ free_places b.entries.items) };
}

impl Buffer {
    /// The empty store buffer.
    pub fn new() -> Buffer
        ensures { result ≡ [] }
    {
        Buffer {
            entries: ArrayVec::new(),
            operations: Masks::new(),
            after_newest: [0; MAX_WORDS],
            free: 0,
        }
    }

    /// The entries, oldest first.
    pub fn entries(&self) -> &[Entry]
        ensures value { result.now ≡ self.now }
        ensures room { length self.now ≤ buffer_room }
    {
        self.entries.as_slice()
    }

    /// How many entries there are.
    pub fn len(&self) -> usize
        ensures value { result ≡ length self.now }
        ensures bound { result ≤ buffer_room }
    {
        self.entries.len()
    }

    /// Whether there is no entry.
    pub fn is_empty(&self) -> bool
        ensures { result ≡ (length self.now == 0) }
    {
        self.entries.is_empty()
    }

    /// The value of the newest buffered write to a word, which the processor itself reads.
    pub fn forward(&self, word: WordId) -> Option<u64>
        ensures { result ≡ forward_of self.now word }
    {
        let after = usize::from(self.after_newest[word.number()]);
        if after == 0 {
            return None;
        }
        value_to(word, &self.entries.as_slice()[after - 1])
    }

    /// The place of the oldest entry that holds back the one at place i; None where nothing does,
    /// and where no entry is there.
    pub fn held_by(&self, i: usize) -> Option<usize>
        ensures value { result ≡ holder_at self.now i }
        ensures earlier { IfSome result (λ holder. holder < i) }
    {
        held_by(&self.operations, self.entries.as_slice(), i)
    }

    /// The places whose entries may leave, one bit a place: those that [`Buffer::leaving_entry`]
    /// answers.
    pub fn free(&self) -> Mask
        ensures { result ≡ free_places self.now }
    {
        self.free
    }

    /// Whether there is room for another entry: [`BufferFault::Full`] where there is none.
    pub fn room(&self) -> Result<(), BufferFault>
        ensures { result ≡ room_of self.now }
    {
        if self.entries.is_full() {
            Err(BufferFault::Full)
        } else {
            Ok(())
        }
    }

    /// Appends an entry, or [`BufferFault::Full`].
    pub fn push(&mut self, entry: Entry) -> Result<(), BufferFault>
        ensures { DoesAlone (push_of self.old entry) self.old result self.new }
    {
        self.room()?;
        let place = self.entries.len();
        self.operations.push(kind_of(&entry), line_named(&entry));
        note(&mut self.after_newest, &entry, place + 1);
        self.entries.push(entry);
        let entries = self.entries.as_slice();
        self.free = with_place(self.free, &self.operations, entries, place);
        Ok(())
    }

    /// The entry at place i, which may leave: [`BufferFault::NoEntry`] where none is there,
    /// [`BufferFault::Held`] where an earlier one holds it.
    pub fn leaving_entry(&self, i: usize) -> Result<Entry, BufferFault>
        ensures value { result ≡ leaving_entry self.now i }
        ensures there { IfOk result (λ _. i < length self.now) }
        ensures free { IfOk result (λ _. holder_at self.now i ≡ None) }
    {
        let Some(entry) = self.entries.as_slice().get(i) else {
            return Err(BufferFault::NoEntry);
        };
        match self.held_by(i) {
            Some(holder) => Err(BufferFault::Held(holder)),
            None => Ok(*entry),
        }
    }

    /// Takes out the entry at place i, where it may leave; the refusals of
    /// [`Buffer::leaving_entry`].
    pub fn take(&mut self, i: usize) -> Result<Entry, BufferFault>
        ensures { Does (take_of self.old i) self.old result self.new }
    {
        let entry = self.leaving_entry(i)?;
        self.remove(i);
        Ok(entry)
    }

    /// Drops the entry at place i, which no earlier one holds. The others keep their order.
    pub fn remove(&mut self, i: usize)
        requires there { i < length self.old }
        requires free { holder_at self.old i ≡ None }
        ensures { self.new ≡ remove self.old i }
    {
        let entry = self.entries.remove(i);
        self.operations.take(i);
        // A write is kept before each later one: where this one is a write, no older one is left.
        note(&mut self.after_newest, &entry, 0);
        let entries = self.entries.as_slice();
        note_from(&mut self.after_newest, entries, i);
        self.free = free_places(&self.operations, entries);
    }

    /// Drops all entries.
    pub fn clear(&mut self)
        ensures { self.new ≡ [] }
    {
        if self.is_empty() {
            return;
        }
        self.entries.clear();
        self.operations = Masks::new();
        self.after_newest = [0; MAX_WORDS];
        self.free = 0;
    }

    /// Makes the entries those of another.
    pub fn restore(&mut self, from: &Buffer)
        ensures { self.new ≡ from.now }
    {
        if self.is_empty() && from.is_empty() {
            return;
        }
        self.entries.clear();
        // An equal array has the room.
        let Ok(()) = self.entries.try_extend_from_slice(&from.entries) else {
            unreachable!()
        };
        self.operations = from.operations.copy();
        self.after_newest = from.after_newest;
        self.free = from.free;
    }

    /// An equal store buffer.
    pub fn copy(&self) -> Buffer
        ensures { result ≡ self.now }
    {
        let mut entries = ArrayVec::new();
        // An equal array has the room.
        let Ok(()) = entries.try_extend_from_slice(&self.entries) else {
            unreachable!()
        };
        Buffer {
            entries,
            operations: self.operations.copy(),
            after_newest: self.after_newest,
            free: self.free,
        }
    }
}
