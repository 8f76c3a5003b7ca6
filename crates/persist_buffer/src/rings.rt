//! Rings of pending entries: one for the markers and one for each line. Each entry carries a serial,
//! and the serials give the order of them all.
ghost use Rattle.std.specs.Prelude.{◌≡◌, ℕ, ◌<◌, ◌≤◌, ◌+◌, [], length, IfOk, IsSome, Some, option_copied, find, filter, count_by, map, slice_get, replicate, All};
ghost use Rattle.std.specs.List.{list_any, fold};
ghost use Rattle.lines_layout.specs.Lines.{max_lines};
ghost use Rattle.persist_buffer.specs.Listings.{LinesBelow};
ghost use Rattle.persist_buffer.specs.Limits.{serial_limit};
ghost use Rattle.persist_buffer.specs.Rings.{AreEmptyFrom, ring_count, ring_room, ring_of, is_in, all_placed, emptied, empty_ring, joined, entries, Rising, IsRefillable, with_entry};
ghost use Rattle.persist_buffer.specs.Renumbering.{shifted_list, shifted_ring, lesser, Clear, IsLeast};
ghost use Rattle.persist_buffer.specs.Firsts.{drop_first, before_first, before_nth};

use crate::entry::PendingEntry;
use crate::ring;
use crate::ring::{Ring, StampedEntry};
use circular_buffer::HeapCircularBuffer;
use lines_layout::{LineId, MAX_LINES};
use std::alloc::{AllocError, Global};
use std::marker::Model;

/// No serial of an entry reaches this: where the next one would, all entries are numbered anew from 0.
pub const SERIAL_LIMIT: u64 = 1 << 63;

/// One ring for the markers, and one for each line.
const RING_COUNT: usize = MAX_LINES + 1;

/// How many entries a ring has room for.
const RING_ROOM: usize = 256;

/// The ring of the markers. After it comes one for each line.
pub const MARKERS: usize = 0;

/// The ring of a line's writes.
pub fn ring_of_line(line: LineId) -> usize
    ensures value { result ≡ line + 1 }
    ensures within { result < ring_count }
{
    line.number() + 1
}

/// The ring that an entry goes into.
fn ring_of(entry: &PendingEntry) -> usize
    ensures value { result ≡ ring_of entry.now }
    ensures within { result < ring_count }
{
    match entry {
        PendingEntry::Write(word, _) => ring_of_line(word.line()),
        PendingEntry::Marker(_) => MARKERS,
    }
}

/// Empty rings, with all their room. The only error is that memory ran out.
fn empty_rings(alloc: Global) -> Result<Vec<Ring>, AllocError>
    ensures { IfOk result (λ rings. rings.items ≡ replicate ring_count empty_ring) }
{
    let mut rings = Vec::with_capacity(alloc, RING_COUNT)?;
    for _ in 0..RING_COUNT {
        rings.push(HeapCircularBuffer::with_capacity(alloc, RING_ROOM)?)?;
    }
    Ok(rings)
}

/// Rings with the same room and entries. The only error is that memory ran out.
fn copied_rings(alloc: Global, rings: &[Ring]) -> Result<Vec<Ring>, AllocError>
    ensures { IfOk result (λ copy. copy.items ≡ rings.now) }
{
    let mut copy = Vec::with_capacity(alloc, rings.len())?;
    for ring in rings {
        copy.push(ring::copied(alloc, ring)?)?;
    }
    Ok(copy)
}

/// Makes the entries of each ring those of the ring that has its number in `from`. From the one of number `used` on all are empty.
fn refill_rings(rings: &mut Vec<Ring>, from: &[Ring], used: usize)
    requires room { IsRefillable rings.old.items from.now }
    requires old { AreEmptyFrom used rings.old.items }
    requires new { AreEmptyFrom used from.now }
    ensures { rings.new.items ≡ from.now }
{
    for r in 0..used {
        let ring = &mut rings[r];
        ring::refill(ring, &from[r]);
    }
}

fn clear_rings(rings: &mut Vec<Ring>)
    ensures { rings.new.items ≡ map emptied rings.old.items }
{
    for r in 0..rings.len() {
        let ring = &mut rings[r];
        ring.clear();
    }
}

/// One list of the entries of all rings, by their serials, which rise in each ring. The only error is
/// that memory ran out.
fn merge_all(alloc: Global, rings: &[Ring]) -> Result<Vec<StampedEntry>, AllocError>
    requires { All (λ ring. Rising ring.items) rings.now }
    ensures { IfOk result (λ all. all.items ≡ all_placed [] (joined rings.now)) }
{
    let mut all = Vec::new(alloc);
    for ring in rings {
        if !ring.is_empty() {
            all = ring::merge(alloc, &all, ring)?;
        }
    }
    Ok(all)
}

/// Moves the serials of all rings that are not below `from` down by a gap.
fn shift_rings(rings: &mut Vec<Ring>, from: u64, gap: u64)
    ensures { rings.new.items ≡ map (shifted_ring from gap) rings.old.items }
{
    for r in 0..rings.len() {
        let ring = &mut rings[r];
        ring::shift(ring, from, gap);
    }
}

/// The least of the limit and the serials of all rings that are not below `from`.
fn least_of(rings: &[Ring], from: u64) -> u64
    ensures { result ≡ fold (lesser from) serial_limit (joined rings.now) }
{
    let mut least = SERIAL_LIMIT;
    for ring in rings {
        least = ring::least_in(ring, from, least);
    }
    least
}

/// The greater of two numbers.
fn most(one: usize, other: usize) -> usize
    ensures first { one ≤ result }
    ensures second { other ≤ result }
    ensures bound { (n : ℕ) → one ≤ n → other ≤ n → result ≤ n }
{
    if one < other { other } else { one }
}

/// Pending entries in rings, in the order of their serials, and the next serial. All room is taken
/// when they are made.
#[derive(Drop)]
pub struct Rings {
    rings: Vec<Ring>,
    next: u64,
    /// From the ring of this number on all are empty, so that restoring does not look at each: most programs have few lines.
    used: usize,
}

impl Model for Rings {
    ghost use Rattle.persist_buffer.specs.Rings.{AreEmptyFrom, StampedList, merged, IsMerged};

    ghost Value = { StampedList };

    ghost view = { λ a. record { stamped = merged a.rings.items; next = a.next } };

    ghost invariant = { λ a. IsMerged a.rings.items (merged a.rings.items) a.next × AreEmptyFrom a.used a.rings.items };
}

// The check opens the invariant in a method that names both fields: hence `let _ = &self.next`.
impl Rings {
    /// Empty rings, whose first entry gets this serial. The only error is that memory ran out.
    pub fn starting_at(alloc: Global, first: u64) -> Result<Rings, AllocError>
        requires { first ≤ serial_limit }
        ensures { IfOk result (λ rings. rings ≡ record { stamped = []; next = first }) }
    {
        let rings = empty_rings(alloc)?;
        Ok(Rings {
            rings,
            next: first,
            used: 0,
        })
    }

    /// Equal rings, with their own room. The only error is that memory ran out.
    pub fn copy(&self, alloc: Global) -> Result<Rings, AllocError>
        ensures { IfOk result (λ rings. rings ≡ self.now) }
    {
        let rings = copied_rings(alloc, self.rings.as_slice())?;
        let next = self.next;
        let used = self.used;
        Ok(Rings { rings, next, used })
    }

    /// Makes the entries and the next serial those of others. It takes no memory.
    pub fn restore(&mut self, from: &Rings)
        ensures { self.new ≡ from.now }
    {
        let next = from.next;
        let used = most(self.used, from.used);
        refill_rings(&mut self.rings, from.rings.as_slice(), used);
        self.next = next;
        self.used = from.used;
    }

    /// All entries, in order. The only error is that memory ran out.
    pub fn list(&self, alloc: Global) -> Result<Vec<StampedEntry>, AllocError>
        ensures { IfOk result (λ list. list.items ≡ self.now.stamped) }
    {
        let _ = &self.next;
        let list = merge_all(alloc, self.rings.as_slice())?;
        Ok(list)
    }

    /// Drops all entries.
    pub fn clear(&mut self)
        ensures { self.new ≡ record { stamped = []; next = self.old.next } }
    {
        let _ = &self.next;
        clear_rings(&mut self.rings);
        self.used = 0;
    }

    /// The next serial.
    pub fn next(&self) -> u64
        ensures value { result ≡ self.now.next }
        ensures within { result ≤ serial_limit }
        ensures few { length self.now.stamped ≤ result }
    {
        self.next
    }

    /// The first entry of a ring.
    pub fn front(&self, r: usize) -> Option<&StampedEntry>
        requires { r < ring_count }
        ensures { option_copied result ≡ find (is_in r) self.now.stamped }
    {
        self.rings[r].front()
    }

    /// Entry i of a ring, from 0.
    pub fn nth(&self, r: usize, i: usize) -> &StampedEntry
        requires ring { r < ring_count }
        requires there { i < count_by (is_in r) self.now.stamped }
        ensures { slice_get (filter (is_in r) self.now.stamped) i ≡ Some result.now }
    {
        ring::at(&self.rings[r], i)
    }

    /// How many entries a ring has. Each write in the rings is of a line that a layout can have.
    pub fn count(&self, r: usize) -> usize
        requires { r < ring_count }
        ensures value { result ≡ count_by (is_in r) self.now.stamped }
        ensures lines { LinesBelow max_lines (entries self.now.stamped) }
    {
        self.rings[r].len()
    }

    /// Each write in the rings is of a line that a layout can have. It is a law, and does nothing.
    pub fn keep_to_lines(&self)
        ensures { LinesBelow max_lines (entries self.now.stamped) }
    {
        let _ = &self.rings;
        let _ = &self.next;
    }

    /// Adds an entry at the end, under the next serial.
    pub fn push(&mut self, entry: PendingEntry)
        requires room { count_by (is_in (ring_of entry)) self.old.stamped < ring_room }
        requires serial { self.old.next < serial_limit }
        ensures { self.new ≡ with_entry self.old entry }
    {
        let r = ring_of(&entry);
        let serial = self.next;
        let ring = &mut self.rings[r];
        ring::append(ring, StampedEntry { serial, entry });
        self.next += 1;
        self.used = most(self.used, r + 1);
    }

    /// Drops the first entry of a ring.
    pub fn pop(&mut self, r: usize)
        requires ring { r < ring_count }
        requires there { IsSome (find (is_in r) self.old.stamped) }
        ensures { self.new ≡ record self.old { stamped = drop_first (is_in r) self.old.stamped } }
    {
        let ring = &mut self.rings[r];
        ring.pop_front();
    }

    /// Whether an entry of one ring is before the first entry of another, which is there.
    pub fn stands_before(&self, a: usize, b: usize) -> bool
        requires a { a < ring_count }
        requires b { b < ring_count }
        requires there { IsSome (find (is_in b) self.now.stamped) }
        ensures { result ≡ list_any (is_in a) (before_first (is_in b) self.now.stamped) }
    {
        let _ = &self.next;
        let Some(other) = self.front(b) else {
            return false;
        };
        let Some(one) = self.front(a) else {
            return false;
        };
        one.serial < other.serial
    }

    /// How many entries of one ring are before entry k of another, from 0; where the other has k
    /// entries, all of them.
    pub fn count_before(&self, a: usize, b: usize, k: usize) -> usize
        requires a { a < ring_count }
        requires b { b < ring_count }
        requires there { k ≤ count_by (is_in b) self.now.stamped }
        ensures { result ≡ count_by (is_in a) (before_nth k (is_in b) self.now.stamped) }
    {
        let _ = &self.next;
        if k == self.count(b) {
            return self.count(a);
        }
        let serial = self.nth(b, k).serial;
        ring::count_below(&self.rings[a], serial)
    }

    /// The least serial that is not below `from`, or the limit where there is none.
    fn least(&self, from: u64) -> u64
        ensures { IsLeast self.now.stamped from result }
    {
        let _ = &self.next;
        least_of(self.rings.as_slice(), from)
    }

    /// Moves the serials that are not below `from` down by a gap, in which no serial lies.
    fn lower(&mut self, from: u64, gap: u64)
        requires { Clear from gap self.old.stamped }
        ensures { self.new ≡ shifted_list from gap self.old }
    {
        let _ = &self.next;
        shift_rings(&mut self.rings, from, gap);
    }

    /// Numbers all entries anew, from 0 in their order. It takes no memory: one gap between the
    /// serials is closed after another.
    fn renumber(&mut self)
        ensures same { entries self.new.stamped ≡ entries self.old.stamped }
        ensures next { self.new.next < serial_limit }
        ensures numbers { self.new.next ≡ length self.new.stamped }
    {
        let mut from = 0;
        let mut least = self.least(from);
        while least < SERIAL_LIMIT {
            self.lower(from, least - from);
            from += 1;
            least = self.least(from);
        }
        self.next = from;
    }

    /// Where no serial is left for the next entry, numbers all entries anew.
    pub fn ensure_serial(&mut self)
        ensures same { entries self.new.stamped ≡ entries self.old.stamped }
        ensures next { self.new.next < serial_limit }
        ensures few { length self.new.stamped < serial_limit }
    {
        if self.next() >= SERIAL_LIMIT {
            self.renumber();
        }
    }
}
