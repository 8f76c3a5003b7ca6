//! One ring of pending entries. Each entry carries a serial, and the serials of a ring rise.
//!
//! Helpers that take an item or give one are generic in it, as the borrow checker asks.
ghost use Rattle.std.specs.Prelude.{◌≡◌, ◌<◌, ◌≤◌, ◌∷◌, ◌++◌, [], length, IfOk, count_by, slice_index_or, nat_lt};
ghost use Rattle.std.specs.List.{fold};
ghost use Rattle.circular_buffer.specs.Buffer.{buffer};
ghost use Rattle.persist_buffer.specs.Rings.{all_placed, Rising};
ghost use Rattle.persist_buffer.specs.Renumbering.{lowered, shifted_ring, lesser};

use crate::entry::PendingEntry;
use circular_buffer::HeapCircularBuffer;
use std::alloc::{AllocError, Global};

/// A pending entry with its serial.
#[derive(Clone, Copy)]
pub struct StampedEntry {
    pub serial: u64,
    pub entry: PendingEntry,
}

/// The entries of one line, or the markers, oldest first.
pub type Ring = HeapCircularBuffer<StampedEntry>;

/// Adds to a ring that has room.
pub fn append<T: Drop>(ring: &mut HeapCircularBuffer<T>, item: T)
    requires { length ring.old.items < ring.old.capacity }
    ensures { ring.new ≡ buffer (ring.old.items ++ item ∷ []) ring.old.capacity }
{
    ring.push_back(item);
}

/// Item i of a ring, from 0.
pub fn at<T>(ring: &HeapCircularBuffer<T>, i: usize) -> &T
    requires { i < length ring.now.items }
    ensures { result.now ≡ slice_index_or ring.now.items i result.now }
{
    let Some(item) = ring.get(i) else {
        unreachable!()
    };
    item
}

/// Takes the first item of a ring out.
fn take_front<T: Drop>(ring: &mut HeapCircularBuffer<T>) -> T
    requires { 0 < length ring.old.items }
    ensures items { ring.old.items ≡ result ∷ ring.new.items }
    ensures capacity { ring.new.capacity ≡ ring.old.capacity }
{
    let Some(item) = ring.pop_front() else {
        unreachable!()
    };
    item
}

/// Makes the items of a ring those of another, for which it has room.
pub fn refill<T: Copy>(ring: &mut HeapCircularBuffer<T>, from: &HeapCircularBuffer<T>)
    requires { length from.now.items ≤ ring.old.capacity }
    ensures { ring.new ≡ buffer from.now.items ring.old.capacity }
{
    // Where many short runs begin from one state, most rings are empty each time.
    if ring.is_empty() && from.is_empty() {
        return;
    }
    let (front, back) = from.as_slices();
    ring.clear();
    ring.fill_from_slice(front);
    ring.fill_from_slice(back);
}

/// A ring with the same room and items. The only error is that memory ran out.
pub fn copied<T: Copy>(
    alloc: Global,
    ring: &HeapCircularBuffer<T>,
) -> Result<HeapCircularBuffer<T>, AllocError>
    ensures { IfOk result (λ copy. copy ≡ ring.now) }
{
    let mut copy = HeapCircularBuffer::with_capacity(alloc, ring.capacity())?;
    refill(&mut copy, ring);
    Ok(copy)
}

/// How many entries of a ring, whose serials rise, have serials below a number.
pub fn count_below(ring: &Ring, serial: u64) -> usize
    requires { Rising ring.now.items }
    ensures { result ≡ count_by (λ s. nat_lt s.serial serial) ring.now.items }
{
    let mut low = 0;
    let mut high = ring.len();
    while low < high {
        let middle = low + (high - low) / 2;
        if at(ring, middle).serial < serial {
            low = middle + 1;
        } else {
            high = middle;
        }
    }
    low
}

/// The entries of a list and those of a ring, whose serials rise: each of the ring is placed before
/// the first that has a greater serial. The only error is that memory ran out.
pub fn merge(
    alloc: Global,
    list: &[StampedEntry],
    ring: &Ring,
) -> Result<Vec<StampedEntry>, AllocError>
    requires { Rising ring.now.items }
    ensures { IfOk result (λ all. all.items ≡ all_placed list.now ring.now.items) }
{
    let mut all = Vec::with_capacity(alloc, list.len() + ring.len())?;
    let mut next = 0;
    for i in 0..ring.len() {
        let entry = at(ring, i);
        while next < list.len() && list[next].serial <= entry.serial {
            all.push(list[next])?;
            next += 1;
        }
        all.push(*entry)?;
    }
    all.extend_from_slice(&list[next..])?;
    Ok(all)
}

/// A serial, moved down by a gap where it is not below `from`.
fn lowered(from: u64, gap: u64, serial: u64) -> u64
    ensures { result ≡ lowered from gap serial }
{
    if serial < from {
        serial
    } else {
        serial.saturating_sub(gap)
    }
}

/// Moves the serials of a ring that are not below `from` down by a gap.
pub fn shift(ring: &mut Ring, from: u64, gap: u64)
    ensures { ring.new ≡ shifted_ring from gap ring.old }
{
    for _ in 0..ring.len() {
        let first = take_front(ring);
        let serial = lowered(from, gap, first.serial);
        let entry = first.entry;
        append(ring, StampedEntry { serial, entry });
    }
}

/// An entry's serial where it is not below `from` and less than `most`, otherwise `most`.
fn lesser(from: u64, most: u64, stamped: &StampedEntry) -> u64
    ensures { result ≡ lesser from most stamped.now }
{
    if from <= stamped.serial && stamped.serial < most {
        stamped.serial
    } else {
        most
    }
}

/// The least of `most` and the serials of a ring that are not below `from`.
pub fn least_in(ring: &Ring, from: u64, most: u64) -> u64
    ensures { result ≡ fold (lesser from) most ring.now.items }
{
    let mut least = most;
    for i in 0..ring.len() {
        let stamped = at(ring, i);
        least = lesser(from, least, stamped);
    }
    least
}
