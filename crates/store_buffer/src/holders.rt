//! Which entries an earlier one holds back, and which may leave.
ghost use Rattle.std.specs.Prelude.{◌≡◌, ◌+◌, ◌<◌, ◌≤◌, length, map, IfSome};
ghost use Rattle.store_buffer.specs.Buffers.{buffer_room, holder_at, free_places};
ghost use Rattle.store_buffer.specs.Indexes.{operation_of, free_before};

use crate::entry::{Entry, kind_of, line_named};
use order_table::{Mask, Masks, holder};

/// The place of the oldest entry that holds back the one at place i; None where nothing does, and
/// where no entry is there.
pub fn held_by(operations: &Masks, entries: &[Entry], i: usize) -> Option<usize>
    requires { operations.now ≡ map operation_of entries.now }
    ensures value { result ≡ holder_at entries.now i }
    ensures earlier { IfSome result (λ holder. holder < i) }
{
    let entry = entries.get(i)?;
    holder(operations, i, kind_of(entry), line_named(entry))
}

/// The places whose entries may leave.
pub fn free_places(operations: &Masks, entries: &[Entry]) -> Mask
    requires operations { operations.now ≡ map operation_of entries.now }
    requires room { length entries.now ≤ buffer_room }
    ensures { result ≡ free_places entries.now }
{
    let mut free = 0;
    for place in 0..entries.len() {
        free = with_place(free, operations, entries, place);
        if let Entry::Sfence = entries[place] {
            // It holds each later entry.
            return free;
        }
    }
    free
}

/// The mask, and in it this place too where its entry may leave.
pub fn with_place(free: Mask, operations: &Masks, entries: &[Entry], place: usize) -> Mask
    requires operations { operations.now ≡ map operation_of entries.now }
    requires room { length entries.now ≤ buffer_room }
    requires there { place < length entries.now }
    requires before { free ≡ free_before entries.now place }
    ensures { result ≡ free_before entries.now (place + 1) }
{
    if held_by(operations, entries, place).is_none() {
        free | 1 << place
    } else {
        free
    }
}
