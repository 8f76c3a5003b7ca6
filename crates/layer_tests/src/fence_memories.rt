//! The memories at the fences of straight-line programs. All rows are worked out by hand, from the rules of docs/MODEL.md.
use explore::{CrashMemory, Event, find_memories};
use lines_layout::WordId;
use persist_buffer::PendingEntry;
use std::alloc::Global;
use std::test::Fail;
use store_buffer::Entry;

/// An `sfence`.
const SFENCE: Option<Event> = Some(Event::Delayed(Entry::Sfence));
/// An `mfence`.
const MFENCE: Option<Event> = Some(Event::Waited);

/// A store to the word of a number. Words 0 and 1 lie on line 0, word 8 on line 1.
fn store(number: usize, value: u64) -> Option<Event> {
    Some(Event::Delayed(Entry::Write(WordId::new(number)?, value)))
}

/// A `clwb` of the line of the word of a number.
fn clwb(number: usize) -> Option<Event> {
    Some(Event::Delayed(Entry::FlushOpt(WordId::new(number)?.line())))
}

/// A `clflush` of that line.
fn clflush(number: usize) -> Option<Event> {
    Some(Event::Delayed(Entry::Flush(WordId::new(number)?.line())))
}

/// A locked operation that writes a value to the word of a number.
fn locked(number: usize, value: u64) -> Option<Event> {
    Some(Event::LockedWrite(WordId::new(number)?, value))
}

/// A pending write to the word of a number.
fn write(number: usize, value: u64) -> Option<PendingEntry> {
    Some(PendingEntry::Write(WordId::new(number)?, value))
}

/// A marker of the line of the word of a number.
fn marker(number: usize) -> Option<PendingEntry> {
    Some(PendingEntry::Marker(WordId::new(number)?.line()))
}

/// The memories of a program that begins with all words 0.
fn found(alloc: Global, events: &[Option<Event>]) -> Option<Vec<CrashMemory>> {
    let mut program = Vec::new(alloc);
    for event in events {
        program.push((*event)?).ok()?;
    }
    find_memories(alloc, &program, &[0; 512]).ok()
}

/// What a memory is to have: pending entries, and the persisted values of words 0, 1 and 8. All other words are 0.
type Row<'a> = (&'a [Option<PendingEntry>], [u64; 3]);

/// Whether a memory has it.
fn has(memory: &CrashMemory, row: &Row<'_>) -> bool {
    let (pending, [first, second, other_line]) = *row;
    let mut persisted = [0; 512];
    persisted[0] = first;
    persisted[1] = second;
    persisted[8] = other_line;
    memory.pending.len() == pending.len()
        && memory.persisted.as_slice() == persisted.as_slice()
        && memory
            .pending
            .iter()
            .zip(pending)
            .all(|(entry, of)| Some(*entry) == *of)
}

/// Whether a program has these memories, in this order.
fn are(alloc: Global, events: &[Option<Event>], rows: &[Row<'_>]) -> bool {
    match found(alloc, events) {
        Some(memories) => {
            memories.len() == rows.len()
                && memories
                    .iter()
                    .zip(rows)
                    .all(|(memory, row)| has(memory, row))
        }
        None => false,
    }
}

/// A log of one record, word 0, whose count is word 8: the record is flushed, and behind a fence the count is stored and
/// flushed. No memory leaves the count without the record: where the count is pending, the record is persisted.
#[test]
fn a_log_with_its_fence(rt: HostRuntime) -> Result<(), Fail> {
    let events = [store(0, 7), clwb(0), SFENCE, store(8, 1), clwb(8), SFENCE];
    let (record, count) = ([write(0, 7)], [write(8, 1)]);
    let rows: [Row<'_>; 3] = [(&record, [0, 0, 0]), (&count, [7, 0, 0]), (&[], [7, 0, 1])];
    assert!(rt; are(rt.alloc(), &events, &rows));
    Ok(())
}

/// The same without the fence between: a crash may leave the count alone.
#[test]
fn a_log_without_its_fence(rt: HostRuntime) -> Result<(), Fail> {
    let events = [store(0, 7), clwb(0), store(8, 1), clwb(8), SFENCE];
    let both = [write(0, 7), write(8, 1)];
    let rows: [Row<'_>; 2] = [(&both, [0, 0, 0]), (&[], [7, 0, 1])];
    assert!(rt; are(rt.alloc(), &events, &rows));
    Ok(())
}

/// A store behind the `clwb` of its line is not flushed by it: it is pending behind the fence too, and at the end, where a
/// later fence has no flush of it.
#[test]
fn a_store_behind_a_clwb_of_its_line(rt: HostRuntime) -> Result<(), Fail> {
    let events = [store(0, 1), clwb(0), store(1, 2), SFENCE, SFENCE];
    let (both, second) = ([write(0, 1), write(1, 2)], [write(1, 2)]);
    let rows: [Row<'_>; 3] = [
        (&both, [0, 0, 0]),
        (&second, [1, 0, 0]),
        (&second, [1, 0, 0]),
    ];
    assert!(rt; are(rt.alloc(), &events, &rows));
    Ok(())
}

/// A flush flushes what an earlier window stored, and of two stores of a word the later stays.
#[test]
fn a_flush_in_a_later_window(rt: HostRuntime) -> Result<(), Fail> {
    let events = [store(0, 1), SFENCE, store(0, 2), clwb(1), MFENCE];
    let (first, both) = ([write(0, 1)], [write(0, 1), write(0, 2)]);
    let rows: [Row<'_>; 3] = [(&first, [0, 0, 0]), (&both, [0, 0, 0]), (&[], [2, 0, 0])];
    assert!(rt; are(rt.alloc(), &events, &rows));
    Ok(())
}

/// A locked operation is a fence, and what it writes comes behind that.
#[test]
fn a_locked_operation(rt: HostRuntime) -> Result<(), Fail> {
    let events = [store(0, 1), clwb(0), locked(1, 5)];
    let (before, behind) = ([write(0, 1)], [write(1, 5)]);
    let rows: [Row<'_>; 2] = [(&before, [0, 0, 0]), (&behind, [1, 0, 0])];
    assert!(rt; are(rt.alloc(), &events, &rows));
    Ok(())
}

/// An `mfence` is a fence as an `sfence` is.
#[test]
fn an_mfence(rt: HostRuntime) -> Result<(), Fail> {
    let events = [store(8, 3), clwb(8), MFENCE, store(0, 1)];
    let (before, behind) = ([write(8, 3)], [write(0, 1)]);
    let rows: [Row<'_>; 2] = [(&before, [0, 0, 0]), (&behind, [0, 0, 3])];
    assert!(rt; are(rt.alloc(), &events, &rows));
    Ok(())
}

/// A `clflush` orders what follows it without a fence, which a `clwb` does not: its marker is pending.
#[test]
fn a_clflush(rt: HostRuntime) -> Result<(), Fail> {
    let events = [store(0, 1), clflush(0), store(8, 2), clwb(8), store(1, 3)];
    let pending = [write(0, 1), marker(0), write(8, 2), write(1, 3)];
    let rows: [Row<'_>; 1] = [(&pending, [0, 0, 0])];
    assert!(rt; are(rt.alloc(), &events, &rows));
    Ok(())
}
