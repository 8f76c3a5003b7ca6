//! Store buffers: which entries are held, which may leave, and what is left when one has left.
use lines_layout::WordId;
use store_buffer::{Buffer, BufferFault, Entry, Mask};

/// The first word of a line.
fn word(line: usize) -> Option<WordId> {
    WordId::new(line.checked_mul(8)?)
}

/// A store of 5 to the first word of a line.
fn write(line: usize) -> Option<Entry> {
    Some(Entry::Write(word(line)?, 5))
}

/// A `clflushopt` of a line.
fn flush_opt(line: usize) -> Option<Entry> {
    Some(Entry::FlushOpt(word(line)?.line()))
}

/// Pushes these entries, oldest first, if each is one.
fn push(buffer: &mut Buffer, entries: &[Option<Entry>]) -> Option<()> {
    for entry in entries {
        buffer.push((*entry)?).ok()?;
    }
    Some(())
}

/// What holds the entries at the first four places, and which entries may leave.
fn waiting(buffer: &Buffer) -> ([Option<usize>; 4], Mask) {
    let holders = [
        buffer.held_by(0),
        buffer.held_by(1),
        buffer.held_by(2),
        buffer.held_by(3),
    ];
    (holders, buffer.free())
}

/// What taking the entry at a place answers.
fn taken(buffer: &mut Buffer, place: usize) -> Result<Entry, BufferFault> {
    buffer.take(place)
}

/// A write of x, a `clflushopt` of its line, a fence and a write of y, where x is on line 0 and y on
/// line 1: what waits at first, and what is refused; what waits once the write of x has left.
fn fenced(buffer: &mut Buffer) -> Option<bool> {
    push(
        buffer,
        &[write(0), flush_opt(0), Some(Entry::Sfence), write(1)],
    )?;
    // The write of x holds all others. So does the fence the last, but the write is older.
    let at_first = waiting(buffer) == ([None, Some(0), Some(0), Some(0)], 0b0001);
    let held = taken(buffer, 3) == Err(BufferFault::Held(0));
    let missing = taken(buffer, 4) == Err(BufferFault::NoEntry);
    let leaves = taken(buffer, 0).ok() == write(0);
    // The `clflushopt` holds the fence now, and the fence the write of y.
    let then = waiting(buffer) == ([None, Some(0), Some(1), None], 0b001);
    Some(at_first && held && missing && leaves && then)
}

/// A write, a `clflushopt` of another line and two writes: the second leaves, and of three writes the
/// first alone may leave.
fn between(buffer: &mut Buffer) -> Option<bool> {
    push(buffer, &[write(0), flush_opt(1), write(1), write(0)])?;
    let at_first = waiting(buffer) == ([None, None, Some(0), Some(0)], 0b0011);
    let leaves = taken(buffer, 1).ok() == flush_opt(1);
    let then = waiting(buffer) == ([None, Some(0), Some(0), None], 0b001);
    Some(at_first && leaves && then)
}

/// A copy, and a buffer that is made equal again after an entry has left, wait for the same; one that is
/// cleared, and one made equal to an empty one, for nothing.
fn equal(kept: &mut Buffer) -> Option<bool> {
    push(kept, &[write(0), write(1), flush_opt(2)])?;
    let mut other = kept.copy();
    let copied = waiting(&other) == waiting(kept);
    let leaves = taken(&mut other, 0).ok() == write(0);
    let then = waiting(&other) == ([None, None, None, None], 0b11);
    other.restore(kept);
    let restored = waiting(&other) == ([None, Some(0), None, None], 0b101);
    other.restore(&Buffer::new());
    let emptied = other.is_empty() && other.free() == 0;
    other.restore(kept);
    other.clear();
    let cleared = other.is_empty() && other.free() == 0;
    let is_pushed = other.push(Entry::Sfence).is_ok();
    let pushed = is_pushed && waiting(&other) == ([None; 4], 0b1);
    Some(copied && leaves && then && restored && emptied && cleared && pushed)
}

#[test]
fn entries_wait_for_those_that_hold_them(rt: HostRuntime) {
    assert!(rt; fenced(&mut Buffer::new()) == Some(true), "behind a fence");
    assert!(rt;
        between(&mut Buffer::new()) == Some(true),
        "from between others"
    );
    assert!(rt;
        equal(&mut Buffer::new()) == Some(true),
        "copied, restored and cleared"
    );
}

/// A write of line 0, 126 times a `clflushopt` of line 1, and a fence: no more than a store buffer has room for.
fn fill(buffer: &mut Buffer) -> Option<()> {
    push(buffer, &[write(0)])?;
    push(buffer, &[flush_opt(1); 126])?;
    push(buffer, &[Some(Entry::Sfence)])
}

/// What holds the entry at a place, and which entries may leave.
fn held_and_free(buffer: &Buffer, place: usize) -> (Option<usize>, Mask) {
    (buffer.held_by(place), buffer.free())
}

/// The write holds the fence alone, and after the write each `clflushopt` does. At the places that are left there is
/// nothing.
fn emptied(buffer: &mut Buffer) -> Option<bool> {
    fill(buffer)?;
    let is_full = buffer.push(Entry::Sfence) == Err(BufferFault::Full);
    let at_first = held_and_free(buffer, 127) == (Some(0), Mask::MAX >> 1);
    let held = taken(buffer, 127) == Err(BufferFault::Held(0));
    let missing = taken(buffer, 128) == Err(BufferFault::NoEntry);
    let last = taken(buffer, 126).ok() == flush_opt(1);
    let then = held_and_free(buffer, 126) == (Some(0), Mask::MAX >> 2);
    let first = taken(buffer, 0).ok() == write(0);
    let behind = held_and_free(buffer, 125) == (Some(0), Mask::MAX >> 3);
    let nothing = buffer.held_by(126).is_none() && buffer.len() == 126;
    let facts = [
        is_full, at_first, held, missing, last, then, first, behind, nothing,
    ];
    Some(facts == [true; 9])
}

#[test]
fn a_full_buffer_is_emptied(rt: HostRuntime) {
    assert!(rt; emptied(&mut Buffer::new()) == Some(true));
}
