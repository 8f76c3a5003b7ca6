//! The memories at the fences of a straight-line program.
ghost use Rattle.std.specs.Prelude.{◌≡◌, ◌++◌, IfOk, OnOk, [], ◌∷◌, length, map};
ghost use Rattle.lines_layout.specs.Lines.{max_words};
ghost use Rattle.explore.specs.FenceMemories.{fence_memories, flushes, is_flushed, memory_in, pending_in, unflushed, with_flushed};

use crate::event::Event;
use lines_layout::LineId;
use persist_buffer::PendingEntry;
use std::alloc::{AllocError, Global};
use store_buffer::Entry;

/// A memory as a crash finds it.
#[derive(Debug, Drop)]
pub struct CrashMemory {
    /// What is pending, oldest first.
    pub pending: Vec<PendingEntry>,
    /// The persisted value of each word, by its number.
    pub persisted: Vec<u64>,
}

/// Whether an entry is a flush of a line, of either kind.
fn flushes(line: LineId, entry: &Entry) -> bool
    ensures { result ≡ flushes line entry.now }
{
    match entry {
        Entry::Flush(other) | Entry::FlushOpt(other) => other.number() == line.number(),
        Entry::Write(..) | Entry::Sfence => false,
    }
}

/// Whether one of these entries is.
fn is_flushed(line: LineId, entries: &[Entry]) -> bool
    ensures { result ≡ is_flushed line entries.now }
{
    for entry in entries {
        if flushes(line, entry) {
            return true;
        }
    }
    false
}

/// What is pending at the end of a window, before the fence.
fn pending_in(alloc: Global, window: &[Entry]) -> Result<Vec<PendingEntry>, AllocError>
    ensures { IfOk result (λ pending. pending.items ≡ pending_in window.now) }
{
    let mut pending = Vec::new(alloc);
    for entry in window {
        match entry {
            Entry::Write(word, value) => pending.push(PendingEntry::Write(*word, *value))?,
            Entry::Flush(line) => pending.push(PendingEntry::Marker(*line))?,
            Entry::FlushOpt(_) | Entry::Sfence => {}
        }
    }
    Ok(pending)
}

/// The writes that no flush of their line follows.
fn unflushed(alloc: Global, window: &[Entry]) -> Result<Vec<Entry>, AllocError>
    ensures { IfOk result (λ kept. kept.items ≡ unflushed window.now) }
{
    let mut kept = Vec::new(alloc);
    for i in 0..window.len() {
        let entry = window[i];
        if let Entry::Write(word, _) = entry {
            if !is_flushed(word.line(), &window[i + 1..]) {
                kept.push(entry)?;
            }
        }
    }
    Ok(kept)
}

/// The other writes persist.
fn persist_flushed(window: &[Entry], persisted: &mut [u64])
    requires { length persisted.old ≡ max_words }
    ensures { persisted.new ≡ with_flushed window.now persisted.old }
{
    for i in 0..window.len() {
        if let Entry::Write(word, value) = window[i] {
            if is_flushed(word.line(), &window[i + 1..]) {
                persisted[word.number()] = value;
            }
        }
    }
}

/// The memory at the end of a window, before the fence.
fn memory_of(alloc: Global, window: &[Entry], persisted: &[u64]) -> Result<CrashMemory, AllocError>
    ensures { IfOk result (λ memory. memory_in memory ≡ record { pending = pending_in window.now; persisted = persisted.now }) }
{
    let pending = pending_in(alloc, window)?;
    let mut values = Vec::new(alloc);
    values.extend_from_slice(persisted)?;
    Ok(CrashMemory {
        pending,
        persisted: values,
    })
}

/// A fence ends a window: its memory is found, what was flushed is persisted, and the other writes begin the next window.
fn end_window(
    alloc: Global,
    found: &mut Vec<CrashMemory>,
    window: &mut Vec<Entry>,
    persisted: &mut [u64],
) -> Result<(), AllocError>
    requires { length persisted.old ≡ max_words }
    ensures found { OnOk result (map memory_in found.new.items
        ≡ map memory_in found.old.items ++ record { pending = pending_in window.old.items; persisted = persisted.old } ∷ []) }
    ensures window { OnOk result (window.new.items ≡ unflushed window.old.items) }
    ensures persisted { OnOk result (persisted.new ≡ with_flushed window.old.items persisted.old) }
{
    found.push(memory_of(alloc, window, persisted)?)?;
    persist_flushed(window, persisted);
    *window = unflushed(alloc, window)?;
    Ok(())
}

/// The memories at the fences of a straight-line program that begins with these persisted values, and with nothing buffered or
/// pending: one for each fence, in their order, and one for the end.
pub fn find_memories(
    alloc: Global,
    events: &[Event],
    persisted: &[u64],
) -> Result<Vec<CrashMemory>, AllocError>
    requires { length persisted.now ≡ max_words }
    ensures { IfOk result (λ found. map memory_in found.items ≡ fence_memories events.now persisted.now) }
{
    let mut found = Vec::new(alloc);
    let mut window = Vec::new(alloc);
    let mut values = Vec::new(alloc);
    values.extend_from_slice(persisted)?;
    for event in events {
        match event {
            Event::Delayed(Entry::Sfence) | Event::Waited => {
                end_window(alloc, &mut found, &mut window, &mut values)?;
            }
            Event::Delayed(entry) => window.push(*entry)?,
            Event::LockedWrite(word, value) => {
                end_window(alloc, &mut found, &mut window, &mut values)?;
                window.push(Entry::Write(*word, *value))?;
            }
        }
    }
    found.push(memory_of(alloc, &window, &values)?)?;
    Ok(found)
}
