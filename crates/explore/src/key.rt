//! The key of a state.
ghost use Rattle.std.specs.Prelude.{◌≡◌, ℕ, ◌+◌, ◌<◌, ◌≤◌, ◌++◌, [], ◌∷◌, List, IfOk, OnOk, Some, false, true, map, nat_eq, option_map, slice_get, slice_index};
ghost use Rattle.std.specs.List.{range_with_len};
ghost use Rattle.lines_layout.specs.Lines.{max_words};
ghost use Rattle.explore.specs.Codes.{coded};
ghost use Rattle.explore.specs.Keys.{base_image, canonical_key, cpus_key, entries_key, entry_key, fallen_key, fallen_memory_key, head_key, key_at, key_of, list_key, memory_key, pending_key, pending_list_key, pendings_key, registers_key, restarted_key};
ghost use Rattle.explore.specs.Outcomes.{trap_numbers};

use crate::canonical::canonical;
use crate::codes::{push_number, push_numbers};
use crate::numbers::flag;
use crate::sets_key::{push_no_others, push_sets};
use images::Image;
use isa::Reg;
use lines_layout::{LINE_WORDS, WordId};
use machine::View;
use persist_buffer::{Pending, PendingEntry};
use std::alloc::{AllocError, Global};
use std::marker::Model;
use store_buffer::Entry;

/// The bytes of a processor that a crash has restarted: all are 0 but the second, since it recovers.
const RESTARTED: [u8; 14] = [0, 1, 0, 0, 0, 0, 0, 0, 0, 0, 0, 0, 0, 0];

/// How many bytes a key has room for at first: more than most take. Only time depends on it.
pub(crate) const ROOM: usize = 256;

/// Bytes that tell a state from others of the same machine.
#[derive(Debug, Drop)]
pub(crate) struct Key {
    bytes: Vec<u8>,
}

impl Model for Key {
    ghost Value = { List ℕ };

    ghost view = { λ k. k.bytes.items };
}

impl Key {
    /// The key of these bytes, with no room to spare.
    fn of(alloc: Global, bytes: &[u8]) -> Result<Key, AllocError>
        ensures { IfOk result (λ key. key ≡ bytes.now) }
    {
        Ok(Key {
            bytes: Vec::from_slice(alloc, bytes)?,
        })
    }

    /// A key of no bytes, with no room.
    pub(crate) fn empty(alloc: Global) -> Key {
        Key {
            bytes: Vec::new(alloc),
        }
    }

    /// Its bytes.
    pub(crate) fn bytes(&self) -> &[u8]
        ensures { result.now ≡ self.now }
    {
        &self.bytes
    }

    /// The same key again, with no room to spare.
    pub(crate) fn copy(&self, alloc: Global) -> Result<Key, AllocError>
        ensures { IfOk result (λ key. key ≡ self.now) }
    {
        Key::of(alloc, &self.bytes)
    }
}

/// Appends the bytes of an entry of a store buffer.
fn push_entry(bytes: &mut Vec<u8>, entry: Entry) -> Result<(), AllocError>
    ensures { OnOk result (bytes.new.items ≡ bytes.old.items ++ coded (entry_key entry)) }
{
    match entry {
        Entry::Write(word, value) => push_numbers(bytes, &[0, word.number() as u64, value]),
        Entry::Flush(line) => push_numbers(bytes, &[1, line.number() as u64, 0]),
        Entry::FlushOpt(line) => push_numbers(bytes, &[2, line.number() as u64, 0]),
        Entry::Sfence => push_numbers(bytes, &[3, 0, 0]),
    }
}

/// Appends the bytes of a pending entry.
fn push_pending(bytes: &mut Vec<u8>, entry: PendingEntry) -> Result<(), AllocError>
    ensures { OnOk result (bytes.new.items ≡ bytes.old.items ++ coded (pending_key entry)) }
{
    match entry {
        PendingEntry::Write(word, value) => push_numbers(bytes, &[0, word.number() as u64, value]),
        PendingEntry::Marker(line) => push_numbers(bytes, &[1, line.number() as u64, 0]),
    }
}

/// Appends the bytes of each entry.
#[tactic(auto, using(crate::proofs::CodesTell::coded_append))]
fn push_entries(bytes: &mut Vec<u8>, entries: &[Entry]) -> Result<(), AllocError>
    ensures { OnOk result (bytes.new.items ≡ bytes.old.items ++ coded (entries_key entries.now)) }
{
    for entry in entries {
        push_entry(bytes, *entry)?;
    }
    Ok(())
}

/// Appends the bytes of each entry.
#[tactic(auto, using(crate::proofs::CodesTell::coded_append))]
fn push_pendings(bytes: &mut Vec<u8>, entries: &[PendingEntry]) -> Result<(), AllocError>
    ensures { OnOk result (bytes.new.items ≡ bytes.old.items ++ coded (pendings_key entries.now)) }
{
    for entry in entries {
        push_pending(bytes, *entry)?;
    }
    Ok(())
}

/// The place, whether the recovery program runs, and the zero flag of processor p, if there is one.
fn head(view: &View<'_>, p: usize) -> Option<[u64; 3]>
    ensures { result ≡ option_map head_key (slice_get view.now.processors p) }
{
    Some([
        view.place(p)? as u64,
        flag(view.recovering(p)?),
        flag(view.zf(p)?),
    ])
}

/// The values of the registers of processor p, if there is one.
pub(crate) fn registers(view: &View<'_>, p: usize) -> Option<[u64; 8]>
    ensures { result ≡ option_map registers_key (slice_get view.now.processors p) }
{
    Some([
        view.reg(p, Reg::Rax)?,
        view.reg(p, Reg::Rcx)?,
        view.reg(p, Reg::Rdx)?,
        view.reg(p, Reg::Rbx)?,
        view.reg(p, Reg::Rsi)?,
        view.reg(p, Reg::Rdi)?,
        view.reg(p, Reg::R8)?,
        view.reg(p, Reg::R9)?,
    ])
}

/// The numbers of a trap.
pub(crate) fn trap(trap: Option<u64>) -> [u64; 2]
    ensures { result ≡ trap_numbers trap }
{
    match trap {
        None => [0, 0],
        Some(address) => [1, address],
    }
}

/// Appends the bytes of processor p, if there is one.
fn push_processor(bytes: &mut Vec<u8>, view: &View<'_>, p: usize) -> Result<(), AllocError>
    ensures { OnOk result (bytes.new.items ≡ bytes.old.items ++ coded (key_at view.now p)) }
{
    let Some(head) = head(view, p) else {
        return Ok(());
    };
    let Some(registers) = registers(view, p) else {
        return Ok(());
    };
    let Some(buffer) = view.buffer(p) else {
        return Ok(());
    };
    push_numbers(bytes, &head)?;
    push_numbers(bytes, &trap(view.trap(p)))?;
    push_numbers(bytes, &registers)?;
    push_number(bytes, buffer.len() as u64)?;
    push_entries(bytes, buffer)
}

/// Appends the bytes of all processors.
fn push_processors(bytes: &mut Vec<u8>, view: &View<'_>) -> Result<(), AllocError>
    ensures { OnOk result (bytes.new.items ≡ bytes.old.items ++ coded (cpus_key view.now)) }
{
    for p in 0..view.cpus() {
        push_processor(bytes, view, p)?;
    }
    Ok(())
}

/// Appends the bytes of all processors, where a crash has restarted them.
fn push_restarted(bytes: &mut Vec<u8>, view: &View<'_>) -> Result<(), AllocError>
    ensures { OnOk result (bytes.new.items ≡ bytes.old.items ++ coded (restarted_key view.now)) }
{
    for _p in 0..view.cpus() {
        bytes.extend_from_slice(&RESTARTED)?;
    }
    Ok(())
}

/// Appends the persisted values of so many words from this one on.
#[tactic(auto, using(pending_images::proofs::BaseImage::values_next))]
pub(crate) fn push_values(
    words: &mut Vec<u64>,
    start: usize,
    count: usize,
    pending: &Pending,
) -> Result<(), AllocError>
    requires { start + count ≤ max_words }
    ensures { OnOk result
        (words.new.items ≡ words.old.items ++ map (slice_index pending.now.memory.persisted) (range_with_len start count)) }
{
    for place in 0..count {
        let word = WordId::new(start + place).unwrap();
        words.push(pending.persisted(word))?;
    }
    Ok(())
}

/// Appends the persisted values of all words.
#[tactic(auto, using(pending_images::proofs::BaseImage::line_over))]
pub(crate) fn push_image(words: &mut Vec<u64>, pending: &Pending) -> Result<(), AllocError>
    ensures { OnOk result (words.new.items ≡ words.old.items ++ base_image pending.now) }
{
    let counts = pending.shape().words();
    for line in 0..counts.len() {
        push_values(words, LINE_WORDS * line, usize::from(counts[line]), pending)?;
    }
    Ok(())
}

/// Appends the bytes of the persisted values of so many words from this one on.
#[tactic(auto, using(crate::proofs::KeysAreWritten::coded_values_next))]
fn push_value_bytes(
    bytes: &mut Vec<u8>,
    start: usize,
    count: usize,
    pending: &Pending,
) -> Result<(), AllocError>
    requires { start + count ≤ max_words }
    ensures { OnOk result
        (bytes.new.items ≡ bytes.old.items ++ coded (map (slice_index pending.now.memory.persisted) (range_with_len start count))) }
{
    for place in 0..count {
        let word = WordId::new(start + place).unwrap();
        push_number(bytes, pending.persisted(word))?;
    }
    Ok(())
}

/// Appends the bytes of the persisted values of all words.
fn push_image_bytes(bytes: &mut Vec<u8>, pending: &Pending) -> Result<(), AllocError>
    ensures { OnOk result (bytes.new.items ≡ bytes.old.items ++ coded (base_image pending.now)) }
{
    let counts = pending.shape().words();
    for line in 0..counts.len() {
        push_value_bytes(bytes, LINE_WORDS * line, usize::from(counts[line]), pending)?;
    }
    Ok(())
}

/// Appends the bytes of the canonical form of a pending list.
fn push_pending_list(bytes: &mut Vec<u8>, alloc: Global, view: &View<'_>) -> Result<(), AllocError>
    ensures { OnOk result (bytes.new.items ≡ bytes.old.items ++ coded (canonical_key view.now)) }
{
    let Ok(pending) = view.pending_list(alloc) else {
        return Err(AllocError);
    };
    let sorted = canonical(alloc, &pending)?;
    push_number(bytes, sorted.len() as u64)?;
    push_pendings(bytes, &sorted)
}

/// Appends the bytes of the canonical form of the pending list, and of the persisted values.
fn push_canonical(bytes: &mut Vec<u8>, alloc: Global, view: &View<'_>) -> Result<(), AllocError>
    ensures { OnOk result (bytes.new.items ≡ bytes.old.items ++ coded (memory_key false view.now)) }
{
    push_pending_list(bytes, alloc, view)?;
    push_image_bytes(bytes, view.pending())?;
    Ok(())
}

/// The key of a memory whose images are looked at: the canonical form of the pending list, and the persisted values. It has room to
/// spare.
pub(crate) fn list_key(alloc: Global, view: &View<'_>) -> Result<Key, AllocError>
    ensures { IfOk result (λ key. key ≡ list_key view.now) }
{
    let mut bytes = Vec::with_capacity(alloc, ROOM)?;
    push_canonical(&mut bytes, alloc, view)?;
    Ok(Key { bytes })
}

/// Appends the bytes of what is told of a memory: what each line may hold; or the canonical form of the pending list, and the
/// persisted values.
fn push_memory(
    bytes: &mut Vec<u8>,
    alloc: Global,
    sets: bool,
    view: &View<'_>,
) -> Result<(), AllocError>
    ensures { OnOk result (bytes.new.items ≡ bytes.old.items ++ coded (memory_key sets view.now)) }
{
    if sets {
        push_sets(bytes, alloc, view)
    } else {
        push_canonical(bytes, alloc, view)
    }
}

/// The key of a state: one that tells what each line may hold, or the order of what is pending. A list of bytes is room for it.
pub(crate) fn key_in(
    alloc: Global,
    sets: bool,
    view: &View<'_>,
    bytes: &mut Vec<u8>,
) -> Result<Key, AllocError>
    ensures { IfOk result (λ key. key ≡ key_of sets view.now) }
{
    bytes.clear();
    push_processors(bytes, view)?;
    push_memory(bytes, alloc, sets, view)?;
    Key::of(alloc, bytes)
}

/// The key of a state, with room of its own.
pub(crate) fn key_of(alloc: Global, sets: bool, view: &View<'_>) -> Result<Key, AllocError>
    ensures { IfOk result (λ key. key ≡ key_of sets view.now) }
{
    let mut bytes = Vec::with_capacity(alloc, ROOM)?;
    key_in(alloc, sets, view, &mut bytes)
}

/// Appends the bytes of an image, and that no line may hold other values.
fn push_fallen_sets(bytes: &mut Vec<u8>, view: &View<'_>, image: &Image) -> Result<(), AllocError>
    ensures { OnOk result (bytes.new.items ≡ bytes.old.items ++ coded (fallen_memory_key true view.now.shape image.now)) }
{
    push_numbers(bytes, image.values())?;
    push_no_others(bytes, view.pending().shape())?;
    Ok(())
}

/// Appends the bytes of an empty pending list, and of an image.
fn push_fallen_list(bytes: &mut Vec<u8>, image: &Image) -> Result<(), AllocError>
    ensures { OnOk result (bytes.new.items ≡ bytes.old.items ++ coded (pending_list_key [] ++ image.now)) }
{
    push_number(bytes, 0)?;
    push_numbers(bytes, image.values())?;
    Ok(())
}

/// Appends the bytes of what is told of the memory that a crash leaves, where it leaves this image.
fn push_fallen(
    bytes: &mut Vec<u8>,
    sets: bool,
    view: &View<'_>,
    image: &Image,
) -> Result<(), AllocError>
    ensures { OnOk result (bytes.new.items ≡ bytes.old.items ++ coded (fallen_memory_key sets view.now.shape image.now)) }
{
    if sets {
        push_fallen_sets(bytes, view, image)
    } else {
        push_fallen_list(bytes, image)
    }
}

/// Makes a key that of the state that a crash leaves, where it leaves this image. The room that it had is used.
pub(crate) fn make_fallen(
    sets: bool,
    view: &View<'_>,
    image: &Image,
    key: &mut Key,
) -> Result<(), AllocError>
    ensures { OnOk result (key.new ≡ fallen_key sets view.now image.now) }
{
    let bytes = &mut key.bytes;
    bytes.clear();
    push_restarted(bytes, view)?;
    push_fallen(bytes, sets, view, image)?;
    Ok(())
}
