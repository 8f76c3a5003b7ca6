//! Entries of store buffers and of the pending list as JSON.
ghost use Rattle.std.specs.Prelude.{IfOk, OnOk};
ghost use Rattle.json_texts.specs.Objects.{list, GetsFields, IsJsonOf};
ghost use Rattle.json_texts.specs.StateData.{buffer_from, entry_data, entry_fields, fence_fields, line_fields, pending_fields, pending_from, sited_data, write_fields};

use crate::fields::{Fields, put_number, put_text};
use crate::reasons::where_or_null;
use crate::source_map::SourceMap;
use commands::word_name;
use image_reasons::{Origins, Site};
use lines_layout::{Layout, LineId, WordId};
use machine::{Entry, PendingEntry};
use serde_json::{Value, push, put};
use std::alloc::{AllocError, Global};

/// Puts a write into an object.
fn put_write(
    fields: &mut Fields,
    alloc: Global,
    layout: &Layout,
    word: WordId,
    value: u64,
) -> Result<(), AllocError>
    ensures { OnOk result (GetsFields fields.old.entries fields.new.entries
        (write_fields layout.now word value)) }
{
    put_text(fields, alloc, "kind", "W")?;
    put_text(fields, alloc, "word", word_name(layout, word))?;
    put_number(fields, alloc, "value", value)
}

/// Puts what is of a cache line into an object.
fn put_line(fields: &mut Fields, alloc: Global, kind: &str, line: LineId) -> Result<(), AllocError>
    ensures { OnOk result (GetsFields fields.old.entries fields.new.entries
        (line_fields kind.now line)) }
{
    put_text(fields, alloc, "kind", kind)?;
    put_number(fields, alloc, "cache_line", line.number() as u64)
}

/// Puts a store fence into an object.
fn put_fence(fields: &mut Fields, alloc: Global) -> Result<(), AllocError>
    ensures { OnOk result (GetsFields fields.old.entries fields.new.entries fence_fields) }
{
    put_text(fields, alloc, "kind", "SF")
}

/// Puts an entry of a store buffer into an object.
fn put_entry(
    fields: &mut Fields,
    alloc: Global,
    layout: &Layout,
    entry: Entry,
) -> Result<(), AllocError>
    ensures { OnOk result (GetsFields fields.old.entries fields.new.entries
        (entry_fields layout.now entry)) }
{
    match entry {
        Entry::Write(word, value) => put_write(fields, alloc, layout, word, value),
        Entry::Flush(line) => put_line(fields, alloc, "FL", line),
        Entry::FlushOpt(line) => put_line(fields, alloc, "FO", line),
        Entry::Sfence => put_fence(fields, alloc),
    }
}

/// Puts an entry of the pending list into an object.
fn put_pending(
    fields: &mut Fields,
    alloc: Global,
    layout: &Layout,
    entry: PendingEntry,
) -> Result<(), AllocError>
    ensures { OnOk result (GetsFields fields.old.entries fields.new.entries
        (pending_fields layout.now entry)) }
{
    match entry {
        PendingEntry::Write(word, value) => put_write(fields, alloc, layout, word, value),
        PendingEntry::Marker(line) => put_line(fields, alloc, "PER", line),
    }
}

/// An entry of a store buffer.
///
/// # Errors
///
/// Out of memory.
pub fn entry_value(alloc: Global, layout: &Layout, entry: Entry) -> Result<Value, AllocError>
    ensures { IfOk result (IsJsonOf (entry_data layout.now entry)) }
{
    let mut fields = Fields::new(alloc);
    put_entry(&mut fields, alloc, layout, entry)?;
    Ok(Value::from(fields))
}

/// The same with the instruction that it is of, if that is known.
fn buffered_value(
    alloc: Global,
    source: &SourceMap<'_>,
    entry: Entry,
    site: Option<Site>,
) -> Result<Value, AllocError>
    ensures { IfOk result (IsJsonOf
        (sited_data source.now.lines (entry_fields source.now.names entry) site)) }
{
    let site = where_or_null(alloc, source.lines, site)?;
    let mut fields = Fields::new(alloc);
    put(&mut fields, alloc, "site", site)?;
    put_entry(&mut fields, alloc, source.layout, entry)?;
    Ok(Value::from(fields))
}

/// The same of an entry of the pending list.
fn pended_value(
    alloc: Global,
    source: &SourceMap<'_>,
    entry: PendingEntry,
    site: Option<Site>,
) -> Result<Value, AllocError>
    ensures { IfOk result (IsJsonOf
        (sited_data source.now.lines (pending_fields source.now.names entry) site)) }
{
    let site = where_or_null(alloc, source.lines, site)?;
    let mut fields = Fields::new(alloc);
    put(&mut fields, alloc, "site", site)?;
    put_pending(&mut fields, alloc, source.layout, entry)?;
    Ok(Value::from(fields))
}

/// The entries of processor p's store buffer, oldest first.
#[tactic(auto, using(crate::proofs::Items::list_steps))]
pub(crate) fn buffer_value(
    alloc: Global,
    source: &SourceMap<'_>,
    origins: &Origins,
    p: usize,
    buffer: &[Entry],
) -> Result<Value, AllocError>
    ensures { IfOk result (IsJsonOf (list (buffer_from source.now origins.now p 0 buffer.now))) }
{
    let mut items = Vec::new(alloc);
    for (place, entry) in buffer.iter().enumerate() {
        let site = origins.buffered_site(p, place);
        push(&mut items, buffered_value(alloc, source, *entry, site)?)?;
    }
    Ok(Value::from(items))
}

/// The entries of the pending list, oldest first.
#[tactic(auto, using(crate::proofs::Items::list_steps))]
pub(crate) fn pending_value(
    alloc: Global,
    source: &SourceMap<'_>,
    origins: &Origins,
    pending: &[PendingEntry],
) -> Result<Value, AllocError>
    ensures { IfOk result (IsJsonOf (list (pending_from source.now origins.now 0 pending.now))) }
{
    let mut items = Vec::new(alloc);
    for (place, entry) in pending.iter().enumerate() {
        let site = origins.pending_site(place);
        push(&mut items, pended_value(alloc, source, *entry, site)?)?;
    }
    Ok(Value::from(items))
}
