//! Why writes are missing in an image, and an instruction that is put into a program, as JSON.
ghost use Rattle.std.specs.Prelude.{◌≡◌, IfOk};
ghost use Rattle.image_reasons.specs.Reasons.{missing_found};
ghost use Rattle.json_texts.specs.Objects.{or_null, IsJsonOf};
ghost use Rattle.json_texts.specs.ReasonData.{all_missing_data, explained_data, missing_data, missing_if, put_data, reason_behind, reason_flush, reason_name, reason_passed, side_name, told_data, why_data};
ghost use Rattle.json_texts.specs.StateData.{where_data, where_if};

use crate::cpus::put_site;
use crate::fields::Fields;
use crate::source_map::SourceMap;
use crate::steps::instruction_value;
use commands::word_name;
use image_reasons::{Missing, Repair, Side, Site, Why};
use litmus_text::TextLines;
use serde_json::{Value, json, push};
use std::alloc::{AllocError, Global};

/// Where an instruction stands, with its line.
fn where_value(alloc: Global, lines: &TextLines, site: Site) -> Result<Value, AllocError>
    ensures { IfOk result (IsJsonOf (where_data lines.now site)) }
{
    let processor = site.processor as usize;
    let mut fields = Fields::new(alloc);
    put_site(
        &mut fields,
        alloc,
        lines,
        processor,
        site.recovering,
        site.place,
    )?;
    Ok(Value::from(fields))
}

/// The same of one that may be absent.
pub(crate) fn where_or_null(
    alloc: Global,
    lines: &TextLines,
    site: Option<Site>,
) -> Result<Value, AllocError>
    ensures { IfOk result (IsJsonOf (where_if lines.now site)) }
{
    match site {
        Some(site) => where_value(alloc, lines, site),
        None => Ok(Value::Null),
    }
}

/// Which reason it is.
fn reason_name(why: Why) -> &'static str
    ensures { result.now ≡ reason_name why }
{
    match why {
        Why::InStoreBuffer => "in the store buffer",
        Why::StoredAfter(_) => "stored after",
        Why::FlushPending(_) => "flush pending",
        Why::FlushBuffered(..) => "flush buffered",
        Why::FlushBehind(..) => "flush behind",
        Why::FlushedBefore(_) => "flushed before",
        Why::NeverFlushed => "never flushed",
    }
}

/// The flush that a reason is of.
fn reason_flush(why: Why) -> Option<Site>
    ensures { result ≡ reason_flush why }
{
    match why {
        Why::FlushPending(flush)
        | Why::FlushBuffered(flush, _)
        | Why::FlushBehind(flush, _)
        | Why::FlushedBefore(flush) => Some(flush),
        Why::InStoreBuffer | Why::StoredAfter(_) | Why::NeverFlushed => None,
    }
}

/// The store that has passed that flush.
fn reason_passed(why: Why) -> Option<Site>
    ensures { result ≡ reason_passed why }
{
    match why {
        Why::FlushBuffered(_, passed) => passed,
        _ => None,
    }
}

/// The store that the image has, and that the write or its flush is behind.
fn reason_behind(why: Why) -> Option<Site>
    ensures { result ≡ reason_behind why }
{
    match why {
        Why::StoredAfter(store) | Why::FlushBehind(_, store) => Some(store),
        _ => None,
    }
}

/// Why a write may be missing.
fn why_value(alloc: Global, lines: &TextLines, why: Why) -> Result<Value, AllocError>
    ensures { IfOk result (IsJsonOf (why_data lines.now why)) }
{
    let flush = where_or_null(alloc, lines, reason_flush(why))?;
    let passed = where_or_null(alloc, lines, reason_passed(why))?;
    let behind = where_or_null(alloc, lines, reason_behind(why))?;
    json!(in alloc; {"reason": reason_name(why), "flush": flush, "passed": passed, "behind": behind})
}

/// A write that is missing.
fn missing_value(
    alloc: Global,
    source: &SourceMap<'_>,
    missing: &Missing,
) -> Result<Value, AllocError>
    ensures { IfOk result (IsJsonOf (missing_data source.now missing.now)) }
{
    let word = word_name(source.layout, missing.word);
    let site = where_value(alloc, source.lines, missing.site)?;
    let why = why_value(alloc, source.lines, missing.why)?;
    json!(in alloc; {"word": word, "value": missing.value, "site": site, "why": why})
}

/// The same, and whether it is told that it alone is enough.
///
/// # Errors
///
/// Out of memory.
pub fn told_value(
    alloc: Global,
    source: &SourceMap<'_>,
    missing: &Missing,
    enough: bool,
) -> Result<Value, AllocError>
    ensures { IfOk result (IsJsonOf (told_data source.now missing.now enough)) }
{
    let word = word_name(source.layout, missing.word);
    let site = where_value(alloc, source.lines, missing.site)?;
    let why = why_value(alloc, source.lines, missing.why)?;
    json!(in alloc; {"word": word, "value": missing.value, "site": site, "why": why, "enough": enough})
}

/// Writes that are missing, in their order.
#[tactic(auto, using(crate::proofs::Items::list_steps))]
fn all_missing_value(
    alloc: Global,
    source: &SourceMap<'_>,
    missing: &[Missing],
) -> Result<Value, AllocError>
    ensures { IfOk result (IsJsonOf (all_missing_data source.now missing.now)) }
{
    let mut items = Vec::new(alloc);
    for write in missing {
        push(&mut items, missing_value(alloc, source, write)?)?;
    }
    Ok(Value::from(items))
}

/// The writes that are missing in an image, if it is one of the state.
///
/// # Errors
///
/// Out of memory.
pub fn missing_or_null(
    alloc: Global,
    source: &SourceMap<'_>,
    missing: &Option<Vec<Missing>>,
) -> Result<Value, AllocError>
    ensures { IfOk result (IsJsonOf (missing_if source.now (missing_found missing.now))) }
{
    match missing {
        Some(missing) => all_missing_value(alloc, source, missing),
        None => Ok(Value::Null),
    }
}

/// An image explained: the writes that are missing in it, if it is one of the state.
///
/// # Errors
///
/// Out of memory.
pub fn explained_value(
    alloc: Global,
    source: &SourceMap<'_>,
    missing: &Option<Vec<Missing>>,
) -> Result<Value, AllocError>
    ensures { IfOk result (IsJsonOf (explained_data source.now (missing_found missing.now))) }
{
    let missing = missing_or_null(alloc, source, missing)?;
    json!(in alloc; {"missing": missing})
}

/// A side of an instruction.
fn side_name(side: Side) -> &'static str
    ensures { result.now ≡ side_name side }
{
    match side {
        Side::Before => "before",
        Side::Behind => "behind",
    }
}

/// An instruction that is put into a program: on which side of the one that stands where.
///
/// # Errors
///
/// Out of memory.
pub fn put_value(alloc: Global, source: &SourceMap<'_>, repair: Repair) -> Result<Value, AllocError>
    ensures { IfOk result (IsJsonOf (put_data source.now repair)) }
{
    let site = where_value(alloc, source.lines, repair.site)?;
    let instr = instruction_value(alloc, source.layout, repair.instr)?;
    json!(in alloc; {"side": side_name(repair.side), "site": site, "instruction": instr})
}
