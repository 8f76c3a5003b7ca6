//! The text of an image: its words by name, the writes that are missing in it, and why each may be.
ghost use Rattle.std.specs.Prelude.{◌≡◌, ◌++◌, IfOk, OnOk, string_bytes};
ghost use Rattle.std.specs.List.{flat_map};
ghost use Rattle.image_reasons.specs.Reasons.{missing_found};
ghost use Rattle.commands.specs.MissingTexts.{after_text, behind_text, flushed_text, image_explained, image_lines, image_named, line_of, missing_line, missing_lines, missing_text, passed_text, place_text, preposition, there_between, there_text, where_text, why_text, word_text, written_text};

use crate::outcome_text::{Named, push_named};
use crate::state_text::{push_site, word_name};
use image_reasons::{Missing, Site, Why, missing_writes};
use images::Image;
use isa::Object;
use lines_layout::Layout;
use litmus_text::TextLines;
use machine::Step;
use std::alloc::{AllocError, Global};

/// What is said of a flush that is pending.
const STUCK: &str = "; the flush has left the store buffer, and nothing after it has persisted";

/// The value behind a word's name.
struct Values;

impl Named<u64> for Values {
    ghost text_of = { word_text };

    fn push(text: &mut String, name: &str, value: u64) -> Result<(), AllocError> {
        write!(text, " {name} {value}")
    }
}

/// Appends where an instruction is: the line on which it stands; or else its processor, program and place.
fn push_place(text: &mut String, site: Site, line: Option<u64>) -> Result<(), AllocError>
    ensures { OnOk result (string_bytes text.new ≡ string_bytes text.old ++ place_text site line) }
{
    match line {
        Some(number) => write!(text, "line {number}"),
        None => push_site(text, site.processor as usize, site.recovering, site.place),
    }
}

/// The word before it.
fn preposition(line: Option<u64>) -> &'static str
    ensures { result.now ≡ preposition line }
{
    match line {
        Some(_) => " on ",
        None => " at ",
    }
}

/// The line of an instruction, if it stands on one.
fn line_of(lines: &TextLines, site: Site) -> Option<u64>
    ensures { result ≡ line_of lines.now site }
{
    lines.line_at(site.processor as usize, site.recovering, site.place)
}

/// Appends where an instruction stands: its line, where the program is a text, and otherwise its site. The only error is out of
/// memory.
pub fn push_where(text: &mut String, lines: &TextLines, site: Site) -> Result<(), AllocError>
    ensures { OnOk result (string_bytes text.new ≡ string_bytes text.old ++ where_text lines.now site) }
{
    push_place(text, site, line_of(lines, site))
}

/// Appends the same after a word of a sentence.
fn push_there(text: &mut String, lines: &TextLines, site: Site) -> Result<(), AllocError>
    ensures { OnOk result (string_bytes text.new ≡ string_bytes text.old ++ there_text lines.now site) }
{
    let line = line_of(lines, site);
    text.push_str(preposition(line))?;
    push_place(text, site, line)
}

/// Appends where an instruction is, between two texts.
fn push_between(
    text: &mut String,
    lines: &TextLines,
    before: &str,
    site: Site,
    after: &str,
) -> Result<(), AllocError>
    ensures { OnOk result (string_bytes text.new ≡ string_bytes text.old ++ there_between lines.now before.now site after.now) }
{
    text.push_str(before)?;
    push_there(text, lines, site)?;
    text.push_str(after)
}

/// Appends a flush, and what is said of it.
fn push_flushed(
    text: &mut String,
    lines: &TextLines,
    flush: Site,
    said: &str,
) -> Result<(), AllocError>
    ensures { OnOk result (string_bytes text.new ≡ string_bytes text.old ++ flushed_text lines.now flush said.now) }
{
    push_between(text, lines, "flushed", flush, said)
}

/// Appends which store has passed a flush, if one has.
fn push_passed(text: &mut String, lines: &TextLines, passed: Option<Site>) -> Result<(), AllocError>
    ensures { OnOk result (string_bytes text.new ≡ string_bytes text.old ++ passed_text lines.now passed) }
{
    match passed {
        Some(store) => push_between(text, lines, ", and the store", store, " has passed it"),
        None => Ok(()),
    }
}

/// Appends behind which store a flush is.
fn push_behind(text: &mut String, lines: &TextLines, store: Site) -> Result<(), AllocError>
    ensures { OnOk result (string_bytes text.new ≡ string_bytes text.old ++ behind_text lines.now store) }
{
    push_between(
        text,
        lines,
        ", behind the store",
        store,
        " that has persisted",
    )
}

/// Appends after which store of its line a write was stored.
fn push_after(text: &mut String, lines: &TextLines, store: Site) -> Result<(), AllocError>
    ensures { OnOk result (string_bytes text.new ≡ string_bytes text.old ++ after_text lines.now store) }
{
    text.push_str("stored after ")?;
    push_where(text, lines, store)?;
    text.push_str(", on the same cache line")
}

/// Appends why a write may be missing.
fn push_why(text: &mut String, lines: &TextLines, why: Why) -> Result<(), AllocError>
    ensures { OnOk result (string_bytes text.new ≡ string_bytes text.old ++ why_text lines.now why) }
{
    match why {
        Why::InStoreBuffer => text.push_str("in the store buffer"),
        Why::StoredAfter(store) => push_after(text, lines, store),
        Why::FlushPending(flush) => push_flushed(text, lines, flush, STUCK),
        Why::FlushBuffered(flush, passed) => {
            push_flushed(text, lines, flush, "; that flush is buffered")?;
            push_passed(text, lines, passed)
        }
        Why::FlushBehind(flush, store) => {
            push_flushed(text, lines, flush, "")?;
            push_behind(text, lines, store)
        }
        Why::FlushedBefore(flush) => push_flushed(text, lines, flush, ", before it"),
        Why::NeverFlushed => text.push_str("never flushed"),
    }
}

/// Appends the line of an image: each word with its value. The only error is out of memory.
pub fn push_image_named(text: &mut String, layout: &Layout, image: &Image) -> Result<(), AllocError>
    ensures { OnOk result (string_bytes text.new ≡ string_bytes text.old ++ image_named layout.now image.now) }
{
    text.push_str("image")?;
    push_named::<u64, Values>(text, layout, image.values())?;
    text.push('\n')
}

/// Appends what a missing write writes, and where it is.
fn push_written(
    text: &mut String,
    layout: &Layout,
    lines: &TextLines,
    missing: &Missing,
) -> Result<(), AllocError>
    ensures { OnOk result (string_bytes text.new ≡ string_bytes text.old ++ written_text layout.now lines.now missing.now) }
{
    let name = word_name(layout, missing.word);
    let value = missing.value;
    write!(text, " {name} {value} ")?;
    push_where(text, lines, missing.site)
}

/// Appends the line of a missing write: what it writes, where it is, and why it may be missing. The only error is out of memory.
pub fn push_missing_line(
    text: &mut String,
    layout: &Layout,
    lines: &TextLines,
    missing: &Missing,
) -> Result<(), AllocError>
    ensures { OnOk result (string_bytes text.new ≡ string_bytes text.old ++ missing_line layout.now lines.now missing.now) }
{
    text.push_str("missing")?;
    push_written(text, layout, lines, missing)?;
    text.push_str(": ")?;
    push_why(text, lines, missing.why)?;
    text.push('\n')
}

/// Appends a line for each missing write.
fn push_each(
    text: &mut String,
    layout: &Layout,
    lines: &TextLines,
    missing: &[Missing],
) -> Result<(), AllocError>
    ensures { OnOk result (string_bytes text.new ≡ string_bytes text.old ++ flat_map (missing_line layout.now lines.now) missing.now) }
{
    for write in missing {
        push_missing_line(text, layout, lines, write)?;
    }
    Ok(())
}

/// Appends a line for each missing write, or that none is.
fn push_missing_lines(
    text: &mut String,
    layout: &Layout,
    lines: &TextLines,
    missing: &[Missing],
) -> Result<(), AllocError>
    ensures { OnOk result (string_bytes text.new ≡ string_bytes text.old ++ missing_lines layout.now lines.now missing.now) }
{
    if missing.is_empty() {
        return text.push_str("missing none\n");
    }
    push_each(text, layout, lines, missing)
}

/// Appends the same, if the image is one of the state.
fn push_missing(
    text: &mut String,
    layout: &Layout,
    lines: &TextLines,
    missing: &Option<Vec<Missing>>,
) -> Result<(), AllocError>
    ensures { OnOk result (string_bytes text.new
        ≡ string_bytes text.old ++ missing_text layout.now lines.now (missing_found missing.now)) }
{
    match missing {
        Some(missing) => push_missing_lines(text, layout, lines, missing),
        None => Ok(()),
    }
}

/// Appends an image: its words by name, the writes that are missing in it, and why each may be. An instruction is named by its line,
/// if it stands on one of these.
///
/// # Errors
///
/// Out of memory. A part of the text may then be at the end.
pub fn push_image_lines(
    text: &mut String,
    layout: &Layout,
    lines: &TextLines,
    image: &Image,
    missing: &Option<Vec<Missing>>,
) -> Result<(), AllocError>
    ensures { OnOk result (string_bytes text.new
        ≡ string_bytes text.old ++ image_lines layout.now lines.now image.now (missing_found missing.now)) }
{
    push_image_named(text, layout, image)?;
    push_missing(text, layout, lines, missing)
}

/// What is said of an image of the state to which steps lead, on the machine of an object: its words by name, the writes that
/// are missing in it, and why each may be. An instruction is named by its line, if it stands on one of these.
///
/// # Errors
///
/// Out of memory.
pub fn image_explained(
    alloc: Global,
    object: &Object,
    lines: &TextLines,
    steps: &[Step],
    image: &Image,
) -> Result<String, AllocError>
    ensures { IfOk result (λ text. string_bytes text ≡ image_explained object.now lines.now steps.now image.now) }
{
    let missing = missing_writes(alloc, object, steps, image)?;
    let mut text = String::new(alloc);
    push_image_lines(&mut text, object.layout(), lines, image, &missing)?;
    Ok(text)
}
