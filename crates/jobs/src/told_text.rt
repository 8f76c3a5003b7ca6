//! The text of an image, and of the writes that are missing in it: those that are told as enough alone, and how many others there are.
ghost use Rattle.std.specs.Prelude.{◌≡◌, ◌++◌, OnOk, string_bytes};
ghost use Rattle.std.specs.List.{flat_map};
ghost use Rattle.causes.specs.Enough.{told_of};
ghost use Rattle.jobs.specs.ToldTexts.{enough_count, enough_line, enough_text, held_text, image_told, none_enough, none_text, others_text, some_told, told_line, told_lines, told_text};

use causes::{MOST_TRIED, Told};
use commands::{push_image_named, push_missing_line};
use images::Image;
use lines_layout::Layout;
use litmus_text::TextLines;
use std::alloc::AllocError;

/// Appends the line of a missing write, if it is told as enough.
fn push_enough(
    text: &mut String,
    layout: &Layout,
    lines: &TextLines,
    told: &Told,
) -> Result<(), AllocError>
    ensures { OnOk result (string_bytes text.new ≡ string_bytes text.old ++ enough_line layout.now lines.now told.now) }
{
    if told.enough {
        push_missing_line(text, layout, lines, &told.write)?;
    }
    Ok(())
}

/// Appends the lines of those that are told as enough.
fn push_all_enough(
    text: &mut String,
    layout: &Layout,
    lines: &TextLines,
    told: &[Told],
) -> Result<(), AllocError>
    ensures { OnOk result (string_bytes text.new ≡ string_bytes text.old ++ flat_map (enough_line layout.now lines.now) told.now) }
{
    for one in told {
        push_enough(text, layout, lines, one)?;
    }
    Ok(())
}

/// Appends the lines of all.
fn push_each(
    text: &mut String,
    layout: &Layout,
    lines: &TextLines,
    told: &[Told],
) -> Result<(), AllocError>
    ensures { OnOk result (string_bytes text.new ≡ string_bytes text.old ++ flat_map (told_line layout.now lines.now) told.now) }
{
    for one in told {
        push_missing_line(text, layout, lines, &one.write)?;
    }
    Ok(())
}

/// How many are told as enough.
fn enough_count(told: &[Told]) -> usize
    ensures { result ≡ enough_count told.now }
{
    told.iter().filter(|one| one.enough).count()
}

/// What would have been, with so many that are each enough.
fn held_text(count: usize) -> &'static str
    ensures { result.now ≡ held_text count }
{
    if count == 1 {
        "with this: held"
    } else {
        "with each of these: held"
    }
}

/// Appends how many others are missing, if any is.
fn push_others(text: &mut String, count: usize) -> Result<(), AllocError>
    ensures { OnOk result (string_bytes text.new ≡ string_bytes text.old ++ others_text count) }
{
    if count == 0 {
        return Ok(());
    }
    writeln!(text, "missing too {count}")
}

/// Appends those that are told as enough, and how many others are missing.
fn push_enough_text(
    text: &mut String,
    layout: &Layout,
    lines: &TextLines,
    told: &[Told],
) -> Result<(), AllocError>
    ensures { OnOk result (string_bytes text.new ≡ string_bytes text.old ++ enough_text layout.now lines.now told.now) }
{
    let count = enough_count(told);
    push_all_enough(text, layout, lines, told)?;
    text.push_str(held_text(count))?;
    text.push('\n')?;
    push_others(text, told.len().saturating_sub(count))
}

/// That none of so many is told as enough.
fn none_text(count: usize) -> &'static str
    ensures { result.now ≡ none_text count }
{
    if count <= MOST_TRIED {
        "none of these was found to be enough alone"
    } else {
        "none of these was tried alone: they are too many"
    }
}

/// Appends all of them, where none is told as enough.
fn push_none_enough(
    text: &mut String,
    layout: &Layout,
    lines: &TextLines,
    told: &[Told],
) -> Result<(), AllocError>
    ensures { OnOk result (string_bytes text.new ≡ string_bytes text.old ++ none_enough layout.now lines.now told.now) }
{
    push_each(text, layout, lines, told)?;
    text.push_str(none_text(told.len()))?;
    text.push('\n')
}

/// Appends what is said where some write is missing.
fn push_some_told(
    text: &mut String,
    layout: &Layout,
    lines: &TextLines,
    told: &[Told],
) -> Result<(), AllocError>
    ensures { OnOk result (string_bytes text.new ≡ string_bytes text.old ++ some_told layout.now lines.now told.now) }
{
    if enough_count(told) == 0 {
        push_none_enough(text, layout, lines, told)
    } else {
        push_enough_text(text, layout, lines, told)
    }
}

/// Appends the same, or that none is missing.
fn push_told_lines(
    text: &mut String,
    layout: &Layout,
    lines: &TextLines,
    told: &[Told],
) -> Result<(), AllocError>
    ensures { OnOk result (string_bytes text.new ≡ string_bytes text.old ++ told_lines layout.now lines.now told.now) }
{
    if told.is_empty() {
        return text.push_str("missing none\n");
    }
    push_some_told(text, layout, lines, told)
}

/// Appends the same, if the image is one of the state.
fn push_told(
    text: &mut String,
    layout: &Layout,
    lines: &TextLines,
    told: &Option<Vec<Told>>,
) -> Result<(), AllocError>
    ensures { OnOk result (string_bytes text.new ≡ string_bytes text.old ++ told_text layout.now lines.now (told_of told.now)) }
{
    match told {
        Some(told) => push_told_lines(text, layout, lines, told),
        None => Ok(()),
    }
}

/// Appends an image: its words by name, and what is said of the writes that are missing in it. The only error is out of memory. A part of
/// the text may then be at the end.
pub(crate) fn push_image_told(
    text: &mut String,
    layout: &Layout,
    lines: &TextLines,
    image: &Image,
    told: &Option<Vec<Told>>,
) -> Result<(), AllocError>
    ensures { OnOk result (string_bytes text.new
        ≡ string_bytes text.old ++ image_told layout.now lines.now image.now (told_of told.now)) }
{
    push_image_named(text, layout, image)?;
    push_told(text, layout, lines, told)
}
