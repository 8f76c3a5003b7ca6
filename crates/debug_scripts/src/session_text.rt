//! The text of a session's answers, and of its watchers' notes.
ghost use Rattle.std.specs.Prelude.{◌≡◌, length, map};
ghost use Rattle.std.specs.List.{flat_map};
ghost use Rattle.debugger.specs.Sessions.{watch};
ghost use Rattle.debug_scripts.specs.Replies.{told_by, told_text};
ghost use Rattle.debug_scripts.specs.SessionTexts.{Writes, asked_text, back_text, found_text, halt_line, note_line, noted_text, taken_line, value_line, values_text, watch_text};
ghost use Rattle.debugger.specs.Values.{watch_by, watches_by};

use crate::orders::ValuesOrder;
use crate::reply::Reply;
use commands::{push_candidates, push_images, push_seen, push_state};
use debugger::{Attached, Halt, Note, Past, SessionFault, Watcher};
use images::{Count, count, list, values_of};
use lines_layout::Layout;
use machine::View;
use std::alloc::{AllocError, Global};

/// Appends the line of a halt; out of memory has none.
fn push_halt(text: &mut String, halt: Halt) -> Result<(), AllocError>
    ensures { Writes text.old result text.new (halt_line halt) }
{
    match halt {
        Halt::Stop(id, after) => writeln!(text, "stop {id} {after}"),
        Halt::Refused(at, refusal) => writeln!(text, "refused {at} {refusal}"),
        Halt::NoMemory(_) => Ok(()),
        Halt::End => writeln!(text, "end"),
    }
}

/// Appends how going back went.
fn push_back(
    text: &mut String,
    count: u32,
    gone: Result<(), SessionFault>,
) -> Result<(), AllocError>
    ensures { Writes text.old result text.new (back_text count gone) }
{
    match gone {
        Ok(()) => writeln!(text, "back {count}"),
        Err(fault) => writeln!(text, "{fault}"),
    }
}

/// Appends whether a stop, or a watcher, was taken out.
fn push_taken(text: &mut String, is_taken: bool) -> Result<(), AllocError>
    ensures { Writes text.old result text.new (taken_line is_taken) }
{
    if is_taken {
        writeln!(text, "ok")
    } else {
        writeln!(text, "{}", SessionFault::NoId)
    }
}

/// Appends how many candidates a state has, and then its images, unless there are more candidates than are counted.
fn push_found(alloc: Global, text: &mut String, view: &View<'_>) -> Result<(), AllocError>
    ensures { Writes text.old result text.new (found_text view.now) }
{
    let Some(countable) = count(view) else {
        push_candidates(text, Count::More)?;
        return Ok(());
    };
    push_candidates(text, Count::Number(countable.number()))?;
    let images = list(alloc, &countable)?;
    push_images(text, &images)
}

/// Appends a line for each value.
fn push_values(text: &mut String, values: &[u64]) -> Result<(), AllocError>
    ensures { Writes text.old result text.new (flat_map value_line values.now) }
{
    for value in values {
        writeln!(text, "value {value}")?;
    }
    Ok(())
}

/// Appends a line for each value, and how many they are.
fn push_valued(text: &mut String, values: &[u64]) -> Result<(), AllocError>
    ensures { Writes text.old result text.new (values_text values.now) }
{
    push_values(text, values)?;
    writeln!(text, "values {}", values.len())
}

/// Appends the values that are asked of a state.
fn push_asked(
    alloc: Global,
    text: &mut String,
    view: &View<'_>,
    order: &ValuesOrder,
) -> Result<(), AllocError>
    ensures { Writes text.old result text.new (asked_text view.now order.now) }
{
    let values = values_of(alloc, view, &order.given, order.word)?;
    push_valued(text, &values)
}

/// Appends the line of a note.
fn push_note(text: &mut String, layout: &Layout, note: &Note) -> Result<(), AllocError>
    ensures { Writes text.old result text.new (note_line layout.now note.now) }
{
    write!(text, "  {} ", note.number)?;
    push_seen(text, layout, note.seen)?;
    text.push('\n')
}

/// Appends a line for each note.
fn push_notes(text: &mut String, layout: &Layout, notes: &[Note]) -> Result<(), AllocError>
    ensures { Writes text.old result text.new (flat_map (note_line layout.now) notes.now) }
{
    for note in notes {
        push_note(text, layout, note)?;
    }
    Ok(())
}

/// Appends an id, the count of notes, and these.
fn push_noted(text: &mut String, layout: &Layout, id: u32, notes: &[Note]) -> Result<(), AllocError>
    ensures { Writes text.old result text.new (noted_text layout.now id notes.now) }
{
    writeln!(text, "watch {id} {}", notes.len())?;
    push_notes(text, layout, notes)
}

/// Appends the text of a reply. The session has been through this.
pub(crate) fn push_reply(
    alloc: Global,
    text: &mut String,
    layout: &Layout,
    reply: &Reply<'_>,
    past: &Past,
) -> Result<(), AllocError>
    requires { past.now.state.shape ≡ map length layout.now }
    ensures { Writes text.old result text.new (told_text layout.now (told_by past.now reply.now)) }
{
    let view = past.machine().view();
    match *reply {
        Reply::Kept => Ok(()),
        Reply::Went(halt, _) | Reply::WentOn(halt, _) => push_halt(text, halt),
        Reply::WentBack(count, gone) => push_back(text, count, gone),
        Reply::Shown => push_state(text, &view, layout),
        Reply::Listed => push_found(alloc, text, &view),
        Reply::Valued(order) => push_asked(alloc, text, &view, order),
        Reply::Disarmed(_, is_taken) | Reply::Detached(_, is_taken) => push_taken(text, is_taken),
        Reply::Noted(id, notes) => push_noted(text, layout, id, notes),
    }
}

/// Appends a watcher's id, the count of its notes, and these.
fn push_watch(text: &mut String, layout: &Layout, attached: &Attached) -> Result<(), AllocError>
    ensures { Writes text.old result text.new (watch_text layout.now (watch_by meaning_of attached.now)) }
{
    let notes = attached.notes();
    push_noted(text, layout, attached.id, notes)
}

/// Appends the same of each watcher, in order.
pub fn push_each(
    text: &mut String,
    layout: &Layout,
    watchers: &[Attached],
) -> Result<(), AllocError>
    ensures { Writes text.old result text.new (flat_map (watch_text layout.now) (watches_by meaning_of watchers.now)) }
{
    for attached in watchers {
        push_watch(text, layout, attached)?;
    }
    Ok(())
}
