//! The journal of a live machine and its state as a text.
ghost use Rattle.std.specs.Prelude.{◌≡◌, ◌∷◌, ◌++◌, [], IfOk, OnOk, codes, length, map, string_bytes};
ghost use Rattle.thread_jobs.specs.LiveTexts.{answer_text, call_line, call_text, live_report, live_text};
ghost use Rattle.commands.specs.StateTexts.{placed_lines};

use commands::{Report, Status, push_number, push_seen, push_state};
use lines_layout::Layout;
use litmus_text::LinedObject;
use live::{Answer, Call, Closed, JournalEntry};
use schedule::push_step;
use std::alloc::{AllocError, Global};

/// Appends what was asked.
fn push_call(text: &mut String, call: &Call) -> Result<(), AllocError>
    ensures { OnOk result (string_bytes text.new ≡ string_bytes text.old ++ call_text call.now) }
{
    match call {
        Call::Make(step) => push_step(text, *step),
        Call::Look(_) => text.push_str("look"),
    }
}

/// Appends what was answered.
fn push_answer(text: &mut String, layout: &Layout, answer: Answer) -> Result<(), AllocError>
    ensures { OnOk result (string_bytes text.new
        ≡ string_bytes text.old ++ answer_text layout.now answer) }
{
    match answer {
        Answer::Made(Ok(seen)) => push_seen(text, layout, seen),
        Answer::Made(Err(refusal)) => write!(text, "{refusal}"),
        Answer::Looked(true) => text.push_str("true"),
        Answer::Looked(false) => text.push_str("false"),
    }
}

/// Appends a call with its seat and its answer.
fn push_entry(text: &mut String, layout: &Layout, entry: &JournalEntry) -> Result<(), AllocError>
    ensures { OnOk result (string_bytes text.new
        ≡ string_bytes text.old ++ call_line layout.now entry.now) }
{
    push_number(text, entry.seat as u64)?;
    text.push_str(" ")?;
    push_call(text, &entry.call)?;
    text.push_str(": ")?;
    push_answer(text, layout, entry.answer)
}

/// Appends the line of a call, which begins with its number.
fn push_numbered(
    text: &mut String,
    layout: &Layout,
    i: u64,
    entry: &JournalEntry,
) -> Result<(), AllocError>
    ensures { OnOk result (string_bytes text.new
        ≡ string_bytes text.old ++ placed_lines (codes "") (call_line layout.now) i (entry.now ∷ [])) }
{
    push_number(text, i)?;
    text.push_str(" ")?;
    push_entry(text, layout, entry)?;
    text.push('\n')
}

/// Appends the calls of a journal, a line for each.
fn push_journal(
    text: &mut String,
    layout: &Layout,
    journal: &[JournalEntry],
) -> Result<(), AllocError>
    ensures { OnOk result (string_bytes text.new
        ≡ string_bytes text.old ++ placed_lines (codes "") (call_line layout.now) 0 journal.now) }
{
    for (i, entry) in journal.iter().enumerate() {
        push_numbered(text, layout, i as u64, entry)?;
    }
    Ok(())
}

/// The text of a journal, and of the state that it left.
fn live_text(alloc: Global, layout: &Layout, closed: &Closed) -> Result<String, AllocError>
    requires { closed.now.machine.shape ≡ map length layout.now }
    ensures { IfOk result (λ text. string_bytes text
        ≡ live_text layout.now closed.now.journal.items closed.now.machine) }
{
    let mut text = String::new(alloc);
    writeln!(text, "journal {}", closed.journal.len())?;
    push_journal(&mut text, layout, closed.journal.as_slice())?;
    push_state(&mut text, &closed.machine.view(), layout)?;
    Ok(text)
}

/// The report of a journal, and of the state that it left. The program names the machine's words.
pub(crate) fn live_report(
    alloc: Global,
    lined: &LinedObject,
    closed: &Closed,
) -> Result<Report, AllocError>
    requires { closed.now.machine.shape ≡ map length lined.now.object.layout }
    ensures { IfOk result (λ report. report
        ≡ live_report lined.now closed.now.journal.items closed.now.machine) }
{
    let text = live_text(alloc, lined.object.layout(), closed)?;
    Ok(Report {
        text: text.into_bytes(),
        status: Status::Done,
    })
}
