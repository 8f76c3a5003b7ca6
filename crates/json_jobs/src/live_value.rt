//! The report of `live` as JSON.
ghost use Rattle.std.specs.Prelude.{◌≡◌, IfOk, OnOk, length, map};
ghost use Rattle.live.specs.declared.journal.Answer.TheVariants.{Looked};
ghost use Rattle.json_texts.specs.Objects.{list, GetsFields, IsJsonOf};
ghost use Rattle.json_jobs.specs.LiveData.{answer_fields, call_data, entries_from, entry_data, journal_data, journal_report};

use crate::trace_report::{put_refused, put_seen};
use commands::{Report, Status};
use json_texts::{FORMAT, Fields, SourceMap, put_number, state_value, step_value, value_report};
use lines_layout::Layout;
use litmus_text::LinedObject;
use live::{Answer, Call, Closed, JournalEntry};
use serde_json::{Value, json, push, put};
use std::alloc::{AllocError, Global};

/// What was asked.
fn call_value(alloc: Global, call: &Call) -> Result<Value, AllocError>
    ensures { IfOk result (IsJsonOf (call_data call.now)) }
{
    match call {
        Call::Make(step) => step_value(alloc, *step),
        Call::Look(_) => Value::try_from_str(alloc, "look"),
    }
}

/// Puts whether a condition held into the object of its entry.
fn put_looked(
    fields: &mut Fields,
    alloc: Global,
    layout: &Layout,
    at: usize,
    held: bool,
) -> Result<(), AllocError>
    ensures { OnOk result (GetsFields fields.old.entries fields.new.entries
        (answer_fields layout.now at (Looked held))) }
{
    put(fields, alloc, "seen", Value::Bool(held))?;
    put(fields, alloc, "refused", Value::Null)
}

/// Puts what was answered into the object of the entry of this number.
fn put_answer(
    fields: &mut Fields,
    alloc: Global,
    layout: &Layout,
    at: usize,
    answer: Answer,
) -> Result<(), AllocError>
    ensures { OnOk result (GetsFields fields.old.entries fields.new.entries
        (answer_fields layout.now at answer)) }
{
    match answer {
        Answer::Made(Ok(seen)) => put_seen(fields, alloc, layout, seen),
        Answer::Made(Err(refusal)) => put_refused(fields, alloc, at, refusal),
        Answer::Looked(held) => put_looked(fields, alloc, layout, at, held),
    }
}

/// The entry of this number.
fn entry_value(
    alloc: Global,
    layout: &Layout,
    at: usize,
    entry: &JournalEntry,
) -> Result<Value, AllocError>
    ensures { IfOk result (IsJsonOf (entry_data layout.now at entry.now)) }
{
    let mut fields = Fields::new(alloc);
    put_number(&mut fields, alloc, "seat", entry.seat as u64)?;
    put(&mut fields, alloc, "step", call_value(alloc, &entry.call)?)?;
    put_answer(&mut fields, alloc, layout, at, entry.answer)?;
    Ok(Value::from(fields))
}

/// The entries of a journal, in their order.
#[tactic(auto, using(json_texts::proofs::Items::list_steps))]
fn entries_value(
    alloc: Global,
    layout: &Layout,
    journal: &[JournalEntry],
) -> Result<Value, AllocError>
    ensures { IfOk result (IsJsonOf (list (entries_from layout.now 0 journal.now))) }
{
    let mut items = Vec::new(alloc);
    for (at, entry) in journal.iter().enumerate() {
        push(&mut items, entry_value(alloc, layout, at, entry)?)?;
    }
    Ok(Value::from(items))
}

/// The journal of a machine that was closed, and its state.
fn journal_value(alloc: Global, lined: &LinedObject, closed: &Closed) -> Result<Value, AllocError>
    requires { closed.now.machine.shape ≡ map length lined.now.object.layout }
    ensures { IfOk result (IsJsonOf
        (journal_data lined.now closed.now.journal.items closed.now.machine)) }
{
    let source = SourceMap {
        layout: lined.object.layout(),
        lines: &lined.lines,
    };
    let journal = entries_value(alloc, source.layout, &closed.journal)?;
    let state = state_value(alloc, &closed.machine.view(), &source)?;
    json!(in alloc; {"format": FORMAT, "command": "live", "journal": journal, "state": state})
}

/// The same as a report. The program names the machine's words.
pub(crate) fn journal_report(
    alloc: Global,
    lined: &LinedObject,
    closed: &Closed,
) -> Result<Report, AllocError>
    requires { closed.now.machine.shape ≡ map length lined.now.object.layout }
    ensures { IfOk result (λ report. report
        ≡ journal_report lined.now closed.now.journal.items closed.now.machine) }
{
    let value = journal_value(alloc, lined, closed)?;
    value_report(alloc, &value, Status::Done)
}
