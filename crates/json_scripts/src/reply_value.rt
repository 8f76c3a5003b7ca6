//! What a script comes to as JSON, reply by reply.
ghost use Rattle.std.specs.Prelude.{◌≡◌, IfOk, OnOk, length, map};
ghost use Rattle.json_texts.specs.Objects.{list, or_null, num, GetsItems, IsJsonOf};
ghost use Rattle.debug_scripts.specs.Replies.{told_by};
ghost use Rattle.json_scripts.specs.DebugData.{back_data, fault_data, fault_if, fault_name, fault_number, given_data, halt_data, halt_name, halt_refused, halt_stop, listed_data, note_data, noted_data, shown_data, taken_data, told_items, valued_data};

use commands::word_name;
use debug_scripts::{Reply, ValuesOrder};
use debugger::{Halt, Note, Past, SessionFault};
use image_reasons::origins_after;
use images::{Count, count, list, values_of};
use json_texts::{
    SourceMap, candidates_value, images_value, names_value, number_or_null, numbers_value,
    refused_value, seen_value, sited_state,
};
use lines_layout::{Layout, WordId};
use litmus_text::LinedObject;
use machine::View;
use serde_json::{Value, json, push};
use std::alloc::{AllocError, Global};

/// Why steps halted.
fn halt_name(halt: Halt) -> &'static str
    ensures { result.now ≡ halt_name halt }
{
    match halt {
        Halt::Stop(_, _) => "stop",
        Halt::Refused(_, _) => "refused",
        Halt::NoMemory(_) => "no memory",
        Halt::End => "end",
    }
}

/// The id of the stop at which they did.
fn halt_stop(halt: Halt) -> Option<u64>
    ensures { result ≡ halt_stop halt }
{
    match halt {
        Halt::Stop(id, _) => Some(id as u64),
        _ => None,
    }
}

/// The step that was refused.
fn halt_refused(alloc: Global, halt: Halt) -> Result<Value, AllocError>
    ensures { IfOk result (IsJsonOf (halt_refused halt)) }
{
    match halt {
        Halt::Refused(at, refusal) => refused_value(alloc, at, Some(refusal)),
        _ => Ok(Value::Null),
    }
}

/// Where steps halted, and how many were made.
fn halt_value(alloc: Global, kind: &str, halt: Halt, made: usize) -> Result<Value, AllocError>
    ensures { IfOk result (IsJsonOf (halt_data kind.now halt made)) }
{
    let name = halt_name(halt);
    let stop = number_or_null(halt_stop(halt));
    let refused = halt_refused(alloc, halt)?;
    json!(in alloc; {
        "kind": kind, "halt": name, "made": made as u64, "stop": stop, "refused": refused
    })
}

/// The number of a fault.
fn fault_number(fault: SessionFault) -> &'static str
    ensures { result.now ≡ fault_number fault }
{
    match fault {
        SessionFault::DoubleId => "G1",
        SessionFault::NoId => "G2",
        SessionFault::TooFar => "G3",
    }
}

/// The name of a fault.
fn fault_name(fault: SessionFault) -> &'static str
    ensures { result.now ≡ fault_name fault }
{
    match fault {
        SessionFault::DoubleId => "DoubleId",
        SessionFault::NoId => "NoId",
        SessionFault::TooFar => "TooFar",
    }
}

/// Why a session refuses a call.
fn fault_value(alloc: Global, fault: SessionFault) -> Result<Value, AllocError>
    ensures { IfOk result (IsJsonOf (fault_data fault)) }
{
    let (number, name) = (fault_number(fault), fault_name(fault));
    json!(in alloc; {"number": number, "name": name})
}

/// The same, if it does.
fn fault_or_null(alloc: Global, done: Result<(), SessionFault>) -> Result<Value, AllocError>
    ensures { IfOk result (IsJsonOf (fault_if done)) }
{
    match done {
        Ok(()) => Ok(Value::Null),
        Err(fault) => fault_value(alloc, fault),
    }
}

/// How going back by so many steps went.
fn back_value(
    alloc: Global,
    steps: u32,
    gone: Result<(), SessionFault>,
) -> Result<Value, AllocError>
    ensures { IfOk result (IsJsonOf (back_data steps gone)) }
{
    let fault = fault_or_null(alloc, gone)?;
    json!(in alloc; {"kind": "back", "steps": steps, "fault": fault})
}

/// Whether there was something of this id, which is taken out.
fn taken_value(alloc: Global, kind: &str, id: u32, is_taken: bool) -> Result<Value, AllocError>
    ensures { IfOk result (IsJsonOf (taken_data kind.now id is_taken)) }
{
    let fault = if is_taken {
        Value::Null
    } else {
        fault_value(alloc, SessionFault::NoId)?
    };
    json!(in alloc; {"kind": kind, "id": id, "fault": fault})
}

/// The state of a session that has been through this, with the instructions that its entries are of.
fn shown_value(alloc: Global, lined: &LinedObject, past: &Past) -> Result<Value, AllocError>
    requires { past.now.state.shape ≡ map length lined.now.object.layout }
    ensures { IfOk result (IsJsonOf (shown_data lined.now past.now)) }
{
    let source = SourceMap {
        layout: lined.object.layout(),
        lines: &lined.lines,
    };
    let origins = origins_after(alloc, &lined.object, past.steps())?;
    let state = sited_state(alloc, &past.machine().view(), &source, &origins);
    drop(origins);
    let state = state?;
    json!(in alloc; {"kind": "show", "state": state})
}

/// The images of a state, unless there are more candidates than are counted.
fn listed_value(alloc: Global, layout: &Layout, view: &View<'_>) -> Result<Value, AllocError>
    ensures { IfOk result (IsJsonOf (listed_data layout.now view.now)) }
{
    let words = names_value(alloc, layout)?;
    let Some(countable) = count(view) else {
        let candidates = candidates_value(alloc, Count::More)?;
        return json!(in alloc; {
            "kind": "images", "candidates": candidates, "words": words, "images": Value::Null
        });
    };
    let candidates = candidates_value(alloc, Count::Number(countable.number()))?;
    let images = list(alloc, &countable)?;
    let images = images_value(alloc, &images)?;
    json!(in alloc; {
        "kind": "images", "candidates": candidates, "words": words, "images": images
    })
}

/// A word that is given a value.
fn given_value(
    alloc: Global,
    layout: &Layout,
    word: WordId,
    value: u64,
) -> Result<Value, AllocError>
    ensures { IfOk result (IsJsonOf (given_data layout.now (word, value))) }
{
    let word = word_name(layout, word);
    json!(in alloc; {"word": word, "value": value})
}

/// Words that are given values.
#[tactic(auto, using(json_texts::proofs::Items::list_steps))]
fn all_given(alloc: Global, layout: &Layout, given: &[(WordId, u64)]) -> Result<Value, AllocError>
    ensures { IfOk result (IsJsonOf (list (map (given_data layout.now) given.now))) }
{
    let mut items = Vec::new(alloc);
    for (word, value) in given {
        push(&mut items, given_value(alloc, layout, *word, *value)?)?;
    }
    Ok(Value::from(items))
}

/// The values that are asked of a state.
fn valued_value(
    alloc: Global,
    layout: &Layout,
    view: &View<'_>,
    order: &ValuesOrder,
) -> Result<Value, AllocError>
    ensures { IfOk result (IsJsonOf (valued_data layout.now view.now order.now)) }
{
    let given = all_given(alloc, layout, &order.given)?;
    let values = values_of(alloc, view, &order.given, order.word)?;
    let values = numbers_value(alloc, &values)?;
    let word = word_name(layout, order.word);
    json!(in alloc; {"kind": "values", "word": word, "given": given, "values": values})
}

/// A note: its number, and what the step showed.
fn note_value(alloc: Global, layout: &Layout, note: &Note) -> Result<Value, AllocError>
    ensures { IfOk result (IsJsonOf (note_data layout.now note.now)) }
{
    let seen = seen_value(alloc, layout, note.seen)?;
    json!(in alloc; {"number": note.number, "seen": seen})
}

/// Notes, in their order.
#[tactic(auto, using(json_texts::proofs::Items::list_steps))]
fn notes_value(alloc: Global, layout: &Layout, notes: &[Note]) -> Result<Value, AllocError>
    ensures { IfOk result (IsJsonOf (list (map (note_data layout.now) notes.now))) }
{
    let mut items = Vec::new(alloc);
    for note in notes {
        push(&mut items, note_value(alloc, layout, note)?)?;
    }
    Ok(Value::from(items))
}

/// The notes of the watch of this id.
fn noted_value(alloc: Global, layout: &Layout, id: u32, notes: &[Note]) -> Result<Value, AllocError>
    ensures { IfOk result (IsJsonOf (noted_data layout.now id notes.now)) }
{
    let notes = notes_value(alloc, layout, notes)?;
    json!(in alloc; {"kind": "watch", "id": id, "notes": notes})
}

/// Appends a reply; of a step that is kept nothing is told. The session has been through this.
pub(crate) fn push_reply(
    items: &mut Vec<Value>,
    alloc: Global,
    lined: &LinedObject,
    reply: &Reply<'_>,
    past: &Past,
) -> Result<(), AllocError>
    requires { past.now.state.shape ≡ map length lined.now.object.layout }
    ensures { OnOk result (GetsItems items.old.items items.new.items
        (told_items lined.now (told_by past.now reply.now))) }
{
    let (layout, view) = (lined.object.layout(), past.machine().view());
    match *reply {
        Reply::Kept => Ok(()),
        Reply::Went(halt, made) => push(items, halt_value(alloc, "go", halt, made)?),
        Reply::WentOn(halt, made) => push(items, halt_value(alloc, "continue", halt, made)?),
        Reply::WentBack(steps, gone) => push(items, back_value(alloc, steps, gone)?),
        Reply::Shown => push(items, shown_value(alloc, lined, past)?),
        Reply::Listed => push(items, listed_value(alloc, layout, &view)?),
        Reply::Valued(order) => push(items, valued_value(alloc, layout, &view, order)?),
        Reply::Disarmed(id, is_taken) => push(items, taken_value(alloc, "disarm", id, is_taken)?),
        Reply::Detached(id, is_taken) => push(items, taken_value(alloc, "detach", id, is_taken)?),
        Reply::Noted(id, notes) => push(items, noted_value(alloc, layout, id, notes)?),
    }
}
