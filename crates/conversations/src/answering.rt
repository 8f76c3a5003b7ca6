//! What a line asks is done, and answered.
ghost use Rattle.std.specs.Prelude.{◌≡◌, ◌≤◌, ◌++◌, [], IfOk, List, OnOk, false, is_ok, length, min, slice_get, string_bytes, take, true};
ghost use Rattle.commands.specs.StateTexts.{end_of_line};
ghost use Rattle.debugger.specs.Halts.{halt_of, made};
ghost use Rattle.debugger.specs.Marks.{tried};
ghost use Rattle.debugger.specs.Sessions as sessions;
ghost use Rattle.debugger.specs.Sessions.{SessionValue, after};
ghost use Rattle.debugger.specs.Values.{session_value, watch_by};
ghost use Rattle.debug_scripts.specs.DebugReports.{HasShape};
ghost use Rattle.debug_scripts.specs.Ahead.{Ahead, all_ahead, with_gathered};
ghost use Rattle.debug_scripts.specs.SessionTexts.{back_text, taken_line, IsMade};
ghost use Rattle.debugger.specs.Notes.{meaning};
ghost use Rattle.debugger.specs.Writes.{word_selection};
ghost use Rattle.images.specs.Images.{closed_set_of};
ghost use Rattle.jobs.specs.NextSteps.{next_steps};
ghost use Rattle.explore.specs.Falls.{fall_at};
ghost use Rattle.conversations.specs.Answered.{answer, answered, armed_at, attached_at, broken_at, crashed_at, deleted_at, followed_at, gone_at, gone_to, halting, is_beside_steps, ordered, picked_at, place, made_at, place_by, scripted_at, unmade_at, walked_at, watched_at, KeepsShape};
ghost use Rattle.conversations.specs.Breaks.{cut_line, end_line, tried_of};
ghost use Rattle.conversations.specs.Changed.{changed_text};
ghost use Rattle.conversations.specs.Asking.{as_asked};
ghost use Rattle.conversations.specs.Checking.{nothing_found};
ghost use Rattle.conversations.specs.Desks.{Declaration};
ghost use Rattle.conversations.specs.Eager.{is_met, most_steps, runs_of, steps_to, steps_until};
ghost use Rattle.conversations.specs.HelpTexts.{hint_text};
ghost use Rattle.conversations.specs.LineFaults.{line_fault_text};

use crate::asked::Order;
use crate::breaks::{Cut, cut_of, has_break, up_to};
use crate::changed::push_changed;
use crate::declaration::{Kind, declare, forget_all, forget_by, push_info};
use crate::desk::{Desk, take_first};
use crate::eager::{Aim, MOST_STEPS, runs_of, steps_to, steps_until};
use crate::help::{push_help, push_hint, push_row};
use crate::imaged::{fall_steps, push_all_of, push_broken, push_set_of, push_why};
use crate::line_fault::LineFault;
use crate::listed::push_list;
use crate::moment::Moment;
use crate::printed::{push_next_steps, push_register, push_steps, push_word};
use crate::reversing::reverse;
use debug_scripts::{Command, PlayFault, StepsAhead, follow, push_each};
use debugger::{Attached, Halt, Session, SessionFault, Stop};
use images::{Image, closed_set};
use jobs::{next_steps, push_set};
use lines_layout::WordId;
use litmus_text::LinedObject;
use machine::Step;
use outcomes::OrNoMemory;
use std::alloc::{AllocError, Global};
use talks::Line;

/// Appends that all steps up to where a break halts them, if one does, were made.
fn push_end(text: &mut String, cut: Option<Cut>) -> Result<(), AllocError>
    ensures { OnOk result (string_bytes text.new ≡ string_bytes text.old ++ end_line cut) }
{
    match cut {
        Some(cut) => writeln!(text, "break {} {}", cut.id, cut.count),
        None => writeln!(text, "end"),
    }
}

/// Appends where the steps halted up to where a break halts them, if one does.
///
/// # Errors
///
/// What memory was refused to.
fn push_halt(text: &mut String, cut: Option<Cut>, halt: Halt) -> Result<(), PlayFault>
    ensures text { OnOk result (string_bytes text.new ≡ string_bytes text.old ++ cut_line cut halt) }
    ensures made { OnOk result (IsMade halt) }
{
    match halt {
        Halt::Stop(id, after) => Ok(writeln!(text, "stop {id} {after}")?),
        Halt::Refused(at, refusal) => Ok(writeln!(text, "refused {at} {refusal}")?),
        Halt::NoMemory(_) => Err(PlayFault::Session),
        Halt::End => Ok(push_end(text, cut)?),
    }
}

/// How many of these steps were made, or refused, where they halted so.
fn tried(steps: &[Step], halt: Halt) -> usize
    requires { tried steps.now halt ≤ length steps.now }
    ensures { result ≡ tried steps.now halt }
{
    match halt {
        Halt::Stop(_, made) | Halt::NoMemory(made) => made,
        Halt::Refused(made, _) => made + 1,
        Halt::End => steps.len(),
    }
}

/// Makes steps up to where a break halts them, if one does, and appends to a text that is empty where they halted: how many of them
/// were made, or refused.
///
/// # Errors
///
/// What memory was refused to. Steps may have been made.
fn make_up_to(
    session: &mut Session,
    text: &mut String,
    cut: Option<Cut>,
    steps: &[Step],
) -> Result<usize, PlayFault>
    requires empty { string_bytes text.old ≡ [] }
    ensures session { OnOk result (session_value meaning_of session.new
        ≡ after (session_value meaning_of session.old) (take (made steps.now (halt_of (session_value meaning_of session.old) steps.now)) steps.now)) }
    ensures text { OnOk result (string_bytes text.new ≡ cut_line cut (halt_of (session_value meaning_of session.old) steps.now)) }
    ensures tried { IfOk result (λ count. count ≡ tried steps.now (halt_of (session_value meaning_of session.old) steps.now)) }
    ensures within { IfOk result (λ count. count ≤ length steps.now) }
    ensures shape { KeepsShape (session_value meaning_of session.old) (session_value meaning_of session.new) }
{
    let halt = session.go(steps);
    push_halt(text, cut, halt)?;
    Ok(tried(steps, halt))
}

/// Makes steps, and appends to a text that is empty where they halted: how many of them were made, or refused.
///
/// # Errors
///
/// What memory was refused to. Steps may have been made.
fn make_some(
    lined: &LinedObject,
    session: &mut Session,
    desk: &Desk,
    text: &mut String,
    steps: &[Step],
) -> Result<usize, PlayFault>
    requires empty { string_bytes text.old ≡ [] }
    ensures answers { OnOk result (answer (place_by meaning_of session.new desk.now) (string_bytes text.new)
        ≡ made_at lined.now (place_by meaning_of session.old desk.now) steps.now) }
    ensures tried { IfOk result (λ count. count ≡ tried_of lined.now desk.now.declared.items (session_value meaning_of session.old) steps.now) }
    ensures within { IfOk result (λ count. count ≤ length steps.now) }
    ensures shape { KeepsShape (session_value meaning_of session.old) (session_value meaning_of session.new) }
{
    let cut = cut_of(
        desk.alloc,
        lined,
        &desk.declared,
        session.past.machine(),
        steps,
    )?;
    make_up_to(session, text, cut, up_to(cut, steps))
}

/// Makes steps by themselves, and appends to a text that is empty where they halted.
///
/// # Errors
///
/// What memory was refused to. Steps may have been made.
fn make(
    lined: &LinedObject,
    session: &mut Session,
    desk: &Desk,
    text: &mut String,
    steps: &[Step],
) -> Result<(), PlayFault>
    requires empty { string_bytes text.old ≡ [] }
    ensures answers { OnOk result (answer (place_by meaning_of session.new desk.now) (string_bytes text.new)
        ≡ made_at lined.now (place_by meaning_of session.old desk.now) steps.now) }
    ensures shape { KeepsShape (session_value meaning_of session.old) (session_value meaning_of session.new) }
{
    match make_some(lined, session, desk, text, steps) {
        Ok(_) => Ok(()),
        Err(fault) => Err(fault),
    }
}

/// Makes the steps that were gathered, and appends to a text that is empty where they halted. What was left before is forgotten.
///
/// # Errors
///
/// What memory was refused to. Steps may have been made.
fn go(
    lined: &LinedObject,
    session: &mut Session,
    desk: &mut Desk,
    text: &mut String,
) -> Result<(), PlayFault>
    requires empty { string_bytes text.old ≡ [] }
    ensures answers { OnOk result (answer (place_by meaning_of session.new desk.new) (string_bytes text.new)
        ≡ gone_at lined.now (place_by meaning_of session.old desk.old) desk.old.ahead.gathered) }
    ensures shape { KeepsShape (session_value meaning_of session.old) (session_value meaning_of session.new) }
{
    match make_some(lined, session, desk, text, desk.ahead.gathered()) {
        Ok(count) => {
            desk.ahead.pass_gathered(count);
            Ok(())
        }
        Err(fault) => Err(fault),
    }
}

/// Makes all steps ahead, and appends to a text that is empty where they halted.
///
/// # Errors
///
/// What memory was refused to. Steps may have been made.
fn go_on(
    lined: &LinedObject,
    session: &mut Session,
    desk: &mut Desk,
    text: &mut String,
) -> Result<(), PlayFault>
    requires empty { string_bytes text.old ≡ [] }
    ensures answers { OnOk result (answer (place_by meaning_of session.new desk.new) (string_bytes text.new)
        ≡ gone_at lined.now (place_by meaning_of session.old desk.old) (all_ahead desk.old.ahead)) }
    ensures shape { KeepsShape (session_value meaning_of session.old) (session_value meaning_of session.new) }
{
    match make_some(lined, session, desk, text, desk.ahead.all()) {
        Ok(count) => {
            desk.ahead.pass(count);
            Ok(())
        }
        Err(fault) => Err(fault),
    }
}

/// Makes the step of a number among those that may come next, and appends to a text that is empty where it halted; or appends that
/// there is none of that number.
///
/// # Errors
///
/// What memory was refused to. The step may have been made.
fn pick(
    lined: &LinedObject,
    session: &mut Session,
    desk: &Desk,
    text: &mut String,
    number: u32,
) -> Result<(), PlayFault>
    requires empty { string_bytes text.old ≡ [] }
    ensures answers { OnOk result (answer (place_by meaning_of session.new desk.now) (string_bytes text.new)
        ≡ picked_at lined.now (place_by meaning_of session.old desk.now) number (slice_get (next_steps false session.old.past.state) number)) }
    ensures shape { KeepsShape (session_value meaning_of session.old) (session_value meaning_of session.new) }
{
    let steps = next_steps(desk.alloc, session.past.machine(), false)?;
    match steps.get(number as usize) {
        Some(step) => make(lined, session, desk, text, &[*step]),
        None => Ok(writeln!(text, "no step {number}")?),
    }
}

/// Makes the first of the steps ahead, if there is one, and appends to a text that is empty where it halted; or appends that there is
/// none.
///
/// # Errors
///
/// What memory was refused to. The step may have been made.
fn walk(
    lined: &LinedObject,
    session: &mut Session,
    desk: &mut Desk,
    text: &mut String,
) -> Result<(), PlayFault>
    requires empty { string_bytes text.old ≡ [] }
    ensures answers { OnOk result (answer (place_by meaning_of session.new desk.new) (string_bytes text.new)
        ≡ walked_at lined.now (place_by meaning_of session.old desk.old)) }
    ensures shape { KeepsShape (session_value meaning_of session.old) (session_value meaning_of session.new) }
{
    match take_first(&mut desk.ahead) {
        Some(step) => make(lined, session, desk, text, &[step]),
        None => Ok(writeln!(text, "no step ahead")?),
    }
}

/// Has a processor run, again and again, and appends to a text that is empty where it halted.
///
/// # Errors
///
/// What memory was refused to. Steps may have been made.
fn finish(
    lined: &LinedObject,
    session: &mut Session,
    desk: &Desk,
    text: &mut String,
    processor: u32,
) -> Result<(), PlayFault>
    requires empty { string_bytes text.old ≡ [] }
    ensures answers { OnOk result (answer (place_by meaning_of session.new desk.now) (string_bytes text.new)
        ≡ made_at lined.now (place_by meaning_of session.old desk.now) (runs_of processor)) }
    ensures shape { KeepsShape (session_value meaning_of session.old) (session_value meaning_of session.new) }
{
    let steps = runs_of(desk.alloc, processor)?;
    make(lined, session, desk, text, &steps)
}

/// Makes the first step that may come, again and again, and appends to a text that is empty where that halted.
///
/// # Errors
///
/// What memory was refused to. Steps may have been made.
fn run(
    lined: &LinedObject,
    session: &mut Session,
    desk: &Desk,
    text: &mut String,
    count: u32,
) -> Result<(), PlayFault>
    requires empty { string_bytes text.old ≡ [] }
    ensures answers { OnOk result (answer (place_by meaning_of session.new desk.now) (string_bytes text.new)
        ≡ made_at lined.now (place_by meaning_of session.old desk.now) (steps_to (is_met Aim.Nowhere) (min count most_steps) session.old.past.state)) }
    ensures shape { KeepsShape (session_value meaning_of session.old) (session_value meaning_of session.new) }
{
    let steps = steps_to(
        desk.alloc,
        session.past.machine(),
        Aim::Nowhere,
        count.min(MOST_STEPS),
    )?;
    make(lined, session, desk, text, &steps)
}

/// Makes the first step that may come, again and again, up to where a processor is at a place, and appends to a text that is empty
/// where that halted: at once, where there is no such processor.
///
/// # Errors
///
/// What memory was refused to. Steps may have been made.
fn until(
    lined: &LinedObject,
    session: &mut Session,
    desk: &Desk,
    text: &mut String,
    processor: u32,
    end: u32,
) -> Result<(), PlayFault>
    requires empty { string_bytes text.old ≡ [] }
    ensures answers { OnOk result (answer (place_by meaning_of session.new desk.now) (string_bytes text.new)
        ≡ made_at lined.now (place_by meaning_of session.old desk.now) (steps_until processor end session.old.past.state)) }
    ensures shape { KeepsShape (session_value meaning_of session.old) (session_value meaning_of session.new) }
{
    let steps = steps_until(desk.alloc, session.past.machine(), processor, end)?;
    make(lined, session, desk, text, &steps)
}

/// Has the entries at these places leave the pending list, and then crashes, and appends to a text that is empty where that halted.
///
/// # Errors
///
/// What memory was refused to. Steps may have been made.
fn crash_after(
    lined: &LinedObject,
    session: &mut Session,
    desk: &Desk,
    text: &mut String,
    places: &[usize],
) -> Result<(), PlayFault>
    requires empty { string_bytes text.old ≡ [] }
    ensures answers { OnOk result (answer (place_by meaning_of session.new desk.now) (string_bytes text.new)
        ≡ made_at lined.now (place_by meaning_of session.old desk.now) (fall_at session.old.past.state.memory.pending places.now)) }
    ensures shape { KeepsShape (session_value meaning_of session.old) (session_value meaning_of session.new) }
{
    let steps = fall_steps(desk.alloc, &session.look(), places)?;
    make(lined, session, desk, text, &steps)
}

/// Has what leaves an image persist, and then crashes, and appends to a text that is empty where that halted; or appends that
/// nothing leaves it.
///
/// # Errors
///
/// What memory was refused to. Steps may have been made.
fn crash_to(
    lined: &LinedObject,
    session: &mut Session,
    desk: &Desk,
    text: &mut String,
    image: &Image,
) -> Result<(), PlayFault>
    requires empty { string_bytes text.old ≡ [] }
    ensures answers { OnOk result (answer (place_by meaning_of session.new desk.now) (string_bytes text.new)
        ≡ crashed_at lined.now (place_by meaning_of session.old desk.now) (closed_set_of session.old.past.state image.now)) }
    ensures shape { KeepsShape (session_value meaning_of session.old) (session_value meaning_of session.new) }
{
    let found = closed_set(desk.alloc, &session.look(), image)?;
    match found {
        Some(places) => crash_after(lined, session, desk, text, &places),
        None => Ok(push_set(text, &None)?),
    }
}

/// Appends how taking steps back went.
pub(crate) fn push_back(
    text: &mut String,
    count: usize,
    gone: Result<(), SessionFault>,
) -> Result<(), AllocError>
    ensures { OnOk result (string_bytes text.new ≡ string_bytes text.old ++ back_text count gone) }
{
    match gone {
        Ok(()) => writeln!(text, "back {count}"),
        Err(fault) => writeln!(text, "{fault}"),
    }
}

/// Takes the last steps back, and the notes of these, and appends to a text that is empty how that went.
fn take_back(session: &mut Session, text: &mut String, count: usize) -> Result<(), AllocError>
    requires empty { string_bytes text.old ≡ [] }
    ensures answers { OnOk result ((a : Ahead) (ds : List Declaration) → answer (place (session_value meaning_of session.new) a ds) (string_bytes text.new)
        ≡ unmade_at (place (session_value meaning_of session.old) a ds) count) }
    ensures shape { KeepsShape (session_value meaning_of session.old) (session_value meaning_of session.new) }
{
    let gone = session.undo(count);
    push_back(text, count, gone)
}

/// Takes all steps back but the first so many, and the notes of these, and appends to a text that is empty how that went.
fn go_to(session: &mut Session, text: &mut String, kept: usize) -> Result<(), AllocError>
    requires empty { string_bytes text.old ≡ [] }
    ensures answers { OnOk result ((a : Ahead) (ds : List Declaration) → answer (place (session_value meaning_of session.new) a ds) (string_bytes text.new)
        ≡ gone_to (place (session_value meaning_of session.old) a ds) kept) }
    ensures shape { KeepsShape (session_value meaning_of session.old) (session_value meaning_of session.new) }
{
    let made = session.past.len();
    if made < kept {
        return writeln!(text, "{}", SessionFault::TooFar);
    }
    take_back(session, text, made - kept)
}

/// Appends why a line asks nothing, and what may stand there.
fn push_fault(text: &mut String, line: &Line, fault: LineFault) -> Result<(), AllocError>
    ensures { OnOk result (string_bytes text.new
        ≡ string_bytes text.old ++ line_fault_text fault ++ end_of_line ++ hint_text line.now.bytes.items) }
{
    writeln!(text, "{fault}")?;
    push_hint(text, &line.bytes)
}

/// Arms a stop, and appends nothing to a text that is empty; or appends that its id is taken.
///
/// # Errors
///
/// What memory was refused to.
pub(crate) fn arm(
    session: &mut Session,
    desk: &mut Desk,
    text: &mut String,
    line: &Line,
    stop: Stop,
) -> Result<(), PlayFault>
    requires empty { string_bytes text.old ≡ [] }
    ensures answers { OnOk result (answer (place_by meaning_of session.new desk.new) (string_bytes text.new)
        ≡ armed_at (place_by meaning_of session.old desk.old) line.now.bytes.items stop.id stop.cond) }
    ensures shape { OnOk result (KeepsShape (session_value meaning_of session.old) (session_value meaning_of session.new)) }
{
    let id = stop.id;
    match session.arm(stop) {
        Ok(()) => Ok(declare(
            desk.alloc,
            &mut desk.declared,
            Kind::Stop,
            id,
            None,
            &line.bytes,
        )?),
        Err((OrNoMemory::Fault(fault), _)) => Ok(writeln!(text, "{fault}")?),
        Err((OrNoMemory::NoMemory, _)) => Err(PlayFault::Session),
    }
}

/// Where a watch of a word halts steps, if it does.
fn halting(halts: bool, word: WordId) -> Option<Moment>
    ensures { result ≡ halting halts word }
{
    if halts {
        Some(Moment::Write(word))
    } else {
        None
    }
}

/// Attaches a watcher of a word, and appends nothing to a text that is empty; or appends that its id is taken.
///
/// # Errors
///
/// What memory was refused to.
fn attach_free(
    session: &mut Session,
    desk: &mut Desk,
    text: &mut String,
    line: &Line,
    watch: Attached,
    halts: Option<Moment>,
) -> Result<(), PlayFault>
    requires empty { string_bytes text.old ≡ [] }
    ensures answers { OnOk result (answer (place_by meaning_of session.new desk.new) (string_bytes text.new)
        ≡ attached_at (place_by meaning_of session.old desk.old) line.now.bytes.items (watch_by meaning_of watch) halts) }
    ensures shape { OnOk result (KeepsShape (session_value meaning_of session.old) (session_value meaning_of session.new)) }
{
    let id = watch.id;
    match session.attach(id, watch.watcher) {
        Ok(()) => Ok(declare(
            desk.alloc,
            &mut desk.declared,
            Kind::Watch,
            id,
            halts,
            &line.bytes,
        )?),
        Err((OrNoMemory::Fault(fault), _)) => Ok(writeln!(text, "{fault}")?),
        Err((OrNoMemory::NoMemory, _)) => Err(PlayFault::Session),
    }
}

/// Attaches a watcher of a word, which may halt steps, and appends nothing to a text that is empty; or appends that its id is taken.
///
/// # Errors
///
/// What memory was refused to.
pub(crate) fn attach(
    session: &mut Session,
    desk: &mut Desk,
    text: &mut String,
    line: &Line,
    watch: Attached,
    word: WordId,
    halts: bool,
) -> Result<(), PlayFault>
    requires watches { watch_by meaning_of watch ≡ sessions.watch watch.id (meaning [] (word_selection word)) }
    requires empty { string_bytes text.old ≡ [] }
    ensures answers { OnOk result (answer (place_by meaning_of session.new desk.new) (string_bytes text.new)
        ≡ watched_at (place_by meaning_of session.old desk.old) line.now.bytes.items watch.id word halts) }
    ensures shape { OnOk result (KeepsShape (session_value meaning_of session.old) (session_value meaning_of session.new)) }
{
    if halts && has_break(&desk.declared, watch.id) {
        drop(watch);
        return Ok(writeln!(text, "{}", SessionFault::DoubleId)?);
    }
    attach_free(session, desk, text, line, watch, halting(halts, word))
}

/// Sets a break, and appends nothing to a text that is empty; or appends that its id is taken, or why it can never halt.
///
/// # Errors
///
/// What memory was refused to.
fn set_break(
    lined: &LinedObject,
    desk: &mut Desk,
    text: &mut String,
    line: &Line,
    id: u32,
    moment: Moment,
) -> Result<(), AllocError>
    requires empty { string_bytes text.old ≡ [] }
    ensures { OnOk result ((v : SessionValue) → answer (place v desk.new.ahead desk.new.declared.items) (string_bytes text.new)
        ≡ broken_at lined.now (place v desk.old.ahead desk.old.declared.items) line.now.bytes.items id moment) }
{
    if !moment.may_come(lined) {
        return push_fault(text, line, LineFault::BadLine);
    }
    if has_break(&desk.declared, id) {
        return writeln!(text, "{}", SessionFault::DoubleId);
    }
    declare(
        desk.alloc,
        &mut desk.declared,
        Kind::Break,
        id,
        Some(moment),
        &line.bytes,
    )
}

/// Whether something was taken out.
fn was_there<T: Drop>(out: Result<T, SessionFault>) -> bool
    ensures { result ≡ is_ok out }
{
    out.is_ok()
}

/// Appends whether something was taken out.
fn push_taken(text: &mut String, is_taken: bool) -> Result<(), AllocError>
    ensures { OnOk result (string_bytes text.new ≡ string_bytes text.old ++ taken_line is_taken) }
{
    if is_taken {
        writeln!(text, "ok")
    } else {
        writeln!(text, "{}", SessionFault::NoId)
    }
}

/// Takes out the stop, the watch and the break of an id, and appends to a text that is empty whether there was one.
fn delete(
    session: &mut Session,
    desk: &mut Desk,
    text: &mut String,
    id: u32,
) -> Result<(), AllocError>
    requires empty { string_bytes text.old ≡ [] }
    ensures answers { OnOk result (answer (place_by meaning_of session.new desk.new) (string_bytes text.new)
        ≡ deleted_at (place_by meaning_of session.old desk.old) id) }
    ensures shape { KeepsShape (session_value meaning_of session.old) (session_value meaning_of session.new) }
{
    let is_stop = was_there(session.disarm(id));
    let is_watch = was_there(session.detach(id));
    let is_break = has_break(&desk.declared, id);
    forget_all(&mut desk.declared, id);
    push_taken(text, is_stop || is_watch || is_break)
}

/// Gathers a step, and appends nothing to a text that is empty.
fn gather(desk: &mut Desk, step: Step) -> Result<(), AllocError>
    ensures ahead { OnOk result (desk.new.ahead ≡ with_gathered desk.old.ahead step) }
    ensures declared { OnOk result (desk.new.declared.items ≡ desk.old.declared.items) }
{
    desk.ahead.gather(step)
}

/// Follows a command of a script that neither gathers nor makes steps, and appends what it answers to a text that is empty.
///
/// # Errors
///
/// What memory was refused to. What the command does may have been done.
fn follow_beside(
    lined: &LinedObject,
    session: &mut Session,
    desk: &mut Desk,
    text: &mut String,
    command: &Command,
) -> Result<(), PlayFault>
    requires beside { is_beside_steps command.now ≡ true }
    requires shape { HasShape lined.now.object.layout (session_value meaning_of session.old) }
    requires empty { string_bytes text.old ≡ [] }
    ensures answers { OnOk result (answer (place_by meaning_of session.new desk.new) (string_bytes text.new)
        ≡ followed_at lined.now (place_by meaning_of session.old desk.old) command.now) }
    ensures shape { OnOk result (HasShape lined.now.object.layout (session_value meaning_of session.new)) }
{
    let mut none = StepsAhead::new(desk.alloc);
    follow(
        desk.alloc,
        lined.object.layout(),
        session,
        &mut none,
        text,
        command,
    )?;
    forget_by(&mut desk.declared, command);
    Ok(())
}

/// Follows a command of a script, and appends what it answers to a text that is empty.
///
/// # Errors
///
/// What memory was refused to. What the command does may have been done.
fn follow_at(
    lined: &LinedObject,
    session: &mut Session,
    desk: &mut Desk,
    text: &mut String,
    command: &Command,
) -> Result<(), PlayFault>
    requires shape { HasShape lined.now.object.layout (session_value meaning_of session.old) }
    requires empty { string_bytes text.old ≡ [] }
    ensures answers { OnOk result (answer (place_by meaning_of session.new desk.new) (string_bytes text.new)
        ≡ scripted_at lined.now (place_by meaning_of session.old desk.old) command.now) }
    ensures shape { OnOk result (HasShape lined.now.object.layout (session_value meaning_of session.new)) }
{
    match command {
        Command::Gather(step) => match gather(desk, *step) {
            Ok(()) => Ok(()),
            Err(_) => Err(PlayFault::Session),
        },
        Command::Go => go(lined, session, desk, text),
        Command::Continue => go_on(lined, session, desk, text),
        Command::Back(_)
        | Command::Show
        | Command::Images
        | Command::Values(_)
        | Command::Disarm(_)
        | Command::Detach(_) => follow_beside(lined, session, desk, text, command),
    }
}

/// Appends what the last step changed.
fn change(lined: &LinedObject, session: &Session, text: &mut String) -> Result<(), AllocError>
    requires shape { HasShape lined.now.object.layout (session_value meaning_of session.now) }
    ensures { OnOk result (string_bytes text.new ≡ string_bytes text.old ++ changed_text lined.now session.now.past.history session.now.past.state) }
{
    push_changed(text, lined, session.past.steps(), &session.look())
}

/// Does what is ordered, and appends the answer to a text that is empty.
///
/// # Errors
///
/// What memory was refused to. What is ordered may have been done.
fn obey(
    lined: &LinedObject,
    session: &mut Session,
    desk: &mut Desk,
    text: &mut String,
    line: &Line,
    order: &Order,
) -> Result<(), PlayFault>
    requires shape { HasShape lined.now.object.layout (session_value meaning_of session.old) }
    requires empty { string_bytes text.old ≡ [] }
    ensures answers { OnOk result (answer (place_by meaning_of session.new desk.new) (string_bytes text.new)
        ≡ ordered lined.now (place_by meaning_of session.old desk.old) line.now.bytes.items order.now) }
    ensures shape { OnOk result (HasShape lined.now.object.layout (session_value meaning_of session.new)) }
{
    let layout = lined.object.layout();
    match order {
        Order::Nothing | Order::Quit => Ok(()),
        Order::Script(command) => follow_at(lined, session, desk, text, command),
        Order::Make(step) => make(lined, session, desk, text, &[*step]),
        Order::Walk => walk(lined, session, desk, text),
        Order::Pick(number) => pick(lined, session, desk, text, *number),
        Order::Run(count) => run(lined, session, desk, text, *count),
        Order::Until(processor, place) => until(lined, session, desk, text, *processor, *place),
        Order::Finish(processor) => finish(lined, session, desk, text, *processor),
        Order::Undo(count) => Ok(take_back(session, text, *count as usize)?),
        Order::Goto(kept) => Ok(go_to(session, text, *kept as usize)?),
        Order::Reverse => Ok(reverse(session, text)?),
        Order::All(cond) => Ok(push_all_of(desk.alloc, text, &session.look(), cond)?),
        Order::Broken(cond) => Ok(push_broken(desk.alloc, text, &session.look(), cond)?),
        Order::Set(image) => Ok(push_set_of(desk.alloc, text, &session.look(), image)?),
        Order::Why(image) => Ok(push_why(desk.alloc, text, lined, session.past.steps(), image)?),
        Order::CrashTo(image) => crash_to(lined, session, desk, text, image),
        Order::Info => Ok(push_info(text, &desk.declared)?),
        Order::Delete(id) => Ok(delete(session, desk, text, *id)?),
        Order::Break(id, moment) => Ok(set_break(lined, desk, text, line, *id, *moment)?),
        Order::Changed => Ok(change(lined, session, text)?),
        Order::Ahead => Ok(push_steps(desk.alloc, text, desk.ahead.all())?),
        Order::List => Ok(push_list(text, lined, &session.look())?),
        Order::Next => Ok(push_next_steps(desk.alloc, text, layout, session.past.machine())?),
        Order::Word(word) => Ok(push_word(text, layout, &session.look(), *word)?),
        Order::Register(p, r) => Ok(push_register(text, &session.look(), *p, *r)?),
        Order::Notes => Ok(push_each(text, layout, &session.watchers)?),
        Order::History => Ok(push_steps(desk.alloc, text, session.past.steps())?),
        Order::Help => Ok(push_help(text)?),
        Order::Row(word) => Ok(push_row(text, *word)?),
    }
}

/// Does what a line orders, and appends the answer to a text that is empty; or appends why it orders nothing.
///
/// # Errors
///
/// What memory was refused to. What the line orders may have been done.
pub(crate) fn answer(
    lined: &LinedObject,
    session: &mut Session,
    desk: &mut Desk,
    text: &mut String,
    line: &Line,
    order: &Result<Order, LineFault>,
) -> Result<(), PlayFault>
    requires shape { HasShape lined.now.object.layout (session_value meaning_of session.old) }
    requires empty { string_bytes text.old ≡ [] }
    ensures answers { OnOk result (answer (place_by meaning_of session.new desk.new) (string_bytes text.new)
        ≡ answered lined.now (place_by meaning_of session.old desk.old) line.now.bytes.items (as_asked order.now) nothing_found) }
    ensures shape { OnOk result (HasShape lined.now.object.layout (session_value meaning_of session.new)) }
{
    match order {
        Ok(order) => obey(lined, session, desk, text, line, order),
        Err(fault) => Ok(push_fault(text, line, *fault)?),
    }
}
