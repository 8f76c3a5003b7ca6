//! Playing the commands of a script.
ghost use Rattle.std.specs.Prelude.{◌≡◌, ◌≢◌, ◌++◌, ℕ, [], AllPairs, IfOk, List, None, OnOk, is_ok, length, map};
ghost use Rattle.debugger.specs.declared.halt.Halt.{Halt};
ghost use Rattle.debugger.specs.Halts.{made};
ghost use Rattle.debugger.specs.Sessions.{stop_of, watch_of, with_stop, with_watch};
ghost use Rattle.debugger.specs.Stops.{armed};
ghost use Rattle.debugger.specs.Values.{session_value, stops_armed, watch_by, watches_by};
ghost use Rattle.debug_scripts.specs.Ahead.{all_ahead};
ghost use Rattle.debug_scripts.specs.DebugReports.{HasShape, follow, prepared, with_stops, with_watches};
ghost use Rattle.debug_scripts.specs.Replies.{HasItsWords, IsCoursed, KeepsWords, Told, course, coursed, makes, noted, replies, told_by, turn, turn_to};
ghost use Rattle.debug_scripts.specs.SessionValues.{stand_by};

use crate::ahead::StepsAhead;
use crate::fault::PlayFault;
use crate::orders::Command;
use crate::reply::{Form, Reply};
use crate::session_text::push_reply;
use debugger::{Attached, Halt, Past, Session, SessionFault, Stop, Watcher};
use lines_layout::Layout;
use machine::{Machine, Step};
use std::alloc::{AllocError, Global};

/// Whether something was taken out.
fn is_taken<T: Drop>(out: Result<T, SessionFault>) -> bool
    ensures { result ≡ is_ok out }
{
    out.is_ok()
}

/// How many of these steps were made, where they halted so.
fn count_made(steps: &[Step], halt: Halt) -> usize
    ensures { result ≡ made steps.now halt }
{
    match halt {
        Halt::Stop(_, count) | Halt::Refused(count, _) | Halt::NoMemory(count) => count,
        Halt::End => steps.len(),
    }
}

/// Makes all steps that are ahead, up to where they halt: where that is, and how many were made.
///
/// # Errors
///
/// [`PlayFault::Session`], where memory was refused to the session. Steps may have been made.
fn go(session: &mut Session, ahead: &mut StepsAhead) -> Result<(Halt, usize), PlayFault>
    requires words { HasItsWords (session_value meaning_of session.old) }
    ensures made { IfOk result (λ done. (tells : Halt → ℕ → Told) → turn_to (session_value meaning_of session.new) ahead.new (tells done.0 done.1)
        ≡ makes tells (session_value meaning_of session.old) (all_ahead ahead.old)) }
    ensures words { KeepsWords (session_value meaning_of session.old) (session_value meaning_of session.new) }
{
    let halt = session.go(ahead.all());
    let count = count_made(ahead.all(), halt);
    ahead.leave(halt);
    match halt {
        Halt::NoMemory(_) => Err(PlayFault::Session),
        _ => Ok((halt, count)),
    }
}

/// Does what a command asks, and answers it.
///
/// # Errors
///
/// [`PlayFault::Session`], where memory was refused to the session. What the command does may have been done.
fn answer<'a>(
    session: &mut Session,
    ahead: &mut StepsAhead,
    command: &'a Command,
) -> Result<Reply<'a>, PlayFault>
    requires words { HasItsWords (session_value meaning_of session.old) }
    ensures turn { IfOk result (λ reply. turn_to (session_value meaning_of session.new) ahead.new (told_by session.new.past reply)
        ≡ turn (session_value meaning_of session.old) ahead.old command.now) }
    ensures words { KeepsWords (session_value meaning_of session.old) (session_value meaning_of session.new) }
{
    match command {
        Command::Gather(step) => match ahead.gather(*step) {
            Ok(()) => Ok(Reply::Kept),
            Err(AllocError) => Err(PlayFault::Session),
        },
        Command::Go => {
            ahead.forget_rest();
            let (halt, count) = go(session, ahead)?;
            Ok(Reply::Went(halt, count))
        }
        Command::Continue => {
            let (halt, count) = go(session, ahead)?;
            Ok(Reply::WentOn(halt, count))
        }
        Command::Back(count) => Ok(Reply::WentBack(*count, session.back(*count as usize))),
        Command::Show => Ok(Reply::Shown),
        Command::Images => Ok(Reply::Listed),
        Command::Values(order) => Ok(Reply::Valued(order)),
        Command::Disarm(id) => Ok(Reply::Disarmed(*id, is_taken(session.disarm(*id)))),
        Command::Detach(id) => Ok(Reply::Detached(*id, is_taken(session.detach(*id)))),
    }
}

/// Follows a command, and writes what it answers.
///
/// # Errors
///
/// What memory was refused to. What the command does may have been done.
pub fn follow(
    alloc: Global,
    layout: &Layout,
    session: &mut Session,
    ahead: &mut StepsAhead,
    text: &mut String,
    command: &Command,
) -> Result<(), PlayFault>
    requires shape { HasShape layout.now (session_value meaning_of session.old) }
    ensures follows { OnOk result (stand_by meaning_of session.new ahead.new text.new
        ≡ follow layout.now (stand_by meaning_of session.old ahead.old text.old) command.now) }
    ensures shape { OnOk result (HasShape layout.now (session_value meaning_of session.new)) }
{
    let reply = answer(session, ahead, command)?;
    push_reply(alloc, text, layout, &reply, &session.past)?;
    Ok(())
}

/// Follows commands, one after another, and puts on a page what each answers.
///
/// # Errors
///
/// What memory was refused to.
fn follow_all<P, F: Form<P>>(
    alloc: Global,
    form: &F,
    page: &mut P,
    session: &mut Session,
    ahead: &mut StepsAhead,
    commands: &[Command],
) -> Result<(), PlayFault>
    requires empty { F.Tells form.now page.old [] }
    requires shape { HasShape (F.names form.now) (session_value meaning_of session.old) }
    ensures shape { OnOk result (HasShape (F.names form.now) (session_value meaning_of session.new)) }
    ensures told { OnOk result (IsCoursed (F.Tells form.now page.new) (session_value meaning_of session.new)
        (coursed (course (session_value meaning_of session.old) ahead.old []) commands.now)) }
{
    for command in commands {
        let reply = answer(session, ahead, command)?;
        form.put(alloc, page, &reply, &session.past)?;
    }
    Ok(())
}

/// Puts the notes of each watcher on a page. The session has been through this.
fn put_notes<P, F: Form<P>>(
    alloc: Global,
    form: &F,
    page: &mut P,
    past: &Past,
    watchers: &[Attached],
) -> Result<(), AllocError>
    requires { past.now.state.shape ≡ map length (F.names form.now) }
    ensures { OnOk result ((told : List Told) → F.Tells form.now page.old told
        → F.Tells form.now page.new (told ++ map noted (watches_by meaning_of watchers.now))) }
{
    for attached in watchers {
        form.put(
            alloc,
            page,
            &Reply::Noted(attached.id, attached.notes()),
            past,
        )?;
    }
    Ok(())
}

/// Puts on a page what commands come to, on a session that they change.
///
/// # Errors
///
/// As of [`played`].
fn put_replies<P, F: Form<P>>(
    alloc: Global,
    form: &F,
    page: &mut P,
    session: &mut Session,
    commands: &[Command],
) -> Result<(), PlayFault>
    requires empty { F.Tells form.now page.old [] }
    requires shape { HasShape (F.names form.now) (session_value meaning_of session.old) }
    ensures { OnOk result (F.Tells form.now page.new (replies (session_value meaning_of session.old) commands.now)) }
{
    let mut ahead = StepsAhead::new(alloc);
    follow_all(alloc, form, page, session, &mut ahead, commands)?;
    put_notes(
        alloc,
        form,
        page,
        &session.past,
        session.watchers.as_slice(),
    )?;
    Ok(())
}

/// Puts on an empty page what commands come to, on a session whose machine has the words that the form names: what each
/// answers, and then the notes of the watchers that are still attached.
///
/// # Errors
///
/// What memory was refused to. The steps before may have been made.
pub fn played<P, F: Form<P>>(
    alloc: Global,
    form: &F,
    page: &mut P,
    begun: Session,
    commands: &[Command],
) -> Result<(), PlayFault>
    requires empty { F.Tells form.now page.old [] }
    requires shape { HasShape (F.names form.now) (session_value meaning_of begun) }
    ensures { OnOk result (F.Tells form.now page.new (replies (session_value meaning_of begun) commands.now)) }
{
    let mut current = begun;
    let done = put_replies(alloc, form, page, &mut current, commands);
    drop(current);
    done
}

/// Arms a stop whose id is free: it is refused only where memory runs out.
fn arm(session: &mut Session, stop: Stop) -> Result<(), PlayFault>
    requires free { stop_of (session_value meaning_of session.old) stop.id ≡ None }
    ensures { OnOk result (session_value meaning_of session.new
        ≡ with_stop (session_value meaning_of session.old) (armed stop.id stop.cond)) }
{
    match session.arm(stop) {
        Ok(()) => Ok(()),
        Err(_) => Err(PlayFault::Session),
    }
}

/// Attaches a watcher whose id is free: it is refused only where memory runs out.
fn attach(session: &mut Session, attached: Attached) -> Result<(), PlayFault>
    requires free { watch_of (session_value meaning_of session.old) attached.id ≡ None }
    ensures { OnOk result (session_value meaning_of session.new
        ≡ with_watch (session_value meaning_of session.old)
        (watch_by meaning_of attached)) }
{
    match session.attach(attached.id, attached.watcher) {
        Ok(()) => Ok(()),
        Err(_) => Err(PlayFault::Session),
    }
}

/// Arms stops whose ids differ, one after another, where none is armed.
fn arm_all(session: &mut Session, stops: Vec<Stop>) -> Result<(), PlayFault>
    requires none { (session_value meaning_of session.old).stops ≡ [] }
    requires apart { AllPairs ◌≢◌ (map (λ t. t.id) stops.items) }
    ensures { OnOk result (session_value meaning_of session.new
        ≡ with_stops (session_value meaning_of session.old) (stops_armed stops.items)) }
{
    for stop in stops {
        arm(session, stop)?;
    }
    Ok(())
}

/// Attaches watchers whose ids differ, one after another, where none is attached.
fn attach_all(session: &mut Session, watchers: Vec<Attached>) -> Result<(), PlayFault>
    requires none { (session_value meaning_of session.old).watches ≡ [] }
    requires apart { AllPairs ◌≢◌ (map (λ w. w.id) watchers.items) }
    ensures { OnOk result (session_value meaning_of session.new
        ≡ with_watches (session_value meaning_of session.old)
        (watches_by meaning_of watchers.items)) }
{
    for attached in watchers {
        attach(session, attached)?;
    }
    Ok(())
}

/// Arms stops and attaches watchers, whose ids differ, where none is armed and none attached.
fn prepare(
    session: &mut Session,
    stops: Vec<Stop>,
    watchers: Vec<Attached>,
) -> Result<(), PlayFault>
    requires unarmed { (session_value meaning_of session.old).stops ≡ [] }
    requires unwatched { (session_value meaning_of session.old).watches ≡ [] }
    requires stops { AllPairs ◌≢◌ (map (λ t. t.id) stops.items) }
    requires watchers { AllPairs ◌≢◌ (map (λ w. w.id) watchers.items) }
    ensures { OnOk result (session_value meaning_of session.new
        ≡ with_watches (with_stops (session_value meaning_of session.old) (stops_armed stops.items))
        (watches_by meaning_of watchers.items)) }
{
    arm_all(session, stops)?;
    attach_all(session, watchers)
}

/// [`played`] on a session that begins at the machine's state, with these stops and watchers, armed and
/// attached one after another. The ids of the stops differ, and so do those of the watchers.
///
/// # Errors
///
/// What memory was refused to.
pub fn play<P, F: Form<P>>(
    alloc: Global,
    form: &F,
    page: &mut P,
    machine: Machine,
    stops: Vec<Stop>,
    watchers: Vec<Attached>,
    commands: &[Command],
) -> Result<(), PlayFault>
    requires empty { F.Tells form.now page.old [] }
    requires shape { machine.shape ≡ map length (F.names form.now) }
    requires stops { AllPairs ◌≢◌ (map (λ t. t.id) stops.items) }
    requires watchers { AllPairs ◌≢◌ (map (λ w. w.id) watchers.items) }
    ensures told { OnOk result (F.Tells form.now page.new (replies
        (prepared machine (stops_armed stops.items) (watches_by meaning_of watchers.items)) commands.now)) }
{
    let Ok(mut session) = Session::new(alloc, machine) else {
        return Err(PlayFault::Session);
    };
    match prepare(&mut session, stops, watchers) {
        Ok(()) => played(alloc, form, page, session, commands),
        Err(fault) => {
            drop(session);
            Err(fault)
        }
    }
}
