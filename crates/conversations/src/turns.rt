//! Lines are heard and answered, one after another. The boxes that stops and watches need are made here, by the function that owns
//! the session: what is proved of a box depends on who makes it.
ghost use Rattle.std.specs.Prelude.{◌≡◌, [], OnOk, length, map, string_bytes};
ghost use Rattle.images.specs.Truth.{holds_in};
ghost use Rattle.debugger.specs.Notes.{meaning};
ghost use Rattle.debugger.specs.Writes.{word_selection};
ghost use Rattle.debugger.specs.Sessions.{watch};
ghost use Rattle.debugger.specs.Values.{session_value, watch_by};
ghost use Rattle.debug_scripts.specs.DebugReports.{HasShape};
ghost use Rattle.talks.specs.Conversations.{Talks};
ghost use Rattle.conversations.specs.Asking.{as_asked};
ghost use Rattle.conversations.specs.Checking.{ahead_found, found_text, nothing_found};
ghost use Rattle.conversations.specs.Answered.{answered, armed_at, first_place, partner, place_by, watched_at, KeepsShape};
ghost use Rattle.conversations.specs.Turning.{Asks, IsRead, Replies, RepliesFound, TellsMore, ended, is_more, may_go_on};

use crate::answering::{answer, arm, attach};
use crate::asked::{Asked, Order, asked_in};
use crate::checked::{found_of, load, push_found};
use crate::desk::Desk;
use crate::heard::Heard;
use crate::line_fault::LineFault;
use crate::own_words::is_quit;
use commands::MAX_INPUT;
use debugger::{Attached, Session, Stop, Watcher, WordWatch};
use explore::{ExploreFault, Verdict};
use images::{Cond, holds};
use lines_layout::{Layout, WordId};
use litmus_text::LinedObject;
use machine::Machine;
use outcomes::OrNoMemory;
use std::alloc::{AllocError, Global};
use talks::{Line, TalkFault, Terminal, hear_line, is_nothing, say};

/// Whether there may be more after a line.
fn goes_on(line: &Line) -> bool
    ensures { result ≡ may_go_on line.now.is_fed line.now.bytes.items }
{
    line.is_fed && !is_quit(&line.bytes)
}

/// What a line asks.
///
/// # Errors
///
/// [`TalkFault::NoMemory`].
fn read(alloc: Global, layout: &Layout, line: Line) -> Result<Heard, TalkFault>
    ensures { IsRead layout.now line result }
{
    match asked_in(alloc, layout, &line.bytes) {
        Ok(Asked::Stop(id, cond)) => match cond.copy(alloc) {
            Ok(asked) => Ok(Heard::Stop(line, id, asked, cond)),
            Err(_) => {
                drop((line, cond));
                Err(TalkFault::NoMemory)
            }
        },
        Ok(Asked::Watch(order, halts)) => Ok(Heard::Watch(line, order, halts)),
        Ok(Asked::Check(cond)) => Ok(Heard::Check(line, cond)),
        Ok(Asked::Order(order)) => Ok(Heard::Other(line, Ok(order))),
        Err(OrNoMemory::Fault(fault)) => Ok(Heard::Other(line, Err(fault))),
        Err(OrNoMemory::NoMemory) => {
            drop(line);
            Err(TalkFault::NoMemory)
        }
    }
}

/// Asks for a line, hears it, and reads what it asks. At most `left` bytes may still be heard, of which it takes those of the line.
///
/// # Errors
///
/// As of [`talk`].
fn ask<T: Terminal>(
    alloc: Global,
    lined: &LinedObject,
    terminal: &mut T,
    left: &mut usize,
) -> Result<Heard, TalkFault>
    requires { T.is_ready terminal.old }
    ensures went { Asks lined.now (T.went terminal.old terminal.new) left.old left.new result }
    ensures ready { OnOk result (T.is_ready terminal.new) }
{
    say(terminal, b"px86> ")?;
    let line = hear_line(alloc, terminal, left)?;
    if is_nothing(&line) {
        return Ok(Heard::Nothing);
    }
    read(alloc, lined.object.layout(), line)
}

/// Writes the answer to a line. Whether there may be more.
///
/// # Errors
///
/// [`TalkFault::WriteFailed`].
fn tell<T: Terminal>(terminal: &mut T, line: &Line, text: &[u8]) -> Result<bool, TalkFault>
    requires { T.is_ready terminal.old }
    ensures told { TellsMore (T.went terminal.old terminal.new) text.now (may_go_on line.now.is_fed line.now.bytes.items) result }
    ensures ready { OnOk result (T.is_ready terminal.new) }
{
    match say(terminal, text) {
        Ok(()) => Ok(goes_on(line)),
        Err(fault) => Err(fault),
    }
}

/// Arms a stop that a line declares, and answers the line. Whether there may be more.
///
/// # Errors
///
/// [`TalkFault::NoMemory`], and then nothing is written; [`TalkFault::WriteFailed`].
fn reply_stop<T: Terminal>(
    terminal: &mut T,
    session: &mut Session,
    desk: &mut Desk,
    line: Line,
    stop: Stop,
) -> Result<bool, TalkFault>
    requires { T.is_ready terminal.old }
    ensures went { Replies (T.went terminal.old terminal.new) (armed_at (place_by meaning_of session.old desk.old) line.bytes.items stop.id stop.cond)
        (place_by meaning_of session.new desk.new) (may_go_on line.is_fed line.bytes.items) result }
    ensures ready { OnOk result (T.is_ready terminal.new) }
    ensures shape { OnOk result (KeepsShape (session_value meaning_of session.old) (session_value meaning_of session.new)) }
{
    let mut text = String::new(desk.alloc);
    match arm(session, desk, &mut text, &line, stop) {
        Ok(()) => tell(terminal, &line, text.as_bytes()),
        Err(_) => Err(TalkFault::NoMemory),
    }
}

/// A watcher of a word, under an id.
fn watched(id: u32, word: WordId, watcher: Box<dyn Watcher>) -> Attached
    requires { meaning_of watcher ≡ meaning [] (word_selection word) }
    ensures id { result.id ≡ id }
    ensures watches { watch result.id (meaning_of result.watcher) ≡ watch result.id (meaning [] (word_selection word)) }
{
    Attached { id, watcher }
}

/// Attaches a watcher of a word that a line declares, which may halt steps, and answers the line. Whether there may be more.
///
/// # Errors
///
/// [`TalkFault::NoMemory`], and then nothing is written; [`TalkFault::WriteFailed`].
fn reply_watch<T: Terminal>(
    terminal: &mut T,
    session: &mut Session,
    desk: &mut Desk,
    line: Line,
    attached: Attached,
    word: WordId,
    halts: bool,
) -> Result<bool, TalkFault>
    requires ready { T.is_ready terminal.old }
    requires watches { watch_by meaning_of attached ≡ watch attached.id (meaning [] (word_selection word)) }
    ensures went { Replies (T.went terminal.old terminal.new) (watched_at (place_by meaning_of session.old desk.old) line.bytes.items attached.id word halts)
        (place_by meaning_of session.new desk.new) (may_go_on line.is_fed line.bytes.items) result }
    ensures ready { OnOk result (T.is_ready terminal.new) }
    ensures shape { OnOk result (KeepsShape (session_value meaning_of session.old) (session_value meaning_of session.new)) }
{
    let mut text = String::new(desk.alloc);
    match attach(session, desk, &mut text, &line, attached, word, halts) {
        Ok(()) => tell(terminal, &line, text.as_bytes()),
        Err(_) => Err(TalkFault::NoMemory),
    }
}

/// Does what another line orders, and answers the line. Whether there may be more.
///
/// # Errors
///
/// [`TalkFault::NoMemory`], and then nothing is written; [`TalkFault::WriteFailed`].
fn reply<T: Terminal>(
    lined: &LinedObject,
    terminal: &mut T,
    session: &mut Session,
    desk: &mut Desk,
    line: Line,
    order: Result<Order, LineFault>,
) -> Result<bool, TalkFault>
    requires ready { T.is_ready terminal.old }
    requires shape { HasShape lined.now.object.layout (session_value meaning_of session.old) }
    ensures went { Replies (T.went terminal.old terminal.new) (answered lined.now (place_by meaning_of session.old desk.old) line.bytes.items (as_asked order) nothing_found)
        (place_by meaning_of session.new desk.new) (may_go_on line.is_fed line.bytes.items) result }
    ensures ready { OnOk result (T.is_ready terminal.new) }
    ensures shape { OnOk result (HasShape lined.now.object.layout (session_value meaning_of session.new)) }
{
    let mut text = String::new(desk.alloc);
    match answer(lined, session, desk, &mut text, &line, &order) {
        Ok(()) => tell(terminal, &line, text.as_bytes()),
        Err(_) => Err(TalkFault::NoMemory),
    }
}

/// Appends to a text that is empty what was found of all runs, and loads the run that fails, if one was found.
fn tell_found(
    desk: &mut Desk,
    text: &mut String,
    found: &Result<Verdict, ExploreFault>,
) -> Result<(), AllocError>
    requires empty { string_bytes text.old ≡ [] }
    ensures text { OnOk result (string_bytes text.new ≡ found_text found.now) }
    ensures ahead { OnOk result (desk.new.ahead ≡ ahead_found desk.old.ahead found.now) }
    ensures declared { OnOk result (desk.new.declared.items ≡ desk.old.declared.items) }
{
    push_found(text, found)?;
    load(desk.alloc, &mut desk.ahead, found)
}

/// Explores every run from here, and answers the line that asks for it. Whether there may be more.
///
/// # Errors
///
/// [`TalkFault::NoMemory`], and then nothing is written; [`TalkFault::WriteFailed`].
fn reply_check<T: Terminal>(
    lined: &LinedObject,
    terminal: &mut T,
    session: &Session,
    desk: &mut Desk,
    line: Line,
    cond: Cond,
) -> Result<bool, TalkFault>
    requires { T.is_ready terminal.old }
    ensures went { RepliesFound lined.now (T.went terminal.old terminal.new) (place_by meaning_of session.now desk.old)
        (place_by meaning_of session.now desk.new) cond (may_go_on line.is_fed line.bytes.items) result }
    ensures ready { OnOk result (T.is_ready terminal.new) }
{
    let found = found_of(desk.alloc, lined, session.past.steps(), cond);
    let mut text = String::new(desk.alloc);
    match tell_found(desk, &mut text, &found) {
        Ok(()) => tell(terminal, &line, text.as_bytes()),
        Err(_) => Err(TalkFault::NoMemory),
    }
}

/// Whether there may be more after a turn.
fn is_more(turn: &Result<bool, TalkFault>) -> bool
    ensures { result ≡ is_more turn.now }
{
    match turn {
        Ok(more) => *more,
        Err(_) => false,
    }
}

/// How a conversation ended, by its last turn.
fn ended(turn: Result<bool, TalkFault>) -> Result<(), TalkFault>
    ensures { result ≡ ended turn }
{
    match turn {
        Ok(_) => Ok(()),
        Err(fault) => Err(fault),
    }
}

/// A conversation with a session that begins at the machine's state: lines are heard, up to the end or to `quit`, and each is
/// answered before the next is heard.
///
/// # Errors
///
/// Why it broke off: what was written until then stays.
pub(crate) fn talk<T: Terminal>(
    alloc: Global,
    lined: &LinedObject,
    machine: Machine,
    terminal: &mut T,
) -> Result<(), TalkFault>
    requires ready { T.is_ready terminal.old }
    requires shape { machine.shape ≡ map length lined.now.object.layout }
    ensures { Talks (partner lined.now) (T.went terminal.old terminal.new) (first_place machine) result }
{
    let Ok(mut session) = Session::new(alloc, machine) else {
        return Err(TalkFault::NoMemory);
    };
    let mut desk = Desk::new(alloc);
    let mut left = MAX_INPUT;
    let mut turn: Result<bool, TalkFault> = Ok(true);
    while is_more(&turn) {
        turn = match ask(alloc, lined, terminal, &mut left) {
            Ok(Heard::Stop(line, id, asked, cond)) => match Box::new(
                alloc,
                move |machine: &Machine| -> bool
                    ensures { result ≡ holds_in machine.now asked }
                { holds(&asked, &machine.view()) },
            ) {
                Ok(test) => {
                    let stop = Stop::new(id, cond, test);
                    reply_stop(terminal, &mut session, &mut desk, line, stop)
                }
                Err(_) => Err(TalkFault::NoMemory),
            },
            Ok(Heard::Watch(line, order, halts)) => match Box::new(
                alloc,
                WordWatch::new(alloc, order.word),
            ) {
                Ok(watcher) => reply_watch(
                    terminal,
                    &mut session,
                    &mut desk,
                    line,
                    watched(order.id, order.word, watcher),
                    order.word,
                    halts,
                ),
                Err(_) => Err(TalkFault::NoMemory),
            },
            Ok(Heard::Check(line, cond)) => {
                reply_check(lined, terminal, &session, &mut desk, line, cond)
            }
            Ok(Heard::Other(line, order)) => {
                reply(lined, terminal, &mut session, &mut desk, line, order)
            }
            Ok(Heard::Nothing) => Ok(false),
            Err(fault) => Err(fault),
        };
    }
    drop((session, desk));
    ended(turn)
}
