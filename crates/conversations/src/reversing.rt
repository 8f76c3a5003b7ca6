//! Going back to where a stop would have ended a go.
ghost use Rattle.std.specs.Prelude.{◌≡◌, ◌<◌, ◌≤◌, ◌++◌, [], List, OnOk, length, string_bytes};
ghost use Rattle.std.specs.List.{list_any};
ghost use Rattle.images.specs.Truth.{holds_in};
ghost use Rattle.debugger.specs.Sessions.{unmade};
ghost use Rattle.debugger.specs.Values.{session_value, stops_armed};
ghost use Rattle.debug_scripts.specs.Ahead.{Ahead};
ghost use Rattle.conversations.specs.Answered.{answer, place, reversed_at, KeepsShape};
ghost use Rattle.conversations.specs.Desks.{Declaration};
ghost use Rattle.conversations.specs.Reversing.{is_stopped, reversed};

use crate::answering::push_back;
use debugger::{Session, Stop};
use machine::Machine;
use std::alloc::AllocError;

/// Whether the condition of one of the stops holds in the machine's state.
fn is_one_true(stops: &[Stop], machine: &Machine) -> bool
    ensures { result ≡ list_any (λ t. holds_in machine.now t.cond) (stops_armed stops.now) }
{
    for stop in stops {
        if stop.is_true(machine) {
            return true;
        }
    }
    false
}

/// Whether the condition of a stop holds.
fn is_stopped(session: &Session) -> bool
    ensures { result ≡ is_stopped (session_value meaning_of session.now) }
{
    is_one_true(&session.stops, session.past.machine())
}

/// Takes the last step back, and its notes.
fn step_back(session: &mut Session)
    requires some { 0 < length session.old.past.history }
    ensures { session_value meaning_of session.new ≡ unmade (session_value meaning_of session.old) 1 }
{
    let gone = session.undo(1);
    drop(gone);
}

/// Takes steps back, one after another, up to a state in which the condition of a stop holds, or to the beginning.
fn go_back(session: &mut Session)
    ensures session { session_value meaning_of session.new ≡ reversed (length session.old.past.history) (session_value meaning_of session.old) }
    ensures fewer { length session.new.past.history ≤ length session.old.past.history }
    ensures shape { KeepsShape (session_value meaning_of session.old) (session_value meaning_of session.new) }
{
    let mut left = session.past.len();
    while left > 0 {
        step_back(session);
        if is_stopped(session) {
            return;
        }
        left -= 1;
    }
}

/// The same, and appends to a text that is empty how many steps were taken back.
pub(crate) fn reverse(session: &mut Session, text: &mut String) -> Result<(), AllocError>
    requires empty { string_bytes text.old ≡ [] }
    ensures answers { OnOk result ((a : Ahead) (ds : List Declaration) → answer (place (session_value meaning_of session.new) a ds) (string_bytes text.new)
        ≡ reversed_at (place (session_value meaning_of session.old) a ds)) }
    ensures shape { KeepsShape (session_value meaning_of session.old) (session_value meaning_of session.new) }
{
    let made = session.past.len();
    go_back(session);
    let left = session.past.len();
    push_back(text, made - left, Ok(()))
}
