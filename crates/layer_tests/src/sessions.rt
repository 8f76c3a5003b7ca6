//! The calls of a session that the tests make.
use crate::machines::loaded;
use debugger::{Halt, Session, SessionFault, Stop, Watcher};
use machine::Step;
use std::alloc::Global;
use std::test::Fail;

/// A session of the machine of a litmus text.
pub fn opened(alloc: Global, text: &str) -> Result<Session, Fail> {
    let session = Session::new(alloc, loaded(alloc, text)?).ok();
    Ok(session.ok_or("no memory")?)
}

/// Where a session halts.
pub fn go(session: &mut Session, steps: &[Step]) -> Halt {
    session.go(steps)
}

/// Whether a session goes back.
pub fn back(session: &mut Session, count: usize) -> Result<(), SessionFault> {
    session.back(count)
}

/// How many steps the session's machine made.
pub fn turns(session: &Session) -> u64 {
    session.look().turns()
}

/// How many steps the last going back replayed.
pub fn replayed(session: &Session) -> u64 {
    session.replayed()
}

/// Whether a stop is armed.
pub fn is_armed(session: &mut Session, stop: Stop) -> bool {
    session.arm(stop).is_ok()
}

/// Whether a stop is disarmed.
pub fn is_disarmed(session: &mut Session, id: u32) -> bool {
    session.disarm(id).is_ok()
}

/// Whether a watcher is attached.
pub fn is_attached(session: &mut Session, id: u32, watcher: Box<dyn Watcher>) -> bool {
    session.attach(id, watcher).is_ok()
}

/// Whether a watcher is detached.
pub fn is_detached(session: &mut Session, id: u32) -> bool {
    session.detach(id).is_ok()
}

/// How many notes the first watcher has.
pub fn first_notes(session: &Session) -> usize {
    match session.watchers.first() {
        Some(attached) => attached.notes().len(),
        None => 0,
    }
}
