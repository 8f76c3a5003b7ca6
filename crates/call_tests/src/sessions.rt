//! The calls of a session that the tests make.
use crate::machines::loaded;
use debugger::{Halt, Session, Watcher};
use machine::Step;
use std::alloc::Global;
use std::test::Fail;

/// A session of the machine of a litmus text.
pub fn opened(alloc: Global, text: &str) -> Result<Session, Fail> {
    let session = Session::new(alloc, loaded(alloc, text)?).ok();
    Ok(session.ok_or("no memory")?)
}

/// Where a session halts.
pub fn go(session: &mut Session, steps: &[Step]) -> Halt {
    session.go(steps)
}

/// How many steps the session's machine made.
pub fn turns(session: &Session) -> u64 {
    session.look().turns()
}

/// Whether a watcher is attached.
pub fn is_attached(session: &mut Session, id: u32, watcher: Box<dyn Watcher>) -> bool {
    session.attach(id, watcher).is_ok()
}
