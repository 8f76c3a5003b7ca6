//! A watcher that finds no room keeps the next step from being made.
use crate::machines::{DRAIN, EXEC, WRITERS};
use crate::sessions::{first_notes, go, is_attached, is_detached, opened, turns};
use debugger::{Halt, Note, Session, SessionFault, Watcher, WordWatch};
use lines_layout::WordId;
use machine::{Machine, Seen, Step};
use outcomes::OrNoMemory;
use std::alloc::{AllocError, Global};
use std::test::Fail;

/// A watcher that has no room, and selects nothing.
#[derive(Drop)]
struct Full;

impl Watcher for Full {
    ghost use Rattle.std.specs.Prelude.{[], false};
    ghost use Rattle.debugger.specs.Notes.{meaning};

    ghost meaning_of = { λ w. meaning [] (λ number seen s. false) };

    ghost has_room = { λ w. Unit {0} };

    fn ready(&mut self) -> Result<(), AllocError> {
        Err(AllocError)
    }

    fn note(&mut self, _number: u64, _seen: &Seen, _machine: &Machine) {}

    fn forget(&mut self, _kept: u64) {}

    fn notes(&self) -> &[Note] {
        &[]
    }
}

/// Whether the word is watched under an id.
fn watches(alloc: Global, session: &mut Session, id: u32) -> Option<bool> {
    let x = WordId::new(0)?;
    let watch = Box::new(alloc, WordWatch::new(alloc, x)).ok()?;
    Some(is_attached(session, id, watch))
}

/// Whether a watcher that has no room is attached under an id.
fn attaches_full(alloc: Global, session: &mut Session, id: u32) -> Option<bool> {
    let full = Box::new(alloc, Full).ok()?;
    Some(is_attached(session, id, full))
}

/// Without room in a watcher no step is made, and no other watcher is told.
#[test]
fn full_watcher_halts(rt: HostRuntime) -> Result<(), Fail> {
    let alloc = rt.alloc();
    let mut session = opened(alloc, WRITERS)?;
    let first = go(&mut session, &[EXEC]);
    let are_attached = [
        watches(alloc, &mut session, 1),
        attaches_full(alloc, &mut session, 2),
    ];
    let full = go(&mut session, &[DRAIN, Step::Crash]);
    let kept = (turns(&session), first_notes(&session));
    let is_detached = is_detached(&mut session, 2);
    let last = go(&mut session, &[DRAIN, Step::Crash]);
    let notes = first_notes(&session);
    drop(session);
    assert!(rt; first == Halt::End && are_attached == [Some(true); 2]);
    assert!(rt; full == Halt::NoMemory(0) && kept == (1, 0));
    assert!(rt; is_detached && last == Halt::End && notes == 1);
    Ok(())
}

/// Whether a watcher is refused under an id, and attached under another one then.
fn is_handed_back(session: &mut Session, ids: [u32; 2], watcher: Box<dyn Watcher>) -> bool {
    match session.attach(ids[0], watcher) {
        Err((OrNoMemory::Fault(SessionFault::DoubleId), watcher)) => is_attached(
            session, ids[1], watcher,
        ),
        _ => false,
    }
}

/// Whether one that has no room is.
fn hands_full_back(alloc: Global, session: &mut Session, ids: [u32; 2]) -> Option<bool> {
    let full = Box::new(alloc, Full).ok()?;
    Some(is_handed_back(session, ids, full))
}

/// A watcher whose id is taken is handed back, and attached under another one it is asked for room.
#[test]
fn a_watcher_is_handed_back(rt: HostRuntime) -> Result<(), Fail> {
    let alloc = rt.alloc();
    let mut session = opened(alloc, WRITERS)?;
    let watches = watches(alloc, &mut session, 1);
    let first = go(&mut session, &[EXEC, DRAIN]);
    let is_handed_back = hands_full_back(alloc, &mut session, [1, 2]);
    let second = go(&mut session, &[Step::Crash]);
    let kept = (turns(&session), first_notes(&session));
    drop(session);
    assert!(rt; watches == Some(true) && first == Halt::End);
    assert!(rt; is_handed_back == Some(true) && second == Halt::NoMemory(0) && kept == (2, 1));
    Ok(())
}
