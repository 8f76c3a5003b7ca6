//! Copies and lists that find no memory. `tests/refused-memory` runs each of these tests many times, and each time refuses
//! another allocation that is made between [`refuse`] and [`spare`]. A call that meets the refusal answers that memory ran
//! out, and the same call made again answers what it answers otherwise.
use crate::fixtures::{executed, word};
use crate::refusals::{one_is_right, refuse, say, spare};
use machine::Machine;
use persist_buffer::{Pending, PendingEntry};
use std::alloc::{AllocError, Global};
use std::io::Eprint;
use std::test::Fail;

/// What is pending once the main program of `executed` has run to its end.
fn entries() -> Result<[PendingEntry; 4], Fail> {
    let (x, y) = (word(0)?, word(8)?);
    Ok([
        PendingEntry::Write(x, 1),
        PendingEntry::Marker(x.line()),
        PendingEntry::Write(y, 2),
        PendingEntry::Write(x, 0),
    ])
}

/// What a call answered, unless memory ran out, which is said.
fn found<R: Eprint, T: Drop>(rt: &R, answer: Result<T, AllocError>) -> Option<T> {
    match answer {
        Ok(value) => Some(value),
        Err(_) => {
            say(rt, "out of memory");
            None
        }
    }
}

/// Whether a list has these entries.
fn are(list: Result<Vec<PendingEntry>, AllocError>, entries: &[PendingEntry]) -> bool {
    match list {
        Ok(list) => list.as_slice() == entries,
        Err(_) => false,
    }
}

/// Whether a copy of a machine has these entries pending, and as many turns behind it.
fn copies<R: Eprint>(
    rt: &R,
    alloc: Global,
    machine: &Machine,
    entries: &[PendingEntry],
) -> Option<bool> {
    refuse(rt);
    let answer = machine.copy(alloc);
    spare(rt);
    let copy = found(rt, answer)?;
    let is_right = copy.view().turns() == 8 && are(copy.view().pending_list(alloc), entries);
    drop(copy);
    Some(is_right)
}

/// Whether what is pending in a machine is listed as these entries.
fn shows<R: Eprint>(
    rt: &R,
    alloc: Global,
    machine: &Machine,
    entries: &[PendingEntry],
) -> Option<bool> {
    refuse(rt);
    let answer = machine.view().pending_list(alloc);
    spare(rt);
    Some(found(rt, answer)?.as_slice() == entries)
}

#[test]
fn machines_are_copied(rt: HostRuntime) -> Result<(), Fail> {
    let (alloc, entries) = (rt.alloc(), entries()?);
    let machine = executed(alloc)?;
    let copies = [
        copies(&rt, alloc, &machine, &entries),
        copies(&rt, alloc, &machine, &entries),
    ];
    drop(machine);
    assert!(rt; one_is_right(copies));
    Ok(())
}

#[test]
fn pending_entries_are_shown(rt: HostRuntime) -> Result<(), Fail> {
    let (alloc, entries) = (rt.alloc(), entries()?);
    let machine = executed(alloc)?;
    let shows = [
        shows(&rt, alloc, &machine, &entries),
        shows(&rt, alloc, &machine, &entries),
    ];
    drop(machine);
    assert!(rt; one_is_right(shows));
    Ok(())
}

/// Whether these are the entries of a pending list.
fn lists<R: Eprint>(
    rt: &R,
    alloc: Global,
    pending: &Pending,
    entries: &[PendingEntry],
) -> Option<bool> {
    refuse(rt);
    let answer = pending.list(alloc);
    spare(rt);
    Some(found(rt, answer)?.as_slice() == entries)
}

/// Whether they are those of a copy of it.
fn doubles<R: Eprint>(
    rt: &R,
    alloc: Global,
    pending: &Pending,
    entries: &[PendingEntry],
) -> Option<bool> {
    refuse(rt);
    let answer = pending.copy(alloc);
    spare(rt);
    let copy = found(rt, answer)?;
    let is_right = are(copy.list(alloc), entries);
    drop(copy);
    Some(is_right)
}

#[test]
fn pending_lists_are_listed(rt: HostRuntime) -> Result<(), Fail> {
    let (alloc, entries) = (rt.alloc(), entries()?);
    let machine = executed(alloc)?;
    let view = machine.view();
    let lists = [
        lists(&rt, alloc, view.pending(), &entries),
        lists(&rt, alloc, view.pending(), &entries),
    ];
    drop(machine);
    assert!(rt; one_is_right(lists));
    Ok(())
}

#[test]
fn pending_lists_are_copied(rt: HostRuntime) -> Result<(), Fail> {
    let (alloc, entries) = (rt.alloc(), entries()?);
    let machine = executed(alloc)?;
    let view = machine.view();
    let doubles = [
        doubles(&rt, alloc, view.pending(), &entries),
        doubles(&rt, alloc, view.pending(), &entries),
    ];
    drop(machine);
    assert!(rt; one_is_right(doubles));
    Ok(())
}
