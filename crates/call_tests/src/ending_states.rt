//! The outcome of one schedule, which the commands only count.
use crate::machines::{ONE_WRITE, loaded};
use hunt::{Outcome, Tally, WordPair, outcome, tally};
use machine::Machine;
use schedule::{Plan, Range};
use std::alloc::{AllocError, Global};
use std::test::Fail;
use std::thread::Threads;
use workers::OpenGate;

/// Whether the registers are 0, and the word's value is buffered or pending, and not persisted.
pub fn is_pending(outcome: &Outcome) -> bool {
    let pending = WordPair {
        coherent: 1,
        persisted: 0,
    };
    outcome.registers() == [[0; 8]].as_slice() && outcome.words() == [pending].as_slice()
}

/// Whether a tally has an outcome twice, and no other.
fn is_twice(tally: &Tally, outcome: &Outcome) -> bool {
    match tally.get(0) {
        Some((counted, times)) => {
            *counted == *outcome && times == 2 && tally.len() == 1 && !tally.is_empty()
        }
        None => false,
    }
}

/// Two turns.
const PLAN: Plan = Plan {
    seed: 1,
    length: 2,
    crash_after: None,
    lazy: false,
};

/// Whether schedule 1 ends in that outcome, and a tally of a range of schedules has it twice.
fn is_pending_twice<R: Threads + Sync>(
    rt: &R,
    alloc: Global,
    machine: &Machine,
    range: Range,
) -> Result<[bool; 2], AllocError> {
    let outcome = outcome(alloc, machine, &PLAN, 1)?;
    let tally = tally(rt, alloc, machine, &PLAN, range, &OpenGate)?;
    let facts = [is_pending(&outcome), is_twice(&tally, &outcome)];
    drop((outcome, tally));
    Ok(facts)
}

/// Each turn has one enabled step: the write runs, leaves the store buffer, and persists, unless the turn before is
/// the last. So each of two schedules ends in one way, and a tally has it twice.
#[test]
fn an_outcome_has_registers_and_words(rt: HostRuntime) -> Result<(), Fail> {
    let range = Range::new(1, 2).ok_or("no numbers")?;
    let machine = loaded(rt.alloc(), ONE_WRITE)?;
    let facts = is_pending_twice(&rt, rt.alloc(), &machine, range);
    drop(machine);
    assert!(rt; facts? == [true, true]);
    Ok(())
}
