//! Calls that take no memory: steps, whether they are accepted or refused, and what is asked of states; going back to a
//! state that is kept. `tests/refused-memory` runs these tests, counts what they allocate between [`refuse`] and [`spare`],
//! and wants nothing there.
ghost use Rattle.machine.specs.Programs.{AreSiblings};

use crate::machines::{DRAIN, EXEC, SPINNER, loaded};
use crate::refusals::{refuse, spare};
use crate::sessions::{back, go, opened, turns};
use debugger::{Halt, SessionFault};
use images::Count;
use machine::{Machine, Refusal, Step};
use std::alloc::{AllocError, Global};
use std::io::Eprint;
use std::test::Fail;

/// A processor that writes two words, flushes one and exchanges it, and does the same after a crash.
const BUSY: &str = "litmus 1\nline x\nline y\n\
    cpu\nmov [x], 1\nclflush [x]\nmov [y], 2\nmfence\nlock xadd [x], rcx\n\
    recover\nmov [x], 1\nclflush [x]\nmov [y], 2\nmfence\nlock xadd [x], rcx\nend\n";

/// A round of steps, up to a crash, with the refusal of each that is refused: 13 of 19 are accepted.
const ROUND: [(Step, Option<Refusal>); 19] = [
    (EXEC, None),
    (EXEC, None),
    (EXEC, None),
    (EXEC, Some(Refusal::BufferNotEmpty)),
    (Step::Drain(0, 2), Some(Refusal::Held(0))),
    (DRAIN, None),
    (DRAIN, None),
    (DRAIN, None),
    (EXEC, None),
    (EXEC, None),
    (EXEC, Some(Refusal::Halted)),
    (Step::Persist(1), Some(Refusal::BehindMarker)),
    (Step::Settle, Some(Refusal::MarkerWaits)),
    (Step::Persist(0), None),
    (Step::Settle, None),
    (Step::Persist(1), None),
    (Step::Persist(0), None),
    (Step::Settle, Some(Refusal::NoMarker)),
    (Step::Crash, None),
];

/// How many steps of a round are accepted.
const ACCEPTED: u64 = 13;

/// Whether a step is accepted, or refused so, by `check` and then by `step`.
fn is_answered(machine: &mut Machine, step: Step, refusal: Option<Refusal>) -> bool {
    if machine.check(step) != refusal {
        return false;
    }
    match machine.step(step) {
        Ok(_) => refusal.is_none(),
        Err(refused) => refusal == Some(refused),
    }
}

/// Whether each step of a round is.
fn is_round(machine: &mut Machine) -> bool {
    for (step, refusal) in ROUND {
        if !is_answered(machine, step, refusal) {
            return false;
        }
    }
    true
}

/// Whether so many rounds are.
fn are_rounds(machine: &mut Machine, count: u64) -> bool {
    for _ in 0..count {
        if !is_round(machine) {
            return false;
        }
    }
    true
}

/// 77,000 rounds are more than a million accepted steps.
#[test]
fn a_million_steps_take_none(rt: HostRuntime) -> Result<(), Fail> {
    let mut machine = loaded(rt.alloc(), BUSY)?;
    refuse(&rt);
    let are_rounds = are_rounds(&mut machine, 77_000);
    spare(&rt);
    let made = machine.view().turns();
    drop(machine);
    assert!(rt; are_rounds && made == 77_000 * ACCEPTED);
    Ok(())
}

/// The steps of a round up to the locked operation, in another order: four entries are pending then.
const PENDING: [Step; 8] = [EXEC, EXEC, DRAIN, EXEC, DRAIN, DRAIN, EXEC, EXEC];

/// Makes steps, and then the state is that of a copy again: how many were accepted.
fn run_and_restored(machine: &mut Machine, copy: &Machine, steps: &[Step]) -> usize
    requires { AreSiblings machine.old copy.now }
{
    let (made, _) = machine.run(steps);
    machine.restore(copy);
    made
}

/// Whether a state with pending writes of both words around a marker answers what is asked of it: six candidates for an
/// image; the processor is at its end, nothing is buffered, and of the lines that of x may persist.
fn answers(machine: &Machine) -> bool {
    let facts = [
        Count::of(images::count(&machine.view())) == Count::Number(6),
        machine.runnable() == 0,
        machine.drainable(0) == 0,
        machine.persistable() == 1,
    ];
    facts == [true; 4]
}

/// Whether a machine makes those steps, is as before once it is restored, makes them again, and answers what is asked of it.
fn repeats<R: Eprint>(rt: &R, alloc: Global, machine: &mut Machine) -> Result<bool, AllocError> {
    let copy = machine.copy(alloc)?;
    refuse(rt);
    let made = run_and_restored(machine, &copy, &PENDING);
    let restored = machine.view().turns();
    let again = machine.run(&PENDING);
    let answers = answers(machine);
    spare(rt);
    drop(copy);
    Ok(made == 8 && restored == 0 && again == (8, None) && answers)
}

/// What is asked of a state takes none, nor does making it that of a copy.
#[test]
fn asking_and_restoring_take_none(rt: HostRuntime) -> Result<(), Fail> {
    let mut machine = loaded(rt.alloc(), BUSY)?;
    let repeats = repeats(&rt, rt.alloc(), &mut machine);
    drop(machine);
    assert!(rt; repeats?);
    Ok(())
}

/// Going back takes none, from a checkpoint and from the opening state.
#[test]
fn going_back_takes_none(rt: HostRuntime) -> Result<(), Fail> {
    let mut session = opened(rt.alloc(), SPINNER)?;
    let halt = go(&mut session, &[EXEC; 200]);
    refuse(&rt);
    let gone = [
        back(&mut session, 1),
        back(&mut session, 100),
        back(&mut session, 60),
        back(&mut session, 40),
    ];
    spare(&rt);
    let left = turns(&session);
    drop(session);
    assert!(rt; halt == Halt::End && left == 39);
    assert!(rt; gone == [Ok(()), Ok(()), Ok(()), Err(SessionFault::TooFar)]);
    Ok(())
}
