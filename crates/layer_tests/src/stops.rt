//! A stop's test may be any code that answers its condition; the commands' asks the condition itself.
ghost use Rattle.std.specs.Prelude.{◌≡◌, Bool};
ghost use Rattle.std.specs.Borrow.{Bor};
ghost use Rattle.conditions.specs.Formulas as formulas;
ghost use Rattle.images.specs.Truth.{holds_in};
ghost use Rattle.machine.specs.State.{State};

use crate::machines::{DRAIN, EXEC, WRITERS};
use crate::sessions::{back, go, is_armed, is_disarmed, opened, turns};
use debugger::{Halt, Session, SessionFault, Stop, Test};
use images::{Comparison, Cond, Operand, holds};
use lines_layout::WordId;
use machine::{Machine, Step};
use outcomes::OrNoMemory;
use std::alloc::{AllocError, Global};
use std::test::Fail;

/// The condition that the coherent value of the word is 1, beside a test that answers it.
fn stop_at_1(id: u32, word: WordId, test: Test) -> Stop
    requires callable { Test.IsAlwaysCallable test }
    requires answers { (m : Bor State) (b : Bool) → Test.post test m b
        → b ≡ holds_in m.now (formulas.Test (Operand.Coherent word) Comparison.Equal 1) }
{
    let cond = Cond::test(Operand::Coherent(word), Comparison::Equal, 1);
    Stop::new(id, cond, test)
}

/// A stop of the condition `coherent x = 1`, whose test compares the word, and calls nothing that reads conditions.
fn compares(alloc: Global, x: WordId) -> Result<Stop, AllocError> {
    let test = Box::new(
        alloc,
        move |machine: &Machine| -> bool
            ensures { result ≡ holds_in machine.now (formulas.Test (Operand.Coherent x) Comparison.Equal 1) }
        { machine.view().coherent(x) == Some(1) },
    )?;
    Ok(stop_at_1(7, x, test))
}

/// The condition that the coherent value of a word is this one.
fn is(x: WordId, value: u64) -> Cond {
    Cond::test(Operand::Coherent(x), Comparison::Equal, value)
}

/// A stop whose test asks its condition.
fn asks(alloc: Global, id: u32, cond: Cond) -> Result<Stop, AllocError> {
    let asked = cond.copy(alloc)?;
    let test = Box::new(
        alloc,
        move |machine: &Machine| -> bool
            ensures { result ≡ holds_in machine.now asked }
        { holds(&asked, &machine.view()) },
    )?;
    Ok(Stop::new(id, cond, test))
}

/// Whether there is such a stop, and it is armed.
fn arms(session: &mut Session, stop: Result<Stop, AllocError>) -> bool {
    match stop {
        Ok(stop) => is_armed(session, stop),
        Err(_) => false,
    }
}

/// Both stop after the write's drain.
#[test]
fn test_compares_the_word(rt: HostRuntime) -> Result<(), Fail> {
    let x = WordId::new(0).ok_or("no word")?;
    let mut session = opened(rt.alloc(), WRITERS)?;
    let are_armed = [
        arms(&mut session, compares(rt.alloc(), x)),
        arms(&mut session, asks(rt.alloc(), 9, is(x, 1))),
    ];
    let first = go(&mut session, &[EXEC, Step::Exec(1), DRAIN, EXEC]);
    let made = turns(&session);
    let gone = back(&mut session, 1);
    let is_disarmed = is_disarmed(&mut session, 7);
    let second = go(&mut session, &[DRAIN]);
    drop(session);
    assert!(rt; are_armed == [true, true]);
    assert!(rt; first == Halt::Stop(7, 3) && made == 3);
    assert!(rt; gone == Ok(()) && is_disarmed);
    assert!(rt; second == Halt::Stop(9, 1));
    Ok(())
}

/// A stop with a copy of a condition.
fn asks_a_copy(alloc: Global, id: u32, cond: &Cond) -> Result<Stop, AllocError> {
    asks(alloc, id, cond.copy(alloc)?)
}

/// Of two stops of one condition, the second with a copy of it, that of the smaller id is reported.
#[test]
fn a_copy_of_a_condition_stops(rt: HostRuntime) -> Result<(), Fail> {
    let x = WordId::new(0).ok_or("no word")?;
    let mut session = opened(rt.alloc(), WRITERS)?;
    let cond = is(x, 0);
    let second = asks_a_copy(rt.alloc(), 4, &cond);
    let are_armed = [
        arms(&mut session, asks(rt.alloc(), 9, cond)),
        arms(&mut session, second),
    ];
    let halt = go(&mut session, &[EXEC, Step::Exec(1)]);
    drop(session);
    assert!(rt; are_armed == [true, true]);
    assert!(rt; halt == Halt::Stop(4, 1));
    Ok(())
}

/// Whether a stop is refused, and armed again once the other of its id is disarmed.
fn is_handed_back(session: &mut Session, id: u32, stop: Result<Stop, AllocError>) -> bool {
    let Ok(stop) = stop else {
        return false;
    };
    match session.arm(stop) {
        Err((OrNoMemory::Fault(SessionFault::DoubleId), stop)) => is_disarmed(session, id)
            && is_armed(session, stop),
        _ => false,
    }
}

/// A stop whose id is armed is handed back, and stops where its own condition holds: after the crash.
#[test]
fn a_stop_is_handed_back(rt: HostRuntime) -> Result<(), Fail> {
    let x = WordId::new(0).ok_or("no word")?;
    let mut session = opened(rt.alloc(), WRITERS)?;
    let is_armed = arms(&mut session, asks(rt.alloc(), 7, is(x, 1)));
    let before = go(&mut session, &[EXEC, DRAIN, EXEC]);
    let second = asks(rt.alloc(), 7, is(x, 0));
    let is_handed_back = is_handed_back(&mut session, 7, second);
    let behind = go(&mut session, &[Step::Exec(1), Step::Crash]);
    drop(session);
    assert!(rt; is_armed && before == Halt::Stop(7, 2));
    assert!(rt; is_handed_back && behind == Halt::Stop(7, 2));
    Ok(())
}
