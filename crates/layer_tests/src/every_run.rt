//! Runs that make a condition false, where later states have all that a crash may leave of earlier ones, and where they lack some
//! of it. All rows are worked out by hand, from the rules of docs/MODEL.md.
use crate::machines::{DRAIN, EXEC, loaded};
use conditions::{Comparison, Cond, Operand};
use explore::{Asked, Question, Verdict, check};
use lines_layout::WordId;
use machine::Step;
use std::alloc::Global;
use std::test::Fail;
use workers::OpenGate;

/// Two stores to the one word, x.
const TWICE: &str = "litmus 1\nline x\ncpu\nmov [x], 1\nmov [x], 2\nend\n";

/// The same, and then x is flushed.
const FLUSHED: &str = "litmus 1\nline x\ncpu\nmov [x], 1\nmov [x], 2\nclflush [x]\nend\n";

/// `persisted x` beside a number.
fn persisted(comparison: Comparison, number: u64) -> Result<Cond, Fail> {
    let x = WordId::new(0).ok_or("no word")?;
    Ok(Cond::test(Operand::Persisted(x), comparison, number))
}

/// `coherent x != 1`.
fn never_coherent() -> Result<Cond, Fail> {
    let x = WordId::new(0).ok_or("no word")?;
    Ok(Cond::test(Operand::Coherent(x), Comparison::NotEqual, 1))
}

/// What is answered of every run of a litmus text.
fn answered(alloc: Global, text: &str, cond: Cond, crashes: bool) -> Result<Verdict, Fail> {
    let machine = loaded(alloc, text)?;
    let question = Question {
        crashes,
        all: Some(cond),
        ends: None,
        recovered: None,
        images: false,
    };
    let verdict = check(alloc, &machine, &question, 1000, &OpenGate);
    drop(question);
    drop(machine);
    Ok(verdict?)
}

/// Whether a run is told of these steps, and of this value of x.
fn fails_by(verdict: &Verdict, steps: &[Step], value: u64) -> bool {
    match verdict {
        Verdict::Fails(failure) => {
            failure.asked == Asked::All
                && failure.run.steps() == steps
                && failure.values.values() == [value].as_slice()
        }
        Verdict::Holds(_) => false,
    }
}

/// Whether all is as it is asked to be.
fn holds(verdict: &Verdict) -> bool {
    matches!(verdict, Verdict::Holds(_))
}

/// Once the first store has left the store buffer, a crash may leave 1. It may too once the second has; and no more once the
/// flush has left. The state before the flush leaves is asked; and the run that is told ends where the first store has left.
#[test]
fn first_steps_that_fail_are_told(rt: HostRuntime) -> Result<(), Fail> {
    let alloc = rt.alloc();
    for crashes in [false, true] {
        let cond = persisted(Comparison::NotEqual, 1)?;
        let verdict = answered(alloc, FLUSHED, cond, crashes)?;
        assert!(rt; fails_by(&verdict, &[EXEC, EXEC, EXEC, DRAIN], 1));
    }
    Ok(())
}

/// The same, where the start fails: no step is told.
#[test]
fn no_steps_are_told_where_the_start_fails(rt: HostRuntime) -> Result<(), Fail> {
    let alloc = rt.alloc();
    let verdict = answered(alloc, FLUSHED, persisted(Comparison::NotEqual, 0)?, false)?;
    assert!(rt; fails_by(&verdict, &[], 0));
    Ok(())
}

/// Coherent values are of one state alone, whatever a later one has.
#[test]
fn coherent_values_are_asked_of_each_state(rt: HostRuntime) -> Result<(), Fail> {
    let verdict = answered(rt.alloc(), TWICE, never_coherent()?, false)?;
    assert!(rt; fails_by(&verdict, &[EXEC, EXEC, DRAIN], 0));
    Ok(())
}

/// `persisted x = 0 or coherent x != 1` does not come apart. It is false of 1 while the second store is buffered.
#[test]
fn mixed_values_are_asked_of_each_state(rt: HostRuntime) -> Result<(), Fail> {
    let alloc = rt.alloc();
    let mixed = persisted(Comparison::Equal, 0)?.or(alloc, never_coherent()?)?;
    let verdict = answered(alloc, TWICE, mixed, false)?;
    assert!(rt; fails_by(&verdict, &[EXEC, EXEC, DRAIN], 1));
    Ok(())
}

/// No image is 3.
#[test]
fn what_no_crash_leaves_holds(rt: HostRuntime) -> Result<(), Fail> {
    let alloc = rt.alloc();
    for crashes in [false, true] {
        let cond = persisted(Comparison::NotEqual, 3)?;
        let verdict = answered(alloc, FLUSHED, cond, crashes)?;
        assert!(rt; holds(&verdict));
    }
    Ok(())
}
