//! What is asked of all runs from a place, and what is answered.
ghost use Rattle.std.specs.Prelude.{◌≡◌, ◌++◌, [], IfOk, OnOk, string_bytes};
ghost use Rattle.debug_scripts.specs.Ahead.{steps_ahead};
ghost use Rattle.explore.specs.Sound.{IsSound};
ghost use Rattle.machine.specs.Objects.{opening};
ghost use Rattle.machine.specs.Steps.{run_of};
ghost use Rattle.conversations.specs.Checking.{ahead_found, found_text, question_of, reached, IsFound};

use crate::waiting::Waiting;
use commands::{Fault, machine_after};
use explore::laws::loaded_machines_are_sound;
use explore::{ExploreFault, Question, Verdict, check};
use images::Cond;
use isa::Object;
use jobs::{fault_of, push_failure};
use litmus_text::LinedObject;
use machine::{Machine, Step};
use std::alloc::{AllocError, Global};
use workers::OpenGate;

/// How many states are told apart at most.
const MOST_STATES: u64 = 1_000_000;

/// The machine of a program after these steps. It is one that a loaded machine can be.
fn sound_machine(alloc: Global, object: &Object, steps: &[Step]) -> Result<Machine, Fault>
    ensures left { IfOk result (λ machine. machine ≡ (run_of steps.now (opening object.now)).state) }
    ensures sound { IfOk result (λ machine. IsSound machine) }
{
    // The law's premises are known of these two values. The three lines are for the proof, and do nothing else.
    loaded_machines_are_sound();
    let _shape = object.shape().words();
    let _values = object.values();
    machine_after(alloc, object, steps)
}

/// What is asked of all runs.
fn question_of(cond: Cond) -> Question
    ensures { result ≡ question_of cond }
{
    Question {
        crashes: true,
        all: Some(cond),
        ends: None,
        recovered: None,
        images: false,
    }
}

/// Whether a condition is true of all that crashes may leave, in all runs from the state to which these steps of a program lead, with
/// any number of crashes.
pub(crate) fn found_of(
    alloc: Global,
    lined: &LinedObject,
    steps: &[Step],
    cond: Cond,
) -> Result<Verdict, ExploreFault>
    ensures { IsFound lined.now steps.now cond result }
{
    let question = question_of(cond);
    match sound_machine(alloc, &lined.object, steps) {
        Ok(machine) => {
            let found = check(alloc, &machine, &question, MOST_STATES, &OpenGate);
            drop((machine, question));
            found
        }
        Err(_) => {
            drop(question);
            Err(ExploreFault::NoMemory)
        }
    }
}

/// Appends what is answered of that.
pub(crate) fn push_found(
    text: &mut String,
    found: &Result<Verdict, ExploreFault>,
) -> Result<(), AllocError>
    ensures { OnOk result (string_bytes text.new ≡ string_bytes text.old ++ found_text found.now) }
{
    match found {
        Ok(Verdict::Holds(_)) => writeln!(text, "all holds"),
        Ok(Verdict::Fails(failure)) => push_failure(text, failure),
        Err(fault) => writeln!(text, "{}", fault_of(*fault)),
    }
}

/// These steps, gathered.
fn gathered(alloc: Global, steps: &[Step]) -> Result<Waiting, AllocError>
    ensures { IfOk result (λ ahead. ahead ≡ steps_ahead [] steps.now) }
{
    let mut ahead = Waiting::new(alloc);
    for step in steps {
        ahead.gather(*step)?;
    }
    Ok(ahead)
}

/// Puts the steps of a run that fails in the place of those ahead, where one was found.
pub(crate) fn load(
    alloc: Global,
    ahead: &mut Waiting,
    found: &Result<Verdict, ExploreFault>,
) -> Result<(), AllocError>
    ensures { OnOk result (ahead.new ≡ ahead_found ahead.old found.now) }
{
    match found {
        Ok(Verdict::Fails(failure)) => {
            *ahead = gathered(alloc, failure.run.steps())?;
            Ok(())
        }
        _ => Ok(()),
    }
}
