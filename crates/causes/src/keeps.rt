//! Whether what was asked holds from a machine.
ghost use Rattle.std.specs.Prelude.{◌≡◌, true, IfOk};
ghost use Rattle.machine.specs.Objects.{opening};
ghost use Rattle.explore.specs.Reachable.{IsReachable};
ghost use Rattle.causes.specs.Enough.{IsEnoughBehind, IsEnoughHere, Keeps, KeepsBehind, KeepsImage};

use crate::search::with_write;
use explore::laws::loaded_machines_are_sound;
use explore::{ExploreFault, Question, Verdict, check};
use image_reasons::Missing;
use images::holds;
use isa::Object;
use machine::{Machine, Step};
use std::alloc::{AllocError, Global};
use workers::Gate;

/// Whether all runs from a machine are found to keep what is asked. The gate is told of each state. The only error is out of memory.
fn keeps<G: Gate>(
    alloc: Global,
    object: &Object,
    machine: &Machine,
    question: &Question,
    limit: u64,
    gate: &G,
) -> Result<bool, AllocError>
    requires { IsReachable true (opening object.now) machine.now }
    ensures { IfOk result (λ kept. kept ≡ true → Keeps question.now limit machine.now) }
{
    // The law's premises are known of these two values. The three lines are for the proof, and do nothing else.
    loaded_machines_are_sound();
    let _shape = object.shape().words();
    let _values = object.values();
    gate.begun(limit);
    match check(alloc, machine, question, limit, gate) {
        Ok(Verdict::Holds(_)) => Ok(true),
        Err(ExploreFault::NoMemory) => Err(AllocError),
        Ok(Verdict::Fails(_)) | Err(_) => Ok(false),
    }
}

/// Whether a crash is found to lead from a machine to one from which all runs keep what is asked. The only error is out of memory.
#[tactic(auto, using(crate::proofs::Leads::reached_by_a_step))]
fn keeps_behind<G: Gate>(
    alloc: Global,
    object: &Object,
    machine: &mut Machine,
    question: &Question,
    limit: u64,
    gate: &G,
) -> Result<bool, AllocError>
    requires { IsReachable true (opening object.now) machine.old }
    ensures { IfOk result (λ kept. kept ≡ true → KeepsBehind question.now limit machine.old) }
{
    match machine.step(Step::Crash) {
        Ok(_) => keeps(alloc, object, machine, question, limit, gate),
        Err(_) => Ok(false),
    }
}

/// Whether the condition that is asked of all images is true of what a crash of a machine leaves.
#[tactic(auto, using(crate::proofs::Leads::holds_here))]
fn keeps_image(question: &Question, machine: &Machine) -> bool
    ensures { result ≡ true → KeepsImage question.now machine.now }
{
    match &question.all {
        Some(condition) => holds(condition, &machine.view()),
        None => false,
    }
}

/// Whether a write that is missing in what a crash of a machine left is found to be enough alone. The only error is out of memory.
#[tactic(auto, using(crate::proofs::Leads::reached_on))]
pub(crate) fn is_enough_behind<G: Gate>(
    alloc: Global,
    object: &Object,
    machine: &Machine,
    write: &Missing,
    question: &Question,
    limit: u64,
    gate: &G,
) -> Result<bool, AllocError>
    requires { IsReachable true (opening object.now) machine.now }
    ensures { IfOk result (λ enough. enough ≡ true → IsEnoughBehind question.now limit machine.now write.now) }
{
    match with_write(alloc, machine, write)? {
        Some(mut there) => keeps_behind(alloc, object, &mut there, question, limit, gate),
        None => Ok(false),
    }
}

/// The same of one that is missing in the image that a crash of a machine leaves now.
pub(crate) fn is_enough_here(
    alloc: Global,
    machine: &Machine,
    write: &Missing,
    question: &Question,
) -> Result<bool, AllocError>
    ensures { IfOk result (λ enough. enough ≡ true → IsEnoughHere question.now machine.now write.now) }
{
    match with_write(alloc, machine, write)? {
        Some(there) => Ok(keeps_image(question, &there)),
        None => Ok(false),
    }
}
