//! A run, once more.
ghost use Rattle.std.specs.Prelude.{◌≡◌, IfOk, IsTrue, true};
ghost use Rattle.machine.specs.Objects.{opening};
ghost use Rattle.explore.specs.Reachable.{IsReachable};
ghost use Rattle.verdicts.specs.Verdicts.{IsBrokenBy};
ghost use Rattle.replays.specs.Followed.{GoesOn};

use crate::follower::Follower;
use crate::put_in::PutIn;
use explore::laws::loaded_machines_are_sound;
use explore::{ExploreFault, Question, Verdict, check};
use isa::Object;
use machine::{Machine, Step};
use std::alloc::{AllocError, Global};
use workers::OpenGate;

/// How many states are told apart at most behind a run that was followed.
const STATES_BEHIND: u64 = 64;

/// Follows steps, as far as that is accepted: whether all were. The only error is out of memory.
#[tactic(auto, using(crate::proofs::Followings::goes_further, crate::proofs::Followings::goes_nowhere))]
fn follow_all(
    alloc: Global,
    follower: &mut Follower,
    crashes: bool,
    put_in: &[PutIn],
    steps: &[Step],
) -> Result<bool, AllocError>
    ensures { GoesOn crashes follower.old.machine follower.new.machine }
{
    for step in steps {
        if !follower.follow(alloc, crashes, put_in, *step)? {
            return Ok(false);
        }
    }
    Ok(true)
}

/// Whether what is asked is found to be broken in few states that are reached from one. The only error is out of memory.
fn breaks_behind(
    alloc: Global,
    object: &Object,
    question: &Question,
    machine: &Machine,
) -> Result<bool, AllocError>
    requires { IsReachable question.now.crashes (opening object.now) machine.now }
    ensures { IfOk result (λ broken. broken ≡ true → IsBrokenBy question.now object.now) }
{
    // The law's premises are known of these two values. The three lines are for the proof, and do nothing else.
    loaded_machines_are_sound();
    let _shape = object.shape().words();
    let _values = object.values();
    match check(alloc, machine, question, STATES_BEHIND, &OpenGate) {
        Ok(Verdict::Fails(_)) => Ok(true),
        Err(ExploreFault::NoMemory) => Err(AllocError),
        Ok(Verdict::Holds(_)) | Err(_) => Ok(false),
    }
}

/// Whether steps that break what is asked of a program with less do so of this one: they are followed here, with what was put in. Where it
/// is not found, nothing is said.
///
/// # Errors
///
/// Out of memory.
pub fn breaks_again(
    alloc: Global,
    object: &Object,
    put_in: &[PutIn],
    question: &Question,
    steps: &[Step],
) -> Result<bool, AllocError>
    ensures { IfOk result (λ broken. broken ≡ true → IsBrokenBy question.now object.now) }
{
    let mut follower = Follower::new(alloc, object)?;
    if !follow_all(alloc, &mut follower, question.crashes, put_in, steps)? {
        return Ok(false);
    }
    breaks_behind(alloc, object, question, &follower.machine)
}
