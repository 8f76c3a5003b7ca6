//! The verdict on all runs of a program.
ghost use Rattle.std.specs.Prelude.{◌≡◌, IfOk};
ghost use Rattle.machine.specs.Objects.{opening};
ghost use Rattle.explore.specs.Sound.{IsSound};
ghost use Rattle.verdicts.specs.Verdicts.{IsTold};

use explore::laws::loaded_machines_are_sound;
use explore::{ExploreFault, Question, Verdict, check};
use isa::Object;
use machine::Machine;
use std::alloc::{AllocError, Global};
use workers::Gate;

/// The machine of a program. Runs may start from it.
fn loaded(alloc: Global, object: &Object) -> Result<Machine, AllocError>
    ensures state { IfOk result (λ machine. machine ≡ opening object.now) }
    ensures sound { IfOk result (λ machine. IsSound machine) }
{
    // The law's premises are known of these two values. The three lines are for the proof, and do nothing else.
    loaded_machines_are_sound();
    let _shape = object.shape().words();
    let _values = object.values();
    Machine::load(alloc, object)
}

/// The verdict on all runs of a program from its first state, of which at most so many states are told apart; or why there is
/// none. The gate is told of each state.
///
/// # Errors
///
/// Out of memory.
pub fn verdict_on<G: Gate>(
    alloc: Global,
    object: &Object,
    question: &Question,
    limit: u64,
    gate: &G,
) -> Result<Result<Verdict, ExploreFault>, AllocError>
    ensures { IfOk result (IsTold question.now limit object.now) }
{
    let machine = loaded(alloc, object)?;
    match check(alloc, &machine, question, limit, gate) {
        Ok(verdict) => Ok(Ok(verdict)),
        Err(ExploreFault::NoMemory) => Err(AllocError),
        Err(fault) => Ok(Err(fault)),
    }
}
