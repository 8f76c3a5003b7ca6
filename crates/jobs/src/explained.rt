//! What explains a run that breaks a condition: which writes are missing in what its crashes left and in the image, and which of these are
//! enough alone.
ghost use Rattle.std.specs.Prelude.{◌≡◌, IfOk, All, map};
ghost use Rattle.jobs.specs.CheckReports.{Explains};
ghost use Rattle.jobs.specs.Explained.{IsCrashTold, IsExplanation, IsLastTold};

use crate::crashes::{crashes_in, left_after, steps_before};
use crate::failure::{all_steps, asks_why};
use crate::start::Start;
use causes::{Told, told_behind, told_in_image};
use commands::CheckOptions;
use explore::{Asked, Failure};
use images::Image;
use std::alloc::{AllocError, Global};
use workers::Gate;

/// A crash of a run that breaks a condition.
#[derive(Drop)]
pub struct CrashTold {
    /// Its place among the steps of the run.
    pub place: usize,
    /// What it left.
    pub image: Image,
    /// The writes that are missing there.
    pub missing: Option<Vec<Told>>,
}

/// What explains a run that breaks a condition.
#[derive(Drop)]
pub struct Explained {
    /// Each crash of the run.
    pub crashes: Vec<CrashTold>,
    /// The writes that are missing in the image that breaks the condition, if it is one.
    pub last: Option<Vec<Told>>,
}

/// What is told of the crash at a place of the run.
fn crash_told<G: Gate>(
    alloc: Global,
    start: &Start,
    failure: &Failure,
    place: usize,
    states: u64,
    gate: &G,
) -> Result<CrashTold, AllocError>
    ensures place { IfOk result (λ told. told.place ≡ place) }
    ensures told { IfOk result (IsCrashTold states start.now failure.now) }
{
    let steps = steps_before(alloc, start, failure, place)?;
    let image = left_after(alloc, &start.object, &steps)?;
    let missing = told_behind(
        alloc,
        &start.object,
        &steps,
        &image,
        &start.question,
        states,
        gate,
    )?;
    Ok(CrashTold {
        place,
        image,
        missing,
    })
}

/// What is told of the crashes at these places.
fn crashes_told<G: Gate>(
    alloc: Global,
    start: &Start,
    failure: &Failure,
    places: &[usize],
    states: u64,
    gate: &G,
) -> Result<Vec<CrashTold>, AllocError>
    ensures places { IfOk result (λ told. map (λ crash. crash.place) told.items ≡ places.now) }
    ensures told { IfOk result (λ told. All (IsCrashTold states start.now failure.now) told.items) }
{
    let mut told = Vec::with_capacity(alloc, places.len())?;
    for place in places {
        told.push(crash_told(alloc, start, failure, *place, states, gate)?)?;
    }
    Ok(told)
}

/// What is told of the image that breaks the condition, if it is one.
fn last_told(
    alloc: Global,
    start: &Start,
    failure: &Failure,
) -> Result<Option<Vec<Told>>, AllocError>
    ensures { IfOk result (IsLastTold start.now failure.now failure.now.asked) }
{
    match failure.asked {
        Asked::All => {
            let steps = all_steps(alloc, start, failure)?;
            told_in_image(
                alloc,
                &start.object,
                &steps,
                &failure.values,
                &start.question,
            )
        }
        Asked::Ends | Asked::Recovered => Ok(None),
    }
}

/// What explains the run, where at most so many states are told apart of all runs from a crash.
fn whole_explanation<G: Gate>(
    alloc: Global,
    start: &Start,
    failure: &Failure,
    states: u64,
    gate: &G,
) -> Result<Explained, AllocError>
    ensures { IfOk result (IsExplanation states start.now failure.now) }
{
    let places = crashes_in(alloc, failure.run.steps())?;
    let crashes = crashes_told(alloc, start, failure, &places, states, gate)?;
    let last = last_told(alloc, start, failure)?;
    Ok(Explained { crashes, last })
}

/// The same where it is asked why the run breaks the condition. The gate is told of each exploration.
///
/// # Errors
///
/// Out of memory.
pub fn explanation_of<G: Gate>(
    alloc: Global,
    options: &CheckOptions<'_>,
    start: &Start,
    failure: &Failure,
    gate: &G,
) -> Result<Explained, AllocError>
    ensures { IfOk result (Explains options.now start.now failure.now) }
{
    if asks_why(options) {
        return whole_explanation(alloc, start, failure, options.states, gate);
    }
    Ok(Explained {
        crashes: Vec::new(alloc),
        last: None,
    })
}
