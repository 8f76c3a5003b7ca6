//! What may be put into a program is looked for.
ghost use Rattle.std.specs.Prelude.{Bool, IfOk, Ok, true, ◌≡◌, [], ◌∷◌};
ghost use Rattle.mends.specs.declared.outcome.Mended.TheVariants.{None};
ghost use Rattle.mends.specs.Mends.{IsMended};
ghost use Rattle.commands.specs.Works.{MakesOneOf};
ghost use Rattle.commands.specs.declared.fault.Stage.TheVariants as stages;
ghost use Rattle.mend_jobs.specs.MendCommand.{MayMend};
ghost use Rattle.mend_jobs.specs.MendsFound.{IsMendAnswer, IsMendFound};

use crate::asked_program::AskedProgram;
use crate::form::ReportsMends;
use crate::mend_found::MendFound;
use crate::mend_job::{MendJob, Ways};
use commands::{Fault, Report, Stage};
use explore::ExploreFault;
use jobs::fault_of;
use mends::{Mended, mend};
use moves::{MovesTried, first_move};
use std::alloc::{AllocError, Global};
use std::thread::Threads;
use workers::Gate;

/// What comes of the moves of a program that no set of any size mends.
fn with_moves<R: Threads + Sync, G: Gate + Sync>(
    rt: &R,
    alloc: Global,
    asked: &AskedProgram,
    limit: u64,
    workers: u64,
    gate: &G,
) -> Result<MendFound, AllocError>
    requires { IsMended asked.now.question limit asked.now.object (Ok None) }
    ensures { IfOk result (IsMendFound true limit asked.now) }
{
    let (object, question) = (&asked.object, &asked.question);
    match first_move(rt, alloc, object, question, limit, workers, gate)? {
        MovesTried::Helps(first) => Ok(MendFound::Moved(first)),
        MovesTried::NoneHelps(count) => Ok(MendFound::NoneMoved(count)),
    }
}

/// What is found, where moves are tried or are not; or why it is not told of the program as it is.
fn mend_found<R: Threads + Sync, G: Gate + Sync>(
    rt: &R,
    alloc: Global,
    asked: &AskedProgram,
    ways: Ways,
    limit: u64,
    gate: &G,
) -> Result<Result<MendFound, ExploreFault>, AllocError>
    ensures { IfOk result (IsMendAnswer ways.moves limit asked.now) }
{
    let Ways { moves, workers } = ways;
    let (object, question) = (&asked.object, &asked.question);
    match mend(rt, alloc, object, question, limit, workers, gate)? {
        Ok(Mended::None) if moves => { Ok(Ok(with_moves(rt, alloc, asked, limit, workers, gate)?)) }
        Ok(mended) => Ok(Ok(MendFound::AsItIs(mended))),
        Err(fault) => Ok(Err(fault)),
    }
}

/// The report of what is found.
///
/// # Errors
///
/// R1, R2, I1 of the runs of the program as it is; out of memory, as that of an exploration.
#[tactic(auto, unfolding(commands::specs::Works::MakesOneOf))]
pub(crate) fn mend_from<F: ReportsMends, R: Threads + Sync, G: Gate + Sync>(
    rt: &R,
    alloc: Global,
    job: &MendJob<'_>,
    asked: &AskedProgram,
    gate: &G,
) -> Result<Report, Fault>
    ensures { MakesOneOf (MayMend F.reports job.now.ways.moves job.now.options asked.now) (stages.Exploration ∷ []) result }
{
    let MendJob { options, ways } = *job;
    let found = match mend_found(rt, alloc, asked, ways, options.asked.states, gate) {
        Ok(Ok(found)) => found,
        Ok(Err(fault)) => return Err(fault_of(fault)),
        Err(AllocError) => return Err(Stage::Exploration.missing()),
    };
    let report = F::mend_report(alloc, options.as_text, asked, &found);
    drop(found);
    match report {
        Ok(report) => Ok(report),
        Err(AllocError) => Err(Stage::Exploration.missing()),
    }
}
