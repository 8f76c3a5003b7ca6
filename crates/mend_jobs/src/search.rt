//! All runs of a program are explored, and all runs of it without its flushes and fences.
ghost use Rattle.std.specs.Prelude.{IfOk, [], ◌∷◌, option_map};
ghost use Rattle.machine.specs.Objects.{opening};
ghost use Rattle.explore.specs.Questions.{AreFindings};
ghost use Rattle.verdicts.specs.Verdicts.{IsKeptBy};
ghost use Rattle.commands.specs.Works.{MakesOneOf};
ghost use Rattle.commands.specs.declared.fault.Stage.TheVariants as stages;
ghost use Rattle.mend_jobs.specs.FencesCommand.{MayReport};
ghost use Rattle.mend_jobs.specs.FencesFound.{AreNeedsTold, IsAnswer, IsFound, IsNeedAt};

use crate::asked_program::{AskedProgram, only_site};
use crate::fences_found::{FencesFound, NeedsTold};
use crate::form::ReportsMends;
use commands::{Fault, FencesOptions, Report, Stage};
use explore::{ExploreFault, Findings, Verdict};
use fence_needs::{SiteNeed, instr_at, is_least, need_of, needs, weaker_at};
use image_reasons::Site;
use jobs::fault_of;
use std::alloc::{AllocError, Global};
use std::thread::Threads;
use verdicts::verdict_on;
use workers::Gate;

/// What the flush or the fence at a site is needed for, alone, and which weaker one does in its place, with all else as it is.
fn need_at<G: Gate>(
    alloc: Global,
    asked: &AskedProgram,
    site: Site,
    limit: u64,
    gate: &G,
) -> Result<SiteNeed, AllocError>
    ensures { IfOk result (IsNeedAt limit asked.now site) }
{
    gate.begun(limit.saturating_mul(2));
    let (object, question) = (&asked.object, &asked.question);
    let need = need_of(alloc, object, question, limit, site, gate)?;
    let weaker = weaker_at(alloc, object, question, limit, site, &need, gate)?;
    let instr = instr_at(object, site);
    Ok(SiteNeed {
        site,
        instr,
        need,
        weaker,
    })
}

/// What each flush and fence of a program is needed for, and whether it is told that no larger number can go than are left out.
fn needs_told<R: Threads + Sync, G: Gate + Sync>(
    rt: &R,
    alloc: Global,
    asked: &AskedProgram,
    limit: u64,
    gate: &G,
) -> Result<NeedsTold, AllocError>
    ensures { IsKeptBy asked.now.question asked.now.object → IfOk result (AreNeedsTold limit asked.now) }
{
    let (object, question) = (&asked.object, &asked.question);
    let needs = needs(rt, alloc, object, question, limit, gate)?;
    let least = is_least(alloc, object, question, limit, &needs, gate)?;
    Ok(NeedsTold { needs, least })
}

/// What each flush and fence of a program is needed for of which this was found, or the one that is asked about.
fn with_needs<R: Threads + Sync, G: Gate + Sync>(
    rt: &R,
    alloc: Global,
    asked: &AskedProgram,
    only: Option<Site>,
    limit: u64,
    found: Findings,
    gate: &G,
) -> Result<FencesFound, AllocError>
    requires { AreFindings asked.now.question (opening asked.now.object) limit found }
    ensures { IfOk result (IsFound only limit asked.now) }
{
    match only {
        None => {
            let told = needs_told(rt, alloc, asked, limit, gate)?;
            Ok(FencesFound::Each(found, told))
        }
        Some(site) => {
            let one = need_at(alloc, asked, site, limit, gate)?;
            Ok(FencesFound::One(found, one))
        }
    }
}

/// What is found of the flushes and fences of a program; or why it is not told of the program as it is.
fn fences_found<R: Threads + Sync, G: Gate + Sync>(
    rt: &R,
    alloc: Global,
    asked: &AskedProgram,
    only: Option<Site>,
    limit: u64,
    gate: &G,
) -> Result<Result<FencesFound, ExploreFault>, AllocError>
    ensures { IfOk result (IsAnswer only limit asked.now) }
{
    match verdict_on(alloc, &asked.object, &asked.question, limit, gate)? {
        Ok(Verdict::Holds(found)) => {
            Ok(Ok(with_needs(rt, alloc, asked, only, limit, found, gate)?))
        }
        Ok(Verdict::Fails(failure)) => Ok(Ok(FencesFound::Broken(failure))),
        Err(fault) => Ok(Err(fault)),
    }
}

/// The report of what is found. The gate is told how many states of the program as it is may be told apart, and then how many of those
/// without its flushes and fences; and of each state that is explored.
///
/// # Errors
///
/// R1, R2, I1 of the runs of the program as it is; out of memory, as that of an exploration.
#[tactic(auto, unfolding(commands::specs::Works::MakesOneOf))]
pub(crate) fn fences_from<F: ReportsMends, R: Threads + Sync, G: Gate + Sync>(
    rt: &R,
    alloc: Global,
    options: &FencesOptions<'_>,
    asked: &AskedProgram,
    gate: &G,
) -> Result<Report, Fault>
    ensures { MakesOneOf (MayReport F.reports options.now asked.now) (stages.Exploration ∷ []) result }
{
    let limit = options.asked.states;
    gate.begun(limit);
    let found = match fences_found(rt, alloc, asked, only_site(options.only), limit, gate) {
        Ok(Ok(found)) => found,
        Ok(Err(fault)) => return Err(fault_of(fault)),
        Err(AllocError) => return Err(Stage::Exploration.missing()),
    };
    let report = F::fences_report(alloc, asked, &found);
    drop(found);
    match report {
        Ok(report) => Ok(report),
        Err(AllocError) => Err(Stage::Exploration.missing()),
    }
}
