//! Which flushes and fences can be left out together: all of them, or one after another.
ghost use Rattle.std.specs.Prelude.{◌≡◌, IfOk, IsTrue};
ghost use Rattle.verdicts.specs.Verdicts.{IsKeptBy};
ghost use Rattle.fence_needs.specs.Changes.{without, without_all};
ghost use Rattle.fence_needs.specs.Needs.{left_out};
ghost use Rattle.fence_needs.specs.Tried.{AreEachAlone, AreFound, GoesOn, IsNeedAlone, IsTriedOn};

use crate::change::{without, without_all};
use crate::need::{Need, SiteNeed};
use explore::{Question, Verdict};
use image_reasons::Site;
use isa::Object;
use std::alloc::{AllocError, Global};
use verdicts::verdict_on;
use workers::Gate;

/// The sites of those that are left out.
pub(crate) fn left_out(alloc: Global, needs: &[SiteNeed]) -> Result<Vec<Site>, AllocError>
    ensures { IfOk result (λ sites. sites.items ≡ left_out needs.now) }
{
    let mut sites = Vec::new(alloc);
    for one in needs {
        if let Need::LeftOut = one.need {
            sites.push(one.site)?;
        }
    }
    Ok(sites)
}

/// Whether it is told that what is asked holds without the instructions at all these sites.
pub(crate) fn holds_without<G: Gate>(
    alloc: Global,
    object: &Object,
    question: &Question,
    limit: u64,
    sites: &[Site],
    gate: &G,
) -> Result<bool, AllocError>
    ensures { IfOk result (λ holds. IsTrue holds → IsKeptBy question.now (without_all object.now sites.now)) }
{
    let changed = without_all(alloc, object, sites)?;
    match verdict_on(alloc, &changed, question, limit, gate)? {
        Ok(Verdict::Holds(_)) => Ok(true),
        Ok(Verdict::Fails(_)) | Err(_) => Ok(false),
    }
}

/// Tries to leave out one more than those without which this program is. It is left out too if what is asked holds then.
fn one_more<G: Gate>(
    alloc: Global,
    question: &Question,
    limit: u64,
    left: &mut Object,
    site: Site,
    gate: &G,
) -> Result<Need, AllocError>
    ensures { IfOk result (IsTriedOn question.now limit left.old site left.new) }
{
    let changed = without(alloc, left, site)?;
    match verdict_on(alloc, &changed, question, limit, gate)? {
        Ok(Verdict::Holds(_)) => {
            *left = changed;
            Ok(Need::LeftOut)
        }
        Ok(Verdict::Fails(failure)) => Ok(Need::Kept(failure)),
        Err(fault) => Ok(Need::KeptUntold(fault)),
    }
}

/// The same of one without which alone what is asked holds. The first one needs no try.
fn next_left_out<G: Gate>(
    alloc: Global,
    object: &Object,
    question: &Question,
    limit: u64,
    left: &mut Option<Object>,
    site: Site,
    gate: &G,
) -> Result<Need, AllocError>
    requires { IsKeptBy question.now (without object.now site) }
    ensures { IfOk result (λ need. GoesOn question.now limit object.now site need left.old left.new) }
{
    match left {
        Some(left) => one_more(alloc, question, limit, left, site, gate),
        None => {
            *left = Some(without(alloc, object, site)?);
            Ok(Need::LeftOut)
        }
    }
}

/// What the instruction at a site is needed for behind those that are left out, by what it is needed for alone.
fn need_behind<G: Gate>(
    alloc: Global,
    object: &Object,
    question: &Question,
    limit: u64,
    left: &mut Option<Object>,
    site: Site,
    alone: Need,
    gate: &G,
) -> Result<Need, AllocError>
    requires { IsNeedAlone question.now limit object.now site alone }
    ensures { IfOk result (λ need. GoesOn question.now limit object.now site need left.old left.new) }
{
    match alone {
        Need::LeftOut => next_left_out(alloc, object, question, limit, left, site, gate),
        other => Ok(other),
    }
}

/// What all are needed for, by what each is needed for alone. One after another is left out, if what is asked holds without it
/// and those that are left out before it.
pub(crate) fn one_by_one<G: Gate>(
    alloc: Global,
    object: &Object,
    question: &Question,
    limit: u64,
    alone: Vec<SiteNeed>,
    gate: &G,
) -> Result<Vec<SiteNeed>, AllocError>
    requires { AreEachAlone question.now limit object.now alone.items }
    ensures { IfOk result (λ needs. AreFound question.now limit object.now needs.items) }
{
    let mut left = None;
    let mut needs = Vec::with_capacity(alloc, alone.len())?;
    for one in alone {
        let SiteNeed {
            site,
            instr,
            need,
            ..
        } = one;
        let need = need_behind(alloc, object, question, limit, &mut left, site, need, gate)?;
        needs.push(SiteNeed {
            site,
            instr,
            need,
            weaker: None,
        })?;
    }
    Ok(needs)
}
