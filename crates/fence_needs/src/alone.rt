//! What each flush and each fence is needed for, one at a time.
ghost use Rattle.std.specs.Prelude.{IfOk};
ghost use Rattle.std.specs.List.{AllZip};
ghost use Rattle.fence_needs.specs.Tried.{IsNeedAlone, IsOneAlone};

use crate::change::without;
use crate::need::{Need, SiteNeed};
use crate::site_list::instr_at;
use explore::{Question, Verdict};
use image_reasons::Site;
use isa::Object;
use rayon::prelude::*;
use std::alloc::{AllocError, Global};
use std::thread::Threads;
use verdicts::verdict_on;
use workers::Gate;

/// What the instruction at a site is needed for, alone: `LeftOut` says that without it what is asked holds. So many states
/// are told apart at most; the gate is told of each. The only error is out of memory.
pub fn need_of<G: Gate>(
    alloc: Global,
    object: &Object,
    question: &Question,
    limit: u64,
    site: Site,
    gate: &G,
) -> Result<Need, AllocError>
    ensures { IfOk result (IsNeedAlone question.now limit object.now site) }
{
    let changed = without(alloc, object, site)?;
    match verdict_on(alloc, &changed, question, limit, gate)? {
        Ok(Verdict::Holds(_)) => Ok(Need::LeftOut),
        Ok(Verdict::Fails(failure)) => Ok(Need::Needed(failure)),
        Err(fault) => Ok(Need::Untold(fault)),
    }
}

/// The same with the site and the instruction. Nothing is said of a weaker one yet.
fn site_need<G: Gate>(
    alloc: Global,
    object: &Object,
    question: &Question,
    limit: u64,
    site: Site,
    gate: &G,
) -> Result<SiteNeed, AllocError>
    ensures { IfOk result (IsOneAlone question.now limit object.now site) }
{
    let need = need_of(alloc, object, question, limit, site, gate)?;
    let instr = instr_at(object, site);
    Ok(SiteNeed {
        site,
        instr,
        need,
        weaker: None,
    })
}

/// What the instructions at these sites are needed for, each alone, by as many threads as there are.
pub(crate) fn each_alone<R: Threads + Sync, G: Gate + Sync>(
    rt: &R,
    alloc: Global,
    object: &Object,
    question: &Question,
    limit: u64,
    sites: &[Site],
    gate: &G,
) -> Result<Vec<SiteNeed>, AllocError>
    ensures { IfOk result (λ needs. AllZip (IsOneAlone question.now limit object.now) sites.now needs.items) }
{
    let chain = sites.par_iter().map(
        move |site: &Site| -> Result<SiteNeed, AllocError>
            ensures { IfOk result (IsOneAlone question.entry.now limit object.entry.now site.now) }
        { site_need(alloc, object, question, limit, *site, gate) },
    );
    let Ok(made) = chain
        .with_min_len(1)
        .collect::<Result<Vec<SiteNeed>, AllocError>>(rt, alloc)
    else {
        return Err(AllocError);
    };
    match made {
        Ok(needs) => Ok(needs),
        Err(_) => Err(AllocError),
    }
}
