//! Whether a larger number of flushes and fences can go than are left out.
ghost use Rattle.std.specs.Prelude.{◌≡◌, ℕ, IfOk, List};
ghost use Rattle.image_reasons.specs.declared.entries.Site.{Site};
ghost use Rattle.fence_needs.specs.Least.{IsSaidOfLeast, goes_alone, spare};
ghost use Rattle.fence_needs.specs.Needs.{AreNeeds};
ghost use Rattle.fence_needs.specs.Tried.{AreTried};

use crate::change::without;
use crate::least::no_more_can_go;
use crate::need::{Need, SiteNeed};
use crate::one_by_one::left_out;
use explore::{Question, Verdict};
use image_reasons::Site;
use isa::Object;
use std::alloc::{AllocError, Global};
use verdicts::verdict_on;
use workers::Gate;

/// How many programs are tried at most by [`is_least`].
pub const MOST_CHOICES: u64 = 100;

/// Whether what is asked holds without an instruction alone.
fn goes_alone(need: &Need) -> bool
    ensures { result ≡ goes_alone need.now }
{
    matches!(need, Need::LeftOut | Need::Kept(_) | Need::KeptUntold(_))
}

/// The sites of those without which alone it holds.
fn spare(alloc: Global, needs: &[SiteNeed]) -> Result<Vec<Site>, AllocError>
    ensures { IfOk result (λ sites. sites.items ≡ spare needs.now) }
{
    let mut sites = Vec::new(alloc);
    for one in needs {
        if goes_alone(&one.need) {
            sites.push(one.site)?;
        }
    }
    Ok(sites)
}

/// How many choices of so many of these there are, as far as a count of [`MOST_CHOICES`] tells.
fn count_of_choices(of: usize, count: usize) -> u64 {
    let mut all: u64 = 1;
    for taken in 0..count.min(of.saturating_sub(count)) {
        all = all.saturating_mul((of - taken) as u64) / (taken as u64 + 1);
    }
    all.min(MOST_CHOICES)
}

/// Whether it is told that some run of a program breaks what is asked. It is tried if one more may be.
fn breaks<G: Gate>(
    alloc: Global,
    object: &Object,
    question: &Question,
    limit: u64,
    left: &mut u64,
    gate: &G,
) -> Result<bool, AllocError>
    ensures { IfOk result (λ told. (sites : List Site) → AreTried question.now limit object.now 0 sites left.old left.new told) }
{
    if *left == 0 {
        return Ok(false);
    }
    *left -= 1;
    match verdict_on(alloc, object, question, limit, gate)? {
        Ok(Verdict::Fails(_)) => Ok(true),
        Ok(Verdict::Holds(_)) | Err(_) => Ok(false),
    }
}

/// Whether it is told that some run breaks what is asked of a program without so many of these sites, whichever they are. No more
/// programs are tried than may be.
fn each_choice_breaks<G: Gate>(
    alloc: Global,
    object: &Object,
    question: &Question,
    limit: u64,
    count: usize,
    sites: &[Site],
    left: &mut u64,
    gate: &G,
) -> Result<bool, AllocError>
    ensures { IfOk result (AreTried question.now limit object.now count sites.now left.old left.new) }
{
    if sites.len() < count {
        return Ok(true);
    }
    if count == 0 {
        return breaks(alloc, object, question, limit, left, gate);
    }
    let rest = &sites[1..];
    let less = without(alloc, object, sites[0])?;
    if !each_choice_breaks(alloc, &less, question, limit, count - 1, rest, left, gate)? {
        return Ok(false);
    }
    each_choice_breaks(alloc, object, question, limit, count, rest, left, gate)
}

/// Whether it is told that no larger number of flushes and fences can go than are left out, by what each is needed for: where that is
/// told of each, and each flush names its word by its address, and without one more of those without which alone what is asked
/// holds, whichever these are, some run breaks it (`laws::no_larger_number_can_go`). At most [`MOST_CHOICES`] programs are tried, and none
/// where none is kept that could go alone. So many states of each are told apart at most; the gate is told of each.
///
/// # Errors
///
/// Out of memory.
pub fn is_least<G: Gate>(
    alloc: Global,
    object: &Object,
    question: &Question,
    limit: u64,
    needs: &[SiteNeed],
    gate: &G,
) -> Result<bool, AllocError>
    ensures { AreNeeds question.now limit object.now needs.now → IfOk result (IsSaidOfLeast question.now limit object.now needs.now) }
{
    // That the object can be loaded is for the proof.
    let _processors = object.processors();
    if !no_more_can_go(needs) {
        return Ok(false);
    }
    let sites = spare(alloc, needs)?;
    let more = left_out(alloc, needs)?.len() + 1;
    if more <= sites.len() {
        gate.begun(limit.saturating_mul(count_of_choices(sites.len(), more)));
    }
    let mut left = MOST_CHOICES;
    each_choice_breaks(
        alloc, object, question, limit, more, &sites, &mut left, gate,
    )
}
