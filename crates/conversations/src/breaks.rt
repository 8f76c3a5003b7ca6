//! Where breaks halt steps.
ghost use Rattle.std.specs.Prelude.{◌≡◌, IfOk};
ghost use Rattle.conversations.specs.Breaks.{break_at, cut_from, cut_of, halts_at, has_break, has_breaks, up_to};

use crate::declaration::Declaration;
use litmus_text::LinedObject;
use machine::{Machine, Seen, Step, View};
use std::alloc::{AllocError, Global};

/// Where a break halts steps.
#[derive(Clone, Copy)]
pub(crate) struct Cut {
    /// How many of them are made.
    pub(crate) count: usize,
    /// The id of the break.
    pub(crate) id: u32,
}

/// Whether one of these declares a break, or a watch that halts, of this id.
pub(crate) fn has_break(declared: &[Declaration], id: u32) -> bool
    ensures { result ≡ has_break declared.now id }
{
    for one in declared {
        if one.id() == id && one.halts().is_some() {
            return true;
        }
    }
    false
}

/// Whether one of these declares any.
fn has_breaks(declared: &[Declaration]) -> bool
    ensures { result ≡ has_breaks declared.now }
{
    for one in declared {
        if one.halts().is_some() {
            return true;
        }
    }
    false
}

/// Whether it halts behind an accepted step, by the state before it, what it showed, and the state after it.
fn halts_at(
    lined: &LinedObject,
    before: &View<'_>,
    seen: &Seen,
    after: &View<'_>,
    one: &Declaration,
) -> bool
    ensures { result ≡ halts_at lined.now before.now seen.now after.now one.now }
{
    match one.halts() {
        Some(moment) => moment.is_at(lined, before, seen, after),
        None => false,
    }
}

/// The id of the first that does.
fn break_at(
    lined: &LinedObject,
    declared: &[Declaration],
    before: &View<'_>,
    seen: &Seen,
    after: &View<'_>,
) -> Option<u32>
    ensures { result ≡ break_at lined.now declared.now before.now seen.now after.now }
{
    for one in declared {
        if halts_at(lined, before, seen, after, one) {
            return Some(one.id());
        }
    }
    None
}

/// Makes steps on two machines that are alike, up to where a break halts them, if one does: where that is.
fn first_cut(
    lined: &LinedObject,
    declared: &[Declaration],
    before: &mut Machine,
    after: &mut Machine,
    steps: &[Step],
) -> Option<Cut>
    requires { after.old ≡ before.old }
    ensures { result ≡ cut_of lined.now declared.now before.old steps.now }
{
    for (made, step) in steps.iter().enumerate() {
        let Ok(seen) = after.step(*step) else {
            return None;
        };
        if let Some(id) = break_at(lined, declared, &before.view(), &seen, &after.view()) {
            return Some(Cut {
                count: made + 1,
                id,
            });
        }
        // What was accepted there is accepted here, too.
        let _ = before.step(*step);
    }
    None
}

/// Where a break halts steps, if one does. The machine stays as it is.
pub(crate) fn cut_of(
    alloc: Global,
    lined: &LinedObject,
    declared: &[Declaration],
    machine: &Machine,
    steps: &[Step],
) -> Result<Option<Cut>, AllocError>
    ensures { IfOk result (λ cut. cut ≡ cut_of lined.now declared.now machine.now steps.now) }
{
    if !has_breaks(declared) {
        return Ok(None);
    }
    let Ok(mut before) = machine.copy(alloc) else {
        return Err(AllocError);
    };
    let Ok(mut after) = machine.copy(alloc) else {
        drop(before);
        return Err(AllocError);
    };
    let cut = first_cut(lined, declared, &mut before, &mut after, steps);
    drop((before, after));
    Ok(cut)
}

/// The steps up to there.
#[tactic(auto, using(std::proofs::lemmas::List::take_min))]
pub(crate) fn up_to(cut: Option<Cut>, steps: &[Step]) -> &[Step]
    ensures { result.now ≡ up_to cut steps.now }
{
    match cut {
        Some(cut) => &steps[..cut.count.min(steps.len())],
        None => steps,
    }
}
