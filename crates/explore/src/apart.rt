//! Taking a question apart.
//!
//! Where the condition on images mixes persisted values with coherent ones or registers, more states have to be told apart. So its
//! conjuncts are sorted: those that ask persisted values alone are asked together, and so are the others.
ghost use Rattle.std.specs.Prelude.{◌≡◌, Some, true, IfOk, MatchOption, OnOk};
ghost use Rattle.explore.specs.Apart.{AreOf, both, IsApart, IsSortedIn, with_more};

use crate::question::Question;
use images::Cond;
use machine::Machine;
use std::alloc::{AllocError, Global};

/// A question taken apart.
#[derive(Drop)]
pub(crate) struct Apart {
    /// Of images what asks persisted values alone, and all else that is asked.
    pub first: Question,
    /// What is asked of images besides.
    pub other: Question,
}

/// Conditions, sorted.
#[derive(Drop)]
pub(crate) struct Sorted {
    /// Those that ask persisted values alone, as one.
    pub persisted: Option<Cond>,
    /// The others, as one.
    pub others: Option<Cond>,
}

/// Adds a condition to what is to hold.
fn add_to(alloc: Global, all: &mut Option<Cond>, cond: Cond) -> Result<(), AllocError>
    ensures { OnOk result (all.new ≡ Some (with_more all.old cond)) }
{
    let more = match all.take() {
        None => cond,
        Some(before) => before.and(alloc, cond)?,
    };
    *all = Some(more);
    Ok(())
}

impl Sorted {
    /// Adds a condition; false, where it mixes persisted values with others.
    fn add(&mut self, alloc: Global, cond: &Cond) -> Result<bool, AllocError>
        ensures { IfOk result (λ added. added ≡ true → IsSortedIn cond.now self.old.persisted self.old.others self.new.persisted self.new.others) }
    {
        if cond.reads_persisted() {
            add_to(alloc, &mut self.persisted, cond.copy(alloc)?)?;
            return Ok(true);
        }
        if cond.asks_persisted() {
            return Ok(false);
        }
        add_to(alloc, &mut self.others, cond.copy(alloc)?)?;
        Ok(true)
    }
}

/// Sorts conditions; None where one mixes persisted values with others.
fn sort(alloc: Global, parts: &[Cond]) -> Result<Option<Sorted>, AllocError>
    ensures { IfOk result (λ sorted. MatchOption sorted (Unit {0}) (λ s. AreOf (both s.persisted s.others) parts.now)) }
{
    let mut sorted = Sorted {
        persisted: None,
        others: None,
    };
    for part in parts {
        if !sorted.add(alloc, part)? {
            return Ok(None);
        }
    }
    Ok(Some(sorted))
}

/// An equal condition, if there is one.
fn copy_of(alloc: Global, cond: &Option<Cond>) -> Result<Option<Cond>, AllocError>
    ensures { IfOk result (λ c. c ≡ cond.now) }
{
    match cond {
        None => Ok(None),
        Some(cond) => Ok(Some(cond.copy(alloc)?)),
    }
}

/// The question with another condition on images.
fn with_all(alloc: Global, question: &Question, all: Cond) -> Result<Question, AllocError>
    ensures { IfOk result (λ first. first ≡ record question.now { all = Some all }) }
{
    let ends = copy_of(alloc, &question.ends)?;
    let recovered = copy_of(alloc, &question.recovered)?;
    Ok(Question {
        crashes: question.crashes,
        all: Some(all),
        ends,
        recovered,
        images: question.images,
    })
}

/// Takes a question apart, if less is to be told apart then: where nothing is pending at first, and the condition on images asks
/// persisted values and others, and comes apart into conditions of which none does.
pub(crate) fn take_apart(
    alloc: Global,
    start: &Machine,
    question: &Question,
) -> Result<Option<Apart>, AllocError>
    ensures { IfOk result (λ apart. MatchOption apart (Unit {0}) (λ a. IsApart question.now a.first a.other)) }
{
    let Some(cond) = question.of_all() else {
        return Ok(None);
    };
    if cond.reads_persisted() || !cond.asks_persisted() || start.view().pending().len() > 0 {
        return Ok(None);
    }
    let parts = cond.conjuncts(alloc)?;
    let Some(Sorted { persisted, others }) = sort(alloc, &parts)? else {
        return Ok(None);
    };
    let Some(together) = persisted else {
        return Ok(None);
    };
    let Some(rest) = others else {
        return Ok(None);
    };
    Ok(Some(Apart {
        first: with_all(alloc, question, together)?,
        other: Question {
            crashes: question.crashes,
            all: Some(rest),
            ends: None,
            recovered: None,
            images: false,
        },
    }))
}
