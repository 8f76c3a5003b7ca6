//! What was read on one level of brackets.
ghost use Rattle.std.specs.Prelude.{◌≡◌, ◌∷◌, IfOk, OnOk, reverse};
ghost use Rattle.conditions.specs.Formulas.{And, Or};
ghost use Rattle.conditions.specs.Reading.{TakesFirst, joined, negated, said};
ghost use Rattle.questions.specs.Levels.{empty_level, implied, is_untouched, level_said, side_said, with_factor};

use conditions::Cond;
use std::alloc::{AllocError, Global};

/// What was read on one level of brackets.
#[derive(Drop)]
pub struct Level {
    /// How many brackets and `not`s are open around it.
    pub depth: u32,
    /// How many `not`s are before the factor to come.
    pub nots: u32,
    /// What is left of its `->`, if there was one.
    pub left: Option<Cond>,
    /// The terms that are followed by `or`.
    pub terms: Option<Cond>,
    /// The factors of the term that goes on.
    pub factors: Option<Cond>,
}

/// That a condition does not hold, said so many times.
fn negated(alloc: Global, times: u32, cond: Cond) -> Result<Cond, AllocError>
    ensures { IfOk result (λ c. c ≡ negated times cond) }
{
    let mut wrapped = cond;
    for done in 0..times {
        wrapped = wrapped.negated(alloc)?;
    }
    Ok(wrapped)
}

/// A condition joined by `and` to those before it.
fn and_joined(alloc: Global, before: Option<Cond>, cond: Cond) -> Result<Cond, AllocError>
    ensures { IfOk result (λ c. c ≡ joined And before cond) }
{
    match before {
        None => Ok(cond),
        Some(before) => before.and(alloc, cond),
    }
}

/// A condition joined by `or` to those before it.
fn or_joined(alloc: Global, before: Option<Cond>, cond: Cond) -> Result<Cond, AllocError>
    ensures { IfOk result (λ c. c ≡ joined Or before cond) }
{
    match before {
        None => Ok(cond),
        Some(before) => before.or(alloc, cond),
    }
}

/// What terms and the factors of one more term say.
pub(crate) fn said(
    alloc: Global,
    terms: Option<Cond>,
    factors: Option<Cond>,
) -> Result<Option<Cond>, AllocError>
    ensures { IfOk result (λ c. c ≡ said terms factors) }
{
    match factors {
        None => Ok(None),
        Some(factors) => Ok(Some(or_joined(alloc, terms, factors)?)),
    }
}

/// That a condition holds where what is left of its `->` does, if there is one.
pub(crate) fn implied(alloc: Global, left: Option<Cond>, cond: Cond) -> Result<Cond, AllocError>
    ensures { IfOk result (λ c. c ≡ implied left cond) }
{
    match left {
        None => Ok(cond),
        Some(left) => left.negated(alloc)?.or(alloc, cond),
    }
}

impl Level {
    /// A level at this depth, of which nothing is read. It takes no memory.
    pub(crate) fn new(depth: u32) -> Level
        ensures { result ≡ empty_level depth }
    {
        Level {
            depth,
            nots: 0,
            left: None,
            terms: None,
            factors: None,
        }
    }

    /// A factor ends.
    pub(crate) fn add_factor(&mut self, alloc: Global, factor: Cond) -> Result<(), AllocError>
        ensures { OnOk result (self.new ≡ with_factor self.old factor) }
    {
        let factor = negated(alloc, self.nots, factor)?;
        let factors = and_joined(alloc, self.factors.take(), factor)?;
        self.nots = 0;
        self.factors = Some(factors);
        Ok(())
    }

    /// What stands behind the `->`, or on the whole level where it has none; it is taken out.
    pub(crate) fn take_side(&mut self, alloc: Global) -> Result<Option<Cond>, AllocError>
        ensures side { IfOk result (λ side. side ≡ side_said self.old) }
        ensures left { OnOk result (self.new ≡ record self.old { terms = None; factors = None }) }
    {
        said(alloc, self.terms.take(), self.factors.take())
    }

    /// The condition that the whole level says, if it says one.
    pub(crate) fn condition(self, alloc: Global) -> Result<Option<Cond>, AllocError>
        ensures { IfOk result (λ c. c ≡ level_said self) }
    {
        match said(alloc, self.terms, self.factors)? {
            None => Ok(None),
            Some(side) => Ok(Some(implied(alloc, self.left, side)?)),
        }
    }

    /// Whether no token of a condition was read on the level.
    pub(crate) fn is_untouched(&self) -> bool
        ensures { result ≡ is_untouched self.now }
    {
        self.nots == 0 && self.left.is_none() && self.terms.is_none() && self.factors.is_none()
    }
}

/// One more level inside the others.
#[tactic(auto, using(crate::proofs::ReversedLists::stack_steps))]
pub(crate) fn push_level(outer: &mut Vec<Level>, level: Level) -> Result<(), AllocError>
    ensures { OnOk result (reverse outer.new.items ≡ level ∷ reverse outer.old.items) }
{
    outer.push(level)?;
    Ok(())
}

/// Takes the innermost level out.
#[tactic(auto, using(crate::proofs::ReversedLists::stack_steps))]
pub(crate) fn pop_level(outer: &mut Vec<Level>) -> Option<Level>
    ensures { TakesFirst (reverse outer.old.items) result (reverse outer.new.items) }
{
    outer.pop()
}
