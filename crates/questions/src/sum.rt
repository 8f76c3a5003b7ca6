//! Values: what is added, less what is taken away.
ghost use Rattle.std.specs.Prelude.{◌≡◌, IfOk};
ghost use Rattle.outcomes.specs.Calls.{Answers};
ghost use Rattle.outcomes.specs.Faults.{fault_in};
ghost use Rattle.questions.specs.Sums.{alone, joined_terms, no_sum, or_zero, signed, summed, sums_compared};

use conditions::{Comparison, Cond, Term};
use litmus_text::LineFault;
use outcomes::OrNoMemory;
use std::alloc::{AllocError, Global};

/// How large an item may be: its numbers, words and registers, its `not`s and square brackets, with those of what it names.
pub const MAX_SIZE: u64 = 4096;

/// A value, which does not wrap: what is added, less what is taken away. What is not there is 0.
#[derive(Drop)]
pub struct Sum {
    /// What is added.
    pub plus: Option<Term>,
    /// What is taken away.
    pub minus: Option<Term>,
}

/// The sum of two terms, or the one that is there. No term is larger than an item may be.
#[tactic(auto, unfolding(crate::specs::Sums::joined_terms))]
pub(crate) fn joined_terms(
    alloc: Global,
    before: Option<Term>,
    more: Option<Term>,
) -> Result<Option<Term>, OrNoMemory<LineFault>>
    ensures { Answers fault_in (joined_terms before more) result }
{
    let Some(before) = before else {
        return Ok(more);
    };
    let Some(more) = more else {
        return Ok(Some(before));
    };
    if u128::from(before.addends()) + u128::from(more.addends()) > u128::from(MAX_SIZE) {
        return Err(OrNoMemory::Fault(LineFault::TooLong));
    }
    Ok(Some(before.plus(alloc, more)?))
}

/// An equal term, if there is one.
fn copy_term(alloc: Global, term: &Option<Term>) -> Result<Option<Term>, AllocError>
    ensures { IfOk result (λ copy. copy ≡ term.now) }
{
    match term {
        None => Ok(None),
        Some(term) => Ok(Some(term.copy(alloc)?)),
    }
}

/// The term, or 0.
fn or_zero(term: Option<Term>) -> Term
    ensures { result ≡ or_zero term }
{
    match term {
        None => Term::number(0),
        Some(term) => term,
    }
}

/// That two values compare so: what one takes away is added to the other.
#[tactic(auto, unfolding(crate::specs::Sums::sums_compared))]
pub(crate) fn compared(
    alloc: Global,
    left: Sum,
    comparison: Comparison,
    right: Sum,
) -> Result<Cond, OrNoMemory<LineFault>>
    ensures { Answers fault_in (sums_compared left comparison right) result }
{
    let one = joined_terms(alloc, left.plus, right.minus)?;
    let other = joined_terms(alloc, right.plus, left.minus)?;
    Ok(Cond::compare(alloc, or_zero(one), comparison, or_zero(other))?)
}

impl Sum {
    /// Nothing is added, and nothing is taken away.
    pub(crate) fn none() -> Sum
        ensures { result ≡ no_sum }
    {
        Sum {
            plus: None,
            minus: None,
        }
    }

    /// One term.
    pub(crate) fn alone(term: Term) -> Sum
        ensures { result ≡ alone term }
    {
        Sum {
            plus: Some(term),
            minus: None,
        }
    }

    /// The value, or what takes it away.
    pub(crate) fn signed(self, takes: bool) -> Sum
        ensures { result ≡ signed takes self }
    {
        if takes {
            Sum {
                plus: self.minus,
                minus: self.plus,
            }
        } else {
            self
        }
    }

    /// The sum of two values.
    #[tactic(auto, unfolding(crate::specs::Sums::summed))]
    pub(crate) fn plus(self, alloc: Global, more: Sum) -> Result<Sum, OrNoMemory<LineFault>>
        ensures { Answers fault_in (summed self more) result }
    {
        let plus = joined_terms(alloc, self.plus, more.plus)?;
        let minus = joined_terms(alloc, self.minus, more.minus)?;
        Ok(Sum { plus, minus })
    }

    /// An equal value. The only error is out of memory.
    pub(crate) fn copy(&self, alloc: Global) -> Result<Sum, AllocError>
        ensures { IfOk result (λ copy. copy ≡ self.now) }
    {
        Ok(Sum {
            plus: copy_term(alloc, &self.plus)?,
            minus: copy_term(alloc, &self.minus)?,
        })
    }
}
