//! Counting candidates.
ghost use Rattle.std.specs.Prelude.{◌≡◌, ◌↔◌, ◌≤◌, IfSome, IsSome};
ghost use Rattle.pending_images.specs.Candidates.{candidates, count_of, counted, most_candidates};

use crate::gone::Gone;
use crate::total::Count;
use persist_buffer::Pending;
use std::marker::Model;

/// How many candidates are counted at most.
pub const MOST_CANDIDATES: u64 = 65_536;

/// A pending list that has few enough candidates to be counted, and how many it has. [`list`](crate::list)
/// lists its images.
#[derive(Drop)]
pub struct Countable<'a> {
    pending: &'a Pending,
    number: u64,
}

impl<'a> Model for Countable<'a> {
    ghost use Rattle.std.specs.Prelude.{◌≡◌};
    ghost use Rattle.persist_buffer.specs.State.{Pending};
    ghost use Rattle.pending_images.specs.declared.total.Count.TheVariants.{Number};
    ghost use Rattle.pending_images.specs.Candidates.{candidates, count_of};

    ghost Value = { Pending };

    ghost view = { λ c. c.pending.now };

    ghost invariant = { λ c. count_of (candidates c.pending.now.memory.pending) ≡ Number c.number };
}

impl<'a> Countable<'a> {
    /// How many candidates there are.
    pub fn number(&self) -> u64
        ensures value { result ≡ candidates self.now.memory.pending }
        ensures within { result ≤ most_candidates }
    {
        self.number
    }

    pub(crate) fn pending(&self) -> &'a Pending
        ensures { result.now ≡ self.now }
    {
        self.pending
    }
}

/// How many candidates there are. It takes no memory, and ends as soon as there are too many.
#[tactic(auto, using(crate::proofs::SumsOfProducts::count_steps))]
fn number_of(pending: &Pending) -> Count
    ensures { result ≡ count_of (candidates pending.now.memory.pending) }
{
    let mut gone = Gone::new(pending);
    let mut sum = gone.product();
    for k in 0..pending.markers() {
        if sum > MOST_CANDIDATES {
            return Count::More;
        }
        gone.pass(k + 1);
        sum += gone.product();
    }
    if sum > MOST_CANDIDATES {
        Count::More
    } else {
        Count::Number(sum)
    }
}

/// Counts the candidates of a pending list; None where there are more than are counted. It takes no memory, and
/// ends as soon as there are too many.
pub fn count(pending: &Pending) -> Option<Countable<'_>>
    ensures few { IsSome result ↔ (candidates pending.now.memory.pending ≤ most_candidates) }
    ensures number { counted result ≡ count_of (candidates pending.now.memory.pending) }
    ensures same { IfSome result (λ countable. countable ≡ pending.now) }
{
    match number_of(pending) {
        Count::Number(number) => Some(Countable { pending, number }),
        Count::More => None,
    }
}
