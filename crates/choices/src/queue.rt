//! Choices that wait to be tried.
ghost use Rattle.std.specs.Prelude.{◌≡◌, ◌<◌, true, length, IfOk, OnOk, IsTrue};
ghost use Rattle.choices.specs.Choices.{is_within};
ghost use Rattle.choices.specs.Waiting.{AreChoices, HasWithin, IsLeastPlace, IsPut, IsSpread, IsTaken};

use crate::flags::{is_within, with_one};
use crate::order::comes_before;
use std::alloc::{AllocError, Global};

/// The place of a choice that comes before all others. There is one at least.
fn least_place(costs: &[u8], queue: &[Vec<bool>]) -> usize
    requires some { 0 < length queue.now }
    requires choices { AreChoices (length costs.now) queue.now }
    ensures { IsLeastPlace costs.now queue.now result }
{
    let mut least = 0;
    for place in 1..queue.len() {
        if comes_before(costs, &queue[place], &queue[least]) {
            least = place;
        }
    }
    least
}

/// Takes the choice out that comes before all others, if there is one.
pub fn take_first(costs: &[u8], queue: &mut Vec<Vec<bool>>) -> Option<Vec<bool>>
    requires { AreChoices (length costs.now) queue.old.items }
    ensures { IsTaken costs.now queue.old.items queue.new.items result }
{
    if queue.is_empty() {
        return None;
    }
    let place = least_place(costs, queue);
    Some(queue.remove(place))
}

/// Whether one of these takes no more than a choice.
fn has_within(queue: &[Vec<bool>], choice: &[bool]) -> bool
    requires { AreChoices (length choice.now) queue.now }
    ensures { result ≡ true → HasWithin queue.now choice.now }
{
    for other in queue {
        if is_within(other, choice) {
            return true;
        }
    }
    false
}

/// Puts a choice in, if none that waits takes no more. The only error is out of memory.
fn put(queue: &mut Vec<Vec<bool>>, choice: Vec<bool>) -> Result<(), AllocError>
    requires { AreChoices (length choice.items) queue.old.items }
    ensures { OnOk result (IsPut queue.old.items queue.new.items choice) }
{
    if !has_within(queue, &choice) {
        queue.push(choice)?;
    }
    Ok(())
}

/// Puts in what takes one thing more than a choice, of each thing that a bound does not take. The only error is out of memory.
pub fn spread(
    alloc: Global,
    queue: &mut Vec<Vec<bool>>,
    choice: &[bool],
    bound: &[bool],
) -> Result<(), AllocError>
    requires queue { AreChoices (length choice.now) queue.old.items }
    requires bound { length bound.now ≡ length choice.now }
    requires within { is_within choice.now bound.now ≡ true }
    ensures choices { OnOk result (AreChoices (length choice.now) queue.new.items) }
    ensures spread { OnOk result (IsSpread queue.old.items queue.new.items choice.now bound.now) }
{
    for place in 0..choice.len() {
        if !bound[place] {
            put(queue, with_one(alloc, choice, place)?)?;
        }
    }
    Ok(())
}
