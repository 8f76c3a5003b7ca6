//! What is known of the sets so far.
ghost use Rattle.std.specs.Prelude.{length, IfOk};
ghost use Rattle.choices.specs.Waiting.{AreChoices};
ghost use Rattle.mends.specs.Mends.{IsChoice};
ghost use Rattle.mends.specs.Searches.{AreOpenChoices, IsBoundAmong, IsKnown, IsKnownBound, IsOpenAmong};

use crate::outcome::Open;
use crate::task::Task;
use added_fences::laws::{candidates_are_sets, more_put_in_breaks_no_more};
use choices::is_within;
use std::alloc::{AllocError, Global};

/// How far a search has come.
#[derive(Drop)]
pub struct Search {
    /// Choices that wait to be tried.
    pub queue: Vec<Vec<bool>>,
    /// Choices with which what is asked is broken.
    pub ruled: Vec<Vec<bool>>,
    /// Those that are not told.
    pub untold: Vec<Open>,
}

/// The place of the first bound that a choice is within, if there is one.
fn bound_among(ruled: &[Vec<bool>], choice: &[bool]) -> Option<usize>
    requires { AreChoices (length choice.now) ruled.now }
    ensures { IsBoundAmong ruled.now choice.now result }
{
    for (place, bound) in ruled.iter().enumerate() {
        if is_within(choice, bound) {
            return Some(place);
        }
    }
    None
}

/// The place of the first choice that is open and that a choice is within, if there is one.
fn open_among(untold: &[Open], choice: &[bool]) -> Option<usize>
    requires { AreOpenChoices (length choice.now) untold.now }
    ensures { IsOpenAmong untold.now choice.now result }
{
    for (place, open) in untold.iter().enumerate() {
        if is_within(choice, &open.choice) {
            return Some(place);
        }
    }
    None
}

/// What settles a choice, if something is known that does. The only error is out of memory.
pub(crate) fn known_bound(
    alloc: Global,
    task: &Task<'_>,
    search: &Search,
    choice: &[bool],
) -> Result<Option<Vec<bool>>, AllocError>
    requires known { IsKnown task.now.question.now task.now.limit task.now.object.now search.now }
    requires choice { IsChoice task.now.object.now choice.now }
    ensures { IfOk result (IsKnownBound task.now.question.now task.now.object.now search.now choice.now) }
{
    // For the proof.
    candidates_are_sets();
    more_put_in_breaks_no_more();
    if let Some(place) = bound_among(&search.ruled, choice) {
        return Ok(Some(search.ruled[place].to_vec(alloc)?));
    }
    if let Some(place) = open_among(&search.untold, choice) {
        return Ok(Some(search.untold[place].choice.to_vec(alloc)?));
    }
    Ok(None)
}
