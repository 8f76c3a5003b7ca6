//! Bounds: what may be put in so that what is asked is still broken.
ghost use Rattle.std.specs.Prelude.{◌≡◌, ◌≤◌, true, length, IfOk, IfSome, IsTrue};
ghost use Rattle.choices.specs.Choices.{is_within};
ghost use Rattle.mends.specs.Mends.{IsChoice};
ghost use Rattle.mends.specs.Searches.{IsBound, IsTask};

use crate::marks::put_in;
use crate::task::{Task, mended};
use machine::Step;
use replays::breaks_again;
use std::alloc::{AllocError, Global};

/// Whether the run that breaks what is asked with `choice`, followed in the program with `more`, is found to break it there. The only error
/// is out of memory.
fn is_broken(
    alloc: Global,
    task: &Task<'_>,
    choice: &[bool],
    more: &[bool],
    steps: &[Step],
) -> Result<bool, AllocError>
    requires task { IsTask task.now }
    requires choice { IsChoice task.now.object.now choice.now }
    requires more { IsChoice task.now.object.now more.now }
    ensures { IfOk result (λ broken. broken ≡ true → IsBound task.now.question.now task.now.object.now more.now) }
{
    let Some(changed) = mended(alloc, task, more)? else {
        return Ok(false);
    };
    let put_in = put_in(alloc, task, choice, more)?;
    breaks_again(alloc, &changed, &put_in, task.question, steps)
}

/// A choice with more: of candidates from one place on, up to another, each is put in. The only error is out of memory.
fn with_range(
    alloc: Global,
    choice: &[bool],
    from: usize,
    to: usize,
) -> Result<Vec<bool>, AllocError>
    requires { to ≤ length choice.now }
    ensures length { IfOk result (λ more. length more.items ≡ length choice.now) }
    ensures within { IfOk result (λ more. is_within choice.now more.items ≡ true) }
{
    let mut more = choice.to_vec(alloc)?;
    for place in from..to {
        more[place] = true;
    }
    Ok(more)
}

/// A choice with which these steps break what is asked, with more that leaves it broken: all of the candidates are added, or halves of
/// them, and halves of those. The only error is out of memory.
pub(crate) fn bound_from(
    alloc: Global,
    task: &Task<'_>,
    choice: &[bool],
    steps: &[Step],
) -> Result<Vec<bool>, AllocError>
    requires task { IsTask task.now }
    requires broken { IsBound task.now.question.now task.now.object.now choice.now }
    ensures broken { IfOk result (λ bound. IsBound task.now.question.now task.now.object.now bound.items) }
    ensures within { IfOk result (λ bound. is_within choice.now bound.items ≡ true) }
{
    let count = choice.len();
    let mut bound = choice.to_vec(alloc)?;
    let mut ranges = Vec::new(alloc);
    ranges.push((0, count))?;
    for _ in 0..count.saturating_mul(2) {
        let Some((from, to)) = ranges.pop() else {
            break;
        };
        let more = with_range(alloc, &bound, from, to)?;
        if is_broken(alloc, task, choice, &more, steps)? {
            bound = more;
        } else if to - from > 1 {
            let middle = from + (to - from) / 2;
            ranges.push((middle, to))?;
            ranges.push((from, middle))?;
        }
    }
    Ok(bound)
}
