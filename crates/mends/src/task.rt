//! What is to be mended, and the program with a choice of what may be put in.
ghost use Rattle.std.specs.Prelude.{◌≡◌, length, IfOk};
ghost use Rattle.choices.specs.Choices.{picked};
ghost use Rattle.mends.specs.Mends.{IsChoice, chosen, mended};
ghost use Rattle.mends.specs.Searches.{IsTask};

use candidates::with_all;
use explore::Question;
use image_reasons::Repair;
use isa::Object;
use std::alloc::{AllocError, Global};

/// What is asked of all runs of which program, and what may be put into it.
#[derive(Clone, Copy)]
pub struct Task<'a> {
    /// The program as it is.
    pub object: &'a Object,
    /// What is asked.
    pub question: &'a Question,
    /// How many states of each program are told apart at most.
    pub limit: u64,
    /// What may be put in.
    pub candidates: &'a [Repair],
    /// What each of these costs.
    pub costs: &'a [u8],
}

/// The candidates that a choice puts in. The only error is out of memory.
fn picked(alloc: Global, candidates: &[Repair], choice: &[bool]) -> Result<Vec<Repair>, AllocError>
    requires { length choice.now ≡ length candidates.now }
    ensures { IfOk result (λ set. set.items ≡ picked choice.now candidates.now) }
{
    let mut set = Vec::new(alloc);
    for (place, candidate) in candidates.iter().enumerate() {
        if choice[place] {
            set.extend_from_slice(&[*candidate])?;
        }
    }
    Ok(set)
}

/// What a choice puts in. The only error is out of memory.
pub(crate) fn chosen(
    alloc: Global,
    task: &Task<'_>,
    choice: &[bool],
) -> Result<Vec<Repair>, AllocError>
    requires task { IsTask task.now }
    requires choice { IsChoice task.now.object.now choice.now }
    ensures { IfOk result (λ set. set.items ≡ chosen task.now.object.now choice.now) }
{
    picked(alloc, task.candidates, choice)
}

/// The program with what a choice puts in, if it can be loaded. The only error is out of memory.
pub(crate) fn mended(
    alloc: Global,
    task: &Task<'_>,
    choice: &[bool],
) -> Result<Option<Object>, AllocError>
    requires task { IsTask task.now }
    requires choice { IsChoice task.now.object.now choice.now }
    ensures { IfOk result (λ changed. changed ≡ mended task.now.object.now choice.now) }
{
    let set = chosen(alloc, task, choice)?;
    with_all(alloc, task.object, &set)
}
