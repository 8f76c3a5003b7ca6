//! Which instructions of a program were put in.
ghost use Rattle.std.specs.Prelude.{◌≡◌, length};

use crate::task::Task;
use image_reasons::Site;
use isa::Programs;
use replays::PutIn;
use std::alloc::{AllocError, Global};

/// Adds a mark for each candidate at a site that `more` puts in: whether `choice` does not. The only error is out of memory.
fn push_marks(
    marks: &mut Vec<bool>,
    task: &Task<'_>,
    choice: &[bool],
    more: &[bool],
    site: Site,
) -> Result<(), AllocError>
    requires choice { length choice.now ≡ length task.now.candidates.now }
    requires more { length more.now ≡ length task.now.candidates.now }
{
    for (at, candidate) in task.candidates.iter().enumerate() {
        if more[at] && candidate.site == site {
            marks.push(!choice[at])?;
        }
    }
    Ok(())
}

/// The marks of a program of so many instructions, and of what is put into it. The only error is out of memory.
fn marks_of(
    alloc: Global,
    task: &Task<'_>,
    choice: &[bool],
    more: &[bool],
    from: Site,
    count: usize,
) -> Result<Vec<bool>, AllocError>
    requires choice { length choice.now ≡ length task.now.candidates.now }
    requires more { length more.now ≡ length task.now.candidates.now }
{
    let mut marks = Vec::new(alloc);
    for place in 0..count {
        marks.push(false)?;
        push_marks(&mut marks, task, choice, more, Site { place, ..from })?;
    }
    Ok(marks)
}

/// The same of the programs of a processor. The only error is out of memory.
fn put_in_programs(
    alloc: Global,
    task: &Task<'_>,
    choice: &[bool],
    more: &[bool],
    processor: u32,
    programs: &Programs,
) -> Result<PutIn, AllocError>
    requires choice { length choice.now ≡ length task.now.candidates.now }
    requires more { length more.now ≡ length task.now.candidates.now }
{
    let main = Site {
        processor,
        recovering: false,
        place: 0,
    };
    let recovery = Site {
        recovering: true,
        ..main
    };
    let count = programs.main.instructions().len();
    let main = marks_of(alloc, task, choice, more, main, count)?;
    let count = programs.recovery.instructions().len();
    let recovery = marks_of(alloc, task, choice, more, recovery, count)?;
    Ok(PutIn { main, recovery })
}

/// Of each instruction of the program with `more`: whether it was put in, and `choice` does not put it in. The only error is out of memory.
pub(crate) fn put_in(
    alloc: Global,
    task: &Task<'_>,
    choice: &[bool],
    more: &[bool],
) -> Result<Vec<PutIn>, AllocError>
    requires choice { length choice.now ≡ length task.now.candidates.now }
    requires more { length more.now ≡ length task.now.candidates.now }
{
    let mut put_in = Vec::new(alloc);
    for (processor, programs) in task.object.processors().iter().enumerate() {
        put_in.push(put_in_programs(alloc, task, choice, more, processor as u32, programs)?)?;
    }
    Ok(put_in)
}
