//! What `images` finds.
ghost use Rattle.std.specs.Prelude.{◌≡◌, true, IsOk};
ghost use Rattle.machine.specs.Objects.{opening};
ghost use Rattle.machine.specs.Steps.{run_of};
ghost use Rattle.images.specs.Images.{IsListing, images_of};
ghost use Rattle.commands.specs.Works.{Makes};
ghost use Rattle.jobs.specs.ImageReports.{looks};
ghost use Rattle.jobs.specs.Reports.{images_after, images_found, images_told, question_work, IsOfImagesOn};

use crate::form::Answer;
use crate::image_told::{WithImage, find_told, image_broken};
use crate::listing::{Listing, examine};
use crate::question::Question;
use commands::{Fault, ImagesOptions, condition_in, machine_after, read_list};
use isa::Object;
use machine::Step;
use questions::Questioned;
use std::alloc::Global;

/// What is asked about the images of a program.
///
/// # Errors
///
/// The fault of a condition, of the first that has one; out of memory.
#[tactic(auto, using(commands::proofs::WorksInTurn::turns))]
fn question_of(
    alloc: Global,
    program: &Questioned,
    options: &ImagesOptions<'_>,
) -> Result<Question, Fault>
    ensures { Makes (question_work program.now options.now) result }
{
    let all = condition_in(alloc, program, options.all)?;
    let some = condition_in(alloc, program, options.some)?;
    Ok(Question {
        only_count: options.only_count,
        all,
        some,
    })
}

/// What is found of the images of the state that steps lead to, on the machine of an object.
#[tactic(auto, using(commands::proofs::WorksInTurn::turns))]
fn images_after(
    alloc: Global,
    object: &Object,
    question: &Question,
    steps: &[Step],
) -> Result<Answer<Listing>, Fault>
    ensures found { Makes (images_after question.now (run_of steps.now (opening object.now))) result }
    ensures exact { IsOk result → looks question.now ≡ true
        → IsListing (run_of steps.now (opening object.now)).state (images_of (run_of steps.now (opening object.now)).state) }
{
    let machine = machine_after(alloc, object, steps)?;
    let listing = examine(alloc, &machine.view(), question);
    drop(machine);
    let found = listing?;
    let status = found.status();
    Ok(Answer { found, status })
}

/// The same, and what is told of the image that breaks the condition, where this is asked for.
#[tactic(auto, using(commands::proofs::WorksInTurn::turns))]
fn images_told(
    alloc: Global,
    asked: bool,
    object: &Object,
    question: &Question,
    steps: &[Step],
) -> Result<Answer<WithImage<Listing>>, Fault>
    ensures found { Makes (images_told asked object.now question.now steps.now) result }
    ensures exact { IsOk result → looks question.now ≡ true
        → IsListing (run_of steps.now (opening object.now)).state (images_of (run_of steps.now (opening object.now)).state) }
{
    let answer = images_after(alloc, object, question, steps)?;
    let Answer { found, status } = answer;
    let told = find_told(alloc, asked, object, steps, image_broken(&found.broken))?;
    Ok(Answer {
        found: WithImage { found, told },
        status,
    })
}

/// What `images` finds.
///
/// # Errors
///
/// A fault of a condition or of the steps; a step that is refused; more candidates than are counted; out of memory.
#[tactic(auto, using(commands::proofs::WorksInTurn::turns))]
pub fn find_images(
    alloc: Global,
    options: &ImagesOptions<'_>,
    program: &Questioned,
    steps: &[u8],
) -> Result<Answer<WithImage<Listing>>, Fault>
    ensures found { Makes (images_found options.now program.now steps.now) result }
    ensures exact { IsOk result → IsOfImagesOn options.now program.now steps.now }
{
    let question = question_of(alloc, program, options)?;
    let steps = read_list(alloc, steps)?;
    images_told(
        alloc,
        options.explains_image,
        &program.lined.object,
        &question,
        &steps,
    )
}
