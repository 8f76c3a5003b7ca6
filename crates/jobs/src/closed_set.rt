//! What `images --set` finds: which pending entries leave one image.
ghost use Rattle.std.specs.Prelude.{Ok, IsOk};
ghost use Rattle.images.specs.Images.{IsLeastSet, closed_set_of};
ghost use Rattle.machine.specs.Objects.{opening};
ghost use Rattle.machine.specs.Steps.{run_of};
ghost use Rattle.jobs.specs.Forms.{answer_of};
ghost use Rattle.commands.specs.Works.{Makes, work};
ghost use Rattle.commands.specs.declared.fault.Stage.TheVariants as stages;
ghost use Rattle.jobs.specs.ImageReports.{set_status};
ghost use Rattle.jobs.specs.Reports.{set_after, set_found, set_told, IsOfSetOn};

use crate::form::Answer;
use crate::image_told::{WithImage, find_told, image_left};
use crate::listing::status_if;
use crate::values::read_values;
use commands::{Fault, SetOptions, Stage, machine_after, read_list};
use images::{Image, closed_set};
use isa::Object;
use machine::{Step, View};
use std::alloc::{AllocError, Global};
use std::marker::Model;

/// The least closed set of pending entries that leaves an image, or that there is none.
#[derive(Drop)]
pub struct LeastSet {
    /// The places of its entries.
    pub places: Option<Vec<usize>>,
}

impl Model for LeastSet {
    ghost use Rattle.std.specs.Prelude.{List, Option, option_map, ℕ};

    ghost Value = { Option (List ℕ) };

    ghost view = { λ set. option_map (λ places. places.items) set.places };
}

/// The set that leaves an image of a state. It is met where there is one.
#[tactic(auto, unfolding(commands::specs::Works::Makes))]
fn least_set(alloc: Global, view: &View<'_>, image: &Image) -> Result<Answer<LeastSet>, Fault>
    ensures found { Makes (work stages.Images (Ok (answer_of set_status (closed_set_of view.now image.now)))) result }
    // The set is the least, and there is none exactly when the image is none of the state's.
    ensures least { IsOk result → IsLeastSet view.now image.now (closed_set_of view.now image.now) }
{
    match closed_set(alloc, view, image) {
        Ok(places) => {
            let status = status_if(places.is_some());
            Ok(Answer {
                found: LeastSet { places },
                status,
            })
        }
        Err(AllocError) => Err(Stage::Images.missing()),
    }
}

/// The same of the state that steps lead to on the machine of an object.
#[tactic(auto, using(commands::proofs::WorksInTurn::turns))]
fn set_after(
    alloc: Global,
    object: &Object,
    image: &Image,
    steps: &[Step],
) -> Result<Answer<LeastSet>, Fault>
    ensures found { Makes (set_after image.now (run_of steps.now (opening object.now))) result }
    ensures least { IsOk result → IsLeastSet (run_of steps.now (opening object.now)).state image.now
        (closed_set_of (run_of steps.now (opening object.now)).state image.now) }
{
    let machine = machine_after(alloc, object, steps)?;
    let found = least_set(alloc, &machine.view(), image);
    drop(machine);
    found
}

/// The same, and what is told of the image, where this is asked for.
#[tactic(auto, using(commands::proofs::WorksInTurn::turns))]
fn set_told(
    alloc: Global,
    asked: bool,
    object: &Object,
    image: &Image,
    steps: &[Step],
) -> Result<Answer<WithImage<LeastSet>>, Fault>
    ensures found { Makes (set_told asked object.now image.now steps.now) result }
    ensures least { IsOk result → IsLeastSet (run_of steps.now (opening object.now)).state image.now
        (closed_set_of (run_of steps.now (opening object.now)).state image.now) }
{
    let answer = set_after(alloc, object, image, steps)?;
    let Answer { found, status } = answer;
    let told = find_told(
        alloc,
        asked,
        object,
        steps,
        image_left(image, &found.places),
    )?;
    Ok(Answer {
        found: WithImage { found, told },
        status,
    })
}

/// What `images --set` finds.
///
/// # Errors
///
/// Usage of the values; a fault of the steps; a step that is refused; out of memory.
#[tactic(auto, using(commands::proofs::WorksInTurn::turns))]
pub fn find_set(
    alloc: Global,
    options: &SetOptions<'_>,
    object: &Object,
    steps: &[u8],
) -> Result<Answer<WithImage<LeastSet>>, Fault>
    ensures found { Makes (set_found options.now object.now steps.now) result }
    ensures exact { IsOk result → IsOfSetOn options.now.values.now object.now steps.now }
{
    let image = read_values(alloc, object.layout(), options.values)?;
    let steps = read_list(alloc, steps)?;
    set_told(alloc, options.explains_image, object, &image, &steps)
}
