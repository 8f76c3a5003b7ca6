//! An image that `images` names, and what explains it: the writes that are missing in it.
ghost use Rattle.std.specs.Prelude.{◌≡◌, ◌++◌, IfOk, OnOk, option_copied, option_map, string_bytes};
ghost use Rattle.commands.specs.Works.{Makes};
ghost use Rattle.jobs.specs.ImagesTold.{image_broken, image_left, image_told, told_if, explained_lines, told_work};

use commands::{Fault, Stage, push_image_lines};
use image_reasons::{Missing, missing_writes};
use images::Image;
use isa::Object;
use lines_layout::Layout;
use litmus_text::TextLines;
use machine::Step;
use std::alloc::{AllocError, Global};
use std::marker::Model;

/// An image, and the writes that are missing in it.
#[derive(Drop)]
pub struct ImageTold {
    /// The values of its words.
    pub image: Image,
    /// The writes that are missing in it, if it is one of the state.
    pub missing: Option<Vec<Missing>>,
}

impl Model for ImageTold {
    ghost use Rattle.image_reasons.specs.Reasons.{missing_found};
    ghost use Rattle.jobs.specs.ImagesTold as told;

    ghost Value = { told.ImageTold };

    ghost view = { λ t. record { image = t.image; missing = missing_found t.missing } };
}

/// What is found, and what is told of an image that it names, where this is asked for.
#[derive(Drop)]
pub struct WithImage<A> {
    /// What is found.
    pub found: A,
    /// The image, and the writes that are missing in it.
    pub told: Option<ImageTold>,
}

/// What is told of an image, after these steps of a program.
fn image_told(
    alloc: Global,
    object: &Object,
    steps: &[Step],
    image: &Image,
) -> Result<ImageTold, AllocError>
    ensures { IfOk result (λ told. told ≡ image_told object.now steps.now image.now) }
{
    let missing = missing_writes(alloc, object, steps, image)?;
    let image = image.copy(alloc)?;
    Ok(ImageTold { image, missing })
}

/// The same where it is asked for, and an image is named.
fn told_if(
    alloc: Global,
    asked: bool,
    object: &Object,
    steps: &[Step],
    image: Option<&Image>,
) -> Result<Option<ImageTold>, AllocError>
    ensures { IfOk result (λ told. told ≡ told_if asked object.now steps.now (option_copied image.entry)) }
{
    match image {
        Some(image) if asked => Ok(Some(image_told(alloc, object, steps, image)?)),
        _ => Ok(None),
    }
}

/// The same, or that memory is missing for it.
#[tactic(auto, unfolding(commands::specs::Works::Makes))]
pub(crate) fn find_told(
    alloc: Global,
    asked: bool,
    object: &Object,
    steps: &[Step],
    image: Option<&Image>,
) -> Result<Option<ImageTold>, Fault>
    ensures { Makes (told_work asked object.now steps.now (option_copied image.entry)) result }
{
    match told_if(alloc, asked, object, steps, image) {
        Ok(told) => Ok(told),
        Err(AllocError) => Err(Stage::Images.missing()),
    }
}

/// The image that breaks a condition, where one is asked for, and one does.
pub(crate) fn image_broken(broken: &Option<Option<Image>>) -> Option<&Image>
    ensures { option_copied result ≡ image_broken broken.now }
{
    match broken {
        Some(counterexample) => counterexample.as_ref(),
        None => None,
    }
}

/// An image, if a set leaves it.
pub(crate) fn image_left<'a>(image: &'a Image, places: &Option<Vec<usize>>) -> Option<&'a Image>
    ensures { option_copied result ≡ image_left image.now (option_map (λ places. places.items) places.now) }
{
    match places {
        Some(_) => Some(image),
        None => None,
    }
}

/// Appends the lines of an image, where it is told.
pub(crate) fn push_explained_lines(
    text: &mut String,
    layout: &Layout,
    lines: &TextLines,
    told: &Option<ImageTold>,
) -> Result<(), AllocError>
    ensures { OnOk result (string_bytes text.new ≡ string_bytes text.old ++ explained_lines layout.now lines.now told.now) }
{
    match told {
        Some(told) => push_image_lines(text, layout, lines, &told.image, &told.missing),
        None => Ok(()),
    }
}
