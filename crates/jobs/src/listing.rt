//! What is found of the images of a state.
ghost use Rattle.std.specs.Prelude.{◌≡◌, ◌++◌, true, IfOk, IsOk, OnOk, option_copied, option_map};
ghost use Rattle.images.specs.Images.{IsListing, images_of, pending_of};
ghost use Rattle.commands.specs.Works.{Makes};
ghost use Rattle.jobs.specs.ImageReports.{counterexample, example, failing_at, failing_from, failing_listed, is_kept, is_shown, listed, listing_status, listing_work, looked, looks, status_if};

use crate::question::Question;
use commands::{Fault, Refused, Stage, Status};
use images::{Cond, Count, Countable, Image, all_images, count, list, some_image};
use machine::View;
use std::alloc::{AllocError, Global};
use std::marker::Model;
use std::slice::from_ref;

/// What is found of the images of a state.
#[derive(Drop)]
pub struct Listing {
    /// How many candidates there are.
    pub count: Count,
    /// The images, where they are listed.
    pub images: Option<Vec<Image>>,
    /// Of a condition that is asked for of all images, the first for which it does not hold.
    pub broken: Option<Option<Image>>,
    /// Where the images are listed, the places of those for which it does not.
    pub failing: Option<Vec<usize>>,
    /// Of one that is asked for of some image, the first for which it does.
    pub met: Option<Option<Image>>,
}

impl Model for Listing {
    ghost use Rattle.std.specs.Prelude.{option_map};
    ghost use Rattle.jobs.specs.ImageReports as reports;

    ghost Value = { reports.Listing };

    ghost view = { λ l. record {
      count = l.count;
      images = option_map (λ v. v.items) l.images;
      broken = l.broken;
      failing = option_map (λ v. v.items) l.failing;
      met = l.met;
    } };
}

/// Whether a condition that was asked for of all images holds for them.
fn is_kept(broken: &Option<Option<Image>>) -> bool
    ensures { result ≡ is_kept broken.now }
{
    match broken {
        Some(counterexample) => counterexample.is_none(),
        None => true,
    }
}

/// Whether a condition that was asked for of some image holds for one.
fn is_shown(met: &Option<Option<Image>>) -> bool
    ensures { result ≡ is_shown met.now }
{
    match met {
        Some(example) => example.is_some(),
        None => true,
    }
}

/// The status by whether what was asked is met.
pub(crate) fn status_if(is_met: bool) -> Status
    ensures { result ≡ status_if is_met }
{
    if is_met { Status::Done } else { Status::Unmet }
}

impl Listing {
    /// The status for it.
    pub(crate) fn status(&self) -> Status
        ensures { result ≡ listing_status self.now }
    {
        status_if(is_kept(&self.broken) && is_shown(&self.met))
    }
}

/// The same image again, if there is one.
fn copied(alloc: Global, found: Option<&Image>) -> Result<Option<Image>, AllocError>
    ensures { IfOk result (λ image. image ≡ option_copied found.entry) }
{
    match found {
        Some(image) => Ok(Some(image.copy(alloc)?)),
        None => Ok(None),
    }
}

/// The first image for which a condition does not hold, where one is asked for.
fn broken_by(
    alloc: Global,
    view: &View<'_>,
    images: &[Image],
    cond: Option<&Cond>,
) -> Result<Option<Option<Image>>, AllocError>
    requires { images.now ≡ images_of view.now }
    ensures { IfOk result (λ found. found ≡ option_map (counterexample view.now) (option_copied cond.entry)) }
{
    match cond {
        Some(cond) => Ok(Some(copied(alloc, all_images(cond, view, images))?)),
        None => Ok(None),
    }
}

/// Appends the place of an image, if a condition does not hold for it.
fn push_failing(
    places: &mut Vec<usize>,
    view: &View<'_>,
    cond: &Cond,
    place: usize,
    image: &Image,
) -> Result<(), AllocError>
    ensures { OnOk result (places.new.items ≡ places.old.items ++ failing_at view.now cond.now place image.now) }
{
    if all_images(cond, view, from_ref(image)).is_some() {
        places.push(place)?;
    }
    Ok(())
}

/// The places of the images for which a condition does not hold.
fn failing_places(
    alloc: Global,
    view: &View<'_>,
    cond: &Cond,
    images: &[Image],
) -> Result<Vec<usize>, AllocError>
    ensures { IfOk result (λ places. places.items ≡ failing_from view.now cond.now 0 images.now) }
{
    let mut places = Vec::new(alloc);
    for (place, image) in images.iter().enumerate() {
        push_failing(&mut places, view, cond, place, image)?;
    }
    Ok(places)
}

/// The same of a condition that is asked for of all images, where these are listed.
fn failing_listed(
    alloc: Global,
    view: &View<'_>,
    images: &[Image],
    question: &Question,
) -> Result<Option<Vec<usize>>, AllocError>
    requires { images.now ≡ images_of view.now }
    ensures { IfOk result (λ places. option_map (λ v. v.items) places
        ≡ failing_listed question.now.only_count view.now question.now.all) }
{
    match &question.all {
        Some(cond) if !question.only_count => {
            Ok(Some(failing_places(alloc, view, cond, images)?))
        }
        _ => Ok(None),
    }
}

/// The first image for which a condition holds, where one is asked for.
fn met_by(
    alloc: Global,
    view: &View<'_>,
    images: &[Image],
    cond: Option<&Cond>,
) -> Result<Option<Option<Image>>, AllocError>
    requires { images.now ≡ images_of view.now }
    ensures { IfOk result (λ found. found ≡ option_map (example view.now) (option_copied cond.entry)) }
{
    match cond {
        Some(cond) => Ok(Some(copied(alloc, some_image(cond, view, images))?)),
        None => Ok(None),
    }
}

/// The images themselves, unless only their count is asked for.
fn listed(only_count: bool, images: Vec<Image>) -> Option<Vec<Image>>
    ensures { option_map (λ v. v.items) result ≡ listed only_count images.items }
{
    if only_count { None } else { Some(images) }
}

/// What is found where the images are looked at.
fn looked(
    alloc: Global,
    view: &View<'_>,
    question: &Question,
    countable: &Countable<'_>,
) -> Result<Listing, AllocError>
    requires { countable.now ≡ pending_of view.now }
    ensures listing { IfOk result (λ listing. listing ≡ looked question.now view.now) }
    // The list of images has each once, ascending, and nothing else.
    ensures exact { IsOk result → IsListing view.now (images_of view.now) }
{
    let images = list(alloc, countable)?;
    let broken = broken_by(alloc, view, &images, question.all.as_ref())?;
    let failing = failing_listed(alloc, view, &images, question)?;
    let met = met_by(alloc, view, &images, question.some.as_ref())?;
    Ok(Listing {
        count: Count::Number(countable.number()),
        images: listed(question.only_count, images),
        broken,
        failing,
        met,
    })
}

/// What is found of the images of a state: how many candidates there are, the images unless only that is asked for, and the
/// first of them for which a condition fails or holds.
///
/// # Errors
///
/// I1 exactly when images are looked at and there are more candidates than are counted; otherwise only I2.
#[tactic(auto, unfolding(commands::specs::Works::Makes, commands::specs::Works::and_then))]
pub(crate) fn examine(alloc: Global, view: &View<'_>, question: &Question) -> Result<Listing, Fault>
    ensures listing { Makes (listing_work question.now view.now) result }

    // Where images are looked at, the list of them has each image once, ascending, and nothing else.
    ensures exact { IsOk result → looks question.now ≡ true → IsListing view.now (images_of view.now) }
{
    let found = count(view);
    if !question.looks() {
        return Ok(Listing {
            count: Count::of(found),
            images: None,
            broken: None,
            failing: None,
            met: None,
        });
    }
    match found {
        Some(countable) => looked(alloc, view, question, &countable).map_err(
            |_| Stage::Images.missing(),
        ),
        None => Err(Fault::Refused(Refused::TooManyImages)),
    }
}
