//! What is asked of the images of a state, and the steps behind which a crash leaves one of them.
ghost use Rattle.std.specs.Prelude.{◌≡◌, ◌++◌, IfOk, OnOk, Some, option_copied, slice_index_or, string_bytes};
ghost use Rattle.persist_buffer.specs.declared.entry.PendingEntry.TheVariants.{Marker};
ghost use Rattle.std.specs.List.{filter};
ghost use Rattle.images.specs.Truth.{value_on};
ghost use Rattle.image_reasons.specs.Reasons.{missing_found};
ghost use Rattle.explore.specs.Falls.{fall_at, step_for};
ghost use Rattle.jobs.specs.ImageReports.{all_text};
ghost use Rattle.conversations.specs.Imaged.{all_of, breaks, broken_of, set_of, told_of, why_of};

use commands::{push_candidates, push_image_lines, push_images, push_values};
use image_reasons::{Missing, missing_writes};
use images::{Cond, Count, Image, Operand, Values, all_images, closed_set, count, list};
use jobs::push_set;
use litmus_text::LinedObject;
use machine::{PendingEntry, Step, View};
use std::alloc::{AllocError, Global};

/// Appends whether a condition holds for all images, by the first for which it does not.
fn push_kept(text: &mut String, broken: Option<&Image>) -> Result<(), AllocError>
    ensures { OnOk result (string_bytes text.new ≡ string_bytes text.old ++ all_text (Some (option_copied broken.entry))) }
{
    match broken {
        Some(image) => {
            write!(text, "all fails")?;
            push_values(text, image.values())?;
            text.push('\n')
        }
        None => writeln!(text, "all holds"),
    }
}

/// Appends whether a condition holds for all images of a state; or that there are too many candidates.
pub(crate) fn push_all_of(
    alloc: Global,
    text: &mut String,
    view: &View<'_>,
    cond: &Cond,
) -> Result<(), AllocError>
    ensures { OnOk result (string_bytes text.new ≡ string_bytes text.old ++ all_of view.now cond.now) }
{
    let Some(countable) = count(view) else {
        return push_candidates(text, Count::More);
    };
    let images = list(alloc, &countable)?;
    push_kept(text, all_images(cond, view, &images))
}

/// The values of operands in a machine's state, but for an image that is read as the persisted values.
#[derive(Clone, Copy)]
struct ImageValues<'v, 'm> {
    view: &'v View<'m>,
    image: &'v Image,
}

impl<'v, 'm> Values for ImageValues<'v, 'm> {
    ghost use Rattle.images.specs.Truth.{value_on};

    ghost values = { λ s. value_on s.view.now s.image.now };

    fn value(&self, operand: Operand) -> Option<u64> {
        image_value(self.view, self.image, operand)
    }
}

/// The value of an operand where an image is read as the persisted values.
fn image_value(view: &View, image: &Image, operand: Operand) -> Option<u64>
    ensures { result ≡ value_on view.now image.now operand }
{
    match operand {
        Operand::Persisted(word) => image.get(view.pending().shape(), word),
        Operand::Coherent(word) => view.coherent(word),
        Operand::Register(p, r) => view.reg(p as usize, r),
    }
}

/// Whether a condition does not hold where an image is read as the persisted values.
#[tactic(auto, unfolding(crate::specs::Imaged::breaks))]
fn fails(cond: &Cond, view: &View, image: &Image) -> bool
    ensures { result ≡ breaks view.now cond.now image.now }
{
    !cond.holds(&ImageValues { view, image })
}

/// Drops the images for which a condition holds.
fn keep_broken(images: &mut Vec<Image>, cond: &Cond, view: &View)
    ensures { images.new.items ≡ filter (breaks view.now cond.now) images.old.items }
{
    images.retain(
        move |image: &Image| -> bool
            ensures { result ≡ breaks view.entry.now cond.entry.now image.now }
        { fails(cond, view, image) },
    );
}

/// Appends the images of a state for which a condition does not hold; or that there are too many candidates.
pub(crate) fn push_broken(
    alloc: Global,
    text: &mut String,
    view: &View<'_>,
    cond: &Cond,
) -> Result<(), AllocError>
    ensures { OnOk result (string_bytes text.new ≡ string_bytes text.old ++ broken_of view.now cond.now) }
{
    match count(view) {
        Some(countable) => {
            let mut images = list(alloc, &countable)?;
            keep_broken(&mut images, cond, view);
            push_images(text, &images)
        }
        None => push_candidates(text, Count::More),
    }
}

/// Appends which pending entries leave an image.
pub(crate) fn push_set_of(
    alloc: Global,
    text: &mut String,
    view: &View<'_>,
    image: &Image,
) -> Result<(), AllocError>
    ensures { OnOk result (string_bytes text.new ≡ string_bytes text.old ++ set_of view.now image.now) }
{
    let found = closed_set(alloc, view, image)?;
    push_set(text, &found)
}

/// Appends what is said of an image in which these writes are missing, or that it is none.
fn push_told(
    text: &mut String,
    lined: &LinedObject,
    image: &Image,
    missing: &Option<Vec<Missing>>,
) -> Result<(), AllocError>
    ensures { OnOk result (string_bytes text.new ≡ string_bytes text.old ++ told_of lined.now image.now (missing_found missing.now)) }
{
    match missing {
        Some(_) => push_image_lines(text, lined.object.layout(), &lined.lines, image, missing),
        None => push_set(text, &None),
    }
}

/// Appends which writes are missing in an image of the state to which these steps of a program lead, and why each may be; or that it
/// is no image of it.
pub(crate) fn push_why(
    alloc: Global,
    text: &mut String,
    lined: &LinedObject,
    steps: &[Step],
    image: &Image,
) -> Result<(), AllocError>
    ensures { OnOk result (string_bytes text.new ≡ string_bytes text.old ++ why_of lined.now steps.now image.now) }
{
    let missing = missing_writes(alloc, &lined.object, steps, image)?;
    push_told(text, lined, image, &missing)
}

/// The step by which the entry at a place leaves the pending list.
fn step_at(pending: &[PendingEntry], place: usize) -> Step
    ensures { result ≡ step_for (slice_index_or pending.now place (Marker 0)) }
{
    match pending.get(place) {
        Some(PendingEntry::Write(word, _)) => Step::Persist(word.line().number() as u32),
        Some(PendingEntry::Marker(_)) | None => Step::Settle,
    }
}

/// The steps by which the entries at these places leave the pending list, one after another, and then the crash.
pub(crate) fn fall_steps(
    alloc: Global,
    view: &View<'_>,
    places: &[usize],
) -> Result<Vec<Step>, AllocError>
    ensures { IfOk result (λ steps. steps.items ≡ fall_at view.now.memory.pending places.now) }
{
    let Ok(pending) = view.pending_list(alloc) else {
        return Err(AllocError);
    };
    let mut steps = Vec::new(alloc);
    for place in places {
        steps.push(step_at(&pending, *place))?;
    }
    steps.push(Step::Crash)?;
    Ok(steps)
}
