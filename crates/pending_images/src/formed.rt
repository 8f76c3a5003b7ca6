//! Forming the images, with repeats: for each number of markers that went, the product over the lines.
ghost use Rattle.std.specs.Prelude.{◌≡◌, ◌<◌, ◌≤◌, ◌++◌, IfOk, OnOk, length, vec_len};
ghost use Rattle.pending_images.specs.Candidates.{candidates};
ghost use Rattle.pending_images.specs.Gone.{before_in};
ghost use Rattle.pending_images.specs.Images.{AreImagesIn};
ghost use Rattle.pending_images.specs.Listings.{formed_in};
ghost use Rattle.pending_images.specs.Products.{IsPlacedWrite, IsSpread, formed_by, made, open_in, with_block};

use crate::base::base_image;
use crate::gone::{Gone, line_at, lines};
use crate::image::Image;
use crate::place::place_of;
use lines_layout::LineId;
use persist_buffer::Pending;
use std::alloc::{AllocError, Global};

/// Write i of a line, from 0 and oldest first: the place of its word in an image, and its value.
fn placed_write(gone: &Gone<'_>, line: LineId, i: usize) -> (usize, u64)
    requires { i < before_in line gone.now }
    ensures { IsPlacedWrite line i result gone.now }
{
    let pending = gone.pending();
    let (word, value) = pending.write(line, i);
    (place_of(pending.shape(), word), value)
}

/// Makes the open writes of a line in an image, which the next marker waits for where it is of the line.
fn settle(gone: &Gone<'_>, line: LineId, image: &mut Image)
    ensures { image.new ≡ made (open_in line gone.now) image.old }
{
    for i in gone.low(line)..gone.before(line) {
        let (place, value) = placed_write(gone, line, i);
        image.write(place, value);
    }
}

/// Adds the images from a place on, each with one more write.
fn push_block(
    alloc: Global,
    from: usize,
    place: usize,
    value: u64,
    images: &mut Vec<Image>,
) -> Result<(), AllocError>
    requires { from ≤ length images.old.items }
    ensures { OnOk result (images.new.items ≡ with_block from place value images.old.items) }
{
    for i in from..images.len() {
        let image = images[i].after(alloc, place, value)?;
        images.push(image)?;
    }
    Ok(())
}

/// What the images from a place on become by the open writes of a line: by none of them, by the first, by
/// the first two, up to all.
fn spread(
    alloc: Global,
    gone: &Gone<'_>,
    line: LineId,
    start: usize,
    images: &mut Vec<Image>,
) -> Result<(), AllocError>
    requires { start ≤ length images.old.items }
    ensures { OnOk result (IsSpread gone.now line start images.old.items images.new.items) }
{
    let count = images.len() - start;
    for i in gone.low(line)..gone.before(line) {
        let (place, value) = placed_write(gone, line, i);
        let from = images.len() - count;
        push_block(alloc, from, place, value, images)?;
    }
    Ok(())
}

/// Adds the images once these markers went, of the image that they settled.
fn push_images(
    alloc: Global,
    gone: &Gone<'_>,
    settled: &Image,
    images: &mut Vec<Image>,
) -> Result<(), AllocError>
    ensures { OnOk result (images.new.items ≡ images.old.items ++ formed_by gone.now settled.now) }
{
    let start = images.len();
    images.push(settled.copy(alloc)?)?;
    for number in 0..lines() {
        spread(alloc, gone, line_at(number), start, images)?;
    }
    Ok(())
}

/// The images of each number of markers that went, in a list that has room for so many at first.
#[tactic(auto, using(crate::proofs::FormingImages::forming_steps))]
pub(crate) fn formed(
    alloc: Global,
    pending: &Pending,
    room: usize,
) -> Result<Vec<Image>, AllocError>
    ensures { IfOk result (λ images. images.items ≡ formed_in pending.now) }
{
    let mut settled = base_image(alloc, pending)?;
    let mut gone = Gone::new(pending);
    let mut images = Vec::with_capacity(alloc, room)?;
    push_images(alloc, &gone, &settled, &mut images)?;
    for k in 0..pending.markers() {
        settle(&gone, pending.marker(k), &mut settled);
        gone.pass(k + 1);
        push_images(alloc, &gone, &settled, &mut images)?;
    }
    Ok(images)
}

/// The images in the order in which they are formed, with repeats: one for each candidate. It may take very
/// long, and much memory, where [`count`](crate::count) is None. The only error is out of memory.
pub fn products(alloc: Global, pending: &Pending) -> Result<Vec<Image>, AllocError>
    ensures value { IfOk result (λ images. images.items ≡ formed_in pending.now) }
    ensures exact { IfOk result (λ images. AreImagesIn pending.now images.items) }
    ensures len { IfOk result (λ images. vec_len images ≡ candidates pending.now.memory.pending) }
{
    pending.keeps_to_layouts();
    Ok(formed(alloc, pending, 0)?)
}
