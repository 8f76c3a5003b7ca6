//! The least closed set of pending entries that leaves an image.
ghost use Rattle.std.specs.Prelude.{◌≡◌, IfOk};
ghost use Rattle.pending_images.specs.LeastCuts.{closed_set_in, places_in};
ghost use Rattle.pending_images.specs.LeastSets.{IsLeastIn, IsSmallestIn, places_of};

use crate::base::base_image;
use crate::first_cut::{Cut, first_cut};
use crate::fits::fits_by_line;
use crate::image::Image;
use persist_buffer::{Pending, PendingEntry};
use std::alloc::{AllocError, Global};

/// The places of a cut's entries, ascending.
fn places(alloc: Global, pending: &[PendingEntry], cut: &Cut) -> Result<Vec<usize>, AllocError>
    ensures { IfOk result (λ places. places.items ≡ places_in pending.now cut.now) }
{
    let mut markers = cut.markers;
    let mut counts = cut.counts;
    let mut places = Vec::new(alloc);
    for place in 0..pending.len() {
        match pending[place] {
            PendingEntry::Write(word, _) => {
                let line = word.line().number();
                if counts[line] > 0 {
                    counts[line] -= 1;
                    places.push(place)?;
                }
            }
            PendingEntry::Marker(_) => {
                if markers == 0 {
                    return Ok(places);
                }
                markers -= 1;
                places.push(place)?;
            }
        }
    }
    Ok(places)
}

/// The places of the least closed set that leaves an image, where there is one.
fn found(alloc: Global, pending: &Pending, image: &Image) -> Result<Option<Vec<usize>>, AllocError>
    ensures { IfOk result (λ found. places_of found ≡ closed_set_in pending.now image.now) }
{
    let base = base_image(alloc, pending)?;
    let now = base.values();
    let wanted = image.values();
    if now.len() != wanted.len() {
        return Ok(None);
    }
    let fits = fits_by_line(alloc, pending, now, wanted)?;
    let Some(cut) = first_cut(pending, &fits) else {
        return Ok(None);
    };
    let entries = pending.list(alloc)?;
    Ok(Some(places(alloc, &entries, &cut)?))
}

/// The places of the least closed set of pending entries that leaves an image, ascending: it has the
/// fewest markers, and then the fewest writes of each line. None where no further changes leave the
/// image. The only error is out of memory.
pub fn closed_set(
    alloc: Global,
    pending: &Pending,
    image: &Image,
) -> Result<Option<Vec<usize>>, AllocError>
    ensures least { IfOk result (λ found. IsLeastIn pending.now image.now (places_of found)) }
    ensures smallest { IfOk result (λ found. IsSmallestIn pending.now image.now (places_of found)) }
    ensures value { IfOk result (λ found. places_of found ≡ closed_set_in pending.now image.now) }
{
    pending.keeps_to_layouts();
    let found = found(alloc, pending, image)?;
    Ok(found)
}
