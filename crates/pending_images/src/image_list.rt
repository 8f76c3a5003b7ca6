//! Listing images.
ghost use Rattle.std.specs.Prelude.{◌≡◌, IfOk};
ghost use Rattle.std.specs.List.Sorted.{IsStrictlySortedBy};
ghost use Rattle.std.specs.Ordering.{nat_cmp};
ghost use Rattle.std.specs.Cmp.Lexicographic.{slice_cmp};
ghost use Rattle.pending_images.specs.Images.{IsListingIn};
ghost use Rattle.pending_images.specs.Listings.{HaveTheSame, images_in, in_order};

use crate::candidates::Countable;
use crate::formed::formed;
use crate::image::Image;
use std::alloc::{AllocError, Global};

/// Sorts images and drops repeats.
fn once(images: &mut Vec<Image>)
    ensures same { HaveTheSame images.new.items images.old.items }
    ensures ascending { IsStrictlySortedBy (slice_cmp nat_cmp) images.new.items }
    ensures value { images.new.items ≡ in_order images.old.items }
{
    images.sort_unstable();
    images.dedup();
}

/// The images of a pending list that was counted, ascending and each once. The only error is out of memory.
pub fn list(alloc: Global, countable: &Countable<'_>) -> Result<Vec<Image>, AllocError>
    ensures listing { IfOk result (λ images. IsListingIn countable.now images.items) }
    ensures value { IfOk result (λ images. images.items ≡ images_in countable.now) }
{
    let pending = countable.pending();
    pending.keeps_to_layouts();
    let mut images = formed(alloc, pending, countable.number() as usize)?;
    once(&mut images);
    Ok(images)
}
