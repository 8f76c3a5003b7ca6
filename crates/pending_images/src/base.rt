//! The image that is persisted now.
ghost use Rattle.std.specs.Prelude.{◌≡◌, ◌+◌, ◌*◌, ◌≤◌, ◌<◌, ◌++◌, IfOk, OnOk, map, slice_index};
ghost use Rattle.std.specs.List.{range_with_len};
ghost use Rattle.lines_layout.specs.Lines.{max_words};
ghost use Rattle.pending_images.specs.Images.{image_now};

use crate::image::Image;
use lines_layout::{LINE_WORDS, WordId};
use persist_buffer::Pending;
use std::alloc::{AllocError, Global};

/// Appends the persisted values of so many words from this one on.
#[tactic(auto, using(crate::proofs::BaseImage::values_next))]
pub(crate) fn push_values(
    values: &mut Vec<u64>,
    start: usize,
    count: usize,
    pending: &Pending,
) -> Result<(), AllocError>
    requires { start + count ≤ max_words }
    ensures { OnOk result
        (values.new.items ≡ values.old.items ++ map (slice_index pending.now.memory.persisted) (range_with_len start count)) }
{
    for place in 0..count {
        let word = WordId::new(start + place).unwrap();
        values.push(pending.persisted(word))?;
    }
    Ok(())
}

/// The image that is persisted now.
#[tactic(auto, using(crate::proofs::BaseImage::line_over))]
pub(crate) fn base_image(alloc: Global, pending: &Pending) -> Result<Image, AllocError>
    ensures { IfOk result (λ image. image ≡ image_now pending.now) }
{
    let words = pending.shape().words();
    let mut values = Vec::new(alloc);
    for line in 0..words.len() {
        push_values(
            &mut values,
            LINE_WORDS * line,
            usize::from(words[line]),
            pending,
        )?;
    }
    Ok(Image::new(values))
}
