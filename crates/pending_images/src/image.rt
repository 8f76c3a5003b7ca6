//! An image: a persisted value for each word.
ghost use Rattle.std.specs.Prelude.{◌≡◌, ℕ, List, IfOk, nat_eq, refl, slice_set};
ghost use Rattle.std.specs.Ordering.{nat_cmp, as_partial_cmp};
ghost use Rattle.std.specs.Cmp.Lexicographic.{pointwise, slice_cmp};
ghost use Rattle.std.specs.Cmp.{partial_order_from_own_ties};
ghost use Rattle.std.specs.Cmp.Rules.{comparing};
ghost use Rattle.std.proofs.Common.{rules};
ghost use Rattle.pending_images.specs.Images.{value_of};

use crate::place::place_of;
use lines_layout::{Shape, WordId};
use std::alloc::{AllocError, Global};
use std::cmp::Ordering;
use std::marker::Model;

/// A list of values: of an image of a memory the persisted value of each word of its shape, in order of
/// number. Images are ordered by the first word in which they differ.
#[derive(Debug, Drop)]
pub struct Image {
    values: Vec<u64>,
}

impl Model for Image {
    ghost Value = { List ℕ };

    ghost view = { λ i. i.values.items };
}

impl Image {
    /// The image of these values, whatever they are: [`closed_set`](crate::least_set) says whether they are
    /// an image of a memory, which those of another length than its shape's words are not.
    pub fn new(values: Vec<u64>) -> Image
        ensures { result ≡ values.items }
    {
        Image { values }
    }

    /// The values, in order of the words.
    pub fn values(&self) -> &[u64]
        ensures { result.now ≡ self.now }
    {
        self.values.as_slice()
    }

    /// The value of a word, where the image is one of this shape; None where the shape lacks the word.
    pub fn get(&self, shape: &Shape, word: WordId) -> Option<u64>
        ensures { result ≡ value_of shape.now self.now word }
    {
        self.values.get(place_of(shape, word)).copied()
    }

    /// The same image again. The only error is out of memory.
    pub fn copy(&self, alloc: Global) -> Result<Image, AllocError>
        ensures { IfOk result (λ image. image ≡ self.now) }
    {
        Ok(Image {
            values: Vec::from_slice(alloc, &self.values)?,
        })
    }

    /// Sets the value at a place, where the image has the place.
    pub(crate) fn write(&mut self, place: usize, value: u64)
        ensures { self.new ≡ slice_set self.old place value }
    {
        if place < self.values.len() {
            self.values[place] = value;
        }
    }

    /// The image after one more write.
    pub(crate) fn after(&self, alloc: Global, place: usize, value: u64) -> Result<Image, AllocError>
        ensures { IfOk result (λ image. image ≡ slice_set self.now place value) }
    {
        let mut image = self.copy(alloc)?;
        image.write(place, value);
        Ok(image)
    }
}

impl PartialEq for Image {
    ghost eq = { pointwise nat_eq };

    ghost laws = { Prim.search (comparing, rules) };

    fn eq(&self, other: &Self) -> bool {
        self.values == other.values
    }
}

impl Eq for Image {
    ghost laws = { Prim.search (comparing, rules) };
}

impl PartialOrd for Image {
    ghost partial_cmp = { as_partial_cmp (slice_cmp nat_cmp) };

    ghost laws = { partial_order_from_own_ties (Prim.search (comparing, rules)) (Prim.search (comparing, rules)) };

    fn partial_cmp(&self, other: &Self) -> Option<Ordering> {
        Some(self.cmp(other))
    }
}

impl Ord for Image {
    ghost cmp = { slice_cmp nat_cmp };

    ghost total = { Prim.search (comparing, rules) };

    ghost matches_partial_cmp = { λ x y. refl };

    ghost matches_eq = { Prim.search (comparing, rules) };

    fn cmp(&self, other: &Self) -> Ordering {
        self.values.cmp(&other.values)
    }
}
