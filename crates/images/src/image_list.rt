//! Counting the candidates of a state, forming its images, and telling what leaves one of them.
ghost use Rattle.std.specs.Prelude.{◌≡◌, ◌↔◌, ◌≤◌, IfOk, IfSome, IsSome, vec_len};
ghost use Rattle.pending_images.specs.Candidates.{candidates, count_of, counted, most_candidates};
ghost use Rattle.pending_images.specs.LeastSets.{places_of};
ghost use Rattle.images.specs.Images.{AreImages, AreValues, IsLeastSet, IsSmallestSet, closed_set_of, pending_of, values_of};

use lines_layout::WordId;
use machine::View;
use pending_images::{Countable, Image};
use std::alloc::{AllocError, Global};

/// Counts the candidates of a state: for each number of markers that may go, the product over the
/// lines of how many numbers of the line's writes may then be persisted. There are at least as many
/// as images. None where there are more than are counted. It takes no memory, and ends as soon as
/// there are too many. What it gives, [`list`](pending_images::list) takes.
pub fn count<'a>(view: &View<'a>) -> Option<Countable<'a>>
    ensures few { IsSome result ↔ (candidates view.now.memory.pending ≤ most_candidates) }
    ensures number { counted result ≡ count_of (candidates view.now.memory.pending) }
    ensures same { IfSome result (λ countable. countable ≡ pending_of view.now) }
{
    pending_images::count(view.pending())
}

/// The images of a state in any order, with repeats: as many items as there are candidates. It may take
/// very long, and much memory, where [`count`] is None. The only error is out of memory.
pub fn products(alloc: Global, view: &View<'_>) -> Result<Vec<Image>, AllocError>
    ensures exact { IfOk result (λ images. AreImages view.now images.items) }
    ensures len { IfOk result (λ images. vec_len images ≡ candidates view.now.memory.pending) }
{
    pending_images::products(alloc, view.pending())
}

/// The places in the pending list, ascending, of the least closed set of entries that leaves an
/// image: of all such sets it has the fewest markers, and of those with as many the fewest writes of
/// each line. None where the image is none of the state's. The only error is out of memory.
pub fn closed_set(
    alloc: Global,
    view: &View<'_>,
    image: &Image,
) -> Result<Option<Vec<usize>>, AllocError>
    ensures least { IfOk result (λ found. IsLeastSet view.now image.now (places_of found)) }
    ensures smallest { IfOk result (λ found. IsSmallestSet view.now image.now (places_of found)) }
    ensures value { IfOk result (λ found. places_of found ≡ closed_set_of view.now image.now) }
{
    pending_images::closed_set(alloc, view.pending(), image)
}

/// The values that a word has in the images of a state in which each given word has the value beside it, ascending and each once;
/// none where no image has these values. How many candidates there are does not matter. The only error is out of memory.
pub fn values_of(
    alloc: Global,
    view: &View<'_>,
    given: &[(WordId, u64)],
    word: WordId,
) -> Result<Vec<u64>, AllocError>
    ensures exact { IfOk result (λ values. AreValues view.now given.now word values.items) }
    ensures value { IfOk result (λ values. values.items ≡ values_of view.now given.now word) }
{
    pending_images::values_of(alloc, view.pending(), given, word)
}
