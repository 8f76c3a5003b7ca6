//! What images are, said in other ways. Each law is the contract of a function that does nothing.
ghost use Rattle.std.specs.Prelude.{◌≡◌, ◌≢◌, ◌↔◌, ◌++◌, ℕ, Bool, true, List, Option, length};
ghost use Rattle.std.specs.List.{list_all};
ghost use Rattle.std.specs.Ordering.{nat_cmp};
ghost use Rattle.std.specs.Cmp.Lexicographic.{slice_cmp};
ghost use Rattle.std.specs.declared.cmp.Ordering.TheVariants.{Greater};
ghost use Rattle.lines_layout.specs.Lines.{max_lines, max_words};
ghost use Rattle.lines_layout.specs.Shapes.{IsShape};
ghost use Rattle.persist_buffer.specs.declared.entry.PendingEntry.{PendingEntry};
ghost use Rattle.persist_buffer.specs.Listings.{LinesBelow};
ghost use Rattle.persist_buffer.specs.Memories.{is_marker, with_pending};
ghost use Rattle.persist_buffer.specs.State.{Memory};
ghost use Rattle.pending_images.specs.Changes.{IsReached};
ghost use Rattle.pending_images.specs.ClosedSets.{IsLeftByClosedSet};
ghost use Rattle.pending_images.specs.Cuts.{IsLeftByCut};
ghost use Rattle.pending_images.specs.Images.{IsImage, IsListing};
ghost use Rattle.pending_images.specs.LeastCuts.{closed_set_of};
ghost use Rattle.pending_images.specs.LeastSets.{IsLeast, IsLeastSet, IsLeaving, sizes_in};
ghost use Rattle.pending_images.specs.Listings.{images_of};
ghost use Rattle.pending_images.specs.SomeLines.{AreAlikeAt, AreAlikeOn, AreOf, IsRest, memory_on};
ghost use Rattle.pending_images.specs.Values.{AreValues, values_of};

/// What further changes reach is what a cut leaves, and what a closed set of pending entries leaves:
/// the persisted values with the writes of such a set applied in order. So an image is what the entries
/// of some closed set leave.
pub fn images_are_cuts()
    ensures closed { (m : Memory) (persisted : List ℕ) → IsReached m persisted
        ↔ IsLeftByClosedSet m persisted }
    ensures cut { (lines : ℕ) (m : Memory) (persisted : List ℕ) → LinesBelow lines m.pending
        → IsReached m persisted ↔ IsLeftByCut lines m persisted }
    ensures image { (shape : List ℕ) (m : Memory) (image : List ℕ) → IsImage shape m image
        ↔ ((flags : List Bool) × IsLeaving shape m image flags) }
{}

/// The list of a memory's images has each image once, ascending, and nothing else; and it is the only such
/// list. Its memory is one that a pending list can have: a value for each word, and writes of words.
pub fn images_are_listed()
    ensures listing { (shape : List ℕ) (m : Memory) → IsShape shape
        → LinesBelow max_lines m.pending → length m.persisted ≡ max_words
        → IsListing shape m (images_of shape m) }
    ensures only { (shape : List ℕ) (m : Memory) (images : List (List ℕ)) → IsShape shape
        → LinesBelow max_lines m.pending → length m.persisted ≡ max_words
        → IsListing shape m images → images ≡ images_of shape m }
{}

/// What may come to be persisted on some lines is what may come to be persisted there without the pending writes and markers of
/// all other lines. Of what the other lines come to beside that nothing is said.
pub fn other_lines_do_not_matter()
    ensures narrow { (lines : ℕ → Bool) (m : Memory) (persisted : List ℕ) → IsReached m persisted
        → (other : List ℕ) × IsReached (memory_on lines m) other × AreAlikeOn lines persisted other }
    ensures wide { (lines : ℕ → Bool) (m : Memory) (other : List ℕ) → IsReached (memory_on lines m) other
        → (persisted : List ℕ) × IsReached m persisted × AreAlikeOn lines persisted other }
{}

/// Lines may be left out, and words of a line: what may come to be persisted of some words is the same in a memory and in one in
/// which the writes of these words alone are pending, and of the markers those of their lines at least. So what values such a word
/// has in images, where others of them have given values, is the same too. And markers behind the last write may be left out.
pub fn lines_may_be_left_out()
    ensures narrow { (words lines : ℕ → Bool) (m rest : Memory) (persisted : List ℕ) → IsRest words lines m rest
        → IsReached m persisted → (other : List ℕ) × IsReached rest other × AreAlikeAt words persisted other }
    ensures wide { (words lines : ℕ → Bool) (m rest : Memory) (other : List ℕ) → IsRest words lines m rest
        → IsReached rest other → (persisted : List ℕ) × IsReached m persisted × AreAlikeAt words persisted other }
    ensures values { (words lines : ℕ → Bool) (m rest : Memory) (shape : List ℕ) (given : List (ℕ × ℕ))
        (word : ℕ) (values : List ℕ) → IsRest words lines m rest → words word ≡ true
        → AreOf words given → AreValues shape m given word values ↔ AreValues shape rest given word values }
    ensures behind { (m : Memory) (front markers : List PendingEntry) (persisted : List ℕ)
        → m.pending ≡ front ++ markers → list_all is_marker markers ≡ true
        → IsReached m persisted ↔ IsReached (with_pending m front) persisted }
{}

/// The values of a word in the listed images that agree with given ones are those that it has in all images that agree,
/// ascending and each once; and no other list is that. The memory is one that a pending list can have.
pub fn values_are_listed()
    ensures values { (shape : List ℕ) (m : Memory) (given : List (ℕ × ℕ)) (word : ℕ) → IsShape shape
        → LinesBelow max_lines m.pending → length m.persisted ≡ max_words
        → AreValues shape m given word (values_of shape m given word) }
    ensures only { (shape : List ℕ) (m : Memory) (given : List (ℕ × ℕ)) (word : ℕ) (values : List ℕ)
        → IsShape shape → LinesBelow max_lines m.pending → length m.persisted ≡ max_words
        → AreValues shape m given word values → values ≡ values_of shape m given word }
{}

/// Each image, and nothing else, has a least closed set that leaves it; there is one such set. It is the first
/// by the number of markers, and then by the number of writes of each line, from line 0. The memory is one
/// that a pending list can have.
pub fn least_sets_are_found()
    ensures set { (shape : List ℕ) (m : Memory) (image : List ℕ) → IsShape shape
        → LinesBelow max_lines m.pending → length m.persisted ≡ max_words
        → IsLeastSet shape m image (closed_set_of shape m image) }
    ensures only { (shape : List ℕ) (m : Memory) (image : List ℕ) (found : Option (List ℕ))
        → IsShape shape → LinesBelow max_lines m.pending → length m.persisted ≡ max_words
        → IsLeastSet shape m image found → found ≡ closed_set_of shape m image }
    ensures there { (shape : List ℕ) (m : Memory) (image : List ℕ) → IsShape shape
        → LinesBelow max_lines m.pending → length m.persisted ≡ max_words
        → IsImage shape m image ↔ ((flags : List Bool) × IsLeast shape m image flags) }
    ensures first { (shape : List ℕ) (m : Memory) (image : List ℕ) (flags other : List Bool)
        → IsLeast shape m image flags → IsLeaving shape m image other
        → slice_cmp nat_cmp (sizes_in m.pending flags) (sizes_in m.pending other) ≢ Greater }
{}
