//! Where a word is in an image.
ghost use Rattle.std.specs.Prelude.{◌≡◌};
ghost use Rattle.pending_images.specs.Images.{place_of};

use lines_layout::{LINE_WORDS, Shape, WordId};

/// The place of a word in an image; past its end where the shape lacks the word.
pub(crate) fn place_of(shape: &Shape, word: WordId) -> usize
    ensures { result ≡ place_of shape.now word }
{
    let words = shape.words();
    let mut place = 0;
    for number in 0..words.len() {
        let count = usize::from(words[number]);
        if word.line().number() == number && word.number() % LINE_WORDS < count {
            return place + word.number() % LINE_WORDS;
        }
        place += count;
    }
    place
}
