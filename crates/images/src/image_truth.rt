//! In which images of a machine's state a condition holds, where the image is read as the persisted
//! values.
ghost use Rattle.std.specs.Prelude.{◌≡◌, find, option_copied};
ghost use Rattle.images.specs.Firsts.{IsLeastFailing, IsLeastHolding};
ghost use Rattle.images.specs.Truth.{answers, fails_on, holds_on, value_on};

use crate::truth::state_value;
use conditions::{Cond, Operand, Values};
use machine::View;
use pending_images::Image;

/// The values of operands in a machine's state, but for an image that is read as the persisted values.
#[derive(Clone, Copy)]
struct ImageValues<'v, 'm> {
    view: &'v View<'m>,
    image: &'v Image,
}

impl<'v, 'm> Values for ImageValues<'v, 'm> {
    ghost use Rattle.images.specs.Truth.{value_on};

    ghost values = { λ s. value_on s.view.now s.image.now };

    fn value(&self, operand: Operand) -> Option<u64> {
        image_value(self.view, self.image, operand)
    }
}

/// The value of an operand where an image is read as the persisted values.
fn image_value(view: &View, image: &Image, operand: Operand) -> Option<u64>
    ensures { result ≡ value_on view.now image.now operand }
{
    match operand {
        Operand::Persisted(word) => image.get(view.pending().shape(), word),
        Operand::Coherent(_) | Operand::Register(_, _) => state_value(view, operand),
    }
}

/// Whether the condition holds where an image is read as the persisted values, or whether it does not.
fn answers(cond: &Cond, view: &View, image: &Image, wanted: bool) -> bool
    ensures { result ≡ answers wanted view.now cond.now image.now }
{
    cond.holds(&ImageValues { view, image }) == wanted
}

/// The first of the images for which the condition holds, or does not.
fn first_image<'i>(cond: &Cond, view: &View, images: &'i [Image], wanted: bool) -> Option<&'i Image>
    ensures { option_copied result ≡ find (answers wanted view.now cond.now) images.now }
{
    for image in images {
        if answers(cond, view, image, wanted) {
            return Some(image);
        }
    }
    None
}

/// The first of the images for which the condition does not hold, if there is one. Each is read as the
/// persisted values; coherent values and registers are the state's.
pub fn all_images<'i>(cond: &Cond, view: &View, images: &'i [Image]) -> Option<&'i Image>
    ensures first { option_copied result ≡ find (fails_on view.now cond.now) images.now }
    ensures least { IsLeastFailing view.now cond.now images.now (option_copied result) }
{
    first_image(cond, view, images, false)
}

/// The first of the images for which the condition holds, if there is one. Each is read as the
/// persisted values; coherent values and registers are the state's.
pub fn some_image<'i>(cond: &Cond, view: &View, images: &'i [Image]) -> Option<&'i Image>
    ensures first { option_copied result ≡ find (holds_on view.now cond.now) images.now }
    ensures least { IsLeastHolding view.now cond.now images.now (option_copied result) }
{
    first_image(cond, view, images, true)
}
