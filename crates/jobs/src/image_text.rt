//! The lines of what is found of images: of the images themselves, of conditions, and of the set that leaves one. (That of an
//! image itself is in `commands/src/image_text.rt`.)
ghost use Rattle.std.specs.Prelude.{◌≡◌, ◌++◌, OnOk, option_map, string_bytes};
ghost use Rattle.jobs.specs.ImageReports.{all_text, listed_text, set_text, some_text, values_text};

use commands::{push_images, push_names_shown, push_values};
use images::Image;
use lines_layout::Layout;
use std::alloc::AllocError;

/// Appends the images where they are listed, after the names of their words where these are shown.
pub(crate) fn push_listed(
    text: &mut String,
    named: bool,
    layout: &Layout,
    images: &Option<Vec<Image>>,
) -> Result<(), AllocError>
    ensures { OnOk result (string_bytes text.new
        ≡ string_bytes text.old ++ listed_text named layout.now (option_map (λ v. v.items) images.now)) }
{
    match images {
        Some(images) => {
            push_names_shown(text, named, layout)?;
            push_images(text, images)
        }
        None => Ok(()),
    }
}

/// Appends whether a condition, where one was asked for, holds for all images, by the first for which it does not.
pub(crate) fn push_all(text: &mut String, broken: &Option<Option<Image>>) -> Result<(), AllocError>
    ensures { OnOk result (string_bytes text.new ≡ string_bytes text.old ++ all_text broken.now) }
{
    match broken {
        Some(Some(image)) => {
            write!(text, "all fails")?;
            push_values(text, image.values())?;
            text.push('\n')
        }
        Some(None) => writeln!(text, "all holds"),
        None => Ok(()),
    }
}

/// Appends whether a condition, where one was asked for, holds for some image, by the first for which it does.
pub(crate) fn push_some(text: &mut String, met: &Option<Option<Image>>) -> Result<(), AllocError>
    ensures { OnOk result (string_bytes text.new ≡ string_bytes text.old ++ some_text met.now) }
{
    match met {
        Some(Some(image)) => {
            write!(text, "some found")?;
            push_values(text, image.values())?;
            text.push('\n')
        }
        Some(None) => writeln!(text, "some none"),
        None => Ok(()),
    }
}

/// Appends places, each after a blank.
fn push_places(text: &mut String, places: &[usize]) -> Result<(), AllocError>
    ensures { OnOk result (string_bytes text.new ≡ string_bytes text.old ++ values_text places.now) }
{
    for place in places {
        write!(text, " {place}")?;
    }
    Ok(())
}

/// Appends which entries leave an image: the places of their set, or that there is none.
///
/// # Errors
///
/// Memory was refused. A part of the line may then be at the end.
pub fn push_set(text: &mut String, found: &Option<Vec<usize>>) -> Result<(), AllocError>
    ensures { OnOk result (string_bytes text.new
        ≡ string_bytes text.old ++ set_text (option_map (λ places. places.items) found.now)) }
{
    match found {
        Some(places) => {
            write!(text, "set")?;
            push_places(text, places)?;
            text.push('\n')
        }
        None => writeln!(text, "no set"),
    }
}
