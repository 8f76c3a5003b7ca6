//! The text of the images of all states.
ghost use Rattle.std.specs.Prelude.{◌≡◌, ◌++◌, OnOk, string_bytes};
ghost use Rattle.commands.specs.ImageTexts.{image_text, images_text};
ghost use Rattle.jobs.specs.CheckReports.{images_shown};

use commands::{push_names_shown, push_values};
use explore::Numbers;
use lines_layout::Layout;
use std::alloc::AllocError;

/// Appends the line of an image.
fn push_image(text: &mut String, image: &Numbers) -> Result<(), AllocError>
    ensures { OnOk result (string_bytes text.new ≡ string_bytes text.old ++ image_text image.now) }
{
    text.push_str("image")?;
    push_values(text, image.values())?;
    text.push('\n')
}

/// Appends a line for each image, and how many there are.
fn push_images(text: &mut String, images: &[Numbers]) -> Result<(), AllocError>
    ensures { OnOk result (string_bytes text.new ≡ string_bytes text.old ++ images_text images.now) }
{
    for image in images {
        push_image(text, image)?;
    }
    writeln!(text, "images {}", images.len())
}

/// Appends the images, where they are asked for, and before them the names of the words, where these are too.
pub(crate) fn push_images_shown(
    text: &mut String,
    asked: bool,
    named: bool,
    layout: &Layout,
    images: &[Numbers],
) -> Result<(), AllocError>
    ensures { OnOk result (string_bytes text.new ≡ string_bytes text.old ++ images_shown asked named layout.now images.now) }
{
    if !asked {
        return Ok(());
    }
    push_names_shown(text, named, layout)?;
    push_images(text, images)
}
