//! The text of images.
ghost use Rattle.std.specs.Prelude.{◌≡◌, ◌++◌, OnOk, string_bytes};
ghost use Rattle.commands.specs.ImageTexts.{candidates_text, image_text, images_text, line_names_text, names_shown, names_text, values_text, words_text};

use images::{Count, Image};
use lines_layout::{Layout, NamedLine};
use std::alloc::AllocError;

/// Appends values, each after a blank.
pub fn push_values(text: &mut String, values: &[u64]) -> Result<(), AllocError>
    ensures { OnOk result (string_bytes text.new ≡ string_bytes text.old ++ values_text values.now) }
{
    for value in values {
        write!(text, " {value}")?;
    }
    Ok(())
}

/// Appends the line of an image.
pub fn push_image(text: &mut String, image: &Image) -> Result<(), AllocError>
    ensures { OnOk result (string_bytes text.new ≡ string_bytes text.old ++ image_text image.now) }
{
    write!(text, "image")?;
    push_values(text, image.values())?;
    text.push('\n')
}

/// Appends how many candidates there are.
pub fn push_candidates(text: &mut String, count: Count) -> Result<(), AllocError>
    ensures { OnOk result (string_bytes text.new ≡ string_bytes text.old ++ candidates_text count) }
{
    match count {
        Count::Number(number) => writeln!(text, "candidates {number}"),
        Count::More => writeln!(text, "candidates more"),
    }
}

/// Appends a line for each image, and how many there are.
pub fn push_images(text: &mut String, images: &[Image]) -> Result<(), AllocError>
    ensures { OnOk result (string_bytes text.new ≡ string_bytes text.old ++ images_text images.now) }
{
    for image in images {
        push_image(text, image)?;
    }
    writeln!(text, "images {}", images.len())
}

/// Appends the names of a line's words, each after a blank.
fn push_line_names(text: &mut String, line: &NamedLine) -> Result<(), AllocError>
    ensures { OnOk result (string_bytes text.new ≡ string_bytes text.old ++ line_names_text line.now) }
{
    for name in line.names() {
        text.push_str(" ")?;
        text.push_str(name.as_str())?;
    }
    Ok(())
}

/// Appends the names of all words, each after a blank.
fn push_names(text: &mut String, layout: &Layout) -> Result<(), AllocError>
    ensures { OnOk result (string_bytes text.new ≡ string_bytes text.old ++ names_text layout.now) }
{
    for line in layout.lines() {
        push_line_names(text, line)?;
    }
    Ok(())
}

/// Appends the line of the names of all words: what the values of an image are of.
pub fn push_words(text: &mut String, layout: &Layout) -> Result<(), AllocError>
    ensures { OnOk result (string_bytes text.new ≡ string_bytes text.old ++ words_text layout.now) }
{
    write!(text, "words")?;
    push_names(text, layout)?;
    text.push('\n')
}

/// Appends the line of the names of all words, where it is asked for.
pub fn push_names_shown(text: &mut String, asked: bool, layout: &Layout) -> Result<(), AllocError>
    ensures { OnOk result (string_bytes text.new ≡ string_bytes text.old ++ names_shown asked layout.now) }
{
    if !asked {
        return Ok(());
    }
    push_words(text, layout)
}
