//! Images as JSON.
ghost use Rattle.std.specs.Prelude.{IfOk, OnOk, map, option_copied, option_map};
ghost use Rattle.json_texts.specs.Objects.{nums, or_null, word, GetsItems, IsJsonOf};
ghost use Rattle.json_texts.specs.ImageData.{all_data, candidates_data, images_data, names_data, some_data};

use crate::lists::{numbers_value, places_or_null};
use images::{Count, Image};
use lines_layout::{Layout, Name};
use serde_json::{Value, json, push};
use std::alloc::{AllocError, Global};

/// How many candidates there are, or that they are more than are counted.
///
/// # Errors
///
/// Out of memory.
pub fn candidates_value(alloc: Global, count: Count) -> Result<Value, AllocError>
    ensures { IfOk result (IsJsonOf (candidates_data count)) }
{
    match count {
        Count::Number(number) => Ok(Value::from(number)),
        Count::More => Value::try_from_str(alloc, "more"),
    }
}

/// Appends names, in their order.
fn push_line_names(items: &mut Vec<Value>, alloc: Global, names: &[Name]) -> Result<(), AllocError>
    ensures { OnOk result (GetsItems items.old.items items.new.items (map word names.now)) }
{
    for name in names {
        push(items, Value::try_from_str(alloc, name.as_str())?)?;
    }
    Ok(())
}

/// The names of all words: what the values of an image are of.
///
/// # Errors
///
/// Out of memory.
#[tactic(auto, using(crate::proofs::Items::list_steps))]
pub fn names_value(alloc: Global, layout: &Layout) -> Result<Value, AllocError>
    ensures { IfOk result (IsJsonOf (names_data layout.now)) }
{
    let mut items = Vec::new(alloc);
    for line in layout.lines() {
        push_line_names(&mut items, alloc, line.names())?;
    }
    Ok(Value::from(items))
}

/// Each image as its values.
///
/// # Errors
///
/// Out of memory.
#[tactic(auto, using(crate::proofs::Items::list_steps))]
pub fn images_value(alloc: Global, images: &[Image]) -> Result<Value, AllocError>
    ensures { IfOk result (IsJsonOf (images_data images.now)) }
{
    let mut items = Vec::new(alloc);
    for image in images {
        push(&mut items, numbers_value(alloc, image.values())?)?;
    }
    Ok(Value::from(items))
}

/// An image, or nothing.
fn image_or_null(alloc: Global, image: Option<&Image>) -> Result<Value, AllocError>
    ensures { IfOk result (IsJsonOf (or_null nums (option_copied image.entry))) }
{
    match image {
        Some(image) => numbers_value(alloc, image.values()),
        None => Ok(Value::Null),
    }
}

/// Whether a condition holds for all images, the first for which it does not, and the places of all of these, where images are
/// listed.
///
/// # Errors
///
/// Out of memory.
pub fn all_value(
    alloc: Global,
    failing: &Option<Vec<usize>>,
    counterexample: Option<&Image>,
) -> Result<Value, AllocError>
    ensures { IfOk result (IsJsonOf (all_data (option_map (λ v. v.items) failing.now) (option_copied counterexample.entry))) }
{
    let image = image_or_null(alloc, counterexample)?;
    let broken = places_or_null(alloc, failing)?;
    json!(in alloc; {"holds": counterexample.is_none(), "image": image, "broken": broken})
}

/// Whether a condition holds for some image, and the first for which it does.
///
/// # Errors
///
/// Out of memory.
pub fn some_value(alloc: Global, example: Option<&Image>) -> Result<Value, AllocError>
    ensures { IfOk result (IsJsonOf (some_data (option_copied example.entry))) }
{
    let image = image_or_null(alloc, example)?;
    json!(in alloc; {"found": example.is_some(), "image": image})
}
