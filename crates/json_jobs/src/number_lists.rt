//! Lists of numbers that an exploration found, as JSON.
ghost use Rattle.std.specs.Prelude.{IfOk};
ghost use Rattle.json_texts.specs.Objects.{IsJsonOf};
ghost use Rattle.json_texts.specs.ImageData.{images_data};

use explore::Numbers;
use json_texts::numbers_value;
use serde_json::{Value, push};
use std::alloc::{AllocError, Global};

/// Each image as its values.
#[tactic(auto, using(json_texts::proofs::Items::list_steps))]
pub(crate) fn lists_value(alloc: Global, images: &[Numbers]) -> Result<Value, AllocError>
    ensures { IfOk result (IsJsonOf (images_data images.now)) }
{
    let mut items = Vec::new(alloc);
    for image in images {
        push(&mut items, numbers_value(alloc, image.values())?)?;
    }
    Ok(Value::from(items))
}
