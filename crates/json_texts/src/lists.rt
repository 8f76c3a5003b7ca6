//! Lists of numbers as JSON.
ghost use Rattle.std.specs.Prelude.{IfOk, option_map};
ghost use Rattle.json_texts.specs.Objects.{nums, or_null, IsJsonOf};

use serde_json::{Value, push};
use std::alloc::{AllocError, Global};

/// Numbers, in their order.
///
/// # Errors
///
/// Out of memory.
#[tactic(auto, using(crate::proofs::Items::list_steps))]
pub fn numbers_value(alloc: Global, numbers: &[u64]) -> Result<Value, AllocError>
    ensures { IfOk result (IsJsonOf (nums numbers.now)) }
{
    let mut items = Vec::new(alloc);
    for number in numbers {
        push(&mut items, Value::from(*number))?;
    }
    Ok(Value::from(items))
}

/// Places, in their order.
#[tactic(auto, using(crate::proofs::Items::list_steps))]
fn places_value(alloc: Global, places: &[usize]) -> Result<Value, AllocError>
    ensures { IfOk result (IsJsonOf (nums places.now)) }
{
    let mut items = Vec::new(alloc);
    for place in places {
        push(&mut items, Value::from(*place))?;
    }
    Ok(Value::from(items))
}

/// Places, or nothing.
///
/// # Errors
///
/// Out of memory.
pub fn places_or_null(alloc: Global, places: &Option<Vec<usize>>) -> Result<Value, AllocError>
    ensures { IfOk result (IsJsonOf
        (or_null nums (option_map (λ places. places.items) places.now))) }
{
    match places {
        Some(places) => places_value(alloc, places),
        None => Ok(Value::Null),
    }
}
