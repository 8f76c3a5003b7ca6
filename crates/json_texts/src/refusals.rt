//! Refusals as JSON.
ghost use Rattle.std.specs.Prelude.{◌≡◌, IfOk};
ghost use Rattle.json_texts.specs.Objects.{or_null, IsJsonOf};
ghost use Rattle.json_texts.specs.StateData.{refusal_name, refusal_number, refusal_place, refused_data};

use crate::fields::number_or_null;
use commands::refusal_sentence;
use machine::Refusal;
use serde_json::{Value, json};
use std::alloc::{AllocError, Global};

/// The number of a refusal.
fn refusal_number(refusal: Refusal) -> &'static str
    ensures { result.now ≡ refusal_number refusal }
{
    match refusal {
        Refusal::Spent => "M1",
        Refusal::NoCpu => "M2",
        Refusal::Halted => "M3",
        Refusal::BufferNotEmpty => "M4",
        Refusal::BufferFull => "M5",
        Refusal::NoEntry => "M6",
        Refusal::Held(_) => "M7",
        Refusal::LineFull => "M8",
        Refusal::MarkersFull => "M9",
        Refusal::NoLine => "M10",
        Refusal::NoPending => "M11",
        Refusal::BehindMarker => "M12",
        Refusal::NoMarker => "M13",
        Refusal::MarkerWaits => "M14",
    }
}

/// The name of a refusal.
fn refusal_name(refusal: Refusal) -> &'static str
    ensures { result.now ≡ refusal_name refusal }
{
    match refusal {
        Refusal::Spent => "Spent",
        Refusal::NoCpu => "NoCpu",
        Refusal::Halted => "Halted",
        Refusal::BufferNotEmpty => "BufferNotEmpty",
        Refusal::BufferFull => "BufferFull",
        Refusal::NoEntry => "NoEntry",
        Refusal::Held(_) => "Held",
        Refusal::LineFull => "LineFull",
        Refusal::MarkersFull => "MarkersFull",
        Refusal::NoLine => "NoLine",
        Refusal::NoPending => "NoPending",
        Refusal::BehindMarker => "BehindMarker",
        Refusal::NoMarker => "NoMarker",
        Refusal::MarkerWaits => "MarkerWaits",
    }
}

/// The place of the entry that holds another.
fn refusal_place(refusal: Refusal) -> Option<u64>
    ensures { result ≡ refusal_place refusal }
{
    match refusal {
        Refusal::Held(place) => Some(place as u64),
        _ => None,
    }
}

/// A step that was refused, with its index in the list, and a sentence on its refusal.
fn refusal_value(alloc: Global, at: usize, refusal: Refusal) -> Result<Value, AllocError>
    ensures { IfOk result (IsJsonOf (refused_data at refusal)) }
{
    let (number, name) = (refusal_number(refusal), refusal_name(refusal));
    let place = number_or_null(refusal_place(refusal));
    let sentence = refusal_sentence(refusal);
    json!(in alloc; {
        "at": at as u64, "number": number, "name": name, "place": place, "sentence": sentence
    })
}

/// A step that was refused, with its index in the list, or nothing.
///
/// # Errors
///
/// Out of memory.
pub fn refused_value(
    alloc: Global,
    at: usize,
    refusal: Option<Refusal>,
) -> Result<Value, AllocError>
    ensures { IfOk result (IsJsonOf (or_null (refused_data at) refusal)) }
{
    match refusal {
        Some(refusal) => refusal_value(alloc, at, refusal),
        None => Ok(Value::Null),
    }
}
