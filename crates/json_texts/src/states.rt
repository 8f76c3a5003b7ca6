//! The state of a machine as JSON, and how a run ended.
ghost use Rattle.std.specs.Prelude.{◌≡◌, IfOk, length, map};
ghost use Rattle.json_texts.specs.Objects.{list, IsJsonOf};
ghost use Rattle.json_texts.specs.StateData.{pending_from, run_data, sited_state, state_data};

use crate::cpus::cpus_value;
use crate::entries::pending_value;
use crate::fields::FORMAT;
use crate::refusals::refused_value;
use crate::source_map::SourceMap;
use crate::words::words_value;
use image_reasons::Origins;
use machine::{Refusal, View};
use serde_json::{Value, json};
use std::alloc::{AllocError, Global};

/// What is pending in a state, oldest first.
fn all_pending(
    alloc: Global,
    view: &View<'_>,
    source: &SourceMap<'_>,
    origins: &Origins,
) -> Result<Value, AllocError>
    ensures { IfOk result (IsJsonOf
        (list (pending_from source.now origins.now 0 view.now.memory.pending))) }
{
    let pending = view.pending_list(alloc)?;
    pending_value(alloc, source, origins, &pending)
}

/// A state, with the instruction that each of its entries is of, as far as it is kept. The machine was loaded from the layout of the
/// source map, which names its words.
///
/// # Errors
///
/// Out of memory.
pub fn sited_state(
    alloc: Global,
    view: &View<'_>,
    source: &SourceMap<'_>,
    origins: &Origins,
) -> Result<Value, AllocError>
    requires { view.now.shape ≡ map length source.now.names }
    ensures { IfOk result (IsJsonOf (sited_state source.now origins.now view.now)) }
{
    let (turns, crashes) = (view.turns(), view.crashes());
    let cpus = cpus_value(alloc, view, source, origins)?;
    let words = words_value(alloc, view, source.layout)?;
    let pending = all_pending(alloc, view, source, origins)?;
    json!(in alloc; {
        "turns": turns, "crashes": crashes, "cpus": cpus, "words": words, "pending": pending
    })
}

/// The same of a state of which no instruction is kept.
///
/// # Errors
///
/// Out of memory.
pub fn state_value(
    alloc: Global,
    view: &View<'_>,
    source: &SourceMap<'_>,
) -> Result<Value, AllocError>
    requires { view.now.shape ≡ map length source.now.names }
    ensures { IfOk result (IsJsonOf (state_data source.now view.now)) }
{
    let unknown = Origins::new(alloc, 0)?;
    sited_state(alloc, view, source, &unknown)
}

/// How a run ended: the state that it left, and where a step was refused, how many steps were accepted before and the
/// refusal.
///
/// # Errors
///
/// Out of memory.
pub fn run_value(
    alloc: Global,
    view: &View<'_>,
    source: &SourceMap<'_>,
    origins: &Origins,
    accepted: usize,
    refusal: Option<Refusal>,
) -> Result<Value, AllocError>
    requires { view.now.shape ≡ map length source.now.names }
    ensures { IfOk result (IsJsonOf
        (run_data source.now origins.now (record { accepted = accepted; refusal = refusal; state = view.now }))) }
{
    let state = sited_state(alloc, view, source, origins)?;
    let refused = refused_value(alloc, accepted, refusal)?;
    json!(in alloc; {"format": FORMAT, "command": "run", "state": state, "refused": refused})
}
