//! The report of `tally` as JSON.
ghost use Rattle.std.specs.Prelude.{◌≡◌, IfOk, OnOk, map};
ghost use Rattle.commands.specs.OutcomeTexts.{names_of};
ghost use Rattle.json_texts.specs.Objects.{list, GetsItems, IsJsonOf};
ghost use Rattle.json_jobs.specs.TallyData.{cpu_data, cpus_from, outcome_data, pair_data, pairs_data, tally_data, tally_report};

use commands::{Report, Status, behind};
use hunt::{Outcome, Tally, WordPair};
use json_texts::{FORMAT, registers_value, value_report};
use lines_layout::{Layout, Name};
use serde_json::{Value, json, push};
use std::alloc::{AllocError, Global};

/// Processor `p`, whose registers have these values.
fn cpu_value(alloc: Global, p: usize, values: &[u64]) -> Result<Value, AllocError>
    ensures { IfOk result (IsJsonOf (cpu_data p values.now)) }
{
    let registers = registers_value(alloc, values)?;
    json!(in alloc; {"cpu": p as u64, "registers": registers})
}

/// Each processor.
#[tactic(auto, using(json_texts::proofs::Items::list_steps))]
fn cpus_value(alloc: Global, registers: &[[u64; 8]]) -> Result<Value, AllocError>
    ensures { IfOk result (IsJsonOf (list (cpus_from 0 registers.now))) }
{
    let mut items = Vec::new(alloc);
    for (p, values) in registers.iter().enumerate() {
        push(&mut items, cpu_value(alloc, p, values)?)?;
    }
    Ok(Value::from(items))
}

/// A word of this name.
fn pair_value(alloc: Global, name: &str, pair: WordPair) -> Result<Value, AllocError>
    ensures { IfOk result (IsJsonOf (pair_data name.now pair)) }
{
    json!(in alloc; {"word": name, "coherent": pair.coherent, "persisted": pair.persisted})
}

/// Appends words that have these names, each with its values.
fn push_line(
    items: &mut Vec<Value>,
    alloc: Global,
    names: &[Name],
    pairs: &[WordPair],
) -> Result<(), AllocError>
    ensures { OnOk result (GetsItems items.old.items items.new.items
        (pairs_data names.now pairs.now)) }
{
    for (place, name) in names.iter().enumerate() {
        let Some(pair) = pairs.get(place) else {
            return Ok(());
        };
        push(items, pair_value(alloc, name.as_str(), *pair)?)?;
    }
    Ok(())
}

/// Each word of a layout with its values, which are in order of the words' numbers.
#[tactic(auto, using(json_texts::proofs::Items::list_steps))]
fn pairs_value(alloc: Global, layout: &Layout, pairs: &[WordPair]) -> Result<Value, AllocError>
    ensures { IfOk result (IsJsonOf (list (pairs_data (names_of layout.now) pairs.now))) }
{
    let mut items = Vec::new(alloc);
    let mut rest = pairs;
    for line in layout.lines() {
        push_line(&mut items, alloc, line.names(), rest)?;
        rest = behind(rest, line.names().len());
    }
    Ok(Value::from(items))
}

/// An outcome, and how often it comes.
fn outcome_value(
    alloc: Global,
    layout: &Layout,
    outcome: &Outcome,
    count: u64,
) -> Result<Value, AllocError>
    ensures { IfOk result (IsJsonOf (outcome_data layout.now (outcome.now, count))) }
{
    let cpus = cpus_value(alloc, outcome.registers())?;
    let words = pairs_value(alloc, layout, outcome.words())?;
    json!(in alloc; {"count": count, "cpus": cpus, "words": words})
}

/// The outcomes of a tally, in their order.
#[tactic(auto, using(json_texts::proofs::Items::list_steps))]
fn outcomes_value(alloc: Global, layout: &Layout, counted: &Tally) -> Result<Value, AllocError>
    ensures { IfOk result (IsJsonOf (list (map (outcome_data layout.now) counted.now))) }
{
    let mut items = Vec::new(alloc);
    for place in 0..counted.len() {
        let (outcome, count) = counted.get(place).unwrap();
        push(&mut items, outcome_value(alloc, layout, outcome, count)?)?;
    }
    Ok(Value::from(items))
}

/// The outcomes as the object of the report.
fn tally_value(alloc: Global, layout: &Layout, counted: &Tally) -> Result<Value, AllocError>
    ensures { IfOk result (IsJsonOf (tally_data layout.now counted.now)) }
{
    let outcomes = outcomes_value(alloc, layout, counted)?;
    json!(in alloc; {"format": FORMAT, "command": "tally", "outcomes": outcomes})
}

/// The report of a tally.
pub(crate) fn tally_report(
    alloc: Global,
    layout: &Layout,
    counted: &Tally,
) -> Result<Report, AllocError>
    ensures { IfOk result (λ report. report ≡ tally_report layout.now counted.now) }
{
    let value = tally_value(alloc, layout, counted)?;
    value_report(alloc, &value, Status::Done)
}
