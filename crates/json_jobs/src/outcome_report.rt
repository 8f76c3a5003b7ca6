//! The report of `outcomes` as JSON.
ghost use Rattle.std.specs.Prelude.{◌≡◌, IfOk, OnOk, map};
ghost use Rattle.jobs.specs.Starts.{exactly};
ghost use Rattle.json_texts.specs.Objects.{list, GetsItems, IsJsonOf};
ghost use Rattle.json_jobs.specs.RunReports.{behind_processors, outcome_data, outcomes_data, outcomes_report, processor_data, processors_from, trap_data};

use commands::{Report, Status, behind, number_at};
use explore::{Numbers, Verdict};
use jobs::{ReportsVerdict, Start, outcomes_asked};
use json_texts::{FORMAT, Fields, names_value, numbers_value, registers_value, value_report};
use lines_layout::Layout;
use serde_json::{Value, json, push, put};
use std::alloc::{AllocError, Global};
use workers::Gate;

/// How many numbers an outcome has of each processor: those of its trap, and its registers.
const PROCESSOR_NUMBERS: usize = 10;

/// How many of them are of its trap: whether there is one, and its address.
const TRAP_NUMBERS: usize = 2;

/// Where a processor is trapped, if it is.
fn trap_value(trapped: u64, address: u64) -> Value
    ensures { IsJsonOf (trap_data trapped address) result }
{
    if trapped == 0 {
        Value::Null
    } else {
        Value::from(address)
    }
}

/// Processor `p`, whose numbers are the first of these.
fn processor_value(alloc: Global, p: usize, numbers: &[u64]) -> Result<Value, AllocError>
    ensures { IfOk result (IsJsonOf (processor_data p numbers.now)) }
{
    let trap = trap_value(number_at(numbers, 0), number_at(numbers, 1));
    let registers = registers_value(alloc, behind(numbers, TRAP_NUMBERS))?;
    json!(in alloc; {"cpu": p as u64, "trap": trap, "registers": registers})
}

/// Appends so many processors. It answers what is behind their numbers.
fn push_processors<'a>(
    items: &mut Vec<Value>,
    alloc: Global,
    processors: usize,
    numbers: &'a [u64],
) -> Result<&'a [u64], AllocError>
    ensures items { OnOk result (GetsItems items.old.items items.new.items
        (processors_from processors 0 numbers.now)) }
    ensures behind { IfOk result (λ rest. rest.now ≡ behind_processors processors numbers.now) }
{
    let mut rest = numbers;
    for p in 0..processors {
        push(items, processor_value(alloc, p, rest)?)?;
        rest = behind(rest, PROCESSOR_NUMBERS);
    }
    Ok(rest)
}

/// An outcome of so many processors: each of them, and the value of each word.
#[tactic(auto, using(json_texts::proofs::Items::list_steps))]
fn outcome_value(alloc: Global, processors: usize, outcome: &[u64]) -> Result<Value, AllocError>
    ensures { IfOk result (IsJsonOf (outcome_data processors outcome.now)) }
{
    let mut cpus = Vec::new(alloc);
    let values = push_processors(&mut cpus, alloc, processors, outcome)?;
    let mut fields = Fields::new(alloc);
    put(&mut fields, alloc, "cpus", Value::from(cpus))?;
    put(&mut fields, alloc, "values", numbers_value(alloc, values)?)?;
    Ok(Value::from(fields))
}

/// Outcomes of so many processors, in their order.
#[tactic(auto, using(json_texts::proofs::Items::list_steps))]
fn listed_value(alloc: Global, processors: usize, outcomes: &[Numbers]) -> Result<Value, AllocError>
    ensures { IfOk result (IsJsonOf (list (map (outcome_data processors) outcomes.now))) }
{
    let mut items = Vec::new(alloc);
    for outcome in outcomes {
        push(
            &mut items,
            outcome_value(alloc, processors, outcome.values())?,
        )?;
    }
    Ok(Value::from(items))
}

/// Outcomes, and the names of the words.
fn outcomes_value(
    alloc: Global,
    layout: &Layout,
    processors: usize,
    outcomes: &[Numbers],
) -> Result<Value, AllocError>
    ensures { IfOk result (IsJsonOf (outcomes_data layout.now processors outcomes.now)) }
{
    let words = names_value(alloc, layout)?;
    let outcomes = listed_value(alloc, processors, outcomes)?;
    json!(in alloc; {"format": FORMAT, "command": "outcomes", "words": words, "outcomes": outcomes})
}

/// `outcomes` is asked for its report as JSON.
#[derive(Drop)]
pub(crate) struct OutcomesJson {
    /// `--recovered`: the ends after a crash are listed.
    pub(crate) recovered: bool,
}

impl ReportsVerdict for OutcomesJson {
    ghost may_report = { λ asked. exactly (outcomes_report asked.recovered) };

    fn verdict_report<G: Gate>(
        &self,
        alloc: Global,
        start: &Start,
        verdict: &Verdict,
        _gate: &G,
    ) -> Result<Report, AllocError> {
        let object = &start.object;
        let processors = object.processors().len();
        let outcomes = outcomes_asked(self.recovered, verdict);
        let value = outcomes_value(alloc, object.layout(), processors, outcomes)?;
        value_report(alloc, &value, Status::Done)
    }
}
