//! The report of `next` as JSON.
ghost use Rattle.std.specs.Prelude.{◌≡◌, [], ◌∷◌, IfOk, OnOk, Ok, length, map};
ghost use Rattle.image_reasons.specs.Origins.{origins_of};
ghost use Rattle.machine.specs.Programs.{AreSiblings};
ghost use Rattle.commands.specs.Works.{Makes, work};
ghost use Rattle.commands.specs.declared.fault.Stage.TheVariants as stages;
ghost use Rattle.jobs.specs.NextSteps.{next_steps};
ghost use Rattle.json_texts.specs.Objects.{list, GetsItems, IsJsonOf};
ghost use Rattle.json_jobs.specs.NextReports.{all_next_data, next_data, next_from, next_on};

use crate::trace_report::{put_outcome, put_step};
use commands::{Fault, NextOptions, Report, Stage, machine_after, read_list};
use image_reasons::{Origins, origins_after};
use isa::Object;
use jobs::{next_status, next_steps};
use json_texts::{Fields, SourceMap, report_fields, value_report};
use litmus_text::TextLines;
use machine::{Machine, Step};
use serde_json::{Value, push, put};
use std::alloc::{AllocError, Global};

/// Tries a step in the state of a machine, on another machine, and appends its object.
fn push_next(
    items: &mut Vec<Value>,
    source: &SourceMap<'_>,
    states: bool,
    given: usize,
    origins: &Origins,
    machine: &Machine,
    spare: &mut Machine,
    step: Step,
) -> Result<(), AllocError>
    requires shape { machine.now.shape ≡ map length source.now.names }
    requires siblings { AreSiblings spare.old machine.now }
    ensures item { OnOk result (GetsItems items.old.items items.new.items
        (next_data source.now states given origins.now machine.now step ∷ [])) }
    ensures siblings { OnOk result (AreSiblings spare.new machine.now) }
{
    let alloc = *items.allocator();
    spare.restore(machine);
    let mut fields = Fields::new(alloc);
    put_step(&mut fields, alloc, source, &spare.view(), step)?;
    let mut noted = origins.copy(alloc)?;
    let tried = put_outcome(
        &mut fields,
        alloc,
        source,
        states,
        given,
        &mut noted,
        spare,
        step,
    );
    drop(noted);
    tried?;
    push(items, Value::from(fields))
}

/// The same for some steps, one after another.
fn push_all_next(
    items: &mut Vec<Value>,
    source: &SourceMap<'_>,
    states: bool,
    given: usize,
    origins: &Origins,
    machine: &Machine,
    spare: &mut Machine,
    steps: &[Step],
) -> Result<(), AllocError>
    requires shape { machine.now.shape ≡ map length source.now.names }
    requires siblings { AreSiblings spare.old machine.now }
    ensures { OnOk result (GetsItems items.old.items items.new.items
        (map (next_data source.now states given origins.now machine.now) steps.now)) }
{
    for step in steps {
        push_next(items, source, states, given, origins, machine, spare, *step)?;
    }
    Ok(())
}

/// The steps that may come next, each with what it shows.
#[tactic(auto, using(json_texts::proofs::Items::list_steps))]
fn steps_value(
    alloc: Global,
    source: &SourceMap<'_>,
    options: &NextOptions,
    given: usize,
    origins: &Origins,
    machine: &Machine,
) -> Result<Value, AllocError>
    requires { machine.now.shape ≡ map length source.now.names }
    ensures { IfOk result (IsJsonOf (list (map (next_data source.now options.now.states given origins.now machine.now)
        (next_steps options.now.refused machine.now)))) }
{
    let steps = next_steps(alloc, machine, options.refused)?;
    let mut items = Vec::new(alloc);
    let mut spare = machine.copy(alloc)?;
    let pushed = push_all_next(
        &mut items,
        source,
        options.states,
        given,
        origins,
        machine,
        &mut spare,
        &steps,
    );
    drop(spare);
    pushed?;
    Ok(Value::from(items))
}

/// The same as the object of the report.
fn next_value(
    alloc: Global,
    source: &SourceMap<'_>,
    options: &NextOptions,
    given: usize,
    origins: &Origins,
    machine: &Machine,
) -> Result<Value, AllocError>
    requires { machine.now.shape ≡ map length source.now.names }
    ensures { IfOk result (IsJsonOf (all_next_data source.now options.now given origins.now machine.now)) }
{
    let steps = steps_value(alloc, source, options, given, origins, machine)?;
    let mut fields = report_fields(alloc, "next")?;
    put(&mut fields, alloc, "steps", steps)?;
    Ok(Value::from(fields))
}

/// The same as a report, of the state of a machine behind these steps.
fn next_report(
    alloc: Global,
    source: &SourceMap<'_>,
    options: &NextOptions,
    object: &Object,
    given: &[Step],
    machine: &Machine,
) -> Result<Report, AllocError>
    requires { machine.now.shape ≡ map length source.now.names }
    ensures { IfOk result (λ report. report
        ≡ next_from source.now options.now (length given.now) (origins_of object.now given.now) machine.now) }
{
    let origins = origins_after(alloc, object, given)?;
    let value = next_value(alloc, source, options, given.len(), &origins, machine);
    drop(origins);
    value_report(alloc, &value?, next_status(machine))
}

/// The same, with the fault of what is missing for it.
#[tactic(auto, unfolding(commands::specs::Works::Makes))]
fn next_from(
    alloc: Global,
    source: &SourceMap<'_>,
    options: &NextOptions,
    object: &Object,
    given: &[Step],
    machine: &Machine,
) -> Result<Report, Fault>
    requires { machine.now.shape ≡ map length source.now.names }
    ensures { Makes (work stages.Machine (Ok
        (next_from source.now options.now (length given.now) (origins_of object.now given.now) machine.now))) result }
{
    match next_report(alloc, source, options, object, given, machine) {
        Ok(report) => Ok(report),
        Err(AllocError) => Err(Stage::Machine.missing()),
    }
}

/// The report of `next`.
#[tactic(auto, using(commands::proofs::WorksInTurn::turns))]
pub(crate) fn report_next(
    alloc: Global,
    options: &NextOptions,
    object: &Object,
    lines: &TextLines,
    steps: &[u8],
) -> Result<Report, Fault>
    ensures { Makes (next_on options.now object.now lines.now steps.now) result }
{
    let steps = read_list(alloc, steps)?;
    let machine = machine_after(alloc, object, &steps)?;
    let source = SourceMap {
        layout: object.layout(),
        lines,
    };
    let report = next_from(alloc, &source, options, object, &steps, &machine);
    drop(machine);
    report
}
