//! The report of `trace` as JSON.
ghost use Rattle.std.specs.Prelude.{◌≡◌, ◌++◌, [], ◌∷◌, IfOk, OnOk, Ok, length, map};
ghost use Rattle.image_reasons.specs.Origins.{no_origins, origins_behind};
ghost use Rattle.machine.specs.Programs.{AreSiblings};
ghost use Rattle.machine.specs.Steps.{run_of, step_of};
ghost use Rattle.commands.specs.Works.{Makes, work};
ghost use Rattle.commands.specs.declared.fault.Stage.TheVariants as stages;
ghost use Rattle.jobs.specs.Reports.{status_of};
ghost use Rattle.jobs.specs.Traces.{attempts_of};
ghost use Rattle.json_texts.specs.Objects.{or_null, GetsFields, GetsItems, HasFields, IsJsonOf};
ghost use Rattle.json_texts.specs.StepData.{instruction_data};
ghost use Rattle.json_texts.specs.ValueReports.{value_report};
ghost use Rattle.json_jobs.specs.StepReports.{attempt_data, attempts_from, instruction_of, left_fields, outcome_fields, refused_fields, seen_fields, state_if, step_fields, trace_after, trace_data, trace_on, tried_fields, Leaves};

use commands::{Fault, Report, Stage, TraceOptions, load, read_list};
use image_reasons::Origins;
use isa::{Instr, Object};
use jobs::status_of;
use json_texts::{
    Fields, SourceMap, instruction_value, number_or_null, put_number, refused_value, report_fields,
    seen_value, sited_state, step_line, step_value, value_report,
};
use lines_layout::Layout;
use litmus_text::TextLines;
use machine::laws::programs_stay;
use machine::{Machine, Refusal, Seen, Step, View};
use serde_json::{Value, push, put};
use std::alloc::{AllocError, Global};

/// The instruction that a step executes, if it is an `exec` and there is one.
fn instruction_of(view: &View<'_>, step: Step) -> Option<Instr>
    ensures { result ≡ instruction_of view.now step }
{
    match step {
        Step::Exec(p) => view.instruction(p as usize),
        _ => None,
    }
}

/// An instruction, if there is one.
fn instruction_or_null(
    alloc: Global,
    layout: &Layout,
    instr: Option<Instr>,
) -> Result<Value, AllocError>
    ensures { IfOk result (IsJsonOf (or_null (instruction_data layout.now) instr)) }
{
    match instr {
        Some(instr) => instruction_value(alloc, layout, instr),
        None => Ok(Value::Null),
    }
}

/// Puts a step into an object, and the instruction that it executes with its line.
pub(crate) fn put_step(
    fields: &mut Fields,
    alloc: Global,
    source: &SourceMap<'_>,
    view: &View<'_>,
    step: Step,
) -> Result<(), AllocError>
    ensures { OnOk result (GetsFields fields.old.entries fields.new.entries
        (step_fields source.now view.now step)) }
{
    put(fields, alloc, "step", step_value(alloc, step)?)?;
    let instr = instruction_or_null(alloc, source.layout, instruction_of(view, step))?;
    put(fields, alloc, "instruction", instr)?;
    let line = number_or_null(step_line(source.lines, view, step));
    put(fields, alloc, "line", line)
}

/// What is tried: the place of the step in the list, and the step.
fn tried_fields(
    alloc: Global,
    source: &SourceMap<'_>,
    view: &View<'_>,
    at: usize,
    step: Step,
) -> Result<Fields, AllocError>
    ensures { IfOk result (λ fields. HasFields fields.entries
        (tried_fields source.now at view.now step)) }
{
    let mut fields = Fields::new(alloc);
    put_number(&mut fields, alloc, "at", at as u64)?;
    put_step(&mut fields, alloc, source, view, step)?;
    Ok(fields)
}

/// Puts what an accepted step showed into the object of its attempt.
pub(crate) fn put_seen(
    fields: &mut Fields,
    alloc: Global,
    layout: &Layout,
    seen: Seen,
) -> Result<(), AllocError>
    ensures { OnOk result (GetsFields fields.old.entries fields.new.entries
        (seen_fields layout.now seen)) }
{
    put(fields, alloc, "seen", seen_value(alloc, layout, seen)?)?;
    put(fields, alloc, "refused", Value::Null)
}

/// Puts why a step was refused into the object of its attempt.
pub(crate) fn put_refused(
    fields: &mut Fields,
    alloc: Global,
    at: usize,
    refusal: Refusal,
) -> Result<(), AllocError>
    ensures { OnOk result (GetsFields fields.old.entries fields.new.entries
        (refused_fields at refusal)) }
{
    put(fields, alloc, "seen", Value::Null)?;
    let refused = refused_value(alloc, at, Some(refusal))?;
    put(fields, alloc, "refused", refused)
}

/// The state of a machine, where it is asked for, with what is kept of its run.
fn state_or_null(
    alloc: Global,
    source: &SourceMap<'_>,
    states: bool,
    origins: &Origins,
    view: &View<'_>,
) -> Result<Value, AllocError>
    requires { view.now.shape ≡ map length source.now.names }
    ensures { IfOk result (IsJsonOf (state_if source.now states origins.now view.now)) }
{
    if states {
        sited_state(alloc, view, source, origins)
    } else {
        Ok(Value::Null)
    }
}

/// The same of what is noted then, too. (The prover has no value that is handed on twice.)
fn put_what_showed(
    fields: &mut Fields,
    alloc: Global,
    layout: &Layout,
    seen: &Seen,
) -> Result<(), AllocError>
    ensures { OnOk result (GetsFields fields.old.entries fields.new.entries (seen_fields layout.now seen.now)) }
{
    put_seen(fields, alloc, layout, *seen)
}

/// Makes a step on a machine, notes it, and puts what came of it into its object, with the state that it leaves, where that is asked
/// for. It answers the refusal, if there is one.
pub(crate) fn put_outcome(
    fields: &mut Fields,
    alloc: Global,
    source: &SourceMap<'_>,
    states: bool,
    at: usize,
    origins: &mut Origins,
    machine: &mut Machine,
    step: Step,
) -> Result<Option<Refusal>, AllocError>
    requires { machine.old.shape ≡ map length source.now.names }
    ensures fields { OnOk result (GetsFields fields.old.entries fields.new.entries
        (outcome_fields source.now.names at (step_of machine.old step)
        ++ left_fields source.now states at origins.old (step_of machine.old step))) }
    ensures noted { OnOk result (origins.new ≡ origins_behind at origins.old (step_of machine.old step)) }
    ensures left { IfOk result (λ refusal. Leaves refusal (step_of machine.old step) machine.new) }
    ensures siblings { AreSiblings machine.new machine.old }
{
    programs_stay();
    match machine.step(step) {
        Ok(seen) => {
            put_what_showed(fields, alloc, source.layout, &seen)?;
            origins.note(at, seen)?;
            let state = state_or_null(alloc, source, states, origins, &machine.view())?;
            put(fields, alloc, "state", state)?;
            Ok(None)
        }
        Err(refusal) => {
            put_refused(fields, alloc, at, refusal)?;
            put(fields, alloc, "state", Value::Null)?;
            Ok(Some(refusal))
        }
    }
}

/// Tries a step, and appends the object of the attempt. It answers the refusal, if there is one.
fn push_attempt(
    items: &mut Vec<Value>,
    source: &SourceMap<'_>,
    states: bool,
    origins: &mut Origins,
    machine: &mut Machine,
    at: usize,
    step: Step,
) -> Result<Option<Refusal>, AllocError>
    requires { machine.old.shape ≡ map length source.now.names }
    ensures item { OnOk result (GetsItems items.old.items items.new.items
        (attempt_data source.now states at origins.old (record { before = machine.old; step = step }) ∷ [])) }
    ensures noted { OnOk result (origins.new ≡ origins_behind at origins.old (step_of machine.old step)) }
    ensures left { IfOk result (λ refusal. Leaves refusal (step_of machine.old step) machine.new) }
    ensures shape { OnOk result (machine.new.shape ≡ machine.old.shape) }
{
    let alloc = *items.allocator();
    let mut fields = tried_fields(alloc, source, &machine.view(), at, step)?;
    let refusal = put_outcome(
        &mut fields,
        alloc,
        source,
        states,
        at,
        origins,
        machine,
        step,
    )?;
    push(items, Value::from(fields))?;
    Ok(refusal)
}

/// Makes steps up to the first refusal, and appends an object for each. It answers the refusal.
fn push_trace(
    items: &mut Vec<Value>,
    source: &SourceMap<'_>,
    states: bool,
    origins: &mut Origins,
    machine: &mut Machine,
    steps: &[Step],
) -> Result<Option<Refusal>, AllocError>
    requires { machine.old.shape ≡ map length source.now.names }
    ensures items { OnOk result (GetsItems items.old.items items.new.items
        (attempts_from source.now states 0 origins.old (attempts_of steps.now machine.old))) }
    ensures refusal { IfOk result (λ refusal. refusal ≡ (run_of steps.now machine.old).refusal) }
{
    for (i, step) in steps.iter().enumerate() {
        if let Some(refusal) = push_attempt(items, source, states, origins, machine, i, *step)? {
            return Ok(Some(refusal));
        }
    }
    Ok(None)
}

/// The same as the object of the report, with the state before the first step. It answers the refusal.
#[tactic(auto, using(json_texts::proofs::Items::list_steps))]
fn trace_value(
    alloc: Global,
    source: &SourceMap<'_>,
    options: &TraceOptions,
    origins: &mut Origins,
    machine: &mut Machine,
    steps: &[Step],
) -> Result<(Value, Option<Refusal>), AllocError>
    requires { machine.old.shape ≡ map length source.now.names }
    ensures value { IfOk result (λ made. IsJsonOf
        (trace_data source.now options.now steps.now origins.old machine.old) made.0) }
    ensures refusal { IfOk result (λ made. made.1 ≡ (run_of steps.now machine.old).refusal) }
{
    let state = state_or_null(alloc, source, options.states, origins, &machine.view())?;
    let mut items = Vec::new(alloc);
    let refusal = push_trace(&mut items, source, options.states, origins, machine, steps)?;
    let mut fields = report_fields(alloc, "trace")?;
    put(&mut fields, alloc, "state", state)?;
    put(&mut fields, alloc, "steps", Value::from(items))?;
    Ok((Value::from(fields), refusal))
}

/// The report of a trace, on a machine of so many processors that has made no step yet.
fn trace_report(
    alloc: Global,
    source: &SourceMap<'_>,
    options: &TraceOptions,
    processors: usize,
    machine: &mut Machine,
    steps: &[Step],
) -> Result<Report, AllocError>
    requires { machine.old.shape ≡ map length source.now.names }
    ensures { IfOk result (λ report. report
        ≡ value_report (trace_data source.now options.now steps.now (no_origins processors) machine.old) (status_of (run_of steps.now machine.old).refusal)) }
{
    let mut origins = Origins::new(alloc, processors)?;
    let made = trace_value(alloc, source, options, &mut origins, machine, steps);
    drop(origins);
    let (value, refusal) = made?;
    value_report(alloc, &value, status_of(refusal))
}

/// The report of a trace of these steps, on the machine of a program.
#[tactic(auto, unfolding(commands::specs::Works::Makes))]
fn trace_after(
    alloc: Global,
    options: &TraceOptions,
    object: &Object,
    lines: &TextLines,
    steps: &[Step],
) -> Result<Report, Fault>
    ensures { Makes (work stages.Machine (Ok (trace_after options.now object.now lines.now steps.now))) result }
{
    let mut machine = load(alloc, object)?;
    let source = SourceMap {
        layout: object.layout(),
        lines,
    };
    let processors = object.processors().len();
    let report = trace_report(alloc, &source, options, processors, &mut machine, steps);
    drop(machine);
    match report {
        Ok(report) => Ok(report),
        Err(AllocError) => Err(Stage::Machine.missing()),
    }
}

/// The report of `trace`.
#[tactic(auto, using(commands::proofs::WorksInTurn::turns))]
pub(crate) fn report_trace(
    alloc: Global,
    options: &TraceOptions,
    object: &Object,
    lines: &TextLines,
    steps: &[u8],
) -> Result<Report, Fault>
    ensures { Makes (trace_on options.now object.now lines.now steps.now) result }
{
    let steps = read_list(alloc, steps)?;
    trace_after(alloc, options, object, lines, &steps)
}
