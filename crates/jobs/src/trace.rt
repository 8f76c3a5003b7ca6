//! The report of `trace`: what each step showed.
ghost use Rattle.std.specs.Prelude.{◌≡◌, ◌++◌, IfOk, OnOk, string_bytes};
ghost use Rattle.machine.specs.Steps.{run_of};
ghost use Rattle.commands.specs.Works.{Makes, work};
ghost use Rattle.commands.specs.declared.fault.Stage.TheVariants as stages;
ghost use Rattle.jobs.specs.Reports.{trace_after, trace_on};
ghost use Rattle.jobs.specs.Traces.{shown_text, trace_text};

use crate::report::bytes_of;
use crate::run::status_of;
use commands::{
    Fault, Report, Stage, load, push_act, push_number, push_seen, push_tried, read_list,
};
use isa::Object;
use lines_layout::Layout;
use machine::{Machine, Refusal, Seen, Step};
use std::alloc::{AllocError, Global};

/// Appends what an accepted step showed.
pub(crate) fn push_shown(text: &mut String, layout: &Layout, seen: Seen) -> Result<(), AllocError>
    ensures { OnOk result (string_bytes text.new ≡ string_bytes text.old ++ shown_text layout.now seen) }
{
    match seen {
        Seen::Ran(_, _, act) => push_act(text, layout, act),
        _ => push_seen(text, layout, seen),
    }
}

/// Makes steps up to the first refusal, and appends a line for each, from 0. It answers the refusal.
fn push_trace(
    text: &mut String,
    layout: &Layout,
    machine: &mut Machine,
    steps: &[Step],
) -> Result<Option<Refusal>, AllocError>
    ensures text { OnOk result (string_bytes text.new ≡ string_bytes text.old ++ trace_text layout.now steps.now machine.old) }
    ensures refusal { IfOk result (λ refusal. refusal ≡ (run_of steps.now machine.old).refusal) }
{
    for (i, step) in steps.iter().enumerate() {
        push_number(text, i as u64)?;
        text.push_str(" ")?;
        push_tried(text, layout, &machine.view(), *step)?;
        text.push_str(": ")?;
        match machine.step(*step) {
            Ok(seen) => push_shown(text, layout, seen)?,
            Err(refusal) => {
                writeln!(text, "{refusal}")?;
                return Ok(Some(refusal));
            }
        }
        text.push('\n')?;
    }
    Ok(None)
}

/// The report of a trace of these steps, on the machine of a program.
#[tactic(auto, unfolding(commands::specs::Works::Makes))]
fn trace_after(alloc: Global, object: &Object, steps: &[Step]) -> Result<Report, Fault>
    ensures { Makes (work stages.Machine (Ok (trace_after object.now steps.now))) result }
{
    let mut machine = load(alloc, object)?;
    let mut text = String::new(alloc);
    let traced = push_trace(&mut text, object.layout(), &mut machine, steps);
    drop(machine);
    match traced {
        Ok(refusal) => Ok(Report {
            text: bytes_of(text),
            status: status_of(refusal),
        }),
        Err(AllocError) => Err(Stage::Machine.missing()),
    }
}

/// The report of `trace`.
#[tactic(auto, using(commands::proofs::WorksInTurn::turns))]
pub(crate) fn report_trace(alloc: Global, object: &Object, steps: &[u8]) -> Result<Report, Fault>
    ensures { Makes (trace_on object.now steps.now) result }
{
    let steps = read_list(alloc, steps)?;
    trace_after(alloc, object, &steps)
}
