//! The report of `next`: the steps that a state accepts, and what each would show.
ghost use Rattle.std.specs.Prelude.{◌≡◌, ◌++◌, Ok, IfOk, OnOk, string_bytes};
ghost use Rattle.machine.specs.Programs.{AreSiblings};
ghost use Rattle.commands.specs.Works.{Makes, work};
ghost use Rattle.commands.specs.declared.fault.Stage.TheVariants as stages;
ghost use Rattle.jobs.specs.NextSteps.{next_line, next_lines, next_status, next_steps};
ghost use Rattle.jobs.specs.Reports.{next_from, next_on};

use crate::next_list::next_steps;
use crate::report::bytes_of;
use crate::trace::push_shown;
use commands::{Fault, NextOptions, Report, Stage, Status, machine_after, push_tried, read_list};
use isa::Object;
use lines_layout::Layout;
use machine::laws::programs_stay;
use machine::{Machine, Step};
use schedule::enabled;
use std::alloc::{AllocError, Global};

/// Tries a step in the state of a machine, on another machine, and appends its line.
///
/// # Errors
///
/// Memory was refused. A part of the line may then be at the end.
pub fn push_next(
    text: &mut String,
    layout: &Layout,
    machine: &Machine,
    spare: &mut Machine,
    step: Step,
) -> Result<(), AllocError>
    requires { AreSiblings spare.old machine.now }
    ensures text { OnOk result (string_bytes text.new ≡ string_bytes text.old ++ next_line layout.now machine.now step) }
    ensures siblings { OnOk result (AreSiblings spare.new machine.now) }
{
    programs_stay();
    spare.restore(machine);
    push_tried(text, layout, &spare.view(), step)?;
    text.push_str(": ")?;
    match spare.step(step) {
        Ok(seen) => push_shown(text, layout, seen)?,
        Err(refusal) => write!(text, "{refusal}")?,
    }
    text.push('\n')
}

/// The same for some steps, one after another.
fn push_all_next(
    text: &mut String,
    layout: &Layout,
    machine: &Machine,
    spare: &mut Machine,
    steps: &[Step],
) -> Result<(), AllocError>
    requires { AreSiblings spare.old machine.now }
    ensures { OnOk result (string_bytes text.new ≡ string_bytes text.old ++ next_lines layout.now machine.now steps.now) }
{
    for step in steps {
        push_next(text, layout, machine, spare, *step)?;
    }
    Ok(())
}

/// A line for each step that may come next.
///
/// # Errors
///
/// Memory was refused.
pub fn next_text(
    alloc: Global,
    layout: &Layout,
    machine: &Machine,
    refused: bool,
) -> Result<String, AllocError>
    ensures { IfOk result (λ text. string_bytes text
        ≡ next_lines layout.now machine.now (next_steps refused machine.now)) }
{
    let steps = next_steps(alloc, machine, refused)?;
    let mut text = String::new(alloc);
    let mut spare = machine.copy(alloc)?;
    let pushed = push_all_next(&mut text, layout, machine, &mut spare, &steps);
    drop(spare);
    pushed?;
    Ok(text)
}

/// Whether the machine accepts a step that is no crash, as a status.
pub fn next_status(machine: &Machine) -> Status
    ensures { result ≡ next_status machine.now }
{
    if enabled(machine).is_empty() {
        Status::Unmet
    } else {
        Status::Done
    }
}

/// The same as a report.
#[tactic(auto, unfolding(commands::specs::Works::Makes))]
fn next_from(
    alloc: Global,
    layout: &Layout,
    options: &NextOptions,
    machine: &Machine,
) -> Result<Report, Fault>
    ensures { Makes (work stages.Machine (Ok (next_from layout.now options.now machine.now))) result }
{
    match next_text(alloc, layout, machine, options.refused) {
        Ok(text) => Ok(Report {
            text: bytes_of(text),
            status: next_status(machine),
        }),
        Err(AllocError) => Err(Stage::Machine.missing()),
    }
}

/// The report of `next`.
#[tactic(auto, using(commands::proofs::WorksInTurn::turns))]
pub(crate) fn report_next(
    alloc: Global,
    options: &NextOptions,
    object: &Object,
    steps: &[u8],
) -> Result<Report, Fault>
    ensures { Makes (next_on options.now object.now steps.now) result }
{
    let steps = read_list(alloc, steps)?;
    let machine = machine_after(alloc, object, &steps)?;
    let report = next_from(alloc, object.layout(), options, &machine);
    drop(machine);
    report
}
