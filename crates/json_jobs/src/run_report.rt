//! The report of `run` as JSON.
ghost use Rattle.std.specs.Prelude.{◌≡◌, IfOk, Ok, length, map};
ghost use Rattle.image_reasons.specs.Origins.{origins_of};
ghost use Rattle.machine.specs.Objects.{opening};
ghost use Rattle.machine.specs.Steps.{run_of};
ghost use Rattle.commands.specs.Works.{Makes, work};
ghost use Rattle.commands.specs.declared.fault.Stage.TheVariants as stages;
ghost use Rattle.json_jobs.specs.EndReports.{run_from, run_on};

use commands::{Fault, Report, Stage, load, read_list};
use image_reasons::origins_after;
use isa::Object;
use jobs::{Ran, status_of};
use json_texts::{SourceMap, run_value, value_report};
use litmus_text::TextLines;
use machine::Step;
use std::alloc::{AllocError, Global};

/// How a run of these steps ended.
#[tactic(auto, unfolding(commands::specs::Works::Makes))]
fn run_after(alloc: Global, object: &Object, steps: &[Step]) -> Result<Ran, Fault>
    ensures found { Makes (work stages.Machine (Ok (run_of steps.now (opening object.now)))) result }
    ensures named { IfOk result (λ ran. ran.state.shape ≡ map length object.now.layout) }
{
    let mut machine = load(alloc, object)?;
    let (accepted, refusal) = machine.run(steps);
    Ok(Ran {
        machine,
        accepted,
        refusal,
    })
}

/// The report of how a run of these steps ended.
fn run_report(
    alloc: Global,
    source: &SourceMap<'_>,
    object: &Object,
    steps: &[Step],
    ran: &Ran,
) -> Result<Report, AllocError>
    requires { ran.now.state.shape ≡ map length source.now.names }
    ensures { IfOk result (λ report. report ≡ run_from source.now (origins_of object.now steps.now) ran.now) }
{
    let origins = origins_after(alloc, object, steps)?;
    let view = ran.machine.view();
    let value = run_value(alloc, &view, source, &origins, ran.accepted, ran.refusal);
    drop(origins);
    value_report(alloc, &value?, status_of(ran.refusal))
}

/// The same, with the fault of what is missing for it.
#[tactic(auto, unfolding(commands::specs::Works::Makes))]
fn run_from(
    alloc: Global,
    source: &SourceMap<'_>,
    object: &Object,
    steps: &[Step],
    ran: &Ran,
) -> Result<Report, Fault>
    requires { ran.now.state.shape ≡ map length source.now.names }
    ensures { Makes (work stages.Machine (Ok (run_from source.now (origins_of object.now steps.now) ran.now))) result }
{
    match run_report(alloc, source, object, steps, ran) {
        Ok(report) => Ok(report),
        Err(AllocError) => Err(Stage::Machine.missing()),
    }
}

/// The report of `run`.
#[tactic(auto, using(commands::proofs::WorksInTurn::turns))]
pub(crate) fn report_run(
    alloc: Global,
    object: &Object,
    lines: &TextLines,
    steps: &[u8],
) -> Result<Report, Fault>
    ensures { Makes (run_on object.now lines.now steps.now) result }
{
    let steps = read_list(alloc, steps)?;
    let ran = run_after(alloc, object, &steps)?;
    let source = SourceMap {
        layout: object.layout(),
        lines,
    };
    let report = run_from(alloc, &source, object, &steps, &ran);
    drop(ran);
    report
}
