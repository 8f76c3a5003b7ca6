//! The report of a command, made of the bytes of its sources.
ghost use Rattle.std.specs.Prelude.{◌≡◌, Ok, IsOk};
ghost use Rattle.std.specs.String.{string_bytes};
ghost use Rattle.commands.specs.Serving.{MakesReport};
ghost use Rattle.commands.specs.Works.{Makes, work};
ghost use Rattle.commands.specs.declared.fault.Stage.TheVariants as stages;
ghost use Rattle.loader.specs.declared.version.Version.TheVariants.{Two};
ghost use Rattle.loader.specs.Spelling.{HasSpelling};
ghost use Rattle.jobs.specs.Answers.{command_of, MayMakeOn};
ghost use Rattle.jobs.specs.Reports.{asm_of, dis_of, IsSpelled};

use crate::closed_set::find_set;
use crate::form::print;
use crate::image_report::find_images;
use crate::laws::objects_are_disassembled;
use crate::lines::Lines;
use crate::next::report_next;
use crate::order::find_pair;
use crate::replay::find_schedule;
use crate::run::find_run;
use crate::trace::report_trace;
use commands::{Fault, Job, Report, Sources, Stage, Status, read_questions};
use isa::Object;
use litmus_text::write_litmus;
use loader::write_object;
use questions::Questioned;
use std::alloc::Global;

/// The bytes of a text.
pub(crate) fn bytes_of(text: String) -> Vec<u8>
    ensures { result.items ≡ string_bytes text }
{
    text.into_bytes()
}

/// The report that is an object file.
#[tactic(auto, unfolding(commands::specs::Works::Makes))]
fn spelled_report(alloc: Global, object: &Object) -> Result<Report, Fault>
    ensures report { Makes (work stages.Object (Ok (asm_of object.now))) result }
    ensures spelled { IsOk result → HasSpelling Two object.now }
{
    match write_object(alloc, object) {
        Ok(text) => Ok(Report {
            text,
            status: Status::Done,
        }),
        Err(_) => Err(Stage::Object.missing()),
    }
}

/// The report of `asm`.
fn report_asm(alloc: Global, object: &Object) -> Result<Report, Fault>
    ensures report { Makes (work stages.Object (Ok (asm_of object.now))) result }
    ensures again { IsOk result → IsSpelled object.now }
{
    objects_are_disassembled();
    spelled_report(alloc, object)
}

/// The report of `dis`: the written form of a program.
#[tactic(auto, unfolding(commands::specs::Works::Makes))]
fn report_dis(alloc: Global, object: &Object) -> Result<Report, Fault>
    ensures { Makes (work stages.Text (Ok (dis_of object.now))) result }
{
    match write_litmus(alloc, object) {
        Ok(text) => Ok(Report {
            text: bytes_of(text),
            status: Status::Done,
        }),
        Err(_) => Err(Stage::Text.missing()),
    }
}

/// The report of a command on a program that was read.
///
/// # Errors
///
/// Those of [`job`](crate::job), but for those of devices and of the program.
pub fn report_on(
    alloc: Global,
    job: &Job<'_>,
    program: &Questioned,
    steps: &[u8],
) -> Result<Report, Fault>
    ensures { MayMakeOn job.now program.now steps.now result }
{
    let object = &program.lined.object;
    let layout = object.layout();
    let lines = Lines {
        layout,
        lines: &program.lined.lines,
        names: false,
    };
    match job {
        Job::Run => {
            let found = find_run(alloc, object, steps);
            print(alloc, &lines, Stage::Machine, found)
        }
        Job::Asm => report_asm(alloc, object),
        Job::Dis => report_dis(alloc, object),
        Job::Images(options) => {
            let lines = Lines {
                layout,
                lines: &program.lined.lines,
                names: options.names,
            };
            let found = find_images(alloc, options, program, steps);
            print(alloc, &lines, Stage::Images, found)
        }
        Job::Set(options) => {
            let found = find_set(alloc, options, object, steps);
            print(alloc, &lines, Stage::Images, found)
        }
        Job::Law => {
            let found = find_pair(alloc, object, steps);
            print(alloc, &lines, Stage::Machine, found)
        }
        Job::Trace(_) => report_trace(alloc, object, steps),
        Job::Next(options) => report_next(alloc, options, object, steps),
        Job::Replay(options) => {
            let found = find_schedule(alloc, options, object, steps);
            print(alloc, &lines, Stage::Machine, found)
        }
    }
}

/// The report of a command, made of the bytes of its sources. Each reads the program first.
#[tactic(auto, using(crate::proofs::ReportsOfPrograms::of_programs), unfolding(crate::specs::Answers::command_of))]
pub(crate) fn command_report(
    alloc: Global,
    job: &Job<'_>,
    sources: &Sources,
) -> Result<Report, Fault>
    ensures { MakesReport (command_of job.now) (Ok sources.now) result }
{
    let program = read_questions(alloc, &sources.program)?;
    let report = report_on(alloc, job, &program, &sources.steps);
    drop(program);
    report
}
