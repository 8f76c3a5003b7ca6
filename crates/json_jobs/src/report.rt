//! The report of a command as JSON, made of the bytes of its sources.
ghost use Rattle.std.specs.Prelude.{IsOk, Ok};
ghost use Rattle.commands.specs.Serving.{MakesReport};
ghost use Rattle.commands.specs.Works.{Makes};
ghost use Rattle.json_jobs.specs.JsonAnswers.{json_command_of, json_on, IsExact};

use crate::json::Json;
use crate::next_report::report_next;
use crate::run_report::report_run;
use crate::trace_report::report_trace;
use commands::{Fault, Job, Report, Sources, Stage, read_questions};
use jobs::{find_images, find_pair, find_schedule, find_set, print, report_on};
use json_texts::SourceMap;
use questions::Questioned;
use std::alloc::Global;

/// The report of a command as JSON, on a program that was read; of one that has none, its report.
fn json_on(
    alloc: Global,
    job: &Job<'_>,
    program: &Questioned,
    steps: &[u8],
) -> Result<Report, Fault>
    ensures report { Makes (json_on job.now program.now steps.now) result }
    ensures exact { IsOk result → IsExact job.now program.now steps.now }
{
    let object = &program.lined.object;
    let lines = &program.lined.lines;
    let json = Json {
        source: SourceMap {
            layout: object.layout(),
            lines,
        },
    };
    match job {
        Job::Run => report_run(alloc, object, lines, steps),
        Job::Images(options) => {
            let found = find_images(alloc, options, program, steps);
            print(alloc, &json, Stage::Images, found)
        }
        Job::Set(options) => {
            let found = find_set(alloc, options, object, steps);
            print(alloc, &json, Stage::Images, found)
        }
        Job::Law => {
            let found = find_pair(alloc, object, steps);
            print(alloc, &json, Stage::Machine, found)
        }
        Job::Trace(options) => report_trace(alloc, options, object, lines, steps),
        Job::Next(options) => report_next(alloc, options, object, lines, steps),
        Job::Replay(options) => {
            let found = find_schedule(alloc, options, object, steps);
            print(alloc, &json, Stage::Machine, found)
        }
        Job::Asm => report_on(alloc, job, program, steps),
        Job::Dis => report_on(alloc, job, program, steps),
    }
}

/// The report of a command as JSON.
#[tactic(auto, unfolding(crate::specs::JsonAnswers::json_command_of))]
pub(crate) fn json_report(alloc: Global, job: &Job<'_>, sources: &Sources) -> Result<Report, Fault>
    ensures { MakesReport (json_command_of job.now) (Ok sources.now) result }
{
    let program = read_questions(alloc, &sources.program)?;
    let report = json_on(alloc, job, &program, &sources.steps);
    drop(program);
    report
}
