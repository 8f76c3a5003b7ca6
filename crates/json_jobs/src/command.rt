//! A whole command: its sources are read, the report is made of their bytes, and it is written.
ghost use Rattle.commands.specs.Devices.{CanCountOneMore};
ghost use Rattle.commands.specs.Serving.{Serves, used};
ghost use Rattle.json_jobs.specs.JsonAnswers.{json_command_of};

use crate::report::json_report;
use commands::{Fault, Job, Sink, Source, Status, read_sources, write_report};
use std::alloc::Global;

/// Does a job, and writes its report as JSON: reads the program, and then the steps where the command makes steps, to their
/// ends, makes the report of all their bytes, and then writes it. `asm` and `dis` write what they write without JSON.
///
/// # Errors
///
/// Those of [`jobs::job`].
#[tactic(auto, using(commands::proofs::ServedCommands::served), unfolding(crate::specs::JsonAnswers::json_command_of))]
pub fn job<P: Source, S: Source, W: Sink>(
    alloc: Global,
    job: &Job<'_>,
    program: &mut P,
    steps: &mut S,
    out: &mut W,
) -> Result<Status, Fault>
    requires program { CanCountOneMore (P.device program.old) }
    requires steps { CanCountOneMore (S.device steps.old) }
    requires out { CanCountOneMore (W.device out.old) }
    ensures { Serves (json_command_of job.now) (used P.device program.old program.new) (used S.device steps.old steps.new) (used W.device out.old out.new) result }
{
    let sources = read_sources(alloc, job.reads_steps(), program, steps)?;
    let report = json_report(alloc, job, &sources)?;
    write_report(out, &report)
}
