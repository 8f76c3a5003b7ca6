//! What is done for what the words ask for.
ghost use Rattle.std.specs.Prelude.{◌≡◌, IfErr, IfOk, Err, option_copied};
ghost use Rattle.commands.specs.Faults.{read_failed};
ghost use Rattle.workers.specs.Limits.{MayShare};
ghost use Rattle.commands.specs.Devices.{CanCountOneMore};
ghost use Rattle.commands.specs.Serving.{Serves, used};
ghost use Rattle.px86.specs.CommandLines.{AsksForThreads};
ghost use Rattle.thread_jobs.specs.ThreadReports.{live_command};
ghost use Rattle.px86.specs.Starts.{json_command, lines_command, task_command, CanCountSteps, ComeFrom, ConversesOnFile, Does, LacksSteps};

use crate::explanation::{KeptBytes, explain, explain_lack};
use crate::kept::Keeps;
use crate::outside::Outside;
use crate::progress::{Progress, Work};
use crate::request::{Form, Input, Request};
use crate::steps::Steps;
use commands::{Device, Failed, Fault, Sink, Source, Status, Task};
use explanations::Explanation;
use json_jobs::JsonReports;
use mend_jobs::{MendJob, Ways};
use std::alloc::{AllocError, Global};
use std::sync::Wait;
use std::thread::Threads;
use thread_jobs::{ReportsJournals, Resources, TextReports};
use workers::{Gate, OpenGate};

/// A stream is closed, or a file cannot be opened.
const READ_FAILED: Fault = Fault::Device(Device::Read);

/// Has so many threads make the steps on one machine, and writes the report in the form `F`. No gate hears of them.
fn share<F: ReportsJournals, R: Threads + Wait + Sync, P: Source, S: Source, W: Sink>(
    rt: &R,
    alloc: Global,
    threads: u64,
    program: &mut P,
    steps: &mut S,
    out: &mut W,
) -> Result<Status, Fault>
    requires threads { MayShare threads }
    requires program { CanCountOneMore (P.device program.old) }
    requires steps { CanCountOneMore (S.device steps.old) }
    requires out { CanCountOneMore (W.device out.old) }
    ensures { Serves (live_command F.journals threads) (used P.device program.old program.new)
        (used S.device steps.old steps.new) (used W.device out.old out.new) result }
{
    let ungated = Resources {
        rt,
        alloc,
        gate: OpenGate,
    };
    thread_jobs::share::<F, R, P, S, W, OpenGate>(ungated, threads as u32, program, steps, out)
}

/// Does a task on the program that one device gives, with the steps or the script that another gives, and writes its report in
/// lines; a mend is looked for in these ways. The gate hears of the schedules of a tally or of a hunt, and of the states that are explored.
fn do_on_devices<
    R: Threads + Wait + Sync,
    P: Source,
    S: Source,
    W: Sink,
    G: Gate + Send + Sync + Drop + 'static,
>(
    resources: Resources<'_, R, G>,
    ways: Ways,
    named: Option<&str>,
    task: &Task<'_>,
    program: &mut P,
    steps: &mut S,
    out: &mut W,
) -> Result<Status, Fault>
    requires threads { AsksForThreads task.now }
    requires program { CanCountOneMore (P.device program.old) }
    requires steps { CanCountOneMore (S.device steps.old) }
    requires out { CanCountOneMore (W.device out.old) }
    ensures { Serves (lines_command ways.moves (option_copied named.entry) task.now) (used P.device program.old program.new)
        (used S.device steps.old steps.new) (used W.device out.old out.new) result }
{
    let alloc = resources.alloc;
    match task {
        Task::Do(job) => jobs::job(alloc, job, program, steps, out),
        Task::Schedules(job) => {
            thread_jobs::work::<TextReports, R, P, S, W, G>(resources, job, program, steps, out)
        }
        Task::Live(threads) => {
            share::<TextReports, R, P, S, W>(resources.rt, alloc, *threads, program, steps, out)
        }
        Task::Debug => debug_scripts::debug(alloc, program, steps, out),
        Task::Check(options) => jobs::check(alloc, options, program, steps, out, &resources.gate),
        Task::Ask(options) => {
            jobs::ask(alloc, named, options, program, steps, out, &resources.gate)
        }
        Task::Outcomes(options) => {
            jobs::list_outcomes(alloc, options, program, steps, out, &resources.gate)
        }
        Task::Fences(options) => mend_jobs::fences::<mend_jobs::TextReports, R, P, S, W, G>(
            resources.rt,
            alloc,
            options,
            program,
            steps,
            out,
            &resources.gate,
        ),
        Task::Mend(options) => mend_jobs::mend::<mend_jobs::TextReports, R, P, S, W, G>(
            resources.rt,
            alloc,
            &MendJob {
                options: *options,
                ways,
            },
            program,
            steps,
            out,
            &resources.gate,
        ),
    }
}

/// The same, and the report is JSON, where the command has one.
fn do_as_json<
    R: Threads + Wait + Sync,
    P: Source,
    S: Source,
    W: Sink,
    G: Gate + Send + Sync + Drop + 'static,
>(
    resources: Resources<'_, R, G>,
    ways: Ways,
    named: Option<&str>,
    task: &Task<'_>,
    program: &mut P,
    steps: &mut S,
    out: &mut W,
) -> Result<Status, Fault>
    requires threads { AsksForThreads task.now }
    requires program { CanCountOneMore (P.device program.old) }
    requires steps { CanCountOneMore (S.device steps.old) }
    requires out { CanCountOneMore (W.device out.old) }
    ensures { Serves (json_command ways.moves (option_copied named.entry) task.now) (used P.device program.old program.new)
        (used S.device steps.old steps.new) (used W.device out.old out.new) result }
{
    let alloc = resources.alloc;
    match task {
        Task::Do(job) => json_jobs::job(alloc, job, program, steps, out),
        Task::Check(options) => {
            json_jobs::check(alloc, options, program, steps, out, &resources.gate)
        }
        Task::Ask(options) => {
            json_jobs::ask(alloc, named, options, program, steps, out, &resources.gate)
        }
        Task::Outcomes(options) => {
            json_jobs::list_outcomes(alloc, options, program, steps, out, &resources.gate)
        }
        Task::Fences(options) => mend_jobs::fences::<mend_jobs::JsonReports, R, P, S, W, G>(
            resources.rt,
            alloc,
            options,
            program,
            steps,
            out,
            &resources.gate,
        ),
        Task::Mend(options) => mend_jobs::mend::<mend_jobs::JsonReports, R, P, S, W, G>(
            resources.rt,
            alloc,
            &MendJob {
                options: *options,
                ways,
            },
            program,
            steps,
            out,
            &resources.gate,
        ),
        Task::Schedules(job) => {
            thread_jobs::work::<JsonReports, R, P, S, W, G>(resources, job, program, steps, out)
        }
        Task::Live(threads) => {
            share::<JsonReports, R, P, S, W>(resources.rt, alloc, *threads, program, steps, out)
        }
        Task::Debug => json_scripts::debug(alloc, program, steps, out),
    }
}

/// The same, and the report is written in this form.
fn do_in_form<
    R: Threads + Wait + Sync,
    P: Source,
    S: Source,
    W: Sink,
    G: Gate + Send + Sync + Drop + 'static,
>(
    resources: Resources<'_, R, G>,
    form: Form,
    ways: Ways,
    named: Option<&str>,
    task: &Task<'_>,
    program: &mut P,
    steps: &mut S,
    out: &mut W,
) -> Result<Status, Fault>
    requires threads { AsksForThreads task.now }
    requires program { CanCountOneMore (P.device program.old) }
    requires steps { CanCountOneMore (S.device steps.old) }
    requires out { CanCountOneMore (W.device out.old) }
    ensures { Serves (task_command form ways.moves (option_copied named.entry) task.now) (used P.device program.old program.new)
        (used S.device steps.old steps.new) (used W.device out.old out.new) result }
{
    match form {
        Form::Lines | Form::Gcc => do_on_devices(resources, ways, named, task, program, steps, out),
        Form::Json => do_as_json(resources, ways, named, task, program, steps, out),
    }
}

/// What lines of progress count: the schedules that a tally or a hunt runs, or the states that an exploration may tell apart, or
/// many explorations, or a search.
fn work_of(task: &Task<'_>) -> Work {
    match task {
        Task::Fences(options) => Work::Explorations(options.asked.states),
        Task::Mend(options) => Work::Search(options.asked.states),
        Task::Check(_) | Task::Ask(_) | Task::Outcomes(_) => Work::States,
        Task::Schedules(_) | Task::Do(_) | Task::Live(_) | Task::Debug => Work::Schedules,
    }
}

/// The gate that writes lines of progress, where they are asked for, and how far a check came that ended before its states did.
fn progress_of<O: Outside>(outside: &O, request: &Request<'_>) -> Progress<O::Errors, O::Time> {
    Progress::new(
        outside.errors(),
        request.progress,
        outside.clock(),
        work_of(&request.task),
    )
}

/// The steps, or the script, from where the words say.
///
/// # Errors
///
/// [`Failed`], where they name a file that cannot be opened.
fn open_steps<O: Outside>(
    outside: &O,
    input: Input<'_>,
    reads_input: bool,
    keeps: bool,
) -> Result<Steps<O::File, O::Standard>, Failed>
    requires streams { (O.world outside.now).HasStreams reads_input }
    ensures source { IfOk result (ComeFrom (O.world outside.now) input.entry) }
    ensures fresh { IfOk result (CanCountSteps O.File.device O.Standard.device) }
    ensures refused { IfErr result (λ _. LacksSteps (O.world outside.now) input.entry) }
{
    match input {
        Input::Standard => Ok(Steps::Standard(outside.input(keeps))),
        Input::File(name) => Ok(Steps::File(outside.open(name, reads_input, keeps)?)),
        Input::Nothing | Input::Console => Ok(Steps::Nothing),
    }
}

/// How a task ended.
#[derive(Drop)]
pub(crate) struct Ended {
    /// What it answered.
    pub answer: Result<Status, Fault>,
    /// What is said of that, where it is asked for; or memory for it ran out.
    pub explanation: Result<Explanation, AllocError>,
}

/// A task that was not begun, as a stream is closed or a file cannot be opened.
fn lacking<O: Outside>(outside: &O, alloc: Global, request: &Request<'_>, explains: bool) -> Ended
    ensures { result.answer ≡ Err read_failed }
{
    let explanation = if explains {
        explain_lack(outside, alloc, request)
    } else {
        Ok(Explanation::of_lines(String::new(alloc)))
    };
    Ended {
        answer: Err(READ_FAILED),
        explanation,
    }
}

/// A task that answered this, and what is said of that where it is asked for.
fn explained<O: Outside>(
    outside: &O,
    alloc: Global,
    request: &Request<'_>,
    kept: KeptBytes<'_, '_>,
    answer: Result<Status, Fault>,
    explains: bool,
) -> Ended
    ensures { result.answer ≡ answer }
{
    let explanation = if explains {
        explain(outside, alloc, request, kept, answer)
    } else {
        Ok(Explanation::of_lines(String::new(alloc)))
    };
    Ended {
        answer,
        explanation,
    }
}

/// Has a conversation at the console about the program of a file of which nothing was read. Where it is asked for, what is answered
/// is explained.
fn converse<O: Outside>(
    outside: &O,
    alloc: Global,
    request: &Request<'_>,
    mut program: O::File,
    explains: bool,
) -> Ended
    requires file { (O.world outside.now).IsFile request.now.file.now program }
    requires fresh { CanCountOneMore (O.File.device program) }
    ensures { ConversesOnFile (O.world outside.now) request.now result.answer }
{
    let mut console = outside.console();
    let answer = conversations::converse(alloc, &mut program, &mut console);
    let kept = KeptBytes {
        program: program.kept(),
        steps: Some(&[]),
    };
    explained(outside, alloc, request, kept, answer, explains)
}

/// Does what a request asks for, on the file that it names and with the steps from where it says. Where it is asked for, what is
/// answered is explained.
///
/// It answers F1 where a standard stream of the task is closed, and no file is opened then, or where a
/// file cannot be opened; otherwise what the command answers.
pub(crate) fn do_task<R: Threads + Wait + Sync, O: Outside, W: Sink>(
    rt: &R,
    outside: &O,
    alloc: Global,
    request: &Request<'_>,
    explains: bool,
    out: &mut W,
) -> Ended
    requires threads { AsksForThreads request.now.task }
    requires out { CanCountOneMore (W.device out.old) }
    ensures { Does (O.world outside.now) request.now (used W.device out.old out.new) result.answer }
{
    let reads_input = request.input.reads_standard();
    if !outside.streams_are_open(reads_input) {
        return lacking(outside, alloc, request, explains);
    }
    let Ok(mut program) = outside.open(request.file, reads_input, explains) else {
        return lacking(outside, alloc, request, explains);
    };
    if request.input.is_console() {
        return converse(outside, alloc, request, program, explains);
    }
    let Ok(mut steps) = open_steps(outside, request.input, reads_input, explains) else {
        return lacking(outside, alloc, request, explains);
    };
    let resources = Resources {
        rt,
        alloc,
        gate: progress_of(outside, request),
    };
    let form = request.form;
    let answer = do_in_form(
        resources,
        form,
        request.ways,
        request.named,
        &request.task,
        &mut program,
        &mut steps,
        out,
    );
    let kept = KeptBytes {
        program: program.kept(),
        steps: steps.kept(),
    };
    explained(outside, alloc, request, kept, answer, explains)
}
