//! What the words of the command line ask for.
ghost use Rattle.std.specs.Prelude.{◌≡◌, ◌≢◌, [], map, codes, Some, IfOk, IfErr, IfSome, OnOk, option_copied, option_map};
ghost use Rattle.std.specs.List.{list_any};
ghost use Rattle.std.specs.String.{string_bytes};
ghost use Rattle.clap.specs.Simple.{subcommand_rows_of};
ghost use Rattle.clap.specs.Words.{fault_of, first_of, found_of, rows_of, HasMatchesOf};
ghost use Rattle.px86.specs.Commands.{command_line};
ghost use Rattle.px86.specs.CommandLines.{declined_of, has_question, has_value, is_explain, form_of, entered_files, is_given, Asks, AsksFor, AsksIn, Finds, HasFiles, HasForm, HasFormIn, HasMoves, HasMovesIn, HasProgress, HasProgressIn, IsCheckInput, IsDebugTask, IsDeclinedFor, IsInput, IsInputOf, IsRefusedFor, IsScript, IsTaskOf};
ghost use Rattle.px86.specs.Starts.{is_console, is_standard, name_if};
ghost use Rattle.px86.specs.declared.request.Declined.TheVariants.{NoMemory};

use crate::arguments::command_line;
use crate::asked_runs::{fences_options, mend_options};
use crate::command::{Command, Reads};
use crate::options::{
    check_task, files_of, first_file, has_question, has_value, hunt_options, images_job, is_given,
    lacks_format, live_count, next_options, outcomes_options, replay_options, talks_in_json,
    tally_job, trace_options, value, worker_count,
};
use clap::error::ErrorKind;
use clap::{ArgMatches, Error};
use commands::{Job, ScheduleJob, Task};
use mend_jobs::Ways;
use std::alloc::{AllocError, Global};

/// Why no command is to be done.
#[derive(Debug, Drop)]
pub enum Declined {
    /// The command line is not understood.
    Usage,
    /// Help or the version is asked for.
    Shown(Error),
    /// Memory was refused.
    NoMemory,
}

impl From<Error> for Declined {
    ghost from_gives = { λ error declined. declined ≡ declined_of error };

    fn from(error: Error) -> Declined {
        match error.kind() {
            ErrorKind::DisplayHelp | ErrorKind::DisplayVersion => Declined::Shown(error),
            ErrorKind::OutOfMemory => Declined::NoMemory,
            _ => Declined::Usage,
        }
    }
}

impl From<AllocError> for Declined {
    ghost from_gives = { λ _ declined. declined ≡ NoMemory };

    fn from(_error: AllocError) -> Declined {
        Declined::NoMemory
    }
}

/// What the command line's words say. They begin with the program's name.
fn parse<'a>(alloc: Global, words: &'a [String]) -> Result<ArgMatches<'a>, Declined>
    ensures whole { OnOk result (fault_of command_line (map string_bytes words.entry.now) ≡ []) }
    ensures matches { IfOk result (HasMatchesOf command_line (map string_bytes words.entry.now)) }
    ensures declined { IfErr result (IsDeclinedFor (map string_bytes words.entry.now)) }
{
    let command = command_line(alloc)?;
    Ok(command.try_get_matches_from(words)?)
}

/// Where the steps of a command come from, or its script.
#[derive(Clone, Copy, Debug)]
pub enum Input<'a> {
    /// From the standard input.
    Standard,
    /// `--steps FILE`: from the file of this name.
    File(&'a str),
    /// From nowhere: `--no-steps` is given, or the command has none.
    Nothing,
    /// `--interactive`: line by line from the standard input, and each is answered before the next is read.
    Console,
}

impl Input<'_> {
    /// Whether the standard input is read.
    pub fn reads_standard(self) -> bool
        ensures { result ≡ is_standard self.entry }
    {
        matches!(self, Input::Standard | Input::Console)
    }

    /// Whether lines are answered one by one.
    pub fn is_console(self) -> bool
        ensures { result ≡ is_console self.entry }
    {
        matches!(self, Input::Console)
    }
}

/// How a report is written, and a fault.
#[derive(Clone, Copy, Debug, PartialEq, Eq)]
pub enum Form {
    /// In lines.
    Lines,
    /// `--json`: as a JSON object.
    Json,
    /// `--format gcc`: in lines, and a fault of the text with its place, as compilers write it.
    Gcc,
}

/// What the words of the command line ask for: a command, its file, where its steps come from, and how its report is written.
#[derive(Clone, Copy, Debug)]
pub struct Request<'a> {
    /// The command, with its options.
    pub task: Task<'a>,
    /// The name of the file that holds the program.
    pub file: &'a str,
    /// The same, where it is one of several: its report then begins with it.
    pub named: Option<&'a str>,
    /// Where the steps or the script come from; from nowhere, where the command has none.
    pub input: Input<'a>,
    /// `--moves` and `--workers`: how a mend is looked for.
    pub ways: Ways,
    /// `--progress`: lines of progress are written, on standard error.
    pub progress: bool,
    /// `--json`, `--format`: how the report is written, and a fault.
    pub form: Form,
}

/// What the words of the command line ask for, on one file or on several.
#[derive(Debug, Drop)]
pub struct Requests<'a> {
    /// What is asked for, on the first file.
    pub first: Request<'a>,
    /// The names of all files, in their order.
    pub files: Vec<&'a str>,
}

impl<'a> Request<'a> {
    /// The same on a file that is one of several, or the only one.
    pub fn of_file(&self, file: &'a str, several: bool) -> Request<'a>
        ensures file { result.file.now ≡ file.now }
        ensures named { option_copied result.named ≡ name_if several file.now }
        ensures task { result.task ≡ self.now.task }
        ensures input { result.input ≡ self.now.input }
        ensures moves { result.ways.moves ≡ self.now.ways.moves }
        ensures form { result.form ≡ self.now.form }
    {
        Request {
            task: self.task,
            file,
            named: if several { Some(file) } else { None },
            input: self.input,
            ways: self.ways,
            progress: self.progress,
            form: self.form,
        }
    }
}

/// How a report is written, and a fault, where `--json` and `--format` are given or are not.
fn form_of(json: bool, format: bool) -> Form
    ensures { result ≡ form_of json format }
{
    if json {
        Form::Json
    } else if format {
        Form::Gcc
    } else {
        Form::Lines
    }
}

/// How a mend is looked for: by one worker, where it is not told by how many.
fn ways_of(matches: &ArgMatches<'_>) -> Ways
    ensures { result.moves ≡ is_given (codes "moves") (rows_of (found_of matches.now)) }
{
    Ways {
        moves: is_given(matches, "moves"),
        workers: worker_count(matches).unwrap_or(1),
    }
}

/// What `debug` is asked, where it is not asked for a conversation in JSON.
fn debug_task<'a>(matches: &ArgMatches<'a>) -> Option<Task<'a>>
    ensures { Finds (IsDebugTask (rows_of (found_of matches.now))) result }
{
    if talks_in_json(matches) {
        return None;
    }
    Some(Task::Debug)
}

/// What a command is asked, with the options that a parse found.
fn task_of<'a>(command: Command, matches: &ArgMatches<'a>) -> Option<Task<'a>>
    ensures { Finds (IsTaskOf command (rows_of (found_of matches.now))) result }
{
    match command {
        Command::Asm => Some(Task::Do(Job::Asm)),
        Command::Dis => Some(Task::Do(Job::Dis)),
        Command::Run => Some(Task::Do(Job::Run)),
        Command::Next => Some(Task::Do(Job::Next(next_options(matches)?))),
        Command::Trace => Some(Task::Do(Job::Trace(trace_options(matches)?))),
        Command::Law => Some(Task::Do(Job::Law)),
        Command::Debug => debug_task(matches),
        Command::Images => Some(Task::Do(images_job(matches)?)),
        Command::Replay => Some(Task::Do(Job::Replay(replay_options(matches)?))),
        Command::Check => check_task(matches),
        Command::Outcomes => Some(Task::Outcomes(outcomes_options(matches)?)),
        Command::Tally => Some(Task::Schedules(tally_job(matches)?)),
        Command::Hunt => Some(Task::Schedules(ScheduleJob::Hunt(hunt_options(matches)?))),
        Command::Fences => Some(Task::Fences(fences_options(matches)?)),
        Command::Mend => Some(Task::Mend(mend_options(matches)?)),
        Command::Live => Some(Task::Live(live_count(matches)?)),
    }
}

/// Where steps come from, by `--steps` and `--no-steps`; both are not given.
fn input_given<'a>(matches: &ArgMatches<'a>) -> Option<Input<'a>>
    ensures { Finds (IsInput (first_of (codes "steps") (rows_of (found_of matches.now)))
        (is_given (codes "no-steps") (rows_of (found_of matches.now)))) result }
{
    match (value(matches, "steps"), is_given(matches, "no-steps")) {
        (None, false) => Some(Input::Standard),
        (Some(name), false) => Some(Input::File(name)),
        (None, true) => Some(Input::Nothing),
        (Some(_), true) => None,
    }
}

/// Where the steps of `check` come from: where the questions of the program are asked, the standard input is not read.
fn check_input<'a>(matches: &ArgMatches<'a>) -> Option<Input<'a>>
    ensures { Finds (IsCheckInput (has_question (rows_of (found_of matches.now)))
        (first_of (codes "steps") (rows_of (found_of matches.now)))
        (is_given (codes "no-steps") (rows_of (found_of matches.now)))) result }
{
    if has_question(matches) {
        return input_given(matches);
    }
    match value(matches, "steps") {
        None => Some(Input::Nothing),
        Some(_) => input_given(matches),
    }
}

/// Where a script comes from, by `--interactive`, `--steps` and `--no-steps`; no two of them are given.
fn script_given<'a>(matches: &ArgMatches<'a>) -> Option<Input<'a>>
    ensures { Finds (IsScript (is_given (codes "interactive") (rows_of (found_of matches.now)))
        (first_of (codes "steps") (rows_of (found_of matches.now)))
        (is_given (codes "no-steps") (rows_of (found_of matches.now)))) result }
{
    if !is_given(matches, "interactive") {
        return input_given(matches);
    }
    match (value(matches, "steps"), is_given(matches, "no-steps")) {
        (None, false) => Some(Input::Console),
        _ => None,
    }
}

/// Where a parse found that a command's steps come from.
fn input_of<'a>(reads: Reads, matches: &ArgMatches<'a>) -> Option<Input<'a>>
    ensures { Finds (IsInputOf reads (rows_of (found_of matches.now))) result }
{
    match reads {
        Reads::Nothing => Some(Input::Nothing),
        Reads::Steps => input_given(matches),
        Reads::Asked => check_input(matches),
        Reads::Script => script_given(matches),
    }
}

/// What a parse of a command found that it asks for, on the first of its files.
fn request_for<'a>(command: Command, matches: &ArgMatches<'a>) -> Option<Request<'a>>
    ensures asked { Finds (λ (request : Request).
        Asks (Some command) (rows_of (found_of matches.now)) request.task
        request.file.now request.input) result }
    ensures moves { IfSome result (λ request. request.ways.moves
        ≡ is_given (codes "moves") (rows_of (found_of matches.now))) }
    ensures progress { IfSome result (λ request. request.progress
        ≡ is_given (codes "progress") (rows_of (found_of matches.now))) }
    ensures form { IfSome result (λ request. request.form
        ≡ form_of (is_given (codes "json") (rows_of (found_of matches.now)))
        (has_value (codes "format") (rows_of (found_of matches.now)))) }
{
    if lacks_format(matches) {
        return None;
    }
    let task = task_of(command, matches)?;
    let file = first_file(matches)?;
    let input = input_of(command.row().reads, matches)?;
    Some(Request {
        task,
        file,
        named: None,
        input,
        ways: ways_of(matches),
        progress: is_given(matches, "progress"),
        form: form_of(is_given(matches, "json"), has_value(matches, "format")),
    })
}

/// The command that a parse entered, with its first file and its input.
fn request_in<'a>(matches: &ArgMatches<'a>) -> Option<Request<'a>>
    ensures asked { Finds (λ (request : Request). AsksIn (subcommand_rows_of matches.now)
        request.task request.file.now request.input) result }
    ensures moves { IfSome result (λ request.
        HasMovesIn (subcommand_rows_of matches.now) request.ways.moves) }
    ensures progress { IfSome result (λ request.
        HasProgressIn (subcommand_rows_of matches.now) request.progress) }
    ensures form { IfSome result (λ request.
        HasFormIn (subcommand_rows_of matches.now) request.form) }
{
    let (name, matches) = matches.subcommand()?;
    request_for(Command::named(name)?, matches)
}

/// The files of the command that a parse entered.
fn entered_files<'a>(alloc: Global, matches: &ArgMatches<'a>) -> Result<Vec<&'a str>, AllocError>
    ensures { IfOk result (λ files. map (λ file. file.now) files.items ≡ entered_files (subcommand_rows_of matches.now)) }
{
    match matches.subcommand() {
        Some((_, matches)) => files_of(alloc, matches),
        None => Ok(Vec::new(alloc)),
    }
}

/// The request of the command that a parse entered, and the names of its files.
fn requests_in<'a>(
    alloc: Global,
    matches: &ArgMatches<'a>,
) -> Result<Option<Requests<'a>>, AllocError>
    ensures asked { IfOk result (λ found. Finds (λ (request : Request).
        AsksIn (subcommand_rows_of matches.now) request.task request.file.now request.input)
        (option_map (λ requests. requests.first) found)) }
    ensures files { IfOk result (λ found. IfSome found (λ requests.
        map (λ file. file.now) requests.files.items ≡ entered_files (subcommand_rows_of matches.now))) }
    ensures moves { IfOk result (λ found. IfSome found (λ requests.
        HasMovesIn (subcommand_rows_of matches.now) requests.first.ways.moves)) }
    ensures progress { IfOk result (λ found. IfSome found (λ requests.
        HasProgressIn (subcommand_rows_of matches.now) requests.first.progress)) }
    ensures form { IfOk result (λ found. IfSome found (λ requests.
        HasFormIn (subcommand_rows_of matches.now) requests.first.form)) }
{
    match request_in(matches) {
        None => Ok(None),
        Some(first) => {
            let files = entered_files(alloc, matches)?;
            Ok(Some(Requests { first, files }))
        }
    }
}

/// Whether a word is `--explain`.
fn is_explain(word: &String) -> bool
    ensures { result ≡ is_explain (string_bytes word.now) }
{
    word.as_str() == "--explain"
}

/// Whether one of the words is `--explain`. It is asked of words that are not understood too.
pub fn has_explain(words: &[String]) -> bool
    ensures { result ≡ list_any (λ word. is_explain (string_bytes word)) words.now }
{
    words.iter().any(|word| is_explain(word))
}

/// How faults are written: as JSON objects, where one of the words is `--json`. It is asked of words that are not understood
/// too.
pub fn form_in(words: &[String]) -> Form {
    form_of(words.iter().any(|word| word.as_str() == "--json"), false)
}

/// What the words of the command line ask for. They begin with the program's name.
pub fn request_of<'a>(alloc: Global, words: &'a [String]) -> Result<Requests<'a>, Declined>
    ensures whole { OnOk result (fault_of command_line (map string_bytes words.entry.now) ≡ []) }
    ensures asked { IfOk result (λ requests. AsksFor (map string_bytes words.entry.now)
        requests.first.task requests.first.file.now requests.first.input) }
    ensures files { IfOk result (λ requests.
        HasFiles (map string_bytes words.entry.now) (map (λ file. file.now) requests.files.items)) }
    ensures moves { IfOk result (λ requests.
        HasMoves (map string_bytes words.entry.now) requests.first.ways.moves) }
    ensures progress { IfOk result (λ requests.
        HasProgress (map string_bytes words.entry.now) requests.first.progress) }
    ensures form { IfOk result (λ requests.
        HasForm (map string_bytes words.entry.now) requests.first.form) }
    ensures refused { IfErr result (IsRefusedFor (map string_bytes words.entry.now)) }
    ensures declined { IfErr result (λ declined.
        fault_of command_line (map string_bytes words.entry.now) ≢ []
        → IsDeclinedFor (map string_bytes words.entry.now) declined) }
{
    let matches = parse(alloc, words)?;
    let requests = requests_in(alloc, &matches);
    drop(matches);
    requests?.ok_or(Declined::Usage)
}
