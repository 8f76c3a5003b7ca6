//! What a parse found of the options of a command.
ghost use Rattle.std.specs.Prelude.{◌≡◌, ◌^◌, ℕ, true, Contains, IfOk, IfSome, List, None, map, option_copied};
ghost use Rattle.std.specs.List.{starts_with};
ghost use Rattle.std.specs.Prelude.{codes, nat_eq};
ghost use Rattle.clap.specs.Words.{first_of, found_of, rows_of};
ghost use Rattle.px86.specs.CommandLines.{asks_beyond, asks_beyond_lazy, asks_ends, asks_of_all, asks_persisted, default_length, default_states, files_in, has_condition, has_question, has_several, has_value, is_given, lacks_condition, lacks_format, lacks_image, lacks_recovery, lacks_states, millions_of, needs_condition, talks_in_json, AreCheckOptions, AreHuntOptions, AreNextOptions, AreOptions, AreOutcomesOptions, AreQuestionOptions, AreSchedules, AreTraceOptions, Finds, IsCheckTask, IsCountOr, IsDemand, IsImagesJob, IsNumberIfAny, IsNumberOr, IsPlan, IsSchedule, IsSiteIfAny, IsTallyJob, IsThreadCount, IsThreadCountOr, IsWorkerCount, Spells, SpellsCount};

use crate::command::{
    CRASH_AFTER, CommandOption, FIRST, LENGTH, MENDERS, NUMBER, RUNS, SEED, STATES, THREADS,
    WORKERS,
};
use clap::ArgMatches;
use commands::{
    AskedSite, CheckOptions, Demand, EndsOptions, HuntOptions, ImagesOptions, Job, LossesOptions,
    NextOptions, OutcomesOptions, QuestionOptions, ReplayOptions, ScheduleJob, SetOptions,
    TallyOptions, Task, TraceOptions, site_named,
};
use schedule::Plan;
use std::alloc::{AllocError, Global};
use workers::MAX_SEATS;

/// How many turns a schedule has at most, where every turn is asked about, or an end to which it comes, and no option says so.
const LENGTH_BY_TURNS: u32 = 1_000;

/// How many turns a schedule has at most otherwise, where no option says so.
const LENGTH_BY_ENDS: u32 = 100;

/// What an `M` behind a number stands for.
const MILLION: u64 = 1_000_000;

/// Whether a flag is given.
pub(crate) fn is_given(matches: &ArgMatches<'_>, name: &str) -> bool
    ensures { result ≡ is_given name.now (rows_of (found_of matches.now)) }
{
    matches.get_one::<bool>(name).unwrap_or(false)
}

/// The value of an option or an argument, if it is given.
pub(crate) fn value<'a>(matches: &ArgMatches<'a>, name: &str) -> Option<&'a str>
    ensures { first_of name.now (rows_of (found_of matches.now)) ≡ option_copied result }
{
    matches.get_str(name)
}

/// The files that are given.
///
/// # Errors
///
/// Out of memory.
pub(crate) fn files_of<'a>(
    alloc: Global,
    matches: &ArgMatches<'a>,
) -> Result<Vec<&'a str>, AllocError>
    ensures { IfOk result (λ files. map (λ file. file.now) files.items ≡ files_in (rows_of (found_of matches.now))) }
{
    match matches.get_strs("FILE") {
        Some(files) => files.to_vec(alloc),
        None => Ok(Vec::new(alloc)),
    }
}

/// The first of them, if there is one.
pub(crate) fn first_file<'a>(matches: &ArgMatches<'a>) -> Option<&'a str>
    ensures some { IfSome result (λ file. Contains (files_in (rows_of (found_of matches.now))) file.now) }
    ensures none { result ≡ None → (file : List ℕ) → Contains (files_in (rows_of (found_of matches.now))) file → ⊥ }
{
    value(matches, "FILE")
}

/// Whether several are given.
pub(crate) fn has_several(matches: &ArgMatches<'_>) -> bool
    ensures { result ≡ has_several (rows_of (found_of matches.now)) }
{
    match matches.get_strs("FILE") {
        Some(files) => 1 < files.len(),
        None => false,
    }
}

/// Whether an option has a value.
pub(crate) fn has_value(matches: &ArgMatches<'_>, name: &str) -> bool
    ensures { result ≡ has_value name.now (rows_of (found_of matches.now)) }
{
    value(matches, name).is_some()
}

/// Whether a text begins with a plus, which no number of an option does.
fn has_plus(text: &str) -> bool
    ensures { result ≡ starts_with nat_eq text.now (codes "+") }
{
    text.as_bytes().starts_with(b"+")
}

/// The number below 2^64 that a text spells, in decimal digits alone.
#[tactic(auto, using(crate::proofs::Numbers::no_number, crate::proofs::Numbers::no_plus))]
pub(crate) fn number(text: &str) -> Option<u64>
    ensures { Finds (Spells (2 ^ 64) text.now) result }
{
    if has_plus(text) {
        None
    } else {
        text.parse::<u64>().ok()
    }
}

/// So many millions, if these are below 2^64.
fn millions(count: Option<u64>) -> Option<u64>
    ensures { result ≡ millions_of (2 ^ 64) count }
{
    match count {
        Some(count) => count.checked_mul(MILLION),
        None => None,
    }
}

/// The count below 2^64 that a text spells: a number, or a number of millions and an `M` behind it.
pub(crate) fn count(text: &str) -> Option<u64>
    ensures { Finds (SpellsCount (2 ^ 64) text.now) result }
{
    match text.strip_suffix('M') {
        Some(digits) => millions(number(digits)),
        None => number(text),
    }
}

/// The same of numbers below 2^32.
#[tactic(auto, using(crate::proofs::Numbers::no_number, crate::proofs::Numbers::no_plus))]
pub(crate) fn small_number(text: &str) -> Option<u32>
    ensures { Finds (Spells (2 ^ 32) text.now) result }
{
    if has_plus(text) {
        None
    } else {
        text.parse::<u32>().ok()
    }
}

/// The number of an option, or that of its row where it is left out.
fn number_of(matches: &ArgMatches<'_>, asked: CommandOption) -> Option<u64>
    ensures { Finds (IsNumberOr (2 ^ 64) asked.default
        (first_of asked.name.now (rows_of (found_of matches.now)))) result }
{
    match value(matches, asked.name) {
        Some(text) => number(text),
        None => Some(asked.default),
    }
}

/// The count of an option, or that of its row where it is left out.
fn count_of(matches: &ArgMatches<'_>, asked: CommandOption) -> Option<u64>
    ensures { Finds (IsCountOr (2 ^ 64) asked.default
        (first_of asked.name.now (rows_of (found_of matches.now)))) result }
{
    match value(matches, asked.name) {
        Some(text) => count(text),
        None => Some(asked.default),
    }
}

/// How many states are told apart at most.
pub(crate) fn states_of(matches: &ArgMatches<'_>) -> Option<u64>
    ensures { Finds (IsCountOr (2 ^ 64) default_states
        (first_of (codes "states") (rows_of (found_of matches.now)))) result }
{
    count_of(matches, STATES)
}

/// The number below 2^32 of an option, where it is given.
fn small_number_of(matches: &ArgMatches<'_>, name: &str) -> Option<Option<u32>>
    ensures { Finds (IsNumberIfAny (2 ^ 32)
        (first_of name.now (rows_of (found_of matches.now)))) result }
{
    match value(matches, name) {
        Some(text) => Some(Some(small_number(text)?)),
        None => Some(None),
    }
}

/// How many threads an option names, 1 to [`MAX_SEATS`]; as many as its row says where it is left out.
fn thread_count(matches: &ArgMatches<'_>, asked: CommandOption) -> Option<u64>
    ensures { Finds (IsThreadCountOr asked.default
        (first_of asked.name.now (rows_of (found_of matches.now)))) result }
{
    let count = number_of(matches, asked)?;
    if 0 < count && count <= MAX_SEATS {
        Some(count)
    } else {
        None
    }
}

/// How many threads `--workers` of `hunt` names.
fn hunter_count(matches: &ArgMatches<'_>) -> Option<u64>
    ensures { Finds (IsThreadCount (first_of (codes "workers") (rows_of (found_of matches.now)))) result }
{
    thread_count(matches, WORKERS)
}

/// How many threads `--workers` of `mend` names.
pub(crate) fn worker_count(matches: &ArgMatches<'_>) -> Option<u64>
    ensures { Finds (IsWorkerCount (first_of (codes "workers") (rows_of (found_of matches.now)))) result }
{
    thread_count(matches, MENDERS)
}

/// How many threads `--threads` of `live` names.
pub(crate) fn live_count(matches: &ArgMatches<'_>) -> Option<u64>
    ensures { Finds (IsThreadCount (first_of (codes "threads") (rows_of (found_of matches.now)))) result }
{
    thread_count(matches, THREADS)
}

/// How many turns a schedule has at most, where `--length` is left out.
fn default_length(matches: &ArgMatches<'_>) -> u32
    ensures { result ≡ default_length (rows_of (found_of matches.now)) }
{
    if has_condition(matches) {
        LENGTH_BY_TURNS
    } else {
        LENGTH_BY_ENDS
    }
}

/// Whether a condition on ends is given.
pub(crate) fn asks_ends(matches: &ArgMatches<'_>) -> bool
    ensures { result ≡ asks_ends (rows_of (found_of matches.now)) }
{
    let ends = has_value(matches, "ends");
    let recovered = has_value(matches, "recovered");
    ends || recovered
}

/// Whether an option is given that asks for what has persisted.
fn asks_persisted(matches: &ArgMatches<'_>) -> bool
    ensures { result ≡ asks_persisted (rows_of (found_of matches.now)) }
{
    let crashes = has_value(matches, "crash-after");
    let last = has_value(matches, "cond");
    let ends = asks_ends(matches);
    crashes || last || ends
}

/// Whether `--lazy` is given, and an option that asks for what has persisted.
fn asks_beyond_lazy(matches: &ArgMatches<'_>) -> bool
    ensures { result ≡ asks_beyond_lazy (rows_of (found_of matches.now)) }
{
    let lazy = is_given(matches, "lazy");
    let persisted = asks_persisted(matches);
    lazy && persisted
}

/// The plan of schedules that a parse found, if nothing is asked that a lazy one does not have.
fn plan_of(matches: &ArgMatches<'_>) -> Option<Plan>
    ensures { Finds (IsPlan (rows_of (found_of matches.now))) result }
{
    let seed = number_of(matches, SEED)?;
    let length = small_number_of(matches, LENGTH.name)?;
    let crash_after = small_number_of(matches, CRASH_AFTER.name)?;
    if asks_beyond_lazy(matches) {
        return None;
    }
    Some(Plan {
        seed,
        length: length.unwrap_or(default_length(matches)),
        crash_after,
        lazy: is_given(matches, "lazy"),
    })
}

/// The plan that a parse found, the first of its schedules that is run, and how many are.
fn schedules_of(matches: &ArgMatches<'_>) -> Option<TallyOptions>
    ensures { Finds (AreSchedules (rows_of (found_of matches.now))) result }
{
    let plan = plan_of(matches)?;
    let first = number_of(matches, FIRST)?;
    let runs = number_of(matches, RUNS)?;
    Some(TallyOptions { plan, first, runs })
}

/// Whether `images` is asked for more than what leaves one image.
fn asks_of_all(matches: &ArgMatches<'_>) -> bool
    ensures { result ≡ asks_of_all (rows_of (found_of matches.now)) }
{
    let count = is_given(matches, "count");
    let names = is_given(matches, "names");
    let all = has_value(matches, "all");
    let some = has_value(matches, "some");
    count || names || all || some
}

/// Whether `--format` names no form of faults, or stands beside `--json`.
pub(crate) fn lacks_format(matches: &ArgMatches<'_>) -> bool
    ensures { result ≡ lacks_format (rows_of (found_of matches.now)) }
{
    match value(matches, "format") {
        None => false,
        Some(format) => format != "gcc" || is_given(matches, "json"),
    }
}

/// Whether an image is to be explained, and there is no condition of images.
pub(crate) fn lacks_image(matches: &ArgMatches<'_>) -> bool
    ensures { result ≡ lacks_image (rows_of (found_of matches.now)) }
{
    let explained = is_given(matches, "explain-image");
    let all = has_value(matches, "all");
    explained && !all
}

/// The options of `images`.
fn images_options<'a>(matches: &ArgMatches<'a>) -> ImagesOptions<'a>
    ensures { AreOptions (rows_of (found_of matches.now)) result }
{
    let told = is_given(matches, "explain-image");
    ImagesOptions {
        only_count: is_given(matches, "count"),
        names: is_given(matches, "names"),
        all: value(matches, "all"),
        some: value(matches, "some"),
        explains_image: told,
    }
}

/// What `images` is asked of one image.
fn set_options<'a>(matches: &ArgMatches<'_>, values: &'a str) -> SetOptions<'a>
    ensures values { result.values.now ≡ values.now }
    ensures explains_image { result.explains_image ≡ is_given (codes "explain-image") (rows_of (found_of matches.now)) }
{
    let told = is_given(matches, "explain-image");
    SetOptions {
        values,
        explains_image: told,
    }
}

/// What `images` is asked for: the images, or what leaves one of them, and not both. An image is explained where one is named.
pub(crate) fn images_job<'a>(matches: &ArgMatches<'a>) -> Option<Job<'a>>
    ensures { Finds (IsImagesJob (rows_of (found_of matches.now))) result }
{
    match value(matches, "set") {
        None if lacks_image(matches) => None,
        None => Some(Job::Images(images_options(matches))),
        Some(_) if asks_of_all(matches) => None,
        Some(values) => Some(Job::Set(set_options(matches, values))),
    }
}

/// Whether states are asked for, and no JSON, which alone has them.
pub(crate) fn lacks_states(matches: &ArgMatches<'_>) -> bool
    ensures { result ≡ lacks_states (rows_of (found_of matches.now)) }
{
    let states = is_given(matches, "states");
    let json = is_given(matches, "json");
    states && !json
}

/// Whether a conversation is asked for, and JSON, in which it does not answer.
pub(crate) fn talks_in_json(matches: &ArgMatches<'_>) -> bool
    ensures { result ≡ talks_in_json (rows_of (found_of matches.now)) }
{
    let interactive = is_given(matches, "interactive");
    let json = is_given(matches, "json");
    interactive && json
}

/// What a parse found that `trace` is asked.
pub(crate) fn trace_options(matches: &ArgMatches<'_>) -> Option<TraceOptions>
    ensures { Finds (AreTraceOptions (rows_of (found_of matches.now))) result }
{
    if lacks_states(matches) {
        return None;
    }
    Some(TraceOptions {
        states: is_given(matches, "states"),
    })
}

/// What a parse found that `next` is asked.
pub(crate) fn next_options(matches: &ArgMatches<'_>) -> Option<NextOptions>
    ensures { Finds (AreNextOptions (rows_of (found_of matches.now))) result }
{
    if lacks_states(matches) {
        return None;
    }
    Some(NextOptions {
        refused: is_given(matches, "refused"),
        states: is_given(matches, "states"),
    })
}

/// The schedule that a parse of `replay` found.
pub(crate) fn replay_options(matches: &ArgMatches<'_>) -> Option<ReplayOptions>
    ensures { Finds (IsSchedule (rows_of (found_of matches.now))) result }
{
    let plan = plan_of(matches)?;
    let number = small_number_of(matches, NUMBER.name)??;
    Some(ReplayOptions { plan, number })
}

/// What `tally` is asked for: how schedules end, the losses by a condition, or the ends to which they come by one.
pub(crate) fn tally_job<'a>(matches: &ArgMatches<'a>) -> Option<ScheduleJob<'a>>
    ensures { Finds (IsTallyJob (rows_of (found_of matches.now))) result }
{
    let schedules = schedules_of(matches)?;
    let all = value(matches, "all");
    let ends = value(matches, "ends");
    match (all, ends, value(matches, "recovered")) {
        (None, None, None) => Some(ScheduleJob::Tally(schedules)),
        (Some(all), None, None) => Some(ScheduleJob::Losses(LossesOptions { all, schedules })),
        (None, Some(cond), None) => Some(ScheduleJob::Ends(EndsOptions {
            recovered: false,
            cond,
            schedules,
        })),
        (None, None, Some(cond)) => Some(ScheduleJob::Ends(EndsOptions {
            recovered: true,
            cond,
            schedules,
        })),
        _ => None,
    }
}

/// What is demanded of each schedule, by one of `--cond`, `--all`, `--ends` and `--recovered`; not by two, and not by none.
pub(crate) fn demand_of<'a>(matches: &ArgMatches<'a>) -> Option<Demand<'a>>
    ensures { Finds (IsDemand (first_of (codes "cond") (rows_of (found_of matches.now)))
        (first_of (codes "all") (rows_of (found_of matches.now)))
        (first_of (codes "ends") (rows_of (found_of matches.now)))
        (first_of (codes "recovered") (rows_of (found_of matches.now)))) result }
{
    let cond = value(matches, "cond");
    let all = value(matches, "all");
    let ends = value(matches, "ends");
    match (cond, all, ends, value(matches, "recovered")) {
        (Some(text), None, None, None) => Some(Demand::Cond(text)),
        (None, Some(text), None, None) => Some(Demand::All(text)),
        (None, None, Some(text), None) => Some(Demand::Ends(text)),
        (None, None, None, Some(text)) => Some(Demand::Recovered(text)),
        _ => None,
    }
}

/// What a parse found that `hunt` is asked.
pub(crate) fn hunt_options<'a>(matches: &ArgMatches<'a>) -> Option<HuntOptions<'a>>
    ensures { Finds (AreHuntOptions (rows_of (found_of matches.now))) result }
{
    let demand = demand_of(matches)?;
    let schedules = schedules_of(matches)?;
    let workers = hunter_count(matches)?;
    let explains_image = is_given(matches, "explain-image");
    if lacks_image(matches) {
        return None;
    }
    Some(HuntOptions {
        demand,
        schedules,
        workers,
        show: is_given(matches, "show"),
        names: is_given(matches, "names"),
        as_steps: is_given(matches, "as-steps"),
        explains_image,
    })
}

/// The site of `--only`, where it is given.
pub(crate) fn only_of(matches: &ArgMatches<'_>) -> Option<Option<AskedSite>>
    ensures { Finds (IsSiteIfAny (first_of (codes "only") (rows_of (found_of matches.now)))) result }
{
    match value(matches, "only") {
        Some(text) => Some(Some(site_named(text)?)),
        None => Some(None),
    }
}

/// Whether recovery is asked about, and is not explored.
pub(crate) fn lacks_recovery(matches: &ArgMatches<'_>) -> bool
    ensures { result ≡ lacks_recovery (rows_of (found_of matches.now)) }
{
    let before_crash = is_given(matches, "before-crash");
    let recovered = has_value(matches, "recovered");
    before_crash && recovered
}

/// Whether a condition is asked: of images, of ends before a crash, or of ends after one.
pub(crate) fn has_condition(matches: &ArgMatches<'_>) -> bool
    ensures { result ≡ has_condition (rows_of (found_of matches.now)) }
{
    let all = has_value(matches, "all");
    let ends = has_value(matches, "ends");
    let recovered = has_value(matches, "recovered");
    all || ends || recovered
}

/// Whether a run is to be explained that breaks a condition, and there is none.
pub(crate) fn lacks_condition(matches: &ArgMatches<'_>) -> bool
    ensures { result ≡ lacks_condition (rows_of (found_of matches.now)) }
{
    let explained = is_given(matches, "explain-image");
    let conditions = has_condition(matches);
    explained && !conditions
}

/// Whether `check` is asked more than it can tell: of recovery where that is not explored, why a run breaks a condition where
/// there is none, or a question of the program beside a condition.
fn asks_beyond(matches: &ArgMatches<'_>) -> bool
    ensures { result ≡ asks_beyond (rows_of (found_of matches.now)) }
{
    lacks_recovery(matches) || lacks_condition(matches) || has_value(matches, "only")
}

/// Whether the options of `check` ask something: a condition, or images.
pub(crate) fn has_question(matches: &ArgMatches<'_>) -> bool
    ensures { result ≡ has_question (rows_of (found_of matches.now)) }
{
    let all = has_value(matches, "all");
    let ends = has_value(matches, "ends");
    let recovered = has_value(matches, "recovered");
    let images = is_given(matches, "images");
    all || ends || recovered || images
}

/// Whether `check` is asked for what a condition alone is reported with.
pub(crate) fn needs_condition(matches: &ArgMatches<'_>) -> bool
    ensures { result ≡ needs_condition (rows_of (found_of matches.now)) }
{
    let names = is_given(matches, "names");
    let as_steps = is_given(matches, "as-steps");
    names || as_steps
}

/// What a parse found that the questions of a program are asked with.
fn question_options<'a>(matches: &ArgMatches<'a>) -> Option<QuestionOptions<'a>>
    ensures { Finds (AreQuestionOptions (rows_of (found_of matches.now))) result }
{
    let states = states_of(matches)?;
    if needs_condition(matches) {
        return None;
    }
    let before_crash = is_given(matches, "before-crash");
    let explains = is_given(matches, "explain-image");
    Some(QuestionOptions {
        before_crash,
        states,
        show: is_given(matches, "show"),
        explains_image: explains,
        only: value(matches, "only"),
    })
}

/// What a parse found that `check` is asked: by its options, or else by the questions of the program.
pub(crate) fn check_task<'a>(matches: &ArgMatches<'a>) -> Option<Task<'a>>
    ensures { Finds (IsCheckTask (has_question (rows_of (found_of matches.now))) (rows_of (found_of matches.now))) result }
{
    if has_question(matches) {
        Some(Task::Check(check_options(matches)?))
    } else {
        Some(Task::Ask(question_options(matches)?))
    }
}

/// What a parse found that `check` is asked by its options, which ask something.
fn check_options<'a>(matches: &ArgMatches<'a>) -> Option<CheckOptions<'a>>
    requires { has_question (rows_of (found_of matches.now)) ≡ true }
    ensures { Finds (AreCheckOptions (rows_of (found_of matches.now))) result }
{
    let states = states_of(matches)?;
    if asks_beyond(matches) {
        return None;
    }
    if has_several(matches) {
        return None;
    }
    Some(CheckOptions {
        all: value(matches, "all"),
        ends: value(matches, "ends"),
        recovered: value(matches, "recovered"),
        images: is_given(matches, "images"),
        before_crash: is_given(matches, "before-crash"),
        states,
        show: is_given(matches, "show"),
        names: is_given(matches, "names"),
        as_steps: is_given(matches, "as-steps"),
        explains_image: is_given(matches, "explain-image"),
    })
}

/// What a parse found that `outcomes` is asked.
pub(crate) fn outcomes_options(matches: &ArgMatches<'_>) -> Option<OutcomesOptions>
    ensures { Finds (AreOutcomesOptions (rows_of (found_of matches.now))) result }
{
    let states = states_of(matches)?;
    Some(OutcomesOptions {
        recovered: is_given(matches, "recovered"),
        states,
    })
}
