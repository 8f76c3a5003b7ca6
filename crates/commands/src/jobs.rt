//! What the program is asked: the commands, with their options, by who does them.
ghost use Rattle.std.specs.Prelude.{◌≡◌};
ghost use Rattle.commands.specs.Jobs.{reads_steps};

use crate::asked_site::AskedSite;
use schedule::Plan;

/// What `images` is asked. Its conditions are texts, as given on the command line.
#[derive(Clone, Copy, Debug)]
pub struct ImagesOptions<'a> {
    /// `--count`: the images themselves are not listed.
    pub only_count: bool,
    /// `--names`: the names of the words come before the images that are listed.
    pub names: bool,
    /// `--all COND`: does the condition hold for all images?
    pub all: Option<&'a str>,
    /// `--some COND`: does the condition hold for some image?
    pub some: Option<&'a str>,
    /// `--explain-image`: it is said which writes are missing in the image that breaks the condition of `--all`, and why each may be.
    pub explains_image: bool,
}

/// What `images --set` is asked.
#[derive(Clone, Copy, Debug)]
pub struct SetOptions<'a> {
    /// `--set VALUES`: the values of an image, which are a text, as given on the command line.
    pub values: &'a str,
    /// `--explain-image`: if it is an image of the state, it is said which writes are missing in it, and why each may be.
    pub explains_image: bool,
}

/// What `tally` is asked.
#[derive(Clone, Copy, Debug)]
pub struct TallyOptions {
    /// `--seed`, `--length`, `--crash-after` and `--lazy`: what its schedules have in common.
    pub plan: Plan,
    /// `--first`: the number of the first schedule that is run.
    pub first: u64,
    /// `--runs`: how many schedules are run, those whose numbers are from the first on.
    pub runs: u64,
}

/// What `tally --all` is asked. Its condition is a text, as given on the command line.
#[derive(Clone, Copy, Debug)]
pub struct LossesOptions<'a> {
    /// `--all COND`: what is to hold for all images that a crash may leave after each turn.
    pub all: &'a str,
    /// The options of a plan, `--first` and `--runs`.
    pub schedules: TallyOptions,
}

/// What `tally --ends` and `tally --recovered` are asked. The condition is a text, as given on the command line.
#[derive(Clone, Copy, Debug)]
pub struct EndsOptions<'a> {
    /// Whether ends after a crash are asked about, by `--recovered`; otherwise those before the first crash are, by `--ends`.
    pub recovered: bool,
    /// COND: what is to hold at each such end to which a schedule comes.
    pub cond: &'a str,
    /// The options of a plan, `--first` and `--runs`.
    pub schedules: TallyOptions,
}

/// What a schedule that is looked for breaks: a condition, which is a text, as given on the command line.
#[derive(Clone, Copy, Debug)]
pub enum Demand<'a> {
    /// `--cond COND`: it is to hold where the schedule ends.
    Cond(&'a str),
    /// `--ends COND`: it is to hold at each end before the first crash to which a schedule comes.
    Ends(&'a str),
    /// `--recovered COND`: it is to hold at each end after a crash to which a schedule comes.
    Recovered(&'a str),
    /// `--all COND`: it is to hold for all images that a crash may leave, after each turn and before the first.
    All(&'a str),
}

/// What `hunt` is asked.
#[derive(Clone, Copy, Debug)]
pub struct HuntOptions<'a> {
    /// `--cond`, `--ends`, `--recovered` or `--all`: what a schedule that is looked for breaks.
    pub demand: Demand<'a>,
    /// The options of a plan, `--first` and `--runs`: the least number is looked for among these schedules.
    pub schedules: TallyOptions,
    /// `--workers`: how many threads run schedules, 1 to 64. The report is the same for any.
    pub workers: u64,
    /// `--show`: the steps of the schedule that was found are shown.
    pub show: bool,
    /// `--names`: the names of the words come before the image. Where no image is shown, no names are.
    pub names: bool,
    /// `--as-steps`: the steps of the schedule that was found are all that is reported.
    pub as_steps: bool,
    /// `--explain-image`: it is said which writes are missing in the image that breaks the condition, and why each may be.
    pub explains_image: bool,
}

/// What `replay` is asked.
#[derive(Clone, Copy, Debug)]
pub struct ReplayOptions {
    /// `--seed`, `--length`, `--crash-after` and `--lazy`: the plan.
    pub plan: Plan,
    /// `--number`: the number of the schedule.
    pub number: u32,
}

/// What `trace` is asked.
#[derive(Clone, Copy, Debug)]
pub struct TraceOptions {
    /// `--states`: a report as JSON has the state before the first step and after each. In lines there is none.
    pub states: bool,
}

/// What `next` is asked.
#[derive(Clone, Copy, Debug)]
pub struct NextOptions {
    /// `--refused`: the steps that name what is there and are refused are reported too.
    pub refused: bool,
    /// `--states`: a report as JSON has the state after each step. In lines there is none.
    pub states: bool,
}

/// What `check` is asked. Its conditions are texts, as given on the command line.
#[derive(Clone, Copy, Debug)]
pub struct CheckOptions<'a> {
    /// `--all COND`: what is to hold for all images that a crash may leave, in each state that a run reaches.
    pub all: Option<&'a str>,
    /// `--ends COND`: what is to hold at each end before the first crash, those of the given steps included.
    pub ends: Option<&'a str>,
    /// `--recovered COND`: what is to hold at each end after a crash, also one of the given steps.
    pub recovered: Option<&'a str>,
    /// `--images`: where all conditions hold, the images are listed that a crash may leave in the states that runs reach.
    pub images: bool,
    /// `--before-crash`: only runs that do not crash after the given steps are explored.
    pub before_crash: bool,
    /// `--states`: at most so many states are told apart.
    pub states: u64,
    /// `--show`: the steps of the run that was found are shown.
    pub show: bool,
    /// `--names`: the names of the words come before the values, and before the images that are listed.
    pub names: bool,
    /// `--as-steps`: the steps of the run that was found are all that is reported.
    pub as_steps: bool,
    /// `--explain-image`: which writes are missing in the image that breaks the condition of `--all`, and why.
    pub explains_image: bool,
}

/// What `check` is asked where it asks the questions of the program's text.
#[derive(Clone, Copy, Debug)]
pub struct QuestionOptions<'a> {
    /// `--before-crash`: only runs that do not crash after the given steps are explored.
    pub before_crash: bool,
    /// `--states`: at most so many states are told apart for each question.
    pub states: u64,
    /// `--show`: the steps of each run that was found are shown.
    pub show: bool,
    /// `--explain-image`: which writes are missing in each image that was found, and in what the crashes of its run left, and why.
    pub explains_image: bool,
    /// `--only NAME`: the question of this name is asked, and no other.
    pub only: Option<&'a str>,
}

/// What `outcomes` is asked.
#[derive(Clone, Copy, Debug)]
pub struct OutcomesOptions {
    /// `--recovered`: the ends after a crash are listed, also after one of the given steps. Otherwise those before the first
    /// crash are, those of the given steps included.
    pub recovered: bool,
    /// `--states`: at most so many states are told apart.
    pub states: u64,
}

/// What `fences` and `mend` ask of all runs of a program. Its conditions are texts, as given on the command line.
#[derive(Clone, Copy, Debug)]
pub struct AskedRuns<'a> {
    /// `--all COND`: what is to hold for all images that a crash may leave, in each state that a run reaches.
    pub all: Option<&'a str>,
    /// `--ends COND`: what is to hold at each end before the first crash.
    pub ends: Option<&'a str>,
    /// `--recovered COND`: what is to hold at each end after a crash.
    pub recovered: Option<&'a str>,
    /// `--before-crash`: only runs that do not crash are explored.
    pub before_crash: bool,
    /// `--states`: at most so many states of each program are told apart.
    pub states: u64,
}

/// What `fences` is asked.
#[derive(Clone, Copy, Debug)]
pub struct FencesOptions<'a> {
    /// What is to hold in all runs of the program, and of the program without its flushes and fences.
    pub asked: AskedRuns<'a>,
    /// `--only SITE`: the one flush or fence there is left out, and no other.
    pub only: Option<AskedSite>,
}

/// What `mend` is asked.
#[derive(Clone, Copy, Debug)]
pub struct MendOptions<'a> {
    /// What is to hold in all runs of the mended program.
    pub asked: AskedRuns<'a>,
    /// `--as-text`: the mended program is all that is reported, as a litmus text.
    pub as_text: bool,
}

/// What one thread does without a script and without exploring: a command of crate `jobs`, with its options.
#[derive(Clone, Copy, Debug)]
pub enum Job<'a> {
    /// `run`: makes the steps on the machine of the program, and shows the state.
    Run,
    /// `asm`: writes the program as an object file.
    Asm,
    /// `dis`: writes the program as a litmus text.
    Dis,
    /// `images`: makes the steps, and lists the images that a crash may then leave.
    Images(ImagesOptions<'a>),
    /// `images --set VALUES`: makes the steps, and says which pending entries leave the image of these values.
    Set(SetOptions<'a>),
    /// `law`: makes the steps, and says which operations first take effect against the order of the table.
    Law,
    /// `trace`: makes the steps, and reports what each showed.
    Trace(TraceOptions),
    /// `next`: makes the steps, and reports which steps the state accepts to which they lead, and what each would show.
    Next(NextOptions),
    /// `replay`: makes the steps, and reports the steps of one schedule from the state to which they lead.
    Replay(ReplayOptions),
}

impl<'a> Job<'a> {
    /// Whether the command reads a list of steps. `asm` and `dis` do not touch it.
    pub fn reads_steps(self) -> bool
        ensures { result ≡ reads_steps self.entry }
    {
        match self {
            Job::Asm | Job::Dis => false,
            Job::Run | Job::Images(_) | Job::Set(_) | Job::Law => true,
            Job::Trace(_) | Job::Next(_) | Job::Replay(_) => true,
        }
    }
}

/// A command that runs schedules by number, with its options. It makes the steps, and schedules run from the state to
/// which they lead.
#[derive(Clone, Copy, Debug)]
pub enum ScheduleJob<'a> {
    /// `tally`: counts how schedules end.
    Tally(TallyOptions),
    /// `tally --all`: counts those that break a condition by what a crash may leave.
    Losses(LossesOptions<'a>),
    /// `tally --ends`, `tally --recovered`: counts those that come to an end, and those that break a condition there.
    Ends(EndsOptions<'a>),
    /// `hunt`: looks for the schedule with the smallest number that breaks a condition: where it ends, at an end to which it comes,
    /// or by what a crash may leave.
    Hunt(HuntOptions<'a>),
}

/// What the program is asked: a command with its options, by who does it.
#[derive(Clone, Copy, Debug)]
pub enum Task<'a> {
    /// One thread does it, in crate `jobs`.
    Do(Job<'a>),
    /// It runs schedules by number.
    Schedules(ScheduleJob<'a>),
    /// `live`: so many threads, 1 to 64, make the steps on one machine, and its journal is shown.
    Live(u64),
    /// `debug`: plays a script on the program.
    Debug,
    /// `check`: asks conditions of all runs of the program.
    Check(CheckOptions<'a>),
    /// `check` without a condition: asks the questions of the program's text.
    Ask(QuestionOptions<'a>),
    /// `outcomes`: lists how all runs of the program end.
    Outcomes(OutcomesOptions),
    /// `fences`: reports what each flush and fence of the program is needed for.
    Fences(FencesOptions<'a>),
    /// `mend`: looks for flushes and fences with which conditions hold.
    Mend(MendOptions<'a>),
}
