//! The commands, a row for each: its name, its help, where its steps come from, and its options. The command line, the help
//! and what the words ask for follow from these rows.
ghost use Rattle.std.specs.Prelude.{◌≡◌, map};
ghost use Rattle.px86.specs.Commands.{command_named, input_options, row_of, rule_of, told_row};

use crate::help;

/// Where the steps of a command come from, unless `--steps` or `--no-steps` says so.
#[derive(Clone, Copy, Debug, PartialEq, Eq)]
pub enum Reads {
    /// It has none.
    Nothing,
    /// It makes a list of steps, and reads the standard input.
    Steps,
    /// It makes a list of steps, and reads the standard input where its options ask a condition or images.
    Asked,
    /// It plays a script, and reads the standard input.
    Script,
}

/// What an option takes.
#[derive(Clone, Copy, Debug)]
pub enum Takes {
    /// Nothing: it is a flag.
    Nothing,
    /// A value, of which the help says this.
    Value(&'static str),
    /// The same, and the option has to be given.
    Needed(&'static str),
}

/// What the number of an option has to be.
#[derive(Clone, Copy, Debug)]
pub enum Bound {
    /// Below 2^64.
    Long,
    /// Below 2^64, also as millions.
    Count,
    /// A number of schedules, or that of one: at most 2^32 together.
    Schedules,
    /// Below 2^32.
    Short,
    /// From 1 to [`workers::MAX_SEATS`].
    Threads,
}

/// An option of a command.
#[derive(Clone, Copy, Debug)]
pub struct CommandOption {
    /// Its name, which is written after `--`.
    pub name: &'static str,
    /// What it takes.
    pub takes: Takes,
    /// What its value has to be, where that is a number.
    pub number: Option<Bound>,
    /// The number where it is left out: with this its line of the help ends. 0 where there is none.
    pub default: u64,
    /// Its line of the help.
    pub help: &'static str,
}

/// All that the command line knows of a command.
#[derive(Clone, Copy, Debug)]
pub struct CommandRow {
    /// Its name.
    pub name: &'static str,
    /// Its line of the help of all.
    pub about: &'static str,
    /// Where its steps come from.
    pub reads: Reads,
    /// Its options, after those that all commands have and those of the steps.
    pub options: &'static [CommandOption],
    /// What is under its help.
    pub more: &'static str,
}

/// A command of the program.
#[derive(Clone, Copy, Debug, PartialEq, Eq)]
pub enum Command {
    /// The program as an object file.
    Asm,
    /// The program as a litmus text.
    Dis,
    /// The state after the steps.
    Run,
    /// What each step showed.
    Trace,
    /// The steps that the state accepts.
    Next,
    /// Which operations first break their order.
    Law,
    /// A script of the debugger.
    Debug,
    /// The images that a crash may leave.
    Images,
    /// The steps of one schedule.
    Replay,
    /// Conditions on every run.
    Check,
    /// How every run ends.
    Outcomes,
    /// How schedules end.
    Tally,
    /// The first schedule that breaks a condition.
    Hunt,
    /// Which flushes and fences conditions need.
    Fences,
    /// Which flushes and fences to put in.
    Mend,
    /// Many threads on one machine.
    Live,
}

/// The commands, in the order of the help of all.
pub(crate) const COMMANDS: [Command; 16] = [
    Command::Asm,
    Command::Dis,
    Command::Run,
    Command::Trace,
    Command::Next,
    Command::Law,
    Command::Debug,
    Command::Images,
    Command::Replay,
    Command::Check,
    Command::Outcomes,
    Command::Tally,
    Command::Hunt,
    Command::Fences,
    Command::Mend,
    Command::Live,
];

/// A flag.
macro_rules! flag {
    ($name:expr, $help:expr) => {
        CommandOption {
            name: $name,
            takes: Takes::Nothing,
            number: None,
            default: 0,
            help: $help,
        }
    };
}

/// An option that takes a value.
macro_rules! value {
    ($name:expr, $value:expr, $help:expr) => {
        CommandOption {
            name: $name,
            takes: Takes::Value($value),
            number: None,
            default: 0,
            help: $help,
        }
    };
}

/// An option that takes a number within this bound.
macro_rules! number {
    ($name:expr, $value:expr, $bound:expr, $help:expr) => {
        CommandOption {
            name: $name,
            takes: Takes::Value($value),
            number: Some($bound),
            default: 0,
            help: $help,
        }
    };
}

/// The same, and the number where it is left out.
macro_rules! number_or {
    ($name:expr, $value:expr, $bound:expr, $help:literal, $default:literal) => {
        CommandOption {
            name: $name,
            takes: Takes::Value($value),
            number: Some($bound),
            default: $default,
            help: concat!($help, " [", $default, "]"),
        }
    };
}

/// An option that takes a number within this bound, and has to be given.
macro_rules! needed {
    ($name:expr, $value:expr, $bound:expr, $help:expr) => {
        CommandOption {
            name: $name,
            takes: Takes::Needed($value),
            number: Some($bound),
            default: 0,
            help: $help,
        }
    };
}

/// Of all commands, and of none.
pub(crate) const EXPLAIN: CommandOption = flag!(
    "explain",
    "Say more of a fault, on standard error"
);

/// Of all commands.
pub(crate) const COMMON: &[CommandOption] = &[
    EXPLAIN,
    value!(
        "format",
        "FORM",
        "Say where a fault of the text is as compilers do, in a line each: FORM is gcc"
    ),
];

/// Of the commands whose report may be JSON.
const JSON: CommandOption = flag!("json", "Print the report as one JSON object");

/// Of the commands that read steps or a script.
const STEPS: &[CommandOption] = &[
    value!(
        "steps",
        "STEPS",
        "Read the steps, or for debug the script, from this file [standard input]"
    ),
    flag!("no-steps", "Read none: there are no steps"),
];

/// Of a plan of schedules.
pub(crate) const SEED: CommandOption = number_or!(
    "seed",
    "S",
    Bound::Long,
    "The seed of all schedules",
    0
);

/// Of a plan of schedules.
pub(crate) const LENGTH: CommandOption = number!(
    "length",
    "N",
    Bound::Short,
    "How many turns one has at most [1000 with --all, --ends or --recovered, else 100]"
);

/// Of a plan of schedules.
pub(crate) const CRASH_AFTER: CommandOption = number!(
    "crash-after",
    "T",
    Bound::Short,
    "The turn, from 0, that crashes"
);

/// Of the commands that ask for a lazy schedule.
const LAZY: CommandOption = flag!(
    "lazy",
    "Make no Persist and no Settle: what they leave could be left before"
);

/// Of the commands that run schedules.
pub(crate) const FIRST: CommandOption = number_or!(
    "first",
    "F",
    Bound::Schedules,
    "The number of the first that is run",
    0
);

/// Of the commands that run schedules.
pub(crate) const RUNS: CommandOption = number_or!(
    "runs",
    "K",
    Bound::Schedules,
    "How many are run, F + K at most 2^32",
    100
);

/// Of the commands whose schedules many threads run.
pub(crate) const WORKERS: CommandOption = number_or!(
    "workers",
    "W",
    Bound::Threads,
    "How many threads work, 1 to 64",
    2
);

/// Of `mend`.
pub(crate) const MENDERS: CommandOption = number_or!(
    "workers",
    "W",
    Bound::Threads,
    "How many threads try sets at once, 1 to 64",
    1
);

/// Of `live`.
pub(crate) const THREADS: CommandOption = number_or!(
    "threads",
    "T",
    Bound::Threads,
    "How many threads, 1 to 64",
    2
);

/// Of `replay`.
pub(crate) const NUMBER: CommandOption = needed!(
    "number",
    "K",
    Bound::Short,
    "The number of the schedule, from 0"
);

/// Of the commands that ask conditions of every run.
const ALL: CommandOption = value!(
    "all",
    "COND",
    "Does this hold for all that a crash may leave, in each state?"
);

/// Of the commands that ask conditions of every run.
const ENDS: CommandOption = value!(
    "ends",
    "COND",
    "Does this hold at each end before the first crash?"
);

/// Of the commands that ask conditions of every run.
const RECOVERED: CommandOption = value!(
    "recovered",
    "COND",
    "Does this hold at each end after a crash?"
);

/// Of the commands that ask conditions of every run.
const BEFORE_CRASH: CommandOption = flag!("before-crash", "Explore runs without a crash alone");

/// Of the commands that explore every run.
pub(crate) const STATES: CommandOption = number_or!(
    "states",
    "N",
    Bound::Count,
    "How many states are told apart at most, as 500000 or 20M",
    1000000
);

/// Of the commands that find what breaks a condition.
const EXPLAINED: CommandOption = flag!(
    "explain-image",
    "Of what was found: tell of writes that are missing there, and why each may be"
);

/// The help of `--all`, where every turn is asked about.
const ALL_TURNS: &str = "What is to hold for all that a crash may leave, after each turn";

/// Of the commands that run schedules.
const SCHEDULES_DONE: CommandOption = flag!(
    "progress",
    "Say on standard error when a sixteenth of the schedules is done"
);

/// Of the commands that explore every run of many programs.
const EXPLORED: CommandOption = flag!(
    "progress",
    "Say on standard error each time as many are explored as a sixteenth of N states"
);

/// Of the command that explores every run of one program after another.
const SEARCHED: CommandOption = flag!(
    "progress",
    "Say on standard error how many explorations are begun, and each sixteenth of N states"
);

/// Of the commands that explore every run.
const STATES_DONE: CommandOption = flag!(
    "progress",
    "Say on standard error when a sixteenth of N states is explored"
);

const ASM: &CommandRow = &CommandRow {
    name: "asm",
    about: "Write the program as an object file, with the bytes of its instructions",
    reads: Reads::Nothing,
    options: &[],
    more: help::OBJECTS,
};

const DIS: &CommandRow = &CommandRow {
    name: "dis",
    about: "Write the program as a litmus text",
    reads: Reads::Nothing,
    options: &[],
    more: help::TEXTS,
};

const RUN: &CommandRow = &CommandRow {
    name: "run",
    about: "Make the steps, and print the machine's state",
    reads: Reads::Steps,
    options: &[JSON],
    more: help::STEPS,
};

const TRACE: &CommandRow = &CommandRow {
    name: "trace",
    about: "Make the steps, and print what each did",
    reads: Reads::Steps,
    options: &[
        flag!(
            "states",
            "With --json: print the state before the first step and after each too"
        ),
        JSON,
    ],
    more: help::TRACES,
};

const NEXT: &CommandRow = &CommandRow {
    name: "next",
    about: "Make the steps, and print which may come next, and what each would do",
    reads: Reads::Steps,
    options: &[
        flag!("refused", "Print the refused ones too, with the reason"),
        flag!("states", "With --json: print the state after each too"),
        JSON,
    ],
    more: help::NEXT_STEPS,
};

const LAW: &CommandRow = &CommandRow {
    name: "law",
    about: "Make the steps, and report which operations first break their order",
    reads: Reads::Steps,
    options: &[JSON],
    more: help::ORDER,
};

const DEBUG: &CommandRow = &CommandRow {
    name: "debug",
    about: "Play a script: stops, watches, steps back",
    reads: Reads::Script,
    options: &[
        flag!(
            "interactive",
            "Answer each line of the standard input before the next is read"
        ),
        JSON,
    ],
    more: help::SCRIPTS,
};

const IMAGES: &CommandRow = &CommandRow {
    name: "images",
    about: "Make the steps, and list the images that a crash may then leave",
    reads: Reads::Steps,
    options: &[
        flag!("count", "Do not list the images"),
        flag!("names", "Name the words above the images"),
        value!("all", "COND", "Does this hold for all images?"),
        value!("some", "COND", "Does this hold for some image?"),
        value!("set", "V..", "Which pending entries leave this image?"),
        EXPLAINED,
        JSON,
    ],
    more: help::CONDITIONS,
};

const REPLAY: &CommandRow = &CommandRow {
    name: "replay",
    about: "Make the steps, and print the steps of one random schedule after them",
    reads: Reads::Steps,
    options: &[SEED, LENGTH, CRASH_AFTER, LAZY, NUMBER, JSON],
    more: help::REPLAYS,
};

const CHECK: &CommandRow = &CommandRow {
    name: "check",
    about: "Make the steps, then explore every run after them, and check conditions",
    reads: Reads::Asked,
    options: &[
        ALL,
        ENDS,
        RECOVERED,
        flag!(
            "images",
            "List all that a crash may leave, of all states together"
        ),
        BEFORE_CRASH,
        STATES,
        value!("only", "NAME", "Ask the question of this name alone"),
        flag!("show", "Print the steps of the run that was found too"),
        flag!("names", "Name the words above the values"),
        flag!(
            "as-steps",
            "Print the steps of the run that was found alone"
        ),
        EXPLAINED,
        STATES_DONE,
        JSON,
    ],
    more: help::CHECKS,
};

const OUTCOMES: &CommandRow = &CommandRow {
    name: "outcomes",
    about: "Make the steps, then explore every run after them, and list how they end",
    reads: Reads::Steps,
    options: &[
        flag!("recovered", "List the ends after a crash"),
        STATES,
        STATES_DONE,
        JSON,
    ],
    more: help::OUTCOMES,
};

const TALLY: &CommandRow = &CommandRow {
    name: "tally",
    about: "Make the steps, then run random schedules, and count how they end",
    reads: Reads::Steps,
    options: &[
        SEED,
        LENGTH,
        CRASH_AFTER,
        FIRST,
        RUNS,
        value!(
            "all",
            "COND",
            "Count the schedules that break this by what a crash may leave"
        ),
        value!(
            "ends",
            "COND",
            "Count the schedules that break this at an end before the first crash"
        ),
        value!(
            "recovered",
            "COND",
            "Count the schedules that break this at an end after a crash"
        ),
        SCHEDULES_DONE,
        JSON,
    ],
    more: help::SCHEDULES,
};

const HUNT: &CommandRow = &CommandRow {
    name: "hunt",
    about: "Make the steps, then find the first random schedule that breaks a condition",
    reads: Reads::Steps,
    options: &[
        SEED,
        LENGTH,
        CRASH_AFTER,
        FIRST,
        RUNS,
        value!("cond", "COND", "What is to hold where a schedule ends"),
        value!("all", "COND", ALL_TURNS),
        value!(
            "ends",
            "COND",
            "What is to hold at each end before the first crash"
        ),
        value!(
            "recovered",
            "COND",
            "What is to hold at each end after a crash"
        ),
        LAZY,
        WORKERS,
        flag!("show", "Print the steps of the schedule too"),
        flag!("names", "Name the words above the image"),
        flag!("as-steps", "Print the steps of the schedule alone"),
        EXPLAINED,
        SCHEDULES_DONE,
        JSON,
    ],
    more: help::HUNTS,
};

const FENCES: &CommandRow = &CommandRow {
    name: "fences",
    about: "Report which flushes and fences conditions need, by all runs without each",
    reads: Reads::Nothing,
    options: &[
        ALL,
        ENDS,
        RECOVERED,
        BEFORE_CRASH,
        STATES,
        value!(
            "only",
            "SITE",
            "Leave out the one at this place alone, written as in the report"
        ),
        EXPLORED,
        JSON,
    ],
    more: help::FENCES,
};

const MEND: &CommandRow = &CommandRow {
    name: "mend",
    about: "Find the flushes and fences with which conditions hold in all runs",
    reads: Reads::Nothing,
    options: &[
        ALL,
        ENDS,
        RECOVERED,
        BEFORE_CRASH,
        STATES,
        flag!("as-text", "Print the mended program alone"),
        flag!(
            "moves",
            "Where no flushes and fences do, try to move one store"
        ),
        MENDERS,
        SEARCHED,
        JSON,
    ],
    more: help::MENDS,
};

const LIVE: &CommandRow = &CommandRow {
    name: "live",
    about: "Make the steps by many threads on one machine, and print the journal",
    reads: Reads::Steps,
    options: &[THREADS, JSON],
    more: help::JOURNALS,
};

impl Reads {
    /// The options that say where steps come from.
    pub(crate) fn options(self) -> &'static [CommandOption]
        ensures { map rule_of result.now ≡ input_options self }
    {
        match self {
            Reads::Nothing => &[],
            Reads::Steps | Reads::Asked | Reads::Script => STEPS,
        }
    }
}

impl Command {
    /// Its row.
    pub(crate) fn row(self) -> &'static CommandRow
        ensures { told_row result.now ≡ row_of self }
    {
        match self {
            Command::Asm => ASM,
            Command::Dis => DIS,
            Command::Run => RUN,
            Command::Trace => TRACE,
            Command::Next => NEXT,
            Command::Law => LAW,
            Command::Debug => DEBUG,
            Command::Images => IMAGES,
            Command::Replay => REPLAY,
            Command::Check => CHECK,
            Command::Outcomes => OUTCOMES,
            Command::Tally => TALLY,
            Command::Hunt => HUNT,
            Command::Fences => FENCES,
            Command::Mend => MEND,
            Command::Live => LIVE,
        }
    }

    /// The command of this name, if there is one.
    #[tactic(auto, unfolding(crate::specs::Commands::command_named))]
    pub(crate) fn named(name: &str) -> Option<Command>
        ensures { result ≡ command_named name.now }
    {
        COMMANDS
            .iter()
            .copied()
            .find(|command| name == command.row().name)
    }
}
