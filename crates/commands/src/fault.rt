//! Why a command was not done: the line that is printed, and the exit status.
ghost use Rattle.std.specs.Prelude.{◌≡◌, Some};
ghost use Rattle.commands.specs.FaultTexts.{device_text, fault_text, missing_text, refused_text, stage_text};
ghost use Rattle.commands.specs.Faults.{fault_at, missing};
ghost use Rattle.commands.specs.Statuses.{exit_after, is_untold};

use crate::script_fault::ScriptFault;
use images::CondFault;
use litmus_text::TextFault;
use loader::ObjectFault;
use machine::Refusal;
use outcomes::OrNoMemory;
use std::error::Error;
use std::fmt;

/// Why a command was not done. Its text is the line that the program writes on standard error.
#[derive(Clone, Copy, Debug, PartialEq, Eq)]
pub enum Fault {
    /// F1 and F2: a device failed.
    Device(Device),
    /// The input is refused.
    Refused(Refused),
    /// Something is missing that a stage of the work takes.
    Missing(Missing),
}

/// Which device failed.
#[derive(Clone, Copy, Debug, PartialEq, Eq)]
pub enum Device {
    /// F1: a read failed, or a file could not be opened.
    Read,
    /// F2: a write failed, or took no byte.
    Write,
}

/// Why the input is refused.
#[derive(Clone, Copy, Debug, PartialEq, Eq)]
pub enum Refused {
    /// F3: an input has more than 2^26 bytes.
    TooLong,
    /// X1 to X8: a fault of the program text.
    Text(TextFault),
    /// O1 to O5 and O7: a fault of the program as an object file.
    Object(ObjectFault),
    /// E1 and E2: a fault of a condition.
    Condition(CondFault),
    /// The values on the command line are not those of an image of the program.
    Usage,
    /// K1: more schedules are asked for than there are numbers, 2^32.
    TooManySchedules,
    /// K4: no flush or fence is at the site that is asked about.
    NoFence,
    /// S1: this line of the step list, counted from 1, is no step.
    Steps(usize),
    /// S1, E1, E2 and G1: a fault of a script of the debugger.
    Script(ScriptFault),
    /// A step was refused before the command was done: why, and how many steps were accepted before it.
    Step(Refusal, usize),
    /// I1: there are more candidates for images than are counted.
    TooManyImages,
    /// R1: more states than the limit are told apart when all runs are explored.
    TooManyStates,
    /// R2: in some run the pending list has no room for what a processor is to add to it.
    NoRoom,
    /// I1: where images are looked at, some run leads to a state with more candidates for them than are counted.
    TooManyInRun,
}

/// What is missing.
#[derive(Clone, Copy, Debug, PartialEq, Eq)]
pub enum Missing {
    /// What a stage takes: memory, or a thread.
    At(Stage),
    /// V2: the receipt of this number, which a live machine handed out, is not in its journal.
    Receipt(u64),
}

/// The stages of a command's work that may take memory, or threads. The text of a stage is that of its want.
#[derive(Clone, Copy, Debug, PartialEq, Eq)]
pub enum Stage {
    /// X9: a program text is read or written.
    Text,
    /// O6: an object file is read or written.
    Object,
    /// E3: a condition is read, or the values of an image.
    Conditions,
    /// S2: a list of steps or a script is read.
    Steps,
    /// M15: the machine is loaded, or its state reported.
    Machine,
    /// I2: images are listed.
    Images,
    /// R3: all runs are explored, and what was found is reported.
    Exploration,
    /// G4: a session of the debugger is played.
    Session,
    /// K2: schedules are run by number, and what they came to is reported.
    Schedules,
    /// K3: threads are started.
    Threads,
    /// V1: a live machine works, and its journal is reported.
    Journal,
}

impl Stage {
    /// The fault where what the stage takes is missing.
    pub fn missing(self) -> Fault
        ensures { result ≡ missing self }
    {
        Fault::Missing(Missing::At(self))
    }

    /// The fault for what a call of the stage answered: a refusal, or out of memory.
    pub fn fault(self, error: OrNoMemory<Refused>) -> Fault
        ensures { result ≡ fault_at self error }
    {
        match error {
            OrNoMemory::Fault(refused) => Fault::Refused(refused),
            OrNoMemory::NoMemory => self.missing(),
        }
    }
}

impl Refused {
    /// Whether nothing is wrong with what was given, but it cannot be told of all runs: there are too many states, no room for
    /// what is pending, or too many candidates.
    pub fn is_untold(self) -> bool
        ensures { result ≡ is_untold self }
    {
        match self {
            Refused::TooManyStates | Refused::NoRoom | Refused::TooManyInRun => true,
            _ => false,
        }
    }
}

impl Fault {
    /// The exit status of the program: 2 for an input that is refused, 3 for a device, 4 where memory ran out or a
    /// thread did not start, and for a journal that lacks a receipt; 5 where it cannot be told of all runs.
    pub fn code(self) -> u8
        ensures { result ≡ exit_after self }
    {
        match self {
            Fault::Refused(refused) if refused.is_untold() => 5,
            Fault::Refused(_) => 2,
            Fault::Device(_) => 3,
            Fault::Missing(_) => 4,
        }
    }
}

impl fmt::Display for Device {
    ghost output = { λ it. Some (device_text it) };

    fn fmt<W: fmt::Write>(&self, f: &mut fmt::Formatter<W>) -> fmt::Result {
        match self {
            Device::Read => write!(f, "F1 ReadFailed"),
            Device::Write => write!(f, "F2 WriteFailed"),
        }
    }
}

impl Error for Device {}

impl fmt::Display for Refused {
    ghost output = { λ it. Some (refused_text it) };

    fn fmt<W: fmt::Write>(&self, f: &mut fmt::Formatter<W>) -> fmt::Result {
        match self {
            Refused::TooLong => write!(f, "F3 InputTooLong"),
            Refused::Text(fault) => write!(f, "{fault}"),
            Refused::Object(fault) => write!(f, "{fault}"),
            Refused::Condition(fault) => write!(f, "{fault}"),
            Refused::Usage => write!(f, "usage"),
            Refused::TooManySchedules => write!(f, "K1 TooMany"),
            Refused::NoFence => write!(f, "K4 NoFence"),
            Refused::Steps(line) => write!(f, "S1 BadLine {line}"),
            Refused::Script(fault) => write!(f, "{fault}"),
            Refused::Step(refusal, accepted) => write!(f, "{refusal} at {accepted}"),
            Refused::TooManyImages | Refused::TooManyInRun => write!(f, "I1 TooMany"),
            Refused::TooManyStates => write!(f, "R1 TooManyStates"),
            Refused::NoRoom => write!(f, "R2 NoRoom"),
        }
    }
}

impl Error for Refused {}

impl fmt::Display for Stage {
    ghost output = { λ it. Some (stage_text it) };

    fn fmt<W: fmt::Write>(&self, f: &mut fmt::Formatter<W>) -> fmt::Result {
        match self {
            Stage::Text => write!(f, "X9 NoMemory"),
            Stage::Object => write!(f, "O6 NoMemory"),
            Stage::Conditions => write!(f, "E3 NoMemory"),
            Stage::Steps => write!(f, "S2 NoMemory"),
            Stage::Machine => write!(f, "M15 NoMemory"),
            Stage::Images => write!(f, "I2 NoMemory"),
            Stage::Exploration => write!(f, "R3 NoMemory"),
            Stage::Session => write!(f, "G4 NoMemory"),
            Stage::Schedules => write!(f, "K2 NoMemory"),
            Stage::Threads => write!(f, "K3 NoThread"),
            Stage::Journal => write!(f, "V1 NoMemory"),
        }
    }
}

impl Error for Stage {}

impl fmt::Display for Missing {
    ghost output = { λ it. Some (missing_text it) };

    fn fmt<W: fmt::Write>(&self, f: &mut fmt::Formatter<W>) -> fmt::Result {
        match self {
            Missing::At(stage) => write!(f, "{stage}"),
            Missing::Receipt(number) => write!(f, "V2 Stranger {number}"),
        }
    }
}

impl Error for Missing {}

impl fmt::Display for Fault {
    ghost output = { λ it. Some (fault_text it) };

    fn fmt<W: fmt::Write>(&self, f: &mut fmt::Formatter<W>) -> fmt::Result {
        match self {
            Fault::Device(device) => write!(f, "{device}"),
            Fault::Refused(refused) => write!(f, "{refused}"),
            Fault::Missing(missing) => write!(f, "{missing}"),
        }
    }
}

impl Error for Fault {}
