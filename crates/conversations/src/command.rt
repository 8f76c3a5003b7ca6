//! The program is read, and then there is a conversation.
ghost use Rattle.std.specs.Prelude.{◌≡◌, Ok};
ghost use Rattle.commands.specs.Devices.{CanCountOneMore};
ghost use Rattle.commands.specs.Programs.{lined_work};
ghost use Rattle.commands.specs.Serving.{used};
ghost use Rattle.commands.specs.Works.{Makes};
ghost use Rattle.machine.specs.Objects.{opening};
ghost use Rattle.talks.specs.Conversations.{Talks};
ghost use Rattle.conversations.specs.Answered.{first_place, partner};
ghost use Rattle.conversations.specs.Conversing.{answer_after, fault_of, AnswersOn, ConversesOn, ReadsObject, ReadsProgram};

use crate::turns::talk;
use commands::{
    Device, Fault, Metered, Refused, Source, Sources, Stage, Status, read_lined, read_sources,
};
use litmus_text::LinedObject;
use machine::Machine;
use std::alloc::Global;
use talks::{TalkFault, Terminal};

/// The fault of the command, where a conversation broke off.
fn fault_of(fault: TalkFault) -> Fault
    ensures { result ≡ fault_of fault }
{
    match fault {
        TalkFault::ReadFailed => Fault::Device(Device::Read),
        TalkFault::WriteFailed => Fault::Device(Device::Write),
        TalkFault::TooLong => Fault::Refused(Refused::TooLong),
        TalkFault::NoMemory => Stage::Session.missing(),
    }
}

/// What the command answers after a conversation.
fn answer_after(talk: Result<(), TalkFault>) -> Result<Status, Fault>
    ensures { result ≡ answer_after talk }
{
    match talk {
        Ok(()) => Ok(Status::Done),
        Err(fault) => Err(fault_of(fault)),
    }
}

/// Reads the program, to its end, and nothing else.
fn read_alone<P: Source>(alloc: Global, program: &mut P) -> Result<Sources, Fault>
    requires { CanCountOneMore (P.device program.old) }
    ensures { ReadsProgram (used P.device program.old program.new) result }
{
    let mut nothing = Metered::new(b"".as_slice());
    match read_sources(alloc, false, program, &mut nothing) {
        Ok(sources) => Ok(sources),
        Err(fault) => Err(fault),
    }
}

/// What the program says that was read, and on which lines.
fn object_in(alloc: Global, sources: &Sources) -> Result<LinedObject, Fault>
    ensures { Makes (lined_work sources.now.program) result }
{
    read_lined(alloc, &sources.program)
}

/// Reads the program, to its end, and understands it.
fn read_object<P: Source>(alloc: Global, program: &mut P) -> Result<LinedObject, Fault>
    requires { CanCountOneMore (P.device program.old) }
    ensures { ReadsObject (used P.device program.old program.new) result }
{
    match read_alone(alloc, program) {
        Ok(sources) => object_in(alloc, &sources),
        Err(fault) => Err(fault),
    }
}

/// A conversation about a machine in the opening state of a program.
fn talk_about<T: Terminal>(
    alloc: Global,
    lined: &LinedObject,
    machine: Machine,
    terminal: &mut T,
) -> Result<(), TalkFault>
    requires ready { T.is_ready terminal.old }
    requires machine { machine ≡ opening lined.now.object }
    ensures { Talks (partner lined.now) (T.went terminal.old terminal.new) (first_place (opening lined.now.object)) result }
{
    talk(alloc, lined, machine, terminal)
}

/// Converses about a program that was read.
///
/// # Errors
///
/// M15, and then nothing goes on at the terminal; or why the conversation broke off.
fn converse_on<T: Terminal>(
    alloc: Global,
    lined: LinedObject,
    terminal: &mut T,
) -> Result<Status, Fault>
    requires ready { T.is_ready terminal.old }
    ensures { AnswersOn (Ok lined) (T.went terminal.old terminal.new) result }
{
    let Ok(machine) = Machine::load(alloc, &lined.object) else {
        drop(lined);
        return Err(Stage::Machine.missing());
    };
    let ended = talk_about(alloc, &lined, machine, terminal);
    drop(lined);
    answer_after(ended)
}

/// Reads the program to its end, and then hears line after line at a terminal, and answers each before it hears the next, up to the
/// end or to `quit`.
///
/// # Errors
///
/// F1 and F3 of the program, and a fault of it, before anything goes on at the terminal. After that F1, where a line cannot be
/// read, F2, where a text cannot be written, and F3, where 2^26 bytes were heard without an end; what was written until
/// then stays. Out of memory may come in place of any other answer of a stage that is reached.
pub fn converse<P: Source, T: Terminal>(
    alloc: Global,
    program: &mut P,
    terminal: &mut T,
) -> Result<Status, Fault>
    requires program { CanCountOneMore (P.device program.old) }
    requires ready { T.is_ready terminal.old }
    ensures { ConversesOn (used P.device program.old program.new) (T.went terminal.old terminal.new) result }
{
    match read_object(alloc, program) {
        Ok(lined) => converse_on(alloc, lined, terminal),
        Err(fault) => Err(fault),
    }
}
