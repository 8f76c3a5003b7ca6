//! What the bytes of a program, a condition and a list of steps say.
ghost use Rattle.std.specs.Prelude.{◌≡◌, [], length, map, IfOk, None, option_copied};
ghost use Rattle.std.specs.Result.{result_map_both};
ghost use Rattle.outcomes.specs.Calls.{Answers};
ghost use Rattle.outcomes.specs.Faults.{fault_in};
ghost use Rattle.machine.specs.Objects.{opening};
ghost use Rattle.machine.specs.Steps.{run_of};
ghost use Rattle.commands.specs.Programs.{asked_condition, asked_text_of, condition_work, lined_work, list_work, program_work, questioned_work, state_work};
ghost use Rattle.commands.specs.Works.{Makes, work};
ghost use Rattle.commands.specs.declared.fault.Stage.TheVariants as stages;

use crate::fault::{Fault, Refused, Stage};
use images::Cond;
use isa::Object;
use litmus_text::{LinedObject, TextFault, TextLines};
use loader::read_object;
use machine::{Machine, Step};
use outcomes::OrNoMemory;
use questions::{Questioned, read_questioned};
use schedule::{StepsFault, read_steps};
use sheets::is_sheet;
use std::alloc::Global;

/// What an object file begins with, of whatever version.
const OBJECT_FILE: &[u8] = b"PX86OBJ";

/// A program that asks nothing.
fn unasked(alloc: Global, lined: LinedObject) -> Questioned
    ensures { result ≡ record { lined = lined; questions = []; scope = None } }
{
    Questioned {
        lined,
        questions: Vec::new(alloc),
        scope: None,
    }
}

/// What a text says, as a sheet with its questions or as a litmus text, and the lines of its instructions.
fn read_text(alloc: Global, bytes: &[u8]) -> Result<Questioned, OrNoMemory<TextFault>>
    ensures { Answers fault_in (asked_text_of bytes.now) result }
{
    if is_sheet(bytes) {
        return read_questioned(alloc, bytes);
    }
    let lined = litmus_text::read_lined(alloc, bytes)?;
    Ok(unasked(alloc, lined))
}

/// What a program file says, the lines of its instructions and its questions, where it is a text. A sheet alone has questions, and
/// names for conditions.
///
/// # Errors
///
/// A fault of the program, as an object file or as a text, or of its questions; out of memory.
#[tactic(auto, unfolding(crate::specs::Works::Makes), using(crate::proofs::WorksInTurn::turns))]
pub fn read_questions(alloc: Global, bytes: &[u8]) -> Result<Questioned, Fault>
    ensures { Makes (questioned_work bytes.now) result }
{
    if bytes.starts_with(OBJECT_FILE) {
        match read_object(alloc, bytes) {
            Ok(object) => {
                let lines = TextLines::none();
                Ok(unasked(alloc, LinedObject { object, lines }))
            }
            Err(error) => Err(Stage::Object.fault(error.map(|fault| Refused::Object(fault)))),
        }
    } else {
        match read_text(alloc, bytes) {
            Ok(asked) => Ok(asked),
            Err(error) => Err(Stage::Text.fault(error.map(|fault| Refused::Text(fault)))),
        }
    }
}

/// What a program file says, and the lines of its instructions, where it is a text. Its questions are read, and left out.
///
/// # Errors
///
/// Those of [`read_questions`].
pub fn read_lined(alloc: Global, bytes: &[u8]) -> Result<LinedObject, Fault>
    ensures { Makes (lined_work bytes.now) result }
{
    let asked = read_questions(alloc, bytes)?;
    Ok(asked.lined)
}

/// What a program file says.
///
/// # Errors
///
/// Those of [`read_lined`].
pub fn read_program(alloc: Global, bytes: &[u8]) -> Result<Object, Fault>
    ensures { Makes (program_work bytes.now) result }
{
    let lined = read_lined(alloc, bytes)?;
    Ok(lined.object)
}

/// A condition of a program. Of a sheet it may name what the sheet's items name.
///
/// # Errors
///
/// A fault of the condition; out of memory.
#[tactic(auto, unfolding(crate::specs::Works::Makes))]
pub fn read_condition(alloc: Global, program: &Questioned, text: &str) -> Result<Cond, Fault>
    ensures { Makes (condition_work program.now text.now) result }
{
    match program.read_condition(alloc, text.as_bytes()) {
        Ok(cond) => Ok(cond),
        Err(error) => Err(Stage::Conditions.fault(error.map(|fault| Refused::Condition(fault)))),
    }
}

/// A condition, if one is asked for.
///
/// # Errors
///
/// Those of [`read_condition`].
#[tactic(auto, using(crate::proofs::WorksInTurn::turns))]
pub fn condition_in(
    alloc: Global,
    program: &Questioned,
    text: Option<&str>,
) -> Result<Option<Cond>, Fault>
    ensures { Makes (asked_condition program.now (option_copied text.entry)) result }
{
    match text {
        Some(text) => Ok(Some(read_condition(alloc, program, text)?)),
        None => Ok(None),
    }
}

/// What a list of steps says.
///
/// # Errors
///
/// The lowest bad line; out of memory.
#[tactic(auto, unfolding(crate::specs::Works::Makes))]
pub fn read_list(alloc: Global, bytes: &[u8]) -> Result<Vec<Step>, Fault>
    ensures { Makes (list_work bytes.now) (result_map_both (λ v. v.items) (λ fault. fault) result) }
{
    match read_steps(alloc, bytes) {
        Ok(steps) => Ok(steps),
        Err(StepsFault::BadLine(line)) => Err(Fault::Refused(Refused::Steps(line))),
        Err(StepsFault::NoMemory) => Err(Stage::Steps.missing()),
    }
}

/// The machine of a program before its first step.
///
/// # Errors
///
/// Out of memory, as that of the machine.
#[tactic(auto, unfolding(crate::specs::Works::Makes))]
pub fn load(alloc: Global, object: &Object) -> Result<Machine, Fault>
    ensures { Makes (work stages.Machine (Ok (opening object.now))) result }
{
    Machine::load(alloc, object).map_err(|_| Stage::Machine.missing())
}

/// The machine of a program after these steps.
///
/// # Errors
///
/// The step that is refused; out of memory, as that of the machine.
#[tactic(auto, unfolding(crate::specs::Works::Makes))]
pub fn machine_after(alloc: Global, object: &Object, steps: &[Step]) -> Result<Machine, Fault>
    ensures state { Makes (state_work (run_of steps.now (opening object.now))) result }
    ensures left { IfOk result (λ machine. machine ≡ (run_of steps.now (opening object.now)).state) }
    ensures shape { IfOk result (λ machine. machine.shape ≡ map length object.now.layout) }
{
    let mut machine = load(alloc, object)?;
    let (accepted, refusal) = machine.run(steps);
    match refusal {
        Some(refusal) => Err(Fault::Refused(Refused::Step(refusal, accepted))),
        None => Ok(machine),
    }
}
