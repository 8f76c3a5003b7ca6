//! What an exploration begins with.
ghost use Rattle.std.specs.Prelude.{◌≡◌, IfOk};
ghost use Rattle.std.specs.Result.{result_map_both};
ghost use Rattle.commands.specs.Programs.{state_work};
ghost use Rattle.commands.specs.Works.{Makes};
ghost use Rattle.machine.specs.Objects.{opening};
ghost use Rattle.machine.specs.Steps.{run_of};
ghost use Rattle.explore.specs.Questions.{IsWorn};
ghost use Rattle.explore.specs.Sound.{IsSound};
ghost use Rattle.jobs.specs.Starts.{check_asked, check_question, check_start, no_condition, outcomes_start, start_on, IsReady};

use crate::given::{Given, given_by};
use commands::{
    CheckOptions, Fault, OutcomesOptions, condition_in, machine_after, read_lined, read_questions,
};
use explore::Question;
use explore::laws::loaded_machines_are_sound;
use isa::Object;
use litmus_text::LinedObject;
use machine::{Machine, Step};
use questions::Questioned;
use std::alloc::Global;

/// A program, what is asked, what was given, and the machine of the program after the given steps: what runs start from.
#[derive(Drop)]
pub struct Start {
    /// What the program says.
    pub object: Object,
    /// What is asked of every run.
    pub question: Question,
    /// The machine of the program after the steps.
    pub machine: Machine,
    /// The steps, and where the program's text says its instructions.
    pub given: Given,
}

/// What `check` is asked.
#[tactic(auto, using(commands::proofs::WorksInTurn::turns))]
fn check_question(
    alloc: Global,
    program: &Questioned,
    options: &CheckOptions<'_>,
) -> Result<Question, Fault>
    ensures { Makes (check_question options.now program.now) result }
{
    let all = condition_in(alloc, program, options.all)?;
    let ends = condition_in(alloc, program, options.ends)?;
    let recovered = condition_in(alloc, program, options.recovered)?;
    Ok(Question {
        crashes: !options.before_crash,
        all,
        ends,
        recovered,
        images: options.images,
    })
}

/// No condition.
pub(crate) fn no_condition(crashes: bool) -> Question
    ensures { result ≡ no_condition crashes }
{
    Question {
        crashes,
        all: None,
        ends: None,
        recovered: None,
        images: false,
    }
}

/// The machine of a program after these steps. It is one that a loaded machine can be; and steps that are a list in memory are
/// too few to wear it.
fn sound_machine(alloc: Global, object: &Object, steps: &[Step]) -> Result<Machine, Fault>
    ensures state { Makes (state_work (run_of steps.now (opening object.now))) result }
    ensures sound { IfOk result (λ machine. IsSound machine) }
    ensures fresh { IfOk result (λ machine. IsWorn machine → ⊥) }
{
    // The law's premises are known of these two values. The three lines are for the proof, and do nothing else.
    loaded_machines_are_sound();
    let _shape = object.shape().words();
    let _values = object.values();
    machine_after(alloc, object, steps)
}

/// The machine of a program after these steps. Runs may start from it.
fn ready_machine(alloc: Global, object: &Object, steps: &[Step]) -> Result<Machine, Fault>
    ensures state { Makes (state_work (run_of steps.now (opening object.now))) result }
    ensures ready { IfOk result (λ machine. IsReady machine) }
{
    sound_machine(alloc, object, steps)
}

/// A program, what is asked, what was given, and its machine after the given steps.
#[tactic(auto, using(commands::proofs::WorksInTurn::turns))]
pub(crate) fn start_on(
    alloc: Global,
    object: Object,
    question: Question,
    given: Given,
) -> Result<Start, Fault>
    ensures start { Makes (start_on object question given) result }
    ensures ready { IfOk result (λ start. IsReady start.machine) }
{
    match ready_machine(alloc, &object, given.steps()) {
        Ok(machine) => Ok(Start {
            object,
            question,
            machine,
            given,
        }),
        Err(fault) => {
            drop((object, question, given));
            Err(fault)
        }
    }
}

/// A program, what `check` is asked of it, and what it is given.
#[tactic(auto, using(commands::proofs::WorksInTurn::turns))]
fn check_asked(
    alloc: Global,
    program: Questioned,
    options: &CheckOptions<'_>,
    steps: &[u8],
) -> Result<(Object, Question, Given), Fault>
    ensures asked { Makes (check_asked options.now program steps.now)
        (result_map_both (λ asked. (asked.1, asked.2)) (λ fault. fault) result) }
    ensures object { IfOk result (λ asked. asked.0 ≡ program.lined.object) }
{
    let question = check_question(alloc, &program, options)?;
    let Questioned {
        lined,
        questions,
        scope,
    } = program;
    drop((questions, scope));
    let LinedObject { object, lines } = lined;
    let given = given_by(alloc, lines, steps)?;
    Ok((object, question, given))
}

/// What `check` begins with.
///
/// # Errors
///
/// A fault of the program, of a condition or of the steps; a step that is refused; out of memory.
#[tactic(auto, using(commands::proofs::WorksInTurn::turns))]
pub fn check_start(
    alloc: Global,
    options: &CheckOptions<'_>,
    program: &[u8],
    steps: &[u8],
) -> Result<Start, Fault>
    ensures start { Makes (check_start options.now program.now steps.now) result }
    ensures ready { IfOk result (λ start. IsReady start.machine) }
{
    let program = read_questions(alloc, program)?;
    let (object, question, given) = check_asked(alloc, program, options, steps)?;
    start_on(alloc, object, question, given)
}

/// What `outcomes` begins with.
///
/// # Errors
///
/// A fault of the program or of the steps; a step that is refused; out of memory.
#[tactic(auto, using(commands::proofs::WorksInTurn::turns))]
pub fn outcomes_start(
    alloc: Global,
    options: &OutcomesOptions,
    program: &[u8],
    steps: &[u8],
) -> Result<Start, Fault>
    ensures start { Makes (outcomes_start options.now program.now steps.now) result }
    ensures ready { IfOk result (λ start. IsReady start.machine) }
{
    let LinedObject { object, lines } = read_lined(alloc, program)?;
    match given_by(alloc, lines, steps) {
        Ok(given) => start_on(alloc, object, no_condition(options.recovered), given),
        Err(fault) => {
            drop(object);
            Err(fault)
        }
    }
}
