//! What the questions of a program are asked of.
ghost use Rattle.std.specs.Prelude.{◌≡◌, IfOk, option_copied};
ghost use Rattle.std.specs.List.{filter};
ghost use Rattle.std.specs.Result.{result_map_both};
ghost use Rattle.commands.specs.Works.{Makes, test};
ghost use Rattle.jobs.specs.Questions.{asking_start, chosen, if_any, is_named};
ghost use Rattle.jobs.specs.Starts.{IsReady};

use crate::given::given_by;
use crate::start::{Start, no_condition, start_on};
use commands::{Fault, QuestionOptions, Refused, read_questions};
use questions::{NamedQuestion, Questioned};
use std::alloc::Global;
use std::marker::Model;

/// What the questions of a program are asked of, and those that are asked.
#[derive(Drop)]
pub struct Asking {
    /// The program, what was given, and its machine after the given steps.
    pub start: Start,
    /// The questions, in the order of their lines.
    pub questions: Vec<NamedQuestion>,
}

impl Model for Asking {
    ghost use Rattle.conditions.specs.FormulaCodes.{coded_formula};
    ghost use Rattle.std.specs.Coded.{codes};
    ghost use Rattle.jobs.specs.Questions.{Asking};

    ghost Value = { Asking };

    ghost coded = { Prim.hlevel (codes, coded_formula) };

    ghost view = { λ a. record { start = a.start; questions = a.questions.items } };
}

/// Leaves the questions that have a name.
fn keep_named(questions: &mut Vec<NamedQuestion>, name: &[u8])
    ensures { questions.new.items ≡ filter (is_named name.now) questions.old.items }
{
    questions.retain(|question| question.name.as_slice() == name);
}

/// The questions that are asked: all of them, or that of a name.
#[tactic(auto, unfolding(commands::specs::Works::Makes))]
fn chosen(only: Option<&str>, questions: Vec<NamedQuestion>) -> Result<Vec<NamedQuestion>, Fault>
    ensures { Makes (test (chosen (option_copied only.entry) questions.items)) (result_map_both (λ v. v.items) (λ fault. fault) result) }
{
    let Some(name) = only else {
        return Ok(questions);
    };
    let mut named = questions;
    keep_named(&mut named, name.as_bytes());
    if named.is_empty() {
        return Err(Fault::Refused(Refused::Usage));
    }
    Ok(named)
}

/// What `check` begins with, where it asks the questions of a program.
///
/// # Errors
///
/// A fault of the program or of its questions; usage, where no question has the name that is asked for; a fault of the steps; a
/// step that is refused; out of memory.
#[tactic(auto, using(commands::proofs::WorksInTurn::turns))]
pub fn asking_start(
    alloc: Global,
    options: &QuestionOptions<'_>,
    program: &[u8],
    steps: &[u8],
) -> Result<Asking, Fault>
    ensures start { Makes (asking_start options.now program.now steps.now) result }
    ensures ready { IfOk result (λ asking. IsReady asking.start.machine) }
{
    let Questioned {
        lined,
        questions,
        scope,
    } = read_questions(alloc, program)?;
    drop(scope);
    let questions = chosen(options.only, questions)?;
    let given = given_by(alloc, lined.lines, steps)?;
    let start = start_on(
        alloc,
        lined.object,
        no_condition(!options.before_crash),
        given,
    )?;
    Ok(Asking { start, questions })
}
