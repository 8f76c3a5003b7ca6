//! What a hunt begins with.
ghost use Rattle.std.specs.Prelude.{◌≡◌, IfOk};
ghost use Rattle.std.specs.Result.{result_map_both};
ghost use Rattle.commands.specs.Works.{Makes};
ghost use Rattle.thread_jobs.specs.HuntStarts.{asked_work, range_work, start_work, AreNumbersOf};

use commands::{
    Fault, Refused, TallyOptions, machine_after, read_condition, read_list, read_questions,
};
use conditions::Cond;
use hunt::Search;
use isa::Object;
use litmus_text::{LinedObject, TextLines};
use machine::Step;
use questions::Questioned;
use schedule::Range;
use std::alloc::Global;
use std::marker::Model;

/// What a hunt begins with: a program, steps, and what is searched from the machine after them.
#[derive(Drop)]
pub struct HuntStart {
    /// What the program says.
    pub object: Object,
    /// The lines of its instructions, where it is a text.
    pub lines: TextLines,
    /// The steps that are made first.
    pub steps: Vec<Step>,
    /// The schedules that run from the machine after them, and what is to hold.
    pub search: Search,
}

impl Model for HuntStart {
    ghost use Rattle.conditions.specs.FormulaCodes.{coded_formula};
    ghost use Rattle.std.specs.Coded.{codes};
    ghost use Rattle.thread_jobs.specs.HuntStarts as starts;

    ghost Value = { starts.HuntStart };

    ghost coded = { Prim.hlevel (codes, coded_formula) };

    ghost view = { λ s. record {
      object = s.object;
      lines = s.lines;
      condition = s.search.cond;
      steps = s.steps.items;
      state = s.search.machine;
      schedules = record { plan = s.search.plan; first = s.search.range.first; runs = s.search.range.n };
    } };
}

/// The numbers of the schedules that are asked for. Refused where they go past the last number.
#[tactic(auto, unfolding(commands::specs::Works::Makes))]
pub(crate) fn range_of(schedules: &TallyOptions) -> Result<Range, Fault>
    ensures range { Makes (range_work schedules.now)
        (result_map_both (λ range. tt) (λ fault. fault) result) }
    ensures numbers { IfOk result (λ range. AreNumbersOf schedules.now range) }
{
    match Range::new(schedules.first, schedules.runs) {
        Some(range) => Ok(range),
        None => Err(Fault::Refused(Refused::TooManySchedules)),
    }
}

/// A program, and a condition of this text on it.
#[tactic(auto, using(commands::proofs::WorksInTurn::turns))]
fn asked_program(alloc: Global, text: &str, program: &[u8]) -> Result<(LinedObject, Cond), Fault>
    ensures { Makes (asked_work text.now program.now) result }
{
    let program = read_questions(alloc, program)?;
    match read_condition(alloc, &program, text) {
        Ok(cond) => {
            let Questioned {
                lined,
                questions,
                scope,
            } = program;
            drop((questions, scope));
            Ok((lined, cond))
        }
        Err(fault) => {
            drop(program);
            Err(fault)
        }
    }
}

/// What a hunt begins with that looks, among the schedules that are asked for, for what breaks a condition of this text.
#[tactic(auto, using(commands::proofs::WorksInTurn::turns))]
pub(crate) fn hunt_start(
    alloc: Global,
    text: &str,
    schedules: &TallyOptions,
    program: &[u8],
    steps: &[u8],
) -> Result<HuntStart, Fault>
    ensures { Makes (start_work text.now schedules.now program.now steps.now) result }
{
    let (lined, cond) = asked_program(alloc, text, program)?;
    let range = range_of(schedules)?;
    let steps = read_list(alloc, steps)?;
    let machine = machine_after(alloc, &lined.object, &steps)?;
    Ok(HuntStart {
        object: lined.object,
        lines: lined.lines,
        steps,
        search: Search {
            machine,
            plan: schedules.plan,
            cond,
            range,
        },
    })
}
