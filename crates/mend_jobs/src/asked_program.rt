//! What `fences` and `mend` begin with: a program, and what is asked of all its runs.
ghost use Rattle.std.specs.Prelude.{◌≡◌, option_map};
ghost use Rattle.commands.specs.Works.{Makes};
ghost use Rattle.mend_jobs.specs.Beginnings.{asked_program, asked_question, fence_work, fences_start, lacks_fence, site_asked};

use commands::{AskedRuns, AskedSite, Fault, FencesOptions, Refused, condition_in, read_questions};
use explore::Question;
use fence_needs::{instr_at, is_fence};
use image_reasons::Site;
use isa::Object;
use litmus_text::{LinedObject, TextLines};
use questions::Questioned;
use std::alloc::Global;

/// A program, and what is asked of all its runs from its first state.
#[derive(Drop)]
pub struct AskedProgram {
    /// What the program says.
    pub object: Object,
    /// Where its text says its instructions, if it is a text.
    pub lines: TextLines,
    /// What is asked of every run.
    pub question: Question,
}

/// What is asked of a program.
#[tactic(auto, using(commands::proofs::WorksInTurn::turns))]
fn asked_question(
    alloc: Global,
    program: &Questioned,
    asked: &AskedRuns<'_>,
) -> Result<Question, Fault>
    ensures { Makes (asked_question asked.now program.now) result }
{
    let all = condition_in(alloc, program, asked.all)?;
    let ends = condition_in(alloc, program, asked.ends)?;
    let recovered = condition_in(alloc, program, asked.recovered)?;
    Ok(Question {
        crashes: !asked.before_crash,
        all,
        ends,
        recovered,
        images: false,
    })
}

/// The program that bytes say, and what is asked of it.
#[tactic(auto, using(commands::proofs::WorksInTurn::turns))]
pub(crate) fn asked_program(
    alloc: Global,
    asked: &AskedRuns<'_>,
    program: &[u8],
) -> Result<AskedProgram, Fault>
    ensures { Makes (asked_program asked.now program.now) result }
{
    let program = read_questions(alloc, program)?;
    match asked_question(alloc, &program, asked) {
        Ok(question) => {
            let Questioned {
                lined,
                questions,
                scope,
            } = program;
            drop((questions, scope));
            let LinedObject { object, lines } = lined;
            Ok(AskedProgram {
                object,
                lines,
                question,
            })
        }
        Err(fault) => {
            drop(program);
            Err(fault)
        }
    }
}

/// The site that the command line names.
fn site_asked(asked: AskedSite) -> Site
    ensures { result ≡ site_asked asked }
{
    Site {
        processor: asked.processor,
        recovering: asked.recovery,
        place: asked.place as usize,
    }
}

/// The site of the one flush or fence that is asked about, where one is.
pub(crate) fn only_site(only: Option<AskedSite>) -> Option<Site>
    ensures { result ≡ option_map site_asked only }
{
    match only {
        Some(asked) => Some(site_asked(asked)),
        None => None,
    }
}

/// Whether a site is asked about at which there is no flush and no fence.
fn lacks_fence(object: &Object, only: Option<AskedSite>) -> bool
    ensures { result ≡ lacks_fence object.now only }
{
    match only {
        None => false,
        Some(asked) => !is_fence(&instr_at(object, site_asked(asked))),
    }
}

/// Whether there is a flush or a fence where one is asked about. Refused where there is none.
#[tactic(auto, unfolding(commands::specs::Works::Makes))]
fn check_fence(object: &Object, only: Option<AskedSite>) -> Result<(), Fault>
    ensures { Makes (fence_work only object.now) result }
{
    if lacks_fence(object, only) {
        Err(Fault::Refused(Refused::NoFence))
    } else {
        Ok(())
    }
}

/// What `fences` begins with.
#[tactic(auto, using(commands::proofs::WorksInTurn::turns))]
pub(crate) fn fences_start(
    alloc: Global,
    options: &FencesOptions<'_>,
    program: &[u8],
) -> Result<AskedProgram, Fault>
    ensures { Makes (fences_start options.now program.now) result }
{
    let asked = asked_program(alloc, &options.asked, program)?;
    match check_fence(&asked.object, options.only) {
        Ok(()) => Ok(asked),
        Err(fault) => {
            drop(asked);
            Err(fault)
        }
    }
}
