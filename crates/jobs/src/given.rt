//! What was given of the runs that are explored.
ghost use Rattle.std.specs.Prelude.{◌≡◌};
ghost use Rattle.commands.specs.Works.{Makes};
ghost use Rattle.jobs.specs.Starts.{given_work};

use commands::{Fault, read_list};
use litmus_text::TextLines;
use machine::Step;
use std::alloc::Global;
use std::marker::Model;

/// What was given of the runs that are explored.
#[derive(Drop)]
pub struct Given {
    steps: Vec<Step>,
    lines: TextLines,
}

impl Model for Given {
    ghost use Rattle.jobs.specs.Given.{Given};

    ghost Value = { Given };

    ghost view = { λ g. record { steps = g.steps.items; lines = g.lines } };
}

impl Given {
    /// The steps, which every run begins with.
    pub fn steps(&self) -> &[Step]
        ensures { result.now ≡ self.now.steps }
    {
        &self.steps
    }

    /// Where the program's text says its instructions, if it is a text.
    pub fn lines(&self) -> &TextLines
        ensures { result.now ≡ self.now.lines }
    {
        &self.lines
    }
}

/// What is given by the lines of a program and by these bytes of steps.
#[tactic(auto, using(commands::proofs::WorksInTurn::turns))]
pub(crate) fn given_by(alloc: Global, lines: TextLines, steps: &[u8]) -> Result<Given, Fault>
    ensures { Makes (given_work lines steps.now) result }
{
    let steps = read_list(alloc, steps)?;
    Ok(Given { steps, lines })
}
