//! What is answered of every run.
ghost use Rattle.std.specs.Prelude.{◌≡◌, ◌↔◌, IsTrue, IfOk, max};
ghost use Rattle.explore.specs.Findings.{HasRun};
ghost use Rattle.explore.specs.Gathered.{findings_of};

use crate::gathered::Gathered;
use crate::numbers::Numbers;
use crate::path::Path;
use images::Image;
use std::alloc::{AllocError, Global};
use std::marker::Model;

/// Which condition is asked.
#[derive(Clone, Copy, Debug, PartialEq, Eq)]
pub enum Asked {
    /// That of every image in every state.
    All,
    /// That of every end before a crash.
    Ends,
    /// That of every end after a crash.
    Recovered,
}

/// A run that makes a condition false.
#[derive(Debug, Drop)]
pub struct Failure {
    /// Which condition it is.
    pub asked: Asked,
    /// The first image that makes it false in the state to which the run leads; of an end the values of its words.
    pub values: Image,
    /// The steps of the run, all accepted.
    pub run: Path,
}

/// What is found where no run makes a condition false.
#[derive(Drop)]
pub struct Findings {
    states: u64,
    ends: Vec<Numbers>,
    recovered: Vec<Numbers>,
    images: Vec<Numbers>,
    ran: Vec<Numbers>,
}

impl Model for Findings {
    ghost use Rattle.explore.specs.Findings.{Findings};

    ghost Value = { Findings };

    ghost view = { λ f. record { states = f.states; ends = f.ends.items; recovered = f.recovered.items; images = f.images.items; ran = f.ran.items } };
}

impl Findings {
    /// What is found, where all was visited: so many states, and what they gave.
    pub(crate) fn of(
        alloc: Global,
        states: u64,
        gathered: &Gathered,
    ) -> Result<Findings, AllocError>
        ensures { IfOk result (λ found. found ≡ findings_of states gathered.now) }
    {
        let ends = gathered.ends.in_order(alloc)?;
        let recovered = gathered.recovered.in_order(alloc)?;
        let images = gathered.images.in_order(alloc)?;
        let ran = gathered.ran.to_vec(alloc)?;
        Ok(Findings {
            states,
            ends,
            recovered,
            images,
            ran,
        })
    }

    /// Another exploration told so many states apart: if they are more, as many were told apart.
    pub(crate) fn note_states(&mut self, states: u64)
        ensures { self.new ≡ record self.old { states = max self.old.states states } }
    {
        self.states = self.states.max(states);
    }

    /// How many states were told apart.
    pub fn states(&self) -> u64
        ensures { result ≡ self.now.states }
    {
        self.states
    }

    /// The outcomes of the ends before a crash, ascending, each once.
    pub fn ends(&self) -> &[Numbers]
        ensures { result.now ≡ self.now.ends }
    {
        &self.ends
    }

    /// The outcomes of the ends after a crash, ascending, each once.
    pub fn recovered(&self) -> &[Numbers]
        ensures { result.now ≡ self.now.recovered }
    {
        &self.recovered
    }

    /// The images that a crash may leave in all states that runs reach, where they are asked for: ascending, each once.
    pub fn images(&self) -> &[Numbers]
        ensures { result.now ≡ self.now.images }
    {
        &self.images
    }

    /// Whether some run executes the instruction at a place of the main program of processor p, or of its recovery program.
    /// The only error is out of memory.
    pub fn has_run(
        &self,
        alloc: Global,
        p: usize,
        recovery: bool,
        place: usize,
    ) -> Result<bool, AllocError>
        ensures { IfOk result (λ has_run. IsTrue has_run ↔ HasRun self.now p recovery place) }
    {
        let site = Numbers::site(alloc, p, recovery, place)?;
        Ok(self.ran.contains(&site))
    }
}

/// What is answered of every run.
#[derive(Drop)]
pub enum Verdict {
    /// Each condition that is asked for is true of all that runs reach.
    Holds(Findings),
    /// One of them is not: this run makes it false.
    Fails(Failure),
}
