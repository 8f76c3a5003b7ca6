//! A list of steps.
ghost use Rattle.std.specs.Prelude.{◌≡◌, ◌++◌, [], ◌∷◌, IfOk, OnOk};

use machine::Step;
use std::alloc::{AllocError, Global};
use std::marker::Model;

/// A list of steps.
#[derive(Debug, Drop)]
pub struct Path {
    steps: Vec<Step>,
}

impl Model for Path {
    ghost use Rattle.machine.specs.declared.step.Step.{Step};
    ghost use Rattle.std.specs.Prelude.{List};

    ghost Value = { List Step };

    ghost view = { λ p. p.steps.items };
}

impl Path {
    /// These steps.
    pub(crate) fn of(steps: Vec<Step>) -> Path
        ensures { result ≡ steps.items }
    {
        Path { steps }
    }

    /// The steps.
    pub fn steps(&self) -> &[Step]
        ensures { result.now ≡ self.now }
    {
        &self.steps
    }

    /// The steps, no more as a path.
    pub(crate) fn into_steps(self) -> Vec<Step>
        ensures { result.items ≡ self }
    {
        self.steps
    }

    /// Adds a step.
    pub(crate) fn push(&mut self, step: Step) -> Result<(), AllocError>
        ensures { OnOk result (self.new ≡ self.old ++ step ∷ []) }
    {
        self.steps.push(step)?;
        Ok(())
    }

    /// The path with more steps after it.
    pub(crate) fn then(&self, alloc: Global, more: &[Step]) -> Result<Path, AllocError>
        ensures { IfOk result (λ path. path ≡ self.now ++ more.now) }
    {
        let mut steps = Vec::from_slice(alloc, &self.steps)?;
        steps.extend_from_slice(more)?;
        Ok(Path { steps })
    }

    /// The same path again.
    pub(crate) fn copy(&self, alloc: Global) -> Result<Path, AllocError>
        ensures { IfOk result (λ path. path ≡ self.now) }
    {
        Ok(Path {
            steps: Vec::from_slice(alloc, &self.steps)?,
        })
    }
}
