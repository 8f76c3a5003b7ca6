//! The test that goes on: its sides, and its open square brackets.
ghost use Rattle.std.specs.Prelude.{◌≡◌, ◌∷◌, [], IfOk, None, OnOk, reverse};
ghost use Rattle.conditions.specs.Reading.{TakesFirst};
ghost use Rattle.outcomes.specs.Calls.{Answers, Leaves};
ghost use Rattle.outcomes.specs.Faults.{fault_in};
ghost use Rattle.questions.specs.Bodies.{address_with, no_test, pointed, side_with};

use crate::sum::{Sum, joined_terms};
use conditions::{Comparison, Term};
use litmus_text::LineFault;
use outcomes::OrNoMemory;
use std::alloc::{AllocError, Global};
use std::mem;

/// What was read of a test.
#[derive(Drop)]
pub struct Test {
    /// Its left side and how it compares, once its right side is read.
    pub left: Option<(Sum, Comparison)>,
    /// The side that goes on.
    pub side: Sum,
    /// Whether the part to come is taken away.
    pub takes: bool,
}

/// An open square bracket.
#[derive(Drop)]
pub struct Pointer {
    /// Whether the coherent value of the word is read, or the persisted one.
    pub coherent: bool,
    /// The word's address, as far as it is read.
    pub sum: Option<Term>,
}

impl Test {
    /// No token of a test is read. It takes no memory.
    pub(crate) fn none() -> Test
        ensures { result ≡ no_test }
    {
        Test {
            left: None,
            side: Sum::none(),
            takes: false,
        }
    }

    /// A part is added to the side that goes on, or taken away from it.
    pub(crate) fn add(&mut self, alloc: Global, part: Sum) -> Result<(), OrNoMemory<LineFault>>
        ensures { Leaves fault_in (side_with part self.old) result self.new }
    {
        let side = mem::replace(&mut self.side, Sum::none());
        self.side = side.plus(alloc, part.signed(self.takes))?;
        Ok(())
    }
}

impl Pointer {
    /// A part, which takes nothing away, is added to the address.
    pub(crate) fn with(self, alloc: Global, part: Sum) -> Result<Pointer, OrNoMemory<LineFault>>
        ensures { Answers fault_in (address_with part self) result }
    {
        let Pointer { coherent, sum } = self;
        let sum = joined_terms(alloc, sum, part.plus)?;
        Ok(Pointer { coherent, sum })
    }
}

/// The value of the word whose address this is.
pub(crate) fn pointed(alloc: Global, coherent: bool, address: Term) -> Result<Term, AllocError>
    ensures { IfOk result (λ t. t ≡ pointed coherent address) }
{
    if coherent {
        address.coherent_at(alloc)
    } else {
        address.persisted_at(alloc)
    }
}

/// One more bracket inside the others.
#[tactic(auto, using(crate::proofs::ReversedLists::stack_steps))]
pub(crate) fn push_pointer(pointers: &mut Vec<Pointer>, pointer: Pointer) -> Result<(), AllocError>
    ensures { OnOk result (reverse pointers.new.items ≡ pointer ∷ reverse pointers.old.items) }
{
    pointers.push(pointer)?;
    Ok(())
}

/// Takes the innermost bracket out.
#[tactic(auto, using(crate::proofs::ReversedLists::stack_steps))]
pub(crate) fn pop_pointer(pointers: &mut Vec<Pointer>) -> Option<Pointer>
    ensures taken { TakesFirst (reverse pointers.old.items) result (reverse pointers.new.items) }
    ensures empty { result ≡ None → reverse pointers.new.items ≡ [] }
{
    pointers.pop()
}
