//! Calls, what they are answered, and receipts.
ghost use Rattle.std.specs.Prelude.{◌≡◌, ◌↔◌, IsTrue};
ghost use Rattle.live.specs.Journal.{answer_to, receipt_of, state_from, step_asked};

use crate::same::{same_refusal, same_seen, same_step_if_any};
use images::{Cond, holds};
use machine::{Machine, Refusal, Seen, Step};

/// What a seat asks.
#[derive(Drop)]
pub enum Call {
    /// To make a step.
    Make(Step),
    /// Whether a condition holds in the machine's state.
    Look(Cond),
}

/// What a call is answered.
#[derive(Clone, Copy, Debug, PartialEq, Eq)]
pub enum Answer {
    /// What the step showed, or why the machine refused it.
    Made(Result<Seen, Refusal>),
    /// Whether the condition held.
    Looked(bool),
}

/// One call of a journal.
#[derive(Drop)]
pub struct JournalEntry {
    /// The number of the seat that made the call.
    pub seat: u32,
    /// What the seat asked.
    pub call: Call,
    /// What it was answered.
    pub answer: Answer,
}

/// What a seat hears of its call: the entry of the journal without its condition.
#[derive(Clone, Copy, Debug, PartialEq, Eq)]
pub struct Receipt {
    /// The number of the call's entry in the journal, from 0.
    pub number: u64,
    /// The number of the seat that made the call.
    pub seat: u32,
    /// The step, unless the call is a look.
    pub step: Option<Step>,
    /// What the call was answered.
    pub answer: Answer,
}

impl Call {
    /// The step, unless it is a look.
    pub fn step(&self) -> Option<Step>
        ensures { result ≡ step_asked self.now }
    {
        match self {
            Call::Make(step) => Some(*step),
            Call::Look(_) => None,
        }
    }

    /// Makes the call on a machine.
    pub fn made_on(&self, machine: &mut Machine) -> Answer
        ensures answer { result ≡ answer_to machine.old self.now }
        ensures state { machine.new ≡ state_from machine.old self.now }
    {
        match self {
            Call::Make(step) => Answer::Made(machine.step(*step)),
            Call::Look(cond) => Answer::Looked(holds(cond, &machine.view())),
        }
    }
}

impl Answer {
    /// Whether the two are equal.
    pub fn is(&self, other: &Answer) -> bool
        ensures { IsTrue result ↔ (self.now ≡ other.now) }
    {
        match (self, other) {
            (Answer::Made(Ok(a)), Answer::Made(Ok(b))) => same_seen(a, b),
            (Answer::Made(Err(a)), Answer::Made(Err(b))) => same_refusal(a, b),
            (Answer::Looked(a), Answer::Looked(b)) => a == b,
            _ => false,
        }
    }
}

impl JournalEntry {
    /// The entry in the form of a receipt.
    pub fn receipt(&self, number: u64) -> Receipt
        ensures { result ≡ receipt_of number self.now }
    {
        Receipt {
            number,
            seat: self.seat,
            step: self.call.step(),
            answer: self.answer,
        }
    }
}

impl Receipt {
    /// Whether the two are equal.
    pub fn is(&self, other: &Receipt) -> bool
        ensures { IsTrue result ↔ (self.now ≡ other.now) }
    {
        self.number == other.number
            && self.seat == other.seat
            && same_step_if_any(&self.step, &other.step)
            && self.answer.is(&other.answer)
    }
}
