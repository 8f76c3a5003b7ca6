//! Running schedules, and observing how they end.
ghost use Rattle.std.specs.Prelude.{◌≡◌, ◌+◌, ◌≤◌, ◌++◌, IfOk, OnOk, length, map, option_map, slice_get};
ghost use Rattle.std.specs.List.{range_with_len};
ghost use Rattle.lines_layout.specs.Lines.{max_words};
ghost use Rattle.machine.specs.Programs.{AreSiblings};
ghost use Rattle.hunt.specs.Outcomes.{AreOutcomes, observed, outcome_of, pair_of, pairs_of, register_values, registers_of};

use crate::observed::{Outcome, WordPair};
use isa::Reg;
use lines_layout::{LINE_WORDS, WordId};
use machine::{Machine, View};
use persist_buffer::Pending;
use schedule::{Plan, Range, run_plan};
use std::alloc::{AllocError, Global};
use workers::Gate;

/// The values of the registers of processor p, if there is one.
fn register_values(view: &View<'_>, p: usize) -> Option<[u64; 8]>
    ensures { result ≡ option_map (λ c. register_values c.regs) (slice_get view.now.processors p) }
{
    Some([
        view.reg(p, Reg::Rax)?,
        view.reg(p, Reg::Rcx)?,
        view.reg(p, Reg::Rdx)?,
        view.reg(p, Reg::Rbx)?,
        view.reg(p, Reg::Rsi)?,
        view.reg(p, Reg::Rdi)?,
        view.reg(p, Reg::R8)?,
        view.reg(p, Reg::R9)?,
    ])
}

/// The values of each processor's registers.
fn registers(alloc: Global, view: &View<'_>) -> Result<Vec<[u64; 8]>, AllocError>
    ensures { IfOk result (λ registers. registers.items ≡ registers_of view.now) }
{
    let mut registers = Vec::with_capacity(alloc, view.cpus())?;
    for p in 0..view.cpus() {
        registers.push(register_values(view, p).unwrap())?;
    }
    Ok(registers)
}

/// Appends the values of so many words from this one on.
fn push_words(
    words: &mut Vec<WordPair>,
    start: usize,
    count: usize,
    pending: &Pending,
) -> Result<(), AllocError>
    requires { start + count ≤ max_words }
    ensures { OnOk result (words.new.items
        ≡ words.old.items ++ map (pair_of pending.now.memory) (range_with_len start count)) }
{
    for place in 0..count {
        let word = WordId::new(start + place).unwrap();
        words.push(WordPair {
            coherent: pending.value(word),
            persisted: pending.persisted(word),
        })?;
    }
    Ok(())
}

/// The values of each word.
#[tactic(auto, using(crate::proofs::ObservedWords::line_over))]
fn words(alloc: Global, pending: &Pending) -> Result<Vec<WordPair>, AllocError>
    ensures { IfOk result (λ words. words.items ≡ pairs_of pending.now.memory pending.now.shape) }
{
    let counts = pending.shape().words();
    let mut words = Vec::new(alloc);
    for line in 0..counts.len() {
        push_words(
            &mut words,
            LINE_WORDS * line,
            usize::from(counts[line]),
            pending,
        )?;
    }
    Ok(words)
}

/// What is observed of a machine's state.
fn observe(alloc: Global, view: &View<'_>) -> Result<Outcome, AllocError>
    ensures { IfOk result (λ outcome. outcome ≡ observed view.now) }
{
    let registers = registers(alloc, view)?;
    let words = words(alloc, view.pending())?;
    Ok(Outcome::new(registers, words))
}

/// Runs a schedule from a machine's state on another machine of the same programs, and observes how it
/// ends.
fn outcome_on(
    alloc: Global,
    own: &mut Machine,
    machine: &Machine,
    plan: &Plan,
    number: u64,
) -> Result<Outcome, AllocError>
    requires { AreSiblings own.old machine.now }
    ensures outcome { IfOk result (λ outcome. outcome ≡ outcome_of plan.now machine.now number) }
    ensures programs { AreSiblings own.new machine.now }
{
    own.restore(machine);
    run_plan(own, plan, number);
    observe(alloc, &own.view())
}

/// How the schedule of a plan that has this number ends. The machine stays as it is. The only error is out of memory.
pub fn outcome(
    alloc: Global,
    machine: &Machine,
    plan: &Plan,
    number: u64,
) -> Result<Outcome, AllocError>
    ensures outcome { IfOk result (λ outcome. outcome ≡ outcome_of plan.now machine.now number) }
{
    let Ok(mut own) = machine.copy(alloc) else {
        return Err(AllocError);
    };
    outcome_on(alloc, &mut own, machine, plan, number)
}

/// How the schedules of a range end. They run on another machine of the same programs, one after another. The number of each
/// is reported to the gate, before it runs and when it has ended.
fn outcomes_on<G: Gate>(
    alloc: Global,
    own: &mut Machine,
    machine: &Machine,
    plan: &Plan,
    range: Range,
    gate: &G,
) -> Result<Vec<Outcome>, AllocError>
    requires { AreSiblings own.old machine.now }
    ensures { IfOk result (AreOutcomes plan.now machine.now range.first range.n) }
{
    let mut outcomes = Vec::with_capacity(alloc, range.n as usize)?;
    for k in 0..range.n {
        let number = range.first + k;
        gate.claimed(number);
        outcomes.push(outcome_on(alloc, own, machine, plan, number)?)?;
        gate.ended(number);
    }
    Ok(outcomes)
}

/// How the schedules of a range end. They run on one machine, one after another. The number of each is reported
/// to the gate, before it runs and when it has ended.
pub(crate) fn outcomes_from<G: Gate>(
    alloc: Global,
    machine: &Machine,
    plan: &Plan,
    range: Range,
    gate: &G,
) -> Result<Vec<Outcome>, AllocError>
    ensures { IfOk result (AreOutcomes plan.now machine.now range.first range.n) }
{
    let Ok(mut own) = machine.copy(alloc) else {
        return Err(AllocError);
    };
    outcomes_on(alloc, &mut own, machine, plan, range, gate)
}
