//! Steps that are a processor's own, and following them to their end.
ghost use Rattle.std.specs.Prelude.{◌≡◌, ◌++◌, ◌<◌, ◌||◌, not, Some, is_some, IfOk, OnOk, slice_get};
ghost use Rattle.lines_layout.specs.Lines.{word_at};
ghost use Rattle.isa.specs.Effects.{is_taken};
ghost use Rattle.isa.specs.Loadables.{max_processors};
ghost use Rattle.isa.specs.Operands.{address_meant};
ghost use Rattle.machine.specs.Programs.{AreSiblings};
ghost use Rattle.machine.specs.State.{Processor};
ghost use Rattle.machine.specs.declared.step.Step.TheVariants.{Exec, Drain};
ghost use Rattle.explore.specs.Followed.{begins_with_fence, first_own, makes_own, own_at, own_end, owns_of, runs_own};
ghost use Rattle.explore.specs.Found.{FollowsOwn, HasNode};
ghost use Rattle.explore.specs.Gathered.{executed, followed_runs};
ghost use Rattle.explore.specs.Own.{is_before};
ghost use Rattle.explore.specs.Sets.{included_all};

use crate::found::Found;
use crate::gathered::note_run;
use crate::key::key_of;
use crate::node::Node;
use crate::numbers::NumberSet;
use isa::{Access, FenceKind, Instr, JumpKind, MemoryOperand};
use machine::{Machine, Step, View};
use std::alloc::{AllocError, Global};
use store_buffer::Entry;

/// Whether what an operand of processor p means is the address of a word.
fn names_word(view: &View<'_>, p: usize, operand: MemoryOperand) -> bool
    ensures { (c : Processor) → slice_get view.now.processors p ≡ Some c
        → result ≡ is_some (word_at view.now.shape (address_meant c.regs operand)) }
{
    let address = match operand {
        MemoryOperand::Word(word) => Some(word.address()),
        MemoryOperand::Register(r) => view.reg(p, r),
    };
    match address {
        Some(address) => view.shape().word_at(address).is_some(),
        None => false,
    }
}

/// Whether a jump of processor p leads to a later place.
fn leads_on(view: &View<'_>, p: usize, kind: JumpKind, target: usize) -> bool
    ensures { (c : Processor) → slice_get view.now.processors p ≡ Some c
        → result ≡ (is_before c.place target || not (is_taken kind c.regs.zero)) }
{
    match (view.place(p), view.zf(p)) {
        (Some(place), Some(zero)) => place < target || !kind.is_taken(zero),
        _ => false,
    }
}

/// Whether an instruction that processor p runs is a step of its own.
fn runs_own(locals: bool, view: &View<'_>, p: usize, instr: &Instr) -> bool
    ensures { (c : Processor) → slice_get view.now.processors p ≡ Some c
        → result ≡ runs_own locals view.now.shape c instr.now }
{
    match instr {
        Instr::Memory(Access::Store(_) | Access::Flush(_), operand) => names_word(
            view, p, *operand,
        ),
        Instr::Memory(Access::Load(_) | Access::Locked(..), _) => false,
        Instr::Fence(FenceKind::Sfence) => true,
        Instr::Fence(FenceKind::Mfence) => false,
        Instr::Jump(kind, target) => locals && leads_on(view, p, *kind, *target),
        Instr::Set(..) | Instr::Compute(..) | Instr::Nop => locals,
    }
}

/// Whether processor p may run its next instruction, as a step of its own.
fn may_run(locals: bool, here: &Machine, p: usize) -> bool
    requires { p < max_processors }
    ensures { result ≡ makes_own locals here.now (Exec p) }
{
    let view = here.view();
    match view.instruction(p) {
        Some(instr) => {
            runs_own(locals, &view, p, &instr) && here.check(Step::Exec(p as u32)).is_none()
        }
        None => false,
    }
}

/// Whether the oldest entry of a store buffer is an sfence.
fn begins_with_fence(buffer: &[Entry]) -> bool
    ensures { result ≡ begins_with_fence buffer.now }
{
    match buffer {
        [Entry::Sfence, ..] => true,
        [Entry::Write(..) | Entry::Flush(_) | Entry::FlushOpt(_), ..] | [] => false,
    }
}

/// Whether the oldest entry of processor p's store buffer is an sfence, and may leave it.
fn may_leave(locals: bool, here: &Machine, p: usize) -> bool
    requires { p < max_processors }
    ensures { result ≡ makes_own locals here.now (Drain p 0) }
{
    match here.view().buffer(p) {
        Some(buffer) => {
            begins_with_fence(buffer) && here.check(Step::Drain(p as u32, 0)).is_none()
        }
        None => false,
    }
}

/// The own step of processor p, if there is one.
fn own_at(locals: bool, here: &Machine, p: usize) -> Option<Step>
    requires { p < max_processors }
    ensures { result ≡ own_at locals here.now p }
{
    if may_run(locals, here, p) {
        Some(Step::Exec(p as u32))
    } else if may_leave(locals, here, p) {
        Some(Step::Drain(p as u32, 0))
    } else {
        None
    }
}

/// The first step that is a processor's own, if there is one.
fn first_own(locals: bool, here: &Machine) -> Option<Step>
    ensures { result ≡ first_own locals here.now }
{
    for p in 0..here.view().cpus() {
        if let Some(step) = own_at(locals, here, p) {
            return Some(step);
        }
    }
    None
}

/// Adds the instruction that a step executes, if it executes one.
fn note_step(
    alloc: Global,
    here: &Machine,
    step: Step,
    ran: &mut NumberSet,
) -> Result<(), AllocError>
    ensures { OnOk result (ran.new ≡ included_all ran.old (executed here.now step)) }
{
    if let Step::Exec(p) = step {
        note_run(alloc, here, p, ran)?;
    }
    Ok(())
}

/// Makes own steps, one after another, to their end. They are appended to some steps, and what they execute is added.
pub(crate) fn follow(
    alloc: Global,
    locals: bool,
    here: &mut Machine,
    steps: &mut Vec<Step>,
    ran: &mut NumberSet,
) -> Result<(), AllocError>
    ensures end { OnOk result (here.new ≡ own_end locals here.old) }
    ensures steps { OnOk result (steps.new.items ≡ steps.old.items ++ owns_of locals here.old) }
    ensures ran { OnOk result (ran.new ≡ included_all ran.old (followed_runs locals here.old)) }
    ensures siblings { AreSiblings here.new here.old }
{
    while let Some(step) = first_own(locals, here) {
        note_step(alloc, here, step, ran)?;
        steps.push(step)?;
        here.run(&[step]);
    }
    Ok(())
}

/// Follows the own steps of a node, on another machine: where there are any, what they lead to is found, and what they execute is
/// added.
pub(crate) fn follow_node(
    alloc: Global,
    locals: bool,
    node: &Node,
    spare: &mut Machine,
    found: &mut Found,
    ran: &mut NumberSet,
) -> Result<bool, AllocError>
    requires siblings { AreSiblings spare.old node.now.state }
    requires there { HasNode found.old node.now }
    ensures followed { IfOk result (FollowsOwn locals node.now found.old found.new) }
    ensures ran { OnOk result (ran.new ≡ included_all ran.old (followed_runs locals node.now.state)) }
    ensures siblings { OnOk result (AreSiblings spare.new node.now.state) }
    ensures there { OnOk result (HasNode found.new node.now) }
{
    if first_own(locals, &node.state).is_none() {
        return Ok(false);
    }
    spare.restore(&node.state);
    let mut steps = Vec::new(alloc);
    follow(alloc, locals, spare, &mut steps, ran)?;
    let key = key_of(alloc, found.sets(), &spare.view())?;
    found.add_behind(alloc, key, node, &steps)?;
    Ok(true)
}
