//! The steps that processors may try, and what trying them finds.
ghost use Rattle.std.specs.Prelude.{◌≡◌, ◌≤◌, ◌<◌, ◌++◌, IfOk, OnOk};
ghost use Rattle.store_buffer.specs.Buffers.{buffer_room};
ghost use Rattle.isa.specs.Loadables.{max_processors};
ghost use Rattle.machine.specs.Programs.{AreSiblings};
ghost use Rattle.explore.specs.Questions.{is_room};
ghost use Rattle.explore.specs.Found.{drains, moves_by, moves_of, HasNode, Tries};
ghost use Rattle.explore.specs.Gathered.{runs_behind};
ghost use Rattle.explore.specs.Sets.{included_all};
ghost use Rattle.machine.specs.Steps.{step_of};

use crate::found::Found;
use crate::key::key_in;
use crate::node::Node;
use crate::numbers::NumberSet;
use crate::own::follow;
use machine::{Machine, Refusal, Step, View};
use std::alloc::{AllocError, Global};

/// For how many steps a list has room at first: more than most states have. Only time depends on it.
const MOVES: usize = 16;

/// Whether a refusal says that the pending list has no room.
pub(crate) fn is_room(refusal: Refusal) -> bool
    ensures { result ≡ is_room refusal }
{
    matches!(refusal, Refusal::LineFull | Refusal::MarkersFull)
}

/// Appends the drains of so many entries of processor p.
fn push_drains(moves: &mut Vec<Step>, p: u32, count: usize) -> Result<(), AllocError>
    requires { count ≤ buffer_room }
    ensures { OnOk result (moves.new.items ≡ moves.old.items ++ drains p count) }
{
    for i in 0..count {
        moves.push(Step::Drain(p, i as u32))?;
    }
    Ok(())
}

/// Appends the steps that processor p may try, if there is one.
fn push_moves(moves: &mut Vec<Step>, view: &View<'_>, p: usize) -> Result<(), AllocError>
    requires { p < max_processors }
    ensures { OnOk result (moves.new.items ≡ moves.old.items ++ moves_by view.now p) }
{
    let Some(buffer) = view.buffer(p) else {
        return Ok(());
    };
    moves.push(Step::Exec(p as u32))?;
    push_drains(moves, p as u32, buffer.len())
}

/// The steps that the processors may try.
pub(crate) fn moves(alloc: Global, view: &View<'_>) -> Result<Vec<Step>, AllocError>
    ensures { IfOk result (λ moves. moves.items ≡ moves_of view.now) }
{
    let mut moves = Vec::with_capacity(alloc, MOVES)?;
    for p in 0..view.cpus() {
        push_moves(&mut moves, view, p)?;
    }
    Ok(moves)
}

/// Tries a step from a node, on another machine, and follows the own steps behind it: the path with all these steps is found, and
/// what the own steps execute is added; or the step is answered, where it lacks room. The list of steps is room for them, and the bytes are
/// room for the key.
pub(crate) fn try_move(
    alloc: Global,
    locals: bool,
    node: &Node,
    spare: &mut Machine,
    step: Step,
    steps: &mut Vec<Step>,
    bytes: &mut Vec<u8>,
    found: &mut Found,
    ran: &mut NumberSet,
) -> Result<Option<Step>, AllocError>
    requires siblings { AreSiblings spare.old node.now.state }
    requires there { HasNode found.old node.now }
    ensures tried { IfOk result (Tries locals node.now step found.old found.new) }
    ensures ran { OnOk result (ran.new ≡ included_all ran.old (runs_behind locals (step_of node.now.state step))) }
    ensures siblings { OnOk result (AreSiblings spare.new node.now.state) }
    ensures there { OnOk result (HasNode found.new node.now) }
{
    if let Some(refusal) = node.state.check(step) {
        return Ok(if is_room(refusal) { Some(step) } else { None });
    }
    spare.restore(&node.state);
    spare.run(&[step]);
    steps.clear();
    steps.push(step)?;
    follow(alloc, locals, spare, steps, ran)?;
    let key = key_in(alloc, found.sets(), &spare.view(), bytes)?;
    found.add_behind(alloc, key, node, steps)?;
    Ok(None)
}
