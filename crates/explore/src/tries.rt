//! Trying the steps that processors may try from a state, and whether the state's images may be left to a later one.
ghost use Rattle.std.specs.Prelude.{◌≡◌, ◌&&◌, ◌||◌, None, IfOk, OnOk, true};
ghost use Rattle.machine.specs.Programs.{AreSiblings};
ghost use Rattle.machine.specs.Steps.{step_of};
ghost use Rattle.explore.specs.Ahead.{may_pass};
ghost use Rattle.explore.specs.Found.{HasNode, moves_of, Tries, TriesAll};
ghost use Rattle.explore.specs.Gathered.{runs_behind, runs_behind_all};
ghost use Rattle.explore.specs.Sets.{included_all};
ghost use Rattle.explore.specs.Visits.{GoesOnIf, leaves_no_marker, takes_nothing};

use crate::found::Found;
use crate::key::ROOM;
use crate::moves::{moves, try_move};
use crate::node::Node;
use crate::numbers::NumberSet;
use crate::question::Question;
use machine::{Machine, Step, View};
use std::alloc::{AllocError, Global};
use store_buffer::Entry;

/// What came of trying steps.
#[derive(Clone, Copy)]
pub(crate) struct Tried {
    /// The step that lacks room, if one does. Then none was tried after it.
    pub lacks: Option<Step>,
    /// Whether one that takes nothing led to a state that was not found before: then that shows what this one does.
    pub goes_on: bool,
}

impl Tried {
    /// Whether the images of a node are left to a later one. Those of a milestone are not.
    pub(crate) fn leaves(&self, question: &Question, node: &Node, sets: bool) -> bool
        ensures { result ≡ true → (self.now.goes_on && may_pass sets question.now) ≡ true }
    {
        !node.is_milestone() && self.goes_on && question.may_pass(sets)
    }

    /// Whether this step goes on, or one before it did.
    fn goes_on_after(&self, before: bool) -> bool
        ensures { result ≡ (before || self.now.goes_on) }
    {
        before || self.goes_on
    }
}

/// Whether an entry that leaves a store buffer leaves no marker.
fn leaves_no_marker(entry: Entry) -> bool
    ensures { result ≡ leaves_no_marker entry }
{
    match entry {
        Entry::Write(..) | Entry::Sfence => true,
        Entry::Flush(_) | Entry::FlushOpt(_) => false,
    }
}

/// Whether what lines may hold they still may after a step: whether a processor makes it, and it leaves no marker.
fn takes_nothing(view: &View<'_>, step: Step) -> bool
    ensures { result ≡ takes_nothing view.now step }
{
    match step {
        Step::Exec(_) => true,
        Step::Drain(p, i) => {
            let Some(buffer) = view.buffer(p as usize) else {
                return false;
            };
            match buffer.get(i as usize) {
                Some(entry) => leaves_no_marker(*entry),
                None => false,
            }
        }
        Step::Persist(_) | Step::Settle | Step::Crash => false,
    }
}

/// Tries a step from a node. The list of steps and the bytes are room for what it needs.
fn try_one(
    alloc: Global,
    locals: bool,
    node: &Node,
    spare: &mut Machine,
    step: Step,
    steps: &mut Vec<Step>,
    bytes: &mut Vec<u8>,
    found: &mut Found,
    ran: &mut NumberSet,
) -> Result<Tried, AllocError>
    requires siblings { AreSiblings spare.old node.now.state }
    requires there { HasNode found.old node.now }
    ensures tried { IfOk result (λ tried. Tries locals node.now step found.old found.new tried.lacks) }
    ensures on { IfOk result (λ tried. GoesOnIf tried.goes_on locals node.now found.old found.new) }
    ensures ran { OnOk result (ran.new ≡ included_all ran.old (runs_behind locals (step_of node.now.state step))) }
    ensures siblings { OnOk result (AreSiblings spare.new node.now.state) }
    ensures there { OnOk result (HasNode found.new node.now) }
{
    let before = found.len();
    let lacks = try_move(alloc, locals, node, spare, step, steps, bytes, found, ran)?;
    let goes_on = found.len() > before && takes_nothing(&node.state.view(), step);
    Ok(Tried { lacks, goes_on })
}

/// Tries steps from a node, one after another, up to one that lacks room.
fn try_each(
    alloc: Global,
    locals: bool,
    node: &Node,
    spare: &mut Machine,
    moves: &[Step],
    found: &mut Found,
    ran: &mut NumberSet,
) -> Result<Tried, AllocError>
    requires siblings { AreSiblings spare.old node.now.state }
    requires there { HasNode found.old node.now }
    ensures tried { IfOk result (λ tried. TriesAll locals node.now moves.now found.old found.new tried.lacks) }
    ensures on { IfOk result (λ tried. GoesOnIf tried.goes_on locals node.now found.old found.new) }
    ensures ran { IfOk result (λ tried. tried.lacks ≡ None → ran.new ≡ included_all ran.old (runs_behind_all locals node.now.state moves.now)) }
    ensures siblings { OnOk result (AreSiblings spare.new node.now.state) }
    ensures there { OnOk result (HasNode found.new node.now) }
{
    let mut steps = Vec::new(alloc);
    let mut bytes = Vec::with_capacity(alloc, ROOM)?;
    let mut goes_on = false;
    for step in moves {
        let tried = try_one(
            alloc, locals, node, spare, *step, &mut steps, &mut bytes, found, ran,
        )?;
        if tried.lacks.is_some() {
            return Ok(Tried {
                lacks: tried.lacks,
                goes_on: false,
            });
        }
        goes_on = tried.goes_on_after(goes_on);
    }
    Ok(Tried {
        lacks: None,
        goes_on,
    })
}

/// Tries the steps that the processors may try from a node, up to one that lacks room: what they lead to is found, and what own
/// steps execute behind them is added.
pub(crate) fn try_steps(
    alloc: Global,
    locals: bool,
    node: &Node,
    spare: &mut Machine,
    found: &mut Found,
    ran: &mut NumberSet,
) -> Result<Tried, AllocError>
    requires siblings { AreSiblings spare.old node.now.state }
    requires there { HasNode found.old node.now }
    ensures tried { IfOk result (λ tried. TriesAll locals node.now (moves_of node.now.state) found.old found.new tried.lacks) }
    ensures on { IfOk result (λ tried. GoesOnIf tried.goes_on locals node.now found.old found.new) }
    ensures ran { IfOk result (λ tried. tried.lacks ≡ None → ran.new ≡ included_all ran.old (runs_behind_all locals node.now.state (moves_of node.now.state))) }
    ensures siblings { OnOk result (AreSiblings spare.new node.now.state) }
    ensures there { OnOk result (HasNode found.new node.now) }
{
    let moves = moves(alloc, &node.state.view())?;
    let tried = try_each(alloc, locals, node, spare, &moves, found, ran)?;
    Ok(tried)
}
