//! The search of all that runs reach.
ghost use Rattle.std.specs.Prelude.{◌≡◌, ◌<◌, [], IfOk, OnOk, length};
ghost use Rattle.machine.specs.Programs.{AreSiblings};
ghost use Rattle.explore.specs.Ahead.{counts_locals};
ghost use Rattle.explore.specs.Exploring.{Explores, HasBegun, IsToldBy, TriesWhole, Visits};
ghost use Rattle.explore.specs.Found.{added, no_states, HasNode};
ghost use Rattle.explore.specs.Keys.{key_of};
ghost use Rattle.explore.specs.Questions.{IsVerdict};
ghost use Rattle.explore.specs.Sound.{IsSound};
ghost use Rattle.explore.specs.Visits.{MayBeToldFor};

use crate::ends::look_at_ends;
use crate::fault::ExploreFault;
use crate::found::Found;
use crate::gathered::{Gathered, note_images, note_runs};
use crate::key::key_of;
use crate::node::{Node, copy_of};
use crate::on_the_way::fails_on_way;
use crate::own::follow_node;
use crate::question::Question;
use crate::tries::try_steps;
use crate::verdict::{Findings, Verdict};
use crate::visit::{Sight, Stop, fall_if, look_once};
use machine::Machine;
use std::alloc::{AllocError, Global};
use workers::Gate;

/// A search: what it has found so far, and the machines that it needs for it.
#[derive(Drop)]
pub(crate) struct Search {
    /// The state that is visited.
    node: Node,
    /// Another machine of the same programs, on which steps are tried.
    spare: Machine,
    /// The states that were found.
    found: Found,
    /// What those give that were visited.
    gathered: Gathered,
}

/// The first state, found; and whether keys tell what each line may hold.
fn first_found(alloc: Global, sets: bool, start: &Machine) -> Result<Found, AllocError>
    ensures { IfOk result (λ found. found ≡ added (no_states sets) (key_of sets start.now) []) }
{
    let key = key_of(alloc, sets, &start.view())?;
    let mut found = Found::new(alloc, sets);
    found.add(alloc, key, 0, &[])?;
    Ok(found)
}

/// The first state, to be visited, and another machine in it.
fn first_machines(alloc: Global, start: &Machine) -> Result<(Node, Machine), AllocError>
    ensures node { IfOk result (λ first. AreSiblings first.0.state start.now) }
    ensures trail { IfOk result (λ first. first.0.trail ≡ start.now) }
    ensures spare { IfOk result (λ first. AreSiblings first.1 start.now) }
{
    let spare = copy_of(alloc, start)?;
    Ok((Node::first(alloc, start)?, spare))
}

impl Search {
    /// A search that has found the first state, and visited none.
    fn begin(alloc: Global, question: &Question, start: &Machine) -> Result<Search, AllocError>
        ensures begun { IfOk result (HasBegun question.now start.now) }
        ensures node { IfOk result (λ search. AreSiblings search.node.state start.now) }
        ensures trail { IfOk result (λ search. search.node.trail ≡ start.now) }
        ensures spare { IfOk result (λ search. AreSiblings search.spare start.now) }
    {
        let found = first_found(alloc, question.by_sets(start), start)?;
        let (node, spare) = first_machines(alloc, start)?;
        Ok(Search {
            node,
            spare,
            found,
            gathered: Gathered::new(alloc),
        })
    }
}

/// Tries the steps from a state in which none is a processor's own, looks at the images unless they are left to a later state, and
/// finds all that the state leads to. It is told whether local steps count as a processor's own.
fn try_all(
    alloc: Global,
    question: &Question,
    locals: bool,
    search: &mut Search,
) -> Result<Option<Stop>, AllocError>
    requires locals { locals ≡ counts_locals question.now }
    requires siblings { AreSiblings search.old.spare search.old.node.state }
    requires there { HasNode search.old.found search.old.node }
    ensures tried { IfOk result (TriesWhole question.now search.old search.new) }
    ensures node { OnOk result (search.new.node ≡ search.old.node) }
    ensures siblings { OnOk result (AreSiblings search.new.spare search.new.node.state) }
{
    let tried = try_steps(
        alloc,
        locals,
        &search.node,
        &mut search.spare,
        &mut search.found,
        &mut search.gathered.ran,
    )?;
    let left = tried.leaves(question, &search.node, search.found.sets());
    let looked = &mut search.gathered.looked;
    let images = match look_once(alloc, question, &search.node, left, locals, looked)? {
        Sight::Ends(stop) => return Ok(Some(stop)),
        Sight::Go(images) => images,
    };
    let ends = look_at_ends(
        alloc,
        question,
        &search.node,
        &mut search.spare,
        &mut search.gathered,
    )?;
    if let Some(stop) = ends {
        return Ok(Some(stop));
    }
    if tried.lacks.is_some() {
        return Ok(Some(Stop::Untold(ExploreFault::NoRoom)));
    }
    note_images(alloc, question.images, &images, &mut search.gathered)?;
    fall_if(
        alloc,
        question.crashes,
        &search.node,
        &images,
        &mut search.found,
    )?;
    Ok(None)
}

/// What ends the search in a state: in place of a fault, the first state on the way there that fails, as images may have been left to
/// later ones.
fn first_stop(
    alloc: Global,
    start: &Machine,
    question: &Question,
    node: &Node,
    stop: Option<Stop>,
) -> Result<Option<Stop>, AllocError>
    ensures { IfOk result (MayBeToldFor question.now start.now node.now.path stop) }
{
    if let Some(Stop::Untold(_)) = &stop {
        if let Some(failure) = fails_on_way(alloc, start, question, &node.path)? {
            return Ok(Some(Stop::Fails(failure)));
        }
    }
    Ok(stop)
}

/// Visits a state: own steps are followed to their end, where it has any; where not, what it leads to is found. Or the search ends.
/// It is told whether local steps count as own.
fn visit(
    alloc: Global,
    start: &Machine,
    question: &Question,
    locals: bool,
    at: usize,
    search: &mut Search,
) -> Result<Option<Stop>, AllocError>
    requires locals { locals ≡ counts_locals question.now }
    requires node { AreSiblings search.old.node.state start.now }
    requires trail { search.old.node.trail ≡ start.now }
    requires spare { AreSiblings search.old.spare start.now }
    requires there { at < length search.old.found.paths }
    ensures visit { IfOk result (Visits question.now start.now at search.old search.new) }
    ensures node { OnOk result (AreSiblings search.new.node.state start.now) }
    ensures trail { OnOk result (search.new.node.trail ≡ start.now) }
    ensures spare { OnOk result (AreSiblings search.new.spare start.now) }
{
    search.node.go(alloc, start, &search.found, at)?;
    note_runs(alloc, &search.node.state, &mut search.gathered.ran)?;
    let has_own = follow_node(
        alloc,
        locals,
        &search.node,
        &mut search.spare,
        &mut search.found,
        &mut search.gathered.ran,
    )?;
    if has_own {
        return Ok(None);
    }
    let stop = try_all(alloc, question, locals, search)?;
    let told = first_stop(alloc, start, question, &search.node, stop)?;
    Ok(told)
}

/// Visits states, one after another in the order in which they are found, until all are visited or the search ends. The gate is
/// told of each, and how far the search came where it ends before that for want of states or of memory.
fn explore<G: Gate>(
    alloc: Global,
    start: &Machine,
    question: &Question,
    limit: u64,
    gate: &G,
    search: &mut Search,
) -> Result<Option<Stop>, AllocError>
    requires node { AreSiblings search.old.node.state start.now }
    requires trail { search.old.node.trail ≡ start.now }
    requires spare { AreSiblings search.old.spare start.now }
    ensures { IfOk result (Explores question.now start.now limit search.old search.new) }
{
    let locals = question.counts_locals();
    let mut at = 0;
    while at < search.found.len() {
        let steps = search.node.path.steps().len() as u64;
        if search.found.len() as u64 > limit {
            gate.stopped(search.found.len() as u64, at as u64, steps);
            return Ok(Some(Stop::Untold(ExploreFault::TooManyStates)));
        }
        let Ok(stop) = visit(alloc, start, question, locals, at, search) else {
            gate.stopped(search.found.len() as u64, at as u64, steps);
            return Err(AllocError);
        };
        gate.ended(at as u64);
        if let Some(stop) = stop {
            return Ok(Some(stop));
        }
        at += 1;
    }
    Ok(None)
}

/// What is answered, where a search came to this.
fn verdict_of(
    alloc: Global,
    stop: Option<Stop>,
    states: u64,
    gathered: &Gathered,
) -> Result<Verdict, ExploreFault>
    ensures { IsToldBy stop states gathered.now result }
{
    match stop {
        Some(Stop::Fails(failure)) => Ok(Verdict::Fails(failure)),
        Some(Stop::Untold(fault)) => Err(fault),
        None => match Findings::of(alloc, states, gathered) {
            Ok(found) => Ok(Verdict::Holds(found)),
            Err(_) => Err(ExploreFault::NoMemory),
        },
    }
}

/// Explores every run for all that is asked, at once: what is answered, as of [`crate::check`]. The gate is told of each state, by
/// its number, once it was explored.
pub(crate) fn explore_one<G: Gate>(
    alloc: Global,
    start: &Machine,
    question: &Question,
    limit: u64,
    gate: &G,
) -> Result<Verdict, ExploreFault>
    ensures { IsSound start.now → IsVerdict question.now start.now limit result }
{
    let mut search = Search::begin(alloc, question, start)?;
    match explore(alloc, start, question, limit, gate, &mut search) {
        Ok(stop) => verdict_of(alloc, stop, search.found.len() as u64, &search.gathered),
        Err(_) => Err(ExploreFault::NoMemory),
    }
}
