//! A state that is visited.
ghost use Rattle.std.specs.Prelude.{◌≡◌, ◌++◌, [], ◌∷◌, ◌<◌, IfOk, OnOk, length};
ghost use Rattle.machine.specs.Programs.{AreSiblings};
ghost use Rattle.explore.specs.Found.{HasPath, led_to};

use crate::found::Found;
use crate::path::Path;
use crate::trail::Trail;
use machine::{Machine, Step};
use std::alloc::{AllocError, Global};
use std::mem::replace;

/// The images of a state found at every so many steps, or just past them, are not left to later ones. Which run is told of several,
/// which fault, and time depend on it.
const BETWEEN_MILESTONES: usize = 16;

/// The same machine again.
pub(crate) fn copy_of(alloc: Global, machine: &Machine) -> Result<Machine, AllocError>
    ensures { IfOk result (λ copy. copy ≡ machine.now) }
{
    match machine.copy(alloc) {
        Ok(copy) => Ok(copy),
        Err(_) => Err(AllocError),
    }
}

/// A state that is visited, and how it was found.
#[derive(Drop)]
pub(crate) struct Node {
    /// A machine in this state.
    pub state: Machine,
    /// The steps that lead there from the start.
    pub path: Path,
    /// Its number: states are numbered in the order in which they are found.
    pub at: usize,
    /// By how many steps it was found from another state.
    last_steps: usize,
    /// Machines from along the path.
    trail: Trail,
}

impl Node {
    /// The start.
    pub(crate) fn first(alloc: Global, start: &Machine) -> Result<Node, AllocError>
        ensures siblings { IfOk result (λ node. AreSiblings node.state start.now) }
        ensures trail { IfOk result (λ node. node.trail ≡ start.now) }
    {
        let state = copy_of(alloc, start)?;
        Ok(Node {
            state,
            path: Path::of(Vec::new(alloc)),
            at: 0,
            last_steps: 0,
            trail: Trail::new(alloc, start)?,
        })
    }

    /// The state to which steps from the start lead. It has no number.
    pub(crate) fn along(alloc: Global, start: &Machine, path: &Path) -> Result<Node, AllocError>
        ensures path { IfOk result (λ node. node.path ≡ path.now) }
        ensures led { IfOk result (λ node. node.state ≡ led_to start.now path.now) }
    {
        let mut state = copy_of(alloc, start)?;
        state.run(path.steps());
        let path = path.copy(alloc)?;
        Ok(Node {
            state,
            path,
            at: 0,
            last_steps: 0,
            trail: Trail::new(alloc, start)?,
        })
    }

    /// Makes one more step.
    pub(crate) fn step(&mut self, step: Step) -> Result<(), AllocError>
        ensures path { OnOk result (self.new.path ≡ self.old.path ++ step ∷ []) }
        ensures led { OnOk result (self.new.state ≡ led_to self.old.state (step ∷ [])) }
    {
        self.state.run(&[step]);
        self.path.push(step)
    }

    /// Whether one of the steps by which it was found from another state is the 16th, the 32nd and so on from the start.
    pub(crate) fn is_milestone(&self) -> bool {
        self.path.steps().len() % BETWEEN_MILESTONES < self.last_steps
    }

    /// Goes to a state that was found: from where its path leaves that of the last one.
    pub(crate) fn go(
        &mut self,
        alloc: Global,
        start: &Machine,
        found: &Found,
        at: usize,
    ) -> Result<(), AllocError>
        requires siblings { AreSiblings self.old.state start.now }
        requires trail { self.old.trail ≡ start.now }
        requires there { at < length found.now.paths }
        ensures at { OnOk result (self.new.at ≡ at) }
        ensures path { OnOk result (HasPath found.now at self.new.path) }
        ensures led { OnOk result (self.new.state ≡ led_to start.now self.new.path) }
        ensures siblings { OnOk result (AreSiblings self.new.state start.now) }
        ensures trail { OnOk result (self.new.trail ≡ start.now) }
    {
        let room = replace(&mut self.path, Path::of(Vec::new(alloc)));
        let path = found.path(at, room)?;
        self.trail.go(alloc, path.steps(), &mut self.state)?;
        self.path = path;
        self.at = at;
        self.last_steps = found.steps_from_parent(at);
        Ok(())
    }
}
