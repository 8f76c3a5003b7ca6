//! What an exploration has found.
ghost use Rattle.std.specs.Prelude.{◌≡◌, ◌++◌, ◌<◌, [], IfOk, OnOk, length, nat_eq, reverse};
ghost use Rattle.std.specs.List.{list_any};
ghost use Rattle.std.specs.Cmp.Lexicographic.{pointwise};
ghost use Rattle.explore.specs.Found.{added, added_after, linked, no_states, path_at, steps_at, HasNode, HasPath, IsBefore};

use crate::key::Key;
use crate::keys::Keys;
use crate::links::Links;
use crate::node::Node;
use crate::path::Path;
use machine::Step;
use std::alloc::{AllocError, Global};
use std::marker::Model;

/// The states that were found: how, and their keys.
#[derive(Drop)]
pub(crate) struct Found {
    /// Whether keys tell what each line may hold.
    sets: bool,
    links: Links,
    keys: Keys,
}

impl Model for Found {
    ghost use Rattle.std.specs.Prelude.{[]};
    ghost use Rattle.explore.specs.Found.{Found, linked};

    ghost Value = { Found };

    ghost view = { λ f. record { sets = f.sets; paths = linked [] f.links; keys = f.keys } };
}

/// Appends steps, the last one first.
fn push_back(back: &mut Vec<Step>, steps: &[Step]) -> Result<(), AllocError>
    ensures { OnOk result (back.new.items ≡ back.old.items ++ reverse steps.now) }
{
    for i in 0..steps.len() {
        back.push(steps[steps.len() - 1 - i])?;
    }
    Ok(())
}

/// The number of the state from which another was found; None for the first.
fn before(links: &Links, at: usize) -> Option<usize>
    requires { at < length links.now }
    ensures { IsBefore (linked [] links.now) links.now at result }
{
    let parent = links.parent(at);
    if parent < at { Some(parent) } else { None }
}

/// Appends the last steps to a state, the last one first.
fn push_link(links: &Links, at: usize, back: &mut Vec<Step>) -> Result<(), AllocError>
    requires { at < length links.now }
    ensures { OnOk result (back.new.items ≡ back.old.items ++ reverse (steps_at links.now at)) }
{
    push_back(back, links.steps(at))?;
    Ok(())
}

/// The steps from the start to a state. A list of others is room for them.
fn steps_to(links: &Links, at: usize, room: Vec<Step>) -> Result<Vec<Step>, AllocError>
    requires { at < length links.now }
    ensures { IfOk result (λ steps. steps.items ≡ path_at (linked [] links.now) at) }
{
    let mut back = room;
    back.clear();
    let mut next = Some(at);
    while let Some(i) = next {
        push_link(links, i, &mut back)?;
        next = before(links, i);
    }
    back.reverse();
    Ok(back)
}

impl Found {
    /// Nothing yet; and whether keys tell what each line may hold.
    pub(crate) fn new(alloc: Global, sets: bool) -> Found
        ensures { result ≡ no_states sets }
    {
        Found {
            sets,
            links: Links::new(alloc),
            keys: Keys::new(alloc),
        }
    }

    /// Whether keys tell what each line may hold.
    pub(crate) fn sets(&self) -> bool
        ensures { result ≡ self.now.sets }
    {
        self.sets
    }

    /// How many states were found.
    pub(crate) fn len(&self) -> usize
        ensures { result ≡ length self.now.paths }
    {
        self.links.len()
    }

    /// The steps from the start to a state. Another path is room for them.
    pub(crate) fn path(&self, at: usize, room: Path) -> Result<Path, AllocError>
        requires { at < length self.now.paths }
        ensures { IfOk result (λ path. HasPath self.now at path) }
    {
        Ok(Path::of(steps_to(&self.links, at, room.into_steps())?))
    }

    /// By how many steps a state was found from another.
    pub(crate) fn steps_from_parent(&self, at: usize) -> usize
        requires { at < length self.now.paths }
    {
        self.links.steps(at).len()
    }

    /// Whether a state with this key was found.
    pub(crate) fn has(&self, key: &Key) -> bool
        ensures { result ≡ list_any (pointwise nat_eq key.now) self.now.keys }
    {
        self.keys.has(key.bytes())
    }

    /// Adds a state with this key, which steps from another lead to, unless the key is there.
    pub(crate) fn add(
        &mut self,
        alloc: Global,
        key: Key,
        parent: usize,
        steps: &[Step],
    ) -> Result<(), AllocError>
        ensures { OnOk result (self.new ≡ added_after self.old parent key steps.now) }
    {
        if self.keys.has(key.bytes()) {
            return Ok(());
        }
        self.keys.push(alloc, key.bytes())?;
        self.links.push(parent, steps)?;
        Ok(())
    }

    /// Adds a state with this key, which steps from a node lead to, unless the key is there.
    pub(crate) fn add_behind(
        &mut self,
        alloc: Global,
        key: Key,
        node: &Node,
        steps: &[Step],
    ) -> Result<(), AllocError>
        requires { HasNode self.old node.now }
        ensures added { OnOk result (self.new ≡ added self.old key (node.now.path ++ steps.now)) }
        ensures there { OnOk result (HasNode self.new node.now) }
    {
        self.add(alloc, key, node.at, steps)?;
        Ok(())
    }
}
