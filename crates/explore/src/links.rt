//! How states were found, one after another: each from one that was found before, by steps. The steps of all stand in one list.
ghost use Rattle.std.specs.Prelude.{◌≡◌, ◌<◌, ◌++◌, [], ◌∷◌, Some, List, OnOk, length, slice_get};
ghost use Rattle.explore.specs.Found.{Link};
ghost use Rattle.explore.specs.KeyTables.{AreEnds, parts};

use crate::keys::start_of;
use machine::Step;
use std::alloc::{AllocError, Global};
use std::marker::Model;

/// How states were found.
#[derive(Drop)]
pub(crate) struct Links {
    /// Of each state the number of that from which it was found.
    parents: Vec<u32>,
    /// Where the steps end by which it was found from there.
    ends: Vec<usize>,
    /// The steps of all, those of one after those of another.
    steps: Vec<Step>,
}

impl Model for Links {
    ghost use Rattle.std.specs.Prelude.{◌≡◌, List, length};
    ghost use Rattle.explore.specs.Found.{Link, links_of};
    ghost use Rattle.explore.specs.KeyTables.{AreEnds, parts};

    ghost Value = { List Link };

    ghost view = { λ l. links_of l.parents.items (parts 0 l.ends.items l.steps.items) };

    ghost invariant = { λ l. AreEnds 0 l.ends.items (length l.steps.items) × (length l.parents.items ≡ length l.ends.items) };
}

/// The steps of a state.
fn steps_at<'a>(steps: &'a [Step], ends: &[usize], i: usize) -> &'a [Step]
    requires ends { AreEnds 0 ends.now (length steps.now) }
    requires there { i < length ends.now }
    ensures { slice_get (parts 0 ends.now steps.now) i ≡ Some result.now }
{
    // The prover then knows how long the list may be.
    let _count = steps.len();
    let start = start_of(ends, i);
    let end = ends[i];
    &steps[start..end]
}

impl Links {
    /// None yet.
    pub(crate) fn new(alloc: Global) -> Links
        ensures { result ≡ [] }
    {
        Links {
            parents: Vec::new(alloc),
            ends: Vec::new(alloc),
            steps: Vec::new(alloc),
        }
    }

    /// How many there are.
    pub(crate) fn len(&self) -> usize
        ensures { result ≡ length self.now }
    {
        self.ends.len()
    }

    /// The number of the state from which another was found.
    pub(crate) fn parent(&self, at: usize) -> usize
        requires { at < length self.now }
        ensures { (link : Link) → slice_get self.now at ≡ Some link → result ≡ link.parent }
    {
        self.parents[at] as usize
    }

    /// The steps by which a state was found from another.
    pub(crate) fn steps(&self, at: usize) -> &[Step]
        requires { at < length self.now }
        ensures { (link : Link) → slice_get self.now at ≡ Some link → result.now ≡ link.steps }
    {
        steps_at(&self.steps, &self.ends, at)
    }

    /// Adds a state that was found from the one of number `parent` by these steps. Numbers past 2^32 count as want of memory.
    pub(crate) fn push(&mut self, parent: usize, steps: &[Step]) -> Result<(), AllocError>
        ensures { OnOk result (self.new ≡ self.old ++ record { parent = parent; steps = steps.now } ∷ []) }
    {
        let Ok(number) = u32::try_from(parent) else {
            return Err(AllocError);
        };
        self.parents.reserve(1)?;
        self.ends.reserve(1)?;
        self.steps.extend_from_slice(steps)?;
        self.ends.push_reserved(self.steps.len());
        self.parents.push_reserved(number);
        Ok(())
    }
}
