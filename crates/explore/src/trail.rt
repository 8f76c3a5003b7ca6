//! Machines from along a path.
ghost use Rattle.std.specs.Prelude.{◌≡◌, ◌*◌, ◌≤◌, IfOk, OnOk, length, take};
ghost use Rattle.std.specs.List.{All};
ghost use Rattle.machine.specs.Programs.{AreSiblings};
ghost use Rattle.explore.specs.Found.{led_to};
ghost use Rattle.explore.specs.Trails.{distance, nearest, AreAlong, IsKeptBehind};

use crate::node::copy_of;
use machine::{Machine, Step};
use std::alloc::{AllocError, Global};
use std::marker::Model;

/// After each so many steps of a path a machine is kept.
const DISTANCE: usize = 16;

/// How many machines are kept at most.
const ROOM: usize = 64;

/// A path that was run from a start, and machines from along it: a path that begins as this one need not be run from its start.
#[derive(Drop)]
pub(crate) struct Trail {
    start: Machine,
    path: Vec<Step>,
    machines: Vec<Machine>,
    /// How many of the machines are from along the path. The others are room for later ones.
    kept: usize,
}

impl Model for Trail {
    ghost use Rattle.machine.specs.State.{State};
    ghost use Rattle.explore.specs.Trails.{AreAlong};

    ghost Value = { State };

    ghost view = { λ t. t.start };

    ghost invariant = { λ t. AreAlong t.start t.path.items t.machines.items t.kept };
}

/// How many steps two paths have in common at their beginning.
fn shared(path: &[Step], other: &[Step]) -> usize
    ensures same { take result path.now ≡ take result other.now }
    ensures within { result ≤ length other.now }
{
    let mut count = 0;
    while count < path.len() && count < other.len() && path[count] == other[count] {
        count += 1;
    }
    count
}

/// The last of so many machines that are kept; the start, where none is.
fn nearest<'m>(start: &'m Machine, machines: &'m [Machine], kept: usize) -> &'m Machine
    requires { kept ≤ length machines.now }
    ensures { result.now ≡ nearest start.now machines.now kept }
{
    if kept == 0 {
        start
    } else {
        &machines[kept - 1]
    }
}

/// Keeps a machine behind so many others.
fn keep(
    alloc: Global,
    machines: &mut Vec<Machine>,
    kept: usize,
    here: &Machine,
) -> Result<(), AllocError>
    requires alike { All (λ machine. AreSiblings machine here.now) machines.old.items }
    requires within { kept ≤ length machines.old.items }
    ensures kept { OnOk result (IsKeptBehind machines.old.items kept here.now machines.new.items) }
    ensures alike { All (λ machine. AreSiblings machine here.now) machines.new.items }
{
    if kept < machines.len() {
        let machine = &mut machines[kept];
        machine.restore(here);
        return Ok(());
    }
    machines.push(copy_of(alloc, here)?)?;
    Ok(())
}

/// Runs a path, of which machines are kept that are from along it, and keeps more: how many are kept then.
fn run_on(
    alloc: Global,
    start: &Machine,
    machines: &mut Vec<Machine>,
    kept: usize,
    path: &[Step],
    here: &mut Machine,
) -> Result<usize, AllocError>
    requires along { AreAlong start.now path.now machines.old.items kept }
    requires within { distance * kept ≤ length path.now }
    requires siblings { AreSiblings here.old start.now }
    ensures along { IfOk result (AreAlong start.now path.now machines.new.items) }
    ensures led { OnOk result (here.new ≡ led_to start.now path.now) }
    ensures alike { All (λ machine. AreSiblings machine start.now) machines.new.items }
{
    here.restore(nearest(start, machines, kept));
    let mut kept = kept;
    while kept < ROOM && path.len() - DISTANCE * kept >= DISTANCE {
        let from = DISTANCE * kept;
        let (_, refusal) = here.run(&path[from..from + DISTANCE]);
        if refusal.is_some() {
            return Ok(kept);
        }
        keep(alloc, machines, kept, here)?;
        kept += 1;
    }
    here.run(&path[DISTANCE * kept..]);
    Ok(kept)
}

impl Trail {
    /// The trail of no steps from a start.
    pub(crate) fn new(alloc: Global, start: &Machine) -> Result<Trail, AllocError>
        ensures { IfOk result (λ trail. trail ≡ start.now) }
    {
        Ok(Trail {
            start: copy_of(alloc, start)?,
            path: Vec::new(alloc),
            machines: Vec::new(alloc),
            kept: 0,
        })
    }

    /// Brings a machine to the state to which a path leads from the start.
    pub(crate) fn go(
        &mut self,
        alloc: Global,
        path: &[Step],
        here: &mut Machine,
    ) -> Result<(), AllocError>
        requires { AreSiblings here.old self.old }
        ensures led { OnOk result (here.new ≡ led_to self.old path.now) }
        ensures same { self.new ≡ self.old }
    {
        let shared = shared(&self.path, path);
        let kept = self.kept.min(shared / DISTANCE);
        self.kept = 0;
        self.path.truncate(shared);
        self.path.extend_from_slice(&path[shared..])?;
        self.kept = run_on(alloc, &self.start, &mut self.machines, kept, path, here)?;
        Ok(())
    }
}
