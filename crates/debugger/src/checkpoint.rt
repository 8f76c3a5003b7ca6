//! Copies of a machine from along its way.
ghost use Rattle.std.specs.Prelude.{◌≡◌, ◌≤◌, [], ◌==◌, true, None, IfOk, OnOk, OnErr, nat_le, option_copied};
ghost use Rattle.std.specs.List.{All, list_any, count_by};
ghost use Rattle.circular_buffer.specs.Buffer.{last_item};
ghost use Rattle.machine.specs.Programs.{AreSiblings};
ghost use Rattle.debugger.specs.Marks.{is_due};
ghost use Rattle.debugger.specs.Checkpoints.{IsGivenUp, IsSpare, lengths, with_checkpoint, kept};

use circular_buffer::HeapCircularBuffer;
use machine::Machine;
use std::alloc::{AllocError, Global};
use std::marker::Model;

/// Every so many steps a checkpoint is made.
const MARK_DISTANCE: usize = 64;

/// How many checkpoints are kept.
const MARK_ROOM: usize = 32;

/// A copy of a machine, from before a step at this length of its history.
#[derive(Drop)]
pub struct Checkpoint {
    pub(crate) length: usize,
    pub(crate) machine: Machine,
}

/// Checkpoints by ascending length. Where there is no more room the oldest gives way.
#[derive(Drop)]
pub struct Checkpoints {
    ring: HeapCircularBuffer<Checkpoint>,
}

impl Model for Checkpoints {
    ghost use Rattle.std.specs.Prelude.{◌≡◌, List};
    ghost use Rattle.debugger.specs.declared.checkpoint.Checkpoint.{Checkpoint};
    ghost use Rattle.debugger.specs.Marks.{mark_room};
    ghost use Rattle.debugger.specs.Checkpoints.{AreRisingLengths};

    ghost Value = { List Checkpoint };

    ghost view = { λ c. c.ring.items };

    ghost invariant = { λ c. (c.ring.capacity ≡ mark_room) × AreRisingLengths c.ring.items };
}

/// A copy of a machine. It is made in the spare one where there is one, which takes no memory.
fn copied(
    alloc: Global,
    machine: &Machine,
    spare: &mut Option<Machine>,
) -> Result<Machine, AllocError>
    requires { IsSpare machine.now spare.old }
    ensures copied { IfOk result (λ copy. copy ≡ machine.now) }
    ensures taken { spare.new ≡ None }
{
    match spare.take() {
        Some(mut copy) => {
            copy.restore(machine);
            Ok(copy)
        }
        None => machine.copy(alloc),
    }
}

impl Checkpoints {
    /// None yet. All room for them but their copies is taken here.
    pub(crate) fn new(alloc: Global) -> Result<Checkpoints, AllocError>
        ensures { IfOk result (λ checkpoints. checkpoints ≡ []) }
    {
        let ring = HeapCircularBuffer::with_capacity(alloc, MARK_ROOM)?;
        Ok(Checkpoints { ring })
    }

    /// Whether there is one of this length.
    fn has(&self, length: usize) -> bool
        ensures { result ≡ list_any (λ c. c.length == length) self.now }
    {
        self.ring
            .iter()
            .any(|checkpoint| checkpoint.length == length)
    }

    /// Whether a step at this length is to be preceded by a checkpoint.
    fn is_due(&self, length: usize) -> bool
        ensures { result ≡ is_due (lengths self.now) length }
    {
        length > 0 && length % MARK_DISTANCE == 0 && !self.has(length)
    }

    /// How many are not beyond a length.
    fn count_to(&self, aim: usize) -> usize
        ensures { result ≡ count_by (λ c. nat_le c.length aim) self.now }
    {
        self.ring
            .iter()
            .filter(|checkpoint| checkpoint.length <= aim)
            .count()
    }

    /// One more after the others, of a length at which one is due. Where the oldest gives way for it, that
    /// one's machine is answered.
    fn push(&mut self, length: usize, machine: Machine) -> Option<Machine>
        requires low { All (λ c. c.length ≤ length) self.old }
        requires due { is_due (lengths self.old) length ≡ true }
        ensures pushed { self.new ≡ with_checkpoint self.old length machine }
        ensures given { IsGivenUp self.old result }
    {
        match self.ring.push_back(Checkpoint { length, machine }) {
            Some(oldest) => Some(oldest.machine),
            None => None,
        }
    }

    /// Makes a checkpoint of a machine where one is due. The machine of one that gives way for it is spare
    /// then. Without memory none is made.
    pub(crate) fn mark(
        &mut self,
        alloc: Global,
        length: usize,
        machine: &Machine,
        spare: &mut Option<Machine>,
    ) -> Result<(), AllocError>
        requires low { All (λ c. c.length ≤ length) self.old }
        requires alike { All (λ c. AreSiblings c.machine machine.now) self.old }
        requires spare { IsSpare machine.now spare.old }
        ensures marked { OnOk result (self.new ≡ with_checkpoint self.old length machine.now) }
        ensures same { OnErr result (self.new ≡ self.old) }
        ensures spare { IsSpare machine.now spare.new }
    {
        if self.is_due(length) {
            let machine = copied(alloc, machine, spare)?;
            *spare = self.push(length, machine);
        }
        Ok(())
    }

    /// Drops those beyond a length. Where there are any the last one's machine is answered.
    pub(crate) fn keep_to(&mut self, aim: usize) -> Option<Machine>
        ensures kept { self.new ≡ kept self.old aim }
        ensures given { IsGivenUp self.old result }
    {
        let count = self.count_to(aim);
        if count >= self.ring.len() {
            return None;
        }
        let last = self.ring.pop_back();
        self.ring.truncate_back(count);
        match last {
            Some(last) => Some(last.machine),
            None => None,
        }
    }

    /// The one of the greatest length.
    pub(crate) fn last(&self) -> Option<&Checkpoint>
        ensures { option_copied result ≡ last_item self.now }
    {
        self.ring.back()
    }
}
