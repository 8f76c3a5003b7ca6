//! What is kept beside a run that is to be judged by the table: for each processor the operations that
//! its store buffer delays.
ghost use Rattle.std.specs.Prelude.{◌≡◌, ◌<◌, [], ◌∷◌, ◌++◌, map, length, remove, slice_get, IfOk};
ghost use Rattle.store_buffer.specs.Buffers.{buffer_room};
ghost use Rattle.machine.specs.Noted.{CanNote, IsNoted, delayed_at};

use crate::logical_processor::Processor;
use crate::step::Seen;
use arrayvec::ArrayVec;
use processor::Act;
use std::alloc::{AllocError, Global};
use std::marker::Model;
use store_buffer::BUFFER_ROOM;

/// The operations of one processor that its store buffer delays, oldest first, by the places in the
/// list of steps of the steps that executed them.
#[derive(Drop)]
pub struct Delayed {
    operations: ArrayVec<usize, BUFFER_ROOM>,
}

impl Model for Delayed {
    ghost use Rattle.std.specs.Prelude.{ℕ, List};

    ghost Value = { List ℕ };

    ghost view = { λ d. d.operations.items };
}

impl Delayed {
    /// Nothing is delayed.
    pub fn new() -> Delayed
        ensures { result ≡ [] }
    {
        Delayed {
            operations: ArrayVec::new(),
        }
    }

    /// The operation whose entry is at a place of the store buffer.
    pub fn get(&self, place: usize) -> Option<usize>
        ensures { result ≡ slice_get self.now place }
    {
        self.operations.as_slice().get(place).copied()
    }

    /// An operation is delayed.
    pub fn push(&mut self, operation: usize)
        requires { length self.old < buffer_room }
        ensures { self.new ≡ self.old ++ operation ∷ [] }
    {
        self.operations.push(operation);
    }

    /// The operation at a place takes effect.
    pub fn remove(&mut self, place: usize)
        requires { place < length self.old }
        ensures { self.new ≡ remove self.old place }
    {
        self.operations.remove(place);
    }

    /// All are lost.
    pub fn clear(&mut self)
        ensures { self.new ≡ [] }
    {
        self.operations.clear();
    }
}

/// Nothing is delayed by any of these processors.
pub fn none_delayed(alloc: Global, cpus: &[Processor]) -> Result<Vec<Delayed>, AllocError>
    ensures { IfOk result (λ delayed. delayed.items ≡ map (λ _. []) cpus.now) }
{
    let mut delayed = Vec::with_capacity(alloc, cpus.len())?;
    for _cpu in cpus {
        delayed.push(Delayed::new())?;
    }
    Ok(delayed)
}

/// All that is delayed is lost.
fn clear_all(delayed: &mut [Delayed])
    ensures { delayed.new ≡ map (λ _. []) delayed.old }
{
    for own in delayed.iter_mut() {
        own.clear();
    }
}

/// Notes what the step at a place of the list of steps showed.
pub fn note(delayed: &mut [Delayed], at: usize, seen: &Seen)
    requires { CanNote delayed.old seen.now }
    ensures { IsNoted at seen.now delayed.old delayed.new }
{
    match *seen {
        Seen::Ran(p, _, Act::Delay(_)) => delayed[p as usize].push(at),
        Seen::Left(p, i, _) => delayed[p as usize].remove(i as usize),
        Seen::Crashed(_) => clear_all(delayed),
        Seen::Ran(..) | Seen::Persisted(..) | Seen::Settled(_) => {}
    }
}

/// The operation whose entry is at a place of a processor's store buffer.
pub fn delayed_at(delayed: &[Delayed], p: u32, place: usize) -> Option<usize>
    ensures { result ≡ delayed_at delayed.now p place }
{
    delayed.get(p as usize)?.get(place)
}
