//! A machine that follows a run.
ghost use Rattle.std.specs.Prelude.{◌≡◌, false, true, IfOk};
ghost use Rattle.isa.specs.Objects.{Object};
ghost use Rattle.machine.specs.Objects.{opening};
ghost use Rattle.explore.specs.Reachable.{is_crash};
ghost use Rattle.replays.specs.Followed.{GoesOn};

use crate::buffers::Buffered;
use crate::put_in::{PutIn, is_next};
use isa::{MAX_INSTRUCTIONS, Object};
use machine::{Machine, Step};
use persist_buffer::MARKER_ROOM;
use std::alloc::{AllocError, Global};

/// A machine that follows a run of another program: one with less in it.
#[derive(Drop)]
pub(crate) struct Follower {
    /// The machine, in the state to which it has come.
    pub(crate) machine: Machine,
    /// The store buffers of its processors.
    buffers: Vec<Buffered>,
}

/// Of so many empty store buffers. The only error is out of memory.
fn none_buffered(alloc: Global, count: usize) -> Result<Vec<Buffered>, AllocError> {
    let mut buffers = Vec::new(alloc);
    for _ in 0..count {
        buffers.push(Buffered::new(alloc))?;
    }
    Ok(buffers)
}

/// Whether a step is a crash, where runs do not crash.
fn is_left_out(crashes: bool, step: Step) -> bool
    ensures { result ≡ false → is_crash step ≡ true → crashes ≡ true }
{
    match step {
        Step::Crash => !crashes,
        Step::Exec(_) | Step::Drain(..) | Step::Persist(_) | Step::Settle => false,
    }
}

impl Follower {
    /// The machine of a program before its first step. The only error is out of memory.
    pub(crate) fn new(alloc: Global, object: &Object) -> Result<Follower, AllocError>
        ensures { IfOk result (λ follower. follower.machine ≡ opening object.now) }
    {
        let machine = Machine::load(alloc, object)?;
        let buffers = none_buffered(alloc, object.processors().len())?;
        Ok(Follower { machine, buffers })
    }

    /// How many entries a processor's store buffer has.
    fn count(&self, p: u32) -> usize {
        match self.machine.view().buffer(p as usize) {
            Some(buffer) => buffer.len(),
            None => 0,
        }
    }

    /// Makes a step, if the machine accepts it; a crash only where runs crash.
    #[tactic(auto, using(crate::proofs::Followings::goes_by_a_step, crate::proofs::Followings::goes_nowhere))]
    fn step(&mut self, crashes: bool, step: Step) -> bool
        ensures { GoesOn crashes self.old.machine self.new.machine }
    {
        if is_left_out(crashes, step) {
            return false;
        }
        match self.machine.step(step) {
            Ok(_) => true,
            Err(_) => false,
        }
    }

    /// Notes that a processor made an entry. The only error is out of memory.
    fn note(&mut self, p: u32, put_in: bool) -> Result<(), AllocError>
        ensures { self.new.machine ≡ self.old.machine }
    {
        let p = p as usize;
        if p < self.buffers.len() {
            self.buffers[p].push(put_in)?;
        }
        Ok(())
    }

    /// Notes that an entry has left.
    fn note_left(&mut self, p: u32, place: u32)
        ensures { self.new.machine ≡ self.old.machine }
    {
        let p = p as usize;
        if p < self.buffers.len() {
            self.buffers[p].leave(place as usize);
        }
    }

    /// Notes that an entry has left in the followed run.
    fn note_left_there(&mut self, p: u32, place: u32)
        ensures { self.new.machine ≡ self.old.machine }
    {
        let p = p as usize;
        if p < self.buffers.len() {
            self.buffers[p].leave_there(place as usize);
        }
    }

    /// The place here of an entry of the followed run, if it is here.
    fn place_here(&self, p: u32, place: u32) -> Option<u32> {
        let p = p as usize;
        if p >= self.buffers.len() {
            return None;
        }
        let here = self.buffers[p].place(place as usize)?;
        u32::try_from(here).ok()
    }

    /// A processor runs its next instruction, if that is accepted. The only error is out of memory.
    #[tactic(auto, using(crate::proofs::Followings::goes_further, crate::proofs::Followings::goes_nowhere))]
    fn exec(&mut self, crashes: bool, put_in: bool, p: u32) -> Result<bool, AllocError>
        ensures { GoesOn crashes self.old.machine self.new.machine }
    {
        let before = self.count(p);
        if !self.step(crashes, Step::Exec(p)) {
            return Ok(false);
        }
        if self.count(p) > before {
            self.note(p, put_in)?;
        }
        Ok(true)
    }

    /// An entry leaves its store buffer, if that is accepted.
    #[tactic(auto, using(crate::proofs::Followings::goes_further, crate::proofs::Followings::goes_nowhere))]
    fn drain(&mut self, crashes: bool, p: u32, place: u32) -> bool
        ensures { GoesOn crashes self.old.machine self.new.machine }
    {
        let accepted = self.step(crashes, Step::Drain(p, place));
        if accepted {
            self.note_left(p, place);
        }
        accepted
    }

    /// All entries of a store buffer leave it, oldest first, as far as that is accepted.
    #[tactic(auto, using(crate::proofs::Followings::goes_further, crate::proofs::Followings::goes_nowhere))]
    fn drain_all(&mut self, crashes: bool, p: u32)
        ensures { GoesOn crashes self.old.machine self.new.machine }
    {
        for _ in 0..self.count(p) {
            self.drain(crashes, p, 0);
        }
    }

    /// An entry leaves its store buffer; those before it leave first, oldest first, where it waits for them.
    #[tactic(auto, using(crate::proofs::Followings::goes_further, crate::proofs::Followings::goes_nowhere))]
    fn drain_up_to(&mut self, crashes: bool, p: u32, place: u32) -> bool
        ensures { GoesOn crashes self.old.machine self.new.machine }
    {
        for before in 0..place {
            if self.drain(crashes, p, place - before) {
                return true;
            }
            if !self.drain(crashes, p, 0) {
                return false;
            }
        }
        self.drain(crashes, p, 0)
    }

    /// A processor runs its next instruction; its store buffer is emptied first, where the instruction waits for that. The only error is
    /// out of memory.
    #[tactic(auto, using(crate::proofs::Followings::goes_further, crate::proofs::Followings::goes_nowhere))]
    fn exec_drained(&mut self, crashes: bool, put_in: bool, p: u32) -> Result<bool, AllocError>
        ensures { GoesOn crashes self.old.machine self.new.machine }
    {
        if self.exec(crashes, put_in, p)? {
            return Ok(true);
        }
        self.drain_all(crashes, p);
        self.exec(crashes, put_in, p)
    }

    /// A processor runs what was put in before its next instruction, and that. The only error is out of memory.
    #[tactic(auto, using(crate::proofs::Followings::goes_further, crate::proofs::Followings::goes_nowhere))]
    fn exec_next(&mut self, crashes: bool, put_in: &[PutIn], p: u32) -> Result<bool, AllocError>
        ensures { GoesOn crashes self.old.machine self.new.machine }
    {
        for _ in 0..MAX_INSTRUCTIONS {
            let was_put_in = is_next(put_in, &self.machine.view(), p);
            if !self.exec_drained(crashes, was_put_in, p)? {
                return Ok(false);
            }
            if !was_put_in {
                return Ok(true);
            }
        }
        Ok(false)
    }

    /// The entry at a place of the followed run leaves its store buffer, unless it has left before.
    #[tactic(auto, using(crate::proofs::Followings::goes_further, crate::proofs::Followings::goes_nowhere))]
    fn drain_there(&mut self, crashes: bool, p: u32, place: u32) -> bool
        ensures { GoesOn crashes self.old.machine self.new.machine }
    {
        let left = match self.place_here(p, place) {
            Some(here) => self.drain_up_to(crashes, p, here),
            None => true,
        };
        self.note_left_there(p, place);
        left
    }

    /// The oldest pending write of a line is persisted; markers go first, where it waits for them.
    #[tactic(auto, using(crate::proofs::Followings::goes_further, crate::proofs::Followings::goes_nowhere))]
    fn persist(&mut self, crashes: bool, line: u32) -> bool
        ensures { GoesOn crashes self.old.machine self.new.machine }
    {
        for _ in 0..MARKER_ROOM {
            if self.step(crashes, Step::Persist(line)) {
                return true;
            }
            if !self.step(crashes, Step::Settle) {
                return false;
            }
        }
        false
    }

    /// The machine crashes, if that is accepted: no store buffer has an entry then. The only error is out of memory.
    #[tactic(auto, using(crate::proofs::Followings::goes_further, crate::proofs::Followings::goes_nowhere))]
    fn crash(&mut self, alloc: Global, crashes: bool) -> Result<bool, AllocError>
        ensures { GoesOn crashes self.old.machine self.new.machine }
    {
        self.buffers = none_buffered(alloc, self.buffers.len())?;
        Ok(self.step(crashes, Step::Crash))
    }

    /// Follows one step of the run: whether that was accepted. A marker goes only where something waits for that. The only error is out of
    /// memory.
    #[tactic(auto, using(crate::proofs::Followings::goes_further, crate::proofs::Followings::goes_nowhere))]
    pub(crate) fn follow(
        &mut self,
        alloc: Global,
        crashes: bool,
        put_in: &[PutIn],
        step: Step,
    ) -> Result<bool, AllocError>
        ensures { GoesOn crashes self.old.machine self.new.machine }
    {
        match step {
            Step::Exec(p) => self.exec_next(crashes, put_in, p),
            Step::Drain(p, place) => Ok(self.drain_there(crashes, p, place)),
            Step::Persist(line) => Ok(self.persist(crashes, line)),
            Step::Settle => Ok(true),
            Step::Crash => self.crash(alloc, crashes),
        }
    }
}
