//! The calls of a session. Clauses say what a call makes of it, by what its watchers mean: `meaning_of`.
ghost use Rattle.std.specs.Prelude.{◌≡◌, ◌↔◌, ◌<◌, [], length, None, Err, OnOk, OnErr, IfOk, IfErr};
ghost use Rattle.debugger.specs.Orders.{AreRising};
ghost use Rattle.debugger.specs.Pasts.{AreAccepted};
ghost use Rattle.debugger.specs.Values.{session_of, stops_armed, marks_of, replays_of};
ghost use Rattle.debugger.specs.Changes.{IsOpenedAt, Stays, GainsStop, LosesStop, GainsWatch, LosesWatch, GoesBack, Undoes, Makes, Tries, HasStop, stop_in, HasWatch, watch_in, KeepsMarks, TriesMarks, marks_trying, marks_left, replays_back, why_not_added};
ghost use Rattle.debugger.specs.Halts.{HaltsAt, steps_made};
ghost use Rattle.debugger.specs.Marks.{tried};

use crate::attached::{Attached, forget_each, ready_all, tell_each};
use crate::checkpoint::Checkpoints;
use crate::fault::SessionFault;
use crate::halt::Halt;
use crate::past::Past;
use crate::places::{first_of, place_above, stop_place, watch_place};
use crate::session::Session;
use crate::stop::Stop;
use crate::watcher::Watcher;
use machine::{Machine, Refusal, Step, View};
use outcomes::OrNoMemory;
use std::alloc::Global;

impl Session {
    /// A session that begins at the machine's state, with no history. Without memory the machine is
    /// handed back.
    pub fn new(alloc: Global, machine: Machine) -> Result<Session, Machine>
        ensures opened { IfOk result (λ s. IsOpenedAt meaning_of s machine) }
        ensures back { IfErr result (λ m. m ≡ machine) }
        ensures marks { IfOk result (λ s. (marks_of s ≡ []) × (replays_of s ≡ 0)) }
    {
        let Ok(checkpoints) = Checkpoints::new(alloc) else {
            return Err(machine);
        };
        let past = Past::new(alloc, machine)?;
        Ok(Session {
            alloc,
            past,
            checkpoints,
            replayed: 0,
            stops: Vec::new(alloc),
            watchers: Vec::new(alloc),
        })
    }

    /// Arms a stop. It is handed back where its id is armed already, or without memory.
    pub fn arm(&mut self, stop: Stop) -> Result<(), (OrNoMemory<SessionFault>, Stop)>
        ensures session { OnOk result (GainsStop meaning_of self.old self.new stop) }
        ensures free { OnOk result (stop_in self.old stop.id ≡ None) }
        ensures same { OnErr result (Stays meaning_of self.old self.new) }
        ensures back { IfErr result (λ e. e.1 ≡ stop) }
        ensures fault { IfErr result (λ e. e.0 ≡ why_not_added (stop_in self.old stop.id)) }
        ensures marks { KeepsMarks self.old self.new }
    {
        if stop_place(&self.stops, stop.id).is_some() {
            return Err((OrNoMemory::Fault(SessionFault::DoubleId), stop));
        }
        let place = place_above(&self.stops, stop.id);
        match self.stops.insert(place, stop) {
            Ok(()) => Ok(()),
            Err(refused) => Err((OrNoMemory::NoMemory, refused.value)),
        }
    }

    /// Takes out the stop of this id.
    pub fn disarm(&mut self, id: u32) -> Result<Stop, SessionFault>
        ensures taken { IfOk result (HasStop self.old id) }
        ensures session { OnOk result (LosesStop meaning_of self.old self.new id) }
        ensures none { OnErr result (stop_in self.old id ≡ None) }
        ensures same { OnErr result (Stays meaning_of self.old self.new) }
        ensures fault { IfErr result (λ fault. fault ≡ SessionFault.NoId) }
        ensures marks { KeepsMarks self.old self.new }
    {
        match stop_place(&self.stops, id) {
            Some(place) => Ok(self.stops.remove(place)),
            None => Err(SessionFault::NoId),
        }
    }

    /// Attaches a watcher after the others. It is handed back where there is a watcher of that id
    /// already, or without memory.
    pub fn attach(
        &mut self,
        id: u32,
        watcher: Box<dyn Watcher>,
    ) -> Result<(), (OrNoMemory<SessionFault>, Box<dyn Watcher>)>
        ensures session { OnOk result (GainsWatch meaning_of self.old self.new id watcher) }
        ensures free { OnOk result (watch_in meaning_of self.old id ≡ None) }
        ensures same { OnErr result (Stays meaning_of self.old self.new) }
        ensures back { IfErr result (λ e. e.1 ≡ watcher) }
        ensures fault { IfErr result (λ e. e.0 ≡ why_not_added (watch_in meaning_of self.old id)) }
        ensures marks { KeepsMarks self.old self.new }
    {
        if watch_place(&self.watchers, id).is_some() {
            return Err((OrNoMemory::Fault(SessionFault::DoubleId), watcher));
        }
        if self.watchers.reserve(1).is_err() {
            return Err((OrNoMemory::NoMemory, watcher));
        }
        self.watchers.push_reserved(Attached { id, watcher });
        Ok(())
    }

    /// Takes out the watcher of this id, with its notes.
    pub fn detach(&mut self, id: u32) -> Result<Box<dyn Watcher>, SessionFault>
        ensures taken { IfOk result (HasWatch meaning_of self.old id) }
        ensures session { OnOk result (LosesWatch meaning_of self.old self.new id) }
        ensures none { OnErr result (watch_in meaning_of self.old id ≡ None) }
        ensures same { OnErr result (Stays meaning_of self.old self.new) }
        ensures fault { IfErr result (λ fault. fault ≡ SessionFault.NoId) }
        ensures marks { KeepsMarks self.old self.new }
    {
        match watch_place(&self.watchers, id) {
            Some(place) => {
                let attached = self.watchers.remove(place);
                Ok(attached.watcher)
            }
            None => Err(SessionFault::NoId),
        }
    }

    /// One step, and the id of the first stop whose condition holds after it. Room for its note is made in each
    /// watcher, and in the history, before it; then the watchers are told in order, and then the stops are tested
    /// by ascending id.
    fn advance(&mut self, step: Step) -> Result<Option<u32>, OrNoMemory<Refusal>>
        ensures turned { Tries meaning_of self.old self.new step result }
        ensures marks { TriesMarks self.old self.new result }
        ensures replayed { replays_of self.new ≡ replays_of self.old }
    {
        ready_all(&mut self.watchers)?;
        let seen = match self.past.step(self.alloc, &mut self.checkpoints, step) {
            Ok(seen) => seen,
            Err(error) => return Err(error),
        };
        let number = self.past.len() as u64;
        tell_each(&mut self.watchers, number, &seen, self.past.machine());
        Ok(first_of(&self.stops, self.past.machine()))
    }

    /// Makes the steps one after another, up to the first that stops, is refused or finds no memory.
    /// After a stop the smallest id is answered whose condition holds.
    pub fn go(&mut self, steps: &[Step]) -> Halt
        ensures halt { HaltsAt (session_of meaning_of self.old) steps.now result }
        ensures session { Makes meaning_of self.old self.new (steps_made steps.now result) }
        ensures accepted { AreAccepted (steps_made steps.now result) self.old.past.state }
        ensures order { AreRising (stops_armed self.old.stops.items) }
        ensures marks { marks_of self.new ≡ marks_trying self.old (tried steps.now result) }
        ensures replayed { replays_of self.new ≡ replays_of self.old }
    {
        for (at, step) in steps.iter().enumerate() {
            match self.advance(*step) {
                Ok(None) => {}
                Ok(Some(id)) => return Halt::Stop(id, at + 1),
                Err(OrNoMemory::Fault(refusal)) => return Halt::Refused(at, refusal),
                Err(OrNoMemory::NoMemory) => return Halt::NoMemory(at),
            }
        }
        Halt::End
    }

    /// Goes back before the last accepted steps. Stops, watchers and their notes stay.
    pub fn back(&mut self, count: usize) -> Result<(), SessionFault>
        ensures session { OnOk result (GoesBack meaning_of self.old self.new count) }
        ensures same { OnErr result (Stays meaning_of self.old self.new) }
        ensures far { result ≡ Err SessionFault.TooFar ↔ (length self.old.past.history < count) }
        ensures fault { IfErr result (λ fault. fault ≡ SessionFault.TooFar) }
        ensures only_far { OnErr result (length self.old.past.history < count) }
        ensures marks { OnOk result (marks_of self.new ≡ marks_left self.old count) }
        ensures replayed { OnOk result (replays_of self.new ≡ replays_back self.old count) }
        ensures marks_stay { OnErr result (KeepsMarks self.old self.new) }
    {
        if count > self.past.len() {
            return Err(SessionFault::TooFar);
        }
        let left = self.past.len() - count;
        self.past.keep_to(&mut self.checkpoints, left);
        let checkpoint = self.checkpoints.last();
        self.replayed = self.past.back(count, checkpoint) as u64;
        Ok(())
    }

    /// Goes back before the last accepted steps, as [`Session::back`] does, and has the watchers forget their notes of them.
    pub fn undo(&mut self, count: usize) -> Result<(), SessionFault>
        ensures session { OnOk result (Undoes meaning_of self.old self.new count) }
        ensures same { OnErr result (Stays meaning_of self.old self.new) }
        ensures far { result ≡ Err SessionFault.TooFar ↔ (length self.old.past.history < count) }
        ensures fault { IfErr result (λ fault. fault ≡ SessionFault.TooFar) }
        ensures only_far { OnErr result (length self.old.past.history < count) }
        ensures marks { OnOk result (marks_of self.new ≡ marks_left self.old count) }
        ensures replayed { OnOk result (replays_of self.new ≡ replays_back self.old count) }
        ensures marks_stay { OnErr result (KeepsMarks self.old self.new) }
    {
        match self.back(count) {
            Ok(()) => {
                let kept = self.past.len() as u64;
                forget_each(&mut self.watchers, kept);
                Ok(())
            }
            Err(fault) => Err(fault),
        }
    }

    /// How many steps the last successful [`Session::back`] replayed, 0 before any.
    pub fn replayed(&self) -> u64
        ensures { result ≡ replays_of self.now }
    {
        self.replayed
    }

    /// The state as it is now, to look at.
    pub fn look(&self) -> View<'_>
        ensures { result ≡ self.now.past.state }
    {
        self.past.machine().view()
    }
}
