//! Who is told of what workers do.
use std::alloc::Global;
use std::sync::Arc;

/// To whom the number is reported of what a worker is about to begin, and of what it has done: of a schedule that a worker
/// runs, or of the step that a thread makes on a live machine. A gate may hold the worker until others have come: by it a
/// test sees that workers run at once. Or it counts what is done, and so says how far the work is, if it was told how much
/// there is.
pub trait Gate {
    /// Work on at most so many numbers begins, and nothing of it is done yet. A gate that does not ask for this leaves it out.
    fn begun(&self, _all: u64) {}

    /// A worker is about to begin this number, and has done nothing for it yet.
    fn claimed(&self, number: u64);

    /// A worker has done all that it does for this number. A gate that does not ask for ends leaves this out.
    fn ended(&self, _number: u64) {}

    /// The work ends before all is done, as there is too much of it: so much was found, so much of that is done, and the last that
    /// is done stands so many steps from where the work began. A gate that does not ask for this leaves it out.
    fn stopped(&self, _found: u64, _done: u64, _steps: u64) {}
}

/// The gate that holds nobody.
#[derive(Clone, Copy, Debug)]
pub struct OpenGate;

impl Gate for OpenGate {
    fn claimed(&self, _number: u64) {}
}

/// A gate that several calls share: what each tells is told to the one gate.
impl<G: Gate> Gate for Arc<G, Global> {
    fn begun(&self, all: u64) {
        let gate: &G = self;
        gate.begun(all);
    }

    fn claimed(&self, number: u64) {
        let gate: &G = self;
        gate.claimed(number);
    }

    fn ended(&self, number: u64) {
        let gate: &G = self;
        gate.ended(number);
    }

    fn stopped(&self, found: u64, done: u64, steps: u64) {
        let gate: &G = self;
        gate.stopped(found, done, steps);
    }
}
