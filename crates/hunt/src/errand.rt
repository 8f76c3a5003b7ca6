//! The threads of a hunt.
use crate::found::Found;
use crate::search::Target;
use crate::seats::{Board, Seat};
use std::alloc::AllocError;
use std::snapshot::Snapshot;
use std::thread::{Promise, PromisedHandle};

/// What a worker brings back.
#[derive(Drop)]
pub struct Returned {
    /// Its seat.
    pub seat: Seat,
    /// What it found of the least number that it reported, if it reported one.
    pub found: Option<Found>,
}

/// What a thread is to have done when it is joined: to have tried each number that it claimed, and to bring back what it found
/// of the least that it reported, unless memory was refused.
#[derive(Drop)]
pub struct Errand {
    /// The board that it claims from.
    pub board: Snapshot<Board>,
    /// What is looked for.
    pub target: Snapshot<Target>,
}

impl Promise<Result<Returned, AllocError>> for Errand {
    ghost use Rattle.std.specs.Prelude.{IfOk};
    ghost use Rattle.hunt.specs.Returns.{Worked};

    ghost kept_by = { λ errand result. IfOk result (Worked errand.board.value errand.target.value) };
}

/// A thread that brings back what it found.
pub type Worker = PromisedHandle<Result<Returned, AllocError>, Errand>;
