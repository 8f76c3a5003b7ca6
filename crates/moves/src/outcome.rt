//! What comes of the moves that are tried.
use crate::one_move::Move;
use mends::Put;

/// The first move with which a mend holds.
#[derive(Drop)]
pub struct FirstMove {
    /// The move.
    pub made: Move,
    /// What the mend puts into the moved program: nothing where none is needed.
    pub put: Put,
}

/// What comes of all moves.
#[derive(Drop)]
pub enum MovesTried {
    /// This is the first that helps.
    Helps(FirstMove),
    /// None of so many does.
    NoneHelps(usize),
}
