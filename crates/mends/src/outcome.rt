//! What comes of the sets that are tried.
use explore::{ExploreFault, Findings};
use image_reasons::Repair;

/// With how many sets that are not told a search ends.
pub const MOST_OPEN: usize = 8;

/// A set with which it is not told whether what is asked holds.
#[derive(Drop)]
pub struct Open {
    /// Of each candidate, in their order, whether it is in the set.
    pub choice: Vec<bool>,
    /// The set, by place.
    pub set: Vec<Repair>,
    /// Why it is not told.
    pub fault: ExploreFault,
}

/// A set with which what is asked holds.
#[derive(Drop)]
pub struct Put {
    /// The set, by place.
    pub set: Vec<Repair>,
    /// What is found of the program with it.
    pub found: Findings,
    /// Those that are not told and come before it, in their order.
    pub open: Vec<Open>,
}

/// What comes of all sets of flushes and fences.
#[derive(Drop)]
pub enum Mended {
    /// What is asked holds of the program as it is.
    NoneNeeded(Findings),
    /// It holds with this set: the first, in their order, that is neither ruled out nor left open.
    Put(Put),
    /// Each set is ruled out.
    None,
    /// None was found, and these are not told, in their order: there are [`MOST_OPEN`] of them, or each other set is ruled
    /// out.
    NotKnown(Vec<Open>),
}
