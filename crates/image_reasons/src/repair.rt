//! An instruction that is not in a program, and where it would stand.
use crate::entries::Site;
use isa::Instr;

/// A side of an instruction.
#[derive(Clone, Copy, Debug, PartialEq, Eq)]
pub enum Side {
    /// Directly before it.
    Before,
    /// Directly behind it.
    Behind,
}

/// An instruction that is not there.
#[derive(Clone, Copy, PartialEq, Eq)]
pub struct Repair {
    /// On which side of the instruction there.
    pub side: Side,
    /// Where that instruction stands.
    pub site: Site,
    /// What is not there.
    pub instr: Instr,
}
