//! Instructions as their bytes say them.
use isa::{Access, Computation, FenceKind, Immediate, JumpKind, Reg, Source};

/// What an instruction names in memory.
#[derive(Clone, Copy, Debug, PartialEq, Eq)]
pub enum Address {
    /// An address of 32 bits that is in the instruction.
    Absolute(u32),
    /// The register holds the address.
    Register(Reg),
}

/// An instruction as its bytes say it: with addresses in place of words and, in place of targets,
/// distances from the byte after the jump. Otherwise each is that of this name in [`Instr`](isa::Instr).
#[derive(Clone, Copy, Debug, PartialEq, Eq)]
pub enum Form {
    Set(Reg, Source<u64>),
    Compute(Computation, Reg, Immediate),
    Jump(JumpKind, i32),
    Nop,
    Memory(Access, Address),
    Fence(FenceKind),
}

/// Why no form is at the front of bytes.
#[derive(Clone, Copy, Debug, PartialEq, Eq)]
pub(crate) enum Miss {
    /// No form begins so.
    Unknown,
    /// A form begins so, and the bytes end before it does.
    Truncated,
}
