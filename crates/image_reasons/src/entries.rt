//! Entries, and the operations that they are of.
use lines_layout::LineId;
use machine::{Entry, PendingEntry};

/// Where an instruction stands.
#[derive(Clone, Copy, PartialEq, Eq)]
pub struct Site {
    /// The processor.
    pub processor: u32,
    /// Whether it is in the recovery program, and not in the main one.
    pub recovering: bool,
    /// The place there, from 0.
    pub place: usize,
}

/// An instruction that was executed.
#[derive(Clone, Copy)]
pub struct Operation {
    /// The place, from 0, of the step that executed it.
    pub step: usize,
    /// Where it stands.
    pub site: Site,
}

/// A buffered entry.
#[derive(Clone, Copy)]
pub struct Delayed {
    /// The entry.
    pub entry: Entry,
    /// The operation.
    pub operation: Operation,
}

/// A pending entry.
#[derive(Clone, Copy)]
pub struct Pended {
    /// The entry.
    pub entry: PendingEntry,
    /// The operation.
    pub operation: Operation,
}

/// A flush that was executed.
#[derive(Clone, Copy)]
pub struct Flushed {
    /// The line that it flushes.
    pub line: LineId,
    /// The operation.
    pub operation: Operation,
}
