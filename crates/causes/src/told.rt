//! What is told of a missing write.
use image_reasons::Missing;

/// Of how many missing writes it is asked at most whether they are enough alone. Where more are missing, none is told as enough.
pub const MOST_TRIED: usize = 64;

/// A write that is missing, and whether it is told that it alone is enough.
#[derive(Clone, Copy, PartialEq, Eq)]
pub struct Told {
    /// The write.
    pub write: Missing,
    /// Whether what was asked would hold, had it persisted too. False says nothing.
    pub enough: bool,
}
