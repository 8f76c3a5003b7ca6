//! Why there is no report of `live`.
use outcomes::Refusing;

/// Why there is no report of a live machine, beside want of memory (V1). No thread goes on.
#[derive(Clone, Copy, Debug, PartialEq, Eq)]
pub(crate) enum LiveEnd {
    /// K3: a thread was not started.
    NoThread,
    /// V2: the receipt of this number is not in the journal.
    Stranger(u64),
}

impl Refusing for LiveEnd {}
