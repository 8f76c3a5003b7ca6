//! What is known of a claim.
use crate::found::Found;

/// What was found out about a claim.
#[derive(Debug, Drop)]
pub enum Verdict {
    /// Its schedule does not break the condition.
    Holds,
    /// It does, as this says.
    Fails(Found),
    /// The schedule was not run, since a smaller claim was reported.
    Skipped,
}
