//! What an explanation is made of.
use commands::Task;

/// What a command read, and what it was asked: all that an explanation is made of.
#[derive(Clone, Copy)]
pub struct Evidence<'a> {
    /// The bytes of the program that were read.
    pub program: &'a [u8],
    /// The bytes of the steps, or of the script, that were read.
    pub steps: &'a [u8],
    /// The command, with its options: its conditions are among them.
    pub asked: Task<'a>,
}
