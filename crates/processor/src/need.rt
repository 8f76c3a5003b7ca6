//! What has to find room before an instruction runs.
use lines_layout::WordId;

/// What has to find room where an instruction is to run.
#[derive(Clone, Copy, Debug, PartialEq, Eq)]
pub enum Need {
    /// Nothing: it leaves no entry and no write.
    Nothing,
    /// An entry, in the store buffer.
    Entry,
    /// A write of this word, past the store buffer.
    Write(WordId),
    /// The same where the word has this value, otherwise nothing.
    WriteIf(WordId, u64),
}
