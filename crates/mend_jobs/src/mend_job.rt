//! What `mend` is asked, and how it looks for an answer.
use commands::MendOptions;

/// How a mend is looked for.
#[derive(Clone, Copy, Debug)]
pub struct Ways {
    /// `--moves`: a store may be moved, where no set does.
    pub moves: bool,
    /// `--workers`: how many threads try sets at once. The report is the same for any.
    pub workers: u64,
}

/// What `mend` is asked, and how it looks for an answer.
#[derive(Clone, Copy, Debug)]
pub struct MendJob<'a> {
    /// What it is asked.
    pub options: MendOptions<'a>,
    /// How it looks for an answer.
    pub ways: Ways,
}
