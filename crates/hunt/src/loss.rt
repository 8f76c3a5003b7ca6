//! What a crash may leave that breaks a condition, and where.
use images::Image;

/// What breaks a condition in a state.
#[derive(Debug, Drop)]
pub enum Breach {
    /// A crash may leave this image, which makes the condition false: the least of those that do.
    Leaves(Image),
    /// There are more candidates than are counted, so no image was looked at.
    TooMany,
}

/// A state of a schedule.
#[derive(Clone, Copy, Debug, PartialEq, Eq)]
pub struct Moment {
    /// The number of the schedule.
    pub number: u64,
    /// How many of its turns were made.
    pub turn: u32,
}

/// A state of a schedule, and what breaks a condition there.
#[derive(Debug, Drop)]
pub struct Loss {
    /// The state.
    pub at: Moment,
    /// What breaks the condition in it.
    pub breach: Breach,
}
