//! Schedules whose numbers follow one another.
ghost use Rattle.std.specs.Prelude.{◌≡◌, ◌+◌, ◌-◌, ◌<◌, ◌≤◌, ◌↔◌, IfSome, IsNone, min};
ghost use Rattle.schedule.specs.Ranges.{max_schedules};

use workers::MAX_NUMBERS;

/// How many schedules there may be: as many as there are numbers.
pub const MAX_SCHEDULES: u64 = MAX_NUMBERS;

/// The numbers of n schedules, from `first` on. None of them is past the last number, 2^32 - 1.
#[derive(Clone, Copy, Debug, PartialEq, Eq)]
pub struct Range {
    /// The number of the first schedule.
    pub first: u64,
    /// How many schedules there are.
    pub n: u64,
    ghost few: { first + n ≤ max_schedules },
}

impl Range {
    /// The numbers of n schedules, from this one on. None where they go past the last number.
    pub fn new(first: u64, n: u64) -> Option<Range>
        ensures some { IfSome result (λ range. (range.first ≡ first) × (range.n ≡ n)) }
        ensures none { IsNone result ↔ (max_schedules < first + n) }
    {
        if n <= MAX_SCHEDULES && first <= MAX_SCHEDULES - n {
            Some(Range { first, n })
        } else {
            None
        }
    }

    /// The numbers from this place of the range on, at most so many of them.
    pub fn part(self, place: u64, most: u64) -> Range
        requires { place ≤ self.n }
        ensures first { result.first ≡ self.first + place }
        ensures n { result.n ≡ min most (self.n - place) }
    {
        Range {
            first: self.first + place,
            n: most.min(self.n - place),
        }
    }
}
