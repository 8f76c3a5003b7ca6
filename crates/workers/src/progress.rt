//! How far the work on many numbers is, and how fast it goes on.
ghost use Rattle.std.specs.Prelude.{◌≡◌, ◌<◌};
ghost use Rattle.workers.specs.Progress.{completes_part, pace_of, parts_done};

/// In how many parts of equal size all is seen.
const PARTS: u128 = 16;

/// How many whole parts of all are done.
fn parts_done(done: u64, all: u64) -> u128
    requires { 0 < all }
    ensures { result ≡ parts_done done all }
{
    PARTS * u128::from(done) / u128::from(all)
}

/// Whether the last of so many that are done completes a sixteenth of all: so many times as there are sixteenths, and at
/// the last of all. Where all are fewer than 16, each does.
pub fn completes_part(done: u64, all: u64) -> bool
    ensures { result ≡ completes_part done all }
{
    0 < done && done <= all && parts_done(done - 1, all) < parts_done(done, all)
}

/// A second, in nanoseconds.
const SECOND: u128 = 1_000_000_000;

/// How fast work goes on, and how long the rest of it takes.
#[derive(Clone, Copy, Debug, PartialEq, Eq)]
pub struct Pace {
    /// How many are done in a second.
    pub each_second: u128,
    /// How many seconds the others take at this pace.
    pub seconds_left: u128,
}

/// The pace of work of which so many of all are done after so many nanoseconds: `laws::pace_is_that_of_what_is_done`. None
/// where nothing is done, or no time has gone.
pub fn pace_of(done: u64, all: u64, nanos: u64) -> Option<Pace>
    ensures { result ≡ pace_of done all nanos }
{
    if done == 0 || nanos == 0 {
        return None;
    }
    let done_in_a_second = u128::from(done) * SECOND;
    let left = u128::from(all.saturating_sub(done)) * u128::from(nanos);
    Some(Pace {
        each_second: done_in_a_second / u128::from(nanos),
        seconds_left: left / done_in_a_second,
    })
}
