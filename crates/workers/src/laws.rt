//! Laws of how far work is said to be. Each function states some by its contract, and does nothing.
ghost use Rattle.std.specs.Prelude.{◌≡◌, ◌≢◌, ◌<◌, ℕ, Some, None, true, min};
ghost use Rattle.workers.specs.Progress.{completed_parts, completes_part, pace_of, parts, IsPace};
ghost use Rattle.workers.specs.declared.progress.Pace.{Pace};

/// The last of all completes a part. Of the counts from 1 to all as many do as there are parts, or each where all are fewer.
pub fn parts_are_completed()
    ensures last { (all : ℕ) → 0 < all → completes_part all all ≡ true }
    ensures each { (all : ℕ) → completed_parts all ≡ min parts all }
{}

/// A pace is told where something is done and time has gone. It is that of what is done: one more each second would be too
/// many; and the others take the seconds that are told, if each takes as long as one that is done, and less than one more. If
/// all are done, nothing is left.
pub fn pace_is_that_of_what_is_done()
    ensures told { (done all nanos : ℕ) → 0 < done → 0 < nanos → pace_of done all nanos ≢ None }
    ensures pace { (done all nanos : ℕ) (pace : Pace) → pace_of done all nanos ≡ Some pace → IsPace done all nanos pace }
    ensures whole { (all nanos : ℕ) (pace : Pace) → pace_of all all nanos ≡ Some pace → pace.seconds_left ≡ 0 }
{}
