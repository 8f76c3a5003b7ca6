//! Lines of progress.

use std::sync::atomic::{AtomicU64, Ordering};
use std::time::Clock;
use workers::{Gate, Pace, completes_part, pace_of};

/// A second, in nanoseconds.
const SECOND: u64 = 1_000_000_000;

/// What is counted.
#[derive(Clone, Copy, Debug)]
pub enum Work {
    /// Schedules are run.
    Schedules,
    /// States are explored.
    States,
    /// At most so many states are explored of each of many programs.
    Explorations(u64),
    /// The same of one program after another, until one does. How many there will be is not known.
    Search(u64),
}

/// Whether a number is more than 1, and is written as one digit and noughts.
fn is_round(number: u64) -> bool {
    let mut rest = number;
    for _ in 0..19 {
        if rest % 10 == 0 {
            rest /= 10;
        }
    }
    1 < number && 0 < rest && rest < 10
}

impl Work {
    /// Whether a line is written when so many of all are done: each time a sixteenth is, of all or of one program's.
    fn tells(self, done: u64, all: u64) -> bool {
        match self {
            Work::Schedules | Work::States => completes_part(done, all),
            Work::Explorations(each) | Work::Search(each) => match done
                .wrapping_sub(1)
                .checked_rem(each)
            {
                Some(before) => completes_part(before + 1, each),
                None => false,
            },
        }
    }

    /// Whether a line is written when so many explorations were begun.
    fn tells_begun(self, begun: u64) -> bool {
        match self {
            Work::Search(_) => is_round(begun),
            Work::Schedules | Work::States | Work::Explorations(_) => false,
        }
    }

    /// What is written before the count of all, and what behind it.
    fn words(self) -> (&'static str, &'static str) {
        match self {
            Work::Schedules => ("of", "schedules are done"),
            Work::States | Work::Explorations(_) | Work::Search(_) => {
                ("of at most", "states are explored")
            }
        }
    }
}

/// Counts the schedules that are done, or the states that are explored, and writes a line each time a sixteenth of all is,
/// or a sixteenth of one program's: with how many are done in a second, and how long the others take at that pace. Lines of two
/// threads may come in either order. Where work begins anew, as with another exploration, so does the count. Of a search it also
/// says how many explorations were begun, at round numbers, and after how many seconds. Where states are too many, or memory is
/// wanted in the midst of them, it says how far the exploration came.
///
/// What no clause says, and tests ask: which lines are written.
#[derive(Drop)]
pub struct Progress<E, C> {
    /// Where the lines go.
    errors: E,
    /// Whether a line is written each time a sixteenth is done.
    tells: bool,
    /// What tells the time.
    clock: C,
    /// What is counted.
    work: Work,
    /// How many there are, or may be at most.
    all: AtomicU64,
    /// How many of them are done.
    done: AtomicU64,
    /// When the work began, in nanoseconds of the clock.
    start: AtomicU64,
    /// How often work has begun.
    begun: AtomicU64,
    /// When nothing had begun yet, in nanoseconds of the clock.
    first: u64,
}

/// The time by a clock, in nanoseconds: 0 where it cannot be read.
fn nanos_of<C: Clock>(clock: &C) -> u64 {
    match clock.monotonic() {
        Ok(time) => u64::try_from(time.as_nanos()).unwrap_or(u64::MAX),
        Err(_) => 0,
    }
}

impl<E, C: Clock> Progress<E, C> {
    /// Nothing of this work is done.
    pub fn new(errors: E, tells: bool, clock: C, work: Work) -> Progress<E, C> {
        let first = nanos_of(&clock);
        Progress {
            errors,
            tells,
            clock,
            work,
            all: AtomicU64::new(0),
            done: AtomicU64::new(0),
            start: AtomicU64::new(first),
            begun: AtomicU64::new(0),
            first,
        }
    }

    /// The pace of the work, of which so many of all are done now.
    fn pace(&self, done: u64, all: u64) -> Option<Pace> {
        let start = self.start.load(Ordering::SeqCst);
        pace_of(done, all, nanos_of(&self.clock).saturating_sub(start))
    }
}

/// Writes that so much of some work is done, and its pace, where one is known.
fn print_done<E: Eprint>(errors: &E, work: Work, done: u64, all: u64, pace: Option<Pace>) {
    let (of, what) = work.words();
    match pace {
        Some(pace) => {
            let Pace {
                each_second,
                seconds_left,
            } = pace;
            let _ = eprintln!(errors;
                "px86: {done} {of} {all} {what}, {each_second} a second, about {seconds_left} s to go"
            );
        }
        None => {
            let _ = eprintln!(errors; "px86: {done} {of} {all} {what}");
        }
    }
}

/// Writes that so many explorations were begun, after so many nanoseconds.
fn print_begun<E: Eprint>(errors: &E, begun: u64, nanos: u64) {
    let seconds = nanos / SECOND;
    let _ = eprintln!(errors; "px86: {begun} explorations are begun, after {seconds} s");
}

impl<E: Eprint, C: Clock> Gate for Progress<E, C> {
    fn begun(&self, all: u64) {
        let now = nanos_of(&self.clock);
        self.all.store(all, Ordering::SeqCst);
        self.done.store(0, Ordering::SeqCst);
        self.start.store(now, Ordering::SeqCst);
        let begun = self.begun.fetch_add(1, Ordering::SeqCst).wrapping_add(1);
        if self.tells && self.work.tells_begun(begun) {
            print_begun(&self.errors, begun, now.saturating_sub(self.first));
        }
    }

    fn claimed(&self, _number: u64) {}

    fn ended(&self, _number: u64) {
        if !self.tells {
            return;
        }
        let done = self.done.fetch_add(1, Ordering::SeqCst).wrapping_add(1);
        let all = self.all.load(Ordering::SeqCst);
        if self.work.tells(done, all) {
            print_done(&self.errors, self.work, done, all, self.pace(done, all));
        }
    }

    fn stopped(&self, found: u64, done: u64, steps: u64) {
        let errors = &self.errors;
        let _ = eprintln!(errors;
            "px86: {found} states were found and {done} explored, the last one {steps} steps from the start: none was seen to break what was asked of it"
        );
    }
}
