//! What the numbered schedules of a plan come to, by many threads: tallies of how they end, losses, and hunts.
//!
//! A tally counts how the schedules of a range end. Losses say how many of them break a condition by what a crash may
//! leave after some turn, and which is the first; counts of ends, how many come to an end, and how many of these break it there.
//! Schedules run in parallel, in runs of 256, and the runs are put together
//! in the order of the numbers.
//!
//! A hunt looks for the smallest number whose schedule breaks a condition: where it ends, or by what a crash may leave; or at an end,
//! as `explore` has it.
//! Workers claim the schedules of the range from a board until none is left: claim k is of the schedule with the number
//! first + k. Each runs the schedules of its claims on one machine of its own, and reports those that are looked for.
//! A claim above one that was reported is skipped, and its worker is done. It brings back what it found of the least that it
//! reported, so what is found needs no second run. (No clause counts runs.)
//!
//! Each answer is that of one thread. [`Tally`] is seen as the different outcomes in the order of their first numbers,
//! with counts. Promise: [`tally`] is `tally_from`, [`count_losses`] `losses_among`, [`hunt`] `least_from`, [`hunt_crashes`]
//! `least_loss`, [`hunt_ended`] the least that comes to an end and breaks the condition there, [`count_ends`] `ends_among`, for any number of threads. Each number of a [`Board`] is claimed once, and `settle` is the least that was
//! reported.
//! Definitions: `specs/Outcomes`, `Same` (which outcomes are equal), `Tallies`; `Crashes` (what breaks a condition, turn by
//! turn), `Ends` (ends to which schedules come), `Losses` (the same in the words of images), `LossSums` (losses of numbers that follow one another), `Unchanged` (steps
//! after which the condition is not asked again), `Runs`; `Searches` (what a search finds), `Least`; `Rule` (a board between two
//! atomic steps), `Seats`, `Plays`, `Counts`; `Founds`, `Known`, `Done`, `Returns`, `Errands` (what workers find and bring back).
#![tactic(auto)]

pub mod board_laws;
mod breach;
mod calls;
mod end_counts;
mod end_state;
mod ends;
mod errand;
mod fault;
mod found;
mod hunts;
mod last_state;
pub mod laws;
mod least_turn;
mod loss;
mod losses;
mod observed;
mod outcome_counts;
mod rule;
mod runs;
mod search;
mod seats;
mod tallies;
mod verdict;
mod worker;

pub use end_counts::{EndCounts, count_ends};
pub use ends::outcome;
pub use fault::{HuntFault, NoThread};
pub use hunts::{hunt, hunt_crashes, hunt_ended, loss_of};
pub use loss::{Breach, Loss, Moment};
pub use losses::{Losses, count_losses};
pub use observed::{Outcome, WordPair};
pub use outcome_counts::Tally;
pub use rule::{BoardRule, SeatView, Terms};
pub use search::Search;
pub use seats::{Board, Gathered, Seat};
pub use tallies::tally;
