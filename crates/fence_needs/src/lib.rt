//! Which flushes and fences of a program are needed for what is asked of all its runs.
//!
//! Each is left out alone, as a nop, and all runs of the program without it are explored: it is needed where a run makes a condition
//! false. Then those without which alone what is asked holds are left out together. Where it does not hold then, or is not told, they
//! are tried in the order of their places, and each is left out without which, and without those that are left out before it, it holds.
//! At last, without all that are left out, the weaker one is tried of each that stays, in the order of their places: it stands
//! there for those behind it, if what is asked holds with it.
//!
//! Promise: [`needs`] gives what is so of each flush and each fence of a program of which what is asked holds, and that it holds without
//! all that are left out together, also with all the weaker ones that do (`AreNeeds`). The list has each flush and each fence once, with
//! its instruction (law `needs_are_of_all_fences`); of a need that is told, a run breaks what is asked, and of one that is left out, none
//! does (`needs_are_so`); and what is said of each weaker one is so (`weaker_is_so`). [`need_of`] and [`weaker_at`] say it of one alone. In
//! the program [`replaced`] another instruction stands at a site, and all else is as it was; in [`without`] that is a nop
//! (`one_instruction_is_changed`). If all are told, and no flush has its word from a register ([`no_more_can_go`]), no more can go than those
//! that are left out: without these and any more some run breaks what is asked (`no_more_can_go_than_is_left_out`, by the law of
//! `fewer_fences`). And [`is_least`] says whether no larger number can go, whichever they are: where some are kept that could go
//! alone, it tries each choice of one more of these than are left out (`no_larger_number_can_go`). That no more could be made weaker
//! is not said: another order may do more.
//! Definitions: `specs/Sites` (flushes and fences, and where they are), `Changes` (`replaced`, `without`), `Weakened`, `Needs`, `Least`
//! (that no more can go, and no larger number), `Listed` (words of the laws); on the way `Tried`.
#![tactic(auto)]

mod all_needs;
mod alone;
mod change;
mod choices;
pub mod laws;
mod least;
mod need;
mod one_by_one;
mod site_list;
mod weaker;

pub use all_needs::needs;
pub use alone::need_of;
pub use change::{replaced, without};
pub use choices::{MOST_CHOICES, is_least};
pub use least::no_more_can_go;
pub use need::{Need, SiteNeed, Weaker, WeakerSaid};
pub use site_list::{fences_of, instr_at, is_fence};
pub use weaker::{weaker_at, weaker_of};
