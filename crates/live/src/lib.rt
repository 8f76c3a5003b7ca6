//! One machine that many threads share, with a journal of their calls.
//!
//! A [`Live`] keeps a machine and the journal of all calls under one lock; each call is one event under it. A
//! [`Seat`] is the right to make calls, and a call that finds memory is answered with a [`Receipt`]: the last
//! entry of a journal that may be. [`Live::close`] takes machine and journal out again, and says which
//! receipts are in the journal.
//!
//! Nothing is claimed of the order in which the calls of different seats come.
//!
//! Promise: the journal is legal from the opening state, and the state is its replay.
//! Definitions: `specs/Journal`, `Seats`, `Receipts`.
#![tactic(auto)]

mod book;
mod fault;
mod journal;
pub mod laws;
mod live;
mod same;
mod seat;

pub use book::Book;
pub use fault::CloseRefusal;
pub use journal::{Answer, Call, JournalEntry, Receipt};
pub use live::{CloseFault, Closed, Live};
pub use seat::{Naming, Seat};
