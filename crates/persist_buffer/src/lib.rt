//! What has left the store buffers: the pending list of writes and markers, which all processors
//! read, and the persisted values, which a crash leaves.
//!
//! [`Pending`] is seen as the list of its pending entries, oldest first, and the persisted value of
//! each word; how they are kept no contract says.
//!
//! Promise: `persist` and `settle` take out what the rules say.
//! Definitions: `specs/State`, `Memories`, `Listings`, `Limits`, `Splits` (persisting as a split).
#![tactic(auto)]

mod entry;
mod fault;
pub mod laws;
mod pending;
mod pending_list;
mod ring;
mod rings;

pub use entry::PendingEntry;
pub use fault::PendingFault;
pub use pending::{LINE_ROOM, MARKER_ROOM, Pending};
pub use rings::SERIAL_LIMIT;
