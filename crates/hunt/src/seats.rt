//! A board and its seats. Their calls are in another file, since the clauses of these name definitions
//! over the types.
ghost use Rattle.std.specs.Prelude.{◌≡◌, ◌<◌, ◌≤◌, true, false, []};
ghost use Rattle.hunt.specs.Counts.{beyond};
ghost use Rattle.workers.specs.Limits.{max_numbers, max_seats};

use crate::rule::{BoardRule, SeatView, Terms};
use atomic_table::Table;
use std::alloc::Global;

/// Hands out the numbers below a limit, each once, and keeps the least that was reported.
#[derive(Drop)]
pub struct Board {
    pub(crate) table: Table<(), SeatView, Terms, BoardRule, Global>,
    pub(crate) limit: u64,
    pub(crate) seats: u64,
    ghost shape: { (table.shared.table_id.words ≡ 2) × (table.shared.table_id.slots ≡ 0) },
    ghost terms: { (table.shared.key.limit ≡ limit) × (table.shared.key.seats ≡ seats) },
    ghost bounded: { (limit ≤ max_numbers) × (seats ≤ max_seats) },
}

/// One thread's right to call a board.
#[derive(Drop)]
pub struct Seat {
    pub(crate) place: atomic_table::Seat<(), SeatView>,
    pub(crate) over: bool,
    ghost empty_handed: { place.me.1 ≡ [] },
    ghost one_part: { place.me.0.parts ≡ 1 },
    ghost open: { over ≡ false → beyond place.me.0.limit place.me.0.claimed ≡ 0 },
    ghost ended: { over ≡ true → 0 < beyond place.me.0.limit place.me.0.claimed },
}

/// Seats that were given back, put together.
#[derive(Drop)]
pub struct Gathered {
    pub(crate) place: atomic_table::Seat<(), SeatView>,
    ghost empty_handed: { place.me.1 ≡ [] },
    ghost some_part: { 0 < place.me.0.parts },
}
