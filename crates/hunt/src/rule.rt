//! What a seat knows, the rule of a board's table, and what each step shows.
ghost use Rattle.std.specs.Prelude.{◌≡◌, ◌+◌, ◌-◌, [], ◌∷◌, ◌++◌};

use atomic_table::{Join, Play, Split, TableRule};
use std::collections::LinkedList;

/// What a seat claimed, saw and reported, and its parts of the board. Contracts speak of it, and no value
/// of it is made.
pub struct SeatView {
    /// How many numbers the board hands out.
    pub limit: u64,
    /// How many seats' parts of the board it has.
    pub parts: u64,
    /// What its claims found, oldest first.
    pub claimed: LinkedList<u64>,
    /// What its looks found, oldest first.
    pub bounds: LinkedList<u64>,
    /// What it reported, oldest first.
    pub reported: LinkedList<u64>,
}

/// How many numbers a board hands out, and to how many seats.
#[derive(Clone, Copy)]
pub struct Terms {
    /// How many numbers it hands out.
    pub limit: u64,
    /// How many seats it has.
    pub seats: u64,
}

/// The rule of a board's table: `IsBoard`.
pub struct BoardRule;

impl TableRule<(), SeatView, Terms> for BoardRule {
    ghost use Rattle.std.specs.Prelude.{[]};
    ghost use Rattle.hunt.specs.Rule.{IsBoard, seat_view};

    ghost holds = { λ key. IsBoard key.limit key.seats };

    ghost first = { λ key. seat_view key.limit key.seats [] [] [] };
}

/// The step of a claim.
pub struct Claim;

impl Play<(), SeatView> for Claim {
    ghost use Rattle.hunt.specs.Plays.{Claims};

    ghost then = { Claims };
}

/// The step of a look.
pub struct Look;

impl Play<(), SeatView> for Look {
    ghost use Rattle.hunt.specs.Plays.{Looks};

    ghost then = { Looks };
}

/// The step of a report.
pub struct Report;

impl Play<(), SeatView> for Report {
    ghost use Rattle.hunt.specs.Plays.{Reports};

    ghost then = { Reports };
}

/// The last look, of the seat that has every part.
pub struct Settle;

impl Play<(), SeatView> for Settle {
    ghost use Rattle.hunt.specs.Plays.{Settles};

    ghost then = { Settles };
}

/// How a board is dealt out to seats, and how seats are put together.
pub struct Parts;

impl Split<SeatView> for Parts {
    ghost use Rattle.hunt.specs.Plays.{cut, fresh};

    ghost left = { cut };

    ghost right = { λ v. fresh v.limit };
}

impl Join<SeatView> for Parts {
    ghost use Rattle.hunt.specs.Plays.{joined, spent};

    ghost both = { joined };

    ghost spent = { spent };
}
