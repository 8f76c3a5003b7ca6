//! Seats, and what names a live machine.
ghost use Rattle.std.specs.Prelude.{◌≡◌};
ghost use Rattle.live.specs.Seats.{fresh};

use crate::journal::Receipt;
use std::marker::{Brand, Model};
use std::sync::ledger::{Ledger, Share};

/// Names one live machine: the state that it opened in, and the ledger that counts its seats' calls.
pub trait Naming: Ledger {
    ghost use Rattle.machine.specs.State.{State};

    ghost opening: { State };
}

// Any state serves here: whoever opens a machine picks its own.
impl Naming for Brand {
    ghost use Rattle.live.specs.Journal.{empty_state};

    ghost opening = { empty_state };
}

/// The right to make calls on a live machine. It knows how many of its calls were answered, and the last
/// one's receipt.
#[derive(Drop)]
pub struct Seat<K: Naming> {
    pub(crate) number: u32,
    pub(crate) calls: u64,
    pub(crate) last: Option<Receipt>,
    pub(crate) share: Share<K>,
}

impl<K: Naming> Model for Seat<K> {
    ghost use Rattle.std.specs.Prelude.{◌≡◌};
    ghost use Rattle.live.specs.Seats.{Sitting};

    ghost Value = { Sitting };

    ghost view = { λ s. record { number = s.number; calls = s.calls; last = s.last } };

    ghost invariant = { λ s. (s.share.parts ≡ 1) × (s.share.amount ≡ s.calls) };
}

impl<K: Naming> Seat<K> {
    /// A seat that made no call yet, with a part that has no amount.
    pub(crate) fn fresh(number: u32, share: Share<K>) -> Seat<K>
        requires { (share.parts ≡ 1) × (share.amount ≡ 0) }
        ensures { result ≡ fresh number }
    {
        Seat {
            number,
            calls: 0,
            last: None,
            share,
        }
    }

    /// Its number, from 0.
    pub fn number(&self) -> u32
        ensures { result ≡ self.now.number }
    {
        self.number
    }

    /// How many calls of it were answered.
    pub fn calls(&self) -> u64
        ensures { result ≡ self.now.calls }
    {
        self.calls
    }

    /// The receipt of its last call.
    pub fn last(&self) -> Option<Receipt>
        ensures { result ≡ self.now.last }
    {
        self.last
    }
}
