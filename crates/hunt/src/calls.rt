//! The calls of a board. None of them waits.
ghost use Rattle.std.specs.Prelude.{◌≡◌, ℕ, ◌+◌, ◌-◌, ◌<◌, ◌≤◌, IfOk, IfSome, IfNone, IsNone};
ghost use Rattle.hunt.specs.Counts.{Has};
ghost use Rattle.workers.specs.Limits.{max_numbers, MayShare};
ghost use Rattle.hunt.specs.Plays.{after_report, fresh, Settled};
ghost use Rattle.hunt.specs.Seats.{limit_of, parts_of, view_of, whole_of, AreFresh, CanBeCut, Draws, Ends, HandsOut, IsDealt, IsGatheredOf, IsJoined, IsOver, IsSeatOf, IsStill, IsWholeOf, Sees};

use crate::rule::{Claim, Look, Parts, Report, SeatView, Settle, Terms};
use crate::seats::{Board, Gathered, Seat};
use atomic_table::Table;
use std::alloc::{AllocError, Global};

impl Board {
    /// A board that hands out the numbers below a limit, which is at most `MAX_NUMBERS`, and its seats, from
    /// 1 to `MAX_SEATS`. The only error is out of memory.
    pub fn new(alloc: Global, limit: u64, seats: u64) -> Result<(Board, Vec<Seat>), AllocError>
        requires { (limit ≤ max_numbers) × MayShare seats }
        ensures board { IfOk result (λ made. HandsOut made.0 limit seats) }
        ensures seats { IfOk result (λ made. AreFresh made.0 limit seats made.1) }
    {
        let mut all = Vec::with_capacity(alloc, seats as usize)?;
        let (board, mut first) = Board::open(alloc, limit, seats)?;
        for k in 1..seats {
            all.push_reserved(board.cut(&mut first));
        }
        all.push_reserved(Seat {
            place: first,
            over: false,
        });
        Ok((board, all))
    }

    /// A board, and the place that has all its parts.
    fn open(
        alloc: Global,
        limit: u64,
        seats: u64,
    ) -> Result<(Board, atomic_table::Seat<(), SeatView>), AllocError>
        requires { (limit ≤ max_numbers) × MayShare seats }
        ensures board { IfOk result (λ made. HandsOut made.0 limit seats) }
        ensures place { IfOk result (λ made. IsDealt made.0 limit seats made.1) }
    {
        let terms = Terms { limit, seats };
        let (table, first) = Table::of_words(alloc, &[0, u64::MAX], &terms)?;
        let board = Board {
            table,
            limit,
            seats,
        };
        Ok((board, first))
    }

    /// Makes a seat of one of the parts of a place that has several.
    fn cut(&self, first: &mut atomic_table::Seat<(), SeatView>) -> Seat
        requires place { first.old.table_id ≡ self.now.table.shared.table_id }
        requires unused { CanBeCut self.now.limit first.old }
        ensures first { IsDealt self.now self.now.limit (parts_of first.old - 1) first.new }
        ensures seat { IsSeatOf self.now result × (view_of result ≡ fresh self.now.limit) }
    {
        let place = self.table.shared.split_seat::<Parts>(first);
        Seat { place, over: false }
    }

    /// Claims the next number. None once there is no number left; from then on the board is not asked again.
    pub fn claim(&self, seat: &mut Seat) -> Option<u64>
        requires { IsSeatOf self.now seat.old }
        ensures seat { IsSeatOf self.now seat.new }
        ensures some { IfSome result (λ x. Draws (view_of seat.old) x (view_of seat.new)) }
        ensures none { IfNone result (Ends (view_of seat.old) (view_of seat.new)) }
        ensures over { IsOver (view_of seat.old) → IsNone result × IsStill seat.new seat.old }
    {
        if seat.over {
            return None;
        }
        let found = self.table.shared.fetch_add::<Claim>(&mut seat.place, 0, 1);
        if found < self.limit {
            Some(found)
        } else {
            seat.over = true;
            None
        }
    }

    /// The least number that was reported so far, or the greatest `u64`.
    pub fn look(&self, seat: &mut Seat) -> u64
        requires { IsSeatOf self.now seat.old }
        ensures seat { IsSeatOf self.now seat.new }
        ensures look { Sees (view_of seat.old) result (view_of seat.new) }
    {
        self.table.shared.load::<Look>(&mut seat.place, 1)
    }

    /// Reports a number that this seat claimed.
    pub fn report(&self, seat: &mut Seat, number: u64)
        requires seat { IsSeatOf self.now seat.old }
        requires claimed { (number < limit_of self.now) × Has (view_of seat.old).claimed number }
        ensures seat { IsSeatOf self.now seat.new }
        ensures report { view_of seat.new ≡ after_report (view_of seat.old) number }
    {
        let shared = &self.table.shared;
        shared.fetch_min::<Report>(&mut seat.place, 1, number);
    }

    /// Takes the first seat back.
    pub fn gather(&self, seat: Seat) -> Gathered
        requires { IsSeatOf self.now seat }
        ensures whole { IsGatheredOf self.now result × (whole_of result ≡ view_of seat) }
        ensures parts { (whole_of result).parts ≡ 1 }
    {
        let Seat { place, over: _ } = seat;
        Gathered { place }
    }

    /// Takes a further seat back.
    pub fn absorb(&self, whole: &mut Gathered, seat: Seat)
        requires { IsGatheredOf self.now whole.old × IsSeatOf self.now seat }
        ensures whole { IsGatheredOf self.now whole.new × IsJoined whole.old seat whole.new }
        ensures parts { (whole_of whole.new).parts ≡ (whole_of whole.old).parts + 1 }
    {
        let Seat { place, over: _ } = seat;
        self.table
            .shared
            .join_seat::<Parts>(&mut whole.place, place);
    }

    /// The least number that was reported, or the greatest `u64`, once all seats were given back.
    pub fn settle(&self, whole: &mut Gathered) -> u64
        requires { IsWholeOf self.now whole.old }
        ensures whole { IsGatheredOf self.now whole.new × (whole_of whole.new ≡ whole_of whole.old) }
        ensures settled { (count : ℕ) × Settled (whole_of whole.old) count result }
    {
        self.table.shared.load::<Settle>(&mut whole.place, 1)
    }
}
