//! A machine that many threads share.
ghost use Rattle.std.specs.Prelude.{◌≡◌, ◌<◌, Some, None, IfOk, OnOk, IfErr, OnErr, vec_len, All};
ghost use Rattle.workers.specs.Limits.{MayShare};
ghost use Rattle.live.specs.Journal.{step_asked, LeadsTo, Stands};
ghost use Rattle.live.specs.Seats.{IsNextSitting, AreFresh};
ghost use Rattle.live.specs.Receipts.{IsIssued, IsAfter, IsRefused, calls_of};

use crate::book::Book;
use crate::fault::CloseRefusal;
use crate::journal::{Call, JournalEntry, Receipt};
use crate::seat::{Naming, Seat};
use images::Cond;
use machine::{Machine, Step};
use std::alloc::{AllocError, AllocFailed, Global};
use std::sync::ledger::Blank;
use std::sync::{Mutex, Wait};

/// One machine for all threads that have a seat. `K` names it, so a seat of another one does not type.
#[derive(Drop)]
pub struct Live<K: Naming> {
    book: Mutex<Book<K>>,
}

/// What a close leaves.
#[derive(Drop)]
pub struct Closed {
    /// The machine, in the state that the journal leads to.
    pub machine: Machine,
    /// All calls that were made on it and answered, in their order.
    pub journal: Vec<JournalEntry>,
}

/// A close that was refused, with all that was handed in.
#[derive(Drop)]
pub struct CloseFault<K: Naming> {
    /// Why it was refused.
    pub why: CloseRefusal,
    /// The machine, still shared.
    pub live: Live<K>,
    /// The seats that were handed in.
    pub seats: Vec<Seat<K>>,
    /// The receipts that were handed in.
    pub receipts: Vec<Receipt>,
}

impl<K: Naming> Live<K> {
    /// Shares a machine among this many seats, 1 to `MAX_SEATS`. It takes no lock.
    ///
    /// # Errors
    ///
    /// Out of memory, with the machine and the blank.
    pub fn new(
        alloc: Global,
        machine: Machine,
        blank: Blank,
        seats: u32,
    ) -> Result<(Live<K>, Vec<Seat<K>>), AllocFailed<(Machine, Blank)>>
        requires state { machine ≡ K.opening }
        requires ledger { (blank.name ≡ K.name) × (blank.parts ≡ K.parts) }
        requires seats { (blank.parts ≡ seats) × MayShare seats }
        ensures seats { IfOk result (λ r. AreFresh r.1.items seats) }
        ensures err { IfErr result (λ e. (e.value.0 ≡ machine) × (e.value.1 ≡ blank)) }
    {
        let Ok(mut handed) = Vec::with_capacity(alloc, seats as usize) else {
            return Err(AllocFailed {
                value: (machine, blank),
            });
        };
        let (total, mut all) = blank.open::<K>();
        for number in 0..seats {
            let share = all.split_off(1, 0);
            handed.push_reserved(Seat::fresh(number, share));
        }
        let book = Mutex::new(Book::new(alloc, machine, total, seats));
        Ok((Live { book }, handed))
    }

    /// Makes a step. Where the machine refuses it, the receipt says so.
    ///
    /// # Errors
    ///
    /// Out of memory. No step was made, and the seat is as it was.
    pub fn step<R: Wait>(
        &self,
        rt: &R,
        seat: &mut Seat<K>,
        step: Step,
    ) -> Result<Receipt, AllocError>
        ensures names { IfOk result (λ r. (r.seat ≡ seat.old.number) × (r.step ≡ Some step)) }
        ensures issued { IfOk result (λ r. IsIssued K.opening seat.old.last (Call.Make step) r) }
        ensures later { IfOk result (λ r. IsAfter seat.old.last r) }
        ensures seat { IfOk result (λ r. IsNextSitting seat.old seat.new r) }
        ensures err { OnErr result (seat.new ≡ seat.old) }
    {
        match self.make(rt, seat, Call::Make(step)) {
            Ok(receipt) => Ok(receipt),
            Err(failed) => Err(failed.into()),
        }
    }

    /// Asks whether a condition holds in the machine's state.
    ///
    /// # Errors
    ///
    /// Out of memory, with the condition. The seat is as it was.
    pub fn look<R: Wait>(
        &self,
        rt: &R,
        seat: &mut Seat<K>,
        cond: Cond,
    ) -> Result<Receipt, AllocFailed<Cond>>
        ensures names { IfOk result (λ r. (r.seat ≡ seat.old.number) × (r.step ≡ None)) }
        ensures issued { IfOk result (λ r. IsIssued K.opening seat.old.last (Call.Look cond) r) }
        ensures later { IfOk result (λ r. IsAfter seat.old.last r) }
        ensures seat { IfOk result (λ r. IsNextSitting seat.old seat.new r) }
        ensures err { IfErr result (λ e. (seat.new ≡ seat.old) × (e.value ≡ cond)) }
    {
        match self.make(rt, seat, Call::Look(cond)) {
            Ok(receipt) => Ok(receipt),
            Err(failed) => match failed.value {
                Call::Look(cond) => Err(AllocFailed { value: cond }),
                Call::Make(_) => unreachable!(),
            },
        }
    }

    // Takes the lock until the seat's last receipt is in the journal found, and makes the call.
    fn make<R: Wait>(
        &self,
        rt: &R,
        seat: &mut Seat<K>,
        call: Call,
    ) -> Result<Receipt, AllocFailed<Call>>
        ensures names { IfOk result (λ r. (r.seat ≡ seat.old.number) × (r.step ≡ step_asked call)) }
        ensures issued { IfOk result (λ r. IsIssued K.opening seat.old.last call r) }
        ensures later { IfOk result (λ r. IsAfter seat.old.last r) }
        ensures seat { IfOk result (λ r. IsNextSitting seat.old seat.new r) }
        ensures err { IfErr result (λ e. (seat.new ≡ seat.old) × (e.value ≡ call)) }
    {
        for _ in rt.forever() {
            let mut book = self.book.lock(rt);
            if book.has_last_of(seat) {
                return book.apply(seat, call);
            }
        }
        unreachable!()
    }

    /// Takes machine and journal out, where all seats are handed in and each of the receipts is in the
    /// journal.
    ///
    /// # Errors
    ///
    /// [`CloseRefusal::MissingSeat`], which is tested first, or [`CloseRefusal::Stranger`] of the first
    /// receipt that is not in the journal. The seats and receipts that were handed in come back.
    pub fn close(self, seats: Vec<Seat<K>>, receipts: Vec<Receipt>) -> Result<Closed, CloseFault<K>>
        ensures all { OnOk result (vec_len seats ≡ K.parts) }
        ensures legal { IfOk result (λ c. LeadsTo K.opening c.journal.items c.machine) }
        ensures count { IfOk result (λ c. vec_len c.journal ≡ calls_of seats.items) }
        ensures stand { IfOk result (λ c. All (Stands c.journal.items) receipts.items) }
        ensures why { IfErr result (λ f. IsRefused K.opening K.parts seats.items receipts.items f.why) }
        ensures seats { IfErr result (λ f. f.seats.items ≡ seats.items) }
        ensures receipts { IfErr result (λ f. f.receipts.items ≡ receipts.items) }
    {
        let Live { book } = self;
        let mut book = book.into_inner();
        let mut seats = seats;
        if seats.len() != book.seats() as usize {
            return Err(CloseFault {
                why: CloseRefusal::MissingSeat,
                live: Live {
                    book: Mutex::new(book),
                },
                seats,
                receipts,
            });
        }
        book.audit(seats.as_mut_slice());
        match book.stranger(receipts.as_slice()) {
            Some((receipt, shown)) => Err(CloseFault {
                why: CloseRefusal::Stranger(receipt, shown),
                live: Live {
                    book: Mutex::new(book),
                },
                seats,
                receipts,
            }),
            None => {
                let (machine, journal) = book.into_parts();
                Ok(Closed { machine, journal })
            }
        }
    }
}
