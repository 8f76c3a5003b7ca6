//! What lies under the lock.
ghost use Rattle.std.specs.Prelude.{◌≡◌, ◌↔◌, ◌+◌, ◌<◌, [], length, IsTrue, IfOk, OnOk, IfErr, OnErr, IfSome, IfNone, Some, All};
ghost use Rattle.live.specs.Journal.{answer_to, state_from, entry, shown_at, Records, Stands, IsLegal, replay};
ghost use Rattle.live.specs.Seats.{IsNextSitting};
ghost use Rattle.live.specs.Receipts.{IsReceiptFor, IsStrangerFound, StandsIfAny, calls_of};

use crate::journal::{Call, JournalEntry, Receipt};
use crate::seat::{Naming, Seat};
use machine::Machine;
use std::alloc::{AllocFailed, Global};
use std::marker::Model;
use std::sync::ledger;
use std::sync::ledger::Share;

/// What lies under the lock: the machine, and the journal of all calls. The journal is legal from the state
/// that the machine was opened in, the machine's state is its replay, and it has as many entries as all
/// seats together made calls that were answered.
#[derive(Drop)]
pub struct Book<K: Naming> {
    machine: Machine,
    journal: Vec<JournalEntry>,
    total: ledger::Book<K>,
    seats: u32,
}

impl<K: Naming> Model for Book<K> {
    ghost use Rattle.std.specs.Prelude.{◌≡◌, ◌<◌, vec_len};
    ghost use Rattle.live.specs.Journal.{History, IsLegal, replay};
    ghost use Rattle.std.specs.Coded.{codes};
    ghost use Rattle.conditions.specs.FormulaCodes.{coded_formula};

    ghost Value = { History };

    ghost coded = { Prim.hlevel (codes, coded_formula) };

    ghost view = { λ b. record { state = b.machine; journal = b.journal.items } };

    ghost invariant = { λ b. IsLegal K.opening b.journal.items × (b.machine ≡ replay K.opening b.journal.items) × (vec_len b.journal ≡ b.total.total) × (b.seats ≡ K.parts) × (0 < b.seats) };
}

impl<K: Naming> Book<K> {
    /// An empty journal.
    pub(crate) fn new(
        alloc: Global,
        machine: Machine,
        total: ledger::Book<K>,
        seats: u32,
    ) -> Book<K>
        requires seats { (seats ≡ K.parts) × (0 < seats) }
        requires state { machine ≡ K.opening }
        requires total { total.total ≡ 0 }
        ensures { (result.state ≡ machine) × (result.journal ≡ []) }
    {
        Book {
            machine,
            journal: Vec::new(alloc),
            total,
            seats,
        }
    }

    /// How many seats there are.
    pub fn seats(&self) -> u32
        ensures { (result ≡ K.parts) × (0 < result) }
    {
        self.seats
    }

    /// The entry of this number, in the form of a receipt.
    pub fn shown(&self, number: u64) -> Option<Receipt>
        ensures { result ≡ shown_at self.now.journal number }
    {
        match self.journal.get(number as usize) {
            Some(entry) => Some(entry.receipt(number)),
            None => None,
        }
    }

    /// Whether the receipt is in the journal.
    pub fn has(&self, receipt: &Receipt) -> bool
        ensures { IsTrue result ↔ Stands self.now.journal receipt.now }
    {
        match self.shown(receipt.number) {
            Some(shown) => shown.is(receipt),
            None => false,
        }
    }

    /// Whether the seat's last receipt is in the journal. That of a new seat, which has none, is.
    pub fn has_last_of(&self, seat: &Seat<K>) -> bool
        ensures { IsTrue result ↔ StandsIfAny self.now.journal seat.now.last }
    {
        match &seat.last {
            Some(receipt) => self.has(receipt),
            None => true,
        }
    }

    /// Makes a call for a seat: makes room in the journal, applies the call and appends it. A step that the
    /// machine refuses is an entry too, with the refusal as its answer.
    ///
    /// # Errors
    ///
    /// Out of memory, with the call. Machine, journal and seat are as they were.
    pub fn apply(&mut self, seat: &mut Seat<K>, call: Call) -> Result<Receipt, AllocFailed<Call>>
        ensures answer { IfOk result (λ r. r.answer ≡ answer_to self.old.state call) }
        ensures names { IfOk result (IsReceiptFor self.old.journal seat.old.number call) }
        ensures state { OnOk result (self.new.state ≡ state_from self.old.state call) }
        ensures journal { IfOk result (Records self.old self.new seat.old.number call) }
        ensures seat { IfOk result (λ r. IsNextSitting seat.old seat.new r) }
        ensures legal { IsLegal K.opening self.new.journal }
        ensures replay { self.new.state ≡ replay K.opening self.new.journal }
        ensures same { OnErr result (self.new ≡ self.old) }
        ensures err { IfErr result (λ f. (seat.new ≡ seat.old) × (f.value ≡ call)) }
    {
        if self.journal.reserve(1).is_err() {
            return Err(AllocFailed { value: call });
        }
        let answer = call.made_on(&mut self.machine);
        let Seat {
            number,
            calls,
            last,
            share,
        } = seat;
        let entry = JournalEntry {
            seat: *number,
            call,
            answer,
        };
        let receipt = entry.receipt(self.journal.len() as u64);
        self.total.add(share, 1);
        self.journal.push_reserved(entry);
        self.total.audit(share);
        *calls += 1;
        let given = &receipt;
        *last = Some(*given);
        Ok(*given)
    }

    /// The first of the receipts that is not in the journal, and what is shown at its number.
    pub(crate) fn stranger(&self, receipts: &[Receipt]) -> Option<(Receipt, Option<Receipt>)>
        ensures none { IfNone result (All (Stands self.now.journal) receipts.now) }
        ensures some { IfSome result (IsStrangerFound self.now.journal receipts.now) }
    {
        for k in 0..receipts.len() {
            let receipt = &receipts[k];
            if !self.has(receipt) {
                return Some((*receipt, self.shown(receipt.number)));
            }
        }
        None
    }

    /// Changes nothing: with all seats at hand it shows that the journal has as many entries as they made calls.
    pub(crate) fn audit(&mut self, seats: &mut [Seat<K>])
        requires { (0 < K.parts) × (length seats.old ≡ K.parts) }
        ensures same { (self.new ≡ self.old) × (seats.new ≡ seats.old) }
        ensures count { length self.new.journal ≡ calls_of seats.new }
        ensures legal { IsLegal K.opening self.new.journal }
        ensures replay { self.new.state ≡ replay K.opening self.new.journal }
    {
        let first = &mut seats[0];
        let mut seen = first.share.empty();
        add_up(&mut self.total, seats, &mut seen);
    }

    /// The machine and the journal.
    pub(crate) fn into_parts(self) -> (Machine, Vec<JournalEntry>)
        ensures { (result.0 ≡ self.state) × (result.1.items ≡ self.journal) }
    {
        let Book {
            machine,
            journal,
            total: _,
            seats: _,
        } = self;
        (machine, journal)
    }
}

// Adds up the seats' shares: `seen` is lent each of them until it has every part.
fn add_up<K: Naming>(total: &mut ledger::Book<K>, seats: &mut [Seat<K>], seen: &mut Share<K>)
    requires parts { seen.old.parts + length seats.old ≡ K.parts }
    requires backed { seen.old.parts ≡ 0 → seen.old.amount ≡ 0 }
    ensures total { total.new.total ≡ total.old.total }
    ensures sum { total.old.total ≡ seen.old.amount + calls_of seats.old }
    ensures seats { seats.new ≡ seats.old }
    ensures seen { (seen.new.parts ≡ seen.old.parts) × (seen.new.amount ≡ seen.old.amount) }
{
    if seats.is_empty() {
        total.audit(seen);
        return;
    }
    let (head, rest) = seats.split_at_mut(1);
    let first = &mut head[0];
    let calls = first.calls;
    first.share.give(seen, 1, calls);
    add_up(total, rest, seen);
    seen.give(&mut first.share, 1, calls);
}
