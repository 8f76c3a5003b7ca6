//! What a close answers: of receipts that it is not handed, of those of another machine, and of a seat that is missing.
//! And what a seat is answered after another one's crash.
ghost use Rattle.std.specs.Prelude.{◌≡◌};

use crate::machines::{DRAIN, EXEC, ONE_WRITE, loaded};
use crate::seat_calls::{looked, stepped};
use lines_layout::WordId;
use live::{Answer, CloseRefusal, Closed, Live, Naming, Receipt, Seat};
use machine::{Act, Entry, Machine, Refusal, Seen, Step};
use std::alloc::Global;
use std::io::Eprint;
use std::marker::Brand;
use std::sync::Wait;
use std::sync::ledger::Blank;
use std::test::Fail;

/// Receipts of three of five calls.
#[derive(Clone, Copy, Debug)]
struct Strange {
    first: Receipt,
    second: Receipt,
    fifth: Receipt,
}

/// Those of a seat's calls on a live machine.
fn five_calls<K: Naming, R: Wait + Eprint>(
    rt: &R,
    live: &Live<K>,
    seat: &mut Seat<K>,
) -> Option<Strange> {
    let first = stepped(rt, live, seat, EXEC)?;
    let second = stepped(rt, live, seat, DRAIN)?;
    for _ in 0..2 {
        stepped(rt, live, seat, EXEC)?;
    }
    let fifth = stepped(rt, live, seat, EXEC)?;
    Some(Strange {
        first,
        second,
        fifth,
    })
}

/// Those of calls that are made on a machine of one seat.
fn strange_receipts<K: Naming, R: Wait + Eprint>(
    rt: &R,
    alloc: Global,
    machine: Machine,
    blank: Blank,
) -> Option<Strange>
    requires state { machine ≡ K.opening }
    requires ledger { (blank.name ≡ K.name) × (blank.parts ≡ K.parts) × (blank.parts ≡ 1) }
{
    let (live, mut seats) = Live::<K>::new(alloc, machine, blank, 1).ok()?;
    five_calls(rt, &live, seats.first_mut()?)
}

/// The receipts of a look, a write, its way out of the store buffer, and a look, by two seats in turn.
fn four_calls<K: Naming, R: Wait + Eprint>(
    rt: &R,
    live: &Live<K>,
    one: &mut Seat<K>,
    other: &mut Seat<K>,
) -> Option<[Receipt; 4]> {
    Some([
        looked(rt, live, one)?,
        stepped(rt, live, other, EXEC)?,
        stepped(rt, live, one, DRAIN)?,
        looked(rt, live, other)?,
    ])
}

/// What four closes of one machine were answered, and the receipts of its four calls.
#[derive(Drop)]
struct Closes {
    missing: CloseRefusal,
    stranger: CloseRefusal,
    unshown: CloseRefusal,
    calls: [Receipt; 4],
    closed: Closed,
}

/// A close with one of two seats, one with a receipt twice and two strange ones, one with that receipt twice and a strange
/// one past the journal's end, and one with that receipt twice alone. The receipts of the other calls are kept back.
fn four_closes<K: Naming, R: Wait + Eprint>(
    rt: &R,
    alloc: Global,
    machine: Machine,
    blank: Blank,
    strange: Strange,
) -> Option<Closes>
    requires state { machine ≡ K.opening }
    requires ledger { (blank.name ≡ K.name) × (blank.parts ≡ K.parts) × (blank.parts ≡ 2) }
{
    let (live, mut seats) = Live::<K>::new(alloc, machine, blank, 2).ok()?;
    let mut kept = seats.pop()?;
    let calls = four_calls(rt, &live, seats.first_mut()?, &mut kept)?;
    let mut receipts = Vec::new(alloc);
    receipts
        .extend_from_slice(&[calls[0], calls[0], strange.second, strange.first])
        .ok()?;
    let missing = live.close(seats, receipts).err()?;
    let mut seats = missing.seats;
    seats.push(kept).ok()?;
    let stranger = missing.live.close(seats, missing.receipts).err()?;
    let mut receipts = stranger.receipts;
    receipts.truncate(2);
    receipts.push(strange.fifth).ok()?;
    let unshown = stranger.live.close(stranger.seats, receipts).err()?;
    let mut receipts = unshown.receipts;
    receipts.truncate(2);
    let closed = unshown.live.close(unshown.seats, receipts).ok()?;
    Some(Closes {
        missing: missing.why,
        stranger: stranger.why,
        unshown: unshown.why,
        calls,
        closed,
    })
}

/// Whether each receipt is the journal's entry of its number, and there are no more entries.
fn stand(calls: &[Receipt], closed: &Closed) -> bool {
    for (number, entry) in closed.journal.iter().enumerate() {
        if calls.get(number) != Some(&entry.receipt(number as u64)) {
            return false;
        }
    }
    closed.journal.len() == calls.len()
}

/// Whether each look of a journal has its condition, which is false before the first step and true at the end.
fn asks_for_x(closed: &mut Closed, opening: &mut Machine) -> bool {
    let mut looks: u32 = 0;
    for entry in &closed.journal {
        if entry.call.step().is_none() {
            looks = looks.wrapping_add(1);
            if entry.call.made_on(opening) != Answer::Looked(false)
                || entry.call.made_on(&mut closed.machine) != Answer::Looked(true)
            {
                return false;
            }
        }
    }
    looks == 2
}

/// Whether a refusal has this text.
fn says(alloc: Global, refusal: &CloseRefusal, text: &str) -> bool {
    match refusal.to_string(alloc) {
        Ok(told) => told.as_str() == text,
        Err(_) => false,
    }
}

/// A missing seat is reported before a receipt of another machine, of two such receipts the first is named, a receipt
/// may come twice, and what was handed in comes back each time. Beside a strange receipt is the entry of its number, and
/// nothing where the journal is not that long. At the end each receipt is the journal's entry of its number, though the
/// close was handed one of them alone. No command was seen to print the texts of these faults.
#[test]
fn closes_so(rt: HostRuntime) -> Result<(), Fail> {
    let alloc = rt.alloc();
    let mut opening = loaded(alloc, ONE_WRITE)?;
    let other = loaded(alloc, ONE_WRITE)?;
    let strange = strange_receipts::<Brand, HostRuntime>(&rt, alloc, other, Blank::new(1));
    let strange = strange.ok_or("no receipts")?;
    let (named, fifth) = (strange.second, strange.fifth);
    let machine = loaded(alloc, ONE_WRITE)?;
    let closes = four_closes::<Brand, HostRuntime>(&rt, alloc, machine, Blank::new(2), strange);
    let Closes {
        missing,
        stranger,
        unshown,
        calls,
        mut closed,
    } = closes.ok_or("not closed")?;
    let they_stand = stand(&calls, &closed);
    let they_ask = asks_for_x(&mut closed, &mut opening);
    drop((closed, opening));
    assert!(rt; they_stand && they_ask);
    assert!(rt; missing == CloseRefusal::MissingSeat);
    assert!(rt; stranger == CloseRefusal::Stranger(named, Some(calls[1])));
    assert!(rt; unshown == CloseRefusal::Stranger(fifth, None) && fifth.number == 4);
    let looks = [calls[0].answer, calls[3].answer];
    assert!(rt; looks == [Answer::Looked(false), Answer::Looked(true)]);
    assert!(rt; says(alloc, &missing, "V3 MissingSeat"));
    assert!(rt; says(alloc, &stranger, "V2 Stranger 1"));
    Ok(())
}

/// The receipts of an instruction by the first of two seats, a crash by the other, and an entry's way out and an
/// instruction by the first.
fn crashing_calls<K: Naming, R: Wait + Eprint>(
    rt: &R,
    live: &Live<K>,
    seats: &mut [Seat<K>],
) -> Option<[Receipt; 4]> {
    let (one, others) = seats.split_first_mut()?;
    let other = others.first_mut()?;
    Some([
        stepped(rt, live, one, EXEC)?,
        stepped(rt, live, other, Step::Crash)?,
        stepped(rt, live, one, DRAIN)?,
        stepped(rt, live, one, EXEC)?,
    ])
}

/// All of some receipts, if there are any.
fn listed(alloc: Global, calls: Option<[Receipt; 4]>) -> Option<Vec<Receipt>> {
    Vec::from_slice(alloc, &calls?).ok()
}

/// The journal of those calls.
fn crashed_between<K: Naming, R: Wait + Eprint>(
    rt: &R,
    alloc: Global,
    machine: Machine,
    blank: Blank,
) -> Option<Closed>
    requires state { machine ≡ K.opening }
    requires ledger { (blank.name ≡ K.name) × (blank.parts ≡ K.parts) × (blank.parts ≡ 2) }
{
    let (live, mut seats) = Live::<K>::new(alloc, machine, blank, 2).ok()?;
    let calls = crashing_calls(rt, &live, &mut seats);
    match listed(alloc, calls) {
        Some(receipts) => live.close(seats, receipts).ok(),
        None => None,
    }
}

/// Whether a journal has these answers to the calls of these seats, in this order, and no more.
fn is_answered(closed: &Closed, answers: &[(u32, Result<Seen, Refusal>)]) -> bool {
    for (number, entry) in closed.journal.iter().enumerate() {
        let Some((seat, answer)) = answers.get(number) else {
            return false;
        };
        if entry.seat != *seat || entry.answer != Answer::Made(*answer) {
            return false;
        }
    }
    closed.journal.len() == answers.len()
}

/// What a seat wrote is lost by another one's crash, and after it there is no recovery program.
#[test]
fn a_crash_comes_between(rt: HostRuntime) -> Result<(), Fail> {
    let alloc = rt.alloc();
    let x = WordId::new(0).ok_or("no word")?;
    let machine = loaded(alloc, ONE_WRITE)?;
    let closed = crashed_between::<Brand, HostRuntime>(&rt, alloc, machine, Blank::new(2));
    let closed = closed.ok_or("not closed")?;
    let answers = [
        (0, Ok(Seen::Ran(0, 0, Act::Delay(Entry::Write(x, 1))))),
        (1, Ok(Seen::Crashed(1))),
        (0, Err(Refusal::NoEntry)),
        (0, Err(Refusal::Halted)),
    ];
    let is_answered = is_answered(&closed, &answers);
    let counts = (
        closed.machine.view().turns(),
        closed.machine.view().crashes(),
    );
    drop(closed);
    assert!(rt; is_answered && counts == (2, 1));
    Ok(())
}
