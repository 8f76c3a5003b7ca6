//! The work of one thread of `live`: the steps of its seat.
ghost use Rattle.std.specs.Prelude.{◌≡◌, ◌<◌, ℕ, ◌++◌, ◌∷◌, [], List, IfOk, OnOk};
ghost use Rattle.live.specs.Seats.{fresh};
ghost use Rattle.thread_jobs.specs.Brought.{HasMadeOwn, HasWorked};
ghost use Rattle.machine.specs.declared.step.Step.{Step};

use live::{Live, Naming, Receipt, Seat};
use machine::Step;
use std::alloc::{AllocError, Global};
use std::sync::Wait;
use workers::Gate;

/// Steps that are dealt to so many threads, to one after the other.
#[derive(Clone, Copy)]
pub(crate) struct Dealing<'s> {
    /// The steps.
    pub(crate) steps: &'s [Step],
    /// How many threads there are.
    pub(crate) threads: u32,
}

/// What the threads of a live machine share.
#[derive_where(Clone, Copy)]
pub(crate) struct Shared<'s, K: Naming, G> {
    /// The machine.
    pub(crate) live: &'s Live<K>,
    /// The gate to which they report.
    pub(crate) gate: &'s G,
}

/// What a thread brings back: its seat, and the receipts of its steps in their order.
pub type Worked<K> = Result<(Seat<K>, Vec<Receipt>), AllocError>;

/// Makes one more step of a seat, and keeps its receipt. The step's number is reported to the gate before it is made, and
/// again after that.
fn make_one<K: Naming, R: Wait, G: Gate>(
    rt: &R,
    shared: Shared<'_, K, G>,
    seat: &mut Seat<K>,
    receipts: &mut Vec<Receipt>,
    i: u64,
    step: Step,
) -> Result<(), AllocError>
    ensures { OnOk result ((number : ℕ) (xs : List Step)
        → HasWorked seat.old receipts.old.items number xs
        → HasWorked seat.new receipts.new.items number (xs ++ step ∷ [])) }
{
    if receipts.reserve(1).is_err() {
        return Err(AllocError);
    }
    shared.gate.claimed(i);
    let Ok(receipt) = shared.live.step(rt, seat, step) else {
        return Err(AllocError);
    };
    receipts.push_reserved(receipt);
    shared.gate.ended(i);
    Ok(())
}

/// Makes the steps that are dealt to the seat of this number, and keeps their receipts.
fn make_own<K: Naming, R: Wait, G: Gate>(
    rt: &R,
    shared: Shared<'_, K, G>,
    seat: &mut Seat<K>,
    receipts: &mut Vec<Receipt>,
    number: u32,
    dealing: Dealing<'_>,
) -> Result<(), AllocError>
    requires few { 0 < dealing.threads }
    requires none { HasWorked seat.old receipts.old.items number [] }
    ensures { OnOk result (HasMadeOwn dealing.entry number seat.new receipts.new.items) }
{
    let Dealing { steps, threads } = dealing;
    for i in 0..steps.len() {
        if i % threads as usize != number as usize {
            continue;
        }
        make_one(rt, shared, seat, receipts, i as u64, steps[i])?;
    }
    Ok(())
}

/// Makes the steps of one seat, of those that are dealt. The number of a step is reported to the gate before it is made and
/// after that. A step that the machine refuses is made as any other.
///
/// # Errors
///
/// Out of memory.
pub(crate) fn work<K: Naming, R: Wait, G: Gate>(
    rt: &R,
    alloc: Global,
    shared: Shared<'_, K, G>,
    seat: Seat<K>,
    dealing: Dealing<'_>,
) -> Worked<K>
    requires { (0 < dealing.threads) × (seat ≡ fresh seat.number) }
    ensures { IfOk result (λ w. HasMadeOwn dealing.entry seat.number w.0 w.1.items) }
{
    let mut seat = seat;
    let number = seat.number();
    let mut receipts = Vec::new(alloc);
    match make_own(rt, shared, &mut seat, &mut receipts, number, dealing) {
        Ok(()) => Ok((seat, receipts)),
        Err(fault) => Err(fault),
    }
}
