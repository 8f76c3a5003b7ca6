//! Calls that are made on a live machine. One that found no memory is made again, and then has to find some: nothing may
//! have changed between the two.
use crate::refusals::say;
use images::{Comparison, Cond, Operand};
use lines_layout::WordId;
use live::{Live, Naming, Receipt, Seat};
use machine::Step;
use std::io::Eprint;
use std::sync::Wait;

/// The receipt of a step.
pub fn stepped<K: Naming, R: Wait + Eprint>(
    rt: &R,
    live: &Live<K>,
    seat: &mut Seat<K>,
    step: Step,
) -> Option<Receipt> {
    match live.step(rt, seat, step) {
        Ok(receipt) => Some(receipt),
        Err(_) => {
            say(rt, "V1 NoMemory");
            live.step(rt, seat, step).ok()
        }
    }
}

/// The receipt of a step, or of a look where there is none.
pub fn called<K: Naming, R: Wait + Eprint>(
    rt: &R,
    live: &Live<K>,
    seat: &mut Seat<K>,
    step: Option<Step>,
) -> Option<Receipt> {
    match step {
        Some(step) => stepped(rt, live, seat, step),
        None => looked(rt, live, seat),
    }
}

/// The receipt of a look whether x is 1. The second call is of the condition that the first one handed back.
pub fn looked<K: Naming, R: Wait + Eprint>(
    rt: &R,
    live: &Live<K>,
    seat: &mut Seat<K>,
) -> Option<Receipt> {
    let cond = Cond::test(Operand::Coherent(WordId::new(0)?), Comparison::Equal, 1);
    match live.look(rt, seat, cond) {
        Ok(receipt) => Some(receipt),
        Err(failed) => {
            say(rt, "V1 NoMemory");
            live.look(rt, seat, failed.value).ok()
        }
    }
}
