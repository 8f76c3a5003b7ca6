//! What a test says to `tests/refused-memory`, on standard error: between which calls an allocation is to be refused,
//! and which fault was answered where it was.
use std::fmt::Display;
use std::io::Eprint;

/// From here on allocations are counted, and one is refused.
pub fn refuse<R: Eprint>(rt: &R) {
    let _ = rt.eprintln("refuse");
}

/// None is refused until the next call of [`refuse`].
pub fn spare<R: Eprint>(rt: &R) {
    let _ = rt.eprintln("spare");
}

/// Says which fault was answered.
pub fn say<R: Eprint, F: Display + Drop>(rt: &R, fault: F) {
    let _ = rt.eprintln(fault);
}

/// What a call answered, unless it is a fault, which is said.
pub fn found<R: Eprint, T: Drop, F: Display + Drop>(rt: &R, answer: Result<T, F>) -> Option<T> {
    match answer {
        Ok(value) => Some(value),
        Err(fault) => {
            say(rt, fault);
            None
        }
    }
}
