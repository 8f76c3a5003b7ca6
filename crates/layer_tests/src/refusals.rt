//! What a test says to `tests/refused-memory`, on standard error: between which calls an allocation is to be refused,
//! and which fault was answered where it was. Tests of `call_tests` say the same.
use std::fmt::Display;
use std::io::Eprint;

/// From here on allocations are counted, and one is refused.
pub fn refuse<R: Eprint>(rt: &R) {
    let _ = rt.eprintln("refuse");
}

/// None is refused until the next call of [`refuse`].
pub fn spare<R: Eprint>(rt: &R) {
    let _ = rt.eprintln("spare");
}

/// Says which fault was answered.
pub fn say<R: Eprint, F: Display + Drop>(rt: &R, fault: F) {
    let _ = rt.eprintln(fault);
}

/// Whether of two calls no answer is wrong, and at least one did not run out of memory.
pub fn one_is_right(answers: [Option<bool>; 2]) -> bool {
    match answers {
        [Some(first), Some(second)] => first && second,
        [Some(only), None] | [None, Some(only)] => only,
        [None, None] => false,
    }
}
