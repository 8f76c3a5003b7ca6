//! The machines that sessions start from.
use litmus_text::read_litmus;
use machine::{Machine, Step};
use std::alloc::Global;
use std::test::Fail;

/// Three processors that each write 1 to the one word, x.
pub const WRITERS: &str =
    "litmus 1\nline x\ncpu\nmov [x], 1\nend\ncpu\nmov [x], 1\nend\ncpu\nmov [x], 1\nend\n";

/// A processor that runs on the spot.
pub const SPINNER: &str = "litmus 1\nline x\ncpu\nl0:\njmp l0\nend\n";

/// The first processor's next instruction runs.
pub const EXEC: Step = Step::Exec(0);

/// The first entry leaves the first processor's store buffer.
pub const DRAIN: Step = Step::Drain(0, 0);

/// The machine of a litmus text before its first step.
pub fn loaded(alloc: Global, text: &str) -> Result<Machine, Fail> {
    let object = read_litmus(alloc, text.as_bytes())?;
    let machine = Machine::load(alloc, &object);
    drop(object);
    Ok(machine?)
}
