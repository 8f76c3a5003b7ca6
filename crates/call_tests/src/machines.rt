//! The machines that the tests start from.
use litmus_text::read_litmus;
use machine::{Machine, Step};
use std::alloc::Global;
use std::test::Fail;

/// A processor that writes 1 to the only word, x.
pub const ONE_WRITE: &str = "litmus 1\nline x\ncpu\nmov [x], 1\nend\n";

/// Two processors that write and flush for ever, each a word of its own, also after a crash.
pub const LOOPS: &str = "litmus 1\nline x\nline y
cpu\nl0:\nmov [x], 1\nclflush [x]\njmp l0\nrecover\nl0:\nmov [x], 2\nclflush [x]\njmp l0\nend
cpu\nl0:\nmov [y], 1\nclflush [y]\njmp l0\nrecover\nl0:\nmov [y], 2\nclflush [y]\njmp l0\nend\n";

/// The first processor's next instruction runs.
pub const EXEC: Step = Step::Exec(0);

/// The first entry leaves the first processor's store buffer.
pub const DRAIN: Step = Step::Drain(0, 0);

/// The machine of a litmus text before its first step.
pub fn loaded(alloc: Global, text: &str) -> Result<Machine, Fail> {
    let object = read_litmus(alloc, text.as_bytes())?;
    let machine = Machine::load(alloc, &object);
    drop(object);
    Ok(machine?)
}
