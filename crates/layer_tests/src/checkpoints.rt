//! How many steps going back replays, which no report says, and the states behind checkpoints.
use crate::machines::{DRAIN, EXEC, SPINNER};
use crate::sessions::{back, opened, replayed, turns};
use debugger::{Halt, Session};
use isa::Reg;
use lines_layout::WordId;
use machine::Step;
use std::alloc::Global;
use std::test::Fail;

/// Whether a step is made. One that found no memory is made by a second call.
fn is_made(session: &mut Session, step: Step) -> bool {
    let mut halt = session.go(&[step]);
    if halt == Halt::NoMemory(0) {
        halt = session.go(&[step]);
    }
    halt == Halt::End
}

/// Whether so many steps are made, each by a call of its own.
fn spun(session: &mut Session, count: usize) -> bool {
    for _ in 0..count {
        if !is_made(session, EXEC) {
            return false;
        }
    }
    true
}

/// The turns before its last steps, and how many steps were replayed; none where that is too far.
fn gone_back(session: &mut Session, count: usize) -> Option<(u64, u64)> {
    match back(session, count) {
        Ok(()) => Some((turns(session), replayed(session))),
        Err(_) => None,
    }
}

/// Whether a session goes back so many steps each time, with these turns before its last steps and so many replayed.
fn goes_back(session: &mut Session, rows: &[(usize, Option<(u64, u64)>)]) -> bool {
    for (count, wanted) in rows {
        if gone_back(session, *count) != *wanted {
            return false;
        }
    }
    true
}

/// Whether it does so after so many steps, and none is replayed before.
fn replays(
    alloc: Global,
    steps: usize,
    rows: &[(usize, Option<(u64, u64)>)],
) -> Result<bool, Fail> {
    let mut session = opened(alloc, SPINNER)?;
    let facts = [
        spun(&mut session, steps),
        replayed(&session) == 0,
        goes_back(&mut session, rows),
    ];
    drop(session);
    Ok(facts == [true; 3])
}

/// 200 steps have checkpoints at 64, 128 and 192.
#[test]
fn replays_from_the_last_checkpoint(rt: HostRuntime) -> Result<(), Fail> {
    let rows = [
        (1, Some((199, 7))),
        (69, Some((130, 2))),
        (130, Some((0, 0))),
        (1, None),
    ];
    assert!(rt; replays(rt.alloc(), 200, &rows)?);
    Ok(())
}

/// 2,200 steps have the last 32 of 34 checkpoints: those at 64 and 128 gave way.
#[test]
fn replays_few_of_many_steps(rt: HostRuntime) -> Result<(), Fail> {
    let near = [(2000, Some((200, 8))), (100, Some((100, 100)))];
    let far = [(2100, Some((100, 100))), (101, None)];
    for rows in [near, far] {
        assert!(rt; replays(rt.alloc(), 2200, &rows)?);
    }
    Ok(())
}

/// A processor that counts its rounds in rax, and stores each count.
const COUNTER: &str = "litmus 1\nline x\ncpu\nl0:\nadd rax, 1\nmov [x], rax\njmp l0\nend\n";

/// The steps of a round: it counts, stores, the write leaves the store buffer and persists, and the processor jumps.
const ROUND: [Step; 5] = [EXEC, EXEC, DRAIN, Step::Persist(0), EXEC];

/// Whether the steps of these numbers are made, which come round after round.
fn counted(session: &mut Session, first: usize, end: usize) -> bool {
    for number in first..end {
        if !is_made(session, ROUND[number % ROUND.len()]) {
            return false;
        }
    }
    true
}

/// How many steps a session has behind it; its processor's rax, its place, and how many entries are buffered; and the
/// word's coherent and persisted value.
fn state(session: &Session, x: WordId) -> Option<[u64; 6]> {
    let view = session.look();
    Some([
        view.turns(),
        view.reg(0, Reg::Rax)?,
        view.place(0)? as u64,
        view.buffer(0)?.len() as u64,
        view.coherent(x)?,
        view.persisted(x)?,
    ])
}

/// The same after so many steps, by what each step of a round does.
fn wanted(steps: u64) -> [u64; 6] {
    let (rounds, more) = (steps / 5, steps % 5);
    [
        steps,
        rounds + u64::from(more >= 1),
        more.min(2),
        u64::from(more == 2),
        rounds + u64::from(more >= 3),
        rounds + u64::from(more >= 4),
    ]
}

/// Goes back so many steps each time, and has so many behind it then. 2,300 steps have checkpoints up to 2,240; those at 64,
/// 128 and 192 gave way.
const BACK: [(usize, u64); 10] = [
    (1, 2299),
    (2, 2297),
    (57, 2240),
    (1, 2239),
    (64, 2175),
    (65, 2110),
    (135, 1975),
    (900, 1075),
    (818, 257),
    (2, 255),
];

/// Whether a session goes back so many steps, and is in the state that the others lead to.
fn returns(session: &mut Session, x: WordId, back_by: (usize, u64)) -> bool {
    let (count, left) = back_by;
    back(session, count) == Ok(()) && state(session, x) == Some(wanted(left))
}

/// Whether it does so each time.
fn returns_each_time(session: &mut Session, x: WordId) -> bool {
    for back_by in BACK {
        if !returns(session, x, back_by) {
            return false;
        }
    }
    true
}

/// Each state on the way back is that of the steps that are left: also behind a checkpoint, at one, and before the first that
/// is kept. From there the same steps lead to the same states again.
#[test]
fn states_are_those_of_the_steps_left(rt: HostRuntime) -> Result<(), Fail> {
    let x = WordId::new(0).ok_or("no word")?;
    let mut session = opened(rt.alloc(), COUNTER)?;
    let facts = [
        counted(&mut session, 0, 2300),
        state(&session, x) == Some(wanted(2300)),
        returns_each_time(&mut session, x),
        counted(&mut session, 255, 700),
        state(&session, x) == Some(wanted(700)),
        returns(&mut session, x, (3, 697)),
        returns(&mut session, x, (597, 100)),
        returns(&mut session, x, (100, 0)),
    ];
    drop(session);
    assert!(rt; facts == [true; 8]);
    Ok(())
}
