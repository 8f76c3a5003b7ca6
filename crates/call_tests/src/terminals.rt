//! A conversation at a terminal in memory, which keeps what goes on at it, and of which the call of a number fails.
use crate::machines::ONE_WRITE;
use commands::{Device, Failed, Fault, Metered, Status};
use conversations::converse;
use std::alloc::Global;
use std::test::Fail;
use talks::Terminal;

/// What goes on at a terminal.
#[derive(Debug, Drop, PartialEq, Eq)]
enum Went {
    /// This byte was heard.
    Heard(u8),
    /// The end was heard.
    Ended,
    /// This text was told.
    Told(Vec<u8>),
}

/// A terminal in memory.
#[derive(Drop)]
struct Memory {
    alloc: Global,
    /// What will be heard.
    typed: &'static [u8],
    /// How many calls will be made before one fails.
    calls: usize,
    /// What went on, in its order.
    went: Vec<Went>,
}

impl Memory {
    /// Notes what a call was for, unless it is to fail.
    fn note(&mut self, went: Went) -> Result<(), Failed> {
        if self.calls == 0 {
            return Err(Failed);
        }
        self.calls -= 1;
        match self.went.push(went) {
            Ok(()) => Ok(()),
            Err(_) => Err(Failed),
        }
    }
}

/// It tells the prover nothing of what goes on: the tests look.
impl Terminal for Memory {
    ghost went = { λ a b talk. Unit {0} };

    ghost is_ready = { λ t. Unit {0} };

    fn hear(&mut self) -> Result<Option<u8>, Failed> {
        match self.typed.split_first() {
            Some((byte, rest)) => {
                self.note(Went::Heard(*byte))?;
                self.typed = rest;
                Ok(Some(*byte))
            }
            None => {
                self.note(Went::Ended)?;
                Ok(None)
            }
        }
    }

    fn tell(&mut self, text: &[u8]) -> Result<(), Failed> {
        match Vec::from_slice(self.alloc, text) {
            Ok(told) => self.note(Went::Told(told)),
            Err(_) => Err(Failed),
        }
    }

    ghost nothing = { λ t. tt };

    ghost both = { λ a b c x y w v. tt };
}

/// What is typed, and behind `quit` a line that nobody hears.
const TYPED: &[u8] = b"delete 1\nstep\nquit\nnext\n";

/// The lines that are heard, each with its answer.
const TURNS: [(&str, &str); 3] = [
    ("delete 1\n", "G2 NoId\n"),
    ("step\n", "no step ahead\n"),
    ("quit\n", ""),
];

/// How many calls that takes: three prompts and three answers are told, and the lines are heard byte by byte.
const CALLS: usize = 3 + 3 + 9 + 5 + 5;

/// A conversation at a terminal of which the call of this number fails, the first being 0.
fn talked(alloc: Global, calls: usize) -> (Memory, Result<Status, Fault>) {
    let mut terminal = Memory {
        alloc,
        typed: TYPED,
        calls,
        went: Vec::new(alloc),
    };
    let mut program = Metered::new(ONE_WRITE.as_bytes());
    let ended = converse(alloc, &mut program, &mut terminal);
    (terminal, ended)
}

/// Adds that a line was heard, up to and with its line feed.
fn push_line(went: &mut Vec<Went>, line: &[u8]) -> Result<(), Fail> {
    for byte in line {
        went.push(Went::Heard(*byte))?;
    }
    Ok(())
}

/// Adds that a text was told.
fn push_told(alloc: Global, went: &mut Vec<Went>, text: &str) -> Result<(), Fail> {
    let told = Vec::from_slice(alloc, text.as_bytes())?;
    went.push(Went::Told(told))?;
    Ok(())
}

/// What is to go on: a prompt, a line, its answer, and so on.
fn whole(alloc: Global) -> Result<Vec<Went>, Fail> {
    let mut went = Vec::new(alloc);
    for (line, answer) in TURNS {
        push_told(alloc, &mut went, "px86> ")?;
        push_line(&mut went, line.as_bytes())?;
        push_told(alloc, &mut went, answer)?;
    }
    Ok(went)
}

/// Each answer is told before a byte of the next line is heard, and behind `quit` nothing is.
#[test]
fn lines_are_answered_in_turn(rt: HostRuntime) -> Result<(), Fail> {
    let alloc = rt.alloc();
    let whole = whole(alloc)?;
    let (terminal, ended) = talked(alloc, CALLS);
    assert!(rt; ended == Ok(Status::Done));
    assert!(rt; terminal.went == whole && terminal.calls == 0 && whole.len() == CALLS);
    Ok(())
}

/// Whichever call fails, what went on before is a beginning of the whole, and the fault is that of the device.
#[test]
fn each_call_fails(rt: HostRuntime) -> Result<(), Fail> {
    let alloc = rt.alloc();
    let whole = whole(alloc)?;
    for calls in 0..CALLS {
        let (terminal, ended) = talked(alloc, calls);
        let device = match whole.get(calls) {
            Some(Went::Told(_)) => Device::Write,
            _ => Device::Read,
        };
        assert!(rt; ended == Err(Fault::Device(device)));
        assert!(rt; terminal.went.len() == calls && whole.starts_with(&terminal.went));
    }
    Ok(())
}
