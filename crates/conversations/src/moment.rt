//! The steps at which breaks halt.
ghost use Rattle.std.specs.Prelude.{◌≡◌};
ghost use Rattle.litmus_text.specs.TextLines.{line_at};
ghost use Rattle.debugger.specs.Writes.{act_writes, entry_writes, writes_word};
ghost use Rattle.conversations.specs.Breaks.{act_traps, comes_to, is_crash, is_line, is_moment, line_by, line_of, may_come, some_placed, stands_in, stands_in_one, traps};

use isa::{Instr, Program, Programs};
use lines_layout::WordId;
use litmus_text::LinedObject;
use machine::{Act, Entry, Seen, View};

/// The steps at which a break halts.
#[derive(Clone, Copy)]
pub enum Moment {
    /// A processor comes to the instruction on this line of the text.
    Line(u32),
    /// The power fails.
    Crash,
    /// A processor traps.
    Trap,
    /// The memory is handed a write of this word.
    Write(WordId),
}

/// Whether a line is this one.
fn is_line(line: u32, own: Option<u64>) -> bool
    ensures { result ≡ is_line line own }
{
    match own {
        Some(own) => own == line as u64,
        None => false,
    }
}

/// On which line of the text an instruction of processor p stands, if it is known which program it runs, and where it is.
fn line_by(
    lined: &LinedObject,
    p: usize,
    recovery: Option<bool>,
    place: Option<usize>,
) -> Option<u64>
    ensures { result ≡ line_by lined.now p recovery place }
{
    match (recovery, place) {
        (Some(recovery), Some(place)) => lined.lines.line_at(p, recovery, place),
        _ => None,
    }
}

/// On which line of the text the next instruction of processor p stands.
fn line_of(lined: &LinedObject, view: &View<'_>, p: usize) -> Option<u64>
    ensures { result ≡ line_of lined.now view.now p }
{
    line_by(lined, p, view.recovering(p), view.place(p))
}

/// Whether processor p comes to a line.
fn comes_to(lined: &LinedObject, line: u32, before: &View<'_>, after: &View<'_>, p: usize) -> bool
    ensures { result ≡ comes_to lined.now line before.now after.now p }
{
    is_line(line, line_of(lined, after, p)) && !is_line(line, line_of(lined, before, p))
}

/// Whether one of the processors that have these programs comes to a line.
fn one_comes_to(
    lined: &LinedObject,
    line: u32,
    before: &View<'_>,
    after: &View<'_>,
    processors: &[Programs],
) -> bool
    ensures { result ≡ some_placed (λ p programs. comes_to lined.now line before.now after.now p) 0 processors.now }
{
    for (p, _programs) in processors.iter().enumerate() {
        if comes_to(lined, line, before, after, p) {
            return true;
        }
    }
    false
}

/// Whether an instruction trapped.
fn act_traps(act: Act) -> bool
    ensures { result ≡ act_traps act }
{
    match act {
        Act::Trap(_) => true,
        Act::Local | Act::Fence | Act::Read(..) | Act::Delay(_) | Act::Locked(..) => false,
    }
}

/// Whether a processor trapped in a step.
fn traps(seen: Seen) -> bool
    ensures { result ≡ traps seen }
{
    match seen {
        Seen::Ran(_, _, act) => act_traps(act),
        Seen::Left(..) | Seen::Persisted(..) | Seen::Settled(_) | Seen::Crashed(_) => false,
    }
}

/// Whether a step was a crash.
fn is_crash(seen: Seen) -> bool
    ensures { result ≡ is_crash seen }
{
    match seen {
        Seen::Crashed(_) => true,
        Seen::Ran(..) | Seen::Left(..) | Seen::Persisted(..) | Seen::Settled(_) => false,
    }
}

/// Whether an entry of a store buffer is a write of the word.
fn entry_writes(word: WordId, entry: Entry) -> bool
    ensures { result ≡ entry_writes word entry }
{
    match entry {
        Entry::Write(other, _) => other == word,
        Entry::Flush(_) | Entry::FlushOpt(_) | Entry::Sfence => false,
    }
}

/// Whether an instruction wrote the word as it ran.
fn act_writes(word: WordId, act: Act) -> bool
    ensures { result ≡ act_writes word act }
{
    match act {
        Act::Locked(other, _, new) => other == word && new.is_some(),
        Act::Local | Act::Fence | Act::Read(..) | Act::Delay(_) | Act::Trap(_) => false,
    }
}

/// Whether a step handed the memory a write of the word.
fn writes_word(word: WordId, seen: Seen) -> bool
    ensures { result ≡ writes_word word seen }
{
    match seen {
        Seen::Ran(_, _, act) => act_writes(word, act),
        Seen::Left(_, _, entry) => entry_writes(word, entry),
        Seen::Persisted(..) | Seen::Settled(_) | Seen::Crashed(_) => false,
    }
}

/// Whether an instruction of a program of processor p stands on a line.
fn stands_in(lined: &LinedObject, line: u32, p: usize, recovery: bool, code: &[Instr]) -> bool
    ensures { result ≡ stands_in lined.now line p recovery code.now }
{
    for (place, _instr) in code.iter().enumerate() {
        if is_line(line, lined.lines.line_at(p, recovery, place)) {
            return true;
        }
    }
    false
}

/// Whether an instruction of one of both programs of processor p does.
fn stands_in_one(lined: &LinedObject, line: u32, p: usize, programs: &Programs) -> bool
    ensures { result ≡ stands_in_one lined.now line p programs.now }
{
    stands_in(lined, line, p, false, programs.main.instructions())
        || stands_in(lined, line, p, true, programs.recovery.instructions())
}

/// Whether an instruction of one of the processors that have these programs does.
fn stands_in_some(lined: &LinedObject, line: u32, processors: &[Programs]) -> bool
    ensures { result ≡ some_placed (stands_in_one lined.now line) 0 processors.now }
{
    for (p, programs) in processors.iter().enumerate() {
        if stands_in_one(lined, line, p, programs) {
            return true;
        }
    }
    false
}

impl Moment {
    /// Whether an accepted step is one of these: by the state before it, what it showed, and the state after it.
    pub(crate) fn is_at(
        self,
        lined: &LinedObject,
        before: &View<'_>,
        seen: &Seen,
        after: &View<'_>,
    ) -> bool
        ensures { result ≡ is_moment lined.now before.now seen.now after.now self }
    {
        match self {
            Moment::Line(line) => {
                one_comes_to(lined, line, before, after, lined.object.processors())
            }
            Moment::Crash => is_crash(*seen),
            Moment::Trap => traps(*seen),
            Moment::Write(word) => writes_word(word, *seen),
        }
    }

    /// Whether it may come at all: an instruction stands on the line that it names.
    pub(crate) fn may_come(&self, lined: &LinedObject) -> bool
        ensures { result ≡ may_come lined.now self.now }
    {
        match self {
            Moment::Line(line) => stands_in_some(lined, *line, lined.object.processors()),
            Moment::Crash | Moment::Trap | Moment::Write(_) => true,
        }
    }
}
