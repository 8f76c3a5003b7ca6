//! Why a step was refused, in the words of the program: who held what, and what is missing.
ghost use Rattle.std.specs.Prelude.{◌≡◌, option_map, position};
ghost use Rattle.persist_buffer.specs.Memories.{oldest_marker, oldest_write};
ghost use Rattle.isa.specs.Operands.{operand_of};
ghost use Rattle.explanations.specs.Refusals.{address_at, entry_at, is_delayed_write_on, line_meant_of, line_wanted_of};

use crate::names::{push_entry, push_flush, push_line, push_write};
use crate::parts::Pushed;
use commands::refusal_sentence;
use isa::{Instr, MemoryOperand, Object};
use lines_layout::{Layout, LineId, WordId};
use litmus_text::push_instruction;
use machine::{Entry, PendingEntry, Refusal, Step, View};

/// The entry at place `i` of the store buffer of processor `p`.
fn entry_at(view: &View, p: usize, i: usize) -> Option<Entry>
    ensures { result ≡ entry_at view.now p i }
{
    let buffer = view.buffer(p)?;
    buffer.get(i).copied()
}

/// The oldest marker of a pending list: its place and its line.
fn oldest_marker(pending: &[PendingEntry]) -> Option<(usize, LineId)>
    ensures { option_map (λ found. record { place = found.0; line = found.1 }) result ≡ oldest_marker pending.now }
{
    for (place, entry) in pending.iter().enumerate() {
        if let PendingEntry::Marker(line) = entry {
            return Some((place, *line));
        }
    }
    None
}

/// The oldest write of a cache line in a pending list: its place, its word and its value.
fn oldest_write(pending: &[PendingEntry], line: usize) -> Option<(usize, WordId, u64)>
    ensures { option_map (λ found. record { place = found.0; word = found.1; value = found.2 }) result ≡ oldest_write line pending.now }
{
    for (place, entry) in pending.iter().enumerate() {
        if let PendingEntry::Write(word, value) = entry {
            if word.line().number() == line {
                return Some((place, *word, *value));
            }
        }
    }
    None
}

/// Whether an entry of a store buffer is a write of a cache line.
fn is_write_on(line: usize, entry: &Entry) -> bool
    ensures { result ≡ is_delayed_write_on line entry.now }
{
    match entry {
        Entry::Write(word, _) => word.line().number() == line,
        _ => false,
    }
}

/// The place of the oldest write of a cache line in a store buffer.
fn delayed_write(buffer: &[Entry], line: usize) -> Option<usize>
    ensures { result ≡ position (is_delayed_write_on line) buffer.now }
{
    buffer.iter().position(|entry| is_write_on(line, entry))
}

/// What an instruction names in memory, if it does.
fn operand_of(instr: &Instr) -> Option<MemoryOperand>
    ensures { result ≡ operand_of instr.now }
{
    match instr {
        Instr::Memory(_, operand) => Some(*operand),
        _ => None,
    }
}

/// The address that an operand means on processor `p`.
fn address_at(view: &View, p: usize, operand: MemoryOperand) -> Option<u64>
    ensures { result ≡ address_at view.now p operand }
{
    match operand {
        MemoryOperand::Word(word) => Some(word.address()),
        MemoryOperand::Register(r) => view.reg(p, r),
    }
}

/// The cache line of the word that the instruction at the place of processor `p` means.
fn line_meant(view: &View, p: usize) -> Option<LineId>
    ensures { result ≡ line_meant_of view.now p }
{
    let Some(instr) = view.instruction(p) else {
        return None;
    };
    let operand = operand_of(&instr)?;
    let address = address_at(view, p, operand)?;
    let word = view.shape().word_at(address)?;
    Some(word.line())
}

/// The cache line for whose write a step asks room.
fn line_wanted(view: &View, step: Step) -> Option<LineId>
    ensures { result ≡ line_wanted_of view.now step }
{
    match step {
        Step::Exec(p) => line_meant(view, p as usize),
        Step::Drain(p, i) => match entry_at(view, p as usize, i as usize)? {
            Entry::Write(word, _) => Some(word.line()),
            _ => None,
        },
        _ => None,
    }
}

/// M2 and M10: there is none of this number.
fn push_none(text: &mut String, what: &str, number: u32, count: usize) -> Pushed {
    write!(
        text,
        "{what} {number}: the program has {count}, and they count from 0."
    )
}

/// Whether processor `p` has a recovery program.
fn recovers(object: &Object, p: usize) -> bool {
    let programs = object.processors().get(p);
    programs.is_some_and(|programs| !programs.recovery.is_empty())
}

/// How a processor ended that is not trapped, and what a crash does: whether it starts a recovery program is `recovers`.
fn ended(recovering: bool, place: usize, recovers: bool) -> &'static str {
    match (recovering, place) {
        (true, 0) => " has no recovery program, and runs nothing after a crash.",
        (true, _) =>
            " has ended its recovery program: its store buffer can drain, and a crash starts it again.",
        (false, _) if recovers =>
            " has ended its main program: its store buffer can drain, and a crash starts its recovery program.",
        (false, _) =>
            " has ended its main program: its store buffer can drain, and after a crash it runs nothing.",
    }
}

/// M3.
fn push_halted(text: &mut String, object: &Object, view: &View, p: usize) -> Pushed {
    write!(text, "M3: processor {p}")?;
    match view.trap(p) {
        Some(address) => write!(
            text,
            " is trapped at the address {address}, which is no word's: only a crash starts it again."
        ),
        None => {
            let recovering = view.recovering(p).unwrap_or(false);
            let place = view.place(p).unwrap_or(0);
            text.push_str(ended(recovering, place, recovers(object, p)))
        }
    }
}

/// Appends how many entries are in a store buffer, and which is the oldest.
fn push_entries(text: &mut String, layout: &Layout, buffer: &[Entry]) -> Pushed {
    match buffer {
        [] => text.push_str("it is empty."),
        [only] => {
            push_entry(text, layout, *only)?;
            text.push_str(" is there.")
        }
        [oldest, ..] => {
            let count = buffer.len();
            write!(text, "{count} entries are there, and the oldest is ")?;
            push_entry(text, layout, *oldest)?;
            text.push_str(".")
        }
    }
}

/// The store buffer of processor `p`, oldest entry first.
fn buffer_of<'a>(view: &View<'a>, p: usize) -> &'a [Entry] {
    view.buffer(p).unwrap_or(&[])
}

/// M4.
fn push_not_empty(text: &mut String, layout: &Layout, view: &View, p: usize) -> Pushed {
    text.push_str("M4: `")?;
    if let Some(instr) = view.instruction(p) {
        push_instruction(text, layout, instr)?;
    }
    write!(
        text,
        "` waits until the store buffer of processor {p} is empty: "
    )?;
    push_entries(text, layout, buffer_of(view, p))
}

/// M5.
fn push_full(text: &mut String, layout: &Layout, view: &View, p: usize) -> Pushed {
    write!(text, "M5: the store buffer of processor {p} is full: ")?;
    push_entries(text, layout, buffer_of(view, p))?;
    text.push_str(" Drain one first.")
}

/// M6.
fn push_no_entry(text: &mut String, view: &View, p: usize, i: u32) -> Pushed {
    write!(
        text,
        "M6: the store buffer of processor {p} has no entry at place {i}: it "
    )?;
    match buffer_of(view, p).len() {
        0 => text.push_str("is empty."),
        1 => text.push_str("has one, at place 0."),
        count => write!(text, "has {count}, at the places 0 to {}.", count - 1),
    }
}

/// Appends the entry at place `i` of the store buffer of processor `p`.
fn push_entry_at(text: &mut String, layout: &Layout, view: &View, p: usize, i: usize) -> Pushed {
    match entry_at(view, p, i) {
        Some(entry) => push_entry(text, layout, entry),
        None => text.push_str("the entry"),
    }
}

/// M7.
fn push_held(
    text: &mut String,
    layout: &Layout,
    view: &View,
    p: usize,
    i: usize,
    holder: usize,
) -> Pushed {
    text.push_str("M7: ")?;
    push_entry_at(text, layout, view, p, i)?;
    text.push_str(" may not leave before ")?;
    push_entry_at(text, layout, view, p, holder)?;
    write!(text, " at place {holder} of the store buffer.")
}

/// M8.
fn push_line_full(text: &mut String, layout: &Layout, line: Option<LineId>) -> Pushed {
    let Some(line) = line else {
        return text.push_str(refusal_sentence(Refusal::LineFull));
    };
    let line = line.number();
    text.push_str("M8: 256 writes of ")?;
    push_line(text, layout, line)?;
    write!(
        text,
        " are pending, and there is no room for more: `persist {line}` comes first."
    )
}

/// Appends where the oldest write of a cache line is in the store buffer of processor `p`, if one is there.
fn push_delayed(text: &mut String, layout: &Layout, view: &View, p: usize, line: usize) -> Pushed {
    let Some(i) = delayed_write(buffer_of(view, p), line) else {
        return Ok(());
    };
    text.push_str(" But ")?;
    push_entry_at(text, layout, view, p, i)?;
    write!(
        text,
        " is at place {i} of the store buffer of processor {p}."
    )
}

/// M11.
fn push_no_pending(text: &mut String, layout: &Layout, view: &View, line: usize) -> Pushed {
    text.push_str("M11: no write of ")?;
    push_line(text, layout, line)?;
    text.push_str(" is pending.")?;
    for p in 0..view.cpus() {
        push_delayed(text, layout, view, p, line)?;
    }
    Ok(())
}

/// M12.
fn push_behind_marker(
    text: &mut String,
    layout: &Layout,
    pending: &[PendingEntry],
    line: usize,
) -> Pushed {
    let found = (oldest_write(pending, line), oldest_marker(pending));
    let (Some((_, word, _)), Some((place, flushed))) = found else {
        return text.push_str(refusal_sentence(Refusal::BehindMarker));
    };
    text.push_str("M12: ")?;
    push_write(text, layout, word)?;
    text.push_str(" may not persist before ")?;
    push_flush(text, layout, flushed)?;
    write!(
        text,
        ", which is at place {place} of the pending list, is gone: `settle` comes first."
    )
}

/// M14.
fn push_marker_waits(text: &mut String, layout: &Layout, pending: &[PendingEntry]) -> Pushed {
    let sentence = refusal_sentence(Refusal::MarkerWaits);
    let Some((_, flushed)) = oldest_marker(pending) else {
        return text.push_str(sentence);
    };
    let line = flushed.number();
    let Some((place, word, _)) = oldest_write(pending, line) else {
        return text.push_str(sentence);
    };
    text.push_str("M14: ")?;
    push_flush(text, layout, flushed)?;
    text.push_str(" may not go before ")?;
    push_write(text, layout, word)?;
    write!(
        text,
        ", which is at place {place} of the pending list, persists: `persist {line}` comes first."
    )
}

/// Appends why a step on the pending list was refused.
fn push_pending_reason(
    text: &mut String,
    layout: &Layout,
    view: &View,
    step: Step,
    refusal: Refusal,
) -> Pushed {
    let pending = view.pending_list(*text.allocator())?;
    match (refusal, step) {
        (Refusal::BehindMarker, Step::Persist(line)) => {
            push_behind_marker(text, layout, &pending, line as usize)
        }
        (Refusal::MarkerWaits, _) => push_marker_waits(text, layout, &pending),
        _ => text.push_str(refusal_sentence(refusal)),
    }
}

/// Appends why a step was refused in this state of the machine of a program.
pub(crate) fn push_reason(
    text: &mut String,
    object: &Object,
    view: &View,
    step: Step,
    refusal: Refusal,
) -> Pushed {
    let layout = object.layout();
    match (refusal, step) {
        (Refusal::NoCpu, Step::Exec(p) | Step::Drain(p, _)) => {
            push_none(text, "M2: there is no processor", p, view.cpus())
        }
        (Refusal::Halted, Step::Exec(p)) => push_halted(text, object, view, p as usize),
        (Refusal::BufferNotEmpty, Step::Exec(p)) => push_not_empty(text, layout, view, p as usize),
        (Refusal::BufferFull, Step::Exec(p)) => push_full(text, layout, view, p as usize),
        (Refusal::NoEntry, Step::Drain(p, i)) => push_no_entry(text, view, p as usize, i),
        (Refusal::Held(holder), Step::Drain(p, i)) => {
            push_held(text, layout, view, p as usize, i as usize, holder)
        }
        (Refusal::LineFull, _) => push_line_full(text, layout, line_wanted(view, step)),
        (Refusal::NoLine, Step::Persist(line)) => {
            push_none(text, "M10: there is no line", line, layout.lines().len())
        }
        (Refusal::NoPending, Step::Persist(line)) => {
            push_no_pending(text, layout, view, line as usize)
        }
        _ => push_pending_reason(text, layout, view, step, refusal),
    }
}
