//! The text of a machine's state, and of how a run ended.
ghost use Rattle.std.specs.Prelude.{◌≡◌, ◌<◌, ◌≤◌, ◌++◌, ◌*◌, IfSome, IsTrue, OnOk, codes, length, map, slice_get, slice_index, string_bytes};
ghost use Rattle.lines_layout.specs.Lines.{has_word, line_words, max_lines};
ghost use Rattle.commands.specs.StateTexts.{below_text, counts_text, cpu_line, cpu_text, cpu_texts, entry_text, flag_text, memory_text, name_text, pending_text, placed_lines, program_text, progress_text, register_line, register_lines, run_text, site_text, state_text, trap_line, word_line, word_lines, word_texts, write_text};

use crate::number_text::push_labelled;
use isa::{REGISTERS, Reg};
use lines_layout::{LINE_WORDS, Layout, Name, WordId};
use machine::{Entry, PendingEntry, Refusal, View};
use std::alloc::AllocError;

/// Appends the text of a state. The machine was loaded from the layout, which names its words.
///
/// # Errors
///
/// Out of memory. A part of the text may then be at the end.
pub fn push_state(text: &mut String, view: &View<'_>, layout: &Layout) -> Result<(), AllocError>
    requires { view.now.shape ≡ map length layout.now }
    ensures { OnOk result (string_bytes text.new ≡ string_bytes text.old ++ state_text layout.now view.now) }
{
    push_counts(text, view)?;
    push_cpus(text, view, layout)?;
    push_memory(text, view, layout)
}

/// Appends how many turns and crashes there were.
///
/// # Errors
///
/// Out of memory. A part of the text may then be at the end.
pub fn push_counts(text: &mut String, view: &View<'_>) -> Result<(), AllocError>
    ensures { OnOk result (string_bytes text.new ≡ string_bytes text.old ++ counts_text view.now) }
{
    writeln!(text, "turns {}", view.turns())?;
    writeln!(text, "crashes {}", view.crashes())?;
    Ok(())
}

/// Appends the memory: its words, and the pending list. The machine was loaded from the layout, which names its words.
///
/// # Errors
///
/// Out of memory. A part of the text may then be at the end.
pub fn push_memory(text: &mut String, view: &View<'_>, layout: &Layout) -> Result<(), AllocError>
    requires { view.now.shape ≡ map length layout.now }
    ensures { OnOk result (string_bytes text.new ≡ string_bytes text.old ++ memory_text layout.now view.now.memory) }
{
    push_words(text, view, layout)?;
    let pending = view.pending_list(*text.allocator())?;
    push_pending(text, layout, &pending)
}

/// Appends the text of how a run ended: the state that it left, and where a step was refused, how
/// many steps were accepted before and the refusal.
///
/// # Errors
///
/// Those of [`push_state`].
pub fn push_run(
    text: &mut String,
    view: &View<'_>,
    layout: &Layout,
    accepted: usize,
    refusal: Option<Refusal>,
) -> Result<(), AllocError>
    requires { view.now.shape ≡ map length layout.now }
    ensures { OnOk result (string_bytes text.new
        ≡ string_bytes text.old ++ run_text layout.now (record { accepted = accepted; refusal = refusal; state = view.now })) }
{
    push_state(text, view, layout)?;
    if let Some(refusal) = refusal {
        writeln!(text, "refused {accepted} {refusal}")?;
    }
    Ok(())
}

/// The processors in order of number.
fn push_cpus(text: &mut String, view: &View<'_>, layout: &Layout) -> Result<(), AllocError>
    ensures { OnOk result (string_bytes text.new ≡ string_bytes text.old ++ cpu_texts layout.now 0 view.now.processors) }
{
    for p in 0..view.cpus() {
        push_cpu(text, view, layout, p)?;
    }
    Ok(())
}

/// Processor p with its registers and its store buffer.
fn push_cpu(text: &mut String, view: &View<'_>, layout: &Layout, p: usize) -> Result<(), AllocError>
    requires { p < length view.now.processors }
    ensures { OnOk result (IfSome (slice_get view.now.processors p) (λ c.
        string_bytes text.new ≡ string_bytes text.old ++ cpu_text layout.now p c)) }
{
    push_cpu_line(text, view, p)?;
    push_below_cpu(text, view, layout, p)
}

/// Appends what stands below the line of processor p: its trap, its registers and its store buffer.
///
/// # Errors
///
/// Out of memory. A part of the text may then be at the end.
pub fn push_below_cpu(
    text: &mut String,
    view: &View<'_>,
    layout: &Layout,
    p: usize,
) -> Result<(), AllocError>
    requires { p < length view.now.processors }
    ensures { OnOk result (IfSome (slice_get view.now.processors p) (λ c.
        string_bytes text.new ≡ string_bytes text.old ++ below_text layout.now c)) }
{
    push_trap(text, view, p)?;
    push_registers(text, view, p)?;
    push_buffer(text, layout, view.buffer(p).unwrap())
}

/// Appends the line of processor p.
///
/// # Errors
///
/// Out of memory. A part of the text may then be at the end.
pub fn push_cpu_line(text: &mut String, view: &View<'_>, p: usize) -> Result<(), AllocError>
    requires { p < length view.now.processors }
    ensures { OnOk result (IfSome (slice_get view.now.processors p) (λ c.
        string_bytes text.new ≡ string_bytes text.old ++ cpu_line p c)) }
{
    let recovering = view.recovering(p).unwrap();
    let place = view.place(p).unwrap();
    let trap = view.trap(p);
    let progress = progress_text(trap, view.halted(p).unwrap());
    let zero = flag_text(view.zf(p).unwrap());
    push_site(text, p, recovering, place)?;
    writeln!(text, " {progress} zf {zero}")?;
    Ok(())
}

/// One of the two programs of a processor.
fn program_text(recovering: bool) -> &'static str
    ensures { result.now ≡ program_text recovering }
{
    if recovering { "recover" } else { "main" }
}

/// Appends where an instruction is: its processor, which of the two programs, and the place in it.
///
/// # Errors
///
/// Memory was refused. A part of the text may then be at the end.
pub fn push_site(
    text: &mut String,
    p: usize,
    recovery: bool,
    place: usize,
) -> Result<(), AllocError>
    ensures { OnOk result (string_bytes text.new ≡ string_bytes text.old ++ site_text p recovery place) }
{
    let program = program_text(recovery);
    write!(text, "cpu {p} {program} {place}")
}

/// Whether it is trapped, and if not, whether its program goes on.
fn progress_text(trap: Option<u64>, halted: bool) -> &'static str
    ensures { result.now ≡ progress_text trap halted }
{
    match trap {
        Some(_) => "trapped",
        None => { if halted { "halted" } else { "ready" } }
    }
}

/// The line of a trap, if there is one.
fn push_trap_line(text: &mut String, trap: Option<u64>) -> Result<(), AllocError>
    ensures { OnOk result (string_bytes text.new ≡ string_bytes text.old ++ trap_line trap) }
{
    match trap {
        Some(address) => {
            push_labelled(text, "  trap ", address)?;
            text.push_str("\n")
        }
        None => Ok(()),
    }
}

/// The line of processor p's trap, if it is trapped.
#[tactic(auto, using(crate::proofs::OneMoreItemOfState::trap_more))]
fn push_trap(text: &mut String, view: &View<'_>, p: usize) -> Result<(), AllocError>
    requires { p < length view.now.processors }
    ensures { OnOk result (IfSome (slice_get view.now.processors p) (λ c.
        string_bytes text.new ≡ string_bytes text.old ++ trap_line c.trap)) }
{
    push_trap_line(text, view.trap(p))
}

/// A flag as a digit.
fn flag_text(set: bool) -> &'static str
    ensures { result.now ≡ flag_text set }
{
    if set { "1" } else { "0" }
}

/// The registers of processor p that are not 0.
fn push_registers(text: &mut String, view: &View<'_>, p: usize) -> Result<(), AllocError>
    requires { p < length view.now.processors }
    ensures { OnOk result (IfSome (slice_get view.now.processors p) (λ c.
        string_bytes text.new ≡ string_bytes text.old ++ register_lines c.regs)) }
{
    for r in REGISTERS {
        push_register(text, view, p, r)?;
    }
    Ok(())
}

/// One register, unless it is 0.
fn push_register(text: &mut String, view: &View<'_>, p: usize, r: Reg) -> Result<(), AllocError>
    requires { p < length view.now.processors }
    ensures { OnOk result (IfSome (slice_get view.now.processors p) (λ c.
        string_bytes text.new ≡ string_bytes text.old ++ register_line c.regs r)) }
{
    let value = view.reg(p, r).unwrap();
    if value != 0 {
        writeln!(text, "  reg {} {value}", r.name())?;
    }
    Ok(())
}

/// The entries of a store buffer, oldest first.
fn push_buffer(text: &mut String, layout: &Layout, buffer: &[Entry]) -> Result<(), AllocError>
    ensures { OnOk result (string_bytes text.new
        ≡ string_bytes text.old ++ placed_lines (codes "  buf ") (entry_text layout.now) 0 buffer.now) }
{
    for (i, entry) in buffer.iter().enumerate() {
        write!(text, "  buf {i} ")?;
        push_entry(text, layout, *entry)?;
        text.push('\n')?;
    }
    Ok(())
}

/// Appends an entry of a store buffer.
pub fn push_entry(text: &mut String, layout: &Layout, entry: Entry) -> Result<(), AllocError>
    ensures { OnOk result (string_bytes text.new ≡ string_bytes text.old ++ entry_text layout.now entry) }
{
    match entry {
        Entry::Write(word, value) => push_write(text, layout, word, value),
        Entry::Flush(line) => push_labelled(text, "FL ", line.number() as u64),
        Entry::FlushOpt(line) => push_labelled(text, "FO ", line.number() as u64),
        Entry::Sfence => text.push_str("SF"),
    }
}

/// The pending entries, oldest first.
fn push_pending(
    text: &mut String,
    layout: &Layout,
    pending: &[PendingEntry],
) -> Result<(), AllocError>
    ensures { OnOk result (string_bytes text.new
        ≡ string_bytes text.old ++ placed_lines (codes "pend ") (pending_text layout.now) 0 pending.now) }
{
    for (i, entry) in pending.iter().enumerate() {
        write!(text, "pend {i} ")?;
        push_pending_entry(text, layout, *entry)?;
        text.push('\n')?;
    }
    Ok(())
}

fn push_pending_entry(
    text: &mut String,
    layout: &Layout,
    entry: PendingEntry,
) -> Result<(), AllocError>
    ensures { OnOk result (string_bytes text.new ≡ string_bytes text.old ++ pending_text layout.now entry) }
{
    match entry {
        PendingEntry::Write(word, value) => push_write(text, layout, word, value),
        PendingEntry::Marker(line) => write!(text, "PER {}", line.number()),
    }
}

fn push_write(
    text: &mut String,
    layout: &Layout,
    word: WordId,
    value: u64,
) -> Result<(), AllocError>
    ensures { OnOk result (string_bytes text.new ≡ string_bytes text.old ++ write_text layout.now word value) }
{
    text.push_str("W ")?;
    text.push_str(word_name(layout, word))?;
    push_labelled(text, " ", value)
}

/// The name of a word, or nothing where the layout does not have it.
pub fn word_name(layout: &Layout, word: WordId) -> &str
    ensures { result.now ≡ name_text layout.now word }
{
    match layout.name(word) {
        Some(name) => name,
        None => "",
    }
}

/// The words of all cache lines, in order of number.
fn push_words(text: &mut String, view: &View<'_>, layout: &Layout) -> Result<(), AllocError>
    requires { view.now.shape ≡ map length layout.now }
    ensures { OnOk result (string_bytes text.new ≡ string_bytes text.old ++ word_texts view.now.memory 0 layout.now) }
{
    for (number, line) in layout.lines().iter().enumerate() {
        push_line_words(text, view, number, line.names())?;
    }
    Ok(())
}

/// The words of the cache line of this number, which have these names.
fn push_line_words(
    text: &mut String,
    view: &View<'_>,
    number: usize,
    names: &[Name],
) -> Result<(), AllocError>
    requires few { number < max_lines }
    requires short { length names.now ≤ line_words }
    requires named { slice_index view.now.shape number ≡ length names.now }
    ensures { OnOk result (string_bytes text.new
        ≡ string_bytes text.old ++ word_lines view.now.memory (line_words * number) names.now) }
{
    for (place, name) in names.iter().enumerate() {
        let word = WordId::new(LINE_WORDS * number + place).unwrap();
        push_word(text, view, name.as_str(), word)?;
    }
    Ok(())
}

fn push_word(text: &mut String, view: &View<'_>, name: &str, word: WordId) -> Result<(), AllocError>
    requires { IsTrue (has_word view.now.shape word) }
    ensures { OnOk result (string_bytes text.new ≡ string_bytes text.old ++ word_line view.now.memory name.now word) }
{
    let coherent = view.coherent(word).unwrap();
    let persisted = view.persisted(word).unwrap();
    writeln!(
        text,
        "word {name} coherent {coherent} persisted {persisted}"
    )
}
