//! The program that each processor runs, and where it is in it.
ghost use Rattle.std.specs.Prelude.{◌≡◌, ◌++◌, OnOk, string_bytes};
ghost use Rattle.conversations.specs.Listed.{behind_line, end_text, instruction_line, list_text, listed_at, mark_text, one_of, placed_texts, processor_text, program_text};

use commands::push_site;
use isa::{Instr, Program, Programs};
use litmus_text::{LinedObject, push_instruction};
use machine::View;
use std::alloc::AllocError;

/// What is before a place: a mark, where the processor is there.
fn mark_text(is_here: bool) -> &'static str
    ensures { result.now ≡ mark_text is_here }
{
    if is_here { "> " } else { "  " }
}

/// Appends on which line of its text an instruction stands, if it stands on one.
fn push_line(text: &mut String, line: Option<u64>) -> Result<(), AllocError>
    ensures { OnOk result (string_bytes text.new ≡ string_bytes text.old ++ behind_line line) }
{
    match line {
        Some(number) => write!(text, " line {number}"),
        None => Ok(()),
    }
}

/// Appends the line of an instruction at a place of a program of processor `p`, which is at the place `at`.
fn push_listed(
    text: &mut String,
    lined: &LinedObject,
    p: usize,
    recovery: bool,
    at: usize,
    place: usize,
    instr: Instr,
) -> Result<(), AllocError>
    ensures { OnOk result (string_bytes text.new
        ≡ string_bytes text.old ++ instruction_line lined.now p recovery at place instr) }
{
    text.push_str(mark_text(place == at))?;
    write!(text, "{place}")?;
    push_line(text, lined.lines.line_at(p, recovery, place))?;
    text.push_str(": ")?;
    push_instruction(text, lined.object.layout(), instr)?;
    text.push('\n')
}

/// Appends the line of each instruction of such a program.
fn push_instructions(
    text: &mut String,
    lined: &LinedObject,
    p: usize,
    recovery: bool,
    at: usize,
    code: &[Instr],
) -> Result<(), AllocError>
    ensures { OnOk result (string_bytes text.new
        ≡ string_bytes text.old ++ placed_texts (instruction_line lined.now p recovery at) 0 code.now) }
{
    for (place, instr) in code.iter().enumerate() {
        push_listed(text, lined, p, recovery, at, place, *instr)?;
    }
    Ok(())
}

/// Appends the end of a program of so many instructions, where the processor is there.
fn push_end(text: &mut String, at: usize, count: usize) -> Result<(), AllocError>
    ensures { OnOk result (string_bytes text.new ≡ string_bytes text.old ++ end_text at count) }
{
    if count == at {
        writeln!(text, "> {count}: end")
    } else {
        Ok(())
    }
}

/// Appends where processor `p` is, and the program that it runs.
fn push_program(
    text: &mut String,
    lined: &LinedObject,
    p: usize,
    recovery: bool,
    at: usize,
    program: &Program,
) -> Result<(), AllocError>
    ensures { OnOk result (string_bytes text.new ≡ string_bytes text.old ++ program_text lined.now p recovery at program.now) }
{
    push_site(text, p, recovery, at)?;
    text.push('\n')?;
    push_instructions(text, lined, p, recovery, at, program.instructions())?;
    push_end(text, at, program.len())
}

/// One of two programs.
fn one_of(recovery: bool, programs: &Programs) -> &Program
    ensures { result.now ≡ one_of recovery programs.now }
{
    if recovery {
        &programs.recovery
    } else {
        &programs.main
    }
}

/// Appends the same of a processor with these programs, if it is known which of them it runs, and where it is.
fn push_known(
    text: &mut String,
    lined: &LinedObject,
    p: usize,
    programs: &Programs,
    recovery: Option<bool>,
    at: Option<usize>,
) -> Result<(), AllocError>
    ensures { OnOk result (string_bytes text.new
        ≡ string_bytes text.old ++ processor_text lined.now p programs.now recovery at) }
{
    match (recovery, at) {
        (Some(recovery), Some(at)) => {
            push_program(text, lined, p, recovery, at, one_of(recovery, programs))
        }
        _ => Ok(()),
    }
}

/// Appends the same of processor `p` of a state.
fn push_processor(
    text: &mut String,
    lined: &LinedObject,
    view: &View<'_>,
    p: usize,
    programs: &Programs,
) -> Result<(), AllocError>
    ensures { OnOk result (string_bytes text.new ≡ string_bytes text.old ++ listed_at lined.now view.now p programs.now) }
{
    push_known(text, lined, p, programs, view.recovering(p), view.place(p))
}

/// Appends the same of the processors that have these programs, in order.
fn push_processors(
    text: &mut String,
    lined: &LinedObject,
    view: &View<'_>,
    processors: &[Programs],
) -> Result<(), AllocError>
    ensures { OnOk result (string_bytes text.new
        ≡ string_bytes text.old ++ placed_texts (listed_at lined.now view.now) 0 processors.now) }
{
    for (p, programs) in processors.iter().enumerate() {
        push_processor(text, lined, view, p, programs)?;
    }
    Ok(())
}

/// Appends the program that each processor runs, and where it is in it.
pub(crate) fn push_list(
    text: &mut String,
    lined: &LinedObject,
    view: &View<'_>,
) -> Result<(), AllocError>
    ensures { OnOk result (string_bytes text.new ≡ string_bytes text.old ++ list_text lined.now view.now) }
{
    push_processors(text, lined, view, lined.object.processors())
}
