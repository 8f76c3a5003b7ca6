//! The text of the instructions that no run executes.
ghost use Rattle.std.specs.Prelude.{◌≡◌, ◌++◌, IfOk, OnOk, string_bytes};
ghost use Rattle.jobs.specs.CheckReports.{has_run, never_in, never_line, never_of, never_recovering, never_texts};

use commands::push_site;
use explore::Findings;
use isa::{Instr, Program, Programs};
use lines_layout::Layout;
use litmus_text::push_instruction;
use std::alloc::{AllocError, Global};

/// Whether some run executes the instruction at a place of a program of processor `p`.
///
/// # Errors
///
/// Out of memory.
pub fn has_run(
    alloc: Global,
    found: &Findings,
    p: usize,
    recovery: bool,
    place: usize,
) -> Result<bool, AllocError>
    ensures { IfOk result (λ ran. ran ≡ has_run found.now p recovery place) }
{
    found.has_run(alloc, p, recovery, place)
}

/// Appends the line of an instruction that no run executes.
fn push_never_line(
    text: &mut String,
    layout: &Layout,
    p: usize,
    recovery: bool,
    place: usize,
    instr: Instr,
) -> Result<(), AllocError>
    ensures { OnOk result (string_bytes text.new ≡ string_bytes text.old ++ never_line layout.now p recovery place instr) }
{
    text.push_str("never ran ")?;
    push_site(text, p, recovery, place)?;
    text.push(' ')?;
    push_instruction(text, layout, instr)?;
    text.push('\n')
}

/// Appends the lines of a program's instructions that no run executes.
fn push_never_in(
    text: &mut String,
    layout: &Layout,
    found: &Findings,
    p: usize,
    recovery: bool,
    program: &Program,
) -> Result<(), AllocError>
    ensures { OnOk result (string_bytes text.new ≡ string_bytes text.old ++ never_in layout.now found.now p recovery 0 program.now) }
{
    for (place, instr) in program.instructions().iter().enumerate() {
        if !has_run(*text.allocator(), found, p, recovery, place)? {
            push_never_line(text, layout, p, recovery, place, *instr)?;
        }
    }
    Ok(())
}

/// Appends those of the recovery program, where runs crash.
fn push_never_recovering(
    text: &mut String,
    layout: &Layout,
    found: &Findings,
    crashes: bool,
    p: usize,
    recovery: &Program,
) -> Result<(), AllocError>
    ensures { OnOk result (string_bytes text.new ≡ string_bytes text.old ++ never_recovering layout.now found.now crashes p recovery.now) }
{
    if !crashes {
        return Ok(());
    }
    push_never_in(text, layout, found, p, true, recovery)
}

/// Appends those of processor `p`.
fn push_never_of(
    text: &mut String,
    layout: &Layout,
    found: &Findings,
    crashes: bool,
    p: usize,
    programs: &Programs,
) -> Result<(), AllocError>
    ensures { OnOk result (string_bytes text.new ≡ string_bytes text.old ++ never_of layout.now found.now crashes p programs.now) }
{
    push_never_in(text, layout, found, p, false, &programs.main)?;
    push_never_recovering(text, layout, found, crashes, p, &programs.recovery)
}

/// Appends a line for each instruction of any program that no run executes; of recovery programs, where runs crash.
pub(crate) fn push_nevers(
    text: &mut String,
    layout: &Layout,
    found: &Findings,
    crashes: bool,
    processors: &[Programs],
) -> Result<(), AllocError>
    ensures { OnOk result (string_bytes text.new ≡ string_bytes text.old ++ never_texts layout.now found.now crashes 0 processors.now) }
{
    for (p, programs) in processors.iter().enumerate() {
        push_never_of(text, layout, found, crashes, p, programs)?;
    }
    Ok(())
}
