//! The instructions that no run executes, as JSON.
ghost use Rattle.std.specs.Prelude.{OnOk};
ghost use Rattle.json_texts.specs.Objects.{GetsItems};
ghost use Rattle.json_jobs.specs.RunReports.{never_at, never_in, never_of, never_recovering, nevers_from};

use explore::Findings;
use isa::{Instr, Program, Programs};
use jobs::has_run;
use json_texts::{SourceMap, site_value};
use serde_json::{Value, push};
use std::alloc::{AllocError, Global};

/// Where an instruction is.
#[derive(Clone, Copy)]
struct Place {
    p: usize,
    recovery: bool,
    place: usize,
}

/// Appends an instruction, unless some run executes it.
fn push_never(
    items: &mut Vec<Value>,
    source: &SourceMap<'_>,
    found: &Findings,
    at: Place,
    instr: Instr,
) -> Result<(), AllocError>
    ensures { OnOk result (GetsItems items.old.items items.new.items
        (never_at source.now found.now at.p at.recovery at.place instr)) }
{
    let Place { p, recovery, place } = at;
    let alloc = *items.allocator();
    if has_run(alloc, found, p, recovery, place)? {
        return Ok(());
    }
    push(items, site_value(alloc, source, p, recovery, place, instr)?)
}

/// Appends those of a program's instructions that no run executes.
fn push_never_in(
    items: &mut Vec<Value>,
    source: &SourceMap<'_>,
    found: &Findings,
    p: usize,
    recovery: bool,
    program: &Program,
) -> Result<(), AllocError>
    ensures { OnOk result (GetsItems items.old.items items.new.items
        (never_in source.now found.now p recovery 0 program.now)) }
{
    for (place, instr) in program.instructions().iter().enumerate() {
        let at = Place { p, recovery, place };
        push_never(items, source, found, at, *instr)?;
    }
    Ok(())
}

/// Appends those of the recovery program, where runs crash.
fn push_never_recovering(
    items: &mut Vec<Value>,
    source: &SourceMap<'_>,
    found: &Findings,
    crashes: bool,
    p: usize,
    recovery: &Program,
) -> Result<(), AllocError>
    ensures { OnOk result (GetsItems items.old.items items.new.items
        (never_recovering source.now found.now crashes p recovery.now)) }
{
    if !crashes {
        return Ok(());
    }
    push_never_in(items, source, found, p, true, recovery)
}

/// Appends those of processor `p`.
fn push_never_of(
    items: &mut Vec<Value>,
    source: &SourceMap<'_>,
    found: &Findings,
    crashes: bool,
    p: usize,
    programs: &Programs,
) -> Result<(), AllocError>
    ensures { OnOk result (GetsItems items.old.items items.new.items
        (never_of source.now found.now crashes p programs.now)) }
{
    push_never_in(items, source, found, p, false, &programs.main)?;
    push_never_recovering(items, source, found, crashes, p, &programs.recovery)
}

/// Appends each instruction of any program that no run executes; of recovery programs, where runs crash.
pub(crate) fn push_nevers(
    items: &mut Vec<Value>,
    source: &SourceMap<'_>,
    found: &Findings,
    crashes: bool,
    processors: &[Programs],
) -> Result<(), AllocError>
    ensures { OnOk result (GetsItems items.old.items items.new.items
        (nevers_from source.now found.now crashes 0 processors.now)) }
{
    for (p, programs) in processors.iter().enumerate() {
        push_never_of(items, source, found, crashes, p, programs)?;
    }
    Ok(())
}
