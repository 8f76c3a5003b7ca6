//! Processors as JSON.
ghost use Rattle.std.specs.Prelude.{◌≡◌, ◌<◌, IfOk, IfSome, OnOk, length, slice_get};
ghost use Rattle.commands.specs.StateTexts.{program_text, progress_text};
ghost use Rattle.json_texts.specs.Objects.{list, GetsFields, IsJsonOf};
ghost use Rattle.json_texts.specs.StateData.{cpu_data, cpu_fields, cpus_from, flag_number, register_fields, registers_data, site_fields};

use crate::entries::buffer_value;
use crate::fields::{Fields, number_or_null, put_number, put_text};
use crate::source_map::SourceMap;
use image_reasons::Origins;
use isa::{REGISTERS, Reg};
use litmus_text::TextLines;
use machine::View;
use serde_json::{Value, push, put};
use std::alloc::{AllocError, Global};

/// One of the two programs of a processor.
fn program_text(recovering: bool) -> &'static str
    ensures { result.now ≡ program_text recovering }
{
    if recovering { "recover" } else { "main" }
}

/// Whether a processor is trapped, and if not, whether its program goes on.
fn progress_text(trap: Option<u64>, halted: bool) -> &'static str
    ensures { result.now ≡ progress_text trap halted }
{
    match trap {
        Some(_) => "trapped",
        None => { if halted { "halted" } else { "ready" } }
    }
}

/// Puts where an instruction is into an object: its processor, which of the two programs, the place in it, and its line.
///
/// # Errors
///
/// Out of memory.
pub fn put_site(
    fields: &mut Fields,
    alloc: Global,
    lines: &TextLines,
    p: usize,
    recovery: bool,
    place: usize,
) -> Result<(), AllocError>
    ensures { OnOk result (GetsFields fields.old.entries fields.new.entries
        (site_fields lines.now p recovery place)) }
{
    put_number(fields, alloc, "cpu", p as u64)?;
    put_text(fields, alloc, "program", program_text(recovery))?;
    put_number(fields, alloc, "place", place as u64)?;
    let line = number_or_null(lines.line_at(p, recovery, place));
    put(fields, alloc, "line", line)
}

/// A flag as a number.
fn flag_number(set: bool) -> u64
    ensures { result ≡ flag_number set }
{
    if set { 1 } else { 0 }
}

/// Puts into an object what processor p does next.
fn put_progress(
    fields: &mut Fields,
    alloc: Global,
    lines: &TextLines,
    view: &View<'_>,
    p: usize,
) -> Result<(), AllocError>
    requires { p < length view.now.processors }
    ensures { OnOk result (IfSome (slice_get view.now.processors p) (λ c.
        GetsFields fields.old.entries fields.new.entries (cpu_fields lines.now p c))) }
{
    let recovering = view.recovering(p).unwrap();
    let place = view.place(p).unwrap();
    let trap = view.trap(p);
    let progress = progress_text(trap, view.halted(p).unwrap());
    let zero = flag_number(view.zf(p).unwrap());
    put_site(fields, alloc, lines, p, recovering, place)?;
    put_text(fields, alloc, "progress", progress)?;
    put(fields, alloc, "trap", number_or_null(trap))?;
    put_number(fields, alloc, "zf", zero)?;
    Ok(())
}

/// Puts a register of processor p into an object, unless it is 0.
fn put_register(
    fields: &mut Fields,
    alloc: Global,
    view: &View<'_>,
    p: usize,
    r: Reg,
) -> Result<(), AllocError>
    requires { p < length view.now.processors }
    ensures { OnOk result (IfSome (slice_get view.now.processors p) (λ c.
        GetsFields fields.old.entries fields.new.entries (register_fields c.regs r))) }
{
    let value = view.reg(p, r).unwrap();
    if value != 0 {
        put_number(fields, alloc, r.name(), value)?;
    }
    Ok(())
}

/// The registers of processor p that are not 0.
fn registers_value(alloc: Global, view: &View<'_>, p: usize) -> Result<Value, AllocError>
    requires { p < length view.now.processors }
    ensures { IfOk result (λ made. IfSome (slice_get view.now.processors p) (λ c.
        IsJsonOf (registers_data c.regs) made)) }
{
    let mut fields = Fields::new(alloc);
    for r in REGISTERS {
        put_register(&mut fields, alloc, view, p, r)?;
    }
    Ok(Value::from(fields))
}

/// Processor p with its registers and its store buffer.
fn cpu_value(
    alloc: Global,
    view: &View<'_>,
    source: &SourceMap<'_>,
    origins: &Origins,
    p: usize,
) -> Result<Value, AllocError>
    requires { p < length view.now.processors }
    ensures { IfOk result (λ made. IfSome (slice_get view.now.processors p) (λ c.
        IsJsonOf (cpu_data source.now origins.now p c) made)) }
{
    let mut fields = Fields::new(alloc);
    put_progress(&mut fields, alloc, source.lines, view, p)?;
    let registers = registers_value(alloc, view, p)?;
    put(&mut fields, alloc, "registers", registers)?;
    let buffer = buffer_value(alloc, source, origins, p, view.buffer(p).unwrap())?;
    put(&mut fields, alloc, "buffer", buffer)?;
    Ok(Value::from(fields))
}

/// The processors in order of number.
#[tactic(auto, using(crate::proofs::Items::list_steps))]
pub(crate) fn cpus_value(
    alloc: Global,
    view: &View<'_>,
    source: &SourceMap<'_>,
    origins: &Origins,
) -> Result<Value, AllocError>
    ensures { IfOk result (IsJsonOf (list (cpus_from source.now origins.now 0 view.now.processors))) }
{
    let mut items = Vec::new(alloc);
    for p in 0..view.cpus() {
        push(&mut items, cpu_value(alloc, view, source, origins, p)?)?;
    }
    Ok(Value::from(items))
}
