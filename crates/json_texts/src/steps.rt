//! Steps as JSON, and what they showed.
ghost use Rattle.std.specs.Prelude.{IfOk, codes};
ghost use Rattle.machine.specs.declared.step.Seen.TheVariants.{Left, Ran};
ghost use Rattle.processor.specs.declared.act.Act.TheVariants.{Delay, Locked};
ghost use Rattle.json_texts.specs.Objects.{IsJsonOf};
ghost use Rattle.json_texts.specs.StepData.{act_data, instruction_data, kind_data, number_data, seen_data, site_data, step_data, steps_data, value_data};

use crate::cpus::put_site;
use crate::entries::entry_value;
use crate::fields::{Fields, number_or_null};
use crate::source_map::SourceMap;
use commands::word_name;
use isa::Instr;
use lines_layout::{Layout, LineId, WordId};
use litmus_text::push_instruction;
use machine::{Act, Entry, Seen, Step};
use schedule::push_step;
use serde_json::{Value, json, push, put};
use std::alloc::{AllocError, Global};

/// A step, in its written form.
///
/// # Errors
///
/// Out of memory.
pub fn step_value(alloc: Global, step: Step) -> Result<Value, AllocError>
    ensures { IfOk result (IsJsonOf (step_data step)) }
{
    let mut text = String::new(alloc);
    push_step(&mut text, step)?;
    Ok(Value::from(text))
}

/// Steps, in their order.
///
/// # Errors
///
/// Out of memory.
#[tactic(auto, using(crate::proofs::Items::list_steps))]
pub fn steps_value(alloc: Global, steps: &[Step]) -> Result<Value, AllocError>
    ensures { IfOk result (IsJsonOf (steps_data steps.now)) }
{
    let mut items = Vec::new(alloc);
    for step in steps {
        push(&mut items, step_value(alloc, *step)?)?;
    }
    Ok(Value::from(items))
}

/// An instruction, in its written form.
///
/// # Errors
///
/// Out of memory.
pub fn instruction_value(alloc: Global, layout: &Layout, instr: Instr) -> Result<Value, AllocError>
    ensures { IfOk result (IsJsonOf (instruction_data layout.now instr)) }
{
    let mut text = String::new(alloc);
    push_instruction(&mut text, layout, instr)?;
    Ok(Value::from(text))
}

/// Where an instruction is, with its line, and how it is written.
///
/// # Errors
///
/// Out of memory.
pub fn site_value(
    alloc: Global,
    source: &SourceMap<'_>,
    p: usize,
    recovery: bool,
    place: usize,
    instr: Instr,
) -> Result<Value, AllocError>
    ensures { IfOk result (IsJsonOf (site_data source.now p recovery place instr)) }
{
    let mut fields = Fields::new(alloc);
    put_site(&mut fields, alloc, source.lines, p, recovery, place)?;
    let instruction = instruction_value(alloc, source.layout, instr)?;
    put(&mut fields, alloc, "instruction", instruction)?;
    Ok(Value::from(fields))
}

/// An object of which only the kind is to be said.
///
/// # Errors
///
/// Out of memory.
pub fn kind_value(alloc: Global, kind: &str) -> Result<Value, AllocError>
    ensures { IfOk result (IsJsonOf (kind_data kind.now)) }
{
    json!(in alloc; {"kind": kind})
}

/// An object of a word and its value.
fn word_value(
    alloc: Global,
    kind: &str,
    layout: &Layout,
    word: WordId,
    value: u64,
) -> Result<Value, AllocError>
    ensures { IfOk result (IsJsonOf (value_data kind.now layout.now word value)) }
{
    json!(in alloc; {"kind": kind, "word": word_name(layout, word), "value": value})
}

/// An object of one number.
///
/// # Errors
///
/// Out of memory.
pub fn number_value(alloc: Global, kind: &str, name: &str, number: u64) -> Result<Value, AllocError>
    ensures { IfOk result (IsJsonOf (number_data kind.now name.now number)) }
{
    json!(in alloc; {"kind": kind, name: number})
}

/// What is delayed.
fn delayed_value(alloc: Global, layout: &Layout, entry: Entry) -> Result<Value, AllocError>
    ensures { IfOk result (IsJsonOf (act_data layout.now (Delay entry))) }
{
    let entry = entry_value(alloc, layout, entry)?;
    json!(in alloc; {"kind": "delay", "entry": entry})
}

/// What a locked operation did.
fn locked_value(
    alloc: Global,
    layout: &Layout,
    word: WordId,
    old: u64,
    new: Option<u64>,
) -> Result<Value, AllocError>
    ensures { IfOk result (IsJsonOf (act_data layout.now (Locked word old new))) }
{
    let word = word_name(layout, word);
    let new = number_or_null(new);
    json!(in alloc; {"kind": "locked", "word": word, "old": old, "new": new})
}

/// What an instruction did.
///
/// # Errors
///
/// Out of memory.
pub fn act_value(alloc: Global, layout: &Layout, act: Act) -> Result<Value, AllocError>
    ensures { IfOk result (IsJsonOf (act_data layout.now act)) }
{
    match act {
        Act::Local => kind_value(alloc, "local"),
        Act::Fence => kind_value(alloc, "fence"),
        Act::Read(word, value) => word_value(alloc, "read", layout, word, value),
        Act::Delay(entry) => delayed_value(alloc, layout, entry),
        Act::Locked(word, old, new) => locked_value(alloc, layout, word, old, new),
        Act::Trap(address) => number_value(alloc, "trap", "address", address),
    }
}

/// What came of an Exec.
fn ran_value(
    alloc: Global,
    layout: &Layout,
    p: u32,
    place: usize,
    act: Act,
) -> Result<Value, AllocError>
    ensures { IfOk result (IsJsonOf (seen_data layout.now (Ran p place act))) }
{
    let act = act_value(alloc, layout, act)?;
    json!(in alloc; {"kind": "ran", "cpu": p, "place": place as u64, "act": act})
}

/// What left a store buffer.
fn left_value(
    alloc: Global,
    layout: &Layout,
    p: u32,
    i: u32,
    entry: Entry,
) -> Result<Value, AllocError>
    ensures { IfOk result (IsJsonOf (seen_data layout.now (Left p i entry))) }
{
    let entry = entry_value(alloc, layout, entry)?;
    json!(in alloc; {"kind": "left", "cpu": p, "place": i, "entry": entry})
}

/// The number of a cache line that was settled.
fn settled_value(alloc: Global, line: LineId) -> Result<Value, AllocError>
    ensures { IfOk result (IsJsonOf (number_data (codes "settled") (codes "cache_line") line)) }
{
    number_value(alloc, "settled", "cache_line", line.number() as u64)
}

/// What an accepted step showed.
///
/// # Errors
///
/// Out of memory.
pub fn seen_value(alloc: Global, layout: &Layout, seen: Seen) -> Result<Value, AllocError>
    ensures { IfOk result (IsJsonOf (seen_data layout.now seen)) }
{
    match seen {
        Seen::Ran(p, place, act) => ran_value(alloc, layout, p, place, act),
        Seen::Left(p, i, entry) => left_value(alloc, layout, p, i, entry),
        Seen::Persisted(word, value) => word_value(alloc, "persisted", layout, word, value),
        Seen::Settled(line) => settled_value(alloc, line),
        Seen::Crashed(n) => number_value(alloc, "crashed", "crashes", n),
    }
}
