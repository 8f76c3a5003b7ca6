//! The lines of the instructions that steps execute.
ghost use Rattle.std.specs.Prelude.{◌≡◌, IfOk, OnOk, map};
ghost use Rattle.json_texts.specs.Objects.{GetsItems, IsJsonOf};
ghost use Rattle.json_texts.specs.StepLines.{line_data, step_line, step_lines, step_lines_data};

use crate::fields::number_or_null;
use litmus_text::TextLines;
use machine::{Machine, Step, View};
use serde_json::{Value, push};
use std::alloc::{AllocError, Global};

/// The line of the instruction that a step executes, if it is an `exec`, and the instruction has a line.
pub fn step_line(lines: &TextLines, view: &View<'_>, step: Step) -> Option<u64>
    ensures { result ≡ step_line lines.now view.now step }
{
    let Step::Exec(p) = step else {
        return None;
    };
    let p = p as usize;
    lines.line_at(p, view.recovering(p)?, view.place(p)?)
}

/// Makes steps up to the first that is refused, and appends the line of each.
fn push_lines(
    items: &mut Vec<Value>,
    lines: &TextLines,
    machine: &mut Machine,
    steps: &[Step],
) -> Result<(), AllocError>
    ensures { OnOk result (GetsItems items.old.items items.new.items
        (map line_data (step_lines lines.now steps.now machine.old))) }
{
    for step in steps {
        let line = step_line(lines, &machine.view(), *step);
        push(items, number_or_null(line))?;
        if machine.step(*step).is_err() {
            return Ok(());
        }
    }
    Ok(())
}

/// The line of each step of a run from the state of a machine. What state the machine is left in is not said.
///
/// # Errors
///
/// Out of memory.
#[tactic(auto, using(crate::proofs::Items::list_steps))]
pub fn step_lines_value(
    alloc: Global,
    lines: &TextLines,
    machine: &mut Machine,
    steps: &[Step],
) -> Result<Value, AllocError>
    ensures { IfOk result (IsJsonOf (step_lines_data lines.now steps.now machine.old)) }
{
    let mut items = Vec::new(alloc);
    push_lines(&mut items, lines, machine, steps)?;
    Ok(Value::from(items))
}
