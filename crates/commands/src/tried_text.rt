//! The text of a step that is tried.
ghost use Rattle.std.specs.Prelude.{◌≡◌, ◌++◌, OnOk, string_bytes};
ghost use Rattle.commands.specs.TriedTexts.{instruction_behind, tried_text};

use isa::Instr;
use lines_layout::Layout;
use litmus_text::push_instruction;
use machine::{Step, View};
use schedule::push_step;
use std::alloc::AllocError;

/// Appends an instruction after its step, if there is one.
fn push_instruction_behind(
    text: &mut String,
    layout: &Layout,
    instr: Option<Instr>,
) -> Result<(), AllocError>
    ensures { OnOk result (string_bytes text.new ≡ string_bytes text.old ++ instruction_behind layout.now instr) }
{
    match instr {
        Some(instr) => {
            text.push_str(": ")?;
            push_instruction(text, layout, instr)
        }
        None => Ok(()),
    }
}

/// Appends what is tried in a state: the step, and of an `exec` the instruction at the place of its processor.
///
/// # Errors
///
/// Memory ran out. A part of the text may then be at the end.
pub fn push_tried(
    text: &mut String,
    layout: &Layout,
    view: &View<'_>,
    step: Step,
) -> Result<(), AllocError>
    ensures { OnOk result (string_bytes text.new ≡ string_bytes text.old ++ tried_text layout.now view.now step) }
{
    push_step(text, step)?;
    match step {
        Step::Exec(p) => push_instruction_behind(text, layout, view.instruction(p as usize)),
        _ => Ok(()),
    }
}
