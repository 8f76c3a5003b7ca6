//! What is printed of a state: a word, a register, and the steps that may come next.
ghost use Rattle.std.specs.Prelude.{◌≡◌, ◌++◌, [], OnOk, string_bytes};
ghost use Rattle.schedule.specs.Written.{steps_text};
ghost use Rattle.machine.specs.Programs.{AreSiblings};
ghost use Rattle.commands.specs.StateTexts.{placed_lines};
ghost use Rattle.conversations.specs.Printed.{next_text, register_text, tried_in, valued_text, word_text};

use commands::{push_number, word_name};
use isa::Reg;
use jobs::{next_steps, push_next};
use lines_layout::{Layout, WordId};
use machine::{Machine, Refusal, Step, View};
use schedule::write_steps;
use std::alloc::{AllocError, Global};

/// Appends the values of a word.
pub(crate) fn push_word(
    text: &mut String,
    layout: &Layout,
    view: &View<'_>,
    word: WordId,
) -> Result<(), AllocError>
    ensures { OnOk result (string_bytes text.new ≡ string_bytes text.old ++ word_text layout.now view.now word) }
{
    if !view.shape().has_word(word) {
        return Ok(());
    }
    let name = word_name(layout, word);
    let coherent = view.coherent(word).unwrap();
    let persisted = view.persisted(word).unwrap();
    writeln!(
        text,
        "word {name} coherent {coherent} persisted {persisted}"
    )
}

/// Appends the value of a register, or that its processor is not there.
fn push_value(text: &mut String, p: u32, r: Reg, value: Option<u64>) -> Result<(), AllocError>
    ensures { OnOk result (string_bytes text.new ≡ string_bytes text.old ++ valued_text p r value) }
{
    match value {
        Some(value) => writeln!(text, "{p}:{}={value}", r.name()),
        None => writeln!(text, "{}", Refusal::NoCpu),
    }
}

/// Appends the value of a register of processor p.
pub(crate) fn push_register(
    text: &mut String,
    view: &View<'_>,
    p: u32,
    r: Reg,
) -> Result<(), AllocError>
    ensures { OnOk result (string_bytes text.new ≡ string_bytes text.old ++ register_text view.now p r) }
{
    push_value(text, p, r, view.reg(p as usize, r))
}

/// Tries steps in the state of a machine, on another machine, and appends the line of each behind its number, from 0.
fn push_numbered(
    text: &mut String,
    layout: &Layout,
    machine: &Machine,
    spare: &mut Machine,
    steps: &[Step],
) -> Result<(), AllocError>
    requires { AreSiblings spare.old machine.now }
    ensures { OnOk result (string_bytes text.new
        ≡ string_bytes text.old ++ placed_lines [] (tried_in layout.now machine.now) 0 steps.now) }
{
    for (i, step) in steps.iter().enumerate() {
        push_number(text, i as u64)?;
        text.push_str(" ")?;
        push_next(text, layout, machine, spare, *step)?;
    }
    Ok(())
}

/// Appends the steps that the machine accepts, each behind its number, and what it would show.
pub(crate) fn push_next_steps(
    alloc: Global,
    text: &mut String,
    layout: &Layout,
    machine: &Machine,
) -> Result<(), AllocError>
    ensures { OnOk result (string_bytes text.new ≡ string_bytes text.old ++ next_text layout.now machine.now) }
{
    let steps = next_steps(alloc, machine, false)?;
    let mut spare = machine.copy(alloc)?;
    let pushed = push_numbered(text, layout, machine, &mut spare, &steps);
    drop(spare);
    pushed
}

/// Appends steps, one a line.
pub(crate) fn push_steps(alloc: Global, text: &mut String, steps: &[Step]) -> Result<(), AllocError>
    ensures { OnOk result (string_bytes text.new ≡ string_bytes text.old ++ steps_text steps.now) }
{
    let lines = write_steps(alloc, steps)?;
    text.push_str(&lines)
}
