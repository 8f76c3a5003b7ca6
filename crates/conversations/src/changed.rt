//! What the last step changed.
ghost use Rattle.std.specs.Prelude.{◌≡◌, ◌<◌, ◌-◌, ◌++◌, IfOk, IfSome, OnOk, bytes_eq, length, map, slice_get, string_bytes, take};
ghost use Rattle.std.specs.List.{list_any};
ghost use Rattle.text_tokens.specs.Text.{lines_of};
ghost use Rattle.commands.specs.StateTexts.{below_text, counts_text, cpu_text, memory_text};
ghost use Rattle.conversations.specs.Changed.{changed_cpu, changed_cpus, changed_since, changed_text, has_new, is_new, line_if_new, new_lines, text_of_cpu};
ghost use Rattle.conversations.specs.Checking.{reached};

use crate::declaration::push_bytes;
use commands::{machine_after, push_below_cpu, push_counts, push_cpu_line, push_memory};
use lines_layout::Layout;
use litmus_text::LinedObject;
use machine::{Step, View};
use std::alloc::{AllocError, Global};
use text_tokens::Lines;

/// Whether a text does not have this line.
fn is_new(text: &[u8], line: &[u8]) -> bool
    ensures { result ≡ is_new text.now line.now }
{
    for own in Lines::new(text) {
        if line == own {
            return false;
        }
    }
    true
}

/// Whether the one text has a line that the other does not have.
fn has_new(old: &[u8], new: &[u8]) -> bool
    ensures { result ≡ has_new old.now new.now }
{
    for line in Lines::new(new) {
        if is_new(old, line) {
            return true;
        }
    }
    false
}

/// Appends a line, if a text does not have it.
fn push_if_new(text: &mut String, old: &[u8], line: &[u8]) -> Result<(), AllocError>
    ensures { OnOk result (string_bytes text.new ≡ string_bytes text.old ++ line_if_new old.now line.now) }
{
    if is_new(old, line) {
        push_bytes(text, line)?;
        text.push('\n')?;
    }
    Ok(())
}

/// Appends the lines of the one text that the other does not have.
fn push_new_lines(text: &mut String, old: &[u8], new: &[u8]) -> Result<(), AllocError>
    ensures { OnOk result (string_bytes text.new ≡ string_bytes text.old ++ new_lines old.now new.now) }
{
    for line in Lines::new(new) {
        push_if_new(text, old, line)?;
    }
    Ok(())
}

/// What stands below the line of processor p.
fn below_cpu(
    alloc: Global,
    layout: &Layout,
    view: &View<'_>,
    p: usize,
) -> Result<String, AllocError>
    requires { p < length view.now.processors }
    ensures { IfOk result (λ text. IfSome (slice_get view.now.processors p) (λ c. string_bytes text ≡ below_text layout.now c)) }
{
    let mut text = String::new(alloc);
    push_below_cpu(&mut text, view, layout, p)?;
    Ok(text)
}

/// The text of processor p.
fn text_of(alloc: Global, layout: &Layout, view: &View<'_>, p: usize) -> Result<String, AllocError>
    requires { p < length view.now.processors }
    ensures { IfOk result (λ text. IfSome (slice_get view.now.processors p) (λ c. string_bytes text ≡ cpu_text layout.now p c)) }
{
    let mut text = String::new(alloc);
    push_cpu_line(&mut text, view, p)?;
    push_below_cpu(&mut text, view, layout, p)?;
    Ok(text)
}

/// The text of processor p, or nothing where there is none.
fn text_of_cpu(
    alloc: Global,
    layout: &Layout,
    view: &View<'_>,
    p: usize,
) -> Result<String, AllocError>
    ensures { IfOk result (λ text. string_bytes text ≡ text_of_cpu layout.now p (slice_get view.now.processors p)) }
{
    if p < view.cpus() {
        text_of(alloc, layout, view, p)
    } else {
        Ok(String::new(alloc))
    }
}

/// Appends what changed of processor p, which had this text.
fn push_changed_cpu(
    text: &mut String,
    layout: &Layout,
    old: &[u8],
    view: &View<'_>,
    p: usize,
) -> Result<(), AllocError>
    requires { p < length view.now.processors }
    ensures { OnOk result (IfSome (slice_get view.now.processors p) (λ c.
        string_bytes text.new ≡ string_bytes text.old ++ changed_cpu layout.now old.now p c)) }
{
    let alloc = *text.allocator();
    let new = text_of(alloc, layout, view, p)?;
    if !has_new(old, new.as_bytes()) {
        return Ok(());
    }
    push_cpu_line(text, view, p)?;
    let below = below_cpu(alloc, layout, view, p)?;
    push_new_lines(text, old, below.as_bytes())
}

/// Appends what changed of each processor since a state.
fn push_changed_cpus(
    text: &mut String,
    layout: &Layout,
    old: &View<'_>,
    view: &View<'_>,
) -> Result<(), AllocError>
    ensures { OnOk result (string_bytes text.new
        ≡ string_bytes text.old ++ changed_cpus layout.now old.now.processors 0 view.now.processors) }
{
    for p in 0..view.cpus() {
        let had = text_of_cpu(*text.allocator(), layout, old, p)?;
        push_changed_cpu(text, layout, had.as_bytes(), view, p)?;
    }
    Ok(())
}

/// The text of a state's counts.
fn counts_of(alloc: Global, view: &View<'_>) -> Result<String, AllocError>
    ensures { IfOk result (λ text. string_bytes text ≡ counts_text view.now) }
{
    let mut text = String::new(alloc);
    push_counts(&mut text, view)?;
    Ok(text)
}

/// The text of a state's memory.
fn memory_of(alloc: Global, layout: &Layout, view: &View<'_>) -> Result<String, AllocError>
    requires { view.now.shape ≡ map length layout.now }
    ensures { IfOk result (λ text. string_bytes text ≡ memory_text layout.now view.now.memory) }
{
    let mut text = String::new(alloc);
    push_memory(&mut text, view, layout)?;
    Ok(text)
}

/// Appends what changed since a state.
fn push_since(
    text: &mut String,
    layout: &Layout,
    old: &View<'_>,
    view: &View<'_>,
) -> Result<(), AllocError>
    requires before { old.now.shape ≡ map length layout.now }
    requires behind { view.now.shape ≡ map length layout.now }
    ensures { OnOk result (string_bytes text.new ≡ string_bytes text.old ++ changed_since layout.now old.now view.now) }
{
    let alloc = *text.allocator();
    let counts = counts_of(alloc, old)?;
    push_new_lines(text, counts.as_bytes(), counts_of(alloc, view)?.as_bytes())?;
    push_changed_cpus(text, layout, old, view)?;
    let memory = memory_of(alloc, layout, old)?;
    push_new_lines(
        text,
        memory.as_bytes(),
        memory_of(alloc, layout, view)?.as_bytes(),
    )
}

/// All of these steps but the last.
fn all_but_last(steps: &[Step]) -> &[Step]
    requires { 0 < length steps.now }
    ensures { result.now ≡ take (length steps.now - 1) steps.now }
{
    &steps[..steps.len() - 1]
}

/// Appends what changed since the state to which these steps lead.
fn push_since_steps(
    text: &mut String,
    lined: &LinedObject,
    steps: &[Step],
    view: &View<'_>,
) -> Result<(), AllocError>
    requires { view.now.shape ≡ map length lined.now.object.layout }
    ensures { OnOk result (string_bytes text.new
        ≡ string_bytes text.old ++ changed_since lined.now.object.layout (reached lined.now steps.now) view.now) }
{
    match machine_after(*text.allocator(), &lined.object, steps) {
        Ok(machine) => {
            let done = push_since(text, lined.object.layout(), &machine.view(), view);
            drop(machine);
            done
        }
        Err(_) => Err(AllocError),
    }
}

/// Appends what the last of these steps, which led to the state, changed.
pub(crate) fn push_changed(
    text: &mut String,
    lined: &LinedObject,
    steps: &[Step],
    view: &View<'_>,
) -> Result<(), AllocError>
    requires { view.now.shape ≡ map length lined.now.object.layout }
    ensures { OnOk result (string_bytes text.new ≡ string_bytes text.old ++ changed_text lined.now steps.now view.now) }
{
    if steps.is_empty() {
        return Ok(());
    }
    push_since_steps(text, lined, all_but_last(steps), view)
}
