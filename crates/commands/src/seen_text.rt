//! The text of what a step showed.
ghost use Rattle.std.specs.Prelude.{◌≡◌, ◌++◌, OnOk, string_bytes};
ghost use Rattle.commands.specs.SeenTexts.{act_text, new_text, seen_text};

use crate::number_text::{push_labelled, push_number};
use crate::state_text::{push_entry, word_name};
use lines_layout::Layout;
use machine::{Act, Seen};
use std::alloc::AllocError;

/// Appends the value that a locked operation wrote, or `-`.
fn push_new(text: &mut String, new: Option<u64>) -> Result<(), AllocError>
    ensures { OnOk result (string_bytes text.new ≡ string_bytes text.old ++ new_text new) }
{
    match new {
        Some(value) => push_number(text, value),
        None => text.push_str("-"),
    }
}

/// Appends what an instruction did.
///
/// # Errors
///
/// Memory ran out. A part of the text may then be at the end.
pub fn push_act(text: &mut String, layout: &Layout, act: Act) -> Result<(), AllocError>
    ensures { OnOk result (string_bytes text.new ≡ string_bytes text.old ++ act_text layout.now act) }
{
    match act {
        Act::Local => text.push_str("local"),
        Act::Fence => text.push_str("fence"),
        Act::Read(word, value) => {
            text.push_str("read ")?;
            text.push_str(word_name(layout, word))?;
            push_labelled(text, " ", value)
        }
        Act::Delay(entry) => {
            text.push_str("delay ")?;
            push_entry(text, layout, entry)
        }
        Act::Locked(word, old, new) => {
            text.push_str("locked ")?;
            text.push_str(word_name(layout, word))?;
            push_labelled(text, " ", old)?;
            text.push_str(" ")?;
            push_new(text, new)
        }
        Act::Trap(address) => push_labelled(text, "trap ", address),
    }
}

/// Appends what an accepted step showed.
///
/// # Errors
///
/// Memory ran out. A part of the text may then be at the end.
pub fn push_seen(text: &mut String, layout: &Layout, seen: Seen) -> Result<(), AllocError>
    ensures { OnOk result (string_bytes text.new ≡ string_bytes text.old ++ seen_text layout.now seen) }
{
    match seen {
        Seen::Ran(p, place, act) => {
            push_labelled(text, "ran ", p as u64)?;
            push_labelled(text, " ", place as u64)?;
            text.push_str(" ")?;
            push_act(text, layout, act)
        }
        Seen::Left(p, i, entry) => {
            push_labelled(text, "left ", p as u64)?;
            push_labelled(text, " ", i as u64)?;
            text.push_str(" ")?;
            push_entry(text, layout, entry)
        }
        Seen::Persisted(word, value) => {
            text.push_str("persisted ")?;
            text.push_str(word_name(layout, word))?;
            push_labelled(text, " ", value)
        }
        Seen::Settled(line) => push_labelled(text, "settled ", line.number() as u64),
        Seen::Crashed(n) => push_labelled(text, "crashed ", n),
    }
}
