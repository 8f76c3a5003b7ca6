//! The text of what flushes and fences are needed for.
ghost use Rattle.std.specs.Prelude.{◌≡◌, ◌++◌, IfOk, OnOk, codes, string_bytes};
ghost use Rattle.std.specs.List.{flat_map};
ghost use Rattle.mend_jobs.specs.NeedTexts.{alone_line, alone_text, fault_number, fences_text, keep_line, kept, least_text, mnemonic, need_line, need_text, needs_text, site_head, stays, tried_text, weaker_text};

use crate::asked_program::AskedProgram;
use crate::fences_found::FencesFound;
use commands::push_site;
use explore::ExploreFault;
use fence_needs::{Need, SiteNeed, Weaker, WeakerSaid, no_more_can_go};
use isa::{Access, FenceKind, FlushKind, Instr};
use jobs::{push_failure, push_held};
use lines_layout::Layout;
use litmus_text::push_instruction;
use std::alloc::{AllocError, Global};

/// The number of a fault by which it is not told of all runs.
pub(crate) fn fault_number(fault: ExploreFault) -> &'static str
    ensures { result.now ≡ fault_number fault }
{
    match fault {
        ExploreFault::TooManyStates => "R1",
        ExploreFault::NoRoom => "R2",
        ExploreFault::TooMany => "I1",
        ExploreFault::NoMemory => "R3",
    }
}

/// Appends that it is not known, and why.
fn push_unknown(text: &mut String, fault: ExploreFault) -> Result<(), AllocError>
    ensures { OnOk result (string_bytes text.new ≡ string_bytes text.old ++ (codes "not known " ++ fault_number fault)) }
{
    let number = fault_number(fault);
    write!(text, "not known {number}")
}

/// Appends what is said of an instruction among the others.
fn push_need(text: &mut String, need: &Need) -> Result<(), AllocError>
    ensures { OnOk result (string_bytes text.new ≡ string_bytes text.old ++ need_text need.now) }
{
    match need {
        Need::Needed(_) => text.push_str("needed"),
        Need::LeftOut => text.push_str("not needed, left out"),
        Need::Kept(_) => text.push_str("not needed, kept"),
        Need::Untold(fault) | Need::KeptUntold(fault) => push_unknown(text, *fault),
    }
}

/// Appends what is said of one alone.
fn push_alone(text: &mut String, need: &Need) -> Result<(), AllocError>
    ensures { OnOk result (string_bytes text.new ≡ string_bytes text.old ++ alone_text need.now) }
{
    match need {
        Need::Needed(_) => text.push_str("needed"),
        Need::LeftOut | Need::Kept(_) => text.push_str("not needed"),
        Need::Untold(fault) | Need::KeptUntold(fault) => push_unknown(text, *fault),
    }
}

/// The name of a flush or a fence.
fn mnemonic(instr: Instr) -> &'static str
    ensures { result.now ≡ mnemonic instr }
{
    match instr {
        Instr::Memory(Access::Flush(FlushKind::Clflush), _) => "clflush",
        Instr::Memory(Access::Flush(FlushKind::Clflushopt), _) => "clflushopt",
        Instr::Memory(Access::Flush(FlushKind::Clwb), _) => "clwb",
        Instr::Fence(FenceKind::Mfence) => "mfence",
        Instr::Fence(FenceKind::Sfence) => "sfence",
        _ => "",
    }
}

/// Appends what is said of a weaker instruction.
fn push_tried(text: &mut String, weaker: &Weaker) -> Result<(), AllocError>
    ensures { OnOk result (string_bytes text.new ≡ string_bytes text.old ++ tried_text (mnemonic weaker.now.instr) weaker.now.said) }
{
    let name = mnemonic(weaker.instr);
    match weaker.said {
        WeakerSaid::Does => write!(text, ", {name} does"),
        WeakerSaid::DoesNot(_) => Ok(()),
        WeakerSaid::NotKnown(fault) => {
            let number = fault_number(fault);
            write!(text, ", {name} not known {number}")
        }
    }
}

/// Appends what is said of the weaker instruction in place of one, if one is tried.
fn push_weaker(text: &mut String, one: &SiteNeed) -> Result<(), AllocError>
    ensures { OnOk result (string_bytes text.new ≡ string_bytes text.old ++ weaker_text one.now.weaker) }
{
    match &one.weaker {
        Some(weaker) => push_tried(text, weaker),
        None => Ok(()),
    }
}

/// Appends what is said of an instruction among the others, and of its weaker one.
fn push_said(text: &mut String, one: &SiteNeed) -> Result<(), AllocError>
    ensures { OnOk result (string_bytes text.new ≡ string_bytes text.old ++ (need_text one.now.need ++ weaker_text one.now.weaker)) }
{
    push_need(text, &one.need)?;
    push_weaker(text, one)
}

/// Appends what is said of one alone, and of its weaker one.
fn push_said_alone(text: &mut String, one: &SiteNeed) -> Result<(), AllocError>
    ensures { OnOk result (string_bytes text.new ≡ string_bytes text.old ++ (alone_text one.now.need ++ weaker_text one.now.weaker)) }
{
    push_alone(text, &one.need)?;
    push_weaker(text, one)
}

/// Appends where an instruction is, and how it is written, up to what is said of it.
fn push_head(text: &mut String, layout: &Layout, one: &SiteNeed) -> Result<(), AllocError>
    ensures { OnOk result (string_bytes text.new ≡ string_bytes text.old ++ site_head layout.now one.now) }
{
    let site = one.site;
    push_site(text, site.processor as usize, site.recovering, site.place)?;
    text.push(' ')?;
    push_instruction(text, layout, one.instr)?;
    text.push_str(": ")
}

/// Appends the line of an instruction among the others.
fn push_need_line(text: &mut String, layout: &Layout, one: &SiteNeed) -> Result<(), AllocError>
    ensures { OnOk result (string_bytes text.new ≡ string_bytes text.old ++ need_line layout.now one.now) }
{
    push_head(text, layout, one)?;
    push_said(text, one)?;
    text.push('\n')
}

/// Appends the line of one alone.
fn push_alone_line(text: &mut String, layout: &Layout, one: &SiteNeed) -> Result<(), AllocError>
    ensures { OnOk result (string_bytes text.new ≡ string_bytes text.old ++ alone_line layout.now one.now) }
{
    push_head(text, layout, one)?;
    push_said_alone(text, one)?;
    text.push('\n')
}

/// Appends a line for each.
fn push_need_lines(text: &mut String, layout: &Layout, needs: &[SiteNeed]) -> Result<(), AllocError>
    ensures { OnOk result (string_bytes text.new ≡ string_bytes text.old ++ flat_map (need_line layout.now) needs.now) }
{
    for one in needs {
        push_need_line(text, layout, one)?;
    }
    Ok(())
}

/// Whether an instruction stays.
fn stays(need: &Need) -> bool
    ensures { result ≡ stays need.now }
{
    !matches!(need, Need::LeftOut)
}

/// How many stay.
pub(crate) fn kept(needs: &[SiteNeed]) -> usize
    ensures { result ≡ kept needs.now }
{
    needs.iter().filter(|one| stays(&one.need)).count()
}

/// That these are the least number, if it is told; otherwise that no more can go than those that are left out, if it is so.
fn least_text(least: bool, no_more: bool) -> &'static str
    ensures { result.now ≡ least_text least no_more }
{
    match (least, no_more) {
        (true, _) => ", least",
        (false, true) => ", no more can go",
        (false, false) => "",
    }
}

/// Appends how many stay, and of how many; and that these are the least number, or that no more can go.
fn push_keep(text: &mut String, needs: &[SiteNeed], least: bool) -> Result<(), AllocError>
    ensures { OnOk result (string_bytes text.new ≡ string_bytes text.old ++ keep_line needs.now least) }
{
    let least = least_text(least, no_more_can_go(needs));
    writeln!(text, "keep {} of {}{least}", kept(needs), needs.len())
}

/// Appends a line for each, and how many stay.
fn push_needs(
    text: &mut String,
    layout: &Layout,
    needs: &[SiteNeed],
    least: bool,
) -> Result<(), AllocError>
    ensures { OnOk result (string_bytes text.new ≡ string_bytes text.old ++ needs_text layout.now needs.now least) }
{
    push_need_lines(text, layout, needs)?;
    push_keep(text, needs, least)
}

/// All that is said of what is found.
pub(crate) fn fences_text(
    alloc: Global,
    asked: &AskedProgram,
    found: &FencesFound,
) -> Result<String, AllocError>
    ensures { IfOk result (λ text. string_bytes text ≡ fences_text asked.now found.now) }
{
    let mut text = String::new(alloc);
    match found {
        FencesFound::Broken(failure) => push_failure(&mut text, failure)?,
        FencesFound::Each(found, told) => {
            push_held(&mut text, &asked.question, found)?;
            push_needs(&mut text, asked.object.layout(), &told.needs, told.least)?;
        }
        FencesFound::One(_, one) => push_alone_line(&mut text, asked.object.layout(), one)?,
    }
    Ok(text)
}
