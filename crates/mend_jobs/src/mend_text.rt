//! The text of what is put into a program.
ghost use Rattle.std.specs.Prelude.{◌≡◌, ◌++◌, IfOk, OnOk, string_bytes};
ghost use Rattle.std.specs.List.{flat_map};
ghost use Rattle.jobs.specs.CheckReports.{is_idle};
ghost use Rattle.mend_jobs.specs.declared.mend_found.MendFound.TheVariants.{Moved};
ghost use Rattle.candidates.specs.Sets.{with_all};
ghost use Rattle.mend_jobs.specs.MendTexts.{all_line, at_side, found_text, move_line, moved_text, none_moved_text, place_to, told, vain_line, whole_text, written_if, conditions_text, counts_text, ends_line, held, idle_line, idle_text, mend_text, mended_text, open_line, open_lines, other_text, placed_text, put_line, put_lines, put_text, said_text, set_text, side_text};

use crate::asked_program::AskedProgram;
use crate::mend_found::MendFound;
use crate::need_text::fault_number;
use candidates::{cost, with_all};
use commands::push_where;
use explore::{Findings, Question};
use image_reasons::{Repair, Side, Site};
use isa::Object;
use lines_layout::Layout;
use litmus_text::{TextLines, push_instruction, write_litmus};
use mends::{Mended, Open, Put};
use moves::{FirstMove, Move, moved, old_repair};
use std::alloc::{AllocError, Global};

/// On which side of an instruction it is.
fn side_text(side: Side) -> &'static str
    ensures { result.now ≡ side_text side }
{
    match side {
        Side::Before => " before ",
        Side::Behind => " behind ",
    }
}

/// An instruction that is put into a program of which a store may have been moved, by its place in the program as it is.
pub(crate) fn told(made: Option<Move>, repair: Repair) -> Repair
    ensures { result ≡ told made repair }
{
    match made {
        Some(one) => old_repair(one, repair),
        None => repair,
    }
}

/// Appends on which side of the instruction at a site it is.
fn push_side(text: &mut String, lines: &TextLines, side: Side, site: Site) -> Result<(), AllocError>
    ensures { OnOk result (string_bytes text.new ≡ string_bytes text.old ++ at_side lines.now side site) }
{
    text.push_str(side_text(side))?;
    push_where(text, lines, site)
}

/// Appends an instruction that is put in, and where.
fn push_placed(
    text: &mut String,
    layout: &Layout,
    lines: &TextLines,
    made: Option<Move>,
    repair: Repair,
) -> Result<(), AllocError>
    ensures { OnOk result (string_bytes text.new ≡ string_bytes text.old ++ placed_text layout.now lines.now made repair) }
{
    push_instruction(text, layout, repair.instr)?;
    push_side(text, lines, repair.side, told(made, repair).site)
}

/// Appends its line.
fn push_put(
    text: &mut String,
    layout: &Layout,
    lines: &TextLines,
    made: Option<Move>,
    repair: Repair,
) -> Result<(), AllocError>
    ensures { OnOk result (string_bytes text.new ≡ string_bytes text.old ++ put_line layout.now lines.now made repair) }
{
    text.push_str("put ")?;
    push_placed(text, layout, lines, made, repair)?;
    text.push('\n')
}

/// Appends a line for each instruction of a set.
fn push_puts(
    text: &mut String,
    layout: &Layout,
    lines: &TextLines,
    made: Option<Move>,
    set: &[Repair],
) -> Result<(), AllocError>
    ensures { OnOk result (string_bytes text.new ≡ string_bytes text.old ++ put_lines layout.now lines.now made set.now) }
{
    for repair in set {
        push_put(text, layout, lines, made, *repair)?;
    }
    Ok(())
}

/// Appends one more of a set, on the same line.
fn push_other(
    text: &mut String,
    layout: &Layout,
    lines: &TextLines,
    made: Option<Move>,
    repair: Repair,
) -> Result<(), AllocError>
    ensures { OnOk result (string_bytes text.new ≡ string_bytes text.old ++ other_text layout.now lines.now made repair) }
{
    text.push_str(", ")?;
    push_placed(text, layout, lines, made, repair)
}

/// Appends the others of a set, on the same line.
fn push_others(
    text: &mut String,
    layout: &Layout,
    lines: &TextLines,
    made: Option<Move>,
    others: &[Repair],
) -> Result<(), AllocError>
    ensures { OnOk result (string_bytes text.new ≡ string_bytes text.old ++ flat_map (other_text layout.now lines.now made) others.now) }
{
    for repair in others {
        push_other(text, layout, lines, made, *repair)?;
    }
    Ok(())
}

/// Appends a set on one line.
fn push_set(
    text: &mut String,
    layout: &Layout,
    lines: &TextLines,
    made: Option<Move>,
    set: &[Repair],
) -> Result<(), AllocError>
    ensures { OnOk result (string_bytes text.new ≡ string_bytes text.old ++ set_text layout.now lines.now made set.now) }
{
    let Some((first, others)) = set.split_first() else {
        return Ok(());
    };
    push_placed(text, layout, lines, made, *first)?;
    push_others(text, layout, lines, made, others)
}

/// Appends the line of a set that is not told.
fn push_open(
    text: &mut String,
    layout: &Layout,
    lines: &TextLines,
    made: Option<Move>,
    one: &Open,
) -> Result<(), AllocError>
    ensures { OnOk result (string_bytes text.new ≡ string_bytes text.old ++ open_line layout.now lines.now made one.now) }
{
    text.push_str("open ")?;
    push_set(text, layout, lines, made, &one.set)?;
    let number = fault_number(one.fault);
    writeln!(text, ": {number}")
}

/// Appends a line for each set that is not told.
fn push_opens(
    text: &mut String,
    layout: &Layout,
    lines: &TextLines,
    made: Option<Move>,
    untold: &[Open],
) -> Result<(), AllocError>
    ensures { OnOk result (string_bytes text.new ≡ string_bytes text.old ++ open_lines layout.now lines.now made untold.now) }
{
    for one in untold {
        push_open(text, layout, lines, made, one)?;
    }
    Ok(())
}

/// Whether a condition holds of so many ends of the program with what is put in: of none it says nothing.
pub(crate) fn held(ends: usize) -> &'static str
    ensures { result.now ≡ held ends }
{
    if ends == 0 {
        "asked of no state"
    } else {
        "held"
    }
}

/// Appends the line of the condition of every state, where it is asked.
fn push_all(text: &mut String, asked: bool) -> Result<(), AllocError>
    ensures { OnOk result (string_bytes text.new ≡ string_bytes text.old ++ all_line asked) }
{
    if !asked {
        return Ok(());
    }
    text.push_str("all held\n")
}

/// Appends the line of a condition of ends, of which there are so many, where it is asked.
fn push_ends(text: &mut String, name: &str, asked: bool, ends: usize) -> Result<(), AllocError>
    ensures { OnOk result (string_bytes text.new ≡ string_bytes text.old ++ ends_line name.now asked ends) }
{
    if !asked {
        return Ok(());
    }
    let held = held(ends);
    writeln!(text, "{name} {held}")
}

/// Appends the lines of the conditions that are asked.
fn push_conditions(
    text: &mut String,
    question: &Question,
    found: &Findings,
) -> Result<(), AllocError>
    ensures { OnOk result (string_bytes text.new ≡ string_bytes text.old ++ conditions_text question.now found.now) }
{
    push_all(text, question.all.is_some())?;
    push_ends(text, "ends", question.ends.is_some(), found.ends().len())?;
    let recovered = question.recovered.is_some();
    push_ends(text, "recovered", recovered, found.recovered().len())
}

/// Whether a condition is asked of no state.
fn is_idle(asked: bool, ends: usize) -> bool
    ensures { result ≡ is_idle asked ends }
{
    asked && ends == 0
}

/// Appends the line of a condition of ends, where it is asked, and there is no end.
fn push_idle(text: &mut String, name: &str, asked: bool, ends: usize) -> Result<(), AllocError>
    ensures { OnOk result (string_bytes text.new ≡ string_bytes text.old ++ idle_line name.now asked ends) }
{
    if !is_idle(asked, ends) {
        return Ok(());
    }
    let held = held(ends);
    writeln!(text, "{name} {held}")
}

/// Appends the lines of the conditions that are asked of no state.
fn push_idles(text: &mut String, question: &Question, found: &Findings) -> Result<(), AllocError>
    ensures { OnOk result (string_bytes text.new ≡ string_bytes text.old ++ idle_text question.now found.now) }
{
    push_idle(text, "ends", question.ends.is_some(), found.ends().len())?;
    let recovered = question.recovered.is_some();
    push_idle(text, "recovered", recovered, found.recovered().len())
}

/// Appends how many states were told apart, and what a set costs.
fn push_counts(text: &mut String, states: u64, set: &[Repair]) -> Result<(), AllocError>
    ensures { OnOk result (string_bytes text.new ≡ string_bytes text.old ++ counts_text states set.now) }
{
    let cost = cost(set);
    writeln!(text, "states {states}")?;
    writeln!(text, "cost {cost}")
}

/// Appends what is put in, what then holds, and which sets before it are not told.
fn push_mend(
    text: &mut String,
    asked: &AskedProgram,
    made: Option<Move>,
    put: &Put,
) -> Result<(), AllocError>
    ensures { OnOk result (string_bytes text.new ≡ string_bytes text.old ++ put_text asked.now made put.now) }
{
    let layout = asked.object.layout();
    push_puts(text, layout, &asked.lines, made, &put.set)?;
    push_conditions(text, &asked.question, &put.found)?;
    push_counts(text, put.found.states(), &put.set)?;
    push_opens(text, layout, &asked.lines, made, &put.open)
}

/// All that is said of the program as it is.
fn mend_text(alloc: Global, asked: &AskedProgram, found: &Mended) -> Result<String, AllocError>
    ensures { IfOk result (λ text. string_bytes text ≡ mend_text asked.now found.now) }
{
    let mut text = String::new(alloc);
    match found {
        Mended::NoneNeeded(found) => {
            text.push_str("mend none needed\n")?;
            push_idles(&mut text, &asked.question, found)?;
        }
        Mended::Put(put) => push_mend(&mut text, asked, None, put)?,
        Mended::None => text.push_str("mend none\n")?,
        Mended::NotKnown(untold) => {
            text.push_str("mend not known\n")?;
            push_opens(&mut text, asked.object.layout(), &asked.lines, None, untold)?;
        }
    }
    Ok(text)
}

/// Where the instruction is to which a store is moved.
pub(crate) fn place_to(one: Move) -> Site
    ensures { result ≡ place_to one }
{
    Site {
        place: one.to,
        ..one.from
    }
}

/// Appends which store is put where.
fn push_move(text: &mut String, lines: &TextLines, one: Move) -> Result<(), AllocError>
    ensures { OnOk result (string_bytes text.new ≡ string_bytes text.old ++ move_line lines.now one) }
{
    text.push_str("move ")?;
    push_where(text, lines, one.from)?;
    push_side(text, lines, one.side, place_to(one))?;
    text.push('\n')
}

/// A move, and what is put in then.
fn moved_found(alloc: Global, asked: &AskedProgram, first: &FirstMove) -> Result<String, AllocError>
    ensures { IfOk result (λ text. string_bytes text ≡ found_text asked.now (Moved first.now)) }
{
    let mut text = String::new(alloc);
    push_move(&mut text, &asked.lines, first.made)?;
    push_mend(&mut text, asked, Some(first.made), &first.put)?;
    Ok(text)
}

/// Appends how many moves were tried, of which none helps.
fn push_vain(text: &mut String, count: usize) -> Result<(), AllocError>
    ensures { OnOk result (string_bytes text.new ≡ string_bytes text.old ++ vain_line count) }
{
    writeln!(text, "moves {count}, none helps")
}

/// That no set of any size holds, and none of so many moves helps.
fn none_moved(alloc: Global, count: usize) -> Result<String, AllocError>
    ensures { IfOk result (λ text. string_bytes text ≡ none_moved_text count) }
{
    let mut text = String::new(alloc);
    text.push_str("mend none\n")?;
    push_vain(&mut text, count)?;
    Ok(text)
}

/// All that is said.
fn found_text(alloc: Global, asked: &AskedProgram, found: &MendFound) -> Result<String, AllocError>
    ensures { IfOk result (λ text. string_bytes text ≡ found_text asked.now found.now) }
{
    match found {
        MendFound::AsItIs(mended) => mend_text(alloc, asked, mended),
        MendFound::Moved(first) => moved_found(alloc, asked, first),
        MendFound::NoneMoved(count) => none_moved(alloc, *count),
    }
}

/// The program with what is put in, as a litmus text; nothing where nothing is put in.
fn mended_text(alloc: Global, asked: &AskedProgram, found: &Mended) -> Result<String, AllocError>
    ensures { IfOk result (λ text. string_bytes text ≡ mended_text asked.now found.now) }
{
    let Mended::Put(put) = found else {
        return Ok(String::new(alloc));
    };
    written_with(alloc, &asked.object, &put.set)
}

/// A program with what is put in, as a litmus text; nothing where there is none.
fn written_with(alloc: Global, object: &Object, set: &[Repair]) -> Result<String, AllocError>
    ensures { IfOk result (λ text. string_bytes text ≡ written_if (with_all set.now object.now)) }
{
    match with_all(alloc, object, set)? {
        Some(object) => write_litmus(alloc, &object),
        None => Ok(String::new(alloc)),
    }
}

/// The program with a move and with what is put in then.
fn moved_text(alloc: Global, asked: &AskedProgram, first: &FirstMove) -> Result<String, AllocError>
    ensures { IfOk result (λ text. string_bytes text ≡ moved_text asked.now first.now) }
{
    match moved(alloc, &asked.object, first.made)? {
        Some(changed) => written_with(alloc, &changed, &first.put.set),
        None => Ok(String::new(alloc)),
    }
}

/// The program that is found, and nothing where none is.
fn whole_text(alloc: Global, asked: &AskedProgram, found: &MendFound) -> Result<String, AllocError>
    ensures { IfOk result (λ text. string_bytes text ≡ whole_text asked.now found.now) }
{
    match found {
        MendFound::AsItIs(mended) => mended_text(alloc, asked, mended),
        MendFound::Moved(first) => moved_text(alloc, asked, first),
        MendFound::NoneMoved(_) => Ok(String::new(alloc)),
    }
}

/// All that is said, or the program alone, where it is asked for.
pub(crate) fn said_text(
    alloc: Global,
    as_text: bool,
    asked: &AskedProgram,
    found: &MendFound,
) -> Result<String, AllocError>
    ensures { IfOk result (λ text. string_bytes text ≡ said_text as_text asked.now found.now) }
{
    if as_text {
        whole_text(alloc, asked, found)
    } else {
        found_text(alloc, asked, found)
    }
}
