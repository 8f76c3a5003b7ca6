//! What a line orders by the words that a conversation has beside those of scripts.
ghost use Rattle.std.specs.Prelude.{◌≡◌, ◌≤◌, codes, drop, length};
ghost use Rattle.std.specs.List.{prefix_len};
ghost use Rattle.debug_scripts.specs.ReadRows.{said};
ghost use Rattle.conversations.specs.Asking.{break_as, delete_as, finish_as, gathered, goto_as, is_word, line_as, lone_number, lone_of, make_as, moment_as, named_by, number_in, pick_as, print_as, processor_and_register, register_as, row_as, row_by_name, run_as, run_up_to, stands_before_colon, step_as, step_of, step_on, undo_as, undone, until_as, worded_of};

use crate::asked::Order;
use crate::eager::MOST_STEPS;
use crate::help::Word;
use crate::line_fault::LineFault;
use crate::moment::Moment;
use debug_scripts::{BadRow, Command, ScriptRow, before_comment, row_on, split_piece};
use isa::Reg;
use lines_layout::{Layout, WordId};
use machine::Step;
use text_tokens::{skip_blanks, small_number};

/// The step that a command gathers, if it does.
fn gathered(command: &Command) -> Result<Step, BadRow>
    ensures { result ≡ gathered command.now }
{
    match command {
        Command::Gather(step) => Ok(*step),
        _ => Err(BadRow),
    }
}

/// The step that a row of a script is, if it is one.
fn step_of(row: &ScriptRow<'_>) -> Result<Step, BadRow>
    ensures { result ≡ step_of (said row.now) }
{
    match row {
        ScriptRow::Do(command) => gathered(command),
        _ => Err(BadRow),
    }
}

/// What comes after `step`: a step, as in a list of steps.
#[tactic(auto, unfolding(crate::specs::Asking::step_on))]
fn step_on(layout: &Layout, behind: &[u8]) -> Result<Step, BadRow>
    ensures { result ≡ step_on layout.now behind.now }
{
    let row = row_on(layout, behind)?;
    step_of(&row)
}

/// What comes after `step` orders, if something does.
#[tactic(auto, unfolding(crate::specs::Asking::make_as))]
fn make_as(layout: &Layout, behind: &[u8]) -> Result<Order, LineFault>
    ensures { result ≡ make_as layout.now behind.now }
{
    match step_on(layout, behind) {
        Ok(step) => Ok(Order::Make(step)),
        Err(BadRow) => Err(LineFault::BadLine),
    }
}

/// What `step` orders, by what comes after it.
fn step_as(layout: &Layout, behind: &[u8]) -> Result<Order, LineFault>
    ensures { result ≡ step_as layout.now behind.now }
{
    if skip_blanks(behind).is_empty() {
        Ok(Order::Walk)
    } else {
        make_as(layout, behind)
    }
}

/// The number that a piece is, with nothing behind it but blanks.
#[tactic(auto, unfolding(crate::specs::Asking::number_in))]
fn number_in(piece: &[u8], behind: &[u8]) -> Result<u32, LineFault>
    ensures { result ≡ number_in (piece.now, behind.now) }
{
    if !skip_blanks(behind).is_empty() {
        return Err(LineFault::BadLine);
    }
    small_number(piece).ok_or(LineFault::BadLine)
}

/// A number, with nothing behind it but blanks.
fn lone_number(text: &[u8]) -> Result<u32, LineFault>
    ensures { result ≡ lone_number text.now }
{
    let (number, behind) = split_piece(text);
    number_in(number, behind)
}

/// How many steps `undo` takes back, by what comes after it.
fn undone(behind: &[u8]) -> Result<u32, LineFault>
    ensures { result ≡ undone behind.now }
{
    if skip_blanks(behind).is_empty() {
        Ok(1)
    } else {
        lone_number(behind)
    }
}

/// What comes after `undo` orders.
#[tactic(auto, unfolding(crate::specs::Asking::undo_as))]
fn undo_as(behind: &[u8]) -> Result<Order, LineFault>
    ensures { result ≡ undo_as behind.now }
{
    let count = undone(behind)?;
    Ok(Order::Undo(count))
}

/// What comes after `goto` orders.
#[tactic(auto, unfolding(crate::specs::Asking::goto_as))]
fn goto_as(behind: &[u8]) -> Result<Order, LineFault>
    ensures { result ≡ goto_as behind.now }
{
    let kept = lone_number(behind)?;
    Ok(Order::Goto(kept))
}

/// How many steps `run` makes at most, by what comes after it.
fn run_up_to(behind: &[u8]) -> Result<u32, LineFault>
    ensures { result ≡ run_up_to behind.now }
{
    if skip_blanks(behind).is_empty() {
        Ok(MOST_STEPS)
    } else {
        lone_number(behind)
    }
}

/// What comes after `run` orders.
#[tactic(auto, unfolding(crate::specs::Asking::run_as))]
fn run_as(behind: &[u8]) -> Result<Order, LineFault>
    ensures { result ≡ run_as behind.now }
{
    let count = run_up_to(behind)?;
    Ok(Order::Run(count))
}

/// What comes after `until` orders.
#[tactic(auto, unfolding(crate::specs::Asking::until_as))]
fn until_as(behind: &[u8]) -> Result<Order, LineFault>
    ensures { result ≡ until_as behind.now }
{
    let (number, others) = split_piece(behind);
    let processor = small_number(number).ok_or(LineFault::BadLine)?;
    let place = lone_number(others)?;
    Ok(Order::Until(processor, place))
}

/// What comes after `finish` orders.
#[tactic(auto, unfolding(crate::specs::Asking::finish_as))]
fn finish_as(behind: &[u8]) -> Result<Order, LineFault>
    ensures { result ≡ finish_as behind.now }
{
    let processor = lone_number(behind)?;
    Ok(Order::Finish(processor))
}

/// What comes after `delete` orders.
#[tactic(auto, unfolding(crate::specs::Asking::delete_as))]
fn delete_as(behind: &[u8]) -> Result<Order, LineFault>
    ensures { result ≡ delete_as behind.now }
{
    let id = lone_number(behind)?;
    Ok(Order::Delete(id))
}

/// The row of the word that is written so.
#[tactic(auto, unfolding(crate::specs::Asking::row_by_name))]
fn row_by_name(name: &[u8]) -> Result<Order, LineFault>
    ensures { result ≡ row_by_name name.now }
{
    let word = Word::named(name).ok_or(LineFault::BadLine)?;
    Ok(Order::Row(word))
}

/// What comes after `help` orders.
#[tactic(auto, unfolding(crate::specs::Asking::row_as))]
fn row_as(behind: &[u8]) -> Result<Order, LineFault>
    ensures { result ≡ row_as behind.now }
{
    let (name, others) = split_piece(behind);
    if !skip_blanks(others).is_empty() {
        return Err(LineFault::BadLine);
    }
    row_by_name(name)
}

fn number_len(token: &[u8]) -> usize
    ensures value { result ≡ prefix_len stands_before_colon token.now }
    ensures within { result ≤ length token.now }
{
    token.iter().take_while(|b| **b != b':').count()
}

/// What is behind the first byte of a text, if it has one.
fn past_first(text: &[u8]) -> &[u8]
    ensures { result.now ≡ drop 1 text.now }
{
    if text.is_empty() {
        return text;
    }
    let (_, behind) = text.split_at(1);
    behind
}

/// P:REG: what is before the first colon, and what is behind it.
#[tactic(auto, unfolding(crate::specs::Asking::processor_and_register))]
fn split_register(token: &[u8]) -> (&[u8], &[u8])
    ensures { (result.0.now, result.1.now) ≡ processor_and_register token.now }
{
    let (number, behind) = token.split_at(number_len(token));
    (number, past_first(behind))
}

/// P:REG: a register of a processor.
#[tactic(auto, unfolding(crate::specs::Asking::register_as))]
fn register_as(token: &[u8]) -> Result<Order, LineFault>
    ensures { result ≡ register_as token.now }
{
    let (number, name) = split_register(token);
    let processor = small_number(number).ok_or(LineFault::BadLine)?;
    let register = Reg::named(name).ok_or(LineFault::BadLine)?;
    Ok(Order::Register(processor, register))
}

/// What has this name: this word, if there is one, or otherwise a register of a processor.
fn named_by(word: Option<WordId>, token: &[u8]) -> Result<Order, LineFault>
    ensures { result ≡ named_by word token.now }
{
    match word {
        Some(word) => Ok(Order::Word(word)),
        None => register_as(token),
    }
}

/// What comes after `print` orders.
#[tactic(auto, unfolding(crate::specs::Asking::print_as))]
fn print_as(layout: &Layout, behind: &[u8]) -> Result<Order, LineFault>
    ensures { result ≡ print_as layout.now behind.now }
{
    let (token, others) = split_piece(behind);
    if !skip_blanks(others).is_empty() {
        return Err(LineFault::BadLine);
    }
    named_by(layout.word(token), token)
}

/// What a line orders that is a number alone.
#[tactic(auto, unfolding(crate::specs::Asking::pick_as))]
fn pick_as(piece: &[u8], behind: &[u8]) -> Result<Order, LineFault>
    ensures { result ≡ pick_as (piece.now, behind.now) }
{
    let number = number_in(piece, behind)?;
    Ok(Order::Pick(number))
}

/// Whether a line is this word alone.
pub(crate) fn is_word(line: &[u8], word: &[u8]) -> bool
    ensures { result ≡ is_word line.now word.now }
{
    let (first, behind) = split_piece(before_comment(line));
    first == word && skip_blanks(behind).is_empty()
}

/// Whether a line says that the conversation is over.
pub(crate) fn is_quit(line: &[u8]) -> bool
    ensures { result ≡ is_word line.now (codes "quit") }
{
    is_word(line, b"quit")
}

/// Where a break halts on a line, by what comes after `line`.
#[tactic(auto, unfolding(crate::specs::Asking::line_as))]
fn line_as(behind: &[u8]) -> Result<Moment, LineFault>
    ensures { result ≡ line_as behind.now }
{
    let line = lone_number(behind)?;
    Ok(Moment::Line(line))
}

/// Where a break halts, by what comes after its id.
fn moment_as(text: &[u8]) -> Result<Moment, LineFault>
    ensures { result ≡ moment_as text.now }
{
    if is_word(text, b"crash") {
        return Ok(Moment::Crash);
    }
    if is_word(text, b"trap") {
        return Ok(Moment::Trap);
    }
    let (word, behind) = split_piece(text);
    if word == b"line".as_slice() {
        line_as(behind)
    } else {
        Err(LineFault::BadLine)
    }
}

/// What comes after `break` orders.
#[tactic(auto, unfolding(crate::specs::Asking::break_as))]
fn break_as(behind: &[u8]) -> Result<Order, LineFault>
    ensures { result ≡ break_as behind.now }
{
    let (number, others) = split_piece(behind);
    let id = small_number(number).ok_or(LineFault::BadLine)?;
    let moment = moment_as(others)?;
    Ok(Order::Break(id, moment))
}

/// What a line orders that is one word alone, if it is such a word.
pub(crate) fn lone_in(line: &[u8]) -> Option<Order>
    ensures { result ≡ lone_of line.now }
{
    if is_quit(line) {
        Some(Order::Quit)
    } else if is_word(line, b"help") {
        Some(Order::Help)
    } else if is_word(line, b"notes") {
        Some(Order::Notes)
    } else if is_word(line, b"next") {
        Some(Order::Next)
    } else if is_word(line, b"info") {
        Some(Order::Info)
    } else if is_word(line, b"history") {
        Some(Order::History)
    } else if is_word(line, b"reverse") {
        Some(Order::Reverse)
    } else if is_word(line, b"list") {
        Some(Order::List)
    } else if is_word(line, b"ahead") {
        Some(Order::Ahead)
    } else if is_word(line, b"changed") {
        Some(Order::Changed)
    } else {
        None
    }
}

/// What a line orders whose first piece is a word that has more behind it, or a number.
pub(crate) fn worded_in(layout: &Layout, first: &[u8], behind: &[u8]) -> Result<Order, LineFault>
    ensures { result ≡ worded_of layout.now (first.now, behind.now) }
{
    if first == b"step".as_slice() {
        step_as(layout, behind)
    } else if first == b"run".as_slice() {
        run_as(behind)
    } else if first == b"until".as_slice() {
        until_as(behind)
    } else if first == b"finish".as_slice() {
        finish_as(behind)
    } else if first == b"undo".as_slice() {
        undo_as(behind)
    } else if first == b"goto".as_slice() {
        goto_as(behind)
    } else if first == b"print".as_slice() {
        print_as(layout, behind)
    } else if first == b"delete".as_slice() {
        delete_as(behind)
    } else if first == b"break".as_slice() {
        break_as(behind)
    } else if first == b"help".as_slice() {
        row_as(behind)
    } else {
        pick_as(first, behind)
    }
}
