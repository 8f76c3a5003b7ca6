//! What a line of a conversation asks.
ghost use Rattle.std.specs.Prelude.{◌≡◌};
ghost use Rattle.outcomes.specs.Calls.{Answers};
ghost use Rattle.outcomes.specs.Faults.{fault_in};
ghost use Rattle.text_tokens.specs.Cursors.{unread};
ghost use Rattle.debug_scripts.specs.ReadRows.{said};
ghost use Rattle.conversations.specs.Asking.{all_as, asked_as, asked_of, asked_of_runs, as_asked, broken_as, check_as, crash_as, halting_as, halting_if, image_as, imaged_of, own_asked, own_of, set_as, stop_as, values_as, why_as};

use crate::help::Word;
use crate::line_fault::LineFault;
use crate::moment::Moment;
use crate::own_words::{is_word, lone_in, worded_in};
use commands::Fault;
use debug_scripts::{
    BadRow, Command, ScriptRow, ValuesOrder, WatchOrder, before_comment, given_in, row_on,
    split_piece,
};
use images::{Cond, Image, read_cond};
use isa::Reg;
use jobs::values_in;
use lines_layout::{Layout, WordId};
use machine::Step;
use outcomes::OrNoMemory;
use std::alloc::Global;
use text_tokens::{Tokens, small_number};

/// What a line asks.
#[derive(Drop)]
pub enum Asked {
    /// A stop of this id, at this condition.
    Stop(u32, Cond),
    /// A watch of a word, and whether it halts steps.
    Watch(WatchOrder, bool),
    /// Whether a condition holds for all that crashes may leave in all runs from here.
    Check(Cond),
    /// Something that a session does without a box that is made for it.
    Order(Order),
}

/// What a session does without a box that is made for it.
#[derive(Drop)]
pub enum Order {
    /// Nothing.
    Nothing,
    /// What a command of a script does.
    Script(Command),
    /// One step is made, by itself.
    Make(Step),
    /// The first of the steps ahead is made, by itself.
    Walk,
    /// The first step that may come is made, again and again, at most so many times.
    Run(u32),
    /// The first step that may come is made, again and again, up to where the processor of this number is at this place.
    Until(u32, u32),
    /// The processor of this number runs, again and again.
    Finish(u32),
    /// The last steps are taken back, so many, and their notes.
    Undo(u32),
    /// All steps but the first so many are taken back, and their notes.
    Goto(u32),
    /// Steps are taken back, and their notes, up to the last state behind in which the condition of a stop holds.
    Reverse,
    /// The steps ahead.
    Ahead,
    /// The program that each processor runs, and where it is.
    List,
    /// The steps that may come next.
    Next,
    /// The step of this number among those is made, by itself.
    Pick(u32),
    /// The values of a word.
    Word(WordId),
    /// The value of a register of the processor of this number.
    Register(u32, Reg),
    /// Whether a condition holds for all that a crash may leave.
    All(Cond),
    /// The images for which a condition does not hold.
    Broken(Cond),
    /// Which pending entries leave an image.
    Set(Image),
    /// Which writes are missing in an image, and why each may be.
    Why(Image),
    /// What leaves an image persists, and then there is a crash, unless a stop or a break comes before.
    CrashTo(Image),
    /// The lines that declared stops, watches and breaks.
    Info,
    /// The stop of this id is taken out, the watch of it, and the break of it.
    Delete(u32),
    /// A break of this id, which halts there.
    Break(u32, Moment),
    /// What the last step changed.
    Changed,
    /// The notes of each watch.
    Notes,
    /// The steps that were made.
    History,
    /// What may be said.
    Help,
    /// The row of this word.
    Row(Word),
    /// The conversation is over.
    Quit,
}

/// A stop of this id, where the text is a condition.
#[tactic(auto, unfolding(crate::specs::Asking::stop_as))]
fn stop_as(
    alloc: Global,
    layout: &Layout,
    id: u32,
    text: &[u8],
) -> Result<Asked, OrNoMemory<LineFault>>
    ensures { Answers fault_in (stop_as layout.now id text.now) result }
{
    match read_cond(alloc, layout, text) {
        Ok(cond) => Ok(Asked::Stop(id, cond)),
        Err(OrNoMemory::Fault(fault)) => Err(OrNoMemory::Fault(LineFault::Condition(fault))),
        Err(OrNoMemory::NoMemory) => Err(OrNoMemory::NoMemory),
    }
}

/// The values of a word, where the tokens say what is given.
#[tactic(auto, unfolding(crate::specs::Asking::values_as))]
fn values_as(
    alloc: Global,
    layout: &Layout,
    word: WordId,
    tokens: Tokens<'_>,
) -> Result<Asked, OrNoMemory<LineFault>>
    ensures { Answers fault_in (values_as layout.now word (unread tokens.entry)) result }
{
    match given_in(alloc, layout, tokens) {
        Ok(given) => Ok(Asked::Order(Order::Script(Command::Values(ValuesOrder { word, given })))),
        Err(OrNoMemory::Fault(BadRow)) => Err(OrNoMemory::Fault(LineFault::BadLine)),
        Err(OrNoMemory::NoMemory) => Err(OrNoMemory::NoMemory),
    }
}

/// What a row of a script asks.
fn asked_as(
    alloc: Global,
    layout: &Layout,
    row: ScriptRow<'_>,
) -> Result<Asked, OrNoMemory<LineFault>>
    ensures { Answers fault_in (asked_as layout.now (said row.entry)) result }
{
    match row {
        ScriptRow::Blank => Ok(Asked::Order(Order::Nothing)),
        ScriptRow::Stop(id, text) => stop_as(alloc, layout, id, text),
        ScriptRow::Watch(id, word) => Ok(Asked::Watch(WatchOrder { id, word }, false)),
        ScriptRow::Ask(word, tokens) => values_as(alloc, layout, word, tokens),
        ScriptRow::Do(command) => Ok(Asked::Order(Order::Script(command))),
    }
}

/// What comes after `all` orders.
#[tactic(auto, unfolding(crate::specs::Asking::all_as))]
fn all_as(alloc: Global, layout: &Layout, text: &[u8]) -> Result<Order, OrNoMemory<LineFault>>
    ensures { Answers fault_in (all_as layout.now text.now) result }
{
    match read_cond(alloc, layout, text) {
        Ok(cond) => Ok(Order::All(cond)),
        Err(OrNoMemory::Fault(fault)) => Err(OrNoMemory::Fault(LineFault::Condition(fault))),
        Err(OrNoMemory::NoMemory) => Err(OrNoMemory::NoMemory),
    }
}

/// What comes after `images` orders, if anything does.
#[tactic(auto, unfolding(crate::specs::Asking::broken_as))]
fn broken_as(alloc: Global, layout: &Layout, text: &[u8]) -> Result<Order, OrNoMemory<LineFault>>
    ensures { Answers fault_in (broken_as layout.now text.now) result }
{
    match read_cond(alloc, layout, text) {
        Ok(cond) => Ok(Order::Broken(cond)),
        Err(OrNoMemory::Fault(fault)) => Err(OrNoMemory::Fault(LineFault::Condition(fault))),
        Err(OrNoMemory::NoMemory) => Err(OrNoMemory::NoMemory),
    }
}

/// The values of an image: one for each word, in order, and nothing else.
#[tactic(auto, unfolding(crate::specs::Asking::image_as, commands::specs::Works::Makes))]
fn image_as(alloc: Global, layout: &Layout, text: &[u8]) -> Result<Image, OrNoMemory<LineFault>>
    ensures { Answers fault_in (image_as layout.now text.now) result }
{
    match values_in(alloc, layout, text) {
        Ok(image) => Ok(image),
        Err(Fault::Refused(_)) => Err(OrNoMemory::Fault(LineFault::BadLine)),
        Err(_) => Err(OrNoMemory::NoMemory),
    }
}

/// What comes after `set` orders.
#[tactic(auto, unfolding(crate::specs::Asking::set_as))]
fn set_as(alloc: Global, layout: &Layout, text: &[u8]) -> Result<Order, OrNoMemory<LineFault>>
    ensures { Answers fault_in (set_as layout.now text.now) result }
{
    match image_as(alloc, layout, text) {
        Ok(image) => Ok(Order::Set(image)),
        Err(error) => Err(error),
    }
}

/// What comes after `why` orders.
#[tactic(auto, unfolding(crate::specs::Asking::why_as))]
fn why_as(alloc: Global, layout: &Layout, text: &[u8]) -> Result<Order, OrNoMemory<LineFault>>
    ensures { Answers fault_in (why_as layout.now text.now) result }
{
    match image_as(alloc, layout, text) {
        Ok(image) => Ok(Order::Why(image)),
        Err(error) => Err(error),
    }
}

/// What comes after `crash` orders, if anything does.
#[tactic(auto, unfolding(crate::specs::Asking::crash_as))]
fn crash_as(alloc: Global, layout: &Layout, text: &[u8]) -> Result<Order, OrNoMemory<LineFault>>
    ensures { Answers fault_in (crash_as layout.now text.now) result }
{
    match image_as(alloc, layout, text) {
        Ok(image) => Ok(Order::CrashTo(image)),
        Err(error) => Err(error),
    }
}

/// What a line orders whose first piece is a word that has a condition or values behind it, or another word.
fn imaged_in(
    alloc: Global,
    layout: &Layout,
    first: &[u8],
    behind: &[u8],
) -> Result<Order, OrNoMemory<LineFault>>
    ensures { Answers fault_in (imaged_of layout.now (first.now, behind.now)) result }
{
    if first == b"all".as_slice() {
        return all_as(alloc, layout, behind);
    }
    if first == b"images".as_slice() {
        return broken_as(alloc, layout, behind);
    }
    if first == b"set".as_slice() {
        return set_as(alloc, layout, behind);
    }
    if first == b"why".as_slice() {
        return why_as(alloc, layout, behind);
    }
    if first == b"crash".as_slice() {
        return crash_as(alloc, layout, behind);
    }
    match worded_in(layout, first, behind) {
        Ok(order) => Ok(order),
        Err(fault) => Err(OrNoMemory::Fault(fault)),
    }
}

/// What a line orders by the words that are none of a script.
fn own_in(alloc: Global, layout: &Layout, line: &[u8]) -> Result<Order, OrNoMemory<LineFault>>
    ensures { Answers fault_in (own_of layout.now line.now) result }
{
    match lone_in(line) {
        Some(order) => Ok(order),
        None => {
            let (first, behind) = split_piece(before_comment(line));
            imaged_in(alloc, layout, first, behind)
        }
    }
}

/// What is asked of all runs, by what comes after `check`.
fn asked_of_runs(text: &[u8]) -> &[u8]
    ensures { result.now ≡ asked_of_runs text.now }
{
    let (first, behind) = split_piece(text);
    if first == b"--all".as_slice() {
        behind
    } else {
        text
    }
}

/// What comes after `check` asks.
#[tactic(auto, unfolding(crate::specs::Asking::check_as))]
fn check_as(alloc: Global, layout: &Layout, text: &[u8]) -> Result<Asked, OrNoMemory<LineFault>>
    ensures { Answers fault_in (check_as layout.now text.now) result }
{
    match read_cond(alloc, layout, asked_of_runs(text)) {
        Ok(cond) => Ok(Asked::Check(cond)),
        Err(OrNoMemory::Fault(fault)) => Err(OrNoMemory::Fault(LineFault::Condition(fault))),
        Err(OrNoMemory::NoMemory) => Err(OrNoMemory::NoMemory),
    }
}

/// A watch of a word that halts, where nothing but `stop` is behind its id and its name.
fn halting_if(is_stop: bool, id: u32, word: WordId) -> Result<Asked, LineFault>
    ensures { result ≡ halting_if is_stop id word }
{
    if is_stop {
        Ok(Asked::Watch(WatchOrder { id, word }, true))
    } else {
        Err(LineFault::BadLine)
    }
}

/// What comes after `watch` asks, where the line is none of a script.
#[tactic(auto, unfolding(crate::specs::Asking::halting_as))]
fn halting_as(layout: &Layout, text: &[u8]) -> Result<Asked, LineFault>
    ensures { result ≡ halting_as layout.now text.now }
{
    let (number, others) = split_piece(text);
    let id = small_number(number).ok_or(LineFault::BadLine)?;
    let (name, behind) = split_piece(others);
    let word = layout.word(name).ok_or(LineFault::BadLine)?;
    halting_if(is_word(behind, b"stop"), id, word)
}

/// The same, where there may be no memory.
fn halting_in(layout: &Layout, text: &[u8]) -> Result<Asked, OrNoMemory<LineFault>>
    ensures { Answers fault_in (halting_as layout.now text.now) result }
{
    match halting_as(layout, text) {
        Ok(asked) => Ok(asked),
        Err(fault) => Err(OrNoMemory::Fault(fault)),
    }
}

/// What a line asks that orders something.
fn ordered_in(alloc: Global, layout: &Layout, line: &[u8]) -> Result<Asked, OrNoMemory<LineFault>>
    ensures { Answers fault_in (as_asked (own_of layout.now line.now)) result }
{
    match own_in(alloc, layout, line) {
        Ok(order) => Ok(Asked::Order(order)),
        Err(OrNoMemory::Fault(fault)) => Err(OrNoMemory::Fault(fault)),
        Err(OrNoMemory::NoMemory) => Err(OrNoMemory::NoMemory),
    }
}

/// What a line asks that is none of a script.
fn own_asked(alloc: Global, layout: &Layout, line: &[u8]) -> Result<Asked, OrNoMemory<LineFault>>
    ensures { Answers fault_in (own_asked layout.now line.now) result }
{
    let (first, behind) = split_piece(before_comment(line));
    if first == b"check".as_slice() {
        return check_as(alloc, layout, behind);
    }
    if first == b"watch".as_slice() {
        return halting_in(layout, behind);
    }
    ordered_in(alloc, layout, line)
}

/// What a line asks.
pub(crate) fn asked_in(
    alloc: Global,
    layout: &Layout,
    line: &[u8],
) -> Result<Asked, OrNoMemory<LineFault>>
    ensures { Answers fault_in (asked_of layout.now line.now) result }
{
    match row_on(layout, line) {
        Ok(row) => asked_as(alloc, layout, row),
        Err(BadRow) => own_asked(alloc, layout, line),
    }
}
