//! What may be said.
ghost use Rattle.std.specs.Prelude.{◌≡◌, ◌++◌, OnOk, string_bytes};
ghost use Rattle.conversations.specs.HelpTexts.{help_text, hint_text, row_by, row_line, row_of, word_named};

use debug_scripts::{before_comment, split_piece};
use std::alloc::AllocError;

/// A word that begins a line.
#[derive(Clone, Copy)]
pub enum Word {
    Stop,
    Watch,
    Break,
    Disarm,
    Detach,
    Info,
    Delete,
    Exec,
    Drain,
    Persist,
    Settle,
    Crash,
    Go,
    Continue,
    Ahead,
    Step,
    Run,
    Until,
    Finish,
    Next,
    Number,
    Back,
    Undo,
    Goto,
    Reverse,
    Show,
    Changed,
    List,
    Print,
    Images,
    All,
    Set,
    Why,
    Check,
    Values,
    Notes,
    History,
    Help,
    Quit,
}

/// How many words begin a line.
const COUNT: usize = 39;

/// These words, in the order in which they are told.
const WORDS: [Word; COUNT] = [
    Word::Stop,
    Word::Watch,
    Word::Break,
    Word::Disarm,
    Word::Detach,
    Word::Info,
    Word::Delete,
    Word::Exec,
    Word::Drain,
    Word::Persist,
    Word::Settle,
    Word::Crash,
    Word::Go,
    Word::Continue,
    Word::Ahead,
    Word::Step,
    Word::Run,
    Word::Until,
    Word::Finish,
    Word::Next,
    Word::Number,
    Word::Back,
    Word::Undo,
    Word::Goto,
    Word::Reverse,
    Word::Show,
    Word::Changed,
    Word::List,
    Word::Print,
    Word::Images,
    Word::All,
    Word::Set,
    Word::Why,
    Word::Check,
    Word::Values,
    Word::Notes,
    Word::History,
    Word::Help,
    Word::Quit,
];

impl Word {
    /// How a line goes on that begins with the word, and what it does.
    fn row(self) -> &'static str
        ensures { result.now ≡ row_of self }
    {
        match self {
            Word::Stop => "stop ID COND        stops a go where COND holds after a step",
            Word::Watch =>
                "watch ID NAME       notes each write of a word; with stop behind NAME it halts steps behind each, too, as a break does",
            Word::Break =>
                "break ID line N     halts steps behind one with which a processor comes to line N of the text; break ID crash where the power fails, break ID trap where a processor traps",
            Word::Disarm => "disarm ID           takes out a stop",
            Word::Detach => "detach ID           takes out a watch, with its notes",
            Word::Info =>
                "info                prints the lines that declared the stops, watches and breaks that there are",
            Word::Delete =>
                "delete ID           takes out the stop, the watch and the break of this id, whichever there is",
            Word::Exec => "exec P              for the next go: processor P runs an instruction",
            Word::Drain =>
                "drain P I           for the next go: entry I of its store buffer leaves",
            Word::Persist =>
                "persist LINE        for the next go: the oldest pending write of a line persists",
            Word::Settle =>
                "settle              for the next go: the oldest marker leaves the pending list",
            Word::Crash =>
                "crash               for the next go: the power fails, and recovery begins; crash V .. does so now, leaving these values, unless a stop or a break comes before",
            Word::Go => "go                  makes these steps",
            Word::Continue =>
                "continue            makes the rest of them after a stop, or after one that was refused, and the steps after it",
            Word::Ahead =>
                "ahead               prints the steps that wait for go or continue, as a list of steps",
            Word::Step =>
                "step [STEP]         makes this step now, or the first of those that are ahead; the others stay",
            Word::Run =>
                "run [N]             makes the first step of next, again and again, up to a stop, a break or N steps, at most 1000",
            Word::Until =>
                "until P PLACE       makes the first step of next, again and again, up to where processor P is at PLACE, a stop, a break or 1000 steps",
            Word::Finish =>
                "finish P            makes exec P now, again and again, up to a stop, a break, a refusal or 1000 steps",
            Word::Next =>
                "next                prints the steps that may be made now, and what each would do",
            Word::Number =>
                "K                   makes the step that next has under this number, as step does; the numbers begin at 0",
            Word::Back =>
                "back N              goes back before the last N steps; what was noted of them stays",
            Word::Undo =>
                "undo [N]            goes back before the last step, or before the last N, and forgets what was noted of them",
            Word::Goto =>
                "goto N              goes back to the state after the first N steps, as undo does; it never goes forward",
            Word::Reverse =>
                "reverse             goes back, as undo does, to the last state behind in which a stop's condition holds, or to the beginning; it knows no breaks",
            Word::Show => "show                prints the machine's state",
            Word::Changed =>
                "changed             prints the lines of show that were not there before the last step, those of a processor below its line cpu",
            Word::List =>
                "list                prints the program that each processor runs, with > before the place where it is",
            Word::Print =>
                "print NAME          prints the values of a word; print P:REG the value of a register",
            Word::Images =>
                "images [COND]       lists what a crash may leave, or of that what makes COND false",
            Word::All =>
                "all COND            says whether COND holds in all that a crash may leave, and if not, where it does not, as images --all does",
            Word::Set =>
                "set V ..            prints which pending entries leave these values, one for each word, as images --set does",
            Word::Why =>
                "why V ..            says which writes are missing where a crash leaves these values, and why each may be, as images --set --explain-image does",
            Word::Check =>
                "check COND          asks COND of all that crashes may leave in all runs from here, as px86 check --all does; a run that fails is ahead then",
            Word::Values =>
                "values NAME [NAME=V ..]   lists the values that a word may then have, where others have these",
            Word::Notes => "notes               prints the notes of each watch",
            Word::History =>
                "history             prints the steps that led here, as a list of steps",
            Word::Help => "help [WORD]         prints these lines, or that of a word",
            Word::Quit => "quit                ends; so does the end of the input",
        }
    }

    /// The word that is written so.
    #[tactic(auto, unfolding(crate::specs::HelpTexts::word_named))]
    pub(crate) fn named(name: &[u8]) -> Option<Word>
        ensures { result ≡ word_named name.now }
    {
        WORDS
            .iter()
            .copied()
            .find(|word| split_piece(word.row().as_bytes()).0 == name)
    }
}

/// Appends the row of a word.
pub(crate) fn push_row(text: &mut String, word: Word) -> Result<(), AllocError>
    ensures { OnOk result (string_bytes text.new ≡ string_bytes text.old ++ row_line word) }
{
    text.push_str(word.row())?;
    text.push('\n')
}

/// Appends a row for each word.
pub(crate) fn push_help(text: &mut String) -> Result<(), AllocError>
    ensures { OnOk result (string_bytes text.new ≡ string_bytes text.old ++ help_text) }
{
    for word in WORDS {
        push_row(text, word)?;
    }
    Ok(())
}

/// Appends the row of a word, and that of `help` where there is none.
fn push_row_by(text: &mut String, word: Option<Word>) -> Result<(), AllocError>
    ensures { OnOk result (string_bytes text.new ≡ string_bytes text.old ++ row_by word) }
{
    match word {
        Some(word) => push_row(text, word),
        None => push_row(text, Word::Help),
    }
}

/// Appends what may stand where a line is wrong: the row of its first word.
pub(crate) fn push_hint(text: &mut String, line: &[u8]) -> Result<(), AllocError>
    ensures { OnOk result (string_bytes text.new ≡ string_bytes text.old ++ hint_text line.now) }
{
    let (word, _) = split_piece(before_comment(line));
    push_row_by(text, Word::named(word))
}
