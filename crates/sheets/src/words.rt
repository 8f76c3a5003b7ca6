//! The words of `line`, and the values of `init`.
ghost use Rattle.std.specs.Prelude.{◌≡◌, ◌<◌, ◌++◌, [], OnOk, decimal};
ghost use Rattle.std.specs.Result.{result_map_both};
ghost use Rattle.outcomes.specs.Calls.{Answers, Leaves};
ghost use Rattle.outcomes.specs.Faults.{fault_in};
ghost use Rattle.text_tokens.specs.Cursors.{unread};
ghost use Rattle.text_tokens.specs.Text.{lines_of};
ghost use Rattle.lines_layout.specs.Lines.{max_words};
ghost use Rattle.sheets.specs.Texts.{with_blank};
ghost use Rattle.sheets.specs.Words.{all_lines_said, counted_names, line_given, line_said, lines_given, name_begins, value_said, values_from, word_after, words_end, words_from};

use crate::copy::{in_copy, numbered_copy, push_decimal};
use crate::names::Names;
use crate::said::push_token;
use lines_layout::{LINE_WORDS, WordId};
use litmus_text::LineFault;
use outcomes::OrNoMemory;
use std::alloc::{AllocError, Global};
use std::marker::Model;
use text_tokens::{Lines, Tokens};

/// Where the reading of a line's words is.
#[derive(Clone, Copy, Debug, PartialEq, Eq)]
pub enum Place {
    /// Before a name, or at the end.
    Free,
    /// Behind a name, which may be followed by `[`.
    Behind,
    /// Behind its `[`.
    Open,
    /// Behind the number.
    Closed,
}

/// The words of a line that were read so far.
#[derive(Drop)]
pub struct Words {
    /// What is said of them.
    text: Vec<u8>,
    /// The name that came last.
    name: Vec<u8>,
    place: Place,
}

impl Model for Words {
    ghost use Rattle.sheets.specs.Words.{Words};

    ghost Value = { Words };

    ghost view = { λ w. record { text = w.text.items; name = w.name.items; place = w.place } };
}

/// Appends the name with a number, and a blank.
fn push_counted(text: &mut Vec<u8>, name: &[u8], number: usize) -> Result<(), AllocError>
    ensures { OnOk result (text.new.items ≡ text.old.items ++ with_blank (name.now ++ decimal number)) }
{
    text.extend_from_slice(name)?;
    push_decimal(text, number as u64)?;
    text.extend_from_slice(b" ")
}

/// Appends so many names: NAME0, NAME1 and on.
#[tactic(auto, using(crate::proofs::RowSteps::counted_steps, crate::proofs::Ranges::range_steps))]
fn push_all_counted(text: &mut Vec<u8>, name: &[u8], count: usize) -> Result<(), AllocError>
    ensures { OnOk result (text.new.items ≡ counted_names name.now text.old.items count) }
{
    for number in 0..count {
        push_counted(text, name, number)?;
    }
    Ok(())
}

impl Words {
    /// A name begins.
    #[tactic(auto, unfolding(crate::specs::Words::name_begins))]
    fn begin(&mut self, names: &Names, token: &[u8]) -> Result<(), OrNoMemory<LineFault>>
        ensures { Leaves fault_in (name_begins names.now self.old token.now) result self.new }
    {
        names.meant(token)?;
        self.name.clear();
        self.name.extend_from_slice(token)?;
        self.place = Place::Behind;
        Ok(())
    }

    /// The token behind a name.
    #[tactic(auto, unfolding(crate::specs::Words::word_after))]
    fn read_behind(&mut self, names: &Names, token: &[u8]) -> Result<(), OrNoMemory<LineFault>>
        ensures { Leaves fault_in (word_after Place.Behind names.now self.old token.now) result self.new }
    {
        if token == b"[".as_slice() {
            self.place = Place::Open;
            return Ok(());
        }
        push_token(&mut self.text, &self.name)?;
        self.begin(names, token)
    }

    /// One more token.
    #[tactic(auto, unfolding(crate::specs::Words::word_after))]
    fn read_token(&mut self, names: &Names, token: &[u8]) -> Result<(), OrNoMemory<LineFault>>
        ensures { Leaves fault_in (word_after self.old.place names.now self.old token.now) result self.new }
    {
        match self.place {
            Place::Free => self.begin(names, token),
            Place::Behind => self.read_behind(names, token),
            Place::Open => {
                let count = names.count(LINE_WORDS, token)?;
                push_all_counted(&mut self.text, &self.name, count)?;
                self.place = Place::Closed;
                Ok(())
            }
            Place::Closed if token == b"]".as_slice() => {
                self.place = Place::Free;
                Ok(())
            }
            Place::Closed => Err(OrNoMemory::Fault(LineFault::BadWord)),
        }
    }

    /// The tokens of a copy of a line.
    #[tactic(auto, using(crate::proofs::RowSteps::word_steps))]
    fn read_tokens(
        &mut self,
        names: &Names,
        copy: Option<usize>,
        tokens: Tokens,
    ) -> Result<(), OrNoMemory<LineFault>>
        ensures { Leaves fault_in (words_from names.now copy self.old (unread tokens.entry)) result self.new }
    {
        for token in tokens {
            let token = in_copy(*self.text.allocator(), copy, token)?;
            match self.read_token(names, &token) {
                Ok(()) => {}
                Err(OrNoMemory::Fault(kind)) => return Err(OrNoMemory::Fault(kind)),
                Err(OrNoMemory::NoMemory) => return Err(OrNoMemory::NoMemory),
            }
        }
        Ok(())
    }

    /// The text, where the tokens may end here.
    #[tactic(auto, unfolding(crate::specs::Words::words_end))]
    fn end(mut self) -> Result<Vec<u8>, OrNoMemory<LineFault>>
        ensures { Answers fault_in (words_end self.place self) (result_map_both (λ v. v.items) (λ e. e) result) }
    {
        match self.place {
            Place::Free => {}
            Place::Behind => push_token(&mut self.text, &self.name)?,
            Place::Open | Place::Closed => return Err(OrNoMemory::Fault(LineFault::BadWord)),
        }
        self.text.extend_from_slice(b"\n")?;
        Ok(self.text)
    }
}

/// The text with a copy of a line behind it.
#[tactic(auto, unfolding(crate::specs::Words::line_said))]
fn line_said(
    mut text: Vec<u8>,
    names: &Names,
    copy: Option<usize>,
    tokens: Tokens,
) -> Result<Vec<u8>, OrNoMemory<LineFault>>
    ensures { Answers fault_in (line_said names.now (unread tokens.entry) text.items copy) (result_map_both (λ v. v.items) (λ e. e) result) }
{
    let alloc = *text.allocator();
    text.extend_from_slice(b"line ")?;
    let mut words = Words {
        text,
        name: Vec::new(alloc),
        place: Place::Free,
    };
    words.read_tokens(names, copy, tokens)?;
    words.end()
}

/// All copies of a line.
#[tactic(auto, using(crate::proofs::RowSteps::line_steps, crate::proofs::Ranges::range_steps))]
pub fn lines_said(
    alloc: Global,
    names: &Names,
    count: Option<usize>,
    tokens: Tokens,
) -> Result<Vec<u8>, OrNoMemory<LineFault>>
    ensures { Answers fault_in (all_lines_said names.now count (unread tokens.entry)) (result_map_both (λ v. v.items) (λ e. e) result) }
{
    let mut text = Vec::new(alloc);
    for number in 0..count.unwrap_or(1) {
        match line_said(text, names, numbered_copy(count, number), tokens) {
            Ok(more) => text = more,
            Err(OrNoMemory::Fault(kind)) => return Err(OrNoMemory::Fault(kind)),
            Err(OrNoMemory::NoMemory) => return Err(OrNoMemory::NoMemory),
        }
    }
    Ok(text)
}

impl Names {
    /// The names of one more line; a line that is refused gives none.
    fn add_line(&mut self, alloc: Global, line: &[u8]) -> Result<(), AllocError>
        ensures { OnOk result (self.new ≡ record self.old { layout = line_given self.old.layout line.now }) }
    {
        let names: Vec<&[u8]> = Tokens::new(line).skip(1).collect(alloc)?;
        match self.layout.add_line(&names) {
            Ok(()) | Err(OrNoMemory::Fault(_)) => Ok(()),
            Err(OrNoMemory::NoMemory) => Err(AllocError),
        }
    }

    /// Those of all these lines.
    #[tactic(auto, using(crate::proofs::RowSteps::given_steps))]
    pub fn add_lines(&mut self, alloc: Global, text: &[u8]) -> Result<(), AllocError>
        ensures { OnOk result (self.new ≡ record self.old { layout = lines_given self.old.layout (lines_of text.now) }) }
    {
        for line in Lines::new(text) {
            self.add_line(alloc, line)?;
        }
        Ok(())
    }

    /// Appends the row that gives a word, by its number, the value that a token says.
    #[tactic(auto, unfolding(crate::specs::Words::value_said))]
    fn push_value(
        &self,
        text: &mut Vec<u8>,
        word: usize,
        token: &[u8],
    ) -> Result<(), OrNoMemory<LineFault>>
        ensures said { Leaves fault_in (value_said self.now text.old.items word token.now) result text.new.items }
        ensures there { OnOk result (word < max_words) }
    {
        let word = WordId::new(word).ok_or(LineFault::BadWord)?;
        let name = self.layout.name(word).ok_or(LineFault::BadWord)?;
        text.extend_from_slice(b"init ")?;
        push_token(text, name.as_bytes())?;
        self.push_said(text, token)?;
        text.extend_from_slice(b"\n")?;
        Ok(())
    }

    /// The rows that give a word and those after it the values that tokens say.
    #[tactic(auto, using(crate::proofs::RowSteps::value_steps))]
    pub fn values_said(
        &self,
        alloc: Global,
        first: usize,
        tokens: Tokens,
    ) -> Result<Vec<u8>, OrNoMemory<LineFault>>
        ensures { Answers fault_in (values_from self.now [] first (unread tokens.entry)) (result_map_both (λ v. v.items) (λ e. e) result) }
    {
        let mut text = Vec::new(alloc);
        let mut word = first;
        for token in tokens {
            match self.push_value(&mut text, word, token) {
                Ok(()) => {}
                Err(OrNoMemory::Fault(kind)) => return Err(OrNoMemory::Fault(kind)),
                Err(OrNoMemory::NoMemory) => return Err(OrNoMemory::NoMemory),
            }
            word += 1;
        }
        Ok(text)
    }
}
