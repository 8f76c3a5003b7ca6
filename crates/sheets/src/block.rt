//! The processors of one `cpu`.
ghost use Rattle.std.specs.Prelude.{◌≡◌, ◌≤◌};
ghost use Rattle.isa.specs.Loadables.{max_processors};
ghost use Rattle.outcomes.specs.Calls.{Answers};
ghost use Rattle.outcomes.specs.Faults.{fault_in};
ghost use Rattle.text_tokens.specs.Cursors.{unread};
ghost use Rattle.text_tokens.specs.Text.{tokens_of};
ghost use Rattle.litmus_text.specs.Reading.{is_label_line};
ghost use Rattle.sheets.specs.Abbreviations.{numbered_copy};
ghost use Rattle.sheets.specs.Sheets.{ends_block, is_end, is_recover, no_block, processors_after, recovers_at, recovers_in};

use crate::copy::{in_copy, numbered_copy};
use litmus_text::LineFault;
use outcomes::OrNoMemory;
use std::alloc::Global;
use std::marker::Model;
use text_tokens::cursor::expect_end;
use text_tokens::{Tokens, small_number};

/// Where a copy is.
#[derive(Clone, Copy, Debug, PartialEq, Eq)]
pub enum Part {
    /// In the main program.
    Main,
    /// In the recovery program.
    Recovery,
    /// In the recovery program of another processor, which this copy does not have.
    Skipped,
}

/// The processors of one `cpu`, and the lines after it so far.
#[derive(Drop)]
pub struct Block {
    /// The number of the first processor.
    pub first: usize,
    /// How many they are, if `* N` says so.
    pub count: Option<usize>,
    /// The line of `cpu`.
    pub line: usize,
    /// The lines after it.
    pub rows: Vec<u8>,
    /// Where the copy is that is read.
    pub part: Part,
}

impl Model for Block {
    ghost use Rattle.std.specs.Prelude.{◌+◌, ◌≤◌, ◌<◌, ◌^◌};
    ghost use Rattle.isa.specs.Loadables.{max_processors};
    ghost use Rattle.sheets.specs.Abbreviations.{copies};
    ghost use Rattle.sheets.specs.Sheets.{Block};

    ghost Value = { Block };

    ghost view = { λ b. record { first = b.first; count = b.count; line = b.line; rows = b.rows.items; part = b.part } };

    ghost invariant = { λ b. (b.first + copies b.count ≤ max_processors) × (b.line < 2 ^ 63) };
}

/// Whether the tokens after a line's first begin with `:`.
fn is_label_line(tokens: &Tokens) -> bool
    ensures { result ≡ is_label_line (unread tokens.now) }
{
    let mut tokens = *tokens;
    match tokens.next() {
        None => false,
        Some(token) => token == b":".as_slice(),
    }
}

/// Whether these tokens are `end`, and no label.
pub fn is_end(first: &[u8], tokens: &Tokens) -> bool
    ensures { result ≡ is_end first.now (unread tokens.now) }
{
    first == b"end".as_slice() && !is_label_line(tokens)
}

/// Whether they are `recover`, or begin so, and are no label.
pub fn is_recover(first: &[u8], tokens: &Tokens) -> bool
    ensures { result ≡ is_recover first.now (unread tokens.now) }
{
    first == b"recover".as_slice() && !is_label_line(tokens)
}

/// Whether a line ends its block.
pub fn ends_block(line: &[u8]) -> bool
    ensures { result ≡ ends_block (tokens_of line.now) }
{
    let mut tokens = Tokens::new(line);
    match tokens.next() {
        None => false,
        Some(first) => is_end(first, &tokens),
    }
}

impl Block {
    /// No processors. It takes no memory.
    pub fn none(alloc: Global) -> Block
        ensures { result ≡ no_block }
    {
        Block {
            first: 0,
            count: None,
            line: 0,
            rows: Vec::new(alloc),
            part: Part::Main,
        }
    }

    /// The number of the processor after these.
    pub fn next_processor(&self) -> usize
        ensures value { result ≡ processors_after self.now }
        ensures few { result ≤ max_processors }
    {
        self.first + self.count.unwrap_or(1)
    }

    /// The number of the copy of processor `processor`, if there are copies.
    pub fn copy(&self, processor: usize) -> Option<usize>
        ensures { result ≡ numbered_copy self.now.count processor }
    {
        numbered_copy(self.count, processor)
    }

    /// Whether `recover P`, of these tokens behind `recover`, is of this processor.
    #[tactic(auto, unfolding(crate::specs::Sheets::recovers_at))]
    fn recovers_at(
        &self,
        processor: usize,
        token: &[u8],
        mut tokens: Tokens,
    ) -> Result<bool, LineFault>
        ensures { result ≡ recovers_at self.now processor token.now (unread tokens.entry) }
    {
        let number = small_number(token).ok_or(LineFault::BadWord)? as usize;
        if number < self.first || number >= self.next_processor() {
            return Err(LineFault::BadNumber);
        }
        expect_end(&mut tokens, LineFault::BadWord)?;
        Ok(number == processor)
    }

    /// Whether the recovery program that begins here is of this processor.
    pub fn recovers(
        &self,
        processor: usize,
        mut tokens: Tokens,
    ) -> Result<bool, OrNoMemory<LineFault>>
        ensures { Answers fault_in (recovers_in self.now (numbered_copy self.now.count processor) processor (unread tokens.entry)) result }
    {
        match tokens.next() {
            None => Ok(true),
            Some(token) => {
                let token = in_copy(*self.rows.allocator(), self.copy(processor), token)?;
                Ok(self.recovers_at(processor, &token, tokens)?)
            }
        }
    }
}
