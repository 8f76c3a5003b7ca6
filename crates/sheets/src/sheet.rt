//! What was read of a sheet so far, and what each further line says.
ghost use Rattle.std.specs.Prelude.{◌≡◌, ◌+◌, ◌≤◌, ◌<◌, ◌^◌, ◌++◌, IfOk, OnOk, Some, codes};
ghost use Rattle.text_tokens.specs.Cursors.{unread};
ghost use Rattle.text_tokens.specs.Text.{lines_of};
ghost use Rattle.outcomes.specs.Calls.{Answers};
ghost use Rattle.outcomes.specs.Faults.{fault_in};
ghost use Rattle.std.specs.Result.{result_map_both};
ghost use Rattle.isa.specs.Loadables.{max_processors};
ghost use Rattle.sheets.specs.Abbreviations.{copies, numbered_copy};
ghost use Rattle.sheets.specs.Calls.{ReadsRest, ReadsRow, StopsAt};
ghost use Rattle.sheets.specs.Reading.{fault_told, text_said};
ghost use Rattle.sheets.specs.Sheets.{block_begun, block_ended, between_after, block_line_after, const_after, copies_from, copy_after, copy_from, copy_of, copy_tokens_after, cpu_after, cpu_at, empty_sheet, head_line_after, init_after, init_at, item_line_after, items_begun, kept, line_after, lines_after, lines_at, next_block, opening_after, other_processors, part_after, plain_after, read_of, recover_after, recovery_begun, row_after, said_after, saying, sheet_from, stage_after, stopped, tokens_after, turned};

use crate::block::{Block, Part, ends_block, is_end, is_recover};
use crate::copy::in_copy;
use crate::items::{Items, begins_item};
use crate::names::Names;
use crate::said::{Said, plain_row, said_row};
use crate::words::lines_said;
use isa::MAX_PROCESSORS;
use lines_layout::MAX_LINES;
use litmus_text::{LineFault, TextFault, line_numbered};
use outcomes::OrNoMemory;
use std::alloc::{AllocError, Global};
use std::marker::Model;
use std::mem;
use text_tokens::{Lines, Tokens, is_plain_line};

/// What may come next in a sheet.
#[derive(Clone, Copy, Debug, PartialEq, Eq)]
pub enum Stage {
    /// The line `sheet 1`.
    Opening,
    /// Constants, lines, initial values, or the first processor.
    Data,
    /// A line of a block.
    Block,
    /// Another block, or the first question.
    Between,
    /// A line of questions.
    Items,
}

/// What was read of a sheet so far.
#[derive(Drop)]
pub struct Sheet {
    stage: Stage,
    said: Said,
    names: Names,
    block: Block,
    items: Items,
    fault: Option<TextFault>,
}

impl Model for Sheet {
    ghost use Rattle.sheets.specs.Sheets.{Sheet};

    ghost Value = { Sheet };

    ghost view = { λ s. record { stage = s.stage; said = s.said; names = s.names; block = s.block; items = s.items; fault = s.fault } };
}

/// A line of a sheet that has tokens.
#[derive(Clone, Copy)]
struct Row<'a> {
    /// The number of the line, counted from 1.
    number: usize,
    /// Its first token.
    first: &'a [u8],
    /// The tokens after it.
    others: Tokens<'a>,
}

/// What the tokens behind `line` say.
#[tactic(auto, unfolding(crate::specs::Sheets::lines_at))]
fn lines_at(
    alloc: Global,
    names: &Names,
    mut tokens: Tokens,
) -> Result<Vec<u8>, OrNoMemory<LineFault>>
    ensures { Answers fault_in (lines_at names.now (unread tokens.entry)) (result_map_both (λ v. v.items) (λ e. e) result) }
{
    let count = names.next_count(MAX_LINES, &mut tokens)?;
    lines_said(alloc, names, count, tokens)
}

/// What the tokens behind `init` say.
#[tactic(auto, unfolding(crate::specs::Sheets::init_at))]
fn init_at(alloc: Global, names: &Names, tokens: Tokens) -> Result<Vec<u8>, OrNoMemory<LineFault>>
    ensures { Answers fault_in (init_at names.now (unread tokens.entry)) (result_map_both (λ v. v.items) (λ e. e) result) }
{
    let mut values = tokens;
    let word = match values.next() {
        Some(name) => names.layout.word(name),
        None => None,
    };
    let mut ahead = values;
    match word {
        Some(word) if ahead.next().is_some() => names.values_said(alloc, word.number(), values),
        _ => Ok(plain_row(alloc, b"init", tokens)?),
    }
}

/// How many processors the tokens behind `cpu` say, if they do, and the row that begins one of them.
#[tactic(auto, unfolding(crate::specs::Sheets::cpu_at))]
fn cpu_at(
    alloc: Global,
    names: &Names,
    first: usize,
    mut tokens: Tokens,
) -> Result<(Option<usize>, Vec<u8>), OrNoMemory<LineFault>>
    requires { first ≤ max_processors }
    ensures said { Answers fault_in (cpu_at names.now first (unread tokens.entry)) (result_map_both (λ c. (c.0, c.1.items)) (λ e. e) result) }
    ensures few { IfOk result (λ c. first + copies c.0 ≤ max_processors) }
{
    let count = names.next_count(MAX_PROCESSORS, &mut tokens)?;
    if count.unwrap_or(1) > MAX_PROCESSORS - first {
        return Err(OrNoMemory::Fault(LineFault::TooLong));
    }
    let row = said_row(alloc, names, None, b"cpu", tokens)?;
    Ok((count, row))
}

impl Sheet {
    /// Before the first line. It takes no memory.
    pub fn new(alloc: Global) -> Sheet
        ensures { result ≡ empty_sheet }
    {
        Sheet {
            stage: Stage::Opening,
            said: Said::new(alloc),
            names: Names::new(alloc),
            block: Block::none(alloc),
            items: Items::none(alloc),
            fault: None,
        }
    }

    /// What to take memory from.
    fn alloc(&self) -> Global {
        *self.said.text.allocator()
    }

    /// Line `number` has this fault, unless it is want of memory.
    fn stop(&mut self, number: usize, error: OrNoMemory<LineFault>) -> Result<(), AllocError>
        ensures { OnOk result (StopsAt number self.old error self.new) }
    {
        match error {
            OrNoMemory::Fault(kind) => {
                self.fault = Some(TextFault::At(kind, number));
                Ok(())
            }
            OrNoMemory::NoMemory => Err(AllocError),
        }
    }

    /// A constant, behind `const`.
    #[tactic(auto, unfolding(crate::specs::Sheets::const_after))]
    fn read_const(&mut self, row: Row) -> Result<(), AllocError>
        ensures { ReadsRest const_after self.old row.entry result self.new }
    {
        match self.names.constant(row.others) {
            Ok((name, value)) => {
                self.names.constants.add(name, value)?;
                self.said.say(row.number, b"\n")
            }
            Err(kind) => self.stop(row.number, OrNoMemory::Fault(kind)),
        }
    }

    /// Cache lines, behind `line`.
    #[tactic(auto, unfolding(crate::specs::Sheets::lines_after))]
    fn read_lines(&mut self, row: Row) -> Result<(), AllocError>
        ensures { ReadsRest lines_after self.old row.entry result self.new }
    {
        let alloc = self.alloc();
        match lines_at(alloc, &self.names, row.others) {
            Ok(piece) => {
                self.names.add_lines(alloc, &piece)?;
                self.said.say(row.number, &piece)
            }
            Err(error) => self.stop(row.number, error),
        }
    }

    /// Initial values, behind `init`.
    #[tactic(auto, unfolding(crate::specs::Sheets::init_after))]
    fn read_init(&mut self, row: Row) -> Result<(), AllocError>
        ensures { ReadsRest init_after self.old row.entry result self.new }
    {
        match init_at(self.alloc(), &self.names, row.others) {
            Ok(piece) => self.said.say(row.number, &piece),
            Err(error) => self.stop(row.number, error),
        }
    }

    /// The number of the next block's first processor.
    fn next_block(&self) -> usize
        ensures value { result ≡ next_block self.now.stage self.now.block }
        ensures few { result ≤ max_processors }
    {
        match self.stage {
            Stage::Between => self.block.next_processor(),
            _ => 0,
        }
    }

    /// Another block, behind `cpu`.
    #[tactic(auto, unfolding(crate::specs::Sheets::cpu_after))]
    fn read_cpu(&mut self, row: Row) -> Result<(), AllocError>
        requires { row.number < 2 ^ 63 }
        ensures { ReadsRest cpu_after self.old row.entry result self.new }
    {
        let alloc = self.alloc();
        let first = self.next_block();
        match cpu_at(alloc, &self.names, first, row.others) {
            Ok((count, piece)) => {
                self.stage = Stage::Block;
                self.block = Block {
                    first,
                    count,
                    line: row.number,
                    rows: Vec::new(alloc),
                    part: Part::Main,
                };
                self.said.say(row.number, &piece)
            }
            Err(error) => self.stop(row.number, error),
        }
    }

    /// A row as it stands.
    fn read_plain(&mut self, row: Row) -> Result<(), AllocError>
        ensures { ReadsRow plain_after self.old row.entry result self.new }
    {
        let piece = plain_row(self.alloc(), row.first, row.others)?;
        self.said.say(row.number, &piece)
    }

    /// The first row, which is `sheet 1`.
    #[tactic(auto, unfolding(crate::specs::Sheets::opening_after))]
    fn read_opening(&mut self, mut row: Row) -> Result<(), AllocError>
        ensures { ReadsRow opening_after self.old row.entry result self.new }
    {
        self.stage = Stage::Data;
        if row.first == b"sheet".as_slice() {
            row.first = b"litmus";
        }
        self.read_plain(row)
    }

    /// A row of data, or the first block.
    #[tactic(auto, unfolding(crate::specs::Sheets::row_after))]
    fn read_data(&mut self, row: Row) -> Result<(), AllocError>
        requires { row.number < 2 ^ 63 }
        ensures { ReadsRow (row_after Stage.Data) self.old row.entry result self.new }
    {
        if row.first == b"const".as_slice() {
            self.read_const(row)
        } else if row.first == b"line".as_slice() {
            self.read_lines(row)
        } else if row.first == b"init".as_slice() {
            self.read_init(row)
        } else if row.first == b"cpu".as_slice() {
            self.read_cpu(row)
        } else {
            self.read_plain(row)
        }
    }

    /// A row outside of blocks.
    #[tactic(auto, unfolding(crate::specs::Sheets::row_after))]
    fn read_row(&mut self, row: Row) -> Result<(), AllocError>
        requires { row.number < 2 ^ 63 }
        ensures { ReadsRow (row_after self.old.stage) self.old row.entry result self.new }
    {
        match self.stage {
            Stage::Opening => self.read_opening(row),
            Stage::Data => self.read_data(row),
            Stage::Block | Stage::Between | Stage::Items => {
                if row.first == b"cpu".as_slice() {
                    self.read_cpu(row)
                } else {
                    self.read_plain(row)
                }
            }
        }
    }

    /// A line outside of blocks.
    #[tactic(auto, unfolding(crate::specs::Sheets::head_line_after))]
    fn read_head_line(&mut self, number: usize, line: &[u8]) -> Result<(), AllocError>
        requires { number < 2 ^ 63 }
        ensures { OnOk result (self.new ≡ head_line_after number self.old line.now) }
    {
        if !is_plain_line(line) {
            return self.say_line(number, line);
        }
        let mut tokens = Tokens::new(line);
        match tokens.next() {
            None => self.said.say(number, b"\n"),
            Some(first) => self.read_row(Row {
                number,
                first,
                others: tokens,
            }),
        }
    }

    /// A line as it stands.
    fn say_line(&mut self, number: usize, line: &[u8]) -> Result<(), AllocError>
        ensures { OnOk result (self.new ≡ saying number (line.now ++ codes "\n") self.old) }
    {
        let mut piece = line.to_vec(self.alloc())?;
        piece.extend_from_slice(b"\n")?;
        self.said.say(number, &piece)
    }

    /// A row of a copy, whose abbreviations are replaced.
    #[tactic(auto, unfolding(crate::specs::Sheets::said_after))]
    fn read_said(&mut self, copy: Option<usize>, row: Row) -> Result<(), AllocError>
        ensures { ReadsRow (said_after copy) self.old row.entry result self.new }
    {
        match said_row(self.alloc(), &self.names, copy, row.first, row.others) {
            Ok(piece) => self.said.say(row.number, &piece),
            Err(error) => self.stop(row.number, error),
        }
    }

    /// The recovery program of processor `processor` begins here, or it has none.
    fn begin_recovery(&mut self, number: usize, recovers: bool) -> Result<(), AllocError>
        ensures { OnOk result (self.new ≡ recovery_begun number self.old recovers) }
    {
        if recovers {
            self.block.part = Part::Recovery;
            self.said.say(number, b"recover\n")
        } else {
            self.block.part = Part::Skipped;
            self.said.say(number, b"\n")
        }
    }

    /// `recover` or `recover P`, for this processor.
    #[tactic(auto, unfolding(crate::specs::Sheets::recover_after))]
    fn read_recover(&mut self, processor: usize, row: Row) -> Result<(), AllocError>
        ensures { ReadsRest (recover_after (numbered_copy self.old.block.count processor) processor) self.old row.entry result self.new }
    {
        match self.block.recovers(processor, row.others) {
            Ok(recovers) => self.begin_recovery(row.number, recovers),
            Err(error) => self.stop(row.number, error),
        }
    }

    /// A row of a block, for this processor.
    #[tactic(auto, unfolding(crate::specs::Sheets::part_after))]
    fn read_part(&mut self, processor: usize, row: Row) -> Result<(), AllocError>
        ensures { ReadsRow (part_after self.old.block.part (numbered_copy self.old.block.count processor) processor) self.old row.entry result self.new }
    {
        let copy = self.block.copy(processor);
        match self.block.part {
            Part::Main if is_recover(row.first, &row.others) => self.read_recover(processor, row),
            Part::Skipped if !is_end(row.first, &row.others) => self.said.say(row.number, b"\n"),
            _ => self.read_said(copy, row),
        }
    }

    /// A line of a block, for this processor.
    #[tactic(auto, unfolding(crate::specs::Sheets::copy_after))]
    fn read_copy(&mut self, processor: usize, number: usize, line: &[u8]) -> Result<(), AllocError>
        ensures { OnOk result (self.new ≡ copy_after processor number self.old line.now) }
    {
        if self.fault.is_some() {
            return Ok(());
        }
        if !is_plain_line(line) {
            return self.say_line(number, line);
        }
        let mut tokens = Tokens::new(line);
        match tokens.next() {
            None => self.said.say(number, b"\n"),
            Some(first) => {
                let first = in_copy(self.alloc(), self.block.copy(processor), first)?;
                self.read_part(
                    processor,
                    Row {
                        number,
                        first: &first,
                        others: tokens,
                    },
                )
            }
        }
    }

    /// Lines of a block, for this processor; the first of them has the number after `before`.
    #[tactic(auto, using(crate::proofs::RowSteps::copy_steps))]
    fn read_copies(
        &mut self,
        processor: usize,
        before: usize,
        rows: &[u8],
    ) -> Result<(), AllocError>
        requires { before < 2 ^ 63 }
        ensures { OnOk result (self.new ≡ copy_from processor (before + 1) self.old (lines_of rows.now)) }
    {
        let mut number = before;
        for line in Lines::new(rows) {
            number += 1;
            self.read_copy(processor, number, line)?;
        }
        Ok(())
    }

    /// The whole block once more, for this processor.
    #[tactic(auto, unfolding(crate::specs::Sheets::copy_of))]
    fn read_block(&mut self, processor: usize, rows: &[u8]) -> Result<(), AllocError>
        ensures { OnOk result (self.new ≡ copy_of rows.now self.old processor) }
    {
        if self.fault.is_some() {
            return Ok(());
        }
        self.block.part = Part::Main;
        let line = self.block.line;
        self.said.say(line, b"cpu\n")?;
        self.read_copies(processor, line, rows)
    }

    /// The block ends: its lines are read for its other processors.
    #[tactic(auto, using(crate::proofs::RowSteps::block_steps, crate::proofs::Ranges::range_steps), unfolding(crate::specs::Sheets::block_ended))]
    fn end_block(&mut self) -> Result<(), AllocError>
        ensures { OnOk result (self.new ≡ block_ended self.old) }
    {
        let alloc = self.alloc();
        let rows = mem::replace(&mut self.block.rows, Vec::new(alloc));
        self.stage = Stage::Between;
        for processor in self.block.first + 1..self.block.next_processor() {
            self.read_block(processor, &rows)?;
        }
        Ok(())
    }

    /// A line of a block: it is read for the first processor, and kept for the others.
    #[tactic(auto, unfolding(crate::specs::Sheets::block_line_after))]
    fn read_block_line(&mut self, number: usize, line: &[u8]) -> Result<(), AllocError>
        ensures { OnOk result (self.new ≡ block_line_after number self.old line.now) }
    {
        self.read_copy(self.block.first, number, line)?;
        self.block.rows.extend_from_slice(line)?;
        self.block.rows.extend_from_slice(b"\n")?;
        if ends_block(line) {
            self.end_block()?;
        }
        Ok(())
    }

    /// A line of questions: it says an empty line, and is kept.
    fn read_item_line(&mut self, number: usize, line: &[u8]) -> Result<(), AllocError>
        ensures { OnOk result (self.new ≡ item_line_after number self.old line.now) }
    {
        self.items.add(line)?;
        self.said.say(number, b"\n")
    }

    /// A line behind a block.
    #[tactic(auto, unfolding(crate::specs::Sheets::between_after))]
    fn read_between(&mut self, number: usize, line: &[u8]) -> Result<(), AllocError>
        requires { number < 2 ^ 63 }
        ensures { OnOk result (self.new ≡ between_after number self.old line.now) }
    {
        if begins_item(line) {
            self.stage = Stage::Items;
            self.items = Items {
                first: number,
                rows: Vec::new(self.alloc()),
            };
            self.read_item_line(number, line)
        } else {
            self.read_head_line(number, line)
        }
    }

    /// Line `number`, counted from 1.
    #[tactic(auto, unfolding(crate::specs::Sheets::line_after, crate::specs::Sheets::stage_after))]
    fn read_line(&mut self, number: usize, line: &[u8]) -> Result<(), AllocError>
        requires { number < 2 ^ 63 }
        ensures { OnOk result (self.new ≡ line_after number self.old line.now) }
    {
        if self.fault.is_some() {
            return Ok(());
        }
        match self.stage {
            Stage::Block => self.read_block_line(number, line),
            Stage::Between => self.read_between(number, line),
            Stage::Items => self.read_item_line(number, line),
            Stage::Opening | Stage::Data => self.read_head_line(number, line),
        }
    }

    /// Reads a whole sheet.
    #[tactic(auto, using(crate::proofs::RowSteps::sheet_steps))]
    pub fn read(alloc: Global, text: &[u8]) -> Result<Sheet, AllocError>
        ensures { IfOk result (λ sheet. sheet ≡ read_of text.now) }
    {
        let mut sheet = Sheet::new(alloc);
        let mut number = 0;
        for line in Lines::new(text) {
            number += 1;
            sheet.read_line(number, line)?;
        }
        Ok(sheet)
    }

    /// The litmus text that is read, which ends with a line that no such text has where the sheet has a fault of its own.
    pub fn finish(&mut self) -> Result<(), AllocError>
        ensures { OnOk result (self.new ≡ record self.old { said = record self.old.said { text = text_said self.old } }) }
    {
        if self.fault.is_some() {
            self.said.text.extend_from_slice(b"?\n")?;
        }
        Ok(())
    }

    /// The litmus text.
    pub fn text(&self) -> &[u8]
        ensures { result.now ≡ self.now.said.text }
    {
        &self.said.text
    }

    /// The lines of the sheet that say its lines.
    pub fn lines(&self) -> &[usize]
        ensures { result.now ≡ self.now.said.lines }
    {
        &self.said.lines
    }

    /// The litmus text, and the lines of the sheet that say its lines.
    pub fn into_said(self) -> Said
        ensures { result ≡ self.said }
    {
        self.said
    }

    /// What its abbreviations stand for, and its questions.
    pub fn into_names(self) -> (Names, Items)
        ensures names { result.0 ≡ self.names }
        ensures items { result.1 ≡ self.items }
    {
        (self.names, self.items)
    }

    /// The fault of the sheet, by that of its litmus text.
    pub fn fault_told(&self, fault: TextFault) -> TextFault
        ensures { result ≡ fault_told self.now fault }
    {
        let TextFault::At(kind, line) = fault;
        if line > self.said.lines.len() {
            self.fault.unwrap_or(fault)
        } else {
            TextFault::At(kind, line_numbered(&self.said.lines, line))
        }
    }
}
