//! The litmus text that a sheet says.
ghost use Rattle.std.specs.Prelude.{◌≡◌, ◌++◌, [], IfOk, OnOk, map};
ghost use Rattle.std.specs.Result.{result_map_both};
ghost use Rattle.outcomes.specs.Calls.{Answers, Leaves};
ghost use Rattle.outcomes.specs.Faults.{fault_in};
ghost use Rattle.text_tokens.specs.Cursors.{unread};
ghost use Rattle.text_tokens.specs.Text.{lines_of};
ghost use Rattle.sheets.specs.Texts.{plain_from, plain_row, said_from, said_row, says, token_said, with_blank};

use crate::copy::in_copy;
use crate::names::Names;
use litmus_text::LineFault;
use outcomes::OrNoMemory;
use std::alloc::{AllocError, Global};
use std::marker::Model;
use text_tokens::{Lines, Tokens};

/// A litmus text so far, and of each of its lines the line of the sheet that says it.
#[derive(Drop)]
pub struct Said {
    /// The text.
    pub text: Vec<u8>,
    /// The lines of the sheet.
    pub lines: Vec<usize>,
}

impl Model for Said {
    ghost use Rattle.sheets.specs.Texts.{Said};

    ghost Value = { Said };

    ghost view = { λ s. record { text = s.text.items; lines = s.lines.items } };
}

impl Said {
    /// Nothing yet. It takes no memory.
    pub fn new(alloc: Global) -> Said
        ensures { result ≡ record { text = []; lines = [] } }
    {
        Said {
            text: Vec::new(alloc),
            lines: Vec::new(alloc),
        }
    }

    /// Line `number` of the sheet says these lines, each with its line feed.
    pub fn say(&mut self, number: usize, piece: &[u8]) -> Result<(), AllocError>
        ensures { OnOk result (self.new ≡ says number piece.now self.old) }
    {
        self.text.extend_from_slice(piece)?;
        push_numbers(&mut self.lines, number, piece)
    }
}

/// Appends this number for each line of a piece of text.
fn push_numbers(lines: &mut Vec<usize>, number: usize, piece: &[u8]) -> Result<(), AllocError>
    ensures { OnOk result (lines.new.items ≡ lines.old.items ++ map (λ _. number) (lines_of piece.now)) }
{
    for _line in Lines::new(piece) {
        lines.push(number)?;
    }
    Ok(())
}

/// Appends a token and a blank.
pub fn push_token(text: &mut Vec<u8>, token: &[u8]) -> Result<(), AllocError>
    ensures { OnOk result (text.new.items ≡ text.old.items ++ with_blank token.now) }
{
    text.extend_from_slice(token)?;
    text.extend_from_slice(b" ")
}

/// Appends tokens as they stand.
#[tactic(auto, using(crate::proofs::RowSteps::plain_steps))]
fn push_tokens(text: &mut Vec<u8>, tokens: Tokens) -> Result<(), AllocError>
    ensures { OnOk result (text.new.items ≡ plain_from text.old.items (unread tokens.entry)) }
{
    for token in tokens {
        push_token(text, token)?;
    }
    Ok(())
}

/// A row of these tokens.
pub fn plain_row(alloc: Global, first: &[u8], tokens: Tokens) -> Result<Vec<u8>, AllocError>
    ensures { IfOk result (λ v. v.items ≡ plain_row first.now (unread tokens.entry)) }
{
    let mut text = Vec::new(alloc);
    push_token(&mut text, first)?;
    push_tokens(&mut text, tokens)?;
    text.extend_from_slice(b"\n")?;
    Ok(text)
}

/// Appends what a token says in a copy, and a blank.
fn push_said(
    text: &mut Vec<u8>,
    names: &Names,
    copy: Option<usize>,
    token: &[u8],
) -> Result<(), OrNoMemory<LineFault>>
    ensures { Leaves fault_in (token_said names.now copy text.old.items token.now) result text.new.items }
{
    let token = in_copy(*text.allocator(), copy, token)?;
    names.push_said(text, &token)?;
    text.extend_from_slice(b" ")?;
    Ok(())
}

/// Appends what tokens say in a copy.
#[tactic(auto, using(crate::proofs::RowSteps::said_steps))]
fn push_all_said(
    text: &mut Vec<u8>,
    names: &Names,
    copy: Option<usize>,
    tokens: Tokens,
) -> Result<(), OrNoMemory<LineFault>>
    ensures { Leaves fault_in (said_from names.now copy text.old.items (unread tokens.entry)) result text.new.items }
{
    for token in tokens {
        match push_said(text, names, copy, token) {
            Ok(()) => {}
            Err(OrNoMemory::Fault(kind)) => return Err(OrNoMemory::Fault(kind)),
            Err(OrNoMemory::NoMemory) => return Err(OrNoMemory::NoMemory),
        }
    }
    Ok(())
}

/// A row whose first token stands as it is, while the others may be abbreviations.
#[tactic(auto, unfolding(crate::specs::Texts::said_row))]
pub fn said_row(
    alloc: Global,
    names: &Names,
    copy: Option<usize>,
    first: &[u8],
    tokens: Tokens,
) -> Result<Vec<u8>, OrNoMemory<LineFault>>
    ensures { Answers fault_in (said_row names.now copy first.now (unread tokens.entry)) (result_map_both (λ v. v.items) (λ e. e) result) }
{
    let mut text = Vec::new(alloc);
    push_token(&mut text, first)?;
    push_all_said(&mut text, names, copy, tokens)?;
    text.extend_from_slice(b"\n")?;
    Ok(text)
}
