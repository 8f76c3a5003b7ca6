//! Where a fault of a sheet's items is.
ghost use Rattle.std.specs.Prelude.{◌≡◌, ◌^◌, ◌≤◌, IfOk, length};
ghost use Rattle.outcomes.specs.Calls.{Answers};
ghost use Rattle.outcomes.specs.Faults.{fault_in};
ghost use Rattle.text_tokens.specs.Text.{lines_of};
ghost use Rattle.questions.specs.Places.{others_read, read_among, read_on, tokens_read};
ghost use Rattle.questions.specs.Tokens.{item_tokens};

use crate::items::Items;
use crate::scope::Scope;
use crate::token::ItemTokens;
use litmus_text::TextFault;
use outcomes::OrNoMemory;
use sheets::{SheetRead, read_sheet};
use std::alloc::{AllocError, Global};
use text_tokens::Lines;

/// How many tokens behind the first of line `number` are read before one that has a fault.
#[tactic(auto, using(crate::proofs::PlaceSteps::token_steps))]
fn others_read(
    alloc: Global,
    items: &mut Items,
    number: usize,
    tokens: ItemTokens,
) -> Result<usize, AllocError>
    ensures value { IfOk result (λ read. read ≡ others_read number items.old (item_tokens tokens.entry.rest.now)) }
    ensures few { IfOk result (λ read. read ≤ length (item_tokens tokens.entry.rest.now)) }
{
    let mut read = 0;
    for token in tokens {
        match items.read_token(alloc, number, token) {
            Ok(()) => read += 1,
            Err(OrNoMemory::Fault(_)) => return Ok(read),
            Err(OrNoMemory::NoMemory) => return Err(AllocError),
        }
    }
    Ok(read)
}

/// How many tokens of line `number` are.
#[tactic(auto, using(crate::proofs::PlaceSteps::few_tokens), unfolding(crate::specs::Places::tokens_read))]
fn tokens_read(
    alloc: Global,
    items: &mut Items,
    number: usize,
    line: &[u8],
) -> Result<usize, AllocError>
    ensures { IfOk result (λ read. read ≡ tokens_read number items.old (item_tokens line.now)) }
{
    let mut tokens = ItemTokens::new(line);
    let Some(first) = tokens.next() else {
        return Ok(0);
    };
    match items.read_first(alloc, number, first) {
        Ok(()) => Ok(1 + others_read(alloc, items, number, tokens)?),
        Err(OrNoMemory::Fault(_)) => Ok(0),
        Err(OrNoMemory::NoMemory) => Err(AllocError),
    }
}

/// The same of line `number`, of lines of which the first has the number `first`.
#[tactic(auto, using(crate::proofs::PlaceSteps::line_steps))]
fn read_among(
    alloc: Global,
    items: &mut Items,
    number: usize,
    first: usize,
    rows: &[u8],
) -> Result<usize, OrNoMemory<TextFault>>
    requires { first ≤ 2 ^ 63 }
    ensures { Answers fault_in (read_among number first items.old (lines_of rows.now)) result }
{
    let mut at = first;
    for line in Lines::new(rows) {
        if at == number {
            return Ok(tokens_read(alloc, items, at, line)?);
        }
        match items.read_line(alloc, at, line) {
            Ok(()) => {}
            Err(OrNoMemory::Fault(fault)) => return Err(OrNoMemory::Fault(fault)),
            Err(OrNoMemory::NoMemory) => return Err(OrNoMemory::NoMemory),
        }
        at += 1;
    }
    Ok(0)
}

/// How many tokens of this line of a sheet, from 1, are read before one that has a fault: all, where its item ends too soon.
/// Tokens are counted as those of items; of a line before the first item none is.
///
/// # Errors
///
/// The fault of the program; of a line of its items before this one; or that memory ran out.
#[tactic(auto, using(crate::proofs::FirstLines::first_line_within))]
pub fn tokens_read_on(
    alloc: Global,
    text: &[u8],
    number: usize,
) -> Result<usize, OrNoMemory<TextFault>>
    ensures { Answers fault_in (read_on number text.now) result }
{
    let SheetRead {
        lined,
        names,
        items,
    } = read_sheet(alloc, text)?;
    let scope = Scope {
        names,
        processors: lined.object.processors().len(),
        entries: Vec::new(alloc),
    };
    drop(lined);
    let mut read = Items::new(alloc, scope);
    let counted = read_among(alloc, &mut read, number, items.first, &items.rows);
    drop(read);
    counted
}
