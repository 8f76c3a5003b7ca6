//! What the abbreviations of a sheet stand for.
ghost use Rattle.std.specs.Prelude.{◌≡◌, ◌++◌, [], true, false, None, IfOk, Ok, Err, MatchOption, MatchResult};
ghost use Rattle.outcomes.specs.Calls.{Leaves};
ghost use Rattle.outcomes.specs.Faults.{fault_in};
ghost use Rattle.text_tokens.specs.Cursors.{Reads, unread};
ghost use Rattle.sheets.specs.Abbreviations.{begins_address, behind_first, constant_at, count_at, count_said, meant, number_said, plain_number, value_of};
ghost use Rattle.sheets.specs.Texts.{said_behind};

use crate::constant::{Constants, begins_constant, is_constant};
use crate::copy::push_decimal;
use lines_layout::Layout;
use litmus_text::LineFault;
use outcomes::OrNoMemory;
use std::alloc::{AllocError, Global};
use std::marker::Model;
use text_tokens::cursor::{expect_end, next_token};
use text_tokens::{Tokens, begins_number, number};

/// The words of a sheet so far, and its constants.
#[derive(Drop)]
pub struct Names {
    /// The words.
    pub layout: Layout,
    /// The constants.
    pub constants: Constants,
}

impl Model for Names {
    ghost use Rattle.sheets.specs.Abbreviations.{Names};

    ghost Value = { Names };

    ghost view = { λ n. record { layout = n.layout; constants = n.constants } };
}

/// The name in `&NAME`, if the token begins so.
fn addressed(token: &[u8]) -> Option<&[u8]>
    ensures { MatchOption result (begins_address token.now ≡ false) (λ name. (begins_address token.now ≡ true) × (name.now ≡ behind_first token.now)) }
{
    match token {
        [b'&', name @ ..] => Some(name),
        _ => None,
    }
}

/// The number that a token is.
#[tactic(auto, unfolding(crate::specs::Abbreviations::plain_number))]
fn plain_number(token: &[u8]) -> Result<u64, LineFault>
    ensures { result ≡ plain_number token.now }
{
    if !begins_number(token) {
        return Err(LineFault::BadWord);
    }
    number(token).ok_or(LineFault::BadNumber)
}

impl Names {
    /// No words and no constants. It takes no memory.
    pub fn new(alloc: Global) -> Names
        ensures { result ≡ record { layout = []; constants = [] } }
    {
        Names {
            layout: Layout::empty(alloc),
            constants: Constants::new(alloc),
        }
    }

    /// The number that an abbreviation stands for; none of a token that is no abbreviation.
    #[tactic(auto, unfolding(crate::specs::Abbreviations::meant))]
    pub fn meant(&self, token: &[u8]) -> Result<Option<u64>, LineFault>
        ensures { result ≡ meant self.now token.now }
    {
        if let Some(name) = addressed(token) {
            let word = self.layout.word(name).ok_or(LineFault::UnknownName)?;
            return Ok(Some(word.address()));
        }
        if begins_constant(token) {
            let value = self.constants.value(token).ok_or(LineFault::UnknownName)?;
            return Ok(Some(value));
        }
        Ok(None)
    }

    /// Appends what a token says.
    #[tactic(auto, unfolding(crate::specs::Abbreviations::said))]
    pub fn push_said(&self, text: &mut Vec<u8>, token: &[u8]) -> Result<(), OrNoMemory<LineFault>>
        ensures { Leaves fault_in (said_behind self.now text.old.items token.now) result text.new.items }
    {
        match self.meant(token)? {
            Some(number) => push_decimal(text, number)?,
            None => text.extend_from_slice(token)?,
        }
        Ok(())
    }

    /// The number that a token is, or stands for.
    #[tactic(auto, unfolding(crate::specs::Abbreviations::number_said))]
    pub fn number(&self, token: &[u8]) -> Result<u64, LineFault>
        ensures { result ≡ number_said self.now token.now }
    {
        match self.meant(token)? {
            Some(number) => Ok(number),
            None => plain_number(token),
        }
    }

    /// The same, from 1 to the most.
    #[tactic(auto, unfolding(crate::specs::Abbreviations::count_said))]
    pub fn count(&self, most: usize, token: &[u8]) -> Result<usize, LineFault>
        ensures value { result ≡ count_said self.now most token.now }
    {
        let number = self.number(token)?;
        if number == 0 || number > most as u64 {
            return Err(LineFault::BadNumber);
        }
        Ok(number as usize)
    }

    /// Reads `* N`, if it is there.
    #[tactic(auto, unfolding(crate::specs::Abbreviations::count_at))]
    pub fn next_count(&self, most: usize, tokens: &mut Tokens) -> Result<Option<usize>, LineFault>
        ensures { Reads (count_at self.now most) tokens.old result tokens.new }
    {
        let mut ahead = *tokens;
        match ahead.next() {
            Some(star) if star == b"*".as_slice() => {
                let token = next_token(&mut ahead, LineFault::BadWord)?;
                let count = self.count(most, token)?;
                *tokens = ahead;
                Ok(Some(count))
            }
            _ => Ok(None),
        }
    }

    /// The constant that the tokens behind `const` say, which is none so far, and its value.
    #[tactic(auto, unfolding(crate::specs::Abbreviations::constant_at))]
    pub fn constant<'a>(&self, mut tokens: Tokens<'a>) -> Result<(&'a [u8], u64), LineFault>
        ensures said { MatchResult result
            (λ c. constant_at self.now (unread tokens.entry) ≡ Ok (c.0.now, c.1))
            (λ kind. constant_at self.now (unread tokens.entry) ≡ Err kind) }
        ensures new { IfOk result (λ c. value_of self.now.constants c.0.now ≡ None) }
    {
        let name = next_token(&mut tokens, LineFault::BadWord)?;
        if !is_constant(name) || self.constants.value(name).is_some() {
            return Err(LineFault::BadName);
        }
        let token = next_token(&mut tokens, LineFault::BadWord)?;
        let value = self.number(token)?;
        expect_end(&mut tokens, LineFault::BadWord)?;
        Ok((name, value))
    }
}
