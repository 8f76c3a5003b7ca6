//! What a line of a script says by itself.
ghost use Rattle.std.specs.Prelude.{◌≡◌};
ghost use Rattle.outcomes.specs.Calls.{TakesOff};
ghost use Rattle.text_tokens.specs.Text.{tokens_of};
ghost use Rattle.debug_scripts.specs.ReadRows.{Says};
ghost use Rattle.debug_scripts.specs.Rows.{command_at, command_on, given_on, number_at, row_of, stop_on, tokens_row, values_on, watch_on};

use crate::orders::Command;
use crate::piece::{before_comment, split_piece, split_value};
use lines_layout::{Layout, WordId};
use schedule::step_at;
use text_tokens::cursor::{expect_end, next_token};
use text_tokens::{Tokens, is_plain_line, number, small_number};

/// A line that is no line of a script.
#[derive(Clone, Copy, Debug, PartialEq, Eq)]
pub struct BadRow;

/// What a line says.
#[derive(Drop)]
pub enum ScriptRow<'a> {
    /// Nothing.
    Blank,
    /// A stop of this id, and the text of its condition.
    Stop(u32, &'a [u8]),
    /// A watch of this id, of a word.
    Watch(u32, WordId),
    /// The values of this word are asked; and the tokens of what is given.
    Ask(WordId, Tokens<'a>),
    /// A command.
    Do(Command),
}

/// NUMBER.
#[tactic(auto, unfolding(crate::specs::Rows::number_at))]
fn next_number(tokens: &mut Tokens) -> Result<u32, BadRow>
    ensures { TakesOff (number_at (tokens_of tokens.old.rest.now)) result (tokens_of tokens.new.rest.now) }
{
    let token = next_token(tokens, BadRow)?;
    small_number(token).ok_or(BadRow)
}

/// What comes after `stop`: ID CONDITION.
#[tactic(auto, unfolding(crate::specs::Rows::stop_on))]
fn stop_on<'a>(behind: &'a [u8]) -> Result<ScriptRow<'a>, BadRow>
    ensures { Says result (stop_on behind.now) }
{
    let (id, condition) = split_piece(behind);
    let id = small_number(id).ok_or(BadRow)?;
    Ok(ScriptRow::Stop(id, condition))
}

/// What comes after `watch`: ID NAME.
#[tactic(auto, unfolding(crate::specs::Rows::watch_on))]
fn watch_on<'a>(layout: &Layout, mut tokens: Tokens) -> Result<ScriptRow<'a>, BadRow>
    ensures { Says result (watch_on layout.now (tokens_of tokens.entry.rest.now)) }
{
    let id = next_number(&mut tokens)?;
    let name = next_token(&mut tokens, BadRow)?;
    let word = layout.word(name).ok_or(BadRow)?;
    expect_end(&mut tokens, BadRow)?;
    Ok(ScriptRow::Watch(id, word))
}

/// What comes after `values`: NAME, and what is given.
#[tactic(auto, unfolding(crate::specs::Rows::values_on))]
fn values_on<'a>(layout: &Layout, mut tokens: Tokens<'a>) -> Result<ScriptRow<'a>, BadRow>
    ensures { Says result (values_on layout.now (tokens_of tokens.entry.rest.now)) }
{
    let name = next_token(&mut tokens, BadRow)?;
    let word = layout.word(name).ok_or(BadRow)?;
    Ok(ScriptRow::Ask(word, tokens))
}

/// NAME=V: a word and a number.
#[tactic(auto, unfolding(crate::specs::Rows::given_on))]
pub(crate) fn given_on(layout: &Layout, token: &[u8]) -> Result<(WordId, u64), BadRow>
    ensures { result ≡ given_on layout.now token.now }
{
    let (name, value) = split_value(token);
    let word = layout.word(name).ok_or(BadRow)?;
    let value = number(value).ok_or(BadRow)?;
    Ok((word, value))
}

/// The command whose first token is `first`.
#[tactic(auto, unfolding(crate::specs::Rows::command_at))]
fn command_at(first: &[u8], tokens: &mut Tokens) -> Result<Command, BadRow>
    ensures { TakesOff (command_at first.now (tokens_of tokens.old.rest.now)) result (tokens_of tokens.new.rest.now) }
{
    if first == b"go".as_slice() {
        Ok(Command::Go)
    } else if first == b"continue".as_slice() {
        Ok(Command::Continue)
    } else if first == b"back".as_slice() {
        Ok(Command::Back(next_number(tokens)?))
    } else if first == b"show".as_slice() {
        Ok(Command::Show)
    } else if first == b"images".as_slice() {
        Ok(Command::Images)
    } else if first == b"disarm".as_slice() {
        Ok(Command::Disarm(next_number(tokens)?))
    } else if first == b"detach".as_slice() {
        Ok(Command::Detach(next_number(tokens)?))
    } else {
        match step_at(first, tokens) {
            Ok(step) => Ok(Command::Gather(step)),
            Err(_) => Err(BadRow),
        }
    }
}

/// The command that all tokens of a line say, of which `first` is the first.
#[tactic(auto, unfolding(crate::specs::Rows::command_on))]
fn command_on<'a>(first: &[u8], mut tokens: Tokens) -> Result<ScriptRow<'a>, BadRow>
    ensures { Says result (command_on first.now (tokens_of tokens.entry.rest.now)) }
{
    let command = command_at(first, &mut tokens)?;
    expect_end(&mut tokens, BadRow)?;
    Ok(ScriptRow::Do(command))
}

/// What the tokens of a line say that declares no stop.
#[tactic(auto, unfolding(crate::specs::Rows::tokens_row))]
fn tokens_row<'a>(layout: &Layout, line: &'a [u8]) -> Result<ScriptRow<'a>, BadRow>
    ensures { Says result (tokens_row layout.now (tokens_of line.now)) }
{
    let mut tokens = Tokens::new(line);
    let Some(first) = tokens.next() else {
        return Ok(ScriptRow::Blank);
    };
    if first == b"watch".as_slice() {
        watch_on(layout, tokens)
    } else if first == b"values".as_slice() {
        values_on(layout, tokens)
    } else {
        command_on(first, tokens)
    }
}

/// What a line says.
#[tactic(auto, unfolding(crate::specs::Rows::row_of))]
pub fn row_on<'a>(layout: &Layout, line: &'a [u8]) -> Result<ScriptRow<'a>, BadRow>
    ensures { Says result (row_of layout.now line.now) }
{
    if !is_plain_line(line) {
        return Err(BadRow);
    }
    let (first, behind) = split_piece(before_comment(line));
    if first == b"stop".as_slice() {
        stop_on(behind)
    } else {
        tokens_row(layout, line)
    }
}
