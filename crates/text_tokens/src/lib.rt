//! What litmus texts and step lists are made of: the lines of a text, the tokens of a line, and the
//! numbers that tokens spell.
//!
//! A token is a piece of a line: one of `,` `[` `]` `:`, or a run of other characters. What memory
//! keeps is a word; no word is meant here.
//!
//! [`Lines`] and [`Tokens`] are seen as the bytes that are left. Promise: lines, tokens and numbers are `lines_of`,
//! `tokens_of` and `number_of` of the bytes.
//! Definitions: `specs/Text`, `Numbers`; `Cursors` (reading from left to right).
#![tactic(auto)]

pub mod cursor;
pub mod laws;
mod line;
mod numeral;
mod token;

pub use line::Lines;
pub use numeral::{begins_number, number, small_number};
pub use token::{Tokens, is_blank, is_plain_line, skip_blanks, split_token};
