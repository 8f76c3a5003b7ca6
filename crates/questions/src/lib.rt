//! The questions of a sheet: conditions with names, that are asked of every state of a place, or of some.
//!
//! Promise: [`read_questioned`] is `questioned_of` the text: the object that a sheet says, the lines of its instructions and its
//! questions, or its fault. [`Questioned::read_condition`] is `asked_of` the program: what a condition says that stands apart from it.
//! [`tokens_read_on`] is `read_on` of a line: where on it a fault is.
//! Definitions: `specs/Questions` (what a question is), `Tokens`, `Scopes` (what tokens may name), `Sums` (values), `Levels` and
//! `Bodies` (a condition or a value, token by token), `Items` (names and questions, line by line), `Reading` (the whole),
//! `Conditions` (those that stand apart), `Places` (where a fault is).
#![tactic(auto)]

mod atom;
mod body;
mod condition;
mod item;
mod items;
mod level;
mod place;
mod question;
mod reading;
mod scope;
mod sum;
mod test;
mod token;

pub use body::MAX_DEPTH;
pub use item::MAX_TOKENS;
pub use items::MAX_QUESTIONS;
pub use place::tokens_read_on;
pub use question::{NamedQuestion, Place};
pub use reading::{Questioned, read_questioned};
pub use scope::Scope;
pub use sum::MAX_SIZE;
