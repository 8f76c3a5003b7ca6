//! Conversations at a terminal: a line is heard, it is answered at once, and only then is the next one heard.
//!
//! A [`Terminal`] is read byte by byte, and written to. What went on at it, and in which order, is a relation between two of its
//! values (`went`). [`Console`] makes a terminal of a reader and a writer.
//!
//! Promise: [`hear_line`] reads up to the line feed, and no byte behind it; [`say`] writes a text whole, or fails.
//! Definitions: `specs/Events` (what goes on), `Hearing` (a line), `Conversations` (whole conversations, with any partner),
//! `Consoles` (what goes on at a reader and a writer).
#![tactic(auto)]

mod console;
mod fault;
mod line;
mod telling;
mod terminal;
mod write_all;

pub use console::Console;
pub use fault::TalkFault;
pub use line::{Line, hear_line, is_nothing};
pub use telling::say;
pub use terminal::Terminal;
