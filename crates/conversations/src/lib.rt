//! The command `debug --interactive`: a conversation with a session of the debugger, at a terminal.
//!
//! Promise: [`converse`] reads the program, and then hears line after line, up to the end or to `quit`, and answers each before it
//! hears the next; what is asked of a script it answers as `debug` writes it (`laws::conversations_are_scripts`).
//! Definitions: `specs/Asking` (what a line asks), `LineFaults` and `HelpTexts` (what is printed where it asks nothing, and what
//! may be said), `Answered` (what is answered to it, and where that leads), `Desks` (what is kept of the lines that declared stops,
//! watches and breaks), `Breaks` (where breaks halt the steps that are made), `Eager` (which steps `run` and `finish` make),
//! `Reversing` (where `reverse` goes), `Checking` (what `check` asks of all runs, and what is answered), `Printed`, `Listed`,
//! `Changed` and `Imaged` (parts of answers), `Turning` (one turn, in its parts), `Conversing` (the whole command), and what the
//! laws state: `SameText`, `Staying`, `Crashing` (of `crash V ..`) and `Breaking` (of breaks).
#![tactic(auto)]

mod answering;
mod asked;
mod breaks;
mod changed;
mod checked;
mod command;
mod declaration;
mod desk;
mod eager;
mod heard;
mod help;
mod imaged;
pub mod laws;
mod line_fault;
mod listed;
mod moment;
mod own_words;
mod printed;
mod reversing;
mod turns;
mod waiting;

pub use asked::{Asked, Order};
pub use command::converse;
pub use help::Word;
pub use line_fault::LineFault;
pub use moment::Moment;
