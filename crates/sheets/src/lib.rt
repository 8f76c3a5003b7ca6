//! Sheets: litmus texts with abbreviations. A sheet says the lines of a litmus text, which is read as such texts are.
//!
//! Promise: [`is_sheet`] tells a sheet by its first line with tokens; [`read_sheet`] is `sheet_of` the text: the object that it says
//! and the lines of its instructions, or its fault, each told by the lines of the sheet. [`said_by`] is the litmus text that it says,
//! line by line. Questions stand behind the program: they are kept as they are ([`Items`]), and another crate reads them.
//! Definitions: `specs/Abbreviations` (what a token says), `Texts` (the litmus text that is said, row by row), `Words` (the words of
//! `line`, the values of `init`), `Sheets` (what the lines say, one after another), `Reading` (the whole).
#![tactic(auto)]

mod block;
mod constant;
mod copy;
mod items;
pub mod laws;
mod names;
mod reading;
mod said;
mod sheet;
mod words;

pub use items::Items;
pub use names::Names;
pub use reading::{SheetRead, is_sheet, read_sheet, said_by};
pub use said::Said;
