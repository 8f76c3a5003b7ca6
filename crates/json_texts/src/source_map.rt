//! The lines of a program's text, and what names its words.
use lines_layout::Layout;
use litmus_text::TextLines;
use std::marker::Model;

/// What a report says of a program beside its state: the names of the words, and the lines of the instructions.
#[derive(Drop)]
pub struct SourceMap<'a> {
    /// It names the words.
    pub layout: &'a Layout,
    /// The lines of the instructions.
    pub lines: &'a TextLines,
}

impl<'a> Model for SourceMap<'a> {
    ghost use Rattle.json_texts.specs.SourceMaps.{SourceMap};

    ghost Value = { SourceMap };

    ghost view = { λ s. record { names = s.layout.now; lines = s.lines.now } };
}
