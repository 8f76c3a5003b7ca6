//! On which line of its text an instruction stands.
ghost use Rattle.std.specs.Prelude.{◌≡◌, None, Some, IfOk, map};
ghost use Rattle.litmus_text.specs.TextLines.{line_at, line_numbered, lines_in, programs_numbered, renumbered};

use isa::Object;
use std::alloc::{AllocError, Global};
use std::marker::Model;

/// The lines on which the instructions of a processor's two programs stand, in order. Lines are counted from 1.
#[derive(Debug, Drop)]
pub struct ProgramLines {
    /// Those of the main program: the line at a place is that of the instruction at this place.
    pub main: Vec<usize>,
    /// Those of the recovery program; none if there is no such program.
    pub recovery: Vec<usize>,
}

impl Model for ProgramLines {
    ghost use Rattle.litmus_text.specs.SourceLines.{ProgramLines};

    ghost Value = { ProgramLines };

    ghost view = { λ p. record { main = p.main.items; recovery = p.recovery.items } };
}

/// The lines on which a program's instructions stand; none where there is no text, as of an object file.
#[derive(Drop)]
pub struct TextLines {
    processors: Option<Vec<ProgramLines>>,
}

impl Model for TextLines {
    ghost use Rattle.std.specs.Prelude.{option_map};
    ghost use Rattle.litmus_text.specs.TextLines.{TextLines};

    ghost Value = { TextLines };

    ghost view = { λ t. option_map (λ v. v.items) t.processors };
}

/// What a program file says, and on which lines.
#[derive(Drop)]
pub struct LinedObject {
    /// What it says.
    pub object: Object,
    /// The lines of its instructions.
    pub lines: TextLines,
}

/// Those of one of the two programs of a processor.
fn lines_in(lines: &ProgramLines, recovery: bool) -> &[usize]
    ensures { result.now ≡ lines_in recovery lines.now }
{
    if recovery {
        &lines.recovery
    } else {
        &lines.main
    }
}

/// The line that stands for this one of a text that was made of another: `numbers` has that of each line, counted from 1.
/// A line that is not among them stands for itself.
pub fn line_numbered(numbers: &[usize], line: usize) -> usize
    ensures { result ≡ line_numbered numbers.now line }
{
    match numbers.get(line.saturating_sub(1)) {
        Some(number) => *number,
        None => line,
    }
}

/// The lines that stand for these.
fn numbered(alloc: Global, numbers: &[usize], lines: &[usize]) -> Result<Vec<usize>, AllocError>
    ensures { IfOk result (λ v. v.items ≡ map (line_numbered numbers.now) lines.now) }
{
    let mut found = Vec::with_capacity(alloc, lines.len())?;
    for line in lines {
        found.push(line_numbered(numbers, *line))?;
    }
    Ok(found)
}

/// The same of each line of these processors.
fn all_numbered(
    alloc: Global,
    numbers: &[usize],
    processors: &[ProgramLines],
) -> Result<Vec<ProgramLines>, AllocError>
    ensures { IfOk result (λ v. v.items ≡ map (programs_numbered numbers.now) processors.now) }
{
    let mut found = Vec::with_capacity(alloc, processors.len())?;
    for lines in processors {
        found.push(ProgramLines {
            main: numbered(alloc, numbers, &lines.main)?,
            recovery: numbered(alloc, numbers, &lines.recovery)?,
        })?;
    }
    Ok(found)
}

impl TextLines {
    /// Where there is no text. It takes no memory.
    pub fn none() -> TextLines
        ensures { result ≡ None }
    {
        TextLines { processors: None }
    }

    /// Those that were found in a text.
    pub(crate) fn found(processors: Vec<ProgramLines>) -> TextLines
        ensures { result ≡ Some processors.items }
    {
        TextLines {
            processors: Some(processors),
        }
    }

    /// The same lines, of a text that was made of another: for each the line that stands for it ([`line_numbered`]).
    pub fn renumbered(&self, alloc: Global, numbers: &[usize]) -> Result<TextLines, AllocError>
        ensures { IfOk result (λ lines. lines ≡ renumbered numbers.now self.now) }
    {
        match &self.processors {
            Some(processors) => Ok(TextLines::found(all_numbered(alloc, numbers, processors)?)),
            None => Ok(TextLines::none()),
        }
    }

    /// The line of the instruction at a place of a program of processor `p`, counted from 1. None where there is no
    /// instruction, or no text.
    pub fn line_at(&self, p: usize, recovery: bool, place: usize) -> Option<u64>
        ensures { result ≡ line_at self.now p recovery place }
    {
        let processors = self.processors.as_ref()?;
        let lines = processors.get(p)?;
        let line = lines_in(lines, recovery).get(place)?;
        Some(*line as u64)
    }
}
