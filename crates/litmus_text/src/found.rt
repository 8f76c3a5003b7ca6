//! The lines of instructions, as far as a text was gone through.
ghost use Rattle.std.specs.Prelude.{◌≡◌, OnOk};
ghost use Rattle.litmus_text.specs.Drafts.{FindsLine};
ghost use Rattle.litmus_text.specs.SourceLines.{ended, nothing_found, program_row_found, recovery_begun, row_found};

use crate::draft::{LineTokens, is_label_line};
use crate::text_lines::ProgramLines;
use std::alloc::{AllocError, Global};
use std::marker::Model;
use std::mem;

/// Where a line of a text is.
#[derive(Clone, Copy, Debug, PartialEq, Eq)]
pub enum Part {
    /// In no program.
    Outside,
    /// In the main program of a processor.
    Main,
    /// In the recovery program of a processor.
    Recovery,
}

/// The lines of instructions that were found so far.
#[derive(Drop)]
pub struct Found {
    part: Part,
    processors: Vec<ProgramLines>,
    main: Vec<usize>,
    lines: Vec<usize>,
}

impl Model for Found {
    ghost use Rattle.litmus_text.specs.SourceLines.{Found};

    ghost Value = { Found };

    ghost view = { λ f. record {
      part = f.part;
      processors = f.processors.items;
      main = f.main.items;
      lines = f.lines.items;
    } };
}

impl Found {
    /// Before the first line. It takes no memory.
    pub fn new(alloc: Global) -> Found
        ensures { result ≡ nothing_found }
    {
        Found {
            part: Part::Outside,
            processors: Vec::new(alloc),
            main: Vec::new(alloc),
            lines: Vec::new(alloc),
        }
    }

    /// The lines of the processors that have ended.
    pub fn into_processors(self) -> Vec<ProgramLines>
        ensures { result.items ≡ self.processors }
    {
        self.processors
    }

    /// Goes through a line that has tokens.
    #[tactic(auto, unfolding(crate::specs::SourceLines::row_found))]
    pub fn read_row(&mut self, line: LineTokens) -> Result<(), AllocError>
        ensures { OnOk result (FindsLine (row_found self.old.part) self.old line.entry self.new) }
    {
        match self.part {
            Part::Outside => {
                if line.first == b"cpu".as_slice() {
                    self.part = Part::Main;
                }
                Ok(())
            }
            Part::Main if !is_label_line(&line.others) && line.first == b"recover".as_slice() => {
                self.begin_recovery();
                Ok(())
            }
            Part::Main | Part::Recovery => self.read_program_row(line),
        }
    }

    /// Goes through a line of a program.
    #[tactic(auto, unfolding(crate::specs::SourceLines::program_row_found))]
    fn read_program_row(&mut self, line: LineTokens) -> Result<(), AllocError>
        ensures { OnOk result (FindsLine program_row_found self.old line.entry self.new) }
    {
        if is_label_line(&line.others) {
            Ok(())
        } else if line.first == b"end".as_slice() {
            self.end_processor()
        } else {
            self.lines.push(line.number)?;
            Ok(())
        }
    }

    /// The main program ends, and a recovery program begins.
    fn begin_recovery(&mut self)
        ensures { self.new ≡ recovery_begun self.old }
    {
        let alloc = *self.lines.allocator();
        self.main = mem::replace(&mut self.lines, Vec::new(alloc));
        self.part = Part::Recovery;
    }

    /// A processor ends.
    fn end_processor(&mut self) -> Result<(), AllocError>
        ensures { OnOk result (self.new ≡ ended self.old) }
    {
        let alloc = *self.lines.allocator();
        let lines = mem::replace(&mut self.lines, Vec::new(alloc));
        let main = mem::replace(&mut self.main, Vec::new(alloc));
        let programs = if self.part == Part::Recovery {
            ProgramLines {
                main,
                recovery: lines,
            }
        } else {
            ProgramLines {
                main: lines,
                recovery: Vec::new(alloc),
            }
        };
        self.processors.push(programs)?;
        self.part = Part::Outside;
        Ok(())
    }
}
