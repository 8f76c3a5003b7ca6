//! Reading a sheet with its questions.
ghost use Rattle.std.specs.Prelude.{◌≡◌};
ghost use Rattle.outcomes.specs.Calls.{Answers};
ghost use Rattle.outcomes.specs.Faults.{fault_in};
ghost use Rattle.questions.specs.Reading.{questioned_of};

use crate::items::read_items;
use crate::question::NamedQuestion;
use crate::scope::Scope;
use litmus_text::{LinedObject, TextFault};
use outcomes::OrNoMemory;
use sheets::{SheetRead, read_sheet};
use std::alloc::Global;
use std::marker::Model;

/// What a program says, with its questions.
#[derive(Drop)]
pub struct Questioned {
    /// The object, and the lines on which its instructions stand.
    pub lined: LinedObject,
    /// Its questions, in the order of their lines.
    pub questions: Vec<NamedQuestion>,
    /// What a condition of it may name, where it is a sheet.
    pub scope: Option<Scope>,
}

impl Model for Questioned {
    ghost use Rattle.conditions.specs.FormulaCodes.{coded_formula};
    ghost use Rattle.conditions.specs.TermCodes.{coded_term};
    ghost use Rattle.std.specs.Coded.{codes};
    ghost use Rattle.questions.specs.Questions.{Questioned};

    ghost Value = { Questioned };

    ghost coded = { Prim.hlevel (codes, coded_formula, coded_term) };

    ghost view = { λ q. record { lined = q.lined; questions = q.questions.items; scope = q.scope } };
}

/// What a sheet says, with its questions.
///
/// # Errors
///
/// The fault of the program; the first fault of its questions; or that memory ran out.
#[tactic(auto, using(crate::proofs::FirstLines::first_line_within))]
pub fn read_questioned(alloc: Global, text: &[u8]) -> Result<Questioned, OrNoMemory<TextFault>>
    ensures { Answers fault_in (questioned_of text.now) result }
{
    let sheet = read_sheet(alloc, text)?;
    let SheetRead {
        lined,
        names,
        items,
    } = sheet;
    let scope = Scope {
        names,
        processors: lined.object.processors().len(),
        entries: Vec::new(alloc),
    };
    match read_items(alloc, scope, items.first, &items.rows) {
        Ok(items) => {
            let (questions, scope) = items.into_parts();
            Ok(Questioned {
                lined,
                questions,
                scope: Some(scope),
            })
        }
        Err(error) => {
            drop(lined);
            Err(error)
        }
    }
}
