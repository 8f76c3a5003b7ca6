//! The lines after the line of a fault.
use crate::conditions_asked::{push_condition_fault, push_set_fault};
use crate::evidence::Evidence;
use crate::further::Further;
use crate::parts::{Pushed, again, push_sentence};
use crate::position::{Position, position_of};
use crate::program_faults::push_text_fault;
use crate::refused::push_refusal;
use crate::script_faults::{push_double_id, push_script_line_fault, push_stop_fault};
use crate::sentences::{refused_sentence, sentence};
use crate::sheet_faults::push_sheet_fault;
use crate::step_faults::push_step_fault;
use commands::{Fault, Refused, ScriptFault, Task, read_questions};
use images::CondFault;
use lines_layout::Layout;
use litmus_text::TextFault;
use questions::Questioned;
use sheets::is_sheet;
use std::alloc::{AllocError, Global};

/// What explains an answer.
#[derive(Drop)]
pub struct Explanation {
    /// The lines after the line of a fault, or after a report: the place, and the sentence.
    pub text: String,
    /// Where the fault is, if it is one of the program's text.
    pub position: Option<Position>,
    /// The faults of the text behind it, where they were looked for.
    pub further: Vec<Further>,
}

impl Explanation {
    /// Lines of no place in the program's text.
    pub fn of_lines(text: String) -> Explanation {
        let further = Vec::new(*text.allocator());
        Explanation {
            text,
            position: None,
            further,
        }
    }

    /// The last line, without the number that it begins with: what was expected, or what to do.
    pub fn hint(&self) -> &str {
        let text = self.text.as_str();
        let text = text.strip_suffix("\n").unwrap_or(text);
        let last = match text.rsplit_once('\n') {
            Some((_, last)) => last,
            None => text,
        };
        match last.split_once(": ") {
            Some((_, hint)) => hint,
            None => last,
        }
    }
}

/// What explains a fault.
///
/// # Errors
///
/// Out of memory.
pub fn explain(
    alloc: Global,
    evidence: &Evidence<'_>,
    fault: Fault,
) -> Result<Explanation, AllocError> {
    let mut text = String::new(alloc);
    push_explanation(&mut text, evidence, fault)?;
    let position = position_of(alloc, evidence.program, fault)?;
    Ok(Explanation {
        text,
        position,
        further: Vec::new(alloc),
    })
}

/// What `check` may do where there are too many states.
const FEWER_STATES: &str =
    "more states than `--states` says are told apart: check a case with fewer records, or `--before-crash` alone; give a higher `--states N`; or ask `hunt`, which samples: docs/GUIDE.md, section 6.";

/// What `check` may do where there are too many states, and `outcomes` may not: leave recovery out.
fn states_hint(asked: Task<'_>) -> &'static str {
    match asked {
        Task::Check(options) if !options.before_crash => FEWER_STATES,
        Task::Ask(options) if !options.before_crash => FEWER_STATES,
        _ => "",
    }
}

/// Appends the lines for values that are none of an image, or for a name that no question has.
fn push_usage(text: &mut String, layout: &Layout, asked: Task<'_>) -> Pushed {
    match asked {
        Task::Ask(_) => push_sentence(text, "usage: no question of the program has this name.", ""),
        _ => push_set_fault(text, layout),
    }
}

/// Appends the lines for a fault of what was asked of a program.
fn push_fault_on(
    text: &mut String,
    program: &Questioned,
    evidence: &Evidence<'_>,
    refused: Refused,
) -> Pushed {
    let sentence = refused_sentence(refused);
    let layout = program.lined.object.layout();
    match refused {
        Refused::Condition(fault) => {
            push_condition_fault(text, program, evidence.asked, fault, sentence)
        }
        Refused::Script(ScriptFault::Condition(CondFault::At(_, index))) => {
            push_stop_fault(text, layout, evidence.steps, index, sentence)
        }
        Refused::Script(ScriptFault::BadLine(number)) => {
            push_script_line_fault(text, layout, evidence.steps, number)
        }
        Refused::Usage => push_usage(text, layout, evidence.asked),
        _ => push_sentence(text, sentence, ""),
    }
}

/// Appends the lines for a fault of what was asked of the program: the sentence alone, where that has a fault.
fn push_fault_of_words(text: &mut String, evidence: &Evidence<'_>, refused: Refused) -> Pushed {
    match again(read_questions(*text.allocator(), evidence.program))? {
        Some(program) => push_fault_on(text, &program, evidence, refused),
        None => push_sentence(text, refused_sentence(refused), ""),
    }
}

/// Appends the lines after the line of a fault.
fn push_explanation(text: &mut String, evidence: &Evidence<'_>, fault: Fault) -> Pushed {
    let Fault::Refused(refused) = fault else {
        return push_sentence(text, sentence(fault), "");
    };
    match refused {
        Refused::Text(TextFault::At(kind, number)) if is_sheet(evidence.program) => {
            push_sheet_fault(text, evidence.program, kind, number)
        }
        Refused::Text(TextFault::At(kind, number)) => {
            push_text_fault(text, evidence.program, kind, number)
        }
        Refused::Condition(_)
        | Refused::Script(ScriptFault::Condition(_) | ScriptFault::BadLine(_))
        | Refused::Usage => push_fault_of_words(text, evidence, refused),
        Refused::TooManyStates => push_sentence(text, sentence(fault), states_hint(evidence.asked)),
        Refused::Steps(number) => push_step_fault(text, evidence.steps, number),
        Refused::Script(ScriptFault::DoubleId) => push_double_id(text, evidence.steps),
        Refused::Step(..) => push_refusal(text, evidence),
        _ => push_sentence(text, sentence(fault), ""),
    }
}
