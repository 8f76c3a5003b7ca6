//! The forms of lines.
ghost use Rattle.std.specs.Prelude.{◌≡◌, ◌≤◌, length, map};
ghost use Rattle.std.specs.List.{list_any};
ghost use Rattle.line_forms.specs.Forms.{command_forms, instruction_forms, is_command, is_stop_line, program_forms, script_forms, script_name_index, step_forms, text_forms};
ghost use Rattle.line_forms.specs.Misfits.{fitting, forms_of, furthest};
ghost use Rattle.line_forms.specs.Slots.{spot_of};
ghost use Rattle.line_forms.specs.Places.{lines_above};
ghost use Rattle.text_tokens.specs.Text.{tokens_of};

use crate::slots::Slot::{
    Condition, Instruction, Label, LabelLine, Name, Number, Operand, Register, ShortNumber, Step,
    StepNumber, Word,
};
use crate::slots::{Slot, fits};
use crate::stages::{Stage, has_colon};
use text_tokens::{Lines, Tokens, split_token};

/// The form of a line, place by place.
pub(crate) type Form = &'static [Slot];

/// A comma.
const COMMA: Slot = Word(",");

/// What is before a name in brackets.
const OPEN: Slot = Word("[");

/// What is after it.
const CLOSE: Slot = Word("]");

/// What the locked instructions with two words begin with.
const LOCK: Slot = Word("lock");

/// The forms of instructions.
const INSTRUCTION_FORMS: &[Form] = &[
    &[Word("mov"), Register, COMMA, Number],
    &[Word("mov"), Register, COMMA, Register],
    &[Word("mov"), Register, COMMA, OPEN, Operand, CLOSE],
    &[Word("mov"), OPEN, Operand, CLOSE, COMMA, Register],
    &[Word("mov"), OPEN, Operand, CLOSE, COMMA, ShortNumber],
    &[Word("add"), Register, COMMA, ShortNumber],
    &[Word("cmp"), Register, COMMA, ShortNumber],
    &[Word("xchg"), OPEN, Operand, CLOSE, COMMA, Register],
    &[LOCK, Word("xadd"), OPEN, Operand, CLOSE, COMMA, Register],
    &[LOCK, Word("cmpxchg"), OPEN, Operand, CLOSE, COMMA, Register],
    &[Word("mfence")],
    &[Word("sfence")],
    &[Word("clflush"), OPEN, Operand, CLOSE],
    &[Word("clflushopt"), OPEN, Operand, CLOSE],
    &[Word("clwb"), OPEN, Operand, CLOSE],
    &[Word("jmp"), Label],
    &[Word("jz"), Label],
    &[Word("jnz"), Label],
    &[Word("nop")],
];

/// The form of a label line.
const LABEL_FORMS: &[Form] = &[&[Label, Word(":")]];

/// The form of the first line.
const OPENING_FORMS: &[Form] = &[&[Word("litmus"), Word("1")]];

/// The forms of lines before the first processor. The names of a cache line have faults of their own.
const DATA_FORMS: &[Form] = &[
    &[Word("line")],
    &[Word("init"), Name, Number],
    &[Word("cpu")],
];

/// The forms of lines of a main program.
const MAIN_FORMS: &[Form] = &[
    &[Instruction],
    &[LabelLine],
    &[Word("recover")],
    &[Word("end")],
];

/// The forms of lines of a recovery program.
const RECOVERY_FORMS: &[Form] = &[&[Instruction], &[LabelLine], &[Word("end")]];

/// The form of a line after a processor.
const BETWEEN_FORMS: &[Form] = &[&[Word("cpu")]];

/// The forms of steps.
const STEP_FORMS: &[Form] = &[
    &[Word("exec"), StepNumber],
    &[Word("drain"), StepNumber, StepNumber],
    &[Word("persist"), StepNumber],
    &[Word("settle")],
    &[Word("crash")],
];

/// The forms of a script's lines before its first command. What is given behind `values NAME` has a fault of its own.
const SCRIPT_FORMS: &[Form] = &[
    &[Word("stop"), StepNumber, Condition],
    &[Word("watch"), StepNumber, Name],
    &[Step],
    &[Word("go")],
    &[Word("continue")],
    &[Word("back"), StepNumber],
    &[Word("show")],
    &[Word("images")],
    &[Word("values"), Name],
    &[Word("disarm"), StepNumber],
    &[Word("detach"), StepNumber],
];

/// How many of the script's forms are declarations, which come before the commands.
const DECLARATIONS: usize = 2;

/// How many of the line's tokens from the first on fit the form.
#[tactic(auto, using(crate::proofs::FittingTokens::none_fit))]
pub(crate) fn fitting(line: &[u8], form: &[Slot]) -> usize
    ensures value { result ≡ fitting (map spot_of form.now) (tokens_of line.now) }
    ensures within { result ≤ length form.now }
{
    let mut tokens = Tokens::new(line);
    for (index, slot) in form.iter().enumerate() {
        let Some(token) = tokens.next() else {
            return index;
        };
        if !fits(*slot, token) {
            return index;
        }
    }
    form.len()
}

/// How many of the line's tokens from the first on fit the form that fits most of them.
pub(crate) fn furthest(line: &[u8], forms: &[Form]) -> usize
    ensures { result ≡ furthest (forms_of forms.now) (tokens_of line.now) }
{
    let mut most = 0;
    for form in forms {
        most = most.max(fitting(line, form));
    }
    most
}

/// The forms of instructions.
#[tactic(auto, unfolding(crate::specs::Forms::instruction_forms))]
fn instruction_forms() -> &'static [Form]
    ensures { forms_of result.now ≡ instruction_forms }
{
    INSTRUCTION_FORMS
}

/// The forms of a line of a program: of a label line, of instructions if it begins as one, otherwise these.
fn program_line_forms(line: &[u8], others: &'static [Form]) -> &'static [Form]
    ensures { forms_of result.now ≡ program_forms (forms_of others.now) (tokens_of line.now) }
{
    let instructions = instruction_forms();
    if has_colon(line) {
        LABEL_FORMS
    } else if 0 < furthest(line, instructions) {
        instructions
    } else {
        others
    }
}

/// The forms of a line of a litmus text at this stage.
#[tactic(auto, unfolding(crate::specs::Forms::text_forms))]
pub(crate) fn text_forms(stage: Stage, line: &[u8]) -> &'static [Form]
    ensures { forms_of result.now ≡ text_forms stage (tokens_of line.now) }
{
    match stage {
        Stage::Opening => OPENING_FORMS,
        Stage::Data => DATA_FORMS,
        Stage::Main => program_line_forms(line, MAIN_FORMS),
        Stage::Recovery => program_line_forms(line, RECOVERY_FORMS),
        Stage::Between => BETWEEN_FORMS,
    }
}

/// The forms of steps.
#[tactic(auto, unfolding(crate::specs::Forms::step_forms))]
pub(crate) fn step_forms() -> &'static [Form]
    ensures { forms_of result.now ≡ step_forms }
{
    STEP_FORMS
}

/// The forms of a script's lines that are commands.
#[tactic(auto, unfolding(crate::specs::Forms::command_forms))]
fn command_forms() -> &'static [Form]
    ensures { forms_of result.now ≡ command_forms }
{
    let (_, commands) = SCRIPT_FORMS.split_at(DECLARATIONS);
    commands
}

/// The forms of a line of a script, before or after its first command.
#[tactic(auto, unfolding(crate::specs::Forms::script_forms, crate::specs::Forms::command_forms))]
pub(crate) fn script_forms(line: &[u8], commands_begun: bool) -> &'static [Form]
    ensures { forms_of result.now ≡ script_forms commands_begun (tokens_of line.now) }
{
    let steps = step_forms();
    if 0 < furthest(line, steps) {
        steps
    } else if commands_begun {
        command_forms()
    } else {
        SCRIPT_FORMS
    }
}

/// Whether the line declares a stop: its first piece is `stop`, where blanks alone separate the pieces.
pub(crate) fn is_stop(line: &[u8]) -> bool
    ensures { result ≡ is_stop_line line.now }
{
    match split_token(b"", b"#", line) {
        Some((first, _)) => first == b"stop".as_slice(),
        None => false,
    }
}

/// The index of the name on a line of a script that is of a form with one: behind `watch` and an id, or behind `values`.
pub(crate) fn name_index(line: &[u8]) -> usize
    ensures { result ≡ script_name_index (tokens_of line.now) }
{
    match Tokens::new(line).next() {
        Some(first) => { if first == b"watch".as_slice() { 2 } else { 1 } }
        None => 1,
    }
}

/// Whether the line has tokens, and declares no stop and no watch.
fn is_command(line: &[u8]) -> bool
    ensures { result ≡ is_command line.now }
{
    match Tokens::new(line).next() {
        Some(first) => !is_stop(line) && first != b"watch".as_slice(),
        None => false,
    }
}

/// Whether a line of a script before the line of this number, from 1, is a command. The lines before it have no fault.
pub fn commands_begun(text: &[u8], number: usize) -> bool
    ensures { result ≡ list_any is_command (lines_above text.now number) }
{
    Lines::new(text)
        .take(number.saturating_sub(1))
        .any(|line| is_command(line))
}
