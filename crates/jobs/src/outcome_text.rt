//! The text of outcomes.
ghost use Rattle.std.specs.Prelude.{◌≡◌, ◌++◌, OnOk, string_bytes};
ghost use Rattle.jobs.specs.OutcomeReports.{numbers_text, outcome_text, outcomes_text, processor_text, trap_text, word_text};

use commands::{Named, behind, number_at, push_named, push_registers};
use explore::Numbers;
use lines_layout::Layout;
use std::alloc::AllocError;

/// How many numbers an outcome has of each processor: those of its trap, and its registers.
const PROCESSOR_NUMBERS: usize = 10;

/// How many of them are of its trap: whether there is one, and its address.
const TRAP_NUMBERS: usize = 2;

/// Appends where processor `p` is trapped, if it is.
fn push_trap(text: &mut String, p: usize, trapped: u64, address: u64) -> Result<(), AllocError>
    ensures { OnOk result (string_bytes text.new ≡ string_bytes text.old ++ trap_text p trapped address) }
{
    if trapped == 0 {
        return Ok(());
    }
    write!(text, " {p}:trap={address}")
}

/// Appends processor `p`, whose numbers are the first of these.
fn push_processor(text: &mut String, p: usize, numbers: &[u64]) -> Result<(), AllocError>
    ensures { OnOk result (string_bytes text.new ≡ string_bytes text.old ++ processor_text p numbers.now) }
{
    push_trap(text, p, number_at(numbers, 0), number_at(numbers, 1))?;
    push_registers(text, p, behind(numbers, TRAP_NUMBERS))
}

/// The value beside a word's name.
struct Values;

impl Named<u64> for Values {
    ghost text_of = { word_text };

    fn push(text: &mut String, name: &str, value: u64) -> Result<(), AllocError> {
        write!(text, " {name}={value}")
    }
}

/// Appends an outcome of so many processors: each of them, and each word.
fn push_numbers(
    text: &mut String,
    layout: &Layout,
    processors: usize,
    numbers: &[u64],
) -> Result<(), AllocError>
    ensures { OnOk result (string_bytes text.new ≡ string_bytes text.old ++ numbers_text layout.now processors 0 numbers.now) }
{
    let mut rest = numbers;
    for p in 0..processors {
        push_processor(text, p, rest)?;
        rest = behind(rest, PROCESSOR_NUMBERS);
    }
    push_named::<u64, Values>(text, layout, rest)
}

/// Appends the line of an outcome.
fn push_outcome(
    text: &mut String,
    layout: &Layout,
    processors: usize,
    outcome: &Numbers,
) -> Result<(), AllocError>
    ensures { OnOk result (string_bytes text.new ≡ string_bytes text.old ++ outcome_text layout.now processors outcome.now) }
{
    text.push_str("outcome")?;
    push_numbers(text, layout, processors, outcome.values())?;
    text.push('\n')
}

/// Appends a line for each outcome, and how many there are.
pub(crate) fn push_outcomes(
    text: &mut String,
    layout: &Layout,
    processors: usize,
    outcomes: &[Numbers],
) -> Result<(), AllocError>
    ensures { OnOk result (string_bytes text.new ≡ string_bytes text.old ++ outcomes_text layout.now processors outcomes.now) }
{
    for outcome in outcomes {
        push_outcome(text, layout, processors, outcome)?;
    }
    writeln!(text, "outcomes {}", outcomes.len())
}
