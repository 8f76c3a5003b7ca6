//! The text of a tally.
ghost use Rattle.std.specs.Prelude.{◌≡◌, ◌++◌, IfOk, OnOk, string_bytes};
ghost use Rattle.thread_jobs.specs.TallyReports.{outcome_text, processors_text, tally_text, word_text};
ghost use Rattle.thread_jobs.specs.TextReports.{tally_report};

use commands::{Named, Report, Status, push_named, push_registers};
use hunt::{Outcome, Tally, WordPair};
use lines_layout::Layout;
use std::alloc::{AllocError, Global};

/// Appends the registers of each processor that are not 0.
fn push_processors(text: &mut String, registers: &[[u64; 8]]) -> Result<(), AllocError>
    ensures { OnOk result (string_bytes text.new
        ≡ string_bytes text.old ++ processors_text 0 registers.now) }
{
    for (p, values) in registers.iter().enumerate() {
        push_registers(text, p, values)?;
    }
    Ok(())
}

/// The coherent and the persisted value beside a word's name.
struct Pairs;

impl Named<WordPair> for Pairs {
    ghost text_of = { word_text };

    fn push(text: &mut String, name: &str, pair: WordPair) -> Result<(), AllocError> {
        let WordPair {
            coherent,
            persisted,
        } = pair;
        write!(text, " {name}={coherent}/{persisted}")
    }
}

/// Appends the line of an outcome.
fn push_outcome(
    text: &mut String,
    layout: &Layout,
    outcome: &Outcome,
    count: u64,
) -> Result<(), AllocError>
    ensures { OnOk result (string_bytes text.new
        ≡ string_bytes text.old ++ outcome_text layout.now (outcome.now, count)) }
{
    write!(text, "outcome {count}")?;
    push_processors(text, outcome.registers())?;
    push_named::<WordPair, Pairs>(text, layout, outcome.words())?;
    text.push('\n')
}

/// Appends a line for each outcome of a tally, in their order.
fn push_tally(text: &mut String, layout: &Layout, tally: &Tally) -> Result<(), AllocError>
    ensures { OnOk result (string_bytes text.new
        ≡ string_bytes text.old ++ tally_text layout.now tally.now) }
{
    for place in 0..tally.len() {
        let (outcome, count) = tally.get(place).unwrap();
        push_outcome(text, layout, outcome, count)?;
    }
    Ok(())
}

/// The report of a tally. The tally is of a machine that was loaded from the layout, which names its words.
pub(crate) fn tally_report(
    alloc: Global,
    layout: &Layout,
    counted: &Tally,
) -> Result<Report, AllocError>
    ensures { IfOk result (λ report. report ≡ tally_report layout.now counted.now) }
{
    let mut text = String::new(alloc);
    push_tally(&mut text, layout, counted)?;
    Ok(Report {
        text: text.into_bytes(),
        status: Status::Done,
    })
}
