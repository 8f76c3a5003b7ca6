//! The text of what a hunt found.
ghost use Rattle.std.specs.Prelude.{◌≡◌, ◌++◌, [], IfOk, OnOk, if◌then◌else◌, option_copied, string_bytes};
ghost use Rattle.thread_jobs.specs.HuntReports.{asks_steps, behind_least, breach_text, crash_text, ends_word, explained, explains_image, explanation, found_report, found_text, least_text, none_report, none_status, none_text, shown_text, whole_text};

use crate::ends_text::push_ended;
use crate::found::{Found, steps_found, steps_to};
use crate::start::HuntStart;
use commands::{
    Demand, HuntOptions, Report, Status, image_explained, push_candidates, push_image,
    push_names_shown,
};
use hunt::{Breach, Moment};
use images::{Count, Image};
use lines_layout::Layout;
use schedule::write_steps;
use std::alloc::{AllocError, Global};

/// Whether the steps of the schedule that was found are asked for.
fn asks_steps(options: &HuntOptions<'_>) -> bool
    ensures { result ≡ asks_steps options.now }
{
    options.show || options.as_steps
}

/// Appends what breaks the condition, an image below the names of the words where they are asked for.
fn push_breach(
    text: &mut String,
    named: bool,
    layout: &Layout,
    breach: &Breach,
) -> Result<(), AllocError>
    ensures { OnOk result (string_bytes text.new
        ≡ string_bytes text.old ++ breach_text named layout.now breach.now) }
{
    match breach {
        Breach::Leaves(image) => {
            push_names_shown(text, named, layout)?;
            push_image(text, image)
        }
        Breach::TooMany => push_candidates(text, Count::More),
    }
}

/// Appends the turn after which a crash may leave what breaks the condition, where that is asked, and what does.
fn push_crash(
    text: &mut String,
    named: bool,
    layout: &Layout,
    found: &Found,
) -> Result<(), AllocError>
    ensures { OnOk result (string_bytes text.new
        ≡ string_bytes text.old ++ crash_text named layout.now found.now.at.turn found.now.breach) }
{
    let Some(breach) = &found.breach else {
        return Ok(());
    };
    writeln!(text, "turn {}", found.at.turn)?;
    push_breach(text, named, layout, breach)
}

/// Appends the number of the schedule that was found, and what is told of its turn.
fn push_least(
    text: &mut String,
    named: bool,
    layout: &Layout,
    found: &Found,
) -> Result<(), AllocError>
    ensures { OnOk result (string_bytes text.new
        ≡ string_bytes text.old ++ least_text named layout.now found.now) }
{
    writeln!(text, "least {}", found.at.number)?;
    push_crash(text, named, layout, found)
}

/// What is shown of the schedule that was found: its steps up to the turn, where they are asked for.
fn shown_text(
    alloc: Global,
    options: &HuntOptions<'_>,
    start: &HuntStart,
    at: Moment,
) -> Result<String, AllocError>
    ensures { IfOk result (λ text. string_bytes text ≡ shown_text options.now start.now at) }
{
    if !asks_steps(options) {
        return Ok(String::new(alloc));
    }
    let steps = steps_found(alloc, start, at)?;
    write_steps(alloc, &steps)
}

/// Whether an image that was found is explained. It is not where the steps alone are reported.
pub fn explains_image(options: &HuntOptions<'_>) -> bool
    ensures { result ≡ explains_image options.now }
{
    options.explains_image && !options.as_steps
}

/// Which writes are missing in the image that breaks the condition, and why each may be.
fn explanation(
    alloc: Global,
    start: &HuntStart,
    at: Moment,
    image: &Image,
) -> Result<String, AllocError>
    ensures { IfOk result (λ text. string_bytes text ≡ explanation start.now at image.now) }
{
    let steps = steps_to(alloc, start, at)?;
    image_explained(alloc, &start.object, &start.lines, &steps, image)
}

/// The same, where it is an image and this is asked for.
fn explained(
    alloc: Global,
    options: &HuntOptions<'_>,
    start: &HuntStart,
    found: &Found,
) -> Result<String, AllocError>
    ensures { IfOk result (λ text. string_bytes text ≡ explained options.now start.now found.now) }
{
    match &found.breach {
        Some(Breach::Leaves(image)) if explains_image(options) => {
            explanation(alloc, start, found.at, image)
        }
        _ => Ok(String::new(alloc)),
    }
}

/// What is shown of a schedule, and what explains the image.
fn behind_least(
    alloc: Global,
    options: &HuntOptions<'_>,
    start: &HuntStart,
    found: &Found,
) -> Result<String, AllocError>
    ensures { IfOk result (λ text. string_bytes text ≡ behind_least options.now start.now found.now) }
{
    let mut text = shown_text(alloc, options, start, found.at)?;
    let explained = explained(alloc, options, start, found)?;
    text.push_str(&explained)?;
    Ok(text)
}

/// What is told of a schedule that was found, and what is behind it.
fn whole_text(
    alloc: Global,
    options: &HuntOptions<'_>,
    start: &HuntStart,
    found: &Found,
) -> Result<String, AllocError>
    ensures { IfOk result (λ text. string_bytes text ≡ whole_text options.now start.now found.now) }
{
    let behind = behind_least(alloc, options, start, found)?;
    let mut text = String::new(alloc);
    push_least(&mut text, options.names, start.object.layout(), found)?;
    text.push_str(&behind)?;
    Ok(text)
}

/// The text for a schedule that was found.
fn found_text(
    alloc: Global,
    options: &HuntOptions<'_>,
    start: &HuntStart,
    found: &Found,
) -> Result<String, AllocError>
    ensures { IfOk result (λ text. string_bytes text ≡ found_text options.now start.now found.now) }
{
    if options.as_steps {
        return shown_text(alloc, options, start, found.at);
    }
    whole_text(alloc, options, start, found)
}

/// The word of the option that asks for ends.
fn ends_word(demand: Demand<'_>) -> &'static str
    ensures { result.now ≡ ends_word demand.entry }
{
    match demand {
        Demand::Recovered(_) => "recovered",
        Demand::Ends(_) | Demand::Cond(_) | Demand::All(_) => "ends",
    }
}

/// Appends what is said where nothing was found, by how many schedules come to an end, where ends are asked.
fn push_none(
    text: &mut String,
    demand: Demand<'_>,
    runs: u64,
    ended: Option<u64>,
) -> Result<(), AllocError>
    ensures { OnOk result (string_bytes text.new
        ≡ string_bytes text.old ++ none_text demand.entry runs ended) }
{
    match ended {
        None => text.push_str("none\n"),
        Some(0) => writeln!(text, "{} asked of no state", ends_word(demand)),
        Some(ended) => {
            text.push_str("none\n")?;
            push_ended(text, runs, ended)
        }
    }
}

/// The status where nothing was found: `Unmet` where ends are asked, and no schedule comes to one.
pub fn none_status(ended: Option<u64>) -> Status
    ensures { result ≡ none_status ended }
{
    match ended {
        Some(0) => Status::Unmet,
        Some(_) | None => Status::Done,
    }
}

/// The text where nothing was found: there are no steps.
fn none_text(
    alloc: Global,
    options: &HuntOptions<'_>,
    runs: u64,
    ended: Option<u64>,
) -> Result<String, AllocError>
    ensures { IfOk result (λ text. string_bytes text
        ≡ (if options.now.as_steps then [] else none_text options.now.demand runs ended)) }
{
    let mut text = String::new(alloc);
    if !options.as_steps {
        push_none(&mut text, options.demand, runs, ended)?;
    }
    Ok(text)
}

/// The report where nothing was found.
fn none_report(
    alloc: Global,
    options: &HuntOptions<'_>,
    runs: u64,
    ended: Option<u64>,
) -> Result<Report, AllocError>
    ensures { IfOk result (λ report. report ≡ none_report options.now runs ended) }
{
    Ok(Report {
        text: none_text(alloc, options, runs, ended)?.into_bytes(),
        status: none_status(ended),
    })
}

/// The report of what a hunt found.
pub(crate) fn found_report(
    alloc: Global,
    options: &HuntOptions<'_>,
    start: &HuntStart,
    found: Option<&Found>,
    ended: Option<u64>,
) -> Result<Report, AllocError>
    ensures { IfOk result (λ report. report
        ≡ found_report options.now start.now (option_copied found.entry) ended) }
{
    let Some(found) = found else {
        return none_report(alloc, options, start.search.range.n, ended);
    };
    Ok(Report {
        text: found_text(alloc, options, start, found)?.into_bytes(),
        status: Status::Unmet,
    })
}
