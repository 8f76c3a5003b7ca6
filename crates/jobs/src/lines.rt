//! Reports in lines.
ghost use Rattle.std.specs.Prelude.{◌≡◌, ◌++◌, ⊤, OnOk, length, map};
ghost use Rattle.std.specs.String.{string_bytes};
ghost use Rattle.schedule.specs.Written.{steps_text};
ghost use Rattle.commands.specs.StateTexts.{run_text};
ghost use Rattle.jobs.specs.ImageReports.{listing_text};
ghost use Rattle.jobs.specs.PairTexts.{broken_text, pair_text};
ghost use Rattle.jobs.specs.Reports.{images_text, set_lines};

use crate::closed_set::LeastSet;
use crate::form::{Answer, Form};
use crate::image_text::{push_all, push_listed, push_set, push_some};
use crate::image_told::{WithImage, push_explained_lines};
use crate::listing::Listing;
use crate::replay::Scheduled;
use crate::report::bytes_of;
use crate::run::Ran;
use commands::{Report, Status, push_candidates, push_labelled, push_run};
use lines_layout::Layout;
use litmus_text::TextLines;
use machine::Pair;
use schedule::write_steps;
use std::alloc::{AllocError, Global};

/// Lines, as a person reads them.
#[derive(Drop)]
pub(crate) struct Lines<'a> {
    /// It names the words.
    pub(crate) layout: &'a Layout,
    /// On which lines of a text the instructions stand.
    pub(crate) lines: &'a TextLines,
    /// `--names`: the names of the words come before the images that are listed.
    pub(crate) names: bool,
}

/// The report that is this text.
fn text_report(text: String, status: Status) -> Report
    ensures { result ≡ record { text = string_bytes text; status = status } }
{
    Report {
        text: bytes_of(text),
        status,
    }
}

impl<'a> Form<Ran> for Lines<'a> {
    ghost says = { λ form. run_text form.layout.now };

    ghost CanSay = { λ form end. end.state.shape ≡ map length form.layout.now };

    fn report(&self, alloc: Global, answer: &Answer<Ran>) -> Result<Report, AllocError> {
        let ran = &answer.found;
        let mut text = String::new(alloc);
        let view = ran.machine.view();
        push_run(&mut text, &view, self.layout, ran.accepted, ran.refusal)?;
        Ok(text_report(text, answer.status))
    }
}

/// Appends the line of a broken pair.
fn push_broken(text: &mut String, pair: Pair) -> Result<(), AllocError>
    ensures { OnOk result (string_bytes text.new ≡ string_bytes text.old ++ broken_text pair) }
{
    push_labelled(text, "broken ", u64::from(pair.cpu))?;
    push_labelled(text, " ", pair.first as u64)?;
    push_labelled(text, " ", pair.second as u64)?;
    push_labelled(text, " ", pair.at as u64)?;
    text.push_str("\n")
}

impl<'a> Form<Option<Pair>> for Lines<'a> {
    ghost says = { λ form. pair_text };

    ghost CanSay = { λ form pair. ⊤ };

    fn report(&self, alloc: Global, answer: &Answer<Option<Pair>>) -> Result<Report, AllocError> {
        let pair = &answer.found;
        let mut text = String::new(alloc);
        match pair {
            Some(pair) => push_broken(&mut text, *pair)?,
            None => text.push_str("none\n")?,
        }
        Ok(text_report(text, answer.status))
    }
}

impl<'a> Form<Scheduled> for Lines<'a> {
    ghost says = { λ form. steps_text };

    ghost CanSay = { λ form steps. ⊤ };

    fn report(&self, alloc: Global, answer: &Answer<Scheduled>) -> Result<Report, AllocError> {
        let scheduled = &answer.found;
        Ok(text_report(write_steps(alloc, &scheduled.steps)?, answer.status))
    }
}

/// Appends the count of candidates, the images, and whether the conditions hold.
fn push_listing(
    text: &mut String,
    named: bool,
    layout: &Layout,
    listing: &Listing,
) -> Result<(), AllocError>
    ensures { OnOk result (string_bytes text.new ≡ string_bytes text.old ++ listing_text named layout.now listing.now) }
{
    push_candidates(text, listing.count)?;
    push_listed(text, named, layout, &listing.images)?;
    push_all(text, &listing.broken)?;
    push_some(text, &listing.met)
}

impl<'a> Form<WithImage<Listing>> for Lines<'a> {
    ghost says = { λ form. images_text form.names form.layout.now form.lines.now };

    ghost CanSay = { λ form found. ⊤ };

    fn report(
        &self,
        alloc: Global,
        answer: &Answer<WithImage<Listing>>,
    ) -> Result<Report, AllocError> {
        let found = &answer.found;
        let mut text = String::new(alloc);
        push_listing(&mut text, self.names, self.layout, &found.found)?;
        push_explained_lines(&mut text, self.layout, self.lines, &found.told)?;
        Ok(text_report(text, answer.status))
    }
}

impl<'a> Form<WithImage<LeastSet>> for Lines<'a> {
    ghost says = { λ form. set_lines form.layout.now form.lines.now };

    ghost CanSay = { λ form found. ⊤ };

    fn report(
        &self,
        alloc: Global,
        answer: &Answer<WithImage<LeastSet>>,
    ) -> Result<Report, AllocError> {
        let found = &answer.found;
        let mut text = String::new(alloc);
        push_set(&mut text, &found.found.places)?;
        push_explained_lines(&mut text, self.layout, self.lines, &found.told)?;
        Ok(text_report(text, answer.status))
    }
}
