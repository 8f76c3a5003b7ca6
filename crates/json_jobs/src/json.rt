//! Reports as JSON.
ghost use Rattle.std.specs.Prelude.{⊤, IfOk, OnOk, option_map};
ghost use Rattle.json_texts.specs.ImageData.{all_data, images_data, some_data};
ghost use Rattle.json_texts.specs.Objects.{or_null, GetsFields, IsJsonOf};
ghost use Rattle.json_jobs.specs.JsonReports.{image_told_data, images_data_of, json_form, law_data, listing_fields, pair_data, replay_data, set_data};

use commands::Report;
use images::Image;
use jobs::{Answer, Form, ImageTold, LeastSet, Listing, Scheduled, WithImage};
use json_texts::{
    FORMAT, Fields, SourceMap, all_value, candidates_value, explained_value, images_value,
    names_value, places_or_null, report_fields, some_value, steps_value, value_report,
};
use machine::{Pair, Step};
use serde_json::{Value, json, put};
use std::alloc::{AllocError, Global};

/// JSON, as a program reads it.
#[derive(Drop)]
pub(crate) struct Json<'a> {
    /// The names of the words, and the lines of the instructions.
    pub(crate) source: SourceMap<'a>,
}

/// A broken pair.
fn pair_value(alloc: Global, pair: Pair) -> Result<Value, AllocError>
    ensures { IfOk result (IsJsonOf (pair_data pair)) }
{
    let (first, second, at) = (pair.first as u64, pair.second as u64, pair.at as u64);
    json!(in alloc; {"cpu": pair.cpu, "first": first, "second": second, "at": at})
}

/// The same, if there is one.
fn pair_or_null(alloc: Global, found: Option<Pair>) -> Result<Value, AllocError>
    ensures { IfOk result (IsJsonOf (or_null pair_data found)) }
{
    match found {
        Some(pair) => pair_value(alloc, pair),
        None => Ok(Value::Null),
    }
}

/// The pair that was found.
fn law_value(alloc: Global, found: Option<Pair>) -> Result<Value, AllocError>
    ensures { IfOk result (IsJsonOf (law_data found)) }
{
    let broken = pair_or_null(alloc, found)?;
    json!(in alloc; {"format": FORMAT, "command": "law", "broken": broken})
}

impl<'a> Form<Option<Pair>> for Json<'a> {
    ghost says = { λ form. json_form law_data };

    ghost CanSay = { λ form pair. ⊤ };

    fn report(&self, alloc: Global, answer: &Answer<Option<Pair>>) -> Result<Report, AllocError> {
        let value = law_value(alloc, answer.found)?;
        value_report(alloc, &value, answer.status)
    }
}

/// The steps of a schedule.
fn replay_value(alloc: Global, steps: &[Step]) -> Result<Value, AllocError>
    ensures { IfOk result (IsJsonOf (replay_data steps.now)) }
{
    let steps = steps_value(alloc, steps)?;
    json!(in alloc; {"format": FORMAT, "command": "replay", "steps": steps})
}

impl<'a> Form<Scheduled> for Json<'a> {
    ghost says = { λ form. json_form replay_data };

    ghost CanSay = { λ form steps. ⊤ };

    fn report(&self, alloc: Global, answer: &Answer<Scheduled>) -> Result<Report, AllocError> {
        let value = replay_value(alloc, &answer.found.steps)?;
        value_report(alloc, &value, answer.status)
    }
}

/// The images, where they are listed.
fn images_or_null(alloc: Global, images: &Option<Vec<Image>>) -> Result<Value, AllocError>
    ensures { IfOk result (IsJsonOf (or_null images_data (option_map (λ v. v.items) images.now))) }
{
    match images {
        Some(images) => images_value(alloc, images),
        None => Ok(Value::Null),
    }
}

/// Whether a condition holds for all images, where one was asked for.
fn all_or_null(
    alloc: Global,
    failing: &Option<Vec<usize>>,
    broken: &Option<Option<Image>>,
) -> Result<Value, AllocError>
    ensures { IfOk result (IsJsonOf (or_null (all_data (option_map (λ v. v.items) failing.now)) broken.now)) }
{
    match broken {
        Some(counterexample) => all_value(alloc, failing, counterexample.as_ref()),
        None => Ok(Value::Null),
    }
}

/// Whether a condition holds for some image, where one was asked for.
fn some_or_null(alloc: Global, met: &Option<Option<Image>>) -> Result<Value, AllocError>
    ensures { IfOk result (IsJsonOf (or_null some_data met.now)) }
{
    match met {
        Some(example) => some_value(alloc, example.as_ref()),
        None => Ok(Value::Null),
    }
}

/// What is told of an image, where it is explained.
fn told_or_null(
    alloc: Global,
    source: &SourceMap<'_>,
    told: &Option<ImageTold>,
) -> Result<Value, AllocError>
    ensures { IfOk result (IsJsonOf (or_null (image_told_data source.now) told.now)) }
{
    match told {
        Some(told) => explained_value(alloc, source, &told.missing),
        None => Ok(Value::Null),
    }
}

/// Puts what is found of images into an object.
fn put_listing(
    fields: &mut Fields,
    alloc: Global,
    source: &SourceMap<'_>,
    listing: &Listing,
) -> Result<(), AllocError>
    ensures { OnOk result (GetsFields fields.old.entries fields.new.entries (listing_fields source.now.names listing.now)) }
{
    let candidates = candidates_value(alloc, listing.count)?;
    put(fields, alloc, "candidates", candidates)?;
    let words = names_value(alloc, source.layout)?;
    put(fields, alloc, "words", words)?;
    let images = images_or_null(alloc, &listing.images)?;
    put(fields, alloc, "images", images)?;
    let all = all_or_null(alloc, &listing.failing, &listing.broken)?;
    put(fields, alloc, "all", all)?;
    let some = some_or_null(alloc, &listing.met)?;
    put(fields, alloc, "some", some)
}

/// The same as an object, with what is told of the image that breaks the condition.
fn images_found_value(
    alloc: Global,
    source: &SourceMap<'_>,
    found: &WithImage<Listing>,
) -> Result<Value, AllocError>
    ensures { IfOk result (IsJsonOf (images_data_of source.now found.now)) }
{
    let told = told_or_null(alloc, source, &found.told)?;
    let mut fields = report_fields(alloc, "images")?;
    put(&mut fields, alloc, "explained", told)?;
    put_listing(&mut fields, alloc, source, &found.found)?;
    Ok(Value::from(fields))
}

impl<'a> Form<WithImage<Listing>> for Json<'a> {
    ghost says = { λ form. json_form (images_data_of form.source) };

    ghost CanSay = { λ form found. ⊤ };

    fn report(
        &self,
        alloc: Global,
        answer: &Answer<WithImage<Listing>>,
    ) -> Result<Report, AllocError> {
        let value = images_found_value(alloc, &self.source, &answer.found)?;
        value_report(alloc, &value, answer.status)
    }
}

/// The entries that leave an image, if there are such, and what is told of the image.
fn set_value(
    alloc: Global,
    source: &SourceMap<'_>,
    found: &WithImage<LeastSet>,
) -> Result<Value, AllocError>
    ensures { IfOk result (IsJsonOf (set_data source.now found.now)) }
{
    let told = told_or_null(alloc, source, &found.told)?;
    let set = places_or_null(alloc, &found.found.places)?;
    json!(in alloc; {"format": FORMAT, "command": "images", "set": set, "explained": told})
}

impl<'a> Form<WithImage<LeastSet>> for Json<'a> {
    ghost says = { λ form. json_form (set_data form.source) };

    ghost CanSay = { λ form found. ⊤ };

    fn report(
        &self,
        alloc: Global,
        answer: &Answer<WithImage<LeastSet>>,
    ) -> Result<Report, AllocError> {
        let value = set_value(alloc, &self.source, &answer.found)?;
        value_report(alloc, &value, answer.status)
    }
}
