//! What flushes and fences are needed for, as JSON.
ghost use Rattle.std.specs.Prelude.{◌≡◌, IfOk, None, OnOk, Some, [], ◌∷◌, map, option_copied};
ghost use Rattle.json_texts.specs.Objects.{boolean, list, num, or_null, GetsFields, IsJsonOf, Tree};
ghost use Rattle.json_texts.specs.StateData.{where_data};
ghost use Rattle.jobs.specs.CheckReports.{holding};
ghost use Rattle.mend_jobs.specs.NeedData.{alone_name, broken_data, conditions_data, each_data, fault_data, fault_shown, fences_data, held_data, last_fields, need_data, need_name, one_data, run_data, run_fields, run_shown, said_data, said_fault, said_name, said_run, site_head, source_of, stands, weaker_data, weaker_head};

use crate::asked_program::AskedProgram;
use crate::fences_found::FencesFound;
use crate::need_text::{fault_number, kept};
use explore::{ExploreFault, Failure, Findings, Question};
use fence_needs::{Need, SiteNeed, Weaker, WeakerSaid, no_more_can_go};
use image_reasons::Site;
use jobs::asked_name;
use json_texts::{
    FORMAT, Fields, SourceMap, instruction_value, names_value, numbers_value, put_site, put_text,
    step_lines_value, steps_value,
};
use lines_layout::Layout;
use litmus_text::TextLines;
use machine::Machine;
use serde_json::{Value, json, push, put};
use std::alloc::{AllocError, Global};

/// The names of the words of a program, and the lines of its instructions.
pub(crate) fn source_of<'a>(asked: &'a AskedProgram) -> SourceMap<'a>
    ensures { result ≡ source_of asked.now }
{
    SourceMap {
        layout: asked.object.layout(),
        lines: &asked.lines,
    }
}

/// How a condition stands, where it is asked.
pub(crate) fn stands(alloc: Global, asked: bool, said: &str) -> Result<Value, AllocError>
    ensures { IfOk result (IsJsonOf (stands asked said.now)) }
{
    if asked {
        Value::try_from_str(alloc, said)
    } else {
        Ok(Value::Null)
    }
}

/// Whether a condition of so many ends holds: of none it says nothing.
fn holding(ends: usize) -> &'static str
    ensures { result.now ≡ holding ends }
{
    if ends == 0 {
        "asked of no state"
    } else {
        "holds"
    }
}

/// How the conditions stand.
pub(crate) fn conditions_value(
    alloc: Global,
    question: &Question,
    found: &Findings,
) -> Result<Value, AllocError>
    ensures { IfOk result (IsJsonOf (conditions_data question.now found.now)) }
{
    let all = stands(alloc, question.all.is_some(), "holds")?;
    let ends = stands(alloc, question.ends.is_some(), holding(found.ends().len()))?;
    let recovered = stands(
        alloc,
        question.recovered.is_some(),
        holding(found.recovered().len()),
    )?;
    json!(in alloc; {"all": all, "ends": ends, "recovered": recovered})
}

/// What an instruction is needed for, in a word.
fn need_name(need: &Need) -> &'static str
    ensures { result.now ≡ need_name need.now }
{
    match need {
        Need::Needed(_) => "needed",
        Need::LeftOut => "left out",
        Need::Kept(_) => "kept",
        Need::Untold(_) | Need::KeptUntold(_) => "not known",
    }
}

/// The same of one alone.
fn alone_name(need: &Need) -> &'static str
    ensures { result.now ≡ alone_name need.now }
{
    match need {
        Need::Needed(_) => "needed",
        Need::LeftOut | Need::Kept(_) => "not needed",
        Need::Untold(_) | Need::KeptUntold(_) => "not known",
    }
}

/// The run that shows it, if one does.
fn run_shown<'a>(need: &'a Need) -> Option<&'a Failure>
    ensures { option_copied result ≡ run_shown need.now }
{
    match need {
        Need::Needed(failure) | Need::Kept(failure) => Some(failure),
        Need::LeftOut | Need::Untold(_) | Need::KeptUntold(_) => None,
    }
}

/// Why it is not told, if it is not.
fn fault_shown(need: &Need) -> Option<ExploreFault>
    ensures { result ≡ fault_shown need.now }
{
    match need {
        Need::Untold(fault) | Need::KeptUntold(fault) => Some(*fault),
        Need::Needed(_) | Need::LeftOut | Need::Kept(_) => None,
    }
}

/// Puts that no run shows it into an object.
fn put_no_run(fields: &mut Fields, alloc: Global) -> Result<(), AllocError>
    ensures { OnOk result (GetsFields fields.old.entries fields.new.entries (run_fields None)) }
{
    put(fields, alloc, "condition", Value::Null)?;
    put(fields, alloc, "values", Value::Null)?;
    put(fields, alloc, "steps", Value::Null)
}

/// Puts which condition a run makes false, with which values, and by which steps, into an object.
fn put_one_run(fields: &mut Fields, alloc: Global, failure: &Failure) -> Result<(), AllocError>
    ensures { OnOk result (GetsFields fields.old.entries fields.new.entries (run_fields (Some failure.now))) }
{
    put_text(fields, alloc, "condition", asked_name(failure.asked))?;
    let values = numbers_value(alloc, failure.values.values())?;
    put(fields, alloc, "values", values)?;
    let steps = steps_value(alloc, failure.run.steps())?;
    put(fields, alloc, "steps", steps)
}

/// Puts the run that shows it into an object, if one does.
fn put_run(fields: &mut Fields, alloc: Global, shown: Option<&Failure>) -> Result<(), AllocError>
    ensures { OnOk result (GetsFields fields.old.entries fields.new.entries (run_fields (option_copied shown.entry))) }
{
    match shown {
        Some(failure) => put_one_run(fields, alloc, failure),
        None => put_no_run(fields, alloc),
    }
}

/// The number of a fault.
pub(crate) fn fault_value(alloc: Global, fault: ExploreFault) -> Result<Value, AllocError>
    ensures { IfOk result (IsJsonOf (fault_data fault)) }
{
    Value::try_from_str(alloc, fault_number(fault))
}

/// The number of a fault, or nothing.
fn fault_or_null(alloc: Global, fault: Option<ExploreFault>) -> Result<Value, AllocError>
    ensures { IfOk result (IsJsonOf (or_null fault_data fault)) }
{
    match fault {
        Some(fault) => fault_value(alloc, fault),
        None => Ok(Value::Null),
    }
}

/// Where an instruction stands, with its line.
pub(crate) fn where_value(alloc: Global, lines: &TextLines, site: Site) -> Result<Value, AllocError>
    ensures { IfOk result (IsJsonOf (where_data lines.now site)) }
{
    let processor = site.processor as usize;
    let mut fields = Fields::new(alloc);
    put_site(
        &mut fields,
        alloc,
        lines,
        processor,
        site.recovering,
        site.place,
    )?;
    Ok(Value::from(fields))
}

/// What is said of a weaker instruction, in a word.
fn said_name(said: &WeakerSaid) -> &'static str
    ensures { result.now ≡ said_name said.now }
{
    match said {
        WeakerSaid::Does => "does",
        WeakerSaid::DoesNot(_) => "does not",
        WeakerSaid::NotKnown(_) => "not known",
    }
}

/// The run that shows that it does not.
fn said_run<'a>(said: &'a WeakerSaid) -> Option<&'a Failure>
    ensures { option_copied result ≡ said_run said.now }
{
    match said {
        WeakerSaid::DoesNot(failure) => Some(failure),
        WeakerSaid::Does | WeakerSaid::NotKnown(_) => None,
    }
}

/// Why it is not known, if it is not.
fn said_fault(said: &WeakerSaid) -> Option<ExploreFault>
    ensures { result ≡ said_fault said.now }
{
    match said {
        WeakerSaid::NotKnown(fault) => Some(*fault),
        WeakerSaid::Does | WeakerSaid::DoesNot(_) => None,
    }
}

/// Puts how a weaker instruction is written, and what is said of it, into an object.
fn put_weaker_head(
    fields: &mut Fields,
    alloc: Global,
    source: &SourceMap<'_>,
    weaker: &Weaker,
) -> Result<(), AllocError>
    ensures { OnOk result (GetsFields fields.old.entries fields.new.entries (weaker_head source.now weaker.now)) }
{
    let instruction = instruction_value(alloc, source.layout, weaker.instr)?;
    put(fields, alloc, "instruction", instruction)?;
    put_text(fields, alloc, "said", said_name(&weaker.said))
}

/// All that is told of a weaker instruction.
fn weaker_value(alloc: Global, source: &SourceMap<'_>, weaker: &Weaker) -> Result<Value, AllocError>
    ensures { IfOk result (IsJsonOf (weaker_data source.now weaker.now)) }
{
    let mut fields = Fields::new(alloc);
    put_weaker_head(&mut fields, alloc, source, weaker)?;
    put_run(&mut fields, alloc, said_run(&weaker.said))?;
    let fault = fault_or_null(alloc, said_fault(&weaker.said))?;
    put(&mut fields, alloc, "fault", fault)?;
    Ok(Value::from(fields))
}

/// The weaker instruction that is tried in place of one, or nothing.
fn weaker_or_null(
    alloc: Global,
    source: &SourceMap<'_>,
    one: &SiteNeed,
) -> Result<Value, AllocError>
    ensures { IfOk result (IsJsonOf (or_null (weaker_data source.now) one.now.weaker)) }
{
    match &one.weaker {
        Some(weaker) => weaker_value(alloc, source, weaker),
        None => Ok(Value::Null),
    }
}

/// Puts why it is not told of an instruction, and what is said of the weaker one in its place, into an object.
fn put_last(
    fields: &mut Fields,
    alloc: Global,
    source: &SourceMap<'_>,
    one: &SiteNeed,
) -> Result<(), AllocError>
    ensures { OnOk result (GetsFields fields.old.entries fields.new.entries (last_fields source.now one.now)) }
{
    let fault = fault_or_null(alloc, fault_shown(&one.need))?;
    put(fields, alloc, "fault", fault)?;
    let weaker = weaker_or_null(alloc, source, one)?;
    put(fields, alloc, "weaker", weaker)
}

/// Puts where an instruction is, how it is written and what is said of it into an object.
fn put_head(
    fields: &mut Fields,
    alloc: Global,
    source: &SourceMap<'_>,
    one: &SiteNeed,
    said: &str,
) -> Result<(), AllocError>
    ensures { OnOk result (GetsFields fields.old.entries fields.new.entries (site_head source.now one.now said.now)) }
{
    let site = where_value(alloc, source.lines, one.site)?;
    put(fields, alloc, "site", site)?;
    let instruction = instruction_value(alloc, source.layout, one.instr)?;
    put(fields, alloc, "instruction", instruction)?;
    put_text(fields, alloc, "need", said)
}

/// All that is told of an instruction.
fn said_value(
    alloc: Global,
    source: &SourceMap<'_>,
    one: &SiteNeed,
    said: &str,
) -> Result<Value, AllocError>
    ensures { IfOk result (IsJsonOf (said_data source.now one.now said.now)) }
{
    let mut fields = Fields::new(alloc);
    put_head(&mut fields, alloc, source, one, said)?;
    put_run(&mut fields, alloc, run_shown(&one.need))?;
    put_last(&mut fields, alloc, source, one)?;
    Ok(Value::from(fields))
}

/// All that is told of an instruction among the others.
fn need_value(alloc: Global, source: &SourceMap<'_>, one: &SiteNeed) -> Result<Value, AllocError>
    ensures { IfOk result (IsJsonOf (need_data source.now one.now)) }
{
    said_value(alloc, source, one, need_name(&one.need))
}

/// Flushes and fences, in their order.
#[tactic(auto, using(json_texts::proofs::Items::list_steps))]
fn needs_value(
    alloc: Global,
    source: &SourceMap<'_>,
    needs: &[SiteNeed],
) -> Result<Value, AllocError>
    ensures { IfOk result (IsJsonOf (list (map (need_data source.now) needs.now))) }
{
    let mut items = Vec::new(alloc);
    for one in needs {
        push(&mut items, need_value(alloc, source, one)?)?;
    }
    Ok(Value::from(items))
}

/// One alone, as a list.
#[tactic(auto, using(json_texts::proofs::Items::list_steps))]
fn alone_value(alloc: Global, source: &SourceMap<'_>, one: &SiteNeed) -> Result<Value, AllocError>
    ensures { IfOk result (IsJsonOf (list (said_data source.now one.now (alone_name one.now.need) ∷ []))) }
{
    let mut items = Vec::new(alloc);
    let value = said_value(alloc, source, one, alone_name(&one.need))?;
    push(&mut items, value)?;
    Ok(Value::from(items))
}

/// Which condition a run makes false, the names of the words, its values, its steps and the lines of their instructions.
fn run_value(
    alloc: Global,
    condition: &str,
    words: Value,
    values: Value,
    steps: Value,
    lines: Value,
) -> Result<Value, AllocError>
    ensures { (w v s l : Tree) → IsJsonOf w words → IsJsonOf v values → IsJsonOf s steps → IsJsonOf l lines
        → IfOk result (IsJsonOf (run_data condition.now w v s l)) }
{
    json!(in alloc; {
        "format": FORMAT, "command": "fences", "holds": false, "condition": condition,
        "words": words, "values": values, "steps": steps, "lines": lines
    })
}

/// A run of the program that breaks a condition.
fn broken_value(alloc: Global, asked: &AskedProgram, failure: &Failure) -> Result<Value, AllocError>
    ensures { IfOk result (IsJsonOf (broken_data asked.now failure.now)) }
{
    let words = names_value(alloc, asked.object.layout())?;
    let values = numbers_value(alloc, failure.values.values())?;
    let steps = steps_value(alloc, failure.run.steps())?;
    let mut machine = Machine::load(alloc, &asked.object)?;
    let lines = step_lines_value(alloc, &asked.lines, &mut machine, failure.run.steps())?;
    run_value(
        alloc,
        asked_name(failure.asked),
        words,
        values,
        steps,
        lines,
    )
}

/// How the conditions stand, the names of the words, what is told of flushes and fences, how many of how many stay, whether no more can go, and
/// whether these are told to be the least number.
fn held_value(
    alloc: Global,
    conditions: Value,
    words: Value,
    fences: Value,
    keep: Value,
    of: Value,
    no_more: Value,
    least: Value,
) -> Result<Value, AllocError>
    ensures { (c w f k n m l : Tree) → IsJsonOf c conditions → IsJsonOf w words → IsJsonOf f fences → IsJsonOf k keep
        → IsJsonOf n of → IsJsonOf m no_more → IsJsonOf l least → IfOk result (IsJsonOf (held_data c w f k n m l)) }
{
    json!(in alloc; {
        "format": FORMAT, "command": "fences", "holds": true, "conditions": conditions,
        "words": words, "fences": fences, "keep": keep, "of": of, "no_more_can_go": no_more,
        "least": least
    })
}

/// The same, with counts and answers as they are.
fn counted_value(
    alloc: Global,
    conditions: Value,
    words: Value,
    fences: Value,
    keep: u64,
    of: u64,
    no_more: bool,
    least: bool,
) -> Result<Value, AllocError>
    ensures { (c w f : Tree) → IsJsonOf c conditions → IsJsonOf w words → IsJsonOf f fences
        → IfOk result (IsJsonOf (held_data c w f (num keep) (num of) (boolean no_more) (boolean least))) }
{
    held_value(
        alloc,
        conditions,
        words,
        fences,
        Value::from(keep),
        Value::from(of),
        Value::from(no_more),
        Value::from(least),
    )
}

/// What holds of a program, and what is told of each of its flushes and fences.
fn each_value(
    alloc: Global,
    asked: &AskedProgram,
    found: &Findings,
    needs: &[SiteNeed],
    least: bool,
) -> Result<Value, AllocError>
    ensures { IfOk result (IsJsonOf (each_data asked.now found.now needs.now least)) }
{
    let conditions = conditions_value(alloc, &asked.question, found)?;
    let words = names_value(alloc, asked.object.layout())?;
    let fences = needs_value(alloc, &source_of(asked), needs)?;
    let (keep, of) = (kept(needs) as u64, needs.len() as u64);
    let no_more = no_more_can_go(needs);
    counted_value(alloc, conditions, words, fences, keep, of, no_more, least)
}

/// What holds of a program, and what is told of one of its flushes and fences.
fn one_value(
    alloc: Global,
    asked: &AskedProgram,
    found: &Findings,
    one: &SiteNeed,
) -> Result<Value, AllocError>
    ensures { IfOk result (IsJsonOf (one_data asked.now found.now one.now)) }
{
    let conditions = conditions_value(alloc, &asked.question, found)?;
    let words = names_value(alloc, asked.object.layout())?;
    let fences = alone_value(alloc, &source_of(asked), one)?;
    held_value(
        alloc,
        conditions,
        words,
        fences,
        Value::Null,
        Value::Null,
        Value::Null,
        Value::Null,
    )
}

/// All that is told of what is found.
pub(crate) fn fences_value(
    alloc: Global,
    asked: &AskedProgram,
    found: &FencesFound,
) -> Result<Value, AllocError>
    ensures { IfOk result (IsJsonOf (fences_data asked.now found.now)) }
{
    match found {
        FencesFound::Broken(failure) => broken_value(alloc, asked, failure),
        FencesFound::Each(found, told) => each_value(alloc, asked, found, &told.needs, told.least),
        FencesFound::One(found, one) => one_value(alloc, asked, found, one),
    }
}
