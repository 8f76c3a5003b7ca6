//! What is put into a program, as JSON.
ghost use Rattle.std.specs.Prelude.{◌≡◌, IfOk, [], map};
ghost use Rattle.json_texts.specs.Objects.{list, IsJsonOf, Tree};
ghost use Rattle.json_texts.specs.ReasonData.{side_name};
ghost use Rattle.mend_jobs.specs.MendData.{found_data, held_data, mend_data, move_data, moved_or_null, told_put, needless_data, nothing_data, open_data, opens_data, put_data, set_data, told_data};

use crate::asked_program::AskedProgram;
use crate::mend_found::MendFound;
use crate::mend_text::{held, place_to, told};
use crate::need_value::{conditions_value, fault_value, source_of, stands, where_value};
use candidates::cost;
use explore::{Findings, Question};
use image_reasons::{Repair, Side};
use json_texts::{FORMAT, SourceMap, put_value as instruction_put};
use mends::{Mended, Open, Put};
use moves::Move;
use serde_json::{Value, json, push};
use std::alloc::{AllocError, Global};

/// An instruction that is put in, by its place in the program as it is.
fn told_put(
    alloc: Global,
    source: &SourceMap<'_>,
    made: Option<Move>,
    repair: Repair,
) -> Result<Value, AllocError>
    ensures { IfOk result (IsJsonOf (told_put source.now made repair)) }
{
    instruction_put(alloc, source, told(made, repair))
}

/// The instructions of a set.
#[tactic(auto, using(json_texts::proofs::Items::list_steps))]
fn set_value(
    alloc: Global,
    source: &SourceMap<'_>,
    made: Option<Move>,
    set: &[Repair],
) -> Result<Value, AllocError>
    ensures { IfOk result (IsJsonOf (set_data source.now made set.now)) }
{
    let mut items = Vec::new(alloc);
    for repair in set {
        push(&mut items, told_put(alloc, source, made, *repair)?)?;
    }
    Ok(Value::from(items))
}

/// A set that is not told, and why it is not.
fn open_value(
    alloc: Global,
    source: &SourceMap<'_>,
    made: Option<Move>,
    one: &Open,
) -> Result<Value, AllocError>
    ensures { IfOk result (IsJsonOf (open_data source.now made one.now)) }
{
    let put = set_value(alloc, source, made, &one.set)?;
    let fault = fault_value(alloc, one.fault)?;
    json!(in alloc; {"put": put, "fault": fault})
}

/// Those that are not told, in their order.
#[tactic(auto, using(json_texts::proofs::Items::list_steps))]
fn opens_value(
    alloc: Global,
    source: &SourceMap<'_>,
    made: Option<Move>,
    untold: &[Open],
) -> Result<Value, AllocError>
    ensures { IfOk result (IsJsonOf (opens_data source.now made untold.now)) }
{
    let mut items = Vec::new(alloc);
    for one in untold {
        push(&mut items, open_value(alloc, source, made, one)?)?;
    }
    Ok(Value::from(items))
}

/// No instructions.
fn nothing(alloc: Global) -> Value
    ensures { IsJsonOf (list []) result }
{
    Value::from(Vec::<Value>::new(alloc))
}

/// The conditions of the program with what is put in.
fn held_value(alloc: Global, question: &Question, found: &Findings) -> Result<Value, AllocError>
    ensures { IfOk result (IsJsonOf (held_data question.now found.now)) }
{
    let all = stands(alloc, question.all.is_some(), "held")?;
    let ends = stands(alloc, question.ends.is_some(), held(found.ends().len()))?;
    let recovered = stands(
        alloc,
        question.recovered.is_some(),
        held(found.recovered().len()),
    )?;
    json!(in alloc; {"all": all, "ends": ends, "recovered": recovered})
}

/// On which side of an instruction.
fn side_name(side: Side) -> &'static str
    ensures { result.now ≡ side_name side }
{
    match side {
        Side::Before => "before",
        Side::Behind => "behind",
    }
}

/// Which store is put where.
fn move_value(alloc: Global, source: &SourceMap<'_>, one: Move) -> Result<Value, AllocError>
    ensures { IfOk result (IsJsonOf (move_data source.now one)) }
{
    let store = where_value(alloc, source.lines, one.from)?;
    let place = where_value(alloc, source.lines, place_to(one))?;
    json!(in alloc; {"store": store, "side": side_name(one.side), "place": place})
}

/// A report: what is said, which store is moved, what is put in, how the conditions then stand, how many states were told apart, what it costs, and the sets
/// that are not told.
fn told_value(
    alloc: Global,
    said: &str,
    moved: Value,
    set: Value,
    conditions: Value,
    states: Value,
    price: Value,
    untold: Value,
) -> Result<Value, AllocError>
    ensures { (m s c n p u : Tree) → IsJsonOf m moved → IsJsonOf s set → IsJsonOf c conditions → IsJsonOf n states → IsJsonOf p price
        → IsJsonOf u untold → IfOk result (IsJsonOf (told_data said.now m s c n p u)) }
{
    json!(in alloc; {
        "format": FORMAT, "command": "mend", "mend": said, "move": moved, "put": set, "conditions": conditions,
        "states": states, "cost": price, "open": untold
    })
}

/// What holds of the program as it is.
fn needless_value(
    alloc: Global,
    asked: &AskedProgram,
    found: &Findings,
) -> Result<Value, AllocError>
    ensures { IfOk result (IsJsonOf (needless_data asked.now found.now)) }
{
    let conditions = conditions_value(alloc, &asked.question, found)?;
    let states = found.states();
    json!(in alloc; {
        "format": FORMAT, "command": "mend", "mend": "none needed", "move": Value::Null, "put": nothing(alloc),
        "conditions": conditions, "states": states, "cost": 0, "open": nothing(alloc)
    })
}

/// Which store is put where, if one is.
fn move_or_null(
    alloc: Global,
    asked: &AskedProgram,
    made: Option<Move>,
) -> Result<Value, AllocError>
    ensures { IfOk result (IsJsonOf (moved_or_null asked.now made)) }
{
    match made {
        Some(one) => move_value(alloc, &source_of(asked), one),
        None => Ok(Value::Null),
    }
}

/// What is put in, what then holds, and which sets before it are not told; of a program of which a store may have been moved.
fn put_value(
    alloc: Global,
    asked: &AskedProgram,
    said: &str,
    made: Option<Move>,
    put: &Put,
) -> Result<Value, AllocError>
    ensures { IfOk result (IsJsonOf (put_data asked.now said.now made put.now)) }
{
    let source = source_of(asked);
    let place = move_or_null(alloc, asked, made)?;
    let set = set_value(alloc, &source, made, &put.set)?;
    let conditions = held_value(alloc, &asked.question, &put.found)?;
    let states = Value::from(put.found.states());
    let price = Value::from(cost(&put.set));
    let untold = opens_value(alloc, &source, made, &put.open)?;
    told_value(alloc, said, place, set, conditions, states, price, untold)
}

/// That nothing was found.
fn nothing_value(
    alloc: Global,
    asked: &AskedProgram,
    said: &str,
    untold: &[Open],
) -> Result<Value, AllocError>
    ensures { IfOk result (IsJsonOf (nothing_data asked.now said.now untold.now)) }
{
    let untold = opens_value(alloc, &source_of(asked), None, untold)?;
    told_value(
        alloc,
        said,
        Value::Null,
        nothing(alloc),
        Value::Null,
        Value::Null,
        Value::Null,
        untold,
    )
}

/// All that is told of the program as it is.
fn mend_value(alloc: Global, asked: &AskedProgram, found: &Mended) -> Result<Value, AllocError>
    ensures { IfOk result (IsJsonOf (mend_data asked.now found.now)) }
{
    match found {
        Mended::NoneNeeded(found) => needless_value(alloc, asked, found),
        Mended::Put(put) => put_value(alloc, asked, "put", None, put),
        Mended::None => nothing_value(alloc, asked, "none", &[]),
        Mended::NotKnown(untold) => nothing_value(alloc, asked, "not known", untold),
    }
}

/// All that is told.
pub(crate) fn found_value(
    alloc: Global,
    asked: &AskedProgram,
    found: &MendFound,
) -> Result<Value, AllocError>
    ensures { IfOk result (IsJsonOf (found_data asked.now found.now)) }
{
    match found {
        MendFound::AsItIs(mended) => mend_value(alloc, asked, mended),
        MendFound::Moved(first) => put_value(alloc, asked, "moved", Some(first.made), &first.put),
        MendFound::NoneMoved(_) => nothing_value(alloc, asked, "none", &[]),
    }
}
