//! The command `debug`, with its report as JSON.
ghost use Rattle.std.specs.Prelude.{◌≡◌, IfOk, List, Ok};
ghost use Rattle.std.specs.List.{flat_map};
ghost use Rattle.commands.specs.Devices.{CanCountOneMore};
ghost use Rattle.commands.specs.Serving.{MakesReport, Serves, used};
ghost use Rattle.commands.specs.Works.{Makes};
ghost use Rattle.debug_scripts.specs.Replies.{Told};
ghost use Rattle.serde_json.specs.View.{view};
ghost use Rattle.json_texts.specs.Objects.{IsJsonOf, Tree};
ghost use Rattle.json_scripts.specs.DebugData.{AreJsonOf, debug_command, debug_on, replies_data, replies_report, told_items};
ghost use Rattle.json_scripts.specs.Headed.{headed};

use crate::reply_value::push_reply;
use commands::{
    Fault, Report, Sink, Source, Sources, Stage, Status, read_lined, read_sources, write_report,
};
use debug_scripts::{Form, Reply, put_script};
use debugger::Past;
use json_texts::{FORMAT, value_report};
use litmus_text::LinedObject;
use serde_json::{Value, json};
use std::alloc::{AllocError, Global};

/// Replies as values.
#[derive(Drop)]
struct Json<'a> {
    /// The program, with the lines of its text.
    lined: &'a LinedObject,
}

impl<'a> Form<Vec<Value>> for Json<'a> {
    ghost names = { λ form. form.lined.now.object.layout };

    ghost Tells = { λ form items told. AreJsonOf (flat_map (told_items form.lined.now) told) items.items };

    fn put(
        &self,
        alloc: Global,
        page: &mut Vec<Value>,
        reply: &Reply<'_>,
        past: &Past,
    ) -> Result<(), AllocError> {
        push_reply(page, alloc, self.lined, reply, past)
    }
}

/// The object of the report, with these replies.
fn headed_value(alloc: Global, replies: Value) -> Result<Value, AllocError>
    ensures { IfOk result (λ value. view value ≡ headed (view replies)) }
{
    json!(in alloc; {"format": FORMAT, "command": "debug", "replies": replies})
}

/// The value of these replies.
fn replies_value(alloc: Global, items: Vec<Value>) -> Result<Value, AllocError>
    ensures { IfOk result (λ value. (trees : List Tree) → AreJsonOf trees items.items → IsJsonOf (replies_data trees) value) }
{
    let replies = Value::from(items);
    headed_value(alloc, replies)
}

/// The report of these replies, which are the JSON of trees.
fn replies_report(alloc: Global, items: Vec<Value>) -> Result<Report, AllocError>
    requires { (trees : List Tree) × AreJsonOf trees items.items }
    ensures { IfOk result (λ report. (trees : List Tree) → AreJsonOf trees items.items → report ≡ replies_report trees) }
{
    let value = replies_value(alloc, items)?;
    value_report(alloc, &value, Status::Done)
}

/// The report of a script on a program that was read.
fn report_on(alloc: Global, lined: &LinedObject, script: &[u8]) -> Result<Report, Fault>
    ensures { Makes (debug_on lined.now script.now) result }
{
    let form = Json { lined };
    let mut items = Vec::new(alloc);
    match put_script(alloc, &form, &mut items, &lined.object, script) {
        Ok(()) => match replies_report(alloc, items) {
            Ok(report) => Ok(report),
            Err(AllocError) => Err(Stage::Machine.missing()),
        },
        Err(fault) => Err(fault),
    }
}

/// The report of `debug --json`.
#[tactic(auto, using(commands::proofs::WorksInTurn::turns), unfolding(crate::specs::DebugData::debug_command))]
fn report_debug(alloc: Global, sources: &Sources) -> Result<Report, Fault>
    ensures { MakesReport debug_command (Ok sources.now) result }
{
    let lined = read_lined(alloc, &sources.program)?;
    let report = report_on(alloc, &lined, &sources.steps);
    drop(lined);
    report
}

/// Does the command `debug`, and writes its report as JSON: reads the program, and then the script, to their ends, plays the
/// script on the program's machine, and then writes what it comes to.
///
/// # Errors
///
/// Those of [`debug_scripts::debug`].
#[tactic(auto, using(commands::proofs::ServedCommands::served), unfolding(crate::specs::DebugData::debug_command))]
pub fn debug<P: Source, S: Source, W: Sink>(
    alloc: Global,
    program: &mut P,
    script: &mut S,
    out: &mut W,
) -> Result<Status, Fault>
    requires program { CanCountOneMore (P.device program.old) }
    requires script { CanCountOneMore (S.device script.old) }
    requires out { CanCountOneMore (W.device out.old) }
    ensures { Serves debug_command (used P.device program.old program.new) (used S.device script.old script.new) (used W.device out.old out.new) result }
{
    let sources = read_sources(alloc, true, program, script)?;
    let report = report_debug(alloc, &sources)?;
    write_report(out, &report)
}
