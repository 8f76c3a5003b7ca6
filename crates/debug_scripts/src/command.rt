//! A program and a script are read, the stops and watchers are made that it orders, and it is played.
ghost use Rattle.std.specs.Prelude.{◌≡◌, [], map, IfOk, Ok};
ghost use Rattle.images.specs.Truth.{holds_in};
ghost use Rattle.debugger.specs.Notes.{meaning};
ghost use Rattle.debugger.specs.Stops.{armed};
ghost use Rattle.debugger.specs.Writes.{word_selection};
ghost use Rattle.debugger.specs.Sessions.{watch};
ghost use Rattle.commands.specs.Devices.{CanCountOneMore};
ghost use Rattle.commands.specs.Serving.{MakesReport, Serves, used};
ghost use Rattle.commands.specs.Works.{Makes};
ghost use Rattle.debug_scripts.specs.DebugPlans.{IsPlan, Puts, debug_command, orders_work, plan, replies_work, script_replies, stop_ordered, watch_ordered};

use crate::lines::Lines;
use crate::orders::{Script, WatchOrder};
use crate::plan::{DebugPlan, plan_of, put_played, report_in};
use crate::reply::Form;
use crate::script::read_script;
use commands::{
    Fault, Report, Sink, Source, Sources, Stage, Status, load, read_sources, write_report,
};
use debugger::{Attached, Stop, Watcher, WordWatch};
use images::{Cond, holds};
use isa::Object;
use machine::Machine;
use std::alloc::{AllocError, Global};

/// Two conditions that are equal to this one.
fn copies(alloc: Global, cond: &Cond) -> Result<(Cond, Cond), AllocError>
    ensures same { IfOk result (λ made. made.0 ≡ made.1) }
    ensures value { IfOk result (λ made. made.1 ≡ cond.now) }
{
    match (cond.copy(alloc), cond.copy(alloc)) {
        (Ok(one), Ok(other)) => Ok((one, other)),
        _ => Err(AllocError),
    }
}

/// The watcher that an order asks for, under its id.
fn attached(order: WatchOrder, watcher: Box<dyn Watcher>) -> Attached
    requires { meaning_of watcher ≡ meaning [] (word_selection order.word) }
    ensures { watch result.id (meaning_of result.watcher) ≡ watch_ordered order }
{
    Attached {
        id: order.id,
        watcher,
    }
}

/// Puts on an empty page what the commands of a script come to, with the watchers that it orders and with these stops, which
/// have the ids and conditions of the script's, in order. The form names the machine's words.
///
/// # Errors
///
/// As of [`put_plan`].
fn put_stopped<P, F: Form<P>>(
    alloc: Global,
    form: &F,
    page: &mut P,
    machine: Machine,
    script: &Script,
    stops: Vec<Stop>,
) -> Result<(), Fault>
    requires empty { F.Tells form.now page.old [] }
    requires plan { IsPlan (plan (F.names form.now) machine script.now) }
    requires stops { map (λ t. armed t.id t.cond) stops.items ≡ map stop_ordered script.now.stops }
    ensures { Puts (F.Tells form.now) (replies_work (plan (F.names form.now) machine script.now)) page.new result }
{
    let mut watchers = Vec::new(alloc);
    for order in &script.watches {
        let Ok(watcher) = Box::new(alloc, WordWatch::new(alloc, order.word)) else {
            drop(machine);
            return Err(Stage::Session.missing());
        };
        let Ok(()) = watchers.push(attached(*order, watcher)) else {
            drop(machine);
            return Err(Stage::Session.missing());
        };
    }
    put_played(alloc, form, page, machine, script, stops, watchers)
}

/// Puts on an empty page what the commands of a script come to, with the stops and the watchers that it orders. The form names
/// the machine's words.
///
/// # Errors
///
/// Out of memory, as that of a condition, of a session or of the machine.
fn put_plan<P, F: Form<P>>(
    alloc: Global,
    form: &F,
    page: &mut P,
    machine: Machine,
    script: &Script,
) -> Result<(), Fault>
    requires empty { F.Tells form.now page.old [] }
    requires plan { IsPlan (plan (F.names form.now) machine script.now) }
    ensures { Puts (F.Tells form.now) (replies_work (plan (F.names form.now) machine script.now)) page.new result }
{
    let mut stops = Vec::new(alloc);
    for order in &script.stops {
        let Ok((asked, cond)) = copies(alloc, &order.cond) else {
            drop(machine);
            return Err(Stage::Conditions.missing());
        };
        let Ok(test) = Box::new(
            alloc,
            move |machine: &Machine| -> bool
                ensures { result ≡ holds_in machine.now asked }
            { holds(&asked, &machine.view()) },
        ) else {
            drop(machine);
            return Err(Stage::Session.missing());
        };
        let Ok(()) = stops.push(Stop::new(order.id, cond, test)) else {
            drop(machine);
            return Err(Stage::Session.missing());
        };
    }
    put_stopped(alloc, form, page, machine, script, stops)
}

/// Plays a script on the machine of a program, and puts on an empty page what it comes to. The form names the program's words.
///
/// # Errors
///
/// A fault of the script; out of memory, as that of any stage that is reached.
#[tactic(auto, using(commands::proofs::WorksInTurn::turns))]
pub fn put_script<P, F: Form<P>>(
    alloc: Global,
    form: &F,
    page: &mut P,
    object: &Object,
    script: &[u8],
) -> Result<(), Fault>
    requires empty { F.Tells form.now page.old [] }
    requires names { F.names form.now ≡ object.now.layout }
    ensures { Puts (F.Tells form.now) (script_replies object.now script.now) page.new result }
{
    let script = read_script(alloc, object.layout(), script)?;
    let done = match load(alloc, object) {
        Ok(machine) => put_plan(alloc, form, page, machine, &script),
        Err(fault) => Err(fault),
    };
    drop(script);
    done
}

/// The report of a plan, played with the stops and the watchers that its script orders.
///
/// # Errors
///
/// As of [`put_plan`].
fn report_plan(alloc: Global, made: DebugPlan) -> Result<Report, Fault>
    ensures { Makes (orders_work made) result }
{
    let DebugPlan {
        object,
        machine,
        script,
    } = made;
    let lines = Lines {
        layout: object.layout(),
    };
    let mut text = String::new(alloc);
    let told = put_plan(alloc, &lines, &mut text, machine, &script);
    drop((object, script));
    match told {
        Ok(()) => Ok(report_in(text)),
        Err(fault) => Err(fault),
    }
}

/// The report of `debug`.
#[tactic(auto, using(commands::proofs::WorksInTurn::turns), unfolding(crate::specs::DebugPlans::debug_command))]
fn report_debug(alloc: Global, sources: &Sources) -> Result<Report, Fault>
    ensures { MakesReport debug_command (Ok sources.now) result }
{
    let plan = plan_of(alloc, &sources.program, &sources.steps)?;
    report_plan(alloc, plan)
}

/// Reads the program, and then the script, to their ends, plays the script on the program's machine, and then
/// writes the report. Nothing is tested before everything is read, and nothing is written before the report is whole.
///
/// # Errors
///
/// F1 and F3 of the program, then of the script; a fault of the program, as an object file or as a litmus text; a fault
/// of the script; F2, after which a beginning of the report was written. Out of memory may come in place of any other
/// answer of a stage that is reached.
#[tactic(auto, using(commands::proofs::ServedCommands::served), unfolding(crate::specs::DebugPlans::debug_command))]
pub fn debug<P: Source, S: Source, W: Sink>(
    alloc: Global,
    program: &mut P,
    script: &mut S,
    out: &mut W,
) -> Result<Status, Fault>
    requires program { CanCountOneMore (P.device program.old) }
    requires script { CanCountOneMore (S.device script.old) }
    requires out { CanCountOneMore (W.device out.old) }
    ensures { Serves debug_command (used P.device program.old program.new) (used S.device script.old script.new) (used W.device out.old out.new) result }
{
    let sources = read_sources(alloc, true, program, script)?;
    let report = report_debug(alloc, &sources)?;
    write_report(out, &report)
}
