//! What a script asks of a program's machine: both are read, and then the script's commands are played.
ghost use Rattle.std.specs.Prelude.{◌≡◌, [], map, string_bytes, Ok};
ghost use Rattle.commands.specs.Devices.{CanCountOneMore};
ghost use Rattle.commands.specs.Serving.{used};
ghost use Rattle.machine.specs.Objects.{opening};
ghost use Rattle.commands.specs.Works.{Makes, work};
ghost use Rattle.commands.specs.declared.fault.Stage.TheVariants as stages;
ghost use Rattle.debug_scripts.specs.Scripts.{HasOwnIds};
ghost use Rattle.debug_scripts.specs.DebugPlans.{plan, plan_work, play_lack, play_work, played_work, stop_ordered, text_report, watch_ordered, IsPlan, PlaysPlan, Puts, ReadsPlan};
ghost use Rattle.debugger.specs.Values.{stops_armed, watches_by};

use crate::fault::PlayFault;
use crate::lines::Lines;
use crate::orders::{Script, StopOrder, WatchOrder};
use crate::reply::Form;
use crate::script::read_script;
use crate::session::play;
use commands::{
    Fault, Report, Sink, Source, Stage, Status, read_program, read_sources, write_report,
};
use debugger::{Attached, Stop, Watcher};
use isa::Object;
use machine::Machine;
use std::alloc::Global;
use std::marker::Model;

/// What a script asks of the machine of a program, which is in its opening state.
#[derive(Drop)]
pub struct DebugPlan {
    pub(crate) object: Object,
    pub(crate) machine: Machine,
    pub(crate) script: Script,
}

impl Model for DebugPlan {
    ghost use Rattle.debug_scripts.specs.DebugPlans as plans;
    ghost use Rattle.debug_scripts.specs.PlanCodes.{coded_plan};

    ghost Value = { plans.Plan };

    ghost coded = { coded_plan };

    ghost view = { λ p. plans.plan p.object.layout p.machine p.script };

    ghost invariant = { λ p. plans.IsPlan (plans.plan p.object.layout p.machine p.script) };
}

impl DebugPlan {
    /// The stops to arm, in the order of the script.
    pub fn stops(&self) -> &[StopOrder]
        ensures { result.now ≡ self.now.script.stops }
    {
        let script = &self.script;
        &script.stops
    }

    /// The watches to attach, in the order of the script.
    pub fn watches(&self) -> &[WatchOrder]
        ensures { result.now ≡ self.now.script.watches }
    {
        let script = &self.script;
        &script.watches
    }
}

/// The plan of a program and a script that are read.
#[tactic(auto, unfolding(commands::specs::Works::Makes))]
fn plan_on(alloc: Global, object: Object, script: Script) -> Result<DebugPlan, Fault>
    requires { HasOwnIds script }
    ensures { Makes (work stages.Machine (Ok (plan object.layout (opening object) script))) result }
{
    match Machine::load(alloc, &object) {
        Ok(machine) => Ok(DebugPlan {
            object,
            machine,
            script,
        }),
        Err(_) => {
            drop((object, script));
            Err(Stage::Machine.missing())
        }
    }
}

/// The plan of a program and a script.
#[tactic(auto, using(commands::proofs::WorksInTurn::turns))]
pub(crate) fn plan_of(alloc: Global, program: &[u8], script: &[u8]) -> Result<DebugPlan, Fault>
    ensures { Makes (plan_work program.now script.now) result }
{
    let object = read_program(alloc, program)?;
    match read_script(alloc, object.layout(), script) {
        Ok(script) => plan_on(alloc, object, script),
        Err(fault) => {
            drop(object);
            Err(fault)
        }
    }
}

/// Reads the program, and then the script, to their ends, and loads the machine. Nothing is tested before
/// everything is read.
///
/// # Errors
///
/// F1 and F3 of the program, then of the script; a fault of the program, as an object file or as a litmus text; a fault
/// of the script. Out of memory may come in place of any other answer of a stage that is reached.
pub fn debug_read<P: Source, S: Source>(
    alloc: Global,
    program: &mut P,
    script: &mut S,
) -> Result<DebugPlan, Fault>
    requires program { CanCountOneMore (P.device program.old) }
    requires script { CanCountOneMore (S.device script.old) }
    ensures { ReadsPlan (used P.device program.old program.new) (used S.device script.old script.new) result }
{
    let sources = read_sources(alloc, true, program, script)?;
    plan_of(alloc, &sources.program, &sources.steps)
}

/// What is missing, where memory was refused to this.
pub(crate) fn lack_of(fault: PlayFault) -> Fault
    ensures { result ≡ play_lack fault }
{
    match fault {
        PlayFault::Session => Stage::Session.missing(),
        PlayFault::Report => Stage::Machine.missing(),
    }
}

/// Puts on an empty page what the commands of a script come to, on a session with these stops and watchers. They have the ids
/// and conditions of the script's, in order, and the ids and words of its watches.
///
/// # Errors
///
/// Out of memory, as that of the session or of the machine.
pub(crate) fn put_played<P, F: Form<P>>(
    alloc: Global,
    form: &F,
    page: &mut P,
    machine: Machine,
    script: &Script,
    stops: Vec<Stop>,
    watchers: Vec<Attached>,
) -> Result<(), Fault>
    requires empty { F.Tells form.now page.old [] }
    requires plan { IsPlan (plan (F.names form.now) machine script.now) }
    requires stops { stops_armed stops.items ≡ map stop_ordered script.now.stops }
    requires watchers { watches_by meaning_of watchers.items ≡ map watch_ordered script.now.watches }
    ensures { Puts (F.Tells form.now) (played_work (plan (F.names form.now) machine script.now)) page.new result }
{
    match play(
        alloc,
        form,
        page,
        machine,
        stops,
        watchers,
        &script.commands,
    ) {
        Ok(()) => Ok(()),
        Err(fault) => Err(lack_of(fault)),
    }
}

/// The report that is this text.
pub(crate) fn report_in(text: String) -> Report
    ensures { result ≡ text_report (string_bytes text) }
{
    Report {
        text: text.into_bytes(),
        status: Status::Done,
    }
}

/// The report of a plan, played on a session with these stops and watchers.
pub(crate) fn report_of(
    alloc: Global,
    made: DebugPlan,
    stops: Vec<Stop>,
    watchers: Vec<Attached>,
) -> Result<Report, Fault>
    requires stops { stops_armed stops.items ≡ map stop_ordered made.script.stops }
    requires watchers { watches_by meaning_of watchers.items ≡ map watch_ordered made.script.watches }
    ensures { Makes (play_work made) result }
{
    let DebugPlan {
        object,
        machine,
        script,
    } = made;
    let lines = Lines {
        layout: object.layout(),
    };
    let mut text = String::new(alloc);
    let told = put_played(alloc, &lines, &mut text, machine, &script, stops, watchers);
    drop((object, script));
    match told {
        Ok(()) => Ok(report_in(text)),
        Err(fault) => Err(fault),
    }
}

/// Plays the commands of a plan on a session with these stops and watchers, and then writes the report.
/// Nothing is written before the report is whole. The stops have the ids and conditions of the plan's, in
/// order, and the watchers the ids of its watches and the writes of their words, without notes.
///
/// # Errors
///
/// F2, after which a beginning of the report was written; out of memory.
pub fn debug_run<W: Sink>(
    alloc: Global,
    made: DebugPlan,
    stops: Vec<Stop>,
    watchers: Vec<Attached>,
    out: &mut W,
) -> Result<Status, Fault>
    requires out { CanCountOneMore (W.device out.old) }
    requires stops { stops_armed stops.items ≡ map stop_ordered made.script.stops }
    requires watchers { watches_by meaning_of watchers.items ≡ map watch_ordered made.script.watches }
    ensures { PlaysPlan made (used W.device out.old out.new) result }
{
    let report = report_of(alloc, made, stops, watchers)?;
    write_report(out, &report)
}
