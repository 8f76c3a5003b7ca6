//! Laws of scripts. Each function states one by its contract, and does nothing.
ghost use Rattle.std.specs.Prelude.{◌≡◌, ℕ, Result};
ghost use Rattle.std.specs.List.{flat_map};
ghost use Rattle.lines_layout.specs.Layouts.{NamedLines};
ghost use Rattle.machine.specs.declared.refusal.Refusal.{Refusal};
ghost use Rattle.debugger.specs.declared.halt.Halt.TheVariants.{End, Refused, Stop};
ghost use Rattle.commands.specs.Serving.{Serves, Used};
ghost use Rattle.commands.specs.declared.fault.Fault.{Fault};
ghost use Rattle.commands.specs.declared.status.Status.{Status};
ghost use Rattle.debug_scripts.specs.DebugPlans.{Plan, PlaysIfMade, ReadsPlan, debug_command, debug_report, plan_replies};
ghost use Rattle.debug_scripts.specs.declared.orders.Command.TheVariants.{Continue, Go};
ghost use Rattle.debug_scripts.specs.DebugReports.{LosesNoStep, LosesStep, Stand, WhereHalted, follow, without_rest};
ghost use Rattle.debug_scripts.specs.Replies.{told_text};
ghost use Rattle.debug_scripts.specs.Scripts.{HasOwnIds, IsReadAs, IsRefusedAs, Whenever};
ghost use Rattle.debug_scripts.specs.Grammar.{IsScript};
ghost use Rattle.debug_scripts.specs.ScriptFaults.{IsFault};

use commands::{Sink, Source};

/// A text is read as a script exactly when its lines are those of this script by the grammar, which speaks
/// of one line after another. No two stops of a script have one id, nor have two watches.
#[tactic(auto, using(crate::proofs::ScriptsAreRead::script_forms, crate::proofs::OwnIds::own_ids))]
pub fn scripts_are_read()
    ensures form { Whenever IsScript IsReadAs }
    ensures only { Whenever IsReadAs IsScript }
    ensures ids { Whenever IsReadAs (λ names text. HasOwnIds) }
{}

/// The fault reported of a text is that of its first line at fault, and of this line the first of three: that it is no
/// line of a script or declares something after a command, that its condition is none, that its id is taken. And each such
/// fault is reported; so a text has one at most.
pub fn faults_are_the_first()
    ensures only { Whenever IsRefusedAs IsFault }
    ensures all { Whenever IsFault IsRefusedAs }
{}

/// No step is lost where steps stop: however often a `continue` halts, what it leaves leads where all steps led that were
/// ahead of it, but for the one that was refused. A `go` is a `continue` without the rest of before.
pub fn stops_lose_no_step()
    ensures stopped { (id n : ℕ) → WhereHalted (Stop id n) LosesNoStep }
    ensures ended { WhereHalted End LosesNoStep }
    ensures refused { (n : ℕ) (refusal : Refusal) → WhereHalted (Refused n refusal) (LosesStep n) }
    ensures go { (names : NamedLines) (s : Stand) → follow names s Go ≡ follow names (without_rest s) Continue }
{}

/// The report of a plan is the texts of what its commands come to, one after another. Of that each other form is made, too.
pub fn reports_are_replies()
    ensures { (p : Plan) → debug_report p ≡ flat_map (told_text p.layout) (plan_replies p) }
{}

/// [`crate::debug_read`], and then [`crate::debug_run`] of the plan that it made, do what the command `debug` does.
pub fn parts_are_the_command<P: Source, S: Source, W: Sink>()
    ensures { (program : Used P) (script : Used S) (out : Used W)
        (made : Result Plan Fault) (result : Result Status Fault)
        → ReadsPlan program script made → PlaysIfMade made out result
        → Serves debug_command program script out result }
{}
