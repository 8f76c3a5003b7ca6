//! What the reports say of runs. Each law is the contract of a function that does nothing.
ghost use Rattle.std.specs.Prelude.{◌≡◌, ◌⊎◌, ℕ, Contains, Err, List, Ok, false, true};
ghost use Rattle.commands.specs.declared.fault.Fault.TheVariants as faults;
ghost use Rattle.commands.specs.declared.fault.Refused.TheVariants.{NoRoom};
ghost use Rattle.commands.specs.Serving.{Report};
ghost use Rattle.commands.specs.declared.jobs.CheckOptions.{CheckOptions};
ghost use Rattle.commands.specs.declared.jobs.OutcomesOptions.{OutcomesOptions};
ghost use Rattle.commands.specs.declared.status.Status.TheVariants.{Done, Unmet};
ghost use Rattle.explore.specs.declared.verdict.Asked.TheVariants.{All};
ghost use Rattle.explore.specs.declared.verdict.Failure.{Failure};
ghost use Rattle.explore.specs.Questions.{FailsBy, IsAnswered, LacksRoom};
ghost use Rattle.jobs.specs.declared.start.Start.{Start};
ghost use Rattle.jobs.specs.CheckReports.{MayReport, IsAskedOfSome, IsCrashExplained, IsExplained, IsListOfImages, IsToldFalse, IsToldWhy};
ghost use Rattle.jobs.specs.Crashes.{crashes_in};
ghost use Rattle.jobs.specs.OutcomeReports.{outcomes_report, IsListOfEnds};
ghost use Rattle.jobs.specs.Starts.{check_start, exactly, outcomes_start, IsReady, IsTold};

use crate::verdict::ReportsVerdict;

/// Where `check` ends with status 0, each condition that is asked for is true of all that runs reach: of every image in every
/// state, of every end. And one that is asked of ends is asked of one at least.
pub fn done_is_of_all_runs()
    ensures all { (options : CheckOptions) (start : Start) (report : Report) → IsTold (MayReport options) options.states start (Ok report)
        → report.status ≡ Done → IsAnswered start.question start.machine }
    ensures some { (options : CheckOptions) (start : Start) (report : Report) → IsTold (MayReport options) options.states start (Ok report)
        → report.status ≡ Done → IsAskedOfSome start.question.crashes false start.question.ends start.machine
        × IsAskedOfSome start.question.crashes true start.question.recovered start.machine }
{}

/// Where `check` ends with status 1, a run makes a condition false, and the report is of this run; or each condition is true of all
/// that runs reach, but one is asked of ends to which no run leads, and the report says so.
pub fn unmet_is_told_why()
    ensures { (options : CheckOptions) (start : Start) (report : Report) → IsTold (MayReport options) options.states start (Ok report)
        → report.status ≡ Unmet → IsToldWhy options start report }
{}

/// Where `check` is asked for the images, the report is of a run that makes a condition false, or it ends with each image that a
/// crash may leave in a state that a run reaches: each once, ascending, and nothing else. With `--as-steps` no image is listed.
pub fn images_are_all()
    ensures { (options : CheckOptions) (start : Start) (report : Report) → IsTold (MayReport options) options.states start (Ok report)
        → start.question.images ≡ true → options.as_steps ≡ false → IsToldFalse options start report ⊎ IsListOfImages start report }
{}

/// Where a run makes the condition of `--all` false, the writes that are missing in the image are told: the given steps and the run
/// are accepted one behind the other, and a crash after them may leave the image.
pub fn images_are_explained()
    ensures { (options : CheckOptions) (program steps : List ℕ) (start : Start) (failure : Failure) → (check_start options program steps).told ≡ Ok start
        → IsReady start.machine → FailsBy All start.question start.machine failure.run failure.values → IsExplained start failure }
{}

/// Where a run makes a condition false, the writes are told that are missing in what each of its crashes left: the given steps and
/// those of the run before the crash are accepted one behind the other, and what has persisted then a crash may leave.
pub fn crashes_are_explained()
    ensures { (options : CheckOptions) (program steps : List ℕ) (start : Start) (failure : Failure) (place : ℕ) → (check_start options program steps).told ≡ Ok start
        → IsReady start.machine → FailsBy failure.asked start.question start.machine failure.run failure.values → Contains (crashes_in failure.run) place
        → IsCrashExplained start failure place }
{}

/// Where R2 is answered, whatever is asked, a run leads to a state in which a processor waits for room in the pending list: no
/// machine from which runs start is worn.
pub fn room_lacks_where_it_is_said<A: ReportsVerdict>()
    ensures { (asked : A) (states : ℕ) (start : Start) → IsTold (A.may_report asked) states start (Err (faults.Refused NoRoom)) → LacksRoom start.question.crashes start.machine }
{}

/// What `outcomes` lists is each end's outcome once, ascending, and nothing else: of the ends after a crash, or of those before
/// the first one, the given steps included.
pub fn outcomes_are_all()
    ensures { (options : OutcomesOptions) (program steps : List ℕ) (start : Start) (report : Report) → (outcomes_start options program steps).told ≡ Ok start
        → IsTold (exactly (outcomes_report options)) options.states start (Ok report) → IsListOfEnds options.recovered start report }
{}
