//! Laws of programs and images as bytes and as texts, of traces, and of the steps that may come next. Each function states some
//! by its contract, and does nothing.
ghost use Rattle.std.specs.Prelude.{◌≡◌, ◌+◌, ◌<◌, ◌^◌, ◌++◌, [], ◌∷◌, ℕ, true, false, List, All, Ok, Err, Some, None, codes, decimal, length, slice_get, take};
ghost use Rattle.std.specs.List.{Contains, filter};
ghost use Rattle.commands.specs.Programs.{program_of};
ghost use Rattle.jobs.specs.Values.{values_in, word_count};
ghost use Rattle.jobs.specs.ImageReports.{values_text};
ghost use Rattle.lines_layout.specs.Layouts.{NamedLines};
ghost use Rattle.loader.specs.declared.version.Version.TheVariants.{Two};
ghost use Rattle.loader.specs.Spelling.{HasSpelling, object_bytes};
ghost use Rattle.isa.specs.Objects.{Object};
ghost use Rattle.machine.specs.declared.refusal.Refusal.{Refusal};
ghost use Rattle.machine.specs.declared.step.Seen.{Seen};
ghost use Rattle.machine.specs.declared.step.Step.{Step};
ghost use Rattle.machine.specs.declared.step.Step.TheVariants.{Crash};
ghost use Rattle.machine.specs.Accepted.{accepts};
ghost use Rattle.machine.specs.Objects.{opening};
ghost use Rattle.machine.specs.State.{State};
ghost use Rattle.machine.specs.Steps.{run_of, step_of};
ghost use Rattle.jobs.specs.Reports.{dis_of, dis_work, end_status, trace_after};
ghost use Rattle.schedule.specs.Enabled.{IsEnabled};
ghost use Rattle.commands.specs.declared.status.Status.TheVariants.{Done, Unmet};
ghost use Rattle.jobs.specs.NextSteps.{next_line, next_status, next_steps};
ghost use Rattle.jobs.specs.Traces.{Attempt, attempts_of, trace_text};

use loader::objects_are_read;

/// The bytes that `asm` writes are read as the very program, with its own names, and `dis` says of them
/// its written form. That a program has a spelling, [`loader::write_object`] says of each that it
/// writes.
pub fn objects_are_disassembled()
    ensures read { (program : Object) → HasSpelling Two program → program_of (object_bytes Two program) ≡ Ok program }
    ensures dis { (program : Object) → HasSpelling Two program →
        (dis_work (object_bytes Two program)).told ≡ Ok (dis_of program) }
{
    objects_are_read();
}

/// What `images` lists of an image, or prints of one for which a condition fails or holds, `images --set` reads
/// as that image.
pub fn listed_values_are_read()
    ensures { (names : NamedLines) (image : List ℕ) → length image ≡ word_count names → All (λ value. value < 2 ^ 64) image
        → values_in names (values_text image) ≡ Ok image }
{}

/// A trace reports the run of its steps. Its attempts, each of which has a line, are the steps that the run accepts and
/// the one that is refused, if there is one. Attempt `i` is step `i`, in the state after the first `i` steps: so its line
/// says what that step shows there, or, in the last line of a run that is refused, the refusal. The status is that of
/// `run`.
pub fn traces_are_of_runs()
    ensures whole { (steps : List Step) (s : State) → (run_of steps s).refusal ≡ None
        → length (attempts_of steps s) ≡ (run_of steps s).accepted }
    ensures refused { (steps : List Step) (s : State) (refusal : Refusal) → (run_of steps s).refusal ≡ Some refusal
        → length (attempts_of steps s) ≡ (run_of steps s).accepted + 1 }
    ensures each { (steps : List Step) (s : State) (i : ℕ) (attempt : Attempt) → slice_get (attempts_of steps s) i ≡ Some attempt
        → (slice_get steps i ≡ Some attempt.step) × (attempt.before ≡ (run_of (take i steps) s).state) }
    ensures made { (steps : List Step) (s : State) (i : ℕ) (attempt : Attempt) → slice_get (attempts_of steps s) i ≡ Some attempt
        → i < (run_of steps s).accepted → (seen : Seen) × (t : State) × (step_of attempt.before attempt.step ≡ Ok (seen, t)) }
    ensures last { (steps : List Step) (s : State) (refusal : Refusal) (attempt : Attempt) → (run_of steps s).refusal ≡ Some refusal
        → slice_get (attempts_of steps s) (run_of steps s).accepted ≡ Some attempt → step_of attempt.before attempt.step ≡ Err refusal }
    ensures status { (object : Object) (steps : List Step) → (trace_after object steps).status ≡ end_status (run_of steps (opening object)) }
{}

/// What `next` reports of a state. The line of a step is the last one of a trace that comes to the state and then tries the step,
/// without its place there (`line`). A step has a line exactly when the state accepts it (`only`, `always`). Where the refused
/// ones are asked for, those of them that are accepted are these, in the same order (`named`). Status 0 says that a step is
/// enabled, and status 1 that no step but a crash is accepted.
pub fn next_steps_are_those_accepted()
    ensures line { (names : NamedLines) (steps : List Step) (step : Step) (s : State) → (run_of steps s).refusal ≡ None
        → trace_text names (steps ++ step ∷ []) s
        ≡ trace_text names steps s ++ decimal (length steps) ++ codes " " ++ next_line names (run_of steps s).state step }
    ensures only { (s : State) (step : Step) → Contains (next_steps false s) step → accepts s step ≡ true }
    ensures always { (s : State) (step : Step) → accepts s step ≡ true → Contains (next_steps false s) step }
    ensures named { (s : State) → filter (accepts s) (next_steps true s) ≡ next_steps false s }
    ensures done { (s : State) → next_status s ≡ Done → (step : Step) × IsEnabled s step }
    ensures unmet { (s : State) (step : Step) → next_status s ≡ Unmet → accepts s step ≡ true → step ≡ Crash }
{}
