//! Laws of lists of steps, of the enabled steps and of schedules. Each function states some by its
//! contract, and does nothing.
ghost use Rattle.std.specs.Prelude.{◌≡◌, ◌<◌, ◌≤◌, ℕ, true, false, None, Some, Ok, Err, List, [], AllPairs};
ghost use Rattle.std.specs.List.{Contains};
ghost use Rattle.schedule.specs.StepTexts.{IsBadLineOf, IsForm, IsTextOf, bad_step, step_on, steps_of};
ghost use Rattle.schedule.specs.Written.{AreWritable, steps_text};
ghost use Rattle.schedule.specs.Enabled.{ComesBefore, IsEnabled, enabled_of, is_memory_step};
ghost use Rattle.schedule.specs.Schedules.{AreChosen, IsRunOf, IsEnded, end_of, plan_steps, schedule_of, turns_of};
ghost use Rattle.schedule.specs.declared.plan.Plan.{Plan};
ghost use Rattle.machine.specs.declared.step.Step.{Step};
ghost use Rattle.machine.specs.Programs.{AreSiblings};
ghost use Rattle.machine.specs.State.{State};
ghost use Rattle.text_tokens.specs.Text.{is_plain_line, tokens_of};

/// A line says a step exactly when its tokens are of that step's form.
#[tactic(auto, using(crate::proofs::StepLinesAreRead::step_forms))]
pub fn step_lines_are_read()
    ensures form { (line : List ℕ) (step : Step) → is_plain_line line ≡ true →
        IsForm (tokens_of line) step → step_on line ≡ Ok (Some step) }
    ensures only { (line : List ℕ) (step : Step) → step_on line ≡ Ok (Some step) →
        (is_plain_line line ≡ true) × IsForm (tokens_of line) step }
    ensures blank { (line : List ℕ) → is_plain_line line ≡ true → tokens_of line ≡ [] →
        step_on line ≡ Ok None }

    // A byte that may not be in a text makes any line a bad one.
    ensures other_byte { (line : List ℕ) → is_plain_line line ≡ false → step_on line ≡ Err bad_step }
{}

/// A text is a list of steps exactly when each of its lines says a step or has no tokens, and it has
/// the fault of a line exactly when that line is the lowest that is neither.
#[tactic(auto, using(crate::proofs::StepListsAreRead::step_lists))]
pub fn step_lists_are_read()
    ensures list { (text : List ℕ) (steps : List Step) → IsTextOf text steps → steps_of text ≡ Ok steps }
    ensures only_list { (text : List ℕ) (steps : List Step) → steps_of text ≡ Ok steps → IsTextOf text steps }
    ensures bad { (text : List ℕ) (n : ℕ) → IsBadLineOf text n → steps_of text ≡ Err n }
    ensures only_bad { (text : List ℕ) (n : ℕ) → steps_of text ≡ Err n → IsBadLineOf text n }
{}

/// The written form of steps is read as these steps, and so no two lists are written alike.
pub fn written_steps_are_read()
    ensures read { (list : List Step) → AreWritable list → steps_of (steps_text list) ≡ Ok list }
    ensures single { (some others : List Step) → AreWritable some → AreWritable others
        → steps_text some ≡ steps_text others → some ≡ others }
{}

/// Whatever its numbers, a step is enabled exactly when the state accepts it and it is no crash. The
/// enabled steps are in one order, each once.
pub fn enabled_steps_are_those_accepted()
    ensures only { (s : State) (step : Step) → Contains (enabled_of s) step → IsEnabled s step }
    ensures always { (s : State) (step : Step) → IsEnabled s step → Contains (enabled_of s) step }
    ensures order { (s : State) → AllPairs ComesBefore (enabled_of s) }
{}

/// The steps of a schedule are a run that is accepted whole, to its state. Each is the one that its
/// turn chooses in the state that those before it leave.
pub fn schedules_are_runs()
    ensures run { (plan : Plan) (number : ℕ) (s : State) → IsRunOf (schedule_of plan number s) s }
    ensures chosen { (plan : Plan) (number : ℕ) (s : State) → AreChosen plan number s }
{}

/// A schedule has as many turns as its plan says, unless nothing follows in the next.
pub fn schedules_end()
    ensures most { (plan : Plan) (number : ℕ) (s : State) → turns_of plan number s ≤ plan.length }
    ensures sooner { (plan : Plan) (number : ℕ) (s : State) → turns_of plan number s < plan.length
        → IsEnded plan number (turns_of plan number s) (end_of plan number s) }
{}

/// A lazy schedule has no Persist and no Settle.
pub fn lazy_schedules_have_no_memory_steps()
    ensures { (plan : Plan) (number : ℕ) (s : State) (step : Step) → plan.lazy ≡ true
        → Contains (plan_steps plan number s) step → is_memory_step step ≡ false }
{}

/// A schedule keeps the shape, and each processor its programs.
pub fn schedules_keep_programs()
    ensures { (plan : Plan) (number : ℕ) (s : State) → AreSiblings (end_of plan number s) s }
{}
