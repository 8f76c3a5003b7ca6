//! Laws of values of JSON: no value of a report has a float, and what the lines of steps are. Each function states one by its
//! contract, and does nothing.
ghost use Rattle.std.specs.Prelude.{◌≡◌, ℕ, List, None, Option, Some, false, length, slice_get};
ghost use Rattle.machine.specs.State.{State};
ghost use Rattle.machine.specs.Steps.{run_of};
ghost use Rattle.machine.specs.declared.step.Step.{Step};
ghost use Rattle.serde_json.specs.Written.{has_float};
ghost use Rattle.litmus_text.specs.TextLines.{TextLines};
ghost use Rattle.json_texts.specs.Objects.{json_of, Tree};
ghost use Rattle.json_texts.specs.StepLines.{IsLineOfStep, step_lines};

/// No tree has a float. So the text of a report is all of its value, as `serde_json` says it of what has none.
pub fn no_tree_has_a_float()
    ensures { (whole : Tree) → has_float (json_of whole) ≡ false }
{}

/// Where all steps of a run are accepted, there are as many lines as steps. Line `i` is that of step `i`, in the state after
/// the first `i` steps.
pub fn each_step_has_its_line()
    ensures all { (lines : TextLines) (steps : List Step) (s : State) → (run_of steps s).refusal ≡ None
        → length (step_lines lines steps s) ≡ length steps }
    ensures each { (lines : TextLines) (steps : List Step) (s : State) (i : ℕ) (line : Option ℕ)
        → slice_get (step_lines lines steps s) i ≡ Some line → IsLineOfStep lines steps s i line }
{}
