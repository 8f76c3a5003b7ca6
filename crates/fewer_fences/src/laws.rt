//! What flushes and fences take away. Each law is the contract of a function that does nothing. A state is thinner than another that
//! has all that it has, and more flushes, fences and markers (`IsThinner`).
ghost use Rattle.std.specs.Prelude.{◌≡◌, ℕ, Bool, true, Ok, Some, List, slice_get, slice_set};
ghost use Rattle.isa.specs.declared.instr.Instr.{Instr};
ghost use Rattle.isa.specs.declared.instr.Instr.TheVariants.{Nop};
ghost use Rattle.isa.specs.Objects.{Object};
ghost use Rattle.machine.specs.declared.step.Seen.{Seen};
ghost use Rattle.machine.specs.declared.step.Step.{Step};
ghost use Rattle.machine.specs.Objects.{IsLoadable, opening};
ghost use Rattle.machine.specs.State.{State};
ghost use Rattle.machine.specs.Steps.{step_of};
ghost use Rattle.conditions.specs.Formulas.{Formula};
ghost use Rattle.images.specs.Images.{IsImage};
ghost use Rattle.images.specs.Truth.{holds_in, holds_on};
ghost use Rattle.explore.specs.declared.question.Question.{Question};
ghost use Rattle.explore.specs.Ends.{IsEnd, IsEndOf, all_run_as};
ghost use Rattle.explore.specs.Outcomes.{outcome_of};
ghost use Rattle.explore.specs.Reachable.{IsRun};
ghost use Rattle.explore.specs.RunImages.{IsImageOfRuns};
ghost use Rattle.verdicts.specs.Verdicts.{IsBrokenBy, IsKeptBy};
ghost use Rattle.fewer_fences.specs.Followed.{IsFollowed, IsRunToo};
ghost use Rattle.fewer_fences.specs.Thinner.{AreFewer, HasNops, IsThinner};

/// A program has no more flushes and fences than itself, and one with fewer than another, which has fewer than a third, has fewer than
/// the third. A nop in place of one instruction that passes a test makes code that has such nops.
pub fn fewer_than_fewer_are_fewer()
    ensures itself { (object : Object) → AreFewer object object }
    ensures joined { (a b c : Object) → AreFewer a b → AreFewer b c → AreFewer a c }
    ensures one { (may : Instr → Bool) (code : List Instr) (place : ℕ) (instr : Instr)
        → slice_get code place ≡ Some instr → may instr ≡ true
        → HasNops may code (slice_set code place Nop) }
{}

/// The first state of a program with fewer flushes and fences is thinner, where the program with more of them names no word but
/// those of its layout, as each does that can be loaded.
pub fn opening_is_thinner()
    ensures { (more less : Object) → IsLoadable more → AreFewer more less
        → IsThinner (opening more) (opening less) }
{}

/// Each step is made in a thinner state too, or it is the drain of a flush or a fence, or the settling of a marker, that is not
/// there: then no step is made.
pub fn steps_are_followed()
    ensures { (more less after : State) (step : Step) (seen : Seen) → IsThinner more less
        → step_of more step ≡ Ok (seen, after) → IsFollowed step seen less after }
{}

/// So each run is one from a thinner state too, less such drains and such settling.
pub fn runs_are_followed()
    ensures { (crashes : Bool) (more less t : State) (steps : List Step) → IsThinner more less
        → IsRun crashes steps more t → IsRunToo crashes steps less t }
{}

/// What a crash may leave, it may leave in a thinner state.
pub fn images_are_kept()
    ensures { (more less : State) (image : List ℕ) → IsThinner more less → IsImage more image
        → IsImage less image }
{}

/// What is thinner than an end is an end, of main programs or of recovery programs as that is, and has its outcome.
pub fn ends_are_kept()
    ensures end { (more less : State) → IsThinner more less → IsEnd more → IsEnd less }
    ensures mode { (more less : State) (recovered : Bool) → IsThinner more less
        → all_run_as recovered more.processors ≡ true → all_run_as recovered less.processors ≡ true }
    ensures outcome { (more less : State) → IsThinner more less → outcome_of less ≡ outcome_of more }
{}

/// A condition is true of a thinner state exactly where it is true of the other, and so for each image.
pub fn conditions_are_kept()
    ensures state { (more less : State) (condition : Formula) → IsThinner more less
        → holds_in less condition ≡ holds_in more condition }
    ensures image { (more less : State) (condition : Formula) (image : List ℕ) → IsThinner more less
        → holds_on less condition image ≡ holds_on more condition image }
{}

/// What crashes may leave of a program, they may leave of it with fewer flushes and fences; and each end of its runs has the outcome
/// of an end of those.
pub fn what_more_leaves_less_leaves()
    ensures images { (crashes : Bool) (more less : Object) (image : List ℕ) → IsLoadable more
        → AreFewer more less → IsImageOfRuns crashes (opening more) image
        → IsImageOfRuns crashes (opening less) image }
    ensures ends { (crashes recovered : Bool) (more less : Object) (t : State) → IsLoadable more
        → AreFewer more less → IsEndOf crashes recovered (opening more) t
        → (u : State) × IsEndOf crashes recovered (opening less) u × (outcome_of u ≡ outcome_of t) }
{}

/// What some run of a program breaks, some run of it with fewer flushes and fences breaks.
pub fn what_breaks_more_breaks_less()
    ensures { (question : Question) (more less : Object) → IsLoadable more → AreFewer more less
        → IsBrokenBy question more → IsBrokenBy question less }
{}

/// What each run of a program with fewer flushes and fences keeps, each run of it with more keeps.
pub fn what_holds_with_less_holds_with_more()
    ensures { (question : Question) (more less : Object) → IsLoadable more → AreFewer more less
        → IsKeptBy question less → IsKeptBy question more }
{}
