//! What is put in takes away. Each law is the contract of a function that does nothing. A state is leaner than another that has all that it
//! has, and more flushes, fences and markers, in programs too (`IsLeaner`).
ghost use Rattle.std.specs.Prelude.{◌≡◌, ℕ, Bool, true, Some, Ok, List, Contains};
ghost use Rattle.isa.specs.Objects.{Object};
ghost use Rattle.machine.specs.declared.step.Seen.{Seen};
ghost use Rattle.machine.specs.declared.step.Step.{Step};
ghost use Rattle.machine.specs.Objects.{IsLoadable, opening};
ghost use Rattle.machine.specs.State.{State};
ghost use Rattle.machine.specs.Steps.{step_of};
ghost use Rattle.conditions.specs.Formulas.{Formula};
ghost use Rattle.images.specs.Images.{IsImage};
ghost use Rattle.images.specs.Truth.{holds_in, holds_on};
ghost use Rattle.explore.specs.declared.question.Question.{Question};
ghost use Rattle.explore.specs.Ends.{IsEnd, IsEndOf, all_run_as};
ghost use Rattle.explore.specs.Outcomes.{outcome_of};
ghost use Rattle.explore.specs.Reachable.{IsRun};
ghost use Rattle.explore.specs.RunImages.{IsImageOfRuns};
ghost use Rattle.verdicts.specs.Verdicts.{IsBrokenBy, IsKeptBy};
ghost use Rattle.image_reasons.specs.declared.repair.Repair.{Repair};
ghost use Rattle.image_reasons.specs.Repairs.{repaired};
ghost use Rattle.candidates.specs.Candidates.{candidates_of};
ghost use Rattle.candidates.specs.Sets.{with_all};
ghost use Rattle.added_fences.specs.Added.{AreAdded, IsLeaner};
ghost use Rattle.added_fences.specs.Sets.{IsSet, IsWithin, MayBePutIn};
ghost use Rattle.added_fences.specs.Traced.{IsRunToo, IsTraced};

/// Each step is made in a leaner state too, or it is that of a fence or a flush that was put in: it runs, or leaves its store buffer, or
/// its marker settles. Then no step is made.
pub fn steps_are_traced()
    ensures { (more less after : State) (step : Step) (seen : Seen) → IsLeaner more less
        → step_of more step ≡ Ok (seen, after) → IsTraced step seen less after }
{}

/// So each run is one from a leaner state too, less such steps.
pub fn runs_are_traced()
    ensures { (crashes : Bool) (more less t : State) (steps : List Step) → IsLeaner more less
        → IsRun crashes steps more t → IsRunToo crashes steps less t }
{}

/// The first state of a program without what was put in is leaner, where the program with it names no word but those of its layout, as
/// each does that can be loaded.
pub fn opening_is_leaner()
    ensures { (more less : Object) → IsLoadable more → AreAdded more less
        → IsLeaner (opening more) (opening less) }
{}

/// What a crash may leave, it may leave in a leaner state.
pub fn images_are_kept()
    ensures { (more less : State) (image : List ℕ) → IsLeaner more less → IsImage more image
        → IsImage less image }
{}

/// What is leaner than an end is an end, of main programs or of recovery programs as that is, and has its outcome.
pub fn ends_are_kept()
    ensures end { (more less : State) → IsLeaner more less → IsEnd more → IsEnd less }
    ensures mode { (more less : State) (recovered : Bool) → IsLeaner more less
        → all_run_as recovered more.processors ≡ true → all_run_as recovered less.processors ≡ true }
    ensures outcome { (more less : State) → IsLeaner more less → outcome_of less ≡ outcome_of more }
{}

/// A condition is true of a leaner state exactly where it is true of the other, and so for each image.
pub fn conditions_are_kept()
    ensures state { (more less : State) (condition : Formula) → IsLeaner more less
        → holds_in less condition ≡ holds_in more condition }
    ensures image { (more less : State) (condition : Formula) (image : List ℕ) → IsLeaner more less
        → holds_on less condition image ≡ holds_on more condition image }
{}

/// What crashes may leave of a program, they may leave of it without what was put in; and each end of its runs has the outcome of an end
/// of those.
pub fn what_more_leaves_less_leaves()
    ensures images { (crashes : Bool) (more less : Object) (image : List ℕ) → IsLoadable more
        → AreAdded more less → IsImageOfRuns crashes (opening more) image
        → IsImageOfRuns crashes (opening less) image }
    ensures ends { (crashes recovered : Bool) (more less : Object) (t : State) → IsLoadable more
        → AreAdded more less → IsEndOf crashes recovered (opening more) t
        → (u : State) × IsEndOf crashes recovered (opening less) u × (outcome_of u ≡ outcome_of t) }
{}

/// What some run of a program breaks, some run of it without what was put in breaks. What each run of the latter keeps, each run of the
/// former keeps.
pub fn more_is_broken_less()
    ensures breaks { (question : Question) (more less : Object) → IsLoadable more → AreAdded more less
        → IsBrokenBy question more → IsBrokenBy question less }
    ensures holds { (question : Question) (more less : Object) → IsLoadable more → AreAdded more less
        → IsKeptBy question less → IsKeptBy question more }
{}

/// A program into which a fence was put, or a flush of a word that is named by its address, or a candidate, has all that it had, and that.
/// It can be loaded.
pub fn what_is_put_in_is_added()
    ensures added { (object : Object) (repair : Repair) (changed : Object) → MayBePutIn object repair
        → repaired object repair ≡ Some changed → AreAdded changed object }
    ensures loadable { (object : Object) (repair : Repair) (changed : Object)
        → repaired object repair ≡ Some changed → IsLoadable changed }
{}

/// Each run of a program into which such an instruction was put is a run of the program as it was, less the steps of what was put in. It
/// leads to the same registers, flags, traps, and coherent and persisted words.
pub fn runs_of_the_changed_are_runs()
    ensures { (crashes : Bool) (object : Object) (repair : Repair) (changed : Object) (steps : List Step)
        (t : State)
        → MayBePutIn object repair → repaired object repair ≡ Some changed
        → IsRun crashes steps (opening changed) t → IsRunToo crashes steps (opening object) t }
{}

/// What holds of a program holds once a fence is put in, or a flush of a word that is named by its address, or a candidate.
pub fn what_holds_stays()
    ensures { (question : Question) (object : Object) (repair : Repair) (changed : Object)
        → MayBePutIn object repair → repaired object repair ≡ Some changed
        → IsKeptBy question object → IsKeptBy question changed }
{}

/// What breaks a program once such an instruction is put in, breaks it without.
pub fn what_breaks_changed_breaks_it()
    ensures { (question : Question) (object : Object) (repair : Repair) (changed : Object)
        → MayBePutIn object repair → repaired object repair ≡ Some changed
        → IsBrokenBy question changed → IsBrokenBy question object }
{}

/// Each candidate of a program may be put in, also a flush by a register: it stands behind an access by that register, which has not
/// trapped and keeps it, and no jump leads to it.
pub fn candidates_may_be_put_in()
    ensures { (object : Object) (repair : Repair) → Contains (candidates_of object) repair
        → MayBePutIn object repair }
{}

/// Candidates of a program, in the order in which all of them are listed, are a set.
pub fn candidates_are_sets()
    ensures { (object : Object) (set : List Repair) → IsWithin (candidates_of object) set
        → IsSet object set }
{}

/// What breaks a program into which a set is put, breaks it where a part of the set is put in: so putting in more breaks no more. What
/// holds with the part, holds with the set.
pub fn more_put_in_breaks_no_more()
    ensures breaks { (question : Question) (object : Object) (more less : List Repair) (changed other : Object)
        → IsSet object more → IsWithin more less
        → with_all more object ≡ Some changed → with_all less object ≡ Some other
        → IsBrokenBy question changed → IsBrokenBy question other }
    ensures holds { (question : Question) (object : Object) (more less : List Repair) (changed other : Object)
        → IsSet object more → IsWithin more less
        → with_all more object ≡ Some changed → with_all less object ≡ Some other
        → IsKeptBy question other → IsKeptBy question changed }
{}
