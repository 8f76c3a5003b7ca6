//! Why a few states speak for all. Each law is the contract of a function that does nothing.
ghost use Rattle.std.specs.Prelude.{◌≡◌, ◌⊎◌, ◌&&◌, ◌+◌, ◌<◌, ◌≤◌, ℕ, Bool, true, false, None, Ok, Some, List, Contains, length, map};
ghost use Rattle.std.specs.List.{list_any};
ghost use Rattle.isa.specs.Objects.{Object, IsObject, shape};
ghost use Rattle.lines_layout.specs.Shapes.{IsShape};
ghost use Rattle.machine.specs.declared.step.Seen.{Seen};
ghost use Rattle.machine.specs.declared.step.Step.{Step};
ghost use Rattle.machine.specs.declared.step.Step.TheVariants.{Persist, Settle};
ghost use Rattle.machine.specs.Limits.{max_turns};
ghost use Rattle.machine.specs.Objects.{opening};
ghost use Rattle.machine.specs.Processors.{restart_of};
ghost use Rattle.machine.specs.State.{State};
ghost use Rattle.machine.specs.Steps.{run_of, step_of};
ghost use Rattle.persist_buffer.specs.declared.entry.PendingEntry.{PendingEntry};
ghost use Rattle.persist_buffer.specs.State.{Memory};
ghost use Rattle.pending_images.specs.Changes.{IsReached};
ghost use Rattle.images.specs.Images.{IsImage};
ghost use Rattle.conditions.specs.Formulas.{Formula};
ghost use Rattle.conditions.specs.Truth.{reads_registers};
ghost use Rattle.explore.specs.declared.question.Question.{Question};
ghost use Rattle.explore.specs.Ahead.{AreClosedFrom, IsCoveredAhead, IsOwnStep, IsTried, LeadsAhead, is_unmixed};
ghost use Rattle.explore.specs.Canonical.{canonical};
ghost use Rattle.explore.specs.Covering.{IsLike, StandsFor, grown};
ghost use Rattle.explore.specs.Ends.{all_run_as, CrashesAlone, IsEnd, IsEndOf};
ghost use Rattle.explore.specs.Explored.{IsEndNode, have_ended};
ghost use Rattle.explore.specs.Gathered.{IsNotedBy};
ghost use Rattle.explore.specs.Ran.{Executes};
ghost use Rattle.explore.specs.Reachable.{is_crash, IsAlwaysKept, IsReachable, IsRun};
ghost use Rattle.explore.specs.RunImages.{HasImagesOf, IsImageOfRuns};
ghost use Rattle.explore.specs.Keys.{key_of};
ghost use Rattle.explore.specs.LineSets.{AreHeld, Within};
ghost use Rattle.explore.specs.Questions.{is_move};
ghost use Rattle.explore.specs.Sound.{IsOf, IsSound};

/// A loaded machine has sound states alone, after any steps; and its processors run their main programs at first.
pub fn loaded_machines_are_sound()
    ensures sound { (o : Object) (steps : List Step) → IsShape (shape o) → IsObject o
        → IsSound (run_of steps (opening o)).state }
    ensures fresh { (o : Object) → all_run_as false (opening o).processors ≡ true }
{}

/// States that are closed stand for all that runs reach: each such state is covered by one of them, and so a condition that
/// each of them keeps is kept by all. Where local steps count as a processor's own, this is said of conditions that read no
/// register; and where keys tell what each line may hold, of conditions that test persisted values alone, or none. What a crash
/// may leave in a state that a run reaches, it may leave in one of them in which no step is a processor's own.
pub fn closed_states_stand_for_all()
    ensures covered { (sets locals : Bool) (question : Question) (nodes : List State) (start t : State)
        → AreClosedFrom sets locals question nodes start
        → IsReachable question.crashes start t → IsCoveredAhead sets locals question nodes t }
    ensures kept { (sets locals : Bool) (question : Question) (condition : Formula)
        (nodes : List State) (start : State)
        → (locals && reads_registers condition) ≡ false
        → (sets ≡ true → is_unmixed condition ≡ true) → question.all ≡ Some condition
        → AreClosedFrom sets locals question nodes start
        → IsAlwaysKept question.crashes condition start }
    ensures images { (sets locals : Bool) (question : Question) (nodes : List State) (start : State)
        (image : List ℕ)
        → AreClosedFrom sets locals question nodes start → IsImageOfRuns question.crashes start image
        → (r : State) × Contains nodes r × IsTried sets locals question nodes r × IsImage r image }
{}

/// A processor's own step leads to a state that covers the one before, and fewer own steps are left there: so they end, and
/// neither other steps nor crashes need be explored before them.
pub fn own_steps_come_first()
    ensures { (sets locals : Bool) (s t : State) → IsOwnStep locals s t → LeadsAhead sets locals s t }
{}

/// Pending lists of one canonical form: the same is reached, whatever is appended to both, and the coherent values are the
/// same.
pub fn canonical_lists_stand_for_each_other()
    ensures { (a b : Memory) → b.persisted ≡ a.persisted → canonical b.pending ≡ canonical a.pending
        → StandsFor a b }
{}

/// A persist adds no image, and a settle adds none: what a crash may leave after one of them, it may leave before.
pub fn persisting_adds_no_image()
    ensures persist { (s t : State) (line : ℕ) (seen : Seen) → IsSound s
        → step_of s (Persist line) ≡ Ok (seen, t) → HasImagesOf s t }
    ensures settle { (s t : State) (seen : Seen) → IsSound s → step_of s Settle ≡ Ok (seen, t)
        → HasImagesOf s t }
{}

/// A crash forgets what own steps did: processors restart alike before such a step and after it, and what a crash may leave
/// before it, one may leave after it.
pub fn crashes_forget_own_steps()
    ensures restarts { (locals : Bool) (s t : State) → IsOwnStep locals s t
        → map restart_of s.processors ≡ map restart_of t.processors }
    ensures images { (locals : Bool) (s t : State) → IsOwnStep locals s t → HasImagesOf t s }
{}

/// A key hides no state: two states of one machine with one key are the same but for the counts of turns and crashes, and for what
/// the canonical form of the pending list leaves out; or, where keys tell what each line may hold, in each of them each line may
/// hold the same as in the other.
pub fn keys_hide_no_state()
    ensures { (sets : Bool) (start a b : State) → IsOf start a → IsOf start b
        → key_of sets a ≡ key_of sets b → IsLike sets a b }
{}

/// Lines do not wait for each other in what they may hold: with any choice of such values, one for each line, a crash may leave
/// the memory.
pub fn crashes_leave_what_lines_hold()
    ensures { (s : State) (persisted : List ℕ) → IsSound s → AreHeld s.memory persisted
        → IsReached s.memory persisted }
{}

/// A crash may leave no more than that, and what it might have left before: after a step of a processor a crash leaves what one
/// might have left before the step, or what the lines may hold.
pub fn lines_hold_what_crashes_leave()
    ensures { (s t : State) (step : Step) (seen : Seen) (persisted : List ℕ) → IsSound s
        → is_move step ≡ true → step_of s step ≡ Ok (seen, t) → IsReached t.memory persisted
        → IsReached s.memory persisted ⊎ AreHeld t.memory persisted }
{}

/// Of two memories the one has all of the other still, once the same was appended to both, and once the other persisted what was
/// pending. So no later step tells them apart, but for room in the pending list.
pub fn what_lines_hold_decides_what_they_will()
    ensures appended { (one other : Memory) (more : List PendingEntry) → Within one other
        → Within (grown one more) (grown other more) }
    ensures persist { (s t : State) (line : ℕ) (seen : Seen) → IsSound s
        → step_of s (Persist line) ≡ Ok (seen, t) → Within s.memory t.memory }
    ensures settle { (s t : State) (seen : Seen) → IsSound s → step_of s Settle ≡ Ok (seen, t)
        → Within s.memory t.memory }
{}

/// At an end a crash alone is accepted; and where a crash alone is, that is an end.
pub fn ends_are_still()
    ensures alone { (s : State) → IsEnd s → CrashesAlone s }
    ensures still { (s : State) → IsSound s → s.turns < max_turns → CrashesAlone s → IsEnd s }
{}

/// An end that a run reaches is a closed state whose processors have ended, with all that is pending persisted; and each such
/// state that a run reaches gives an end. From the main programs, a run has crashed exactly when recovery programs run.
pub fn ends_are_nodes()
    ensures node { (sets locals : Bool) (question : Question) (nodes : List State)
        (recovered : Bool) (start t : State)
        → AreClosedFrom sets locals question nodes start
        → IsEndOf question.crashes recovered start t
        → (r : State) × Contains nodes r × IsTried sets locals question nodes r
        × IsEndNode recovered r t }
    ensures end { (crashes recovered : Bool) (start r : State) (path : List Step) → IsSound r
        → IsRun crashes path start r → have_ended recovered r ≡ true
        → r.turns + length r.memory.pending ≤ max_turns
        → (t : State) × IsEndOf crashes recovered start t × IsEndNode recovered r t }
    ensures crashed { (steps : List Step) (start : State) → (run_of steps start).refusal ≡ None
        → all_run_as false start.processors ≡ true
        → all_run_as (list_any is_crash steps) (run_of steps start).state.processors ≡ true }
{}

/// An instruction that some run executes, is noted at one of the closed states: this executes it, or one of the own steps that
/// follow it or a step of it does.
pub fn what_runs_is_run_by_nodes()
    ensures { (sets locals : Bool) (question : Question) (nodes : List State) (start t : State)
        → AreClosedFrom sets locals question nodes start → IsReachable question.crashes start t
        → (p : ℕ) (recovery : Bool) (place : ℕ) → Executes t p recovery place
        → IsNotedBy locals nodes p recovery place }
{}
