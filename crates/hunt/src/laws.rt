//! Laws of tallies and of hunts. Each function states some by its contract, and does nothing.
ghost use Rattle.std.specs.Prelude.{◌≡◌, ◌+◌, ◌↔◌, ℕ, Bool, false, Some, None, List, length, true};
ghost use Rattle.std.specs.Option.{option_or};
ghost use Rattle.lines_layout.specs.Layouts.{IsLayout};
ghost use Rattle.isa.specs.Objects.{IsObject, Object};
ghost use Rattle.machine.specs.State.{State};
ghost use Rattle.machine.specs.Steps.{run_of};
ghost use Rattle.schedule.specs.declared.plan.Plan.{Plan};
ghost use Rattle.schedule.specs.Schedules.{end_of, schedule_of};
ghost use Rattle.conditions.specs.Formulas.{Formula};
ghost use Rattle.images.specs.Truth.{holds_in};
ghost use Rattle.explore.specs.Ends.{IsEndOf, IsTrueAtEnds};
ghost use Rattle.hunt.specs.Crashes.{least_loss, loses, losses_among};
ghost use Rattle.hunt.specs.Ends.{breaks_end, comes_to_end, ends_among, is_end, both_ends, IsEndAs};
ghost use Rattle.hunt.specs.Least.{FindsFirst, FindsNone, FindsOfBoth, IsFalseBelow, IsLeast, fails, least, least_from};
ghost use Rattle.hunt.specs.Losses.{AreSafe, HasSoundStates, IsLeastLoss, IsSound, TellsBreach, TellsSafe};
ghost use Rattle.hunt.specs.LossSums.{both};
ghost use Rattle.hunt.specs.declared.loss.Loss.{Loss};
ghost use Rattle.hunt.specs.Outcomes.{IsPartOfAll, Observed, is_same};
ghost use Rattle.hunt.specs.Tallies.{CountsEach, CountsNoOther, IsInOrder, joined_tallies, tally, tally_from, total_of};

/// Two outcomes are the same exactly when they are equal.
pub fn same_outcomes_are_equal()
    ensures { (a b : Observed) → (is_same a b ≡ true) ↔ (a ≡ b) }
{}

/// The counts of a tally add up to the number of the outcomes. A pair is there exactly when its outcome
/// comes, with how often it comes. An outcome is before another exactly as it comes first before it, and
/// so none is there twice.
pub fn tallies_count_each_outcome()
    ensures total { (outcomes : List Observed) → total_of (tally outcomes) ≡ length outcomes }
    ensures only { (outcomes : List Observed) → CountsNoOther outcomes }
    ensures always { (outcomes : List Observed) → CountsEach outcomes }
    ensures order { (outcomes : List Observed) → IsInOrder outcomes }
{}

/// The counts of the tally of n schedules add up to n.
pub fn schedules_are_all_counted()
    ensures { (plan : Plan) (s : State) (first n : ℕ) → total_of (tally_from plan s first n) ≡ n }
{}

/// The tally of two ranges, of which the second begins where the first ends, is their tallies, joined.
pub fn tallies_join()
    ensures { (plan : Plan) (s : State) (first a b : ℕ)
        → tally_from plan s first (a + b) ≡ joined_tallies (tally_from plan s first a) (tally_from plan s (first + a) b) }
{}

/// The outcomes of a range are those of all schedules up to its end, without those before it; so from number 0 on they
/// are all.
pub fn ranges_are_parts_of_all()
    ensures { (plan : Plan) (s : State) (first n : ℕ) → IsPartOfAll plan s first n }
{}

/// The least number below n of which a test is true is k exactly when it is true of k, which is below n,
/// and of none below k. There is none exactly when it is true of no number below n.
pub fn least_numbers_are_first()
    ensures some { (test : ℕ → Bool) (n k : ℕ) → (least test n ≡ Some k) ↔ IsLeast test n k }
    ensures none { (test : ℕ → Bool) (n : ℕ) → (least test n ≡ None) ↔ IsFalseBelow test n }
{}

/// The same of the n numbers from `first` on: what is found is the first of them of which the test is true, and from 0 on
/// it is the least number below n. Over two ranges, of which the second begins where the first ends, it is what is found in the
/// first, or where there is none, in the second.
pub fn hunts_join()
    ensures some { (test : ℕ → Bool) (first n : ℕ) → FindsFirst test first n }
    ensures none { (test : ℕ → Bool) (first n : ℕ) → FindsNone test first n }
    ensures all { (test : ℕ → Bool) (n : ℕ) → least_from test 0 n ≡ least test n }
    ensures join { (test : ℕ → Bool) (first a b : ℕ) → FindsOfBoth test first a b }
{}

/// The same of losses, and of how many there are: over two ranges, of which the second begins where the first ends, the
/// numbers add up, and the first is that of the first range, or where there is none, of the second.
pub fn losses_join()
    ensures first { (plan : Plan) (condition : Formula) (start : State) (first a b : ℕ)
        → least_loss plan condition start first (a + b) ≡ option_or (least_loss plan condition start first a) (least_loss plan condition start (first + a) b) }
    ensures count { (plan : Plan) (condition : Formula) (start : State) (first a b : ℕ)
        → losses_among plan condition start first (a + b) ≡ both (losses_among plan condition start first a) (losses_among plan condition start (first + a) b) }
{}

/// The ends to which schedules come are those of `explore`: nothing is left to do and nothing is pending, and some run, from where the
/// schedules begin, reaches them. So where a condition is true at each end that a run reaches, no schedule is found that breaks it at
/// one.
pub fn ends_of_schedules_are_ends_of_runs()
    ensures ends { (recovered : Bool) (s : State) → (is_end recovered s ≡ true) ↔ IsEndAs recovered s }
    ensures reached { (recovered : Bool) (plan : Plan) (start : State) (number : ℕ) → comes_to_end recovered plan start number ≡ true
        → IsEndOf true recovered start (end_of plan number start) }
    ensures kept { (recovered : Bool) (plan : Plan) (condition : Formula) (start : State) → IsTrueAtEnds true recovered condition start
        → (first n : ℕ) → least_from (breaks_end recovered plan condition start) first n ≡ None }
{}

/// The counts of ends of two ranges, of which the second begins where the first ends: the numbers add up, and the first that breaks
/// the condition is that of the first range, or where there is none, of the second.
pub fn ends_join()
    ensures { (recovered : Bool) (plan : Plan) (condition : Formula) (start : State) (first a b : ℕ)
        → ends_among recovered plan condition start first (a + b)
        ≡ both_ends (ends_among recovered plan condition start first a) (ends_among recovered plan condition start (first + a) b) }
{}

/// Where a number is found, the steps of its schedule are a run that is accepted whole, and the condition
/// does not hold in the state that the run leaves.
pub fn found_schedules_break_conditions()
    ensures { (plan : Plan) (condition : Formula) (s : State) (first n k : ℕ) → least_from (fails plan condition s) first n ≡ Some k
        → ((run_of (schedule_of plan k s).steps s).refusal ≡ None)
        × ((run_of (schedule_of plan k s).steps s).accepted ≡ length (schedule_of plan k s).steps)
        × (holds_in (run_of (schedule_of plan k s).steps s).state condition ≡ false) }
{}

/// Of a program that is loaded each state is sound, whatever steps led to it: in particular the one from which schedules
/// run, and each of theirs.
pub fn loaded_machines_are_sound()
    ensures { (object : Object) → IsLayout object.layout → IsObject object → HasSoundStates object }
{}

/// What is reported of a state: none says that no crash leaves a memory that breaks the condition, and that all
/// candidates were looked at; otherwise it is the least image that makes the condition false, or that there are too
/// many candidates. A loaded machine has sound states alone ([`loaded_machines_are_sound`]).
pub fn breaches_are_of_all_images()
    ensures none { (condition : Formula) (s : State) → IsSound s → TellsSafe condition s }
    ensures some { (condition : Formula) (s : State) → IsSound s → TellsBreach condition s }
{}

/// None says that no crash after any turn of any of the n schedules from `first` on leaves a memory that breaks the
/// condition. Otherwise the schedule has the least number of them, and its turn is the least, after which one may leave
/// such a memory.
pub fn least_losses_are_first()
    ensures none { (plan : Plan) (condition : Formula) (start : State) (first n : ℕ) → IsSound start
        → (least_loss plan condition start first n ≡ None) ↔ AreSafe plan condition start first (first + n) }
    ensures some { (plan : Plan) (condition : Formula) (start : State) (first n : ℕ) (loss : Loss) → IsSound start
        → least_loss plan condition start first n ≡ Some loss → IsLeastLoss plan condition start first n loss }
{}

/// A schedule is not counted among those that break the condition exactly when no crash after any turn of it leaves a memory
/// that breaks it.
pub fn lossless_schedules_are_safe()
    ensures { (plan : Plan) (condition : Formula) (start : State) (number : ℕ) → IsSound start
        → (loses plan condition start number ≡ false) ↔ AreSafe plan condition start number (number + 1) }
{}
