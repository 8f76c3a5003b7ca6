//! Why one memory for each fence is enough. Each law is the contract of a function that does nothing.
ghost use Rattle.std.specs.Prelude.{◌≡◌, ◌⊎◌, ◌↔◌, ℕ, ◌+◌, ◌<◌, true, false, List, ◌∷◌, ◌++◌, Contains, length};
ghost use Rattle.std.specs.List.{list_any};
ghost use Rattle.pending_images.specs.Changes.{IsReached};
ghost use Rattle.store_buffer.specs.Buffers.{buffer_room};
ghost use Rattle.machine.specs.State.{Processor, State};
ghost use Rattle.conditions.specs.Formulas.{Formula};
ghost use Rattle.conditions.specs.Truth.{reads_persisted};
ghost use Rattle.images.specs.Images.{image_at};
ghost use Rattle.images.specs.Truth.{holds_on};
ghost use Rattle.explore.specs.Reachable.{IsAlwaysKept, IsReachable};
ghost use Rattle.explore.specs.Sound.{IsSound};
ghost use Rattle.explore.specs.declared.event.Event.{Event};
ghost use Rattle.explore.specs.Alone.{ends_alone, events_alone};
ghost use Rattle.explore.specs.FenceMemories.{IsReachedInOne, entries_of, fence_memories, fences_in, is_fence, stored_again, with_flushed};
ghost use Rattle.explore.specs.OneProcessor.{IsAlone, IsClosedUnderCrashes, IsLeftAlone, RunsOutOfRoom, RunsOutOfTurns};
ghost use Rattle.explore.specs.StraightLine.{IsLeftBy, nothing_pending};

/// What crashes anywhere in the runs of a straight-line program may leave is what crashes in its memories at fences may leave, no
/// less and no more. There is one such memory for each fence and one for the end.
pub fn one_memory_a_fence_is_enough()
    ensures exact { (events : List Event) (old persisted : List ℕ)
        → (IsLeftBy events (nothing_pending old) persisted)
        ↔ IsReachedInOne (fence_memories events old) persisted }
    ensures count { (events : List Event) (old : List ℕ)
        → length (fence_memories events old) ≡ fences_in events + 1 }
{}

/// A straight-line program may be cut at its first fence, and nothing is lost. What its crashes may leave is what those of the
/// window before the fence may leave, and those of the rest. The rest begins with the values that the window has flushed, and it
/// makes the stores again that the window has not flushed.
pub fn windows_lose_nothing()
    ensures { (window rest : List Event) (fence : Event) (old persisted : List ℕ)
        → list_any is_fence window ≡ false → is_fence fence ≡ true
        → (IsLeftBy (window ++ fence ∷ rest) (nothing_pending old) persisted)
        ↔ ((IsLeftBy window (nothing_pending old) persisted)
        ⊎ IsLeftBy (stored_again window ++ fence ∷ rest)
        (nothing_pending (with_flushed (entries_of window) old)) persisted) }
{}

/// If a machine has one processor whose program comes to an end, then what a crash may leave in any state that a run without
/// a crash reaches, one of the memories at the fences of the program leaves, which is run alone. If it comes to no end, one of the
/// memories of its first n instructions does, for some n.
pub fn a_processor_alone_needs_no_search()
    ensures ends { (most : ℕ) (s t : State) (c : Processor) (persisted : List ℕ) → IsSound s
        → IsAlone s c
        → ends_alone most s c ≡ true → IsReachable false s t → IsReached t.memory persisted
        → IsLeftAlone most s c persisted }
    ensures always { (s t : State) (c : Processor) (persisted : List ℕ) → IsSound s → IsAlone s c
        → IsReachable false s t → IsReached t.memory persisted
        → (n : ℕ) × IsLeftAlone n s c persisted }
{}

/// What one of these memories leaves, a crash leaves in some state that a run without a crash reaches, so none is a false alarm.
/// This is not said where some run without a crash comes to have no room, or no turn left. If the program comes to an end and
/// has fewer than 128 events, there is always room.
pub fn no_false_alarm()
    ensures happens { (most : ℕ) (s : State) (c : Processor) (persisted : List ℕ) → IsSound s
        → IsAlone s c
        → IsLeftAlone most s c persisted → (RunsOutOfRoom s) ⊎ (RunsOutOfTurns s)
        ⊎ ((t : State) × IsReachable false s t × IsReached t.memory persisted) }
    ensures has_room { (most : ℕ) (s : State) (c : Processor) → IsSound s → IsAlone s c
        → ends_alone most s c ≡ true → length (events_alone most s c) < buffer_room
        → RunsOutOfRoom s → ⊥ }
{}

/// A list of persisted values that is closed under crashes holds all that a crash of a machine with one processor may leave, after
/// any number of crashes and recoveries. A recovery may crash too.
pub fn crash_after_crash_needs_no_search()
    ensures { (most : ℕ) (start t : State) (c : Processor) (list : List (List ℕ))
        (persisted : List ℕ)
        → IsSound start → IsAlone start c → IsClosedUnderCrashes most start c list
        → IsReachable true start t → IsReached t.memory persisted → Contains list persisted }
{}

/// A condition on persisted values that holds for all images of such a list is true of what any crash in any run leaves.
pub fn a_condition_is_checked_by_memories()
    ensures { (most : ℕ) (start : State) (c : Processor) (list : List (List ℕ))
        (condition : Formula)
        → IsSound start → IsAlone start c → IsClosedUnderCrashes most start c list
        → reads_persisted condition ≡ true
        → ((persisted : List ℕ) → Contains list persisted
        → holds_on start condition (image_at start.shape persisted) ≡ true)
        → IsAlwaysKept true condition start }
{}
