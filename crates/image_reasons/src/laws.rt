//! What is kept of a run, and what a repaired program is. Each function states some of it by its contract, and does nothing.
ghost use Rattle.std.specs.Prelude.{◌≡◌, ℕ, List, None, Some, length, slice_get};
ghost use Rattle.lines_layout.specs.Lines.{max_lines, max_words};
ghost use Rattle.lines_layout.specs.Shapes.{IsShape};
ghost use Rattle.isa.specs.declared.programs.Programs.{Programs};
ghost use Rattle.isa.specs.Objects.{IsObject, Object};
ghost use Rattle.persist_buffer.specs.Listings.{LinesBelow};
ghost use Rattle.machine.specs.declared.step.Step.{Step};
ghost use Rattle.machine.specs.Objects.{opening};
ghost use Rattle.machine.specs.Steps.{run_of};
ghost use Rattle.image_reasons.specs.declared.missing.Missing.{Missing};
ghost use Rattle.image_reasons.specs.declared.repair.Repair.{Repair};
ghost use Rattle.image_reasons.specs.Lost.{AreAllTold, AreLost};
ghost use Rattle.image_reasons.specs.Origins.{AreOrigins, origins_of, trace_of};
ghost use Rattle.image_reasons.specs.PutIn.{HasOneMore, IsNoRepair, IsThere, OthersStay, RestStays, code_there};
ghost use Rattle.image_reasons.specs.Reasoned.{AreReasoned};
ghost use Rattle.image_reasons.specs.Reasons.{missing_after};
ghost use Rattle.image_reasons.specs.Repairs.{repaired};
ghost use Rattle.image_reasons.specs.Told.{AreTold};

/// What is kept of any run has the entries of the machine's store buffers and of its pending list, place by place.
pub fn entries_are_there()
    ensures { (object : Object) (steps : List Step) →
        AreOrigins (origins_of object steps) (run_of steps (opening object)).state }
{}

/// Nothing that persisted is called missing. Of each write that is, the image has another value, and the write is still in a
/// store buffer, or it is pending and the least closed set that leaves the image does not hold it. If the reason is a flush that
/// is pending behind it, the set does not hold that flush's marker either. The memory is one that a pending list can have.
pub fn missing_writes_are_lost()
    ensures { (object : Object) (steps : List Step) (image : List ℕ) (missing : List Missing) →
        let s = (run_of steps (opening object)).state in
        IsShape s.shape → LinesBelow max_lines s.memory.pending → length s.memory.persisted ≡ max_words
        → missing_after object steps image ≡ Some missing → AreLost s image missing }
{}

/// No missing write is left out. Each write of which the image has another value is told, if it is pending and the least closed set
/// that leaves the image does not hold it, or if it is still in a store buffer. The memory is again one that a pending list can have.
pub fn missing_writes_are_all()
    ensures { (object : Object) (steps : List Step) (image : List ℕ) (missing : List Missing) →
        let s = (run_of steps (opening object)).state in
        IsShape s.shape → LinesBelow max_lines s.memory.pending → length s.memory.persisted ≡ max_words
        → missing_after object steps image ≡ Some missing → AreAllTold s image missing }
{}

/// The site that is told of a missing write is that of an instruction that ran and wrote this value to this word. It is said to be of
/// the recovery program exactly if a crash came before. The flush in a reason is one of the line of the word that ran, and each store
/// in it is a write.
pub fn sites_are_where_they_ran()
    ensures { (object : Object) (steps : List Step) (image : List ℕ) (missing : List Missing) →
        missing_after object steps image ≡ Some missing → AreTold (trace_of steps (opening object)) missing }
{}

/// The reason that is told of a missing write is so, and the write ran since the last crash. `NeverFlushed`: since then no step
/// executed a flush of the line. `FlushedBefore`: the flush ran since then, and no later step executed one of the line. It ran before
/// the write, or a step in which a flush of the line left its processor's store buffer is before one in which such a write took effect.
/// Each flush of the line that a store buffer holds may be of a step before the write. `FlushBuffered`: the flush ran after the write,
/// and the store buffer of its processor holds a flush of the line. The store that has passed it ran later, on the same processor, and
/// a write of its word and value has persisted since the crash, or is pending. If none is told, each pending write may be of a step
/// that has not passed it. `FlushBehind`: the flush is so too. The store ran between the write and it, on the flush's processor, and a
/// write of its word and value has persisted, or is in the least closed set that leaves the image. In these four cases no marker of the
/// line is pending behind the write. `FlushPending`: one is, and the flush ran since the last crash. `InStoreBuffer` and `StoredAfter`:
/// the store buffer of its processor holds the write. The store ran before it, on the same processor and line, and has persisted or is
/// in that set. Which flush of the line is told is not said: it need not be the one that is pending or buffered.
pub fn reasons_are_so()
    ensures { (object : Object) (steps : List Step) (image : List ℕ) (missing : List Missing) →
        let end = run_of steps (opening object) in
        missing_after object steps image ≡ Some missing
        → AreReasoned (trace_of steps (opening object)) end.state image missing }
{}

/// A repaired program is the old one with one instruction more. Where the site is that of an instruction, it stands on the side
/// of that one, the others are in their order, and jumps lead to where they led. Each other program, names, and values are what
/// they were. What was an object is one. Where there is none, though there is such a processor, what would come out is no program
/// or cannot be loaded.
pub fn one_instruction_is_put_in()
    ensures code { (object : Object) (repair : Repair) (changed : Object)
        → repaired object repair ≡ Some changed → IsThere object repair
        → HasOneMore repair (code_there object repair) (code_there changed repair) }
    ensures others { (object : Object) (repair : Repair) (changed : Object)
        → repaired object repair ≡ Some changed → OthersStay object repair changed }
    ensures rest { (object : Object) (repair : Repair) (changed : Object)
        → repaired object repair ≡ Some changed → RestStays object changed }
    ensures object { (object : Object) (repair : Repair) (changed : Object)
        → repaired object repair ≡ Some changed → IsObject object → IsObject changed }
    ensures none { (object : Object) (repair : Repair) (programs : Programs)
        → repaired object repair ≡ None → slice_get object.processors repair.site.processor ≡ Some programs
        → IsNoRepair object repair programs }
{}
