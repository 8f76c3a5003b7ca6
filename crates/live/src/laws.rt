//! Laws of journals and receipts. Each function states one by its contract, and does nothing.
ghost use Rattle.std.specs.Prelude.{◌≡◌, ◌↔◌, ◌++◌, List, [], ◌∷◌, All, length};
ghost use Rattle.live.specs.Journal.{AreAccepted, IsLegal, Stands, answer_to, replay, whole_end};
ghost use Rattle.live.specs.Receipts.{Rises, receipts_from};
ghost use Rattle.live.specs.declared.journal.JournalEntry.{JournalEntry};
ghost use Rattle.live.specs.declared.journal.Receipt.{Receipt};
ghost use Rattle.machine.specs.State.{State};
ghost use Rattle.machine.specs.Steps.{run_of};
ghost use Rattle.machine.specs.declared.step.Step.{Step};

/// A journal is legal exactly when each of its calls was answered as in the state that the calls before it
/// leave, call by call.
#[tactic(auto, using(crate::proofs::LegalJournalsReplay::legal_to_the_last))]
pub fn legal_journals_replay()
    ensures none { (s : State) → IsLegal s [] }
    ensures more { (s : State) (es : List JournalEntry) (e : JournalEntry)
        → IsLegal s (es ++ e ∷ []) ↔ IsLegal s es × (e.answer ≡ answer_to (replay s es) e.call) }
{}

/// Where the calls of a legal journal are steps and none was refused, its replay is where the run of these
/// steps ends, which is accepted whole.
pub fn only_steps_count()
    ensures { (s : State) (steps : List Step) (es : List JournalEntry)
        → IsLegal s es → AreAccepted steps es → run_of steps s ≡ whole_end steps (replay s es) }
{}

/// Receipts of rising numbers that all are in a journal, as many as it has entries, are the journal, in
/// order.
#[tactic(auto, using(crate::proofs::ReceiptsAreTheJournal::whole))]
pub fn receipts_are_the_journal()
    ensures { (es : List JournalEntry) (rs : List Receipt)
        → Rises 0 rs → All (Stands es) rs → length rs ≡ length es → rs ≡ receipts_from 0 es }
{}
