//! A law of receipts. The function states it by its contract, and does nothing.
ghost use Rattle.std.specs.Prelude.{◌≡◌, List, length};
ghost use Rattle.live.specs.Journal.{IsLegal};
ghost use Rattle.live.specs.declared.journal.JournalEntry.{JournalEntry};
ghost use Rattle.thread_jobs.specs.Dealings.{IsDealt};
ghost use Rattle.thread_jobs.specs.Brought.{AllStand, AllWorked, Brought, receipt_count};
ghost use Rattle.machine.specs.State.{State};
ghost use Rattle.machine.specs.declared.step.Step.{Step};

/// Where each seat made the steps that it was dealt, all receipts are in a legal journal, and it has as
/// many entries as there are receipts, the journal is of just these steps.
#[tactic(auto, using(crate::proofs::ReceiptsTellTheJournal::dealt_whole))]
pub fn receipts_tell_the_journal()
    ensures { (opening : State) (steps : List Step) (es : List JournalEntry) (ws : List Brought)
        → IsLegal opening es → AllWorked 0 (length ws) steps ws → AllStand es ws → length es ≡ receipt_count ws
        → IsDealt opening (length ws) steps es }
{}
