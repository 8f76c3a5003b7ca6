//! A law of the reports of schedules and of `live` as JSON, beside those as text. The function states it by its contract, and does nothing.
ghost use Rattle.std.specs.Prelude.{◌≡◌, List, ℕ, Option};
ghost use Rattle.lines_layout.specs.Layouts.{NamedLines};
ghost use Rattle.litmus_text.specs.declared.text_lines.LinedObject.{LinedObject};
ghost use Rattle.machine.specs.State.{State};
ghost use Rattle.live.specs.declared.journal.JournalEntry.{JournalEntry};
ghost use Rattle.hunt.specs.Outcomes.{Observed};
ghost use Rattle.hunt.specs.declared.end_counts.EndCounts.{EndCounts};
ghost use Rattle.hunt.specs.declared.losses.Losses.{Losses};
ghost use Rattle.commands.specs.declared.jobs.HuntOptions.{HuntOptions};
ghost use Rattle.thread_jobs.specs.HuntStarts.{HuntStart};
ghost use Rattle.thread_jobs.specs.TextReports.{text_journals, text_reports};
ghost use Rattle.thread_jobs.specs.declared.found.Found.{Found};
ghost use Rattle.json_jobs.specs.JsonForm.{json_reports};
ghost use Rattle.json_jobs.specs.LiveData.{json_journals};

/// Whatever is found, its report as JSON has the status of its report as text. What is read, refused, hunted and shared is defined
/// once for both, in `thread_jobs`.
pub fn statuses_are_those_of_text()
    ensures tally { (layout : NamedLines) (tally : List (Observed × ℕ))
        → (json_reports.of_tally layout tally).status ≡ (text_reports.of_tally layout tally).status }
    ensures losses { (runs : ℕ) (losses : Losses)
        → (json_reports.of_losses runs losses).status ≡ (text_reports.of_losses runs losses).status }
    ensures ends { (runs : ℕ) (counts : EndCounts)
        → (json_reports.of_ends runs counts).status ≡ (text_reports.of_ends runs counts).status }
    ensures hunt { (options : HuntOptions) (start : HuntStart) (found : Option Found) (ended : Option ℕ)
        → (json_reports.of_hunt options start found ended).status ≡ (text_reports.of_hunt options start found ended).status }
    ensures live { (lined : LinedObject) (journal : List JournalEntry) (s : State)
        → (json_journals lined journal s).status ≡ (text_journals lined journal s).status }
{}
