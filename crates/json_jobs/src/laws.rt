//! Laws of the reports of commands of one thread as JSON, beside those as text. Each function states some by its contract, and
//! does nothing.
ghost use Rattle.std.specs.Prelude.{◌≡◌};
ghost use Rattle.explore.specs.declared.verdict.Failure.{Failure};
ghost use Rattle.explore.specs.Findings.{Findings};
ghost use Rattle.commands.specs.declared.jobs.CheckOptions.{CheckOptions};
ghost use Rattle.commands.specs.declared.jobs.ImagesOptions.{ImagesOptions};
ghost use Rattle.commands.specs.declared.jobs.Job.TheVariants as jobs;
ghost use Rattle.commands.specs.declared.jobs.NextOptions.{NextOptions};
ghost use Rattle.commands.specs.declared.jobs.OutcomesOptions.{OutcomesOptions};
ghost use Rattle.commands.specs.declared.jobs.ReplayOptions.{ReplayOptions};
ghost use Rattle.commands.specs.declared.jobs.SetOptions.{SetOptions};
ghost use Rattle.commands.specs.declared.jobs.TraceOptions.{TraceOptions};
ghost use Rattle.commands.specs.Serving.{Sources};
ghost use Rattle.jobs.specs.declared.explained.Explained.{Explained};
ghost use Rattle.jobs.specs.declared.start.Start.{Start};
ghost use Rattle.jobs.specs.CheckReports as check_texts;
ghost use Rattle.jobs.specs.Reports as texts;
ghost use Rattle.jobs.specs.RunCommands as text_commands;
ghost use Rattle.json_jobs.specs.JsonAnswers.{json_work};
ghost use Rattle.json_jobs.specs.RunReports.{check_command, failed_report, found_report, outcomes_command};
ghost use Rattle.json_jobs.specs.SameStatuses.{EndAlike, MayEndAlike};

/// Each command ends the same with its report as JSON and as text. It is refused for the same reason, or its report has
/// the same status. Something may be missing in the same stages. So where nothing is missing, the same refusal is told,
/// or the exit status is the same. `check` and `outcomes` may report any right verdict: as the one may end, the other
/// may end too. The two reports of one verdict have the same status.
pub fn statuses_are_those_of_text()
    ensures run { (both : Sources) → EndAlike (json_work jobs.Run both) (texts.run_work both.program both.steps) }
    ensures images { (options : ImagesOptions) (both : Sources)
        → EndAlike (json_work (jobs.Images options) both) (texts.images_work options both.program both.steps) }
    ensures set { (options : SetOptions) (both : Sources)
        → EndAlike (json_work (jobs.Set options) both) (texts.set_work options both.program both.steps) }
    ensures law { (both : Sources) → EndAlike (json_work jobs.Law both) (texts.law_work both.program both.steps) }
    ensures trace { (options : TraceOptions) (both : Sources)
        → EndAlike (json_work (jobs.Trace options) both) (texts.trace_work both.program both.steps) }
    ensures next { (options : NextOptions) (both : Sources)
        → EndAlike (json_work (jobs.Next options) both) (texts.next_work options both.program both.steps) }
    ensures replay { (options : ReplayOptions) (both : Sources)
        → EndAlike (json_work (jobs.Replay options) both) (texts.replay_work options both.program both.steps) }
    ensures asm { (both : Sources) → EndAlike (json_work jobs.Asm both) (texts.asm_work both.program) }
    ensures dis { (both : Sources) → EndAlike (json_work jobs.Dis both) (texts.dis_work both.program) }
    ensures check { (options : CheckOptions) → MayEndAlike (check_command options) (text_commands.check_command options) }
    ensures found_report { (options : CheckOptions) (start : Start) (found : Findings)
        → (found_report start found).status ≡ (check_texts.found_report options start found).status }
    ensures failed_report { (options : CheckOptions) (start : Start) (failure : Failure) (told : Explained)
        → (failed_report options start failure told).status ≡ (check_texts.failed_report options start failure told).status }
    ensures outcomes { (options : OutcomesOptions)
        → MayEndAlike (outcomes_command options) (text_commands.outcomes_command options) }
{}
