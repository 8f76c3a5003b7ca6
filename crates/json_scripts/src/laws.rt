//! A law of the report of `debug` as JSON, beside that in lines. The function states it by its contract, and does nothing.
ghost use Rattle.commands.specs.Serving.{Sources};
ghost use Rattle.commands.specs.Works.{and_then};
ghost use Rattle.debug_scripts.specs.DebugPlans.{orders_work, plan_work};
ghost use Rattle.json_jobs.specs.SameStatuses.{EndAlike};
ghost use Rattle.json_scripts.specs.DebugData.{debug_work};

/// `debug` ends the same with its report as JSON and in lines. It is refused for the same reason, or its report has the same
/// status, and something may be missing in the same stages.
pub fn status_is_that_in_lines()
    ensures { (both : Sources) → EndAlike (debug_work both) (and_then (plan_work both.program both.steps) orders_work) }
{}
