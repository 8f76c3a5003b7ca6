//! What a parse found that `fences` and `mend` ask of all runs.
ghost use Rattle.std.specs.Prelude.{◌≡◌, ◌&&◌, not};
ghost use Rattle.clap.specs.Words.{found_of, rows_of};
ghost use Rattle.px86.specs.CommandLines.{has_condition, lacks_recovery, AreAskedRuns, AreFencesOptions, AreMendOptions, Finds};

use crate::options::{
    has_condition, is_given, lacks_recovery, only_of, states_of, value, worker_count,
};
use clap::ArgMatches;
use commands::{AskedRuns, FencesOptions, MendOptions};

/// Whether a condition is asked, and none of recovery where that is not explored.
fn may_ask(matches: &ArgMatches<'_>) -> bool
    ensures { result ≡ (has_condition (rows_of (found_of matches.now))
        && not (lacks_recovery (rows_of (found_of matches.now)))) }
{
    has_condition(matches) && !lacks_recovery(matches)
}

/// What a parse found that is asked of all runs.
fn asked_runs<'a>(matches: &ArgMatches<'a>) -> Option<AskedRuns<'a>>
    ensures { Finds (AreAskedRuns (rows_of (found_of matches.now))) result }
{
    let states = states_of(matches)?;
    if may_ask(matches) {
        Some(AskedRuns {
            all: value(matches, "all"),
            ends: value(matches, "ends"),
            recovered: value(matches, "recovered"),
            before_crash: is_given(matches, "before-crash"),
            states,
        })
    } else {
        None
    }
}

/// What a parse found that `fences` is asked.
pub(crate) fn fences_options<'a>(matches: &ArgMatches<'a>) -> Option<FencesOptions<'a>>
    ensures { Finds (AreFencesOptions (rows_of (found_of matches.now))) result }
{
    let asked = asked_runs(matches)?;
    let only = only_of(matches)?;
    Some(FencesOptions { asked, only })
}

/// What a parse found that `mend` is asked. How many workers it has is told apart: the report is the same for any number.
pub(crate) fn mend_options<'a>(matches: &ArgMatches<'a>) -> Option<MendOptions<'a>>
    ensures { Finds (AreMendOptions (rows_of (found_of matches.now))) result }
{
    let asked = asked_runs(matches)?;
    let _workers = worker_count(matches)?;
    Some(MendOptions {
        asked,
        as_text: is_given(matches, "as-text"),
    })
}
