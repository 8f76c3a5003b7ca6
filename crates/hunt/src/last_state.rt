//! Running a schedule of a search.
ghost use Rattle.std.specs.Prelude.{◌≡◌};
ghost use Rattle.machine.specs.Programs.{AreSiblings};
ghost use Rattle.schedule.specs.Schedules.{end_of};

use crate::search::Search;
use machine::Machine;
use schedule::run_plan;

/// Brings a machine of the same programs to the last state of the schedule of a number.
pub(crate) fn run_to_last(search: &Search, own: &mut Machine, number: u64)
    requires { AreSiblings own.old search.now.machine }
    ensures state { own.new ≡ end_of search.now.plan number search.now.machine }
    ensures programs { AreSiblings own.new search.now.machine }
{
    own.restore(&search.machine);
    run_plan(own, &search.plan, number);
}
