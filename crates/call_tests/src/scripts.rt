//! A script of the debugger, read in one call and played in another: between the two, stops and watchers are made by the
//! caller.
ghost use Rattle.std.specs.Prelude.{◌≡◌, [], ◌∷◌, map, IfOk};
ghost use Rattle.images.specs.Truth.{holds_in};
ghost use Rattle.debugger.specs.Notes.{meaning};
ghost use Rattle.debugger.specs.Stops.{armed};
ghost use Rattle.debugger.specs.Writes.{word_selection};
ghost use Rattle.debugger.specs.Sessions.{watch};
ghost use Rattle.debug_scripts.specs.DebugPlans.{stop_ordered, watch_ordered};

use crate::machines::ONE_WRITE;
use commands::Metered;
use debug_scripts::{DebugPlan, StopOrder, WatchOrder, debug_read, debug_run};
use debugger::{Attached, Stop, Watcher, WordWatch};
use images::holds;
use machine::Machine;
use std::alloc::Global;
use std::test::Fail;

/// A stop of an order.
fn stop_of(alloc: Global, order: &StopOrder) -> Result<Stop, Fail>
    ensures { IfOk result (λ stop. armed stop.id stop.cond ≡ stop_ordered order.now) }
{
    let asked = order.cond.copy(alloc)?;
    let cond = order.cond.copy(alloc)?;
    let test = Box::new(
        alloc,
        move |machine: &Machine| -> bool
            ensures { result ≡ holds_in machine.now asked }
        { holds(&asked, &machine.view()) },
    )?;
    Ok(Stop::new(order.id, cond, test))
}

/// The stops of a plan that orders one.
fn stops_of(alloc: Global, plan: &DebugPlan) -> Result<Vec<Stop>, Fail>
    ensures { IfOk result (λ stops. map (λ t. armed t.id t.cond) stops.items ≡ map stop_ordered plan.now.script.stops) }
{
    let [order] = plan.stops() else {
        return Err(Fail::new("not one stop"));
    };
    let mut stops = Vec::new(alloc);
    stops.push(stop_of(alloc, order)?)?;
    Ok(stops)
}

/// The watchers of an order: this one, under its id.
fn watchers_of(
    alloc: Global,
    order: WatchOrder,
    watcher: Box<dyn Watcher>,
) -> Result<Vec<Attached>, Fail>
    requires { meaning_of watcher ≡ meaning [] (word_selection order.word) }
    ensures { IfOk result (λ watchers. map (λ w. watch w.id (meaning_of w.watcher)) watchers.items ≡ watch_ordered order ∷ []) }
{
    let id = order.id;
    let mut watchers = Vec::new(alloc);
    watchers.push(Attached { id, watcher })?;
    Ok(watchers)
}

/// What a script with one stop and one watch reports of a program.
fn report_of(alloc: Global, program: &str, script: &str) -> Result<Vec<u8>, Fail> {
    let mut program = Metered::new(program.as_bytes());
    let mut script = Metered::new(script.as_bytes());
    let plan = debug_read(alloc, &mut program, &mut script)?;
    let stops = stops_of(alloc, &plan)?;
    let [order] = plan.watches() else {
        return Err(Fail::new("not one watch"));
    };
    let order = *order;
    let watcher = Box::new(alloc, WordWatch::new(alloc, order.word))?;
    let watchers = watchers_of(alloc, order, watcher)?;
    let mut out = Metered::new(Vec::new(alloc));
    debug_run(alloc, plan, stops, watchers, &mut out)?;
    Ok(out.into_inner())
}

/// A write is buffered, and leaves the store buffer in the second step.
const SCRIPT: &str = "stop 7 coherent x = 1\nwatch 3 x\nexec 0\ndrain 0 0\npersist 0\ngo\n";

/// The script stops there, and the watch has noted it.
const REPORT: &str = "stop 7 2\nwatch 3 1\n  2 left 0 0 W x 1\n";

#[test]
fn a_script_is_played_as_it_was_read(rt: HostRuntime) -> Result<(), Fail> {
    let report = report_of(rt.alloc(), ONE_WRITE, SCRIPT)?;
    let is_that = report.as_slice() == REPORT.as_bytes();
    drop(report);
    assert!(rt; is_that);
    Ok(())
}
