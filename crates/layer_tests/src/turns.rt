//! The turns of a schedule, one by one.
use crate::machines::{DRAIN, EXEC, loaded};
use machine::{Machine, Step};
use schedule::{Plan, Turns, plan_steps, run_plan};
use std::test::Fail;

/// A processor that writes 1 to the only word, x.
const ONE_WRITE: &str = "litmus 1\nline x\ncpu\nmov [x], 1\nend\n";

/// Whether the next turn makes a step.
fn goes_on(machine: &mut Machine, turns: &mut Turns) -> bool {
    turns.next(machine).is_some()
}

/// The write runs, leaves the store buffer and persists, and in the fourth turn no step is enabled: the schedule has ended.
/// So the crash of the fifth turn does not come, however often the turns are asked for.
#[test]
fn a_schedule_that_has_ended_makes_no_crash(rt: HostRuntime) -> Result<(), Fail> {
    let mut machine = loaded(rt.alloc(), ONE_WRITE)?;
    let plan = Plan {
        seed: 1,
        length: 9,
        crash_after: Some(4),
        lazy: false,
    };
    let mut turns = Turns::new(&plan, 0);
    let go_on = [
        goes_on(&mut machine, &mut turns),
        goes_on(&mut machine, &mut turns),
        goes_on(&mut machine, &mut turns),
        goes_on(&mut machine, &mut turns),
        goes_on(&mut machine, &mut turns),
    ];
    let crashes = machine.view().crashes();
    drop(machine);
    assert!(rt; go_on == [true, true, true, false, false] && crashes == 0);
    Ok(())
}

/// The write runs and leaves the store buffer. Where the plan is lazy, that is the end: the write stays pending.
#[test]
fn a_lazy_schedule_persists_nothing(rt: HostRuntime) -> Result<(), Fail> {
    let mut machine = loaded(rt.alloc(), ONE_WRITE)?;
    let plan = Plan {
        seed: 1,
        length: 9,
        crash_after: None,
        lazy: true,
    };
    let steps = plan_steps(rt.alloc(), &machine, &plan, 0);
    let turns = run_plan(&mut machine, &plan, 0);
    let persists = machine.check(Step::Persist(0)).is_none();
    drop(machine);
    let steps = steps?;
    let made: &[Step] = &steps;
    assert!(rt; made == [EXEC, DRAIN].as_slice() && turns == 2 && persists);
    Ok(())
}
