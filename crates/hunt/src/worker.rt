//! What a worker does.
ghost use Rattle.std.specs.Prelude.{◌≡◌, ◌<◌, IfOk, OnOk, not};
ghost use Rattle.machine.specs.Programs.{AreSiblings};
ghost use Rattle.schedule.specs.Ranges.{max_schedules};
ghost use Rattle.hunt.specs.Counts.{Has};
ghost use Rattle.hunt.specs.Seats.{limit_of, view_of, IsSeatOf};
ghost use Rattle.hunt.specs.Done.{after_verdict, ends_by, found_after};
ghost use Rattle.hunt.specs.Ends.{breaks_end};
ghost use Rattle.hunt.specs.Known.{IsKnown, IsTold};
ghost use Rattle.hunt.specs.Least.{fails};
ghost use Rattle.hunt.specs.Returns.{IsReady, Worked};

use crate::end_state::is_end;
use crate::errand::Returned;
use crate::found::{Found, lesser};
use crate::last_state::run_to_last;
use crate::least_turn::loss_on;
use crate::search::{Asked, Search, Target};
use crate::seats::{Board, Seat};
use crate::verdict::Verdict;
use images::holds;
use machine::Machine;
use std::alloc::{AllocError, Global};
use workers::Gate;

/// Whether the condition holds where the schedule of a number ends, which is run on a machine of the same programs.
fn holds_at_end(search: &Search, own: &mut Machine, number: u64) -> bool
    requires { AreSiblings own.old search.now.machine }
    ensures fails { result ≡ not (fails search.now.plan search.now.cond search.now.machine number) }
    ensures programs { AreSiblings own.new search.now.machine }
{
    run_to_last(search, own, number);
    holds(&search.cond, &own.view())
}

/// Whether the condition holds at the end to which the schedule of a number comes, which is run on a machine of the same programs,
/// or it comes to none.
fn holds_if_ended(search: &Search, recovered: bool, own: &mut Machine, number: u64) -> bool
    requires { AreSiblings own.old search.now.machine }
    ensures breaks { result ≡ not (breaks_end recovered search.now.plan search.now.cond search.now.machine number) }
    ensures programs { AreSiblings own.new search.now.machine }
{
    run_to_last(search, own, number);
    let view = own.view();
    let ended = is_end(&view, recovered);
    let met = holds(&search.cond, &view);
    !ended || met
}

/// What is found of the schedule of a number, which is run on a machine of the same programs. None where it does not break
/// the condition where that is asked.
fn found_on(
    alloc: Global,
    target: &Target,
    own: &mut Machine,
    number: u64,
) -> Result<Option<Found>, AllocError>
    requires { AreSiblings own.old target.now.search.machine }
    ensures told { IfOk result (IsTold target.now number) }
    ensures programs { OnOk result (AreSiblings own.new target.now.search.machine) }
{
    match target.asked {
        Asked::Last => {
            if holds_at_end(&target.search, own, number) {
                Ok(None)
            } else {
                Ok(Some(Found { number, loss: None }))
            }
        }
        Asked::Ends(recovered) => {
            if holds_if_ended(&target.search, recovered, own, number) {
                Ok(None)
            } else {
                let found = Found { number, loss: None };
                Ok(Some(found))
            }
        }
        Asked::Crashes => {
            match loss_on(
                alloc,
                &target.search,
                target.cond_reads_registers,
                own,
                number,
            )? {
                Some(loss) => Ok(Some(Found {
                    number,
                    loss: Some(loss),
                })),
                None => Ok(None),
            }
        }
    }
}

/// The verdict on a claim: it is skipped where the bound is smaller, and otherwise its schedule is run on a machine of the same
/// programs.
fn examine(
    alloc: Global,
    target: &Target,
    own: &mut Machine,
    claim: u64,
    bound: u64,
) -> Result<Verdict, AllocError>
    requires programs { AreSiblings own.old target.now.search.machine }
    requires claim { claim < max_schedules }
    ensures known { IfOk result (IsKnown target.now claim bound) }
    ensures programs { OnOk result (AreSiblings own.new target.now.search.machine) }
{
    if bound < claim {
        return Ok(Verdict::Skipped);
    }
    let number = target.search.range.first + claim;
    match found_on(alloc, target, own, number)? {
        Some(found) => Ok(Verdict::Fails(found)),
        None => Ok(Verdict::Holds),
    }
}

/// Reports a claim whose schedule breaks the condition, and keeps what was found of the least number. Whether the worker is
/// done: it is where the claim was skipped, since its further claims are greater and would be skipped too.
fn conclude(
    board: &Board,
    seat: &mut Seat,
    found: &mut Option<Found>,
    claim: u64,
    verdict: Verdict,
) -> bool
    requires seat { IsSeatOf board.now seat.old }
    requires claimed { (claim < limit_of board.now) × Has (view_of seat.old).claimed claim }
    ensures seat { IsSeatOf board.now seat.new }
    ensures report { view_of seat.new ≡ after_verdict (view_of seat.old) claim verdict }
    ensures found { found.new ≡ found_after found.old verdict }
    ensures done { result ≡ ends_by verdict }
{
    match verdict {
        Verdict::Holds => false,
        Verdict::Fails(other) => {
            board.report(seat, claim);
            *found = lesser(found.take(), Some(other));
            false
        }
        Verdict::Skipped => true,
    }
}

/// Claims schedules until there is none left, or one is above a claim that was reported, and reports those that are looked
/// for. It brings back what it found of the least of them. All schedules run on one machine, which has the programs of the one
/// that they start from. Where crashes are not asked it takes no memory. The number of each schedule that was claimed is reported to
/// the gate, and again when it was run and is on the board where it is looked for. The only error is out of memory.
pub(crate) fn work<G: Gate>(
    alloc: Global,
    board: &Board,
    gate: &G,
    target: &Target,
    own: &mut Machine,
    mut seat: Seat,
) -> Result<Returned, AllocError>
    requires seat { IsReady board.now seat }
    requires own { AreSiblings own.old target.now.search.machine }
    ensures { IfOk result (Worked board.now target.now) }
{
    let mut found = None;
    while let Some(claim) = board.claim(&mut seat) {
        let number = target.search.range.first + claim;
        gate.claimed(number);
        let bound = board.look(&mut seat);
        let verdict = examine(alloc, target, own, claim, bound)?;
        if conclude(board, &mut seat, &mut found, claim, verdict) {
            return Ok(Returned { seat, found });
        }
        gate.ended(number);
    }
    Ok(Returned { seat, found })
}
