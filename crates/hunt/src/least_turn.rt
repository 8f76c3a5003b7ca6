//! The first turn of a schedule after which a crash may leave what breaks a condition.
ghost use Rattle.std.specs.Prelude.{◌≡◌, IfOk, OnOk};
ghost use Rattle.conditions.specs.Truth.{reads_registers};
ghost use Rattle.machine.specs.Programs.{AreSiblings};
ghost use Rattle.hunt.specs.Searches.{crash_of};

use crate::breach::{breach_after, breach_in};
use crate::loss::{Breach, Loss, Moment};
use crate::search::Search;
use machine::Machine;
use schedule::Turns;
use std::alloc::{AllocError, Global};

/// What breaks the condition after so many turns of a schedule.
fn loss_at(number: u64, turn: u32, breach: Breach) -> Loss
    ensures { result ≡ record { at = record { number = number; turn = turn }; breach = breach } }
{
    Loss {
        at: Moment { number, turn },
        breach,
    }
}

/// The least turn of the schedule of a number after which the condition is broken, and what breaks it there. The
/// schedule runs on a machine of one's own. Registers count where the condition reads some.
pub(crate) fn loss_on(
    alloc: Global,
    search: &Search,
    cond_reads_registers: bool,
    own: &mut Machine,
    number: u64,
) -> Result<Option<Loss>, AllocError>
    requires registers { cond_reads_registers ≡ reads_registers search.now.cond }
    requires programs { AreSiblings own.old search.now.machine }
    ensures loss { IfOk result (λ found. found ≡ crash_of search.now number) }
    ensures programs { OnOk result (AreSiblings own.new search.now.machine) }
{
    let Search {
        machine,
        plan,
        cond,
        ..
    } = search;
    own.restore(machine);
    if let Some(breach) = breach_in(alloc, cond, &own.view())? {
        return Ok(Some(loss_at(number, 0, breach)));
    }
    let mut turns = Turns::new(plan, number);
    for turn in 0..plan.length {
        let Some((_, seen)) = turns.next(own) else {
            return Ok(None);
        };
        if let Some(breach) = breach_after(alloc, cond, cond_reads_registers, &own.view(), seen)? {
            return Ok(Some(loss_at(number, turn + 1, breach)));
        }
    }
    Ok(None)
}
