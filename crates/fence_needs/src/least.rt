//! Whether no more flushes and fences can go than those that are left out.
ghost use Rattle.std.specs.Prelude.{◌≡◌};
ghost use Rattle.fewer_fences.specs.Thinner.{may_be_nop};
ghost use Rattle.fence_needs.specs.Least.{is_settled, is_told, no_more_can_go};

use crate::need::{Need, SiteNeed};
use isa::{Access, Instr, MemoryOperand};

/// Whether it is told of an instruction if it is needed.
fn is_told(need: &Need) -> bool
    ensures { result ≡ is_told need.now }
{
    !matches!(need, Need::Untold(_) | Need::KeptUntold(_))
}

/// Whether an instruction is a fence, or a flush of a word that it names by its address.
fn is_named(instr: Instr) -> bool
    ensures { result ≡ may_be_nop instr }
{
    matches!(
        instr,
        Instr::Memory(Access::Flush(_), MemoryOperand::Word(_)) | Instr::Fence(_)
    )
}

/// The same of one of a list, if it is told.
fn is_settled(one: &SiteNeed) -> bool
    ensures { result ≡ is_settled one.now }
{
    is_told(&one.need) && is_named(one.instr)
}

/// Whether this is so of all needs of a program. Then no more can go than those that are left out
/// (`laws::no_more_can_go_than_is_left_out`).
pub fn no_more_can_go(needs: &[SiteNeed]) -> bool
    ensures { result ≡ no_more_can_go needs.now }
{
    needs.iter().all(|one| is_settled(one))
}
