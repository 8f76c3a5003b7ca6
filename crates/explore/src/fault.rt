//! Why it is not told whether all runs keep to what is asked.
ghost use Rattle.std.specs.Prelude.{◌≡◌};
ghost use Rattle.explore.specs.declared.fault.ExploreFault.TheVariants.{NoMemory};

use std::alloc::AllocError;

/// Why it is not told whether all runs keep to what is asked.
#[derive(Clone, Copy, Debug, PartialEq, Eq)]
pub enum ExploreFault {
    /// R1: more states than the limit can be told apart.
    TooManyStates,
    /// R2: some run leads to a state in which a processor waits for room in the pending list (M8 or M9). A machine that has
    /// made 2^61 steps may be answered so too.
    NoRoom,
    /// I1: images are looked at, and some run leads to a state with more candidates for them than are counted. Where runs crash,
    /// and where the images are asked for, all lines count; elsewhere those that the condition on images asks.
    TooMany,
    /// R3: out of memory.
    NoMemory,
}

impl From<AllocError> for ExploreFault {
    ghost from_gives = { λ _ fault. fault ≡ NoMemory };

    fn from(_error: AllocError) -> ExploreFault {
        ExploreFault::NoMemory
    }
}
