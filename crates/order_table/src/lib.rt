//! Which order among the operations of one processor the memory system keeps.
//!
//! [`Masks`] is seen as a list of operations, each a kind and the line that it names. Promise: [`keeps`] is the table;
//! [`holder`] is the oldest operation before a place that holds one there.
//! Definitions: `specs/Order` (the table), `Operations` (which of a list holds one).
#![tactic(auto)]

mod masks;

ghost use Rattle.std.specs.Prelude.{◌≡◌};
ghost use Rattle.order_table.specs.Order.{is_kept};

pub use masks::{LINES, Mask, Masks, PLACES, holder};

/// The kind of an operation on memory, as the table of kept order knows it.
///
/// Source of the table: Raad, Wickerson, Neiger, Vafeiadis, "Persistency Semantics of the Intel-x86
/// Architecture", POPL 2020. Its cells between `FlushOpt` and `Flush` are this project's own choice.
#[derive(Clone, Copy, Debug, PartialEq, Eq)]
pub enum Kind {
    /// A load.
    Read,
    /// A store.
    Write,
    /// A locked operation, which reads and writes at once.
    Rmw,
    /// `mfence`.
    Mfence,
    /// `sfence`.
    Sfence,
    /// `clflushopt` and `clwb`.
    FlushOpt,
    /// `clflush`.
    Flush,
}

/// Whether an operation that is later in a processor's program must also take effect later than an
/// earlier one. `same_line` says whether both name one cache line.
pub fn keeps(earlier: Kind, later: Kind, same_line: bool) -> bool
    ensures { result ≡ is_kept earlier later same_line }
{
    match (earlier, later) {
        (Kind::Read | Kind::Rmw | Kind::Mfence, _) => true,
        (Kind::Write | Kind::Flush, Kind::Read) => false,
        (Kind::Write | Kind::Flush, Kind::FlushOpt) => same_line,
        (Kind::Write | Kind::Flush, _) => true,
        (Kind::Sfence, Kind::Read) => false,
        (Kind::Sfence, _) => true,
        (Kind::FlushOpt, Kind::Read | Kind::Write | Kind::FlushOpt) => false,
        (Kind::FlushOpt, Kind::Flush) => same_line,
        (Kind::FlushOpt, Kind::Rmw | Kind::Mfence | Kind::Sfence) => true,
    }
}
