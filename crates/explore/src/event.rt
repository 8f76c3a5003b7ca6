//! What a program does to memory.
use lines_layout::WordId;
use store_buffer::Entry;

/// What a processor does, as far as it matters for what a crash leaves. An instruction that only reads, touches no memory or
/// traps is no event.
#[derive(Clone, Copy, Debug, PartialEq, Eq)]
pub enum Event {
    /// It puts an entry into its store buffer: a store, a flush of either kind or an `sfence`.
    Delayed(Entry),
    /// It waits for an empty store buffer: an `mfence`, or a locked operation that writes nothing.
    Waited,
    /// It waits for an empty store buffer and writes a value to a word past it: a locked operation that writes.
    LockedWrite(WordId, u64),
}
