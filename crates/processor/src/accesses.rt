//! What an access to a word does, in the parts of which an execution is made.
ghost use Rattle.std.specs.Prelude.{◌≡◌};
ghost use Rattle.isa.specs.Effects.{source_value};
ghost use Rattle.processor.specs.Accesses.{is_locked, value_read, flush_entry, value_written, locked_regs, locked_need, need_of, act_of, regs_of};
ghost use Rattle.processor.specs.Calls.{Changes};
ghost use Rattle.processor.specs.Executions.{contents_after};

use crate::act::Act;
use crate::need::Need;
use crate::refusal::Refusal;
use crate::storage::Storage;
use isa::{Access, FlushKind, Immediate, LockedOperation, Reg, Regs, Source};
use lines_layout::{LineId, WordId};
use store_buffer::Entry;

/// Whether an access is a locked operation.
pub fn is_locked(access: &Access) -> bool
    ensures { result ≡ is_locked access.now }
{
    match *access {
        Access::Locked(..) => true,
        _ => false,
    }
}

/// The value that a store puts where it writes.
fn stored(source: Source<Immediate>, regs: &Regs) -> u64
    ensures { result ≡ source_value source regs.now }
{
    match source {
        Source::Register(r) => regs.get(r),
        Source::Number(number) => number.value(),
    }
}

/// The entry that a flush of a cache line delays.
fn flush_entry(kind: FlushKind, line: LineId) -> Entry
    ensures { result ≡ flush_entry kind line }
{
    match kind {
        FlushKind::Clflush => Entry::Flush(line),
        FlushKind::Clflushopt | FlushKind::Clwb => Entry::FlushOpt(line),
    }
}

/// What a locked operation writes where it reads this value; none where its comparison fails.
fn value_written(operation: LockedOperation, r: Reg, regs: &Regs, value: u64) -> Option<u64>
    ensures { result ≡ value_written operation r regs.now value }
{
    match operation {
        LockedOperation::Exchange => Some(regs.get(r)),
        LockedOperation::ExchangeAdd => {
            let sum = value.wrapping_add(regs.get(r));
            Some(sum)
        }
        LockedOperation::CompareExchange => {
            if regs.get(Reg::Rax) == value {
                Some(regs.get(r))
            } else {
                None
            }
        }
    }
}

/// Sets the registers as a locked operation leaves them that reads this value.
fn set_locked_regs(operation: LockedOperation, r: Reg, regs: &mut Regs, value: u64)
    ensures { regs.new ≡ locked_regs operation r regs.old value }
{
    match operation {
        LockedOperation::Exchange => regs.set(r, value),
        LockedOperation::ExchangeAdd => {
            let sum = value.wrapping_add(regs.get(r));
            regs.set(r, value);
            regs.zero = sum == 0;
        }
        LockedOperation::CompareExchange => {
            if regs.get(Reg::Rax) == value {
                regs.zero = true;
            } else {
                regs.set(Reg::Rax, value);
                regs.zero = false;
            }
        }
    }
}

/// What has to find room where a locked operation on a word is to run.
fn locked_need(operation: LockedOperation, word: WordId, regs: &Regs) -> Need
    ensures { result ≡ locked_need operation word regs.now }
{
    match operation {
        LockedOperation::CompareExchange => Need::WriteIf(word, regs.get(Reg::Rax)),
        _ => Need::Write(word),
    }
}

/// What has to find room where an access to a word with these registers is to run.
pub fn need_of(access: &Access, word: WordId, regs: &Regs) -> Need
    ensures { result ≡ need_of access.now word regs.now }
{
    match *access {
        Access::Load(_) => Need::Nothing,
        Access::Locked(operation, _) => locked_need(operation, word, regs),
        Access::Store(_) | Access::Flush(_) => Need::Entry,
    }
}

/// What an access to a word shows, with these registers, where it reads this value.
pub fn act_of(access: &Access, word: WordId, regs: &Regs, value: u64) -> Act
    ensures { result ≡ act_of access.now word regs.now value }
{
    match *access {
        Access::Load(_) => Act::Read(word, value),
        Access::Store(source) => Act::Delay(Entry::Write(word, stored(source, regs))),
        Access::Locked(operation, r) => {
            Act::Locked(word, value, value_written(operation, r, regs, value))
        }
        Access::Flush(kind) => Act::Delay(flush_entry(kind, word.line())),
    }
}

/// Sets the registers as an access leaves them that reads this value.
pub fn set_regs(access: &Access, regs: &mut Regs, value: u64)
    ensures { regs.new ≡ regs_of access.now regs.old value }
{
    match *access {
        Access::Load(r) => regs.set(r, value),
        Access::Locked(operation, r) => set_locked_regs(operation, r, regs, value),
        _ => {}
    }
}

/// The value that an access to a word reads, 0 where it reads none.
pub fn value_read<S: Storage>(access: &Access, word: WordId, storage: &S) -> u64
    ensures { result ≡ value_read access.now word (S.contents storage.now) }
{
    match *access {
        Access::Load(_) => storage.read(word),
        Access::Locked(..) => storage.coherent(word),
        _ => 0,
    }
}

/// Makes store buffer and memory what they are after an act.
pub fn leave<S: Storage>(act: &Act, storage: &mut S) -> Result<(), Refusal>
    ensures does { Changes S.contents (contents_after act.now) storage.old result storage.new }
    ensures stays { S.stays storage.old storage.new }
{
    match *act {
        Act::Delay(entry) => storage.delay(entry),
        Act::Locked(word, _, written) => match written {
            Some(written) => storage.locked(word, written),
            None => Ok(()),
        },
        Act::Read(..) | Act::Fence | Act::Local | Act::Trap(_) => Ok(()),
    }
}
