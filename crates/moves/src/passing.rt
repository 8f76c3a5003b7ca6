//! What a store may pass.
ghost use Rattle.std.specs.Prelude.{◌≡◌, ◌<◌, length};
ghost use Rattle.candidates.specs.Candidates.{is_same_reg, locked_writes};
ghost use Rattle.moves.specs.Moves.{are_apart, is_led_to, keeps_read, leads_to, may_go_before, may_go_behind, may_pass, may_pass_access, reads, reads_address, reads_value};

use isa::{Access, Computation, Immediate, Instr, LockedOperation, MemoryOperand, Reg, Source};
use lines_layout::WordId;

/// Whether two registers are one.
fn is_same_reg(a: Reg, b: Reg) -> bool
    ensures { result ≡ is_same_reg a b }
{
    a as usize == b as usize
}

/// Whether a store reads a register for its value.
fn reads_value(source: &Source<Immediate>, r: Reg) -> bool
    ensures { result ≡ reads_value source.now r }
{
    match *source {
        Source::Register(own) => is_same_reg(own, r),
        Source::Number(_) => false,
    }
}

/// Whether it reads a register for its address.
fn reads_address(operand: &MemoryOperand, r: Reg) -> bool
    ensures { result ≡ reads_address operand.now r }
{
    match *operand {
        MemoryOperand::Word(_) => false,
        MemoryOperand::Register(own) => is_same_reg(own, r),
    }
}

/// Whether a store reads a register.
fn reads(store: &Instr, r: Reg) -> bool
    ensures { result ≡ reads store.now r }
{
    match store {
        Instr::Memory(Access::Store(source), operand) => {
            reads_value(source, r) || reads_address(operand, r)
        }
        _ => false,
    }
}

/// Whether two words are named, and are not one.
fn are_apart(a: Option<WordId>, b: Option<WordId>) -> bool
    ensures { result ≡ are_apart a b }
{
    match (a, b) {
        (Some(a), Some(b)) => a.number() != b.number(),
        _ => false,
    }
}

/// The register that a locked operation sets, of its own.
fn locked_writes(operation: LockedOperation, own: Reg) -> Reg
    ensures { result ≡ locked_writes operation own }
{
    match operation {
        LockedOperation::Exchange | LockedOperation::ExchangeAdd => own,
        LockedOperation::CompareExchange => Reg::Rax,
    }
}

/// Whether an access sets no register that a store reads.
fn keeps_read(store: &Instr, access: &Access) -> bool
    ensures { result ≡ keeps_read store.now access.now }
{
    match *access {
        Access::Load(written) => !reads(store, written),
        Access::Locked(operation, own) => !reads(store, locked_writes(operation, own)),
        Access::Store(_) | Access::Flush(_) => true,
    }
}

/// Whether a store may pass an access of what is named by its address, if a word is.
fn may_pass_access(store: &Instr, access: &Access, word: Option<WordId>) -> bool
    ensures { result ≡ may_pass_access store.now access.now word }
{
    match access {
        Access::Flush(_) => true,
        Access::Load(_) | Access::Store(_) | Access::Locked(..) => {
            keeps_read(store, access) && are_apart(store.word_named(), word)
        }
    }
}

/// Whether a store may pass an instruction.
fn may_pass(store: &Instr, instr: &Instr) -> bool
    ensures { result ≡ may_pass store.now instr.now }
{
    match instr {
        Instr::Set(r, _) | Instr::Compute(Computation::Add, r, _) => !reads(store, *r),
        Instr::Compute(Computation::Compare, _, _) | Instr::Nop | Instr::Fence(_) => true,
        Instr::Jump(..) => false,
        Instr::Memory(access, _) => may_pass_access(store, access, instr.word_named()),
    }
}

/// Whether an instruction jumps to a place.
fn leads_to(place: usize, instr: &Instr) -> bool
    ensures { result ≡ leads_to place instr.now }
{
    match instr {
        Instr::Jump(_, target) => *target == place,
        _ => false,
    }
}

/// Whether a jump of a program leads to a place.
fn is_led_to(code: &[Instr], place: usize) -> bool
    ensures { result ≡ is_led_to code.now place }
{
    code.iter().any(|instr| leads_to(place, instr))
}

/// Whether a store that came up to the instruction at a place may go behind it.
pub(crate) fn may_go_behind(code: &[Instr], store: &Instr, place: usize) -> bool
    requires { place < length code.now }
    ensures { result ≡ may_go_behind code.now store.now place }
{
    may_pass(store, &code[place]) && !is_led_to(code, place)
}

/// Whether a store that came down to it may go before it.
pub(crate) fn may_go_before(code: &[Instr], store: &Instr, place: usize) -> bool
    requires { place < length code.now }
    ensures { result ≡ may_go_before code.now store.now place }
{
    may_pass(store, &code[place]) && !is_led_to(code, place + 1)
}
