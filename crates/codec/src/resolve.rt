//! From forms to instructions: each address to its word, each distance to the instruction there.
ghost use Rattle.std.specs.Prelude.{◌≡◌, ◌+◌, ◌<◌, ◌≤◌, ℕ, IfOk, length};
ghost use Rattle.outcomes.specs.Calls.{Answers};
ghost use Rattle.isa.specs.Programs.{max_instructions};
ghost use Rattle.codec.specs.declared.form.Form.TheVariants.{Memory};
ghost use Rattle.codec.specs.Forms.{memory, short_rex, distance, bytes_of};
ghost use Rattle.outcomes.specs.Faults.{fault_in};
ghost use Rattle.codec.specs.Faults.{address_in};
ghost use Rattle.codec.specs.Programs.{instr_of, instrs_from, names_word, operand_at, target_of};
ghost use Rattle.codec.specs.Calls.{Lists};
ghost use Rattle.codec.specs.Tables.{AreOffsets, IsNumberOf, Rise};

use crate::fault::CodeFault;
use crate::form::{Address, Form};
use isa::{
    Access, Computation, FenceKind, FlushKind, Instr, JumpKind, LockedOperation, MemoryOperand,
    Program, Reg, Source,
};
use lines_layout::Shape;
use outcomes::OrNoMemory;
use std::alloc::{AllocError, Global};

/// How many bytes a memory operand takes.
#[tactic(auto, unfolding(crate::specs::Forms::memory))]
fn memory_size(place: Address) -> u32
    ensures exact { (reg : ℕ) → result ≡ length (memory reg place) }
    ensures few { result ≤ 6 }
{
    match place {
        Address::Absolute(_) => 6,
        Address::Register(_) => 1,
    }
}

/// How many bytes REX takes in an instruction that needs none for its operands of 64 bits.
fn short_rex_size(place: Address) -> u32
    ensures exact { result ≡ length (short_rex place) }
    ensures few { result ≤ 1 }
{
    match place {
        Address::Register(Reg::R8 | Reg::R9) => 1,
        _ => 0,
    }
}

/// How many bytes an access to this memory operand takes.
#[tactic(auto, unfolding(crate::specs::Forms::bytes_of, crate::specs::Forms::immediate))]
fn access_size(access: Access, place: Address) -> u32
    ensures exact { result ≡ length (bytes_of (Memory access place)) }
    ensures few { result ≤ 12 }
{
    match access {
        Access::Load(_)
        | Access::Store(Source::Register(_))
        | Access::Locked(LockedOperation::Exchange, _) => 2 + memory_size(place),
        Access::Store(Source::Number(_)) => 6 + memory_size(place),
        Access::Locked(LockedOperation::ExchangeAdd | LockedOperation::CompareExchange, _) => {
            4 + memory_size(place)
        }
        Access::Flush(FlushKind::Clflush) => 2 + short_rex_size(place) + memory_size(place),
        Access::Flush(FlushKind::Clflushopt | FlushKind::Clwb) => {
            3 + short_rex_size(place) + memory_size(place)
        }
    }
}

/// How many bytes the form takes.
#[tactic(auto, unfolding(crate::specs::Forms::bytes_of, crate::specs::Forms::immediate, crate::specs::Forms::distance))]
pub(crate) fn size(form: Form) -> u32
    ensures exact { result ≡ length (bytes_of form) }
    ensures few { result ≤ 12 }
{
    match form {
        Form::Set(_, Source::Number(_)) => 10,
        Form::Set(_, Source::Register(_)) => 3,
        Form::Compute(Computation::Add | Computation::Compare, _, _) => 7,
        Form::Jump(JumpKind::Always, _) => 5,
        Form::Jump(JumpKind::IfZero | JumpKind::IfNotZero, _) => 6,
        Form::Nop => 1,
        Form::Memory(access, place) => access_size(access, place),
        Form::Fence(FenceKind::Mfence | FenceKind::Sfence) => 3,
    }
}

/// The memory operand of an address, if it is a word of the shape or in a register.
fn operand_at(shape: &Shape, address: Address) -> Option<MemoryOperand>
    ensures { result ≡ operand_at shape.now address }
{
    match address {
        Address::Absolute(address) => shape.word_at(u64::from(address)).map(MemoryOperand::Word),
        Address::Register(register) => Some(MemoryOperand::Register(register)),
    }
}

/// What a form names in memory.
fn address_in(form: &Form) -> Option<Address>
    ensures { result ≡ address_in form.now }
{
    match form {
        Form::Memory(_, address) => Some(*address),
        _ => None,
    }
}

/// Whether the form names a word of the shape, or its address is in a register, or it names nothing
/// in memory.
pub(crate) fn names_word(shape: &Shape, form: &Form) -> bool
    ensures { result ≡ names_word shape.now form.now }
{
    match address_in(form) {
        Some(address) => operand_at(shape, address).is_some(),
        None => true,
    }
}

/// The offset of each form, and then that of their end.
fn offsets_of(alloc: Global, forms: &[Form]) -> Result<Vec<u32>, AllocError>
    requires { length forms.now ≤ max_instructions }
    ensures { IfOk result (λ v. AreOffsets forms.now v.items) }
{
    let mut offsets = Vec::new(alloc);
    let mut at = 0;
    for form in forms {
        offsets.push(at)?;
        at += size(*form);
    }
    offsets.push(at)?;
    Ok(offsets)
}

/// The number of this offset among offsets that rise.
fn number_of(offsets: &[u32], target: u32) -> Option<usize>
    requires { Rise offsets.now }
    ensures { IsNumberOf offsets.now target result }
{
    offsets.binary_search(&target).ok()
}

/// Where form `k` leads, if it jumps this far.
fn target_of(forms: &[Form], offsets: &[u32], k: usize, distance: i32) -> Option<usize>
    requires there { k < length forms.now }
    requires offsets { AreOffsets forms.now offsets.now }
    ensures { result ≡ target_of forms.now k distance }
{
    let target = offsets[k + 1].checked_add_signed(distance)?;
    number_of(offsets, target)
}

/// The instruction that form `k` is, if it leads somewhere and its address is a word's.
#[tactic(auto, unfolding(crate::specs::Programs::instr_of))]
fn instr_of(shape: &Shape, forms: &[Form], offsets: &[u32], k: usize, form: Form) -> Option<Instr>
    requires there { k < length forms.now }
    requires offsets { AreOffsets forms.now offsets.now }
    ensures { result ≡ instr_of shape.now forms.now k form }
{
    Some(match form {
        Form::Set(r, source) => Instr::Set(r, source),
        Form::Compute(operation, r, n) => Instr::Compute(operation, r, n),
        Form::Jump(kind, d) => Instr::Jump(kind, target_of(forms, offsets, k, d)?),
        Form::Nop => Instr::Nop,
        Form::Memory(access, address) => Instr::Memory(access, operand_at(shape, address)?),
        Form::Fence(kind) => Instr::Fence(kind),
    })
}

/// The instructions of forms that begin at these offsets.
fn instrs_of(
    alloc: Global,
    shape: &Shape,
    forms: &[Form],
    offsets: &[u32],
) -> Result<Vec<Instr>, OrNoMemory<CodeFault>>
    requires offsets { AreOffsets forms.now offsets.now }
    ensures { Lists (instrs_from shape.now forms.now 0 forms.now) result }
{
    let mut code = Vec::with_capacity(alloc, forms.len())?;
    for (k, form) in forms.iter().enumerate() {
        match instr_of(shape, forms, offsets, k, *form) {
            // In place of `push`, of which the prover gets no proof outside the crate of `Instr`.
            Some(instr) => code.extend_from_slice(&[instr])?,
            None => return Err(OrNoMemory::Fault(CodeFault::BadTarget(offsets[k] as usize))),
        }
    }
    Ok(code)
}

/// The program of these forms.
pub(crate) fn program_of_forms(
    alloc: Global,
    shape: &Shape,
    forms: &[Form],
) -> Result<Program, OrNoMemory<CodeFault>>
    requires { length forms.now ≤ max_instructions }
    ensures { Answers fault_in (instrs_from shape.now forms.now 0 forms.now) result }
{
    let offsets = offsets_of(alloc, forms)?;
    let code = instrs_of(alloc, shape, forms, &offsets)?;
    Ok(Program::from_parts(code))
}
