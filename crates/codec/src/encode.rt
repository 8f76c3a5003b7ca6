//! Writing code.
ghost use Rattle.std.specs.Prelude.{◌≡◌, ◌<◌, ◌≤◌, ◌++◌, ◌+◌, ◌*◌, ◌/◌, ◌%◌, ℕ, ℤ, true, IfOk, IfSome, OnOk, All, length, slice_index};
ghost use Rattle.std.specs.Int.{w32, w64, to_le_bytes};
ghost use Rattle.std.specs.List.{AllByRecursion};
ghost use Rattle.isa.specs.Operands.{target_of};
ghost use Rattle.isa.specs.Programs.{is_program, max_instructions};
ghost use Rattle.codec.specs.Bytes.{PutsBytes};
ghost use Rattle.codec.specs.Code.{IsAway, code_of, distance_from, form_of, forms_of, max_code, memory_address, size};
ghost use Rattle.codec.specs.declared.form.Form.TheVariants.{Set, Compute, Memory};
ghost use Rattle.codec.specs.Tables.{AreStarts};
ghost use Rattle.codec.specs.Forms.{number, rex, modrm, base, short_rex, memory, immediate, distance, bytes_of, ImmediateFits, AddressFits, Fits};

use crate::form::{Address, Form};
use crate::resolve::size;
use byteorder::{ByteOrder, LittleEndian};
use isa::{
    Access, Computation, FenceKind, FlushKind, Immediate, Instr, JumpKind, LockedOperation,
    MemoryOperand, Program, Reg, Source,
};
use std::alloc::{AllocError, Global};

/// The register's number in the manual.
fn number(r: Reg) -> u8
    ensures { result ≡ number r }
{
    match r {
        Reg::Rax => 0,
        Reg::Rcx => 1,
        Reg::Rdx => 2,
        Reg::Rbx => 3,
        Reg::Rsi => 6,
        Reg::Rdi => 7,
        Reg::R8 => 8,
        Reg::R9 => 9,
    }
}

fn rex(reg: u8, rm: u8) -> u8
    requires reg { reg < 16 }
    requires rm { rm < 16 }
    ensures { result ≡ rex reg rm }
{
    0x48 + 4 * (reg / 8) + rm / 8
}

fn modrm(mode: u8, reg: u8, rm: u8) -> u8
    requires mode { mode < 4 }
    ensures { result ≡ modrm mode reg rm }
{
    64 * mode + 8 * (reg % 8) + rm % 8
}

fn base(place: Address) -> u8
    ensures value { result ≡ base place }
    ensures small { result < 16 }
{
    match place {
        Address::Absolute(_) => 0,
        Address::Register(register) => number(register),
    }
}

/// Appends 41 where r8 or r9 holds the address.
fn push_short_rex(out: &mut Vec<u8>, place: Address) -> Result<(), AllocError>
    ensures { PutsBytes (short_rex place) out.old result out.new }
{
    if base(place) >= 8 {
        out.push(0x41)?;
    }
    Ok(())
}

fn bytes_32(n: u32) -> [u8; 4]
    ensures { result ≡ to_le_bytes w32 n }
{
    let mut bytes = [0; 4];
    LittleEndian::write_u32(&mut bytes, n);
    bytes
}

fn bytes_64(n: u64) -> [u8; 8]
    ensures { result ≡ to_le_bytes w64 n }
{
    let mut bytes = [0; 8];
    LittleEndian::write_u64(&mut bytes, n);
    bytes
}

/// Appends these bytes and a memory operand.
#[tactic(auto, unfolding(crate::specs::Forms::memory))]
fn push_with_memory(
    out: &mut Vec<u8>,
    front: &[u8],
    reg: u8,
    place: Address,
) -> Result<(), AllocError>
    ensures bytes { PutsBytes (front.now ++ memory reg place) out.old result out.new }
    ensures fits { OnOk result (AddressFits place) }
{
    out.extend_from_slice(front)?;
    match place {
        Address::Absolute(address) => {
            out.extend_from_slice(&[modrm(0, reg, 4), 0x25])?;
            out.extend_from_slice(&bytes_32(address))?;
        }
        Address::Register(register) => out.push(modrm(0, reg, number(register)))?,
    }
    Ok(())
}

/// Appends these bytes and an immediate.
#[tactic(auto, unfolding(crate::specs::Forms::immediate))]
fn push_with_immediate(out: &mut Vec<u8>, front: &[u8], n: Immediate) -> Result<(), AllocError>
    ensures bytes { PutsBytes (front.now ++ immediate n) out.old result out.new }
    ensures fits { OnOk result (ImmediateFits n) }
{
    out.extend_from_slice(front)?;
    out.extend_from_slice(&bytes_32(n.bits()))?;
    Ok(())
}

/// Appends these bytes and a distance.
#[tactic(auto, unfolding(crate::specs::Forms::distance))]
fn push_with_distance(out: &mut Vec<u8>, front: &[u8], d: i32) -> Result<(), AllocError>
    ensures { PutsBytes (front.now ++ distance d) out.old result out.new }
{
    out.extend_from_slice(front)?;
    out.extend_from_slice(&bytes_32(d.cast_unsigned()))?;
    Ok(())
}

/// Appends the bytes of an access to this memory operand.
#[tactic(auto, unfolding(crate::specs::Forms::bytes_of))]
fn push_access(out: &mut Vec<u8>, access: Access, m: Address) -> Result<(), AllocError>
    ensures bytes { PutsBytes (bytes_of (Memory access m)) out.old result out.new }
    ensures fits { OnOk result (Fits (Memory access m)) }
{
    let b = base(m);
    match access {
        Access::Load(r) => push_with_memory(out, &[rex(number(r), b), 0x8B], number(r), m)?,
        Access::Store(Source::Register(r)) => {
            push_with_memory(out, &[rex(number(r), b), 0x89], number(r), m)?;
        }
        Access::Store(Source::Number(n)) => {
            push_with_memory(out, &[rex(0, b), 0xC7], 0, m)?;
            push_with_immediate(out, &[], n)?;
        }
        Access::Locked(LockedOperation::Exchange, r) => {
            push_with_memory(out, &[rex(number(r), b), 0x87], number(r), m)?;
        }
        Access::Locked(LockedOperation::ExchangeAdd, r) => {
            push_with_memory(out, &[0xF0, rex(number(r), b), 0x0F, 0xC1], number(r), m)?;
        }
        Access::Locked(LockedOperation::CompareExchange, r) => {
            push_with_memory(out, &[0xF0, rex(number(r), b), 0x0F, 0xB1], number(r), m)?;
        }
        Access::Flush(FlushKind::Clflush) => {
            push_short_rex(out, m)?;
            push_with_memory(out, &[0x0F, 0xAE], 7, m)?;
        }
        Access::Flush(FlushKind::Clflushopt) => {
            out.push(0x66)?;
            push_short_rex(out, m)?;
            push_with_memory(out, &[0x0F, 0xAE], 7, m)?;
        }
        Access::Flush(FlushKind::Clwb) => {
            out.push(0x66)?;
            push_short_rex(out, m)?;
            push_with_memory(out, &[0x0F, 0xAE], 6, m)?;
        }
    }
    Ok(())
}

/// Appends the bytes of a `mov` that names no memory.
#[tactic(auto, unfolding(crate::specs::Forms::bytes_of))]
fn push_set(out: &mut Vec<u8>, to: Reg, source: Source<u64>) -> Result<(), AllocError>
    ensures bytes { PutsBytes (bytes_of (Set to source)) out.old result out.new }
    ensures fits { OnOk result (Fits (Set to source)) }
{
    let rm = number(to);
    match source {
        Source::Number(n) => {
            out.extend_from_slice(&[rex(0, rm), 0xB8 + rm % 8])?;
            out.extend_from_slice(&bytes_64(n))?;
        }
        Source::Register(from) => {
            let reg = number(from);
            out.extend_from_slice(&[rex(reg, rm), 0x89, modrm(3, reg, rm)])?;
        }
    }
    Ok(())
}

/// Appends the bytes of a computation.
#[tactic(auto, unfolding(crate::specs::Forms::bytes_of))]
fn push_computation(
    out: &mut Vec<u8>,
    operation: Computation,
    r: Reg,
    n: Immediate,
) -> Result<(), AllocError>
    ensures bytes { PutsBytes (bytes_of (Compute operation r n)) out.old result out.new }
    ensures fits { OnOk result (ImmediateFits n) }
{
    let field = match operation {
        Computation::Add => 0,
        Computation::Compare => 7,
    };
    push_with_immediate(
        out,
        &[rex(0, number(r)), 0x81, modrm(3, field, number(r))],
        n,
    )
}

/// Appends the bytes of a form.
#[tactic(auto, unfolding(crate::specs::Forms::bytes_of))]
fn push_form(out: &mut Vec<u8>, f: &Form) -> Result<(), AllocError>
    ensures bytes { PutsBytes (bytes_of f.now) out.old result out.new }
    ensures fits { OnOk result (Fits f.now) }
{
    match *f {
        Form::Set(r, source) => push_set(out, r, source)?,
        Form::Compute(operation, r, n) => push_computation(out, operation, r, n)?,
        Form::Jump(JumpKind::Always, d) => push_with_distance(out, &[0xE9], d)?,
        Form::Jump(JumpKind::IfZero, d) => push_with_distance(out, &[0x0F, 0x84], d)?,
        Form::Jump(JumpKind::IfNotZero, d) => push_with_distance(out, &[0x0F, 0x85], d)?,
        Form::Nop => out.push(0x90)?,
        Form::Memory(access, m) => push_access(out, access, m)?,
        Form::Fence(FenceKind::Mfence) => out.extend_from_slice(&[0x0F, 0xAE, 0xF0])?,
        Form::Fence(FenceKind::Sfence) => out.extend_from_slice(&[0x0F, 0xAE, 0xF8])?,
    }
    Ok(())
}

/// The address of a memory operand.
fn memory_address(operand: MemoryOperand) -> Address
    ensures { result ≡ memory_address operand }
{
    match operand {
        MemoryOperand::Word(word) => Address::Absolute(word.address() as u32),
        MemoryOperand::Register(register) => Address::Register(register),
    }
}

/// The form of an instruction, at this distance from its target if it has one.
#[tactic(auto, unfolding(crate::specs::Code::form_of))]
fn form_at_distance(instr: Instr, distance: i32) -> Form
    ensures { (away : ℕ → ℤ) → IsAway away instr distance → result ≡ form_of away instr }
{
    match instr {
        Instr::Set(r, source) => Form::Set(r, source),
        Instr::Compute(operation, r, n) => Form::Compute(operation, r, n),
        Instr::Jump(kind, _) => Form::Jump(kind, distance),
        Instr::Nop => Form::Nop,
        Instr::Memory(access, operand) => Form::Memory(access, memory_address(operand)),
        Instr::Fence(kind) => Form::Fence(kind),
    }
}

/// How many bytes the instruction takes.
#[tactic(auto, unfolding(crate::specs::Code::form_of))]
fn size_of(instr: Instr) -> u32
    ensures exact { result ≡ size instr }
    ensures few { result ≤ 12 }
{
    size(form_at_distance(instr, 0))
}

/// The offset of each instruction, and then that of their end.
fn starts_of(alloc: Global, program: &[Instr]) -> Result<Vec<u32>, AllocError>
    requires { length program.now ≤ max_instructions }
    ensures { IfOk result (λ v. AreStarts program.now v.items) }
{
    let mut starts = Vec::new(alloc);
    let mut at = 0;
    for instr in program {
        starts.push(at)?;
        at += size_of(*instr);
    }
    starts.push(at)?;
    Ok(starts)
}

/// The form of an instruction among instructions that begin at these offsets, where the one after
/// it has the number `next`.
fn form_of(instr: Instr, starts: &[u32], next: usize) -> Form
    requires next { next < length starts.now }
    requires small { All (λ s. s ≤ max_code) starts.now }
    requires target { IfSome (target_of instr) (λ t. t < length starts.now) }
    ensures { result ≡ form_of (distance_from (slice_index starts.now) next) instr }
{
    match instr.target() {
        Some(target) => form_at_distance(instr, starts[target] as i32 - starts[next] as i32),
        None => form_at_distance(instr, 0),
    }
}

/// The code of instructions that begin at these offsets.
fn write(alloc: Global, program: &[Instr], starts: &[u32]) -> Result<Vec<u8>, AllocError>
    requires program { is_program program.now ≡ true }
    requires starts { AreStarts program.now starts.now }
    ensures code { IfOk result (λ v. v.items ≡ code_of program.now) }
    ensures fits { IfOk result (λ v. AllByRecursion Fits (forms_of program.now)) }
    ensures short { IfOk result (λ v. length v.items ≤ max_code) }
{
    let mut out = Vec::new(alloc);
    for (k, instr) in program.iter().enumerate() {
        push_form(&mut out, &form_of(*instr, starts, k + 1))?;
    }
    Ok(out)
}

/// The code of the program. Only memory may be missing for it.
///
/// # Errors
///
/// `AllocError`: memory ran out.
pub fn assemble(alloc: Global, program: &Program) -> Result<Vec<u8>, AllocError>
    ensures code { IfOk result (λ code. code.items ≡ code_of program.now) }
    ensures program { is_program program.now ≡ true }
    // Every number of it fits its field.
    ensures fits { IfOk result (λ code. AllByRecursion Fits (forms_of program.now)) }
    ensures short { IfOk result (λ code. length code.items ≤ max_code) }
{
    let instrs = program.instructions();
    let starts = starts_of(alloc, instrs)?;
    write(alloc, instrs, &starts)
}
