//! Reading one instruction, byte after byte.
ghost use Rattle.std.specs.Prelude.{◌≡◌, ◌≤◌};
ghost use Rattle.isa.specs.declared.instr.Access.TheVariants.{Load};
ghost use Rattle.codec.specs.Bytes.{Gives};
ghost use Rattle.codec.specs.Reading.{ReadsForm, ReadsOperand, ReadsRegisterAndMemory, Byte, literal_at, reg_of, register_and_memory, exchange, flush, jump, strong_flush, after_0fae, after_0f, after_41, weak_flush, after_66, locked, locked_behind, after_f0, move_from, compute, arithmetic, store_immediate, move_immediate, after_rex, first};

use crate::bytes::{byte_at, u32_at, u64_at};
use crate::form::{Address, Form, Miss};
use isa::{
    Access, Computation, FenceKind, FlushKind, Immediate, JumpKind, LockedOperation, Reg, Source,
};

/// The bytes after this one.
fn literal(wanted: u8, bytes: &[u8]) -> Result<&[u8], Miss>
    ensures { Gives (λ x. x.now) result (literal_at wanted bytes.now) }
{
    let (found, rest) = byte_at(bytes, Miss::Truncated)?;
    if found == wanted {
        Ok(rest)
    } else {
        Err(Miss::Unknown)
    }
}

fn reg_of(high: bool, low: u8) -> Option<Reg>
    ensures { result ≡ reg_of high low }
{
    match (high, low) {
        (false, 0) => Some(Reg::Rax),
        (false, 1) => Some(Reg::Rcx),
        (false, 2) => Some(Reg::Rdx),
        (false, 3) => Some(Reg::Rbx),
        (false, 6) => Some(Reg::Rsi),
        (false, 7) => Some(Reg::Rdi),
        (true, 0) => Some(Reg::R8),
        (true, 1) => Some(Reg::R9),
        _ => None,
    }
}

/// The memory operand after its ModRM byte, where REX has this bit B.
#[tactic(auto, unfolding(crate::specs::Reading::operand))]
fn operand(b: bool, modrm: u8, bytes: &[u8]) -> Result<(Address, &[u8]), Miss>
    ensures { ReadsOperand b modrm bytes.now result }
{
    if modrm / 64 != 0 {
        return Err(Miss::Unknown);
    }
    if !b && modrm % 8 == 4 {
        let rest = literal(0x25, bytes)?;
        let (address, rest) = u32_at(rest, Miss::Truncated)?;
        return Ok((Address::Absolute(address), rest));
    }
    match reg_of(b, modrm % 8) {
        Some(register) => Ok((Address::Register(register), bytes)),
        None => Err(Miss::Unknown),
    }
}

/// A register and a memory operand that begin with this ModRM byte.
#[tactic(auto, unfolding(crate::specs::Reading::register_and_memory))]
fn register_and_memory(
    r: bool,
    b: bool,
    modrm: u8,
    bytes: &[u8],
) -> Result<((Reg, Address), &[u8]), Miss>
    ensures { ReadsRegisterAndMemory r b modrm bytes.now result }
{
    let Some(register) = reg_of(r, modrm / 8 % 8) else {
        return Err(Miss::Unknown);
    };
    let (place, rest) = operand(b, modrm, bytes)?;
    Ok(((register, place), rest))
}

fn load(r: bool, b: bool, bytes: &[u8]) -> Result<(Form, &[u8]), Miss>
    ensures { ReadsForm (Byte (register_and_memory (λ reg. Load reg) r b)) bytes.now result }
{
    let (modrm, rest) = byte_at(bytes, Miss::Truncated)?;
    let ((register, place), rest) = register_and_memory(r, b, modrm, rest)?;
    Ok((Form::Memory(Access::Load(register), place), rest))
}

/// A locked operation, after its opcode.
fn exchange(
    operation: LockedOperation,
    r: bool,
    b: bool,
    bytes: &[u8],
) -> Result<(Form, &[u8]), Miss>
    ensures { ReadsForm (exchange operation r b) bytes.now result }
{
    let (modrm, rest) = byte_at(bytes, Miss::Truncated)?;
    let ((register, place), rest) = register_and_memory(r, b, modrm, rest)?;
    Ok((
        Form::Memory(Access::Locked(operation, register), place),
        rest,
    ))
}

/// A flush whose memory operand begins with this ModRM byte.
#[tactic(auto, unfolding(crate::specs::Reading::flush))]
fn flush(kind: FlushKind, b: bool, modrm: u8, bytes: &[u8]) -> Result<(Form, &[u8]), Miss>
    ensures { ReadsForm (flush kind b modrm) bytes.now result }
{
    let (place, rest) = operand(b, modrm, bytes)?;
    Ok((Form::Memory(Access::Flush(kind), place), rest))
}

/// A jump, after its opcode.
#[tactic(auto, unfolding(crate::specs::Reading::jump))]
fn jump(kind: JumpKind, bytes: &[u8]) -> Result<(Form, &[u8]), Miss>
    ensures { ReadsForm (jump kind) bytes.now result }
{
    let (distance, rest) = u32_at(bytes, Miss::Truncated)?;
    Ok((Form::Jump(kind, distance.cast_signed()), rest))
}

#[tactic(auto, unfolding(crate::specs::Reading::strong_flush))]
fn strong_flush(b: bool, modrm: u8, bytes: &[u8]) -> Result<(Form, &[u8]), Miss>
    ensures { ReadsForm (strong_flush b modrm) bytes.now result }
{
    match modrm / 8 % 8 {
        7 => flush(FlushKind::Clflush, b, modrm, bytes),
        _ => Err(Miss::Unknown),
    }
}

#[tactic(auto, unfolding(crate::specs::Reading::after_0fae))]
fn after_0fae(bytes: &[u8]) -> Result<(Form, &[u8]), Miss>
    ensures { ReadsForm (Byte after_0fae) bytes.now result }
{
    let (third, rest) = byte_at(bytes, Miss::Truncated)?;
    match third {
        0xF0 => Ok((Form::Fence(FenceKind::Mfence), rest)),
        0xF8 => Ok((Form::Fence(FenceKind::Sfence), rest)),
        _ => strong_flush(false, third, rest),
    }
}

#[tactic(auto, unfolding(crate::specs::Reading::after_0f))]
fn after_0f(bytes: &[u8]) -> Result<(Form, &[u8]), Miss>
    ensures { ReadsForm (Byte after_0f) bytes.now result }
{
    let (second, rest) = byte_at(bytes, Miss::Truncated)?;
    match second {
        0xAE => after_0fae(rest),
        0x84 => jump(JumpKind::IfZero, rest),
        0x85 => jump(JumpKind::IfNotZero, rest),
        _ => Err(Miss::Unknown),
    }
}

#[tactic(auto, unfolding(crate::specs::Reading::after_41))]
fn after_41(bytes: &[u8]) -> Result<(Form, &[u8]), Miss>
    ensures { ReadsForm after_41 bytes.now result }
{
    let rest = literal(0x0F, bytes)?;
    let rest = literal(0xAE, rest)?;
    let (modrm, rest) = byte_at(rest, Miss::Truncated)?;
    strong_flush(true, modrm, rest)
}

#[tactic(auto, unfolding(crate::specs::Reading::weak_flush))]
fn weak_flush(b: bool, bytes: &[u8]) -> Result<(Form, &[u8]), Miss>
    ensures { ReadsForm (Byte (weak_flush b)) bytes.now result }
{
    let (modrm, rest) = byte_at(bytes, Miss::Truncated)?;
    match modrm / 8 % 8 {
        7 => flush(FlushKind::Clflushopt, b, modrm, rest),
        6 => flush(FlushKind::Clwb, b, modrm, rest),
        _ => Err(Miss::Unknown),
    }
}

#[tactic(auto, unfolding(crate::specs::Reading::after_66))]
fn after_66(bytes: &[u8]) -> Result<(Form, &[u8]), Miss>
    ensures { ReadsForm (Byte after_66) bytes.now result }
{
    let (second, rest) = byte_at(bytes, Miss::Truncated)?;
    match second {
        0x0F => {
            let rest = literal(0xAE, rest)?;
            weak_flush(false, rest)
        }
        0x41 => {
            let rest = literal(0x0F, rest)?;
            let rest = literal(0xAE, rest)?;
            weak_flush(true, rest)
        }
        _ => Err(Miss::Unknown),
    }
}

#[tactic(auto, unfolding(crate::specs::Reading::locked))]
fn locked(r: bool, b: bool, bytes: &[u8]) -> Result<(Form, &[u8]), Miss>
    ensures { ReadsForm (Byte (locked r b)) bytes.now result }
{
    let (opcode, rest) = byte_at(bytes, Miss::Truncated)?;
    match opcode {
        0xC1 => exchange(LockedOperation::ExchangeAdd, r, b, rest),
        0xB1 => exchange(LockedOperation::CompareExchange, r, b, rest),
        _ => Err(Miss::Unknown),
    }
}

/// What comes after F0 and REX.
#[tactic(auto, unfolding(crate::specs::Reading::locked_behind))]
fn locked_behind(r: bool, b: bool, bytes: &[u8]) -> Result<(Form, &[u8]), Miss>
    ensures { ReadsForm (locked_behind r b) bytes.now result }
{
    let rest = literal(0x0F, bytes)?;
    locked(r, b, rest)
}

#[tactic(auto, unfolding(crate::specs::Reading::after_f0))]
fn after_f0(bytes: &[u8]) -> Result<(Form, &[u8]), Miss>
    ensures { ReadsForm (Byte after_f0) bytes.now result }
{
    let (rex, rest) = byte_at(bytes, Miss::Truncated)?;
    match rex {
        0x48 => locked_behind(false, false, rest),
        0x49 => locked_behind(false, true, rest),
        0x4C => locked_behind(true, false, rest),
        0x4D => locked_behind(true, true, rest),
        _ => Err(Miss::Unknown),
    }
}

#[tactic(auto, unfolding(crate::specs::Reading::move_from))]
fn move_from(r: bool, b: bool, bytes: &[u8]) -> Result<(Form, &[u8]), Miss>
    ensures { ReadsForm (Byte (move_from r b)) bytes.now result }
{
    let (modrm, rest) = byte_at(bytes, Miss::Truncated)?;
    let Some(from) = reg_of(r, modrm / 8 % 8) else {
        return Err(Miss::Unknown);
    };
    if modrm / 64 == 3 {
        let Some(to) = reg_of(b, modrm % 8) else {
            return Err(Miss::Unknown);
        };
        return Ok((Form::Set(to, Source::Register(from)), rest));
    }
    let (place, rest) = operand(b, modrm, rest)?;
    let stored = Source::Register(from);
    Ok((Form::Memory(Access::Store(stored), place), rest))
}

/// A computation whose ModRM byte is this.
#[tactic(auto, unfolding(crate::specs::Reading::compute))]
fn compute(operation: Computation, b: bool, modrm: u8, bytes: &[u8]) -> Result<(Form, &[u8]), Miss>
    ensures { ReadsForm (compute operation b modrm) bytes.now result }
{
    let Some(to) = reg_of(b, modrm % 8) else {
        return Err(Miss::Unknown);
    };
    let (bits, rest) = u32_at(bytes, Miss::Truncated)?;
    let number = Immediate::of_bits(bits);
    Ok((Form::Compute(operation, to, number), rest))
}

#[tactic(auto, unfolding(crate::specs::Reading::arithmetic))]
fn arithmetic(b: bool, bytes: &[u8]) -> Result<(Form, &[u8]), Miss>
    ensures { ReadsForm (Byte (arithmetic b)) bytes.now result }
{
    let (modrm, rest) = byte_at(bytes, Miss::Truncated)?;
    if modrm / 64 < 3 {
        return Err(Miss::Unknown);
    }
    match modrm / 8 % 8 {
        0 => compute(Computation::Add, b, modrm, rest),
        7 => compute(Computation::Compare, b, modrm, rest),
        _ => Err(Miss::Unknown),
    }
}

#[tactic(auto, unfolding(crate::specs::Reading::store_immediate))]
fn store_immediate(b: bool, bytes: &[u8]) -> Result<(Form, &[u8]), Miss>
    ensures { ReadsForm (Byte (store_immediate b)) bytes.now result }
{
    let (modrm, rest) = byte_at(bytes, Miss::Truncated)?;
    if modrm / 8 % 8 != 0 {
        return Err(Miss::Unknown);
    }
    let (place, rest) = operand(b, modrm, rest)?;
    let (bits, rest) = u32_at(rest, Miss::Truncated)?;
    let stored = Source::Number(Immediate::of_bits(bits));
    Ok((Form::Memory(Access::Store(stored), place), rest))
}

#[tactic(auto, unfolding(crate::specs::Reading::move_immediate))]
fn move_immediate(b: bool, opcode: u8, bytes: &[u8]) -> Result<(Form, &[u8]), Miss>
    requires { 0xB8 ≤ opcode }
    ensures { ReadsForm (move_immediate b opcode) bytes.now result }
{
    let Some(to) = reg_of(b, opcode - 0xB8) else {
        return Err(Miss::Unknown);
    };
    let (n, rest) = u64_at(bytes, Miss::Truncated)?;
    Ok((Form::Set(to, Source::Number(n)), rest))
}

#[tactic(auto, unfolding(crate::specs::Reading::after_rex))]
fn after_rex(r: bool, b: bool, bytes: &[u8]) -> Result<(Form, &[u8]), Miss>
    ensures { ReadsForm (Byte (after_rex r b)) bytes.now result }
{
    let (opcode, rest) = byte_at(bytes, Miss::Truncated)?;
    match opcode {
        0x89 => move_from(r, b, rest),
        0x8B => load(r, b, rest),
        0x87 => exchange(LockedOperation::Exchange, r, b, rest),
        0x81 if !r => arithmetic(b, rest),
        0xC7 if !r => store_immediate(b, rest),
        0xB8..=0xBF if !r => move_immediate(b, opcode, rest),
        _ => Err(Miss::Unknown),
    }
}

/// The form at the front, and the bytes after it.
#[tactic(auto, unfolding(crate::specs::Reading::first))]
pub(crate) fn form_at(bytes: &[u8]) -> Result<(Form, &[u8]), Miss>
    ensures { ReadsForm (Byte first) bytes.now result }
{
    let (front, rest) = byte_at(bytes, Miss::Truncated)?;
    match front {
        0x90 => Ok((Form::Nop, rest)),
        0xE9 => jump(JumpKind::Always, rest),
        0x0F => after_0f(rest),
        0x41 => after_41(rest),
        0x66 => after_66(rest),
        0xF0 => after_f0(rest),
        0x48 => after_rex(false, false, rest),
        0x49 => after_rex(false, true, rest),
        0x4C => after_rex(true, false, rest),
        0x4D => after_rex(true, true, rest),
        _ => Err(Miss::Unknown),
    }
}
