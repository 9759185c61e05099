//! The forms of the rows: what instructions of one form do, over any memory. Each tries the SP that it leaves first, then its
//! accesses, then a fault of its own, and changes nothing before.
ghost use Rattle.std.specs.Prelude.{◌≡◌, ◌+◌, ◌*◌, ◌%◌, ◌^◌, ◌<◌, ◌≤◌, ◌⊎◌, if◌then◌else◌};
ghost use Rattle.thumb_code.specs.RegisterFile.{word, low as low_of};
ghost use Rattle.thumb_code.specs.Arithmetic.{nz as flags_of_word, sum_flags, lsl as lsl_of, lsr as lsr_of, asr as asr_of, ror as ror_of, signed as extended, holds as condition_holds};
ghost use Rattle.thumb_code.specs.Forms.{go as going, puts as putting, puts_with as writing, flags_are as flagging, adds as adding, subs as subtracting, compares as comparing, logic as reckoning, shifts as shifting, moves as moving, jumps as jumping, target as target_of, ends, Stops, Asks, unsigned};
ghost use Rattle.armv6m_machine.specs.Answers.{IsSize, number_of};
ghost use Rattle.armv6m_machine.specs.Steps.{Does};
ghost use Rattle.armv6m_machine.specs.Transfers.{load_from, store_to};

use crate::arithmetic::{add_with_carry, asr, holds, lsl, lsr, nz, ror, signed_byte, signed_half};
use crate::faults::{Fault, Turn};
use crate::memory::Memory;
use crate::operands::{low, low_byte, target};
use thumb_code::Registers;

/// To another address.
#[inline(always)]
pub fn go<M: Memory>(memory: &M, registers: &mut Registers, to: u32) -> Turn
    ensures row { Does M.memory memory.now (going to registers.old) result registers.old registers.new memory.now }
    ensures flags { registers.new.flags ≡ registers.old.flags }
{
    if !memory.stack_in_range(registers.sp) {
        return Turn::Fault(Fault::StackRange, registers.pc);
    }
    registers.pc = to;
    Turn::Went
}

/// A word into a low register; the flags stay.
#[inline(always)]
pub fn puts<M: Memory>(memory: &M, registers: &mut Registers, next: u32, rd: u8, v: u32) -> Turn
    requires { rd < 13 }
    ensures row { Does M.memory memory.now
        (putting next registers.old rd v) result registers.old registers.new memory.now }
    ensures flags { registers.new.flags ≡ registers.old.flags }
{
    if !memory.stack_in_range(registers.sp) {
        return Turn::Fault(Fault::StackRange, registers.pc);
    }
    registers.r[rd as usize] = v;
    registers.pc = next;
    Turn::Went
}

/// A word into a low register, and the flags.
#[inline(always)]
pub fn writes<M: Memory>(
    memory: &M,
    registers: &mut Registers,
    next: u32,
    rd: u8,
    found: (u32, u8),
) -> Turn
    requires registers { rd < 13 }
    requires flags { found.1 < 16 }
    ensures row { Does M.memory memory.now
        (writing next registers.old rd found.0 found.1) result registers.old registers.new memory.now }
    ensures flags { registers.old.flags < 16 → registers.new.flags < 16 }
{
    if !memory.stack_in_range(registers.sp) {
        return Turn::Fault(Fault::StackRange, registers.pc);
    }
    registers.r[rd as usize] = found.0;
    registers.flags = found.1;
    registers.pc = next;
    Turn::Went
}

/// The flags alone.
#[inline(always)]
pub fn flags_are<M: Memory>(memory: &M, registers: &mut Registers, next: u32, flags: u8) -> Turn
    requires { flags < 16 }
    ensures row { Does M.memory memory.now
        (flagging next registers.old flags) result registers.old registers.new memory.now }
    ensures flags { registers.old.flags < 16 → registers.new.flags < 16 }
{
    if !memory.stack_in_range(registers.sp) {
        return Turn::Fault(Fault::StackRange, registers.pc);
    }
    registers.flags = flags;
    registers.pc = next;
    Turn::Went
}

/// N and Z of a word.
pub fn tests<M: Memory>(memory: &M, registers: &mut Registers, next: u32, v: u32) -> Turn
    ensures row { Does M.memory memory.now (flagging next registers.old (flags_of_word registers.old.flags v)) result
        registers.old registers.new memory.now }
    ensures flags { registers.old.flags < 16 → registers.new.flags < 16 }
{
    flags_are(memory, registers, next, nz(registers.flags, v))
}

/// The flags of a sum.
pub fn compares_sum<M: Memory>(
    memory: &M,
    registers: &mut Registers,
    next: u32,
    x: u32,
    y: u32,
) -> Turn
    ensures row { Does M.memory memory.now
        (flagging next registers.old (sum_flags x y 0)) result registers.old registers.new memory.now }
    ensures flags { registers.old.flags < 16 → registers.new.flags < 16 }
{
    flags_are(memory, registers, next, add_with_carry(x, y, 0).1)
}

/// A low register shifted to the left by the low byte of another.
pub fn shifts_left<M: Memory>(
    memory: &M,
    registers: &mut Registers,
    next: u32,
    rdn: u8,
    rm: u8,
) -> Turn
    requires { (rdn < 13) × (rm < 13) }
    ensures row { Does M.memory memory.now (shifting next registers.old rdn lsl_of (low_of registers.old rdn)
        (low_of registers.old rm % 256)) result registers.old registers.new memory.now }
    ensures flags { registers.old.flags < 16 → registers.new.flags < 16 }
{
    writes(
        memory,
        registers,
        next,
        rdn,
        lsl(
            registers.flags,
            low(registers, rdn),
            low_byte(registers, rm),
        ),
    )
}

/// A low register shifted to the right with zeros by the low byte of another.
pub fn shifts_right<M: Memory>(
    memory: &M,
    registers: &mut Registers,
    next: u32,
    rdn: u8,
    rm: u8,
) -> Turn
    requires { (rdn < 13) × (rm < 13) }
    ensures row { Does M.memory memory.now (shifting next registers.old rdn lsr_of (low_of registers.old rdn)
        (low_of registers.old rm % 256)) result registers.old registers.new memory.now }
    ensures flags { registers.old.flags < 16 → registers.new.flags < 16 }
{
    writes(
        memory,
        registers,
        next,
        rdn,
        lsr(
            registers.flags,
            low(registers, rdn),
            low_byte(registers, rm),
        ),
    )
}

/// A low register shifted to the right with its sign by the low byte of another.
pub fn shifts_signed<M: Memory>(
    memory: &M,
    registers: &mut Registers,
    next: u32,
    rdn: u8,
    rm: u8,
) -> Turn
    requires { (rdn < 13) × (rm < 13) }
    ensures row { Does M.memory memory.now (shifting next registers.old rdn asr_of (low_of registers.old rdn)
        (low_of registers.old rm % 256)) result registers.old registers.new memory.now }
    ensures flags { registers.old.flags < 16 → registers.new.flags < 16 }
{
    writes(
        memory,
        registers,
        next,
        rdn,
        asr(
            registers.flags,
            low(registers, rdn),
            low_byte(registers, rm),
        ),
    )
}

/// A low register rotated to the right by the low byte of another.
pub fn rotates<M: Memory>(memory: &M, registers: &mut Registers, next: u32, rdn: u8, rm: u8) -> Turn
    requires { (rdn < 13) × (rm < 13) }
    ensures row { Does M.memory memory.now (shifting next registers.old rdn ror_of (low_of registers.old rdn)
        (low_of registers.old rm % 256)) result registers.old registers.new memory.now }
    ensures flags { registers.old.flags < 16 → registers.new.flags < 16 }
{
    writes(
        memory,
        registers,
        next,
        rdn,
        ror(
            registers.flags,
            low(registers, rdn),
            low_byte(registers, rm),
        ),
    )
}

/// To an offset's address where the condition holds, else to the next one.
#[inline(always)]
pub fn branches<M: Memory>(
    memory: &M,
    registers: &mut Registers,
    next: u32,
    cond: u8,
    offset: i32,
) -> Turn
    requires { cond < 14 }
    ensures row { Does M.memory memory.now (if condition_holds registers.old.flags cond
        then going (target_of registers.old offset) registers.old
        else going next registers.old) result registers.old registers.new memory.now }
    ensures flags { registers.new.flags ≡ registers.old.flags }
{
    if holds(registers.flags, cond) {
        go(memory, registers, target(registers, offset))
    } else {
        go(memory, registers, next)
    }
}

/// The sum of two words and a carry into a low register, and its flags.
#[inline(always)]
pub fn adds<M: Memory>(
    memory: &M,
    registers: &mut Registers,
    next: u32,
    rd: u8,
    operands: (u32, u32),
    c: u32,
) -> Turn
    requires { (rd < 13) × (c < 2) }
    ensures row { Does M.memory memory.now
        (adding next registers.old rd operands.0 operands.1 c) result registers.old registers.new memory.now }
    ensures flags { registers.old.flags < 16 → registers.new.flags < 16 }
{
    let (x, y) = operands;
    writes(memory, registers, next, rd, add_with_carry(x, y, c))
}

/// A difference into a low register, and its flags.
#[inline(always)]
pub fn subs<M: Memory>(
    memory: &M,
    registers: &mut Registers,
    next: u32,
    rd: u8,
    x: u32,
    y: u32,
) -> Turn
    requires { rd < 13 }
    ensures row { Does M.memory memory.now
        (subtracting next registers.old rd x y) result registers.old registers.new memory.now }
    ensures flags { registers.old.flags < 16 → registers.new.flags < 16 }
{
    adds(memory, registers, next, rd, (x, u32::MAX - y), 1)
}

/// The flags of a difference.
#[inline(always)]
pub fn compares<M: Memory>(memory: &M, registers: &mut Registers, next: u32, x: u32, y: u32) -> Turn
    ensures row { Does M.memory memory.now
        (comparing next registers.old x y) result registers.old registers.new memory.now }
    ensures flags { registers.old.flags < 16 → registers.new.flags < 16 }
{
    flags_are(
        memory,
        registers,
        next,
        add_with_carry(x, u32::MAX - y, 1).1,
    )
}

/// A word into a low register, and N and Z.
#[inline(always)]
pub fn logic<M: Memory>(memory: &M, registers: &mut Registers, next: u32, rd: u8, v: u32) -> Turn
    requires { rd < 13 }
    ensures row { Does M.memory memory.now
        (reckoning next registers.old rd v) result registers.old registers.new memory.now }
    ensures flags { registers.old.flags < 16 → registers.new.flags < 16 }
{
    writes(memory, registers, next, rd, (v, nz(registers.flags, v)))
}

/// A word into any of the sixteen registers.
pub fn moves<M: Memory>(memory: &M, registers: &mut Registers, next: u32, rd: u8, v: u32) -> Turn
    requires { rd < 16 }
    ensures row { Does M.memory memory.now
        (moving next registers.old rd v) result registers.old registers.new memory.now }
    ensures flags { registers.new.flags ≡ registers.old.flags }
{
    let sp = if rd == 13 { v / 4 * 4 } else { registers.sp };
    if !memory.stack_in_range(sp) {
        return Turn::Fault(Fault::StackRange, registers.pc);
    }
    registers.pc = next;
    match rd {
        13 => registers.sp = sp,
        14 => registers.lr = v,
        15 => registers.pc = v / 2 * 2,
        _ => registers.r[rd as usize] = v,
    }
    Turn::Went
}

/// To another SP.
#[inline(always)]
pub fn moves_sp<M: Memory>(memory: &M, registers: &mut Registers, next: u32, sp: u32) -> Turn
    ensures row { Does M.memory memory.now
        (going next (record registers.old { sp = sp })) result registers.old registers.new memory.now }
    ensures flags { registers.new.flags ≡ registers.old.flags }
{
    if !memory.stack_in_range(sp) {
        return Turn::Fault(Fault::StackRange, registers.pc);
    }
    registers.sp = sp;
    registers.pc = next;
    Turn::Went
}

/// To an address with bit 0 set, with this LR.
pub fn jumps<M: Memory>(memory: &M, registers: &mut Registers, lr: u32, to: u32) -> Turn
    ensures row { Does M.memory memory.now (ends registers.old.sp (jumping (record registers.old { lr = lr }) to))
        result registers.old registers.new memory.now }
    ensures flags { registers.new.flags ≡ registers.old.flags }
{
    if !memory.stack_in_range(registers.sp) {
        return Turn::Fault(Fault::StackRange, registers.pc);
    }
    if to % 2 == 0 {
        return Turn::Fault(Fault::NotThumb, registers.pc);
    }
    registers.lr = lr;
    registers.pc = to - 1;
    Turn::Went
}

/// A fault of the instruction's own.
pub fn stops<M: Memory>(memory: &M, registers: &Registers, fault: Fault) -> Turn
    ensures { Does M.memory memory.now
        (ends registers.now.sp (Stops (number_of fault))) result registers.now registers.now memory.now }
{
    if !memory.stack_in_range(registers.sp) {
        return Turn::Fault(Fault::StackRange, registers.pc);
    }
    Turn::Fault(fault, registers.pc)
}

/// Asks for a service.
pub fn asks<M: Memory>(memory: &M, registers: &mut Registers, next: u32, service: u8) -> Turn
    ensures row { Does M.memory memory.now (ends registers.old.sp (Asks service (record registers.old { pc = next })))
        result registers.old registers.new memory.now }
    ensures flags { registers.new.flags ≡ registers.old.flags }
{
    if !memory.stack_in_range(registers.sp) {
        return Turn::Fault(Fault::StackRange, registers.pc);
    }
    registers.pc = next;
    Turn::Service(service)
}

/// A word, halfword or byte into a low register, with zeros above.
#[inline(always)]
pub fn loads<M: Memory>(
    memory: &mut M,
    registers: &mut Registers,
    next: u32,
    rt: u8,
    at: u32,
    bytes: u8,
) -> Turn
    requires size { IsSize bytes }
    requires rt { rt < 13 }
    ensures row { Does M.memory memory.old (load_from next registers.old rt unsigned
        (record { at = at; bytes = bytes })) result registers.old registers.new memory.new }
    ensures flags { registers.new.flags ≡ registers.old.flags }
{
    if !memory.stack_in_range(registers.sp) {
        return Turn::Fault(Fault::StackRange, registers.pc);
    }
    if let Some(fault) = memory.check(at, bytes, false) {
        return Turn::Fault(fault, registers.pc);
    }
    registers.r[rt as usize] = memory.load(at, bytes);
    registers.pc = next;
    Turn::Went
}

/// The low bytes of a low register.
#[inline(always)]
pub fn stores<M: Memory>(
    memory: &mut M,
    registers: &mut Registers,
    next: u32,
    rt: u8,
    at: u32,
    bytes: u8,
) -> Turn
    requires size { IsSize bytes }
    requires rt { rt < 13 }
    ensures row { Does M.memory memory.old (store_to next registers.old rt (record { at = at; bytes = bytes })) result
        registers.old registers.new memory.new }
    ensures flags { registers.new.flags ≡ registers.old.flags }
{
    if !memory.stack_in_range(registers.sp) {
        return Turn::Fault(Fault::StackRange, registers.pc);
    }
    if let Some(fault) = memory.check(at, bytes, true) {
        return Turn::Fault(fault, registers.pc);
    }
    memory.store(at, bytes, low_bytes(registers.r[rt as usize], bytes));
    registers.pc = next;
    Turn::Went
}

/// A halfword or byte into a low register, with its sign extended.
pub fn loads_signed<M: Memory>(
    memory: &mut M,
    registers: &mut Registers,
    next: u32,
    rt: u8,
    at: u32,
    bytes: u8,
) -> Turn
    requires size { (bytes ≡ 1) ⊎ (bytes ≡ 2) }
    requires rt { rt < 13 }
    ensures row { Does M.memory memory.old (load_from next registers.old rt (extended (bytes * 8))
        (record { at = at; bytes = bytes })) result registers.old registers.new memory.new }
    ensures flags { registers.new.flags ≡ registers.old.flags }
{
    if !memory.stack_in_range(registers.sp) {
        return Turn::Fault(Fault::StackRange, registers.pc);
    }
    if let Some(fault) = memory.check(at, bytes, false) {
        return Turn::Fault(fault, registers.pc);
    }
    let word = memory.load(at, bytes);
    registers.r[rt as usize] = if bytes == 1 {
        signed_byte(word)
    } else {
        signed_half(word)
    };
    registers.pc = next;
    Turn::Went
}

/// To another address, with the next one and bit 0 in LR.
pub fn calls<M: Memory>(memory: &M, registers: &mut Registers, next: u32, offset: i32) -> Turn
    ensures row { Does M.memory memory.now (going (target_of registers.old offset)
        (record registers.old { lr = word (next + 1) })) result registers.old registers.new memory.now }
    ensures flags { registers.new.flags ≡ registers.old.flags }
{
    if !memory.stack_in_range(registers.sp) {
        return Turn::Fault(Fault::StackRange, registers.pc);
    }
    registers.lr = next.wrapping_add(1);
    registers.pc = target(registers, offset);
    Turn::Went
}

/// The low bytes of a word.
fn low_bytes(v: u32, bytes: u8) -> u32
    requires { IsSize bytes }
    ensures { result ≡ v % 2 ^ (bytes * 8) }
{
    match bytes {
        1 => v % (1 << 8),
        2 => v % (1 << 16),
        _ => v,
    }
}
