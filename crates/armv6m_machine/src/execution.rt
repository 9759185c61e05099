//! One instruction over any memory.
ghost use Rattle.std.specs.Prelude.{◌≡◌, ◌<◌, if◌then◌else◌};
ghost use Rattle.thumb_code.specs.Table.{Fits, half, is_two};
ghost use Rattle.thumb_code.specs.Effect.{effect};
ghost use Rattle.thumb_code.specs.Step.{behind};
ghost use Rattle.armv6m_machine.specs.Steps.{Does};

use crate::faults::Turn;
use crate::groups::{
    execute_branch, execute_load, execute_logic, execute_many, execute_move, execute_shift,
    execute_signal, execute_store, execute_sum,
};
use crate::memory::Memory;
use crate::operands::{low, scaled};
use crate::rows::{adds, branches, compares, loads, stores};
use thumb_code::{Instr, Registers};

/// Executes an instruction, where `wide` stands for one of two halfwords. Its accesses are all tried before the first store, and
/// a fault changes nothing.
pub fn execute<M: Memory>(
    instr: Instr,
    wide: bool,
    registers: &mut Registers,
    memory: &mut M,
) -> Turn
    requires { Fits instr }
    ensures row { Does M.memory memory.old
        (effect (behind registers.old.pc wide) registers.old instr) result registers.old registers.new memory.new }
    ensures flags { registers.old.flags < 16 → registers.new.flags < 16 }
{
    let next = registers.pc.wrapping_add(size(wide));
    by_row(instr, (next, next), registers, memory)
}

/// Executes an instruction that stands at PC.
#[inline(always)]
pub fn execute_at_pc<M: Memory>(instr: Instr, registers: &mut Registers, memory: &mut M) -> Turn
    requires { Fits instr }
    ensures row { Does M.memory memory.old
        (effect (behind registers.old.pc (is_two (half instr))) registers.old instr) result
        registers.old registers.new memory.new }
    ensures flags { registers.old.flags < 16 → registers.new.flags < 16 }
{
    let pc = registers.pc;
    by_row(
        instr,
        (pc.wrapping_add(2), pc.wrapping_add(4)),
        registers,
        memory,
    )
}

/// The bytes of an instruction.
fn size(wide: bool) -> u32
    ensures { result ≡ (if wide then 4 else 2) }
{
    if wide { 4 } else { 2 }
}

/// The table: each of the commonest instructions in the form of its row, and the others by their groups. The address
/// after the instruction is the second of `ends` for BL, which is two halfwords, and the first for each other: both are
/// known before the instruction is.
#[inline(always)]
fn by_row<M: Memory>(instr: Instr, ends: (u32, u32), s: &mut Registers, m: &mut M) -> Turn
    requires { Fits instr }
    ensures row { Does M.memory m.old
        (effect (if is_two (half instr) then ends.1 else ends.0) s.old instr) result s.old s.new m.new }
    ensures flags { s.old.flags < 16 → s.new.flags < 16 }
{
    let (next, after_two) = ends;
    match instr {
        Instr::AddReg { rd, rn, rm } => adds(m, s, next, rd, (low(s, rn), low(s, rm)), 0),
        Instr::CmpImm { rd, imm } => compares(m, s, next, low(s, rd), u32::from(imm)),
        Instr::CmpReg { rdn, rm } => compares(m, s, next, low(s, rdn), low(s, rm)),
        Instr::LdrSp { rt, imm } => loads(m, s, next, rt, scaled(s.sp, imm, 4), 4),
        Instr::StrSp { rt, imm } => stores(m, s, next, rt, scaled(s.sp, imm, 4), 4),
        Instr::BCond { cond, offset } => branches(m, s, next, cond, offset),
        Instr::LslImm { .. }
        | Instr::LsrImm { .. }
        | Instr::AsrImm { .. }
        | Instr::LslReg { .. }
        | Instr::LsrReg { .. }
        | Instr::AsrReg { .. }
        | Instr::Ror { .. } => execute_shift(instr, next, s, m),
        Instr::SubReg { .. }
        | Instr::AddImm3 { .. }
        | Instr::SubImm3 { .. }
        | Instr::AddImm8 { .. }
        | Instr::SubImm8 { .. }
        | Instr::Adc { .. }
        | Instr::Sbc { .. }
        | Instr::Rsb { .. }
        | Instr::Cmn { .. }
        | Instr::CmpHigh { .. } => execute_sum(instr, next, s, m),
        Instr::MovImm { .. }
        | Instr::And { .. }
        | Instr::Eor { .. }
        | Instr::Tst { .. }
        | Instr::Orr { .. }
        | Instr::Mul { .. }
        | Instr::Bic { .. }
        | Instr::Mvn { .. } => execute_logic(instr, next, s, m),
        Instr::AddHigh { .. }
        | Instr::MovHigh { .. }
        | Instr::Adr { .. }
        | Instr::AddSp { .. }
        | Instr::AddSpImm { .. }
        | Instr::SubSpImm { .. }
        | Instr::Sxth { .. }
        | Instr::Sxtb { .. }
        | Instr::Uxth { .. }
        | Instr::Uxtb { .. }
        | Instr::Rev { .. }
        | Instr::Rev16 { .. }
        | Instr::Revsh { .. } => execute_move(instr, next, s, m),
        Instr::LdrPc { .. }
        | Instr::Ldrsb { .. }
        | Instr::LdrReg { .. }
        | Instr::LdrhReg { .. }
        | Instr::LdrbReg { .. }
        | Instr::Ldrsh { .. }
        | Instr::LdrImm { .. }
        | Instr::LdrbImm { .. }
        | Instr::LdrhImm { .. } => execute_load(instr, next, s, m),
        Instr::StrReg { .. }
        | Instr::StrhReg { .. }
        | Instr::StrbReg { .. }
        | Instr::StrImm { .. }
        | Instr::StrbImm { .. }
        | Instr::StrhImm { .. } => execute_store(instr, next, s, m),
        Instr::Push { .. } | Instr::Pop { .. } | Instr::Stm { .. } | Instr::Ldm { .. } =>
            execute_many(instr, next, s, m),
        Instr::Bx { .. } | Instr::Blx { .. } | Instr::B { .. } => execute_branch(instr, next, s, m),
        Instr::Bl { .. } => execute_branch(instr, after_two, s, m),
        Instr::Bkpt { .. }
        | Instr::Nop
        | Instr::Yield
        | Instr::Wfe
        | Instr::Wfi
        | Instr::Sev
        | Instr::Udf { .. }
        | Instr::Svc { .. } => execute_signal(instr, next, s, m),
    }
}
