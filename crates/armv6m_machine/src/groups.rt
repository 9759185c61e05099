//! The rows of the table that are in groups, a function for each group.
ghost use Rattle.std.specs.Prelude.{◌≡◌, ◌<◌};
ghost use Rattle.thumb_code.specs.Table.{Fits};
ghost use Rattle.thumb_code.specs.Effect.{effect};
ghost use Rattle.armv6m_machine.specs.Steps.{Does};
ghost use Rattle.armv6m_machine.specs.Groups.{group_of, Shifting, Summing, Reckoning, Moving, Loading, Storing, MovingMany, Branching, Signalling};

use crate::arithmetic::{
    asr, lsl, lsr, reversed, reversed_in_halves, signed_byte, signed_half, swapped,
};
use crate::faults::{Fault, Turn};
use crate::memory::Memory;
use crate::operands::{
    carry, inverted, low, low_byte, low_half, or_32, pc_read, reg, scaled, sum, target,
};
use crate::rows::{
    adds, asks, calls, compares, compares_sum, go, jumps, loads, loads_signed, logic, moves,
    moves_sp, puts, rotates, shifts_left, shifts_right, shifts_signed, stops, stores, subs, tests,
    writes,
};
use crate::transfers::{loads_many, pops, pops_pc, pushes, pushes_lr, stores_many};
use thumb_code::{Instr, Registers};

/// A shift or a rotation, by a number or by a register.
#[inline(always)]
pub fn execute_shift<M: Memory>(instr: Instr, next: u32, s: &mut Registers, m: &M) -> Turn
    requires fits { Fits instr }
    requires group { group_of instr ≡ Shifting }
    ensures row { Does M.memory m.now (effect next s.old instr) result s.old s.new m.now }
    ensures flags { s.old.flags < 16 → s.new.flags < 16 }
{
    match instr {
        Instr::LslImm { rd, rm, imm } => writes(m, s, next, rd, lsl(s.flags, low(s, rm), imm)),
        Instr::LsrImm { rd, rm, imm } => writes(
            m,
            s,
            next,
            rd,
            lsr(s.flags, low(s, rm), or_32(imm)),
        ),
        Instr::AsrImm { rd, rm, imm } => writes(
            m,
            s,
            next,
            rd,
            asr(s.flags, low(s, rm), or_32(imm)),
        ),
        Instr::LslReg { rdn, rm } => shifts_left(m, s, next, rdn, rm),
        Instr::LsrReg { rdn, rm } => shifts_right(m, s, next, rdn, rm),
        Instr::AsrReg { rdn, rm } => shifts_signed(m, s, next, rdn, rm),
        Instr::Ror { rdn, rm } => rotates(m, s, next, rdn, rm),
        _ => unreachable!(),
    }
}

/// A sum or a difference, or the flags of one.
#[inline(always)]
pub fn execute_sum<M: Memory>(instr: Instr, next: u32, s: &mut Registers, m: &M) -> Turn
    requires fits { Fits instr }
    requires group { group_of instr ≡ Summing }
    ensures row { Does M.memory m.now (effect next s.old instr) result s.old s.new m.now }
    ensures flags { s.old.flags < 16 → s.new.flags < 16 }
{
    match instr {
        Instr::SubReg { rd, rn, rm } => subs(m, s, next, rd, low(s, rn), low(s, rm)),
        Instr::AddImm3 { rd, rn, imm } => adds(m, s, next, rd, (low(s, rn), u32::from(imm)), 0),
        Instr::SubImm3 { rd, rn, imm } => subs(m, s, next, rd, low(s, rn), u32::from(imm)),
        Instr::AddImm8 { rd, imm } => adds(m, s, next, rd, (low(s, rd), u32::from(imm)), 0),
        Instr::SubImm8 { rd, imm } => subs(m, s, next, rd, low(s, rd), u32::from(imm)),
        Instr::Adc { rdn, rm } => adds(m, s, next, rdn, (low(s, rdn), low(s, rm)), carry(s)),
        Instr::Sbc { rdn, rm } => adds(m, s, next, rdn, (low(s, rdn), inverted(s, rm)), carry(s)),
        Instr::Rsb { rdn, rm } => subs(m, s, next, rdn, 0, low(s, rm)),
        Instr::Cmn { rdn, rm } => compares_sum(m, s, next, low(s, rdn), low(s, rm)),
        Instr::CmpHigh { rd, rm } => compares(m, s, next, reg(s, rd), reg(s, rm)),
        _ => unreachable!(),
    }
}

/// A word whose N and Z are set.
#[inline(always)]
pub fn execute_logic<M: Memory>(instr: Instr, next: u32, s: &mut Registers, m: &M) -> Turn
    requires fits { Fits instr }
    requires group { group_of instr ≡ Reckoning }
    ensures row { Does M.memory m.now (effect next s.old instr) result s.old s.new m.now }
    ensures flags { s.old.flags < 16 → s.new.flags < 16 }
{
    match instr {
        Instr::MovImm { rd, imm } => logic(m, s, next, rd, u32::from(imm)),
        Instr::And { rdn, rm } => logic(m, s, next, rdn, low(s, rdn) & low(s, rm)),
        Instr::Eor { rdn, rm } => logic(m, s, next, rdn, low(s, rdn) ^ low(s, rm)),
        Instr::Tst { rdn, rm } => tests(m, s, next, low(s, rdn) & low(s, rm)),
        Instr::Orr { rdn, rm } => logic(m, s, next, rdn, low(s, rdn) | low(s, rm)),
        Instr::Mul { rdn, rm } => logic(m, s, next, rdn, low(s, rdn).wrapping_mul(low(s, rm))),
        Instr::Bic { rdn, rm } => logic(m, s, next, rdn, low(s, rdn) & inverted(s, rm)),
        Instr::Mvn { rdn, rm } => logic(m, s, next, rdn, inverted(s, rm)),
        _ => unreachable!(),
    }
}

/// A word into a register or SP; the flags stay.
#[inline(always)]
pub fn execute_move<M: Memory>(instr: Instr, next: u32, s: &mut Registers, m: &M) -> Turn
    requires fits { Fits instr }
    requires group { group_of instr ≡ Moving }
    ensures row { Does M.memory m.now (effect next s.old instr) result s.old s.new m.now }
    ensures flags { s.old.flags < 16 → s.new.flags < 16 }
{
    match instr {
        Instr::AddHigh { rd, rm } => moves(m, s, next, rd, reg(s, rd).wrapping_add(reg(s, rm))),
        Instr::MovHigh { rd, rm } => moves(m, s, next, rd, reg(s, rm)),
        Instr::Adr { rd, imm } => puts(m, s, next, rd, scaled(pc_read(s) / 4 * 4, imm, 4)),
        Instr::AddSp { rd, imm } => puts(m, s, next, rd, scaled(s.sp, imm, 4)),
        Instr::AddSpImm { imm } => moves_sp(m, s, next, scaled(s.sp, imm, 4)),
        Instr::SubSpImm { imm } => moves_sp(m, s, next, s.sp.wrapping_sub(u32::from(imm) * 4)),
        Instr::Sxth { rd, rm } => puts(m, s, next, rd, signed_half(low_half(s, rm))),
        Instr::Sxtb { rd, rm } => puts(m, s, next, rd, signed_byte(u32::from(low_byte(s, rm)))),
        Instr::Uxth { rd, rm } => puts(m, s, next, rd, low_half(s, rm)),
        Instr::Uxtb { rd, rm } => puts(m, s, next, rd, u32::from(low_byte(s, rm))),
        Instr::Rev { rd, rm } => puts(m, s, next, rd, reversed(low(s, rm))),
        Instr::Rev16 { rd, rm } => puts(m, s, next, rd, reversed_in_halves(low(s, rm))),
        Instr::Revsh { rd, rm } => puts(m, s, next, rd, signed_half(swapped(low_half(s, rm)))),
        _ => unreachable!(),
    }
}

/// A load of one item.
#[inline(always)]
pub fn execute_load<M: Memory>(instr: Instr, next: u32, s: &mut Registers, m: &mut M) -> Turn
    requires fits { Fits instr }
    requires group { group_of instr ≡ Loading }
    ensures row { Does M.memory m.old (effect next s.old instr) result s.old s.new m.new }
    ensures flags { s.old.flags < 16 → s.new.flags < 16 }
{
    match instr {
        Instr::LdrPc { rt, imm } => loads(m, s, next, rt, scaled(pc_read(s) / 4 * 4, imm, 4), 4),
        Instr::Ldrsb { rt, rn, rm } => loads_signed(m, s, next, rt, sum(s, rn, rm), 1),
        Instr::LdrReg { rt, rn, rm } => loads(m, s, next, rt, sum(s, rn, rm), 4),
        Instr::LdrhReg { rt, rn, rm } => loads(m, s, next, rt, sum(s, rn, rm), 2),
        Instr::LdrbReg { rt, rn, rm } => loads(m, s, next, rt, sum(s, rn, rm), 1),
        Instr::Ldrsh { rt, rn, rm } => loads_signed(m, s, next, rt, sum(s, rn, rm), 2),
        Instr::LdrImm { rt, rn, imm } => loads(m, s, next, rt, scaled(low(s, rn), imm, 4), 4),
        Instr::LdrbImm { rt, rn, imm } => loads(m, s, next, rt, scaled(low(s, rn), imm, 1), 1),
        Instr::LdrhImm { rt, rn, imm } => loads(m, s, next, rt, scaled(low(s, rn), imm, 2), 2),
        _ => unreachable!(),
    }
}

/// A store of one item.
#[inline(always)]
pub fn execute_store<M: Memory>(instr: Instr, next: u32, s: &mut Registers, m: &mut M) -> Turn
    requires fits { Fits instr }
    requires group { group_of instr ≡ Storing }
    ensures row { Does M.memory m.old (effect next s.old instr) result s.old s.new m.new }
    ensures flags { s.old.flags < 16 → s.new.flags < 16 }
{
    match instr {
        Instr::StrReg { rt, rn, rm } => stores(m, s, next, rt, sum(s, rn, rm), 4),
        Instr::StrhReg { rt, rn, rm } => stores(m, s, next, rt, sum(s, rn, rm), 2),
        Instr::StrbReg { rt, rn, rm } => stores(m, s, next, rt, sum(s, rn, rm), 1),
        Instr::StrImm { rt, rn, imm } => stores(m, s, next, rt, scaled(low(s, rn), imm, 4), 4),
        Instr::StrbImm { rt, rn, imm } => stores(m, s, next, rt, scaled(low(s, rn), imm, 1), 1),
        Instr::StrhImm { rt, rn, imm } => stores(m, s, next, rt, scaled(low(s, rn), imm, 2), 2),
        _ => unreachable!(),
    }
}

/// Loads or stores of several words.
#[inline(always)]
pub fn execute_many<M: Memory>(instr: Instr, next: u32, s: &mut Registers, m: &mut M) -> Turn
    requires fits { Fits instr }
    requires group { group_of instr ≡ MovingMany }
    ensures row { Does M.memory m.old (effect next s.old instr) result s.old s.new m.new }
    ensures flags { s.old.flags < 16 → s.new.flags < 16 }
{
    match instr {
        Instr::Push { list, m: true } => pushes_lr(m, s, next, list),
        Instr::Push { list, m: false } => pushes(m, s, next, list),
        Instr::Pop { list, p: true } => pops_pc(m, s, next, list),
        Instr::Pop { list, p: false } => pops(m, s, next, list),
        Instr::Stm { rn, list } => stores_many(m, s, next, rn, list),
        Instr::Ldm { rn, list } => loads_many(m, s, next, rn, list),
        _ => unreachable!(),
    }
}

/// A branch, where its condition holds, or a call.
#[inline(always)]
pub fn execute_branch<M: Memory>(instr: Instr, next: u32, s: &mut Registers, m: &M) -> Turn
    requires fits { Fits instr }
    requires group { group_of instr ≡ Branching }
    ensures row { Does M.memory m.now (effect next s.old instr) result s.old s.new m.now }
    ensures flags { s.old.flags < 16 → s.new.flags < 16 }
{
    match instr {
        Instr::Bx { rm } => jumps(m, s, s.lr, reg(s, rm)),
        Instr::Blx { rm } => jumps(m, s, next.wrapping_add(1), reg(s, rm)),
        Instr::B { offset } => go(m, s, target(s, offset)),
        Instr::Bl { offset } => calls(m, s, next, offset),
        _ => unreachable!(),
    }
}

/// A breakpoint, a hint, what is undefined for good, or a call for a service.
#[inline(always)]
pub fn execute_signal<M: Memory>(instr: Instr, next: u32, s: &mut Registers, m: &M) -> Turn
    requires fits { Fits instr }
    requires group { group_of instr ≡ Signalling }
    ensures row { Does M.memory m.now (effect next s.old instr) result s.old s.new m.now }
    ensures flags { s.old.flags < 16 → s.new.flags < 16 }
{
    match instr {
        Instr::Bkpt { .. } => stops(m, s, Fault::Breakpoint),
        Instr::Nop | Instr::Yield | Instr::Wfe | Instr::Wfi | Instr::Sev => go(m, s, next),
        Instr::Udf { .. } => stops(m, s, Fault::Undefined),
        Instr::Svc { imm } => asks(m, s, next, imm),
        _ => unreachable!(),
    }
}
