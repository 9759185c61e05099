//! Loads and stores of several words.
ghost use Rattle.std.specs.Prelude.{◌≡◌, ◌+◌, ◌≤◌, ◌<◌, ◌∷◌, ◌++◌, [], length, None, true, false};
ghost use Rattle.thumb_code.specs.RegisterFile.{listed, values};
ghost use Rattle.thumb_code.specs.Memory.{first_fault, store_all};
ghost use Rattle.thumb_code.specs.Effect.{effect};
ghost use Rattle.thumb_code.specs.Forms.{word_accesses, words_to};
ghost use Rattle.thumb_code.specs.declared.instructions.Instr.TheVariants.{Ldm, Stm, Push, Pop};
ghost use Rattle.armv6m_machine.specs.Answers.{IsCheck};
ghost use Rattle.armv6m_machine.specs.Transfers.{loaded};
ghost use Rattle.armv6m_machine.specs.Steps.{Does};

use crate::faults::{Fault, Turn};
use crate::memory::Memory;
use thumb_code::Registers;

/// The first fault of so many words from an address on.
pub fn check_words<M: Memory>(memory: &M, at: u32, count: u32, store: bool) -> Option<Fault>
    requires { count ≤ 9 }
    ensures { IsCheck result (first_fault M.memory memory.now store (word_accesses at count)) }
{
    for i in 0..count {
        if let Some(fault) = memory.check(at.wrapping_add(4 * i), 4, store) {
            return Some(fault);
        }
    }
    None
}

/// How many registers are in the list.
pub fn count(list: u8) -> u32
    ensures value { result ≡ length (listed list) }
    ensures bound { result ≤ 8 }
{
    list.count_ones()
}

/// Loads the registers of a list from an address on.
pub fn fill<M: Memory>(memory: &mut M, registers: &mut Registers, list: u8, from: u32)
    requires { first_fault M.memory memory.old false (word_accesses from (length (listed list))) ≡ None }
    ensures registers { registers.new
        ≡ record registers.old { r = (loaded M.memory registers.old.r memory.old from (listed list)).0 } }
    ensures memory { memory.new ≡ (loaded M.memory registers.old.r memory.old from (listed list)).1 }
{
    let mut at = from;
    let mut rest = list;
    for k in 0..8usize {
        if rest % 2 == 1 {
            registers.r[k] = memory.load(at, 4);
            at = at.wrapping_add(4);
        }
        rest /= 2;
    }
}

/// Stores the registers of a list from an address on.
pub fn spill<M: Memory>(memory: &mut M, registers: &Registers, list: u8, from: u32)
    requires { first_fault M.memory memory.old true (word_accesses from (length (listed list))) ≡ None }
    ensures { memory.new ≡ store_all M.memory memory.old (words_to from (values registers.now (listed list))) }
{
    let mut at = from;
    let mut rest = list;
    for k in 0..8usize {
        if rest % 2 == 1 {
            memory.store(at, 4, registers.r[k]);
            at = at.wrapping_add(4);
        }
        rest /= 2;
    }
}

/// PUSH of the list: the words below SP, which goes down to the first.
pub fn pushes<M: Memory>(memory: &mut M, registers: &mut Registers, next: u32, list: u8) -> Turn
    ensures row { Does M.memory memory.old
        (effect next registers.old (Push list false)) result registers.old registers.new memory.new }
    ensures flags { registers.new.flags ≡ registers.old.flags }
{
    let n = count(list);
    let sp = registers.sp.wrapping_sub(4 * n);
    if !memory.stack_in_range(sp) {
        return Turn::Fault(Fault::StackRange, registers.pc);
    }
    if let Some(fault) = check_words(memory, sp, n, true) {
        return Turn::Fault(fault, registers.pc);
    }
    spill(memory, registers, list, sp);
    registers.sp = sp;
    registers.pc = next;
    Turn::Went
}

/// PUSH of the list and LR.
pub fn pushes_lr<M: Memory>(memory: &mut M, registers: &mut Registers, next: u32, list: u8) -> Turn
    ensures row { Does M.memory memory.old
        (effect next registers.old (Push list true)) result registers.old registers.new memory.new }
    ensures flags { registers.new.flags ≡ registers.old.flags }
{
    let n = count(list);
    let sp = registers.sp.wrapping_sub(4 * (n + 1));
    if !memory.stack_in_range(sp) {
        return Turn::Fault(Fault::StackRange, registers.pc);
    }
    if let Some(fault) = check_words(memory, sp, n + 1, true) {
        return Turn::Fault(fault, registers.pc);
    }
    spill(memory, registers, list, sp);
    memory.store(sp.wrapping_add(4 * n), 4, registers.lr);
    registers.sp = sp;
    registers.pc = next;
    Turn::Went
}

/// POP of the list: the words from SP on into the registers; SP goes up behind the last.
pub fn pops<M: Memory>(memory: &mut M, registers: &mut Registers, next: u32, list: u8) -> Turn
    ensures row { Does M.memory memory.old
        (effect next registers.old (Pop list false)) result registers.old registers.new memory.new }
    ensures flags { registers.new.flags ≡ registers.old.flags }
{
    let n = count(list);
    let from = registers.sp;
    let sp = from.wrapping_add(4 * n);
    if !memory.stack_in_range(sp) {
        return Turn::Fault(Fault::StackRange, registers.pc);
    }
    if let Some(fault) = check_words(memory, from, n, false) {
        return Turn::Fault(fault, registers.pc);
    }
    fill(memory, registers, list, from);
    registers.sp = sp;
    registers.pc = next;
    Turn::Went
}

/// POP of the list and PC. Where PC's word has bit 0 clear, the registers stay.
pub fn pops_pc<M: Memory>(memory: &mut M, registers: &mut Registers, next: u32, list: u8) -> Turn
    ensures row { Does M.memory memory.old
        (effect next registers.old (Pop list true)) result registers.old registers.new memory.new }
    ensures flags { registers.new.flags ≡ registers.old.flags }
{
    let n = count(list);
    let from = registers.sp;
    let sp = from.wrapping_add(4 * (n + 1));
    if !memory.stack_in_range(sp) {
        return Turn::Fault(Fault::StackRange, registers.pc);
    }
    if let Some(fault) = check_words(memory, from, n + 1, false) {
        return Turn::Fault(fault, registers.pc);
    }
    let mut popped = *registers;
    fill(memory, &mut popped, list, from);
    let to = memory.load(from.wrapping_add(4 * n), 4);
    if to % 2 == 0 {
        return Turn::Fault(Fault::NotThumb, registers.pc);
    }
    popped.sp = sp;
    popped.pc = to - 1;
    *registers = popped;
    Turn::Went
}

/// STM: the words of the registers from the base on, which goes up behind the last.
pub fn stores_many<M: Memory>(
    memory: &mut M,
    registers: &mut Registers,
    next: u32,
    rn: u8,
    list: u8,
) -> Turn
    requires { rn < 8 }
    ensures row { Does M.memory memory.old
        (effect next registers.old (Stm rn list)) result registers.old registers.new memory.new }
    ensures flags { registers.new.flags ≡ registers.old.flags }
{
    if !memory.stack_in_range(registers.sp) {
        return Turn::Fault(Fault::StackRange, registers.pc);
    }
    let n = count(list);
    let at = registers.r[rn as usize];
    if let Some(fault) = check_words(memory, at, n, true) {
        return Turn::Fault(fault, registers.pc);
    }
    spill(memory, registers, list, at);
    registers.r[rn as usize] = at.wrapping_add(4 * n);
    registers.pc = next;
    Turn::Went
}

/// LDM: the words from the base on into the registers. The base goes up behind the last, but where a word is loaded into it.
pub fn loads_many<M: Memory>(
    memory: &mut M,
    registers: &mut Registers,
    next: u32,
    rn: u8,
    list: u8,
) -> Turn
    requires { rn < 8 }
    ensures row { Does M.memory memory.old
        (effect next registers.old (Ldm rn list)) result registers.old registers.new memory.new }
    ensures flags { registers.new.flags ≡ registers.old.flags }
{
    if !memory.stack_in_range(registers.sp) {
        return Turn::Fault(Fault::StackRange, registers.pc);
    }
    let n = count(list);
    let at = registers.r[rn as usize];
    if let Some(fault) = check_words(memory, at, n, false) {
        return Turn::Fault(fault, registers.pc);
    }
    if list / (1 << rn) % 2 == 0 {
        registers.r[rn as usize] = at.wrapping_add(4 * n);
    }
    fill(memory, registers, list, at);
    registers.pc = next;
    Turn::Went
}
