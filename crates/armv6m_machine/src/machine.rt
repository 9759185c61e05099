//! The machine with one RAM.
ghost use Rattle.std.specs.Prelude.{◌≡◌, ◌%◌, ◌≤◌, ◌<◌, ◌^◌, length, vec_len, IfOk, true};
ghost use Rattle.std.specs.Bool.{OnTrue, OnFalse};
ghost use Rattle.thumb_code.specs.Map.{flash_end, is_base};
ghost use Rattle.thumb_code.specs.Machine.{State, step as step_of, reset as reset_of};
ghost use Rattle.thumb_code.specs.Step.{fetched};
ghost use Rattle.armv6m_machine.specs.declared.faults.Turn.TheVariants.{Went};
ghost use Rattle.armv6m_machine.specs.Steps.{IsStep, IsFault, IsFetch, IsInstruction};
ghost use Rattle.armv6m_machine.specs.Stretches.{Executes};
ghost use Rattle.armv6m_machine.specs.Words.{word_at, begins_ram_word, with_word};

use crate::execution::execute_at_pc;
use crate::faults::{Fault, Stretch, Turn};
use crate::flash::FLASH_END;
use crate::mapped_memory::{MappedMemory, is_ram};
use std::alloc::Global;
use std::marker::Model;
use sts_base::NoMemory;
use thumb_code::{Instr, Registers, decode, is_wide};

/// The registers of the running fiber, flash, RAM and the base.
#[derive(Drop)]
pub struct Machine {
    registers: Registers,
    memory: MappedMemory,
}

impl Model for Machine {
    ghost Value = { State };

    ghost view = { λ m. record { registers = m.registers; memory = m.memory } };
}

impl Machine {
    ghost use Rattle.std.specs.Borrow.{sem};
    ghost use Rattle.armv6m_machine.specs.MachineLending.{LendsStackWords};

    /// The machine that begins with this image in flash: its word 0 is the base and SP, its word 1 the code address that PC
    /// begins at, its word 2 LR. The other registers, the flags and RAM are 0. Flash past the bytes reads 0xFF.
    pub fn reset(alloc: Global, flash: Vec<u8>) -> Result<Machine, NoMemory>
        requires { vec_len flash ≤ flash_end }
        ensures { IfOk result (λ m. m ≡ reset_of flash.items) }
    {
        let memory = MappedMemory::reset(alloc, flash)?;
        let registers = Registers {
            r: [0; 13],
            sp: memory.base(),
            lr: memory.flash_word(8),
            pc: memory.flash_word(4).wrapping_sub(1),
            flags: 0,
        };
        Ok(Machine { registers, memory })
    }

    /// Executes one instruction. After a fault nothing has changed, so each further step answers the same fault.
    pub fn step(&mut self) -> Turn
        ensures step { IsStep (step_of self.old) result self.old self.new }
        ensures again { IsFault result → step_of self.new ≡ step_of self.old }
        ensures flags { self.old.registers.flags < 16 → self.new.registers.flags < 16 }
    {
        match self.fetch() {
            Ok(found) => execute_at_pc(found.0, &mut self.registers, &mut self.memory),
            Err((fault, at)) => Turn::Fault(fault, at),
        }
    }

    /// Executes instructions until one asks for a service or is a fault, but at most so many.
    pub fn go(&mut self, most: u32) -> Stretch
        requires some { 1 ≤ most }
        ensures executes { Executes result.count result.at result.turn self.old self.new }
        ensures few { result.count ≤ most }
        ensures whole { result.turn ≡ Went → result.count ≡ most }
        ensures flags { self.old.registers.flags < 16 → self.new.registers.flags < 16 }
    {
        for before in 0..most {
            let at = self.registers().pc;
            match self.step() {
                Turn::Went if before + 1 < most => {}
                turn => {
                    return Stretch {
                        count: before + 1,
                        at,
                        turn,
                    };
                }
            }
        }
        unreachable!()
    }

    /// What stands at PC, and whether it is two halfwords; or a fault and its address.
    fn fetch(&self) -> Result<(Instr, bool), (Fault, u32)>
        ensures value { IsFetch result self.now.registers.pc
            (fetched self.now.memory.flash self.now.memory.base self.now.registers.pc) }
        ensures instruction { IfOk result IsInstruction }
    {
        let pc = self.registers.pc;
        if !self.memory.has_base() {
            return Err((Fault::StackRange, self.memory.base()));
        }
        if pc % 2 == 1 {
            return Err((Fault::NotThumb, pc.wrapping_add(1)));
        }
        match self.memory.slot(pc) {
            Some(found) => Ok(found),
            None => self.read(pc),
        }
    }

    /// What stands at an even PC, read anew.
    fn read(&self, pc: u32) -> Result<(Instr, bool), (Fault, u32)>
        requires base { is_base self.now.memory.base ≡ true }
        requires even { pc % 2 ≡ 0 }
        ensures value { IsFetch result pc (fetched self.now.memory.flash self.now.memory.base pc) }
        ensures instruction { IfOk result IsInstruction }
    {
        if pc >= FLASH_END {
            return Err((Fault::OutOfMap, pc));
        }
        let first = self.memory.flash_half(pc);
        let wide = is_wide(first);
        if wide && pc + 2 >= FLASH_END {
            return Err((Fault::OutOfMap, pc));
        }
        let second = if wide {
            self.memory.flash_half(pc + 2)
        } else {
            0
        };
        match decode(first, second) {
            Some(instr) => Ok((instr, wide)),
            None => Err((Fault::Undefined, pc)),
        }
    }

    /// The registers.
    pub fn registers(&self) -> Registers
        ensures { result ≡ self.now.registers }
    {
        self.registers
    }

    /// Sets the registers.
    pub fn set_registers(&mut self, registers: Registers)
        ensures { self.new ≡ record self.old { registers = registers } }
    {
        self.registers = registers;
    }

    /// The address behind the running fiber's words in the stack region.
    pub fn base(&self) -> u32
        ensures { result ≡ self.now.memory.base }
    {
        self.memory.base()
    }

    /// Sets the base.
    pub fn set_base(&mut self, base: u32)
        ensures { self.new ≡ record self.old { memory = record self.old.memory { base = base } } }
    {
        self.memory.set_base(base);
    }

    /// The bytes of the image in flash. Flash past them reads 0xFF.
    pub fn flash(&self) -> &[u8]
        ensures { result.now ≡ self.now.memory.flash }
    {
        self.memory.flash()
    }

    /// The 1024 words of the stack region.
    pub fn stack(&self) -> &[u32]
        ensures value { result.now ≡ self.now.memory.stack }
        ensures size { length result.now ≡ 1024 }
    {
        self.memory.stack()
    }

    /// The 1024 words of the stack region.
    pub fn stack_mut(&mut self) -> &mut [u32]
        ensures* writes_back { sem 𝓛 (LendsStackWords self.entry result) }
        ensures value { result.now ≡ self.old.memory.stack }
        ensures size { length result.now ≡ 1024 }
    {
        self.memory.stack_mut()
    }

    /// The word at an address. None exactly where the address is no multiple of 4 or is outside the map.
    pub fn word(&self, address: u32) -> Option<u32>
        ensures { result ≡ word_at self.now.memory address }
    {
        if address % 4 == 0 && (address < FLASH_END || is_ram(address)) {
            Some(self.memory.word(address))
        } else {
            None
        }
    }

    /// Sets the word at an address of RAM. False exactly where the address is no multiple of 4, is in flash or is outside
    /// the map; nothing has changed then.
    pub fn set_word(&mut self, address: u32, word: u32) -> bool
        ensures there { result ≡ begins_ram_word address }
        ensures set { OnTrue result (self.new ≡ record self.old { memory = with_word self.old.memory address word }) }
        ensures kept { OnFalse result (self.new ≡ self.old) }
    {
        if address % 4 == 0 && is_ram(address) {
            self.memory.put(address, 4, word);
            true
        } else {
            false
        }
    }
}
