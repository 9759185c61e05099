//! Flash and one RAM, by the map of addresses.
ghost use Rattle.std.specs.Prelude.{◌≡◌, ◌+◌, ◌-◌, ◌*◌, ◌/◌, ◌%◌, ◌^◌, ◌<◌, ◌≤◌, vec_len, length, ◌==◌, refl, None, true, false, IfOk, replicate};
ghost use Rattle.thumb_code.specs.Map.{arena_words, flash_end, flash_half, flash_word, is_base, access_fault, in_ram, in_flash, sp_in_range};
ghost use Rattle.thumb_code.specs.Machine.{reset, Ram, IsWhole, ram_memory, ram_word, ram_store};
ghost use Rattle.armv6m_machine.specs.Answers.{IsSize, IsHeld};
ghost use Rattle.armv6m_machine.specs.Steps.{IsSlot};
ghost use Rattle.thumb_code.proofs.Laws.{store_keeps_base};
ghost use Rattle.std.proofs.Common.{ap};

use crate::faults::Fault;
use crate::flash::{FLASH_END, Flash};
use crate::memory::Memory;
use crate::parts::{merged, part};
use std::alloc::Global;
use std::marker::Model;
use sts_base::NoMemory;
use thumb_code::Instr;

const GLOBALS: u32 = 0x2000_0000;

const ARENA: u32 = 0x2000_0400;

const STACK: u32 = 0x2000_3000;

const RAM_END: u32 = 0x2000_4000;

/// The arena's words.
const ARENA_WORDS: usize = 2816;

/// Flash, the words of the three regions of RAM, and the base, with whether it may be one.
#[derive(Drop)]
pub struct MappedMemory {
    flash: Flash,
    globals: Vec<u32>,
    arena: Vec<u32>,
    stack: Vec<u32>,
    base: u32,
    sound: bool,
}

impl Model for MappedMemory {
    ghost Value = { Ram };

    ghost view = { λ m. record { flash = m.flash; globals = m.globals.items; arena = m.arena.items; stack = m.stack.items; base = m.base } };

    ghost invariant = { λ m. (vec_len m.globals ≡ 256) × (vec_len m.arena ≡ arena_words) × (vec_len m.stack ≡ 1024)
        × (m.sound ≡ is_base m.base) };
}

/// So many words of 0.
fn zeros(alloc: Global, n: usize) -> Result<Vec<u32>, NoMemory>
    requires { n ≤ 4096 }
    ensures { IfOk result (λ v. v.items ≡ replicate n 0) }
{
    match vec![in alloc; 0u32; n] {
        Ok(words) => Ok(words),
        Err(_) => Err(NoMemory),
    }
}

impl MappedMemory {
    ghost use Rattle.std.specs.Borrow.{sem};
    ghost use Rattle.armv6m_machine.specs.Lending.{LendsStack};

    /// This image in flash, its word 0 as the base, and RAM of zeros.
    pub fn reset(alloc: Global, flash: Vec<u8>) -> Result<MappedMemory, NoMemory>
        requires { vec_len flash ≤ flash_end }
        ensures { IfOk result (λ m. m ≡ (reset flash.items).memory) }
    {
        let flash = Flash::new(alloc, flash)?;
        let base = flash.word(0);
        Ok(MappedMemory {
            flash,
            globals: zeros(alloc, 256)?,
            arena: zeros(alloc, ARENA_WORDS)?,
            stack: zeros(alloc, 1024)?,
            base,
            sound: is_base(base),
        })
    }

    /// The bytes of flash.
    pub fn flash(&self) -> &[u8]
        ensures { result.now ≡ self.now.flash }
    {
        self.flash.bytes()
    }

    /// The halfword of flash at an address.
    #[inline(always)]
    pub fn flash_half(&self, at: u32) -> u16
        requires { at < 2 ^ 31 }
        ensures { result ≡ flash_half self.now.flash at }
    {
        self.flash.half(at)
    }

    /// The instruction at an even address of flash, and whether it is two halfwords. None where there is none, and past the image.
    #[inline(always)]
    pub fn slot(&self, at: u32) -> Option<(Instr, bool)>
        requires { at % 2 ≡ 0 }
        ensures { IsSlot self.now.flash at result }
    {
        self.flash.slot(at)
    }

    /// The word of flash at an address.
    pub fn flash_word(&self, at: u32) -> u32
        requires { at < 2 ^ 31 }
        ensures { result ≡ flash_word self.now.flash at }
    {
        self.flash.word(at)
    }

    pub fn base(&self) -> u32
        ensures { result ≡ self.now.base }
    {
        self.base
    }

    pub fn set_base(&mut self, base: u32)
        ensures { self.new ≡ record self.old { base = base } }
    {
        self.base = base;
        self.sound = is_base(base);
    }

    /// Whether the base may be one.
    #[inline(always)]
    pub fn has_base(&self) -> bool
        ensures { result ≡ is_base self.now.base }
    {
        self.sound
    }

    pub fn stack(&self) -> &[u32]
        ensures value { result.now ≡ self.now.stack }
        ensures size { length result.now ≡ 1024 }
    {
        &self.stack
    }

    pub fn stack_mut(&mut self) -> &mut [u32]
        ensures* writes_back { sem 𝓛 (LendsStack self.entry result) }
        ensures value { result.now ≡ self.old.stack }
        ensures size { length result.now ≡ 1024 }
    {
        self.stack.as_mut_slice()
    }

    /// The word that holds the byte at an address of flash or RAM.
    #[inline(always)]
    pub fn word(&self, address: u32) -> u32
        requires { IsHeld address }
        ensures { result ≡ ram_word self.now address }
    {
        if address < GLOBALS {
            self.flash_word(address / 4 * 4)
        } else if address < ARENA {
            self.globals[((address - GLOBALS) / 4) as usize]
        } else if address < STACK {
            self.arena[((address - ARENA) / 4) as usize]
        } else {
            self.stack[((address - STACK) / 4) as usize]
        }
    }

    /// Sets bytes of RAM.
    #[inline(always)]
    pub fn put(&mut self, address: u32, bytes: u8, value: u32)
        requires size { IsSize bytes }
        requires aligned { address % bytes ≡ 0 }
        requires there { in_ram address ≡ true }
        ensures after { self.new ≡ ram_store self.old (record { at = address; bytes = bytes }) value }
        ensures whole { IsWhole self.old }
    {
        let word = merged(self.word(address), address, bytes, value);
        if address < ARENA {
            self.globals[((address - GLOBALS) / 4) as usize] = word;
        } else if address < STACK {
            self.arena[((address - ARENA) / 4) as usize] = word;
        } else {
            self.stack[((address - STACK) / 4) as usize] = word;
        }
    }
}

/// Whether the address is a multiple of the size.
fn is_aligned(address: u32, bytes: u8) -> bool
    requires { IsSize bytes }
    ensures { result ≡ (address % bytes == 0) }
{
    match bytes {
        1 => true,
        2 => address % 2 == 0,
        _ => address % 4 == 0,
    }
}

/// Whether a base is a multiple of 4 from the start of the stack region to its end.
fn is_base(base: u32) -> bool
    ensures { result ≡ is_base base }
{
    base % 4 == 0 && base >= STACK && base <= RAM_END
}

/// Whether the address is in RAM.
pub fn is_ram(address: u32) -> bool
    ensures { result ≡ in_ram address }
{
    address >= GLOBALS && address < RAM_END
}

impl Memory for MappedMemory {
    ghost memory = { ram_memory };

    ghost load_keeps = { λ m a b s. refl };

    ghost store_keeps = { λ m a b v s. ap (λ n. access_fault n s b) (store_keeps_base m a v) };

    ghost load_keeps_sp = { λ m a n. refl };

    ghost store_keeps_sp = { λ m a v n. ap (λ k. sp_in_range k n) (store_keeps_base m a v) };

    #[inline(always)]
    fn check(&self, address: u32, bytes: u8, store: bool) -> Option<Fault> {
        if !is_aligned(address, bytes) {
            Some(Fault::Unaligned)
        } else if is_ram(address) {
            if store && address >= STACK && address >= self.base {
                Some(Fault::AboveBase)
            } else {
                None
            }
        } else if store || address >= FLASH_END {
            Some(Fault::OutOfMap)
        } else {
            None
        }
    }

    #[inline(always)]
    fn load(&mut self, address: u32, bytes: u8) -> u32 {
        part(self.word(address), address, bytes)
    }

    #[inline(always)]
    fn store(&mut self, address: u32, bytes: u8, word: u32) {
        self.put(address, bytes, word);
    }

    #[inline(always)]
    fn stack_in_range(&self, sp: u32) -> bool {
        sp >= STACK && sp <= self.base
    }
}
