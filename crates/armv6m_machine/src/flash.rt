//! Flash: the bytes of an image, with what each even address of it holds read once.
ghost use Rattle.std.specs.Prelude.{◌≡◌, ◌*◌, ◌/◌, ◌%◌, ◌-◌, ◌^◌, ◌<◌, ◌≤◌, vec_len, length, IfOk};
ghost use Rattle.thumb_code.specs.Map.{flash_end, flash_byte, flash_half, flash_word};
ghost use Rattle.armv6m_machine.specs.Steps.{IsSlot, AreSlots};

use std::alloc::Global;
use std::marker::Model;
use sts_base::NoMemory;
use thumb_code::{Instr, decode, is_wide};

pub const FLASH_END: u32 = 0x0004_0000;

/// The bytes, and for each even address among them the instruction that stands there and whether it is two halfwords, where one does.
#[derive(Drop)]
pub struct Flash {
    bytes: Vec<u8>,
    slots: Vec<Option<(Instr, bool)>>,
}

impl Model for Flash {
    ghost use Rattle.std.specs.Prelude.{List, ℕ};
    ghost use Rattle.armv6m_machine.specs.Steps.{AreSlots};

    ghost Value = { List ℕ };

    ghost view = { λ f. f.bytes.items };

    ghost invariant = { λ f. AreSlots f.bytes.items 0 f.slots.items };
}

impl Flash {
    /// Flash that begins with these bytes.
    pub fn new(alloc: Global, bytes: Vec<u8>) -> Result<Flash, NoMemory>
        requires { vec_len bytes ≤ flash_end }
        ensures { IfOk result (λ f. f ≡ bytes.items) }
    {
        let slots = slots_of(alloc, &bytes)?;
        Ok(Flash { bytes, slots })
    }

    /// The bytes.
    pub fn bytes(&self) -> &[u8]
        ensures { result.now ≡ self.now }
    {
        self.bytes.as_slice()
    }

    /// The halfword at an address.
    #[inline(always)]
    pub fn half(&self, at: u32) -> u16
        requires { at < 2 ^ 31 }
        ensures { result ≡ flash_half self.now at }
    {
        half(&self.bytes, at)
    }

    /// The word at an address.
    pub fn word(&self, at: u32) -> u32
        requires { at < 2 ^ 31 }
        ensures { result ≡ flash_word self.now at }
    {
        word(&self.bytes, at)
    }

    /// The instruction at an even address, and whether it is two halfwords. None where there is none, and past the bytes.
    #[inline(always)]
    pub fn slot(&self, at: u32) -> Option<(Instr, bool)>
        requires { at % 2 ≡ 0 }
        ensures { IsSlot self.now at result }
    {
        match self.slots.get((at / 2) as usize) {
            Some(slot) => *slot,
            None => None,
        }
    }
}

/// What each even address holds.
fn slots_of(alloc: Global, bytes: &[u8]) -> Result<Vec<Option<(Instr, bool)>>, NoMemory>
    requires { length bytes.now ≤ flash_end }
    ensures { IfOk result (λ v. AreSlots bytes.now 0 v.items) }
{
    let count = bytes.len() / 2;
    let mut slots = match Vec::with_capacity(alloc, count) {
        Ok(slots) => slots,
        Err(_) => return Err(NoMemory),
    };
    for k in 0..count {
        match slots.push(read(bytes, (2 * k) as u32)) {
            Ok(()) => {}
            Err(_) => return Err(NoMemory),
        }
    }
    Ok(slots)
}

/// What an even address holds.
fn read(bytes: &[u8], at: u32) -> Option<(Instr, bool)>
    requires even { at % 2 ≡ 0 }
    requires there { at < flash_end }
    ensures { IsSlot bytes.now at result }
{
    let first = half(bytes, at);
    let wide = is_wide(first);
    if wide && at + 2 >= FLASH_END {
        return None;
    }
    let second = if wide { half(bytes, at + 2) } else { 0 };
    match decode(first, second) {
        Some(instr) => Some((instr, wide)),
        None => None,
    }
}

fn byte(bytes: &[u8], at: u32) -> u8
    ensures { result ≡ flash_byte bytes.now at }
{
    if (at as usize) < bytes.len() {
        bytes[at as usize]
    } else {
        0xff
    }
}

fn half(bytes: &[u8], at: u32) -> u16
    requires { at < 2 ^ 32 - 1 }
    ensures { result ≡ flash_half bytes.now at }
{
    let place = at as usize;
    if place + 1 < bytes.len() {
        u16::from(bytes[place]) + u16::from(bytes[place + 1]) * (1 << 8)
    } else {
        u16::from(byte(bytes, at)) + u16::from(byte(bytes, at + 1)) * (1 << 8)
    }
}

fn word(bytes: &[u8], at: u32) -> u32
    requires { at < 2 ^ 31 }
    ensures { result ≡ flash_word bytes.now at }
{
    u32::from(half(bytes, at)) + u32::from(half(bytes, at + 2)) * (1 << 16)
}
