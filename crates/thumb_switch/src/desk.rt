// The memory that the switch executes over: the held bytes, the stack region, and the words of one record.
ghost use Rattle.std.specs.Prelude.{◌≡◌, ◌+◌, ◌*◌, ◌/◌, ◌%◌, ◌<◌, ◌≤◌, ◌^◌, ◌==◌, length, slice_index, slice_index_or, None, refl};
ghost use Rattle.slab.specs.Slab.{ContainsKey};
ghost use Rattle.thumb_code.specs.Map.{flash_word, stack_at, ram_end, word_in};
ghost use Rattle.armv6m_machine.specs.Answers.{IsSize};
ghost use Rattle.thumb_switch.specs.Space.{space_word, space_fault, in_stack, in_record, in_code, merged_in, replaced};
ghost use Rattle.thumb_switch.specs.Switching.{with_stack};
ghost use Rattle.thumb_switch.specs.Desk.{on_desk, words_of, desk_memory, IsHeld};
ghost use Rattle.thumb_switch.specs.DeskLaws.{fault_stays};

use crate::parts::{merged, part};
use crate::space::{RAM_END, RECORD, STACK};
use armv6m_machine::{Fault, Machine, Memory};
use fiber_runtime::Runtime;

/// The held bytes at 0, and a runtime's stack region and record.
#[derive(Drop)]
pub struct Desk<'c, 'r> {
    pub code: &'c [u8],
    pub runtime: &'r mut Runtime,
    pub key: usize,
}

/// Whether the address is a multiple of the size.
fn is_aligned(address: u32, bytes: u8) -> bool
    requires { IsSize bytes }
    ensures { result ≡ (address % bytes == 0) }
{
    match bytes {
        1 => true,
        2 => address % 2 == 0,
        _ => address % 4 == 0,
    }
}

/// A byte of the code, 0xFF past its end.
fn byte(code: &[u8], at: usize) -> u32
    ensures value { result ≡ slice_index_or code.now at 0xFF }
    ensures small { result < 256 }
{
    match code.get(at) {
        Some(byte) => u32::from(*byte),
        None => 0xFF,
    }
}

/// Four bytes of the code, the low one first.
pub fn code_word(code: &[u8], at: u32) -> u32
    requires { at < 2 ^ 31 }
    ensures { result ≡ flash_word code.now at }
{
    let at = at as usize;
    byte(code, at)
        + byte(code, at + 1) * 0x100
        + byte(code, at + 2) * 0x1_0000
        + byte(code, at + 3) * 0x100_0000
}

/// Whether the address is in the stack region.
fn is_stack(address: u32) -> bool
    ensures { result ≡ in_stack address }
{
    address >= STACK && address < RAM_END
}

/// Whether the address is in a record of so many words.
fn is_record(count: usize, address: u32) -> bool
    requires { count ≤ 1024 }
    ensures { result ≡ in_record count address }
{
    address >= RECORD && address < RECORD + 4 * count as u32
}

/// Whether so many bytes from the address on are in the code.
fn is_code(size: usize, address: u32, bytes: u8) -> bool
    ensures { result ≡ in_code size (record { at = address; bytes = bytes }) }
{
    address < STACK && address as usize + bytes as usize <= size
}

/// The word that holds the byte at an address.
fn word(desk: &Desk, address: u32) -> u32
    requires { IsHeld (length (words_of desk.now.runtime.now desk.now.key)) address }
    ensures { result ≡ space_word (on_desk desk.now) address }
{
    if address < STACK {
        code_word(desk.code, address / 4 * 4)
    } else if address < RECORD {
        desk.runtime.stack()[((address - STACK) / 4) as usize]
    } else {
        desk.runtime
            .word(desk.key, ((address - RECORD) / 4) as usize)
    }
}

/// What a store makes of the word of the stack region at an address. Where all its bytes are stored the old word isn't read.
fn stack_word(machine: &Machine, address: u32, bytes: u8, word: u32) -> u32
    requires size { IsSize bytes }
    requires aligned { address % bytes ≡ 0 }
    requires low { stack_at ≤ address }
    requires high { address < ram_end }
    ensures { result
        ≡ merged_in (record { at = address; bytes = bytes }) word (word_in machine.now.memory.stack stack_at address) }
{
    if bytes == 4 {
        return word;
    }
    match machine.word(address / 4 * 4) {
        Some(old) => merged(old, address, bytes, word),
        None => unreachable!(),
    }
}

/// The same of a word of the record.
fn record_word(desk: &Desk, at: usize, address: u32, bytes: u8, word: u32) -> u32
    requires size { IsSize bytes }
    requires aligned { address % bytes ≡ 0 }
    requires live { ContainsKey desk.now.runtime.now.pool desk.now.key }
    requires there { at < length (words_of desk.now.runtime.now desk.now.key) }
    ensures { result ≡ merged_in (record { at = address; bytes = bytes }) word
        (slice_index (words_of desk.now.runtime.now desk.now.key) at) }
{
    if bytes == 4 {
        return word;
    }
    let old = desk.runtime.word(desk.key, at);
    merged(old, address, bytes, word)
}

/// Sets bytes of the stack region.
fn put_stack(machine: &mut Machine, address: u32, bytes: u8, word: u32)
    requires size { IsSize bytes }
    requires aligned { address % bytes ≡ 0 }
    requires low { stack_at ≤ address }
    requires high { address < ram_end }
    ensures after { machine.new ≡ with_stack machine.old
        (replaced machine.old.memory.stack stack_at (record { at = address; bytes = bytes }) word) }
    ensures whole { length machine.old.memory.stack ≡ 1024 }
{
    let _ = machine.stack();
    let whole = stack_word(machine, address, bytes, word);
    let _ = machine.set_word(address / 4 * 4, whole);
}

impl<'c, 'r> Memory for Desk<'c, 'r> {
    ghost memory = { desk_memory };

    ghost load_keeps = { λ m a b s. refl };

    ghost store_keeps = { λ m a b v s. fault_stays m.key m.runtime.now m.code.now a b v s };

    ghost load_keeps_sp = { λ m a n. refl };

    ghost store_keeps_sp = { λ m a v n. refl };

    fn check(&self, address: u32, bytes: u8, store: bool) -> Option<Fault> {
        if !is_aligned(address, bytes) {
            Some(Fault::Unaligned)
        } else if is_stack(address) {
            None
        } else if address < STACK {
            if store || !is_code(self.code.len(), address, bytes) {
                Some(Fault::OutOfMap)
            } else {
                None
            }
        } else if is_record(self.runtime.words(self.key), address) {
            None
        } else {
            Some(Fault::OutOfMap)
        }
    }

    fn load(&mut self, address: u32, bytes: u8) -> u32 {
        let word = word(self, address);
        part(word, address, bytes)
    }

    fn store(&mut self, address: u32, bytes: u8, word: u32) {
        if address < RECORD {
            put_stack(self.runtime.machine(), address, bytes, word);
        } else {
            let at = ((address - RECORD) / 4) as usize;
            let whole = record_word(self, at, address, bytes, word);
            self.runtime.set_word(self.key, at, whole);
        }
    }

    fn stack_in_range(&self, sp: u32) -> bool {
        sp >= STACK && sp <= RAM_END
    }
}
