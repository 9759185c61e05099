//! What stands where code was open.
ghost use Rattle.std.specs.Prelude.{◌≡◌, ◌<◌, ◌≤◌, ◌+◌, ◌^◌, ◌%◌, ◌++◌, true, length, vec_len, slice_index, IfOk};
ghost use Rattle.std.specs.List.{AllByRecursion};
ghost use Rattle.std.proofs.lemmas.List.Edits.{sets};
ghost use Rattle.thumb_code.specs.declared.instructions.Instr.TheVariants.{Bl};
ghost use Rattle.thumb_code.specs.Table.{half, is_two, Fits};
ghost use Rattle.thumb_layout.specs.Cells.{half_bytes, word_bytes, spelled, offset};
ghost use Rattle.thumb_emit.specs.InFlash.{callee_at, word_for};
ghost use Rattle.image_link.specs.Image.{opened};
ghost use Rattle.image_link.specs.Linkable.{IsFixOf};
ghost use Rattle.image_link.specs.inner.{as_addresses, ArePlaced, filled};

use crate::addresses::Addresses;
use byteorder::{ByteOrder, LittleEndian};
use std::alloc::Global;
use sts_base::{NoMemory, Seq};
use thumb_code::{Half, Instr, encode};
use thumb_layout::{Fix, Laid, What};

/// The number by which calls name the division routine.
const DIVISION: u32 = 0xFFFF_FFFF;

/// A word's bytes, from the low one on.
pub fn word_bytes(word: u32) -> [u8; 4]
    ensures { result ≡ word_bytes word }
{
    let mut bytes = [0; 4];
    LittleEndian::write_u32(&mut bytes, word);
    bytes
}

/// The bytes of two halfwords, each from the low one on.
fn half_bytes(first: u16, second: u16) -> [u8; 4]
    ensures { result ≡ half_bytes first ++ half_bytes second }
{
    [
        (first % 256) as u8,
        (first / 256) as u8,
        (second % 256) as u8,
        (second / 256) as u8,
    ]
}

/// How far a branch's target is from its address plus 4.
fn offset(at: u32, to: u32) -> i32
    requires at { at < 2 ^ 20 }
    requires to { to < 2 ^ 20 }
    ensures { result ≡ offset at to }
{
    to as i32 - (at as i32 + 4)
}

/// The bytes of an instruction of two halfwords.
fn wide_bytes(instr: Instr) -> [u8; 4]
    requires fits { Fits instr }
    requires wide { is_two (half instr) ≡ true }
    ensures { result ≡ spelled (half instr) }
{
    match encode(instr) {
        Half::Two(first, second) => half_bytes(first, second),
        Half::One(_) => unreachable!(),
    }
}

/// The bytes of a BL to an address from another.
fn call_bytes(at: u32, to: u32) -> [u8; 4]
    requires at { at < 2 ^ 20 }
    requires to { to < 2 ^ 20 }
    requires at_even { at % 2 ≡ 0 }
    requires to_even { to % 2 ≡ 0 }
    ensures { result ≡ spelled (half (Bl (offset at to))) }
{
    let offset = offset(at, to);
    wide_bytes(Instr::Bl { offset })
}

/// The number at a place; 0 where there is none.
fn number_at(numbers: &Seq<u32>, at: usize) -> u32
    ensures { result ≡ slice_index numbers.now at }
{
    numbers.get(at).copied().unwrap_or(0)
}

impl Addresses {
    /// Where a function stands.
    pub fn function(&self, number: usize) -> u32
        ensures { result ≡ (as_addresses self.now).function number }
    {
        number_at(&self.functions, number)
    }

    /// The word that stands for a thing. A function's code address has bit 0 set.
    pub fn word_for(&self, what: What) -> u32
        requires { ArePlaced (as_addresses self.now) }
        ensures { result ≡ word_for (as_addresses self.now) what }
    {
        match what {
            What::Function(function) => self.function(function as usize) + 1,
            What::Text(text) => number_at(&self.texts, text as usize),
            What::Class(class) => number_at(&self.classes, class as usize),
        }
    }

    /// Where a call goes.
    fn callee_at(&self, function: u32) -> u32
        ensures { result ≡ callee_at (as_addresses self.now) function }
    {
        if function == DIVISION {
            self.routine
        } else {
            self.function(function as usize)
        }
    }

    /// The four bytes for what is open at an address.
    fn opened(&self, at: u32, call: bool, what: What) -> [u8; 4]
        requires placed { ArePlaced (as_addresses self.now) }
        requires at { at < 2 ^ 20 }
        requires even { at % 2 ≡ 0 }
        ensures { result ≡ opened (as_addresses self.now) at call what }
    {
        match what {
            What::Function(function) if call => call_bytes(at, self.callee_at(function)),
            _ => word_bytes(self.word_for(what)),
        }
    }
}

/// Puts four bytes in place of those from a place on.
fn replace(bytes: &mut [u8], at: usize, four: [u8; 4])
    requires { at + 4 ≤ length bytes.old }
    ensures { bytes.new ≡ sets bytes.old at four }
{
    let [first, second, third, fourth] = four;
    bytes[at] = first;
    bytes[at + 1] = second;
    bytes[at + 2] = third;
    bytes[at + 3] = fourth;
}

/// The bytes of code that stands at an address, with what was open in it.
pub fn filled(
    alloc: Global,
    laid: &Laid,
    at: u32,
    addresses: &Addresses,
) -> Result<Vec<u8>, NoMemory>
    requires placed { ArePlaced (as_addresses addresses.now) }
    requires at { at % 4 ≡ 0 }
    requires low { at + length laid.now.bytes < 2 ^ 20 }
    requires fixes { AllByRecursion (IsFixOf (length laid.now.bytes)) laid.now.fixes }
    ensures { IfOk result
        (λ bytes. bytes.items ≡ filled (as_addresses addresses.now) at laid.now.fixes laid.now.bytes) }
{
    let Ok(mut bytes) = Vec::from_slice(alloc, laid.bytes.as_slice()) else {
        return Err(NoMemory);
    };
    for fix in laid.fixes.as_slice() {
        let four = addresses.opened(at + fix.at, fix.call, fix.what);
        replace(&mut bytes, fix.at as usize, four);
    }
    Ok(bytes)
}
