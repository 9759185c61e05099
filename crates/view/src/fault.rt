// A fault of an image, by name and address.
use crate::closings::without_board;
use std::alloc::{AllocError, Global};

/// A line that tells of a fault: of which number, at which address, in hexadecimal digits.
#[derive(Clone, Copy, Drop)]
pub struct Fault<'a> {
    pub told: &'a [u8],
    number: &'a str,
    address: &'a str,
}

/// What is said of all of them, on lines of their own.
const SAYS: &str =
    "\nthe image did what no program of this language does: the HEX file is from elsewhere\n";

/// The name of a fault, and what it is, as in docs/MACHINE.md.
fn meaning_of(number: &str) -> Option<(&'static str, &'static str)> {
    match number {
        "1" => Some(("Undefined", "no instruction is spelled there, or it is UDF")),
        "2" => Some((
            "Unaligned",
            "the address of a word or halfword is no multiple of 4 or 2",
        )),
        "3" => Some((
            "OutOfMap",
            "an access outside flash and RAM, or a store to flash",
        )),
        "4" => Some(("NotThumb", "a branch to an even address")),
        "5" => Some(("StackRange", "SP leaves the stack's range")),
        "6" => Some(("AboveBase", "a store to the stack at or above its base")),
        "7" => Some(("Breakpoint", "BKPT")),
        "8" => Some((
            "BadService",
            "a service that isn't there, or whose arguments aren't sound",
        )),
        _ => None,
    }
}

fn fault_of(told: &[u8]) -> Option<Fault<'_>> {
    let words = without_board(told).strip_prefix(b"fault ")?;
    let (_, rest) = str::from_utf8(words).ok()?.split_once(' ')?;
    let (number, address) = rest.split_once(' ')?;
    Some(Fault {
        told,
        number,
        address,
    })
}

/// The first line of a transcript that tells of a fault.
pub fn first_fault(transcript: &[u8]) -> Option<Fault<'_>> {
    for line in transcript.split(|byte| *byte == b'\n') {
        if let Some(fault) = fault_of(line) {
            return Some(fault);
        }
    }
    None
}

impl Fault<'_> {
    /// What it means; nothing where its number is none of a fault.
    pub fn explained(&self, alloc: Global) -> Result<String, AllocError> {
        let mut text = String::new(alloc);
        if let Some((name, what)) = meaning_of(self.number) {
            text.push_str("fault ")?;
            text.push_str(self.number)?;
            text.push_str(" ")?;
            text.push_str(name)?;
            text.push_str(" at 0x")?;
            text.push_str(self.address.trim_start_matches('0'))?;
            text.push_str(": ")?;
            text.push_str(what)?;
            text.push_str(SAYS)?;
        }
        Ok(text)
    }
}
