// A fault, and its sentence.
ghost use Rattle.std.specs.Prelude.{IsTrue, OnOk};
ghost use Rattle.input_hints.specs.Plain.{is_printed, IsPlain, StaysPlain};

use itoa::Buffer;
use std::alloc::{AllocError, Global};

/// How many bytes of the file a sentence shows at most.
const MOST_SHOWN: usize = 40;

/// What is wrong, and in which line, from 1. The sentence is what ASCII prints alone, and shows at most 40 bytes of the file at a time.
#[derive(Debug, Drop)]
pub struct InputFault {
    pub line: usize,
    pub sentence: Vec<u8>,
    pub ghost is_plain: { IsPlain sentence.items },
}

/// Where a fault is: its line, and which entry of which list, if it is in one.
#[derive(Clone, Copy, Drop)]
pub struct Place {
    pub line: usize,
    pub noun: &'static str,
    pub number: usize,
}

/// A part of a sentence.
#[derive(Clone, Copy, Drop)]
pub enum Part<'t> {
    Words(&'static str),
    /// Bytes of the file.
    Shown(&'t [u8]),
    Number(u64),
}

/// The hexadecimal digit of a number below 16.
fn digit(number: u8) -> u8
    ensures { IsTrue (is_printed result) }
{
    match number {
        0..=9 => b'0' + number,
        10..=15 => b'a' + (number - 10),
        _ => b'?',
    }
}

/// Adds a byte as it is where ASCII prints it, else as `\x` and two digits.
fn push_byte(out: &mut Vec<u8>, byte: u8) -> Result<(), AllocError>
    ensures { OnOk result (StaysPlain out.old.items out.new.items) }
{
    if 32 <= byte && byte < 127 {
        out.push(byte)?;
        return Ok(());
    }
    out.push(b'\\')?;
    out.push(b'x')?;
    out.push(digit(byte / 16))?;
    out.push(digit(byte % 16))?;
    Ok(())
}

/// Adds bytes so.
fn push_bytes(out: &mut Vec<u8>, bytes: &[u8]) -> Result<(), AllocError>
    ensures { OnOk result (StaysPlain out.old.items out.new.items) }
{
    for byte in bytes {
        push_byte(out, *byte)?;
    }
    Ok(())
}

/// Adds the first bytes so.
fn push_shown(out: &mut Vec<u8>, bytes: &[u8]) -> Result<(), AllocError>
    ensures { OnOk result (StaysPlain out.old.items out.new.items) }
{
    let count = bytes.len().min(MOST_SHOWN);
    let shown = &bytes[..count];
    push_bytes(out, shown)?;
    if count < bytes.len() {
        return push_bytes(out, b"..");
    }
    Ok(())
}

fn push_number(out: &mut Vec<u8>, number: u64) -> Result<(), AllocError>
    ensures { OnOk result (StaysPlain out.old.items out.new.items) }
{
    let mut buffer = Buffer::new();
    push_bytes(out, buffer.format(number).as_bytes())
}

fn push_part(out: &mut Vec<u8>, part: Part<'_>) -> Result<(), AllocError>
    ensures { OnOk result (StaysPlain out.old.items out.new.items) }
{
    match part {
        Part::Words(words) => push_bytes(out, words.as_bytes()),
        Part::Shown(bytes) => push_shown(out, bytes),
        Part::Number(number) => push_number(out, number),
    }
}

/// Adds which entry it is.
fn push_entry(out: &mut Vec<u8>, place: Place) -> Result<(), AllocError>
    ensures { OnOk result (StaysPlain out.old.items out.new.items) }
{
    if place.noun.is_empty() {
        return Ok(());
    }
    push_bytes(out, place.noun.as_bytes())?;
    push_bytes(out, b" ")?;
    push_number(out, place.number as u64)?;
    push_bytes(out, b": ")
}

fn push_parts(out: &mut Vec<u8>, parts: &[Part<'_>]) -> Result<(), AllocError>
    ensures { OnOk result (StaysPlain out.old.items out.new.items) }
{
    for part in parts {
        push_part(out, *part)?;
    }
    Ok(())
}

/// A fault at a place, of these parts.
pub fn fault(
    alloc: Global,
    place: Place,
    parts: &[Part<'_>],
) -> Result<Option<InputFault>, AllocError> {
    let mut sentence = Vec::new(alloc);
    push_entry(&mut sentence, place)?;
    push_parts(&mut sentence, parts)?;
    Ok(Some(InputFault {
        line: place.line,
        sentence,
    }))
}

/// A place outside entries.
pub fn in_line(line: usize) -> Place {
    Place {
        line,
        noun: "",
        number: 0,
    }
}
