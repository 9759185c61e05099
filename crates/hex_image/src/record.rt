//! What a line says.

ghost use Rattle.std.specs.Prelude.{◌≡◌, ◌+◌, ◌*◌, ◌%◌, ◌==◌, ◌≤◌, length, sum, Ok, Err, Option, MatchResult, slice_index};
ghost use Rattle.std.specs.Option.{ok_or};
ghost use Rattle.hex_image.specs.Records as spec;
ghost use Rattle.hex_image.specs.Said.{meant, SaysSame};
ghost use Rattle.hex_image.specs.Answers.{Gives};
ghost use Rattle.hex_image.specs.declared.refused.HexCode.TheVariants.{BadLine};

use crate::refused::{HexCode, HexRefused};
use hex::FromHexError;
use std::alloc::Global;

/// What a line says.
#[derive(Clone, Copy)]
pub enum Record<'a> {
    /// Data bytes from an offset on (type 00).
    Bytes(u16, &'a [u8]),
    /// The end record (01).
    End,
    /// The base in paragraphs of 16 bytes (02).
    Segment(u16),
    /// The base in blocks of 65,536 bytes (04).
    Linear(u16),
    /// Where a program starts (03 and 05), which has no effect.
    Start,
}

/// The bytes of a line.
pub fn bytes_of(alloc: Global, line: &[u8]) -> Result<Vec<u8>, HexRefused>
    ensures { Gives (λ v. v.items) result (ok_or (spec.bytes_of line.now) BadLine) }
{
    let [b':', digits @ ..] = line else {
        return Err(HexRefused::Image(HexCode::BadLine));
    };
    match hex::decode(alloc, digits) {
        Ok(bytes) => Ok(bytes),
        Err(FromHexError::OutOfMemory) => Err(HexRefused::NoMemory),
        Err(_) => Err(HexRefused::Image(HexCode::BadLine)),
    }
}

/// Whether the bytes add up to 0 modulo 256.
fn is_balanced(bytes: &[u8]) -> bool
    requires { length bytes.now ≤ 1000 }
    ensures { result ≡ (sum bytes.now % 256 == 0) }
{
    let sum: u32 = bytes.iter().map(|byte| u32::from(*byte)).sum();
    sum % 256 == 0
}

/// What a type and its data say.
#[tactic(auto, unfolding(crate::specs::Records::meaning))]
fn meaning(kind: u8, offset: u16, payload: &[u8]) -> Result<Record<'_>, HexCode>
    ensures { SaysSame result (spec.meaning kind offset payload.now) }
{
    match (kind, payload) {
        (0, bytes) => Ok(Record::Bytes(offset, bytes)),
        (1, []) => Ok(Record::End),
        (2, [high, low]) => Ok(Record::Segment(u16::from_be_bytes([*high, *low]))),
        (4, [high, low]) => Ok(Record::Linear(u16::from_be_bytes([*high, *low]))),
        (3 | 5, [_, _, _, _]) => Ok(Record::Start),
        (1..=5, _) => Err(HexCode::BadLine),
        _ => Err(HexCode::BadType),
    }
}

/// The record of a line's bytes.
#[tactic(auto, unfolding(crate::specs::Records::record_in))]
pub fn record_in(bytes: &[u8]) -> Result<Record<'_>, HexCode>
    ensures { SaysSame result (spec.record_in bytes.now) }
{
    if bytes.len() < 5 || bytes.len() != usize::from(bytes[0]) + 5 {
        return Err(HexCode::BadLine);
    }
    if !is_balanced(bytes) {
        return Err(HexCode::BadSum);
    }
    let offset = u16::from_be_bytes([bytes[1], bytes[2]]);
    meaning(bytes[3], offset, &bytes[4..bytes.len() - 1])
}
