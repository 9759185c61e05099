//! From an image to its text.

ghost use Rattle.std.specs.Prelude.{◌≡◌, ◌+◌, ◌*◌, ◌/◌, ◌%◌, ◌^◌, ◌<◌, ◌≤◌, ◌++◌, length, sum, IfOk, OnOk};
ghost use Rattle.hex.specs.Hex.{encode_upper};
ghost use Rattle.hex_image.specs.Writing.{block_lines, hextext, record_line, row_lines};
ghost use Rattle.hex_image.specs.Spells.{flash_size};

use std::alloc::{AllocError, Global};
use sts_base::NoMemory;

const DIGITS: &[u8; 16] = b"0123456789ABCDEF";

/// Adds the digits of bytes to a text, and the bytes to a sum modulo 256, which it returns.
fn put_bytes(out: &mut Vec<u8>, bytes: &[u8], before: u8) -> Result<u8, AllocError>
    ensures text { OnOk result (out.new.items ≡ out.old.items ++ encode_upper bytes.now) }
    ensures sum { IfOk result (λ s. s ≡ (before + sum bytes.now) % 256) }
{
    let mut sum = before;
    for byte in bytes {
        out.push(DIGITS[usize::from(*byte / 16)])?;
        out.push(DIGITS[usize::from(*byte % 16)])?;
        sum = sum.wrapping_add(*byte);
    }
    Ok(sum)
}

/// Adds the line of a record with this type, offset and data.
fn put_record(out: &mut Vec<u8>, kind: u8, offset: u16, payload: &[u8]) -> Result<(), AllocError>
    requires { length payload.now < 256 }
    ensures { OnOk result (out.new.items ≡ out.old.items ++ record_line kind offset payload.now) }
{
    let header = [
        payload.len() as u8,
        (offset / 256) as u8,
        (offset % 256) as u8,
        kind,
    ];
    out.push(b':')?;
    let sum = put_bytes(out, &header, 0)?;
    let sum = put_bytes(out, payload, sum)?;
    let check = ((256 - u16::from(sum)) % 256) as u8;
    put_bytes(out, &[check], 0)?;
    out.push(b'\n')?;
    Ok(())
}

/// Adds a base record where 64 KB begin.
#[tactic(auto, unfolding(crate::specs::Writing::block_lines))]
fn put_block(out: &mut Vec<u8>, at: usize) -> Result<(), AllocError>
    requires { at < 2 ^ 32 }
    ensures { OnOk result (out.new.items ≡ out.old.items ++ block_lines at) }
{
    if at % 65_536 != 0 {
        return Ok(());
    }
    let block = at / 65_536;
    put_record(out, 4, 0, &[(block / 256) as u8, (block % 256) as u8])
}

/// Adds the lines of row `k` of an image: its 16 bytes, behind a base record where 64 KB begin.
#[tactic(auto, unfolding(crate::specs::Writing::row_lines))]
fn put_row(out: &mut Vec<u8>, image: &[u8], k: usize) -> Result<(), AllocError>
    requires fits { length image.now ≤ flash_size }
    requires within { 16 * k < length image.now }
    ensures { OnOk result (out.new.items ≡ out.old.items ++ row_lines image.now k) }
{
    let at = 16 * k;
    let upto = image.len().min(at + 16);
    put_block(out, at)?;
    put_record(out, 0, (at % 65_536) as u16, &image[at..upto])
}

/// The HEX text of an image: records of 16 bytes from address 0 on, behind a base record where each 64 KB begin,
/// and the end record.
pub fn write_hex(alloc: Global, image: &[u8]) -> Result<Vec<u8>, NoMemory>
    requires { length image.now ≤ flash_size }
    ensures { IfOk result (λ text. text.items ≡ hextext image.now) }
{
    write(alloc, image).map_err(|_| NoMemory)
}

fn write(alloc: Global, image: &[u8]) -> Result<Vec<u8>, AllocError>
    requires { length image.now ≤ flash_size }
    ensures { IfOk result (λ text. text.items ≡ hextext image.now) }
{
    let mut out = Vec::new(alloc);
    for k in 0..image.len().div_ceil(16) {
        put_row(&mut out, image, k)?;
    }
    put_record(&mut out, 1, 0, &[])?;
    Ok(out)
}
