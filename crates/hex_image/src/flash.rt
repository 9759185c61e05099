//! Where data bytes stand, and the flash as far as it was reached.

ghost use Rattle.std.specs.Prelude.{◌≡◌, ℕ, ◌+◌, ◌^◌, ◌<◌, ◌≤◌, List, Option, length, OnOk, map, nat_le, is_some, unwrap_or, fold, IfOk};
ghost use Rattle.std.specs.List.{list_any};
ghost use Rattle.hex_image.specs.Image as spec;
ghost use Rattle.hex_image.specs.Image.{Cell, cells_from};
ghost use Rattle.hex_image.specs.Spells.{flash_size};
ghost use Rattle.hex_image.specs.Answers.{Gives};
ghost use Rattle.hex_image.specs.Reading.{cell_at, put_all};
ghost use Rattle.hex_image.specs.Reading as reading;

use crate::refused::{HexCode, HexRefused};
use std::alloc::{AllocError, Global};

/// The board's flash, in bytes.
pub const FLASH: usize = 262_144;

/// What a cell holds that no record gave.
pub const EMPTY: u8 = 0xFF;

/// What offsets are counted from.
#[derive(Clone, Copy)]
pub enum Base {
    /// No base record came yet.
    Zero,
    /// Paragraphs of 16 bytes, by a record of type 02.
    Segment(u16),
    /// Blocks of 65,536 bytes, by a record of type 04.
    Linear(u16),
}

/// The address of a data byte at an offset, which passes 65,535 where a record's bytes do.
fn address(base: Base, offset: usize) -> usize
    requires { offset < 2 ^ 63 + 65536 }
    ensures value { result ≡ spec.address base offset }
    ensures bound { result + 1 < 2 ^ 64 }
{
    match base {
        Base::Zero => offset,
        Base::Segment(n) => 16 * usize::from(n) + offset % 65_536,
        Base::Linear(n) => (65_536 * usize::from(n) + offset) % 4_294_967_296,
    }
}

/// Whether one of these data bytes stands behind the flash.
fn passes_flash(base: Base, offset: u16, bytes: &[u8]) -> bool
    ensures { result ≡ list_any (λ cell. nat_le flash_size cell.at) (cells_from base offset bytes.now) }
{
    for i in 0..bytes.len() {
        if address(base, usize::from(offset) + i) >= FLASH {
            return true;
        }
    }
    false
}

/// Whether a byte was given at this address.
fn is_given(flash: &[Option<u8>], at: usize) -> bool
    ensures { result ≡ is_some (cell_at flash.now at) }
{
    at < flash.len() && flash[at].is_some()
}

/// Whether one of these data bytes stands where a byte was given.
fn meets_given(flash: &[Option<u8>], base: Base, offset: u16, bytes: &[u8]) -> bool
    ensures { result ≡ list_any (λ cell. is_some (cell_at flash.now cell.at)) (cells_from base offset bytes.now) }
{
    for i in 0..bytes.len() {
        if is_given(flash, address(base, usize::from(offset) + i)) {
            return true;
        }
    }
    false
}

/// Puts a byte at an address.
#[tactic(auto, unfolding(crate::specs::Reading::put))]
fn put(flash: &mut Vec<Option<u8>>, at: usize, byte: u8) -> Result<(), AllocError>
    requires { at + 1 < 2 ^ 64 }
    ensures { OnOk result (flash.new.items ≡ reading.put flash.old.items (record { at = at; byte = byte })) }
{
    if flash.len() <= at {
        flash.resize(at + 1, None)?;
    }
    flash[at] = Some(byte);
    Ok(())
}

/// Puts data bytes from an offset on.
fn put_bytes(
    flash: &mut Vec<Option<u8>>,
    base: Base,
    offset: u16,
    bytes: &[u8],
) -> Result<(), AllocError>
    ensures { OnOk result (flash.new.items ≡ fold reading.put flash.old.items (cells_from base offset bytes.now)) }
{
    for i in 0..bytes.len() {
        put(flash, address(base, usize::from(offset) + i), bytes[i])?;
    }
    Ok(())
}

/// Puts data bytes from an offset on, or says which rule they break.
#[tactic(auto, unfolding(crate::specs::Reading::put_all))]
pub fn place(
    flash: &mut Vec<Option<u8>>,
    base: Base,
    offset: u16,
    bytes: &[u8],
) -> Result<(), HexRefused>
    ensures { Gives (λ _. flash.new.items) result (put_all flash.old.items (cells_from base offset bytes.now)) }
{
    if passes_flash(base, offset, bytes) {
        return Err(HexRefused::Image(HexCode::PastFlash));
    }
    if meets_given(flash, base, offset, bytes) {
        return Err(HexRefused::Image(HexCode::Overlap));
    }
    put_bytes(flash, base, offset, bytes)?;
    Ok(())
}

/// The bytes of the flash as far as it was reached.
pub fn image_of(alloc: Global, flash: &[Option<u8>]) -> Result<Vec<u8>, AllocError>
    ensures { IfOk result (λ v. v.items ≡ map (λ cell. unwrap_or cell 0xFF) flash.now) }
{
    let mut image = Vec::with_capacity(alloc, flash.len())?;
    for cell in flash {
        image.push(cell.unwrap_or(EMPTY))?;
    }
    Ok(image)
}
