//! Where the parts of an image stand.
ghost use Rattle.std.specs.Prelude.{◌≡◌, ◌<◌, ◌≤◌, ◌+◌, ◌*◌, ℕ, Some, None, false, length, map, if◌then◌else◌, slice_index_or, IfOk, IfErr, OnOk};
ghost use Rattle.std.specs.List.{enumerate_from, fold};
ghost use Rattle.thumb_code.specs.Map.{flash_end};
ghost use Rattle.thumb_layout.specs.Layout.{up};
ghost use Rattle.image_link.specs.Image.{is_named};
ghost use Rattle.image_link.specs.inner.{end_with, starts};

use crate::refused::LinkRefused;
use flat_ir::FlatClass;
use std::alloc::Global;
use sts_base::{NoMemory, Seq};
use thumb_layout::Laid;

/// How many bytes flash has.
const FLASH: u32 = 0x40000;

/// Where the words at reset end, and the instruction behind them.
pub const HEAD: u32 = 14;

/// The addresses of functions, of the division routine, of classes' tables and of texts, by their numbers. A text that no code names
/// has the address at which the next one begins.
#[derive(Drop)]
pub struct Addresses {
    pub functions: Seq<u32>,
    pub routine: u32,
    pub classes: Seq<u32>,
    pub texts: Seq<u32>,
}

/// The next multiple of 4.
pub fn up(at: u32) -> u32
    requires { at ≤ flash_end }
    ensures { result ≡ up at }
{
    (at + 3) / 4 * 4
}

/// Where a part of a length ends that is put behind an address. It is `PastFlash` exactly where that is past the end of flash.
pub fn end_with(end: u32, length: Option<usize>) -> Result<u32, LinkRefused>
    requires { end ≤ flash_end }
    ensures end { IfOk result (λ behind. behind ≡ end_with end length) }
    ensures fits { IfOk result (λ behind. behind ≤ flash_end) }
    ensures past { IfErr result (λ why. flash_end < end_with end length) }
{
    let Some(length) = length else {
        return Ok(end);
    };
    let start = up(end);
    if length > (FLASH - start) as usize {
        return Err(LinkRefused::PastFlash);
    }
    Ok(start + length as u32)
}

/// Where parts of these lengths begin that are put behind an address, which becomes the one behind them all.
pub fn place(
    alloc: Global,
    lengths: &[Option<usize>],
    end: &mut u32,
) -> Result<Seq<u32>, LinkRefused>
    requires { end.old ≤ flash_end }
    ensures starts { IfOk result (λ found. found ≡ starts end.old lengths.now) }
    ensures end { OnOk result (end.new ≡ fold end_with end.old lengths.now) }
    ensures fits { OnOk result (end.new ≤ flash_end) }
    ensures past { IfErr result (λ why. why ≡ LinkRefused.PastFlash → flash_end < fold end_with end.old lengths.now) }
{
    let mut starts = Seq::new(alloc);
    for length in lengths {
        starts.push(up(*end))?;
        *end = end_with(*end, *length)?;
    }
    Ok(starts)
}

/// How many bytes the functions' code has.
pub fn code_lengths(alloc: Global, laid: &[Laid]) -> Result<Vec<Option<usize>>, NoMemory>
    ensures { IfOk result (λ lengths. lengths.items ≡ map (λ l. Some (length l.bytes)) laid.now) }
{
    let mut lengths = Vec::new(alloc);
    for code in laid {
        if lengths.push(Some(code.bytes.len())).is_err() {
            return Err(NoMemory);
        }
    }
    Ok(lengths)
}

/// How many bytes the classes' tables have.
pub fn class_lengths(alloc: Global, classes: &[FlatClass]) -> Result<Vec<Option<usize>>, NoMemory>
    ensures { IfOk result (λ lengths. lengths.items ≡ map (λ c. Some (4 + 4 * length c.slots)) classes.now) }
{
    let mut lengths = Vec::new(alloc);
    for class in classes {
        if lengths
            .push(Some(4 + 4 * class.slots.as_slice().len()))
            .is_err()
        {
            return Err(NoMemory);
        }
    }
    Ok(lengths)
}

/// How many bytes the texts have that are marked, which are those that laid code names.
pub fn text_lengths(
    alloc: Global,
    texts: &[Seq<u8>],
    marks: &[bool],
    laid: &[Laid],
) -> Result<Vec<Option<usize>>, NoMemory>
    requires long { length marks.now ≡ length texts.now }
    requires marks { (i : ℕ) → i < length texts.now → slice_index_or marks.now i false ≡ is_named laid.now i }
    ensures { IfOk result (λ lengths. lengths.items
        ≡ map (λ p. if is_named laid.now p.0 then Some (4 + length p.1) else None) (enumerate_from 0 texts.now)) }
{
    let mut lengths = Vec::new(alloc);
    for (index, text) in texts.iter().enumerate() {
        let length = if marks[index] {
            Some(4 + text.as_slice().len())
        } else {
            None
        };
        if lengths.push(length).is_err() {
            return Err(NoMemory);
        }
    }
    Ok(lengths)
}
