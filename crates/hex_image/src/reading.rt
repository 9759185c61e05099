//! From a text to its image.

ghost use Rattle.std.specs.Prelude.{◌≡◌, ℕ, List, length, Ok, Err, IfOk, IfErr};
ghost use Rattle.hex_image.specs.declared.refused.HexCode.{HexCode};
ghost use Rattle.hex_image.specs.Answers.{Gives, HasCause};
ghost use Rattle.hex_image.specs.Spells.{Spells, Breaks};
ghost use Rattle.hex_image.specs.Records.{full_lines};
ghost use Rattle.hex_image.specs.Reading.{behind_line, behind_lines, behind_record, finished, nothing_read, reading};
ghost use Rattle.hex_image.specs.Reader.{seen};
ghost use Rattle.hex_image.specs.Said.{meant};

use crate::flash::{Base, image_of, place};
use crate::line::first_line;
use crate::record::{Record, bytes_of, record_in};
use crate::refused::{HexCode, HexRefused};
use std::alloc::Global;

/// What was read so far.
#[derive(Drop)]
struct Reader {
    ended: bool,
    base: Base,
    flash: Vec<Option<u8>>,
}

/// Takes a record.
#[tactic(auto, unfolding(crate::specs::Reading::behind_record, crate::specs::Reading::put_all))]
fn take_record(reader: &mut Reader, said: Record) -> Result<(), HexRefused>
    ensures { Gives (λ _. seen reader.new) result (behind_record (seen reader.old) (meant said.entry)) }
{
    match said {
        Record::Bytes(offset, bytes) => place(&mut reader.flash, reader.base, offset, bytes)?,
        Record::End => reader.ended = true,
        Record::Segment(n) => reader.base = Base::Segment(n),
        Record::Linear(n) => reader.base = Base::Linear(n),
        Record::Start => {}
    }
    Ok(())
}

/// Takes a line that isn't empty.
#[tactic(auto, unfolding(crate::specs::Reading::behind_line))]
fn take_line(alloc: Global, reader: &mut Reader, line: &[u8]) -> Result<(), HexRefused>
    ensures { Gives (λ _. seen reader.new) result (behind_line (seen reader.old) line.now) }
{
    if reader.ended {
        return Err(HexRefused::Image(HexCode::AfterEnd));
    }
    let bytes = bytes_of(alloc, line)?;
    let record = record_in(&bytes)?;
    take_record(reader, record)
}

/// Takes the lines of a text.
fn take_lines(alloc: Global, reader: &mut Reader, text: &[u8]) -> Result<(), HexRefused>
    ensures { Gives (λ _. seen reader.new) result (behind_lines (seen reader.old) (full_lines text.now)) }
{
    let mut rest = text;
    while !rest.is_empty() {
        let (line, after) = first_line(rest);
        if !line.is_empty() {
            take_line(alloc, reader, line)?;
        }
        rest = after;
    }
    Ok(())
}

/// The image that was read, if the end record was.
fn finish(alloc: Global, reader: &Reader) -> Result<Vec<u8>, HexRefused>
    ensures { Gives (λ v. v.items) result (finished (seen reader.now)) }
{
    if !reader.ended {
        return Err(HexRefused::Image(HexCode::NoEnd));
    }
    let image = image_of(alloc, &reader.flash)?;
    Ok(image)
}

/// The answer on lists.
#[tactic(auto, unfolding(crate::specs::Reading::reading))]
fn read(alloc: Global, text: &[u8]) -> Result<Vec<u8>, HexRefused>
    ensures { Gives (λ v. v.items) result (reading text.now) }
{
    let mut reader = Reader {
        ended: false,
        base: Base::Zero,
        flash: Vec::new(alloc),
    };
    take_lines(alloc, &mut reader, text)?;
    finish(alloc, &reader)
}

/// The image that a HEX text spells: the bytes up to the highest address that it gives, with 0xFF where it gives
/// none. Lines are read in order, and the first rule that the first bad line breaks is the code of the refusal.
pub fn read_hex(alloc: Global, text: &[u8]) -> Result<Vec<u8>, HexRefused>
    // What is read is what the text spells, and what it spells is read.
    ensures image { IfOk result (λ v. Spells text.now v.items) }
    ensures only_image { (image : List ℕ) → Spells text.now image → Gives (λ v. v.items) result (Ok image) }

    // The code is that of the rule that the text breaks first, and where it breaks one no image is read.
    ensures code { IfErr result (λ e. HasCause e (Breaks text.now)) }
    ensures only_code { (code : HexCode) → Breaks text.now code → Gives (λ v. v.items) result (Err code) }
{
    read(alloc, text)
}
