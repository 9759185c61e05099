// What is said of lines.
ghost use Rattle.std.specs.Prelude.{◌≡◌, ◌++◌, OnOk};
ghost use Rattle.std.specs.List.{list_all};
ghost use Rattle.view_forms.specs.Notes as spec;

use std::alloc::AllocError;
use view_forms::Note;

/// Whether a byte is one that numbers are written with, or a space.
fn is_number_sign(byte: u8) -> bool
    ensures { result ≡ spec.is_number_sign byte }
{
    byte == 32 || (48 <= byte && byte <= 57) || (97 <= byte && byte <= 102)
}

/// Whether all these bytes are.
fn are_number_signs(bytes: &[u8]) -> bool
    ensures { result ≡ list_all spec.is_number_sign bytes.now }
{
    bytes.iter().all(|byte| is_number_sign(*byte))
}

/// Whether a text has no line feed.
fn is_sentence(text: &str) -> bool
    ensures { result ≡ spec.is_sentence text.now }
{
    text.as_bytes().iter().all(|byte| *byte != b'\n')
}

/// Whether a row fits what a line tells.
fn fits(note: &Note, told: &[u8]) -> bool
    ensures { result ≡ spec.fits_note note.now told.now }
{
    match told.strip_prefix(note.begins.as_bytes()) {
        None => false,
        Some(rest) if is_sentence(note.says) => match rest.strip_suffix(note.ends.as_bytes()) {
            None => false,
            Some(between) => are_number_signs(between),
        },
        Some(_) => false,
    }
}

/// Adds what a table says of a line that tells this.
pub fn push_note(out: &mut Vec<u8>, notes: &[Note], told: &[u8]) -> Result<(), AllocError>
    ensures { OnOk result (out.new.items ≡ out.old.items ++ spec.note_said notes.now told.now) }
{
    for note in notes {
        if fits(note, told) {
            out.push(b'\t')?;
            return out.extend_from_slice(note.says.as_bytes());
        }
    }
    Ok(())
}
