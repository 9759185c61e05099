// The view as a text.
ghost use Rattle.std.specs.Prelude.{◌≡◌, ◌≤◌, ◌++◌, ◌∷◌, [], ℕ, List, OnOk, OnErr, IsErrOf, IfOk, length, map, max};
ghost use Rattle.tool_io.specs.Putting.{Took, TookPart, Puts};
ghost use Rattle.sts_base.specs.Faults.{Rose};
ghost use Rattle.std.specs.Option.{option_map};
ghost use Rattle.view_forms.specs.Rows.{literal, told_rows, line_rows, rows_from, text_of_rows, text_view};

use crate::below::{explanation_of, push_explanation};
use crate::notes::push_note;
use crate::parts::{first_line, told};
use crate::pictures::{PICTURE_COLUMNS, push_pictures, push_text, shows_picture, shows_text};
use crate::shown::push_shown;
use std::alloc::{AllocError, Global};
use tool_io::{PutFailed, Sink};
use view_forms::{Below, Note};

/// Why a view wasn't written to its end.
#[derive(Clone, Copy, Debug, PartialEq, Eq, Drop)]
pub enum ViewFault {
    /// The sink failed.
    Sink,
    NoMemory,
}

/// Adds a line as people see its bytes.
fn push_literal(out: &mut Vec<u8>, line: &[u8]) -> Result<(), AllocError>
    ensures { OnOk result (out.new.items ≡ out.old.items ++ literal line.now) }
{
    match line {
        [b' ', rest @ ..] => {
            out.extend_from_slice(b"\\x20")?;
            push_shown(out, rest)
        }
        _ => push_shown(out, line),
    }
}

/// Adds the rows of a line that shows neither a picture nor a text, where it is known what explains it.
fn push_told(
    out: &mut Vec<u8>,
    notes: &[Note],
    line: &[u8],
    explanation: Option<&[u8]>,
) -> Result<(), AllocError>
    ensures { OnOk result (out.new.items ≡ out.old.items ++ text_of_rows
        (told_rows notes.now line.now (option_map (λ text. text.now) explanation.entry))) }
{
    push_literal(out, line)?;
    match explanation {
        None => {
            push_note(out, notes, told(line))?;
            out.push(b'\n')?;
            Ok(())
        }
        Some(text) => {
            out.push(b'\n')?;
            push_explanation(out, text)
        }
    }
}

/// Adds the rows of a line that shows no picture.
fn push_rows(
    out: &mut Vec<u8>,
    notes: &[Note],
    below: &[Below<'_>],
    line: &[u8],
) -> Result<(), AllocError>
    ensures { OnOk result (out.new.items ≡ out.old.items ++ text_of_rows (line_rows notes.now below.now line.now)) }
{
    if shows_text(line) {
        push_text(out, line)?;
        out.push(b'\n')?;
        return Ok(());
    }
    push_told(out, notes, line, explanation_of(below, line))
}

/// Adds the rows of one more line, behind pictures that wait for others at their side.
fn push_line<'a>(
    out: &mut Vec<u8>,
    notes: &[Note],
    below: &[Below<'_>],
    waiting: &mut Vec<&'a [u8]>,
    most: usize,
    line: &'a [u8],
) -> Result<(), AllocError>
    ensures { (lines : List (List ℕ)) → OnOk result
        (out.new.items ++ text_of_rows (rows_from notes.now below.now most (map (λ it. it.now) waiting.new.items) lines)
        ≡ out.old.items ++ text_of_rows
        (rows_from notes.now below.now most (map (λ it. it.now) waiting.old.items) (line.entry.now ∷ lines))) }
{
    if shows_picture(line) {
        waiting.push(line)?;
        if waiting.len() < most {
            return Ok(());
        }
        push_pictures(out, waiting.as_slice())?;
        waiting.clear();
        return Ok(());
    }
    push_pictures(out, waiting.as_slice())?;
    waiting.clear();
    push_rows(out, notes, below, line)
}

/// The whole view of a transcript as a text of that many columns, as bytes.
pub fn viewed(
    alloc: Global,
    notes: &[Note],
    below: &[Below<'_>],
    input: &[u8],
    width: usize,
) -> Result<Vec<u8>, AllocError>
    ensures { IfOk result (λ text. text.items ≡ text_view notes.now below.now width input.now) }
{
    let most = (width / PICTURE_COLUMNS).max(1);
    let mut out = Vec::new(alloc);
    let mut waiting = Vec::new(alloc);
    let mut left = input;
    while !left.is_empty() {
        let (line, rest) = first_line(left);
        push_line(&mut out, notes, below, &mut waiting, most, line)?;
        left = rest;
    }
    push_pictures(&mut out, waiting.as_slice())?;
    Ok(out)
}

/// Writes the view of a transcript as a text of that many columns: a row for each line, with what is said of it, or above the rows that explain it, and
/// pictures side by side.
/// After a fault a part of it was taken, and `Sink` comes only where the sink's count of faults rose.
pub fn view_text<K: Sink>(
    alloc: Global,
    notes: &[Note],
    below: &[Below<'_>],
    input: &[u8],
    width: usize,
    out: &mut K,
) -> Result<(), ViewFault>
    ensures whole { OnOk result
        (Took (K.taken out.old) (K.taken out.new) (text_view notes.now below.now width input.now)) }
    ensures part { OnErr result
        (TookPart (K.taken out.old) (K.taken out.new) (text_view notes.now below.now width input.now)) }
    ensures failed { IsErrOf result ViewFault.Sink → Rose (K.faults out.old) (K.faults out.new) }
    ensures untouched { IsErrOf result ViewFault.NoMemory → out.new ≡ out.old }
{
    match viewed(alloc, notes, below, input, width) {
        Err(_) => Err(ViewFault::NoMemory),
        Ok(text) => match out.put(&text) {
            Ok(()) => Ok(()),
            Err(PutFailed) => Err(ViewFault::Sink),
        },
    }
}
