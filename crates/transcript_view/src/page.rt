// The view as a page.
ghost use Rattle.std.specs.Prelude.{◌≡◌, ◌++◌, OnOk, OnErr, IsErrOf, IfOk};
ghost use Rattle.sts_base.specs.Faults.{Rose};
ghost use Rattle.tool_io.specs.Putting.{Took, TookPart};
ghost use Rattle.view_forms.specs.Page as spec;

use crate::ViewFault;
use crate::shown::{is_plain, push_escape};
use std::alloc::{AllocError, Global};
use tool_io::{PutFailed, Sink};

/// Whether a byte is a sign of markup.
fn is_markup(byte: u8) -> bool
    ensures { result ≡ spec.is_markup byte }
{
    byte == b'<' || byte == b'>' || byte == b'&' || byte == b'"' || byte == b'\''
}

/// Whether a byte stands in a page as it is.
fn stays_in_page(byte: u8) -> bool
    ensures { result ≡ spec.stays_in_page byte }
{
    byte == b'\n' || (is_plain(byte) && !is_markup(byte))
}

fn push_page_byte(out: &mut Vec<u8>, byte: u8) -> Result<(), AllocError>
    ensures { OnOk result (out.new.items ≡ out.old.items ++ spec.page_byte byte) }
{
    if stays_in_page(byte) {
        out.push(byte)?;
        return Ok(());
    }
    push_escape(out, byte)
}

fn push_page_text(out: &mut Vec<u8>, input: &[u8]) -> Result<(), AllocError>
    ensures { OnOk result (out.new.items ≡ out.old.items ++ spec.page_text input.now) }
{
    for byte in input {
        push_page_byte(out, *byte)?;
    }
    Ok(())
}

/// A text as it stands in a page, where none of it is markup.
pub fn page_text(alloc: Global, input: &[u8]) -> Result<Vec<u8>, AllocError>
    ensures { IfOk result (λ text. text.items ≡ spec.page_text input.now) }
{
    let mut out = Vec::new(alloc);
    push_page_text(&mut out, input)?;
    Ok(out)
}

/// The whole page.
fn page(alloc: Global, head: &[u8], tail: &str, input: &[u8]) -> Result<Vec<u8>, AllocError>
    ensures { IfOk result (λ text. text.items ≡ spec.page_view head.now tail.now input.now) }
{
    let mut out = Vec::new(alloc);
    out.extend_from_slice(head)?;
    push_page_text(&mut out, input)?;
    out.extend_from_slice(tail.as_bytes())?;
    Ok(out)
}

/// Writes a page with this head and this tail, between which the transcript stands: its line feeds, what a terminal prints of it but for signs of
/// markup, and every other byte by its digits. After a fault a part of it was taken, and `Sink` comes only where the sink's count of faults rose.
pub fn view_page<K: Sink>(
    alloc: Global,
    head: &[u8],
    tail: &str,
    input: &[u8],
    out: &mut K,
) -> Result<(), ViewFault>
    ensures whole { OnOk result
        (Took (K.taken out.old) (K.taken out.new) (spec.page_view head.now tail.now input.now)) }
    ensures part { OnErr result
        (TookPart (K.taken out.old) (K.taken out.new) (spec.page_view head.now tail.now input.now)) }
    ensures failed { IsErrOf result ViewFault.Sink → Rose (K.faults out.old) (K.faults out.new) }
    ensures untouched { IsErrOf result ViewFault.NoMemory → out.new ≡ out.old }
{
    match page(alloc, head, tail, input) {
        Err(_) => Err(ViewFault::NoMemory),
        Ok(text) => match out.put(&text) {
            Ok(()) => Ok(()),
            Err(PutFailed) => Err(ViewFault::Sink),
        },
    }
}
