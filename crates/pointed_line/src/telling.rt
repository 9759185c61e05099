// The text of an explanation.
ghost use Rattle.std.specs.Prelude.{◌≡◌, ℕ, ◌++◌, ◌-◌, ◌≤◌, length, OnOk, IfOk, string_bytes, decimal};
ghost use Rattle.around_place.specs.Telling.{IsFound};
ghost use Rattle.around_place.specs.Words as words;
ghost use Rattle.pointed_line.specs.Explained as spec;

use crate::line::{push_blank, push_line};
use around_place::{Explanation, place_at};
use itoa::Buffer;
use near_names::Meant;
use std::alloc::{AllocError, Global};

fn breaks_line(byte: u8) -> bool
    ensures { result ≡ words.breaks_line byte }
{
    byte == b'\n' || byte == b'\r'
}

/// How many bytes stand before the next line break.
fn bytes_in_line(text: &[u8]) -> usize
    ensures value { result ≡ spec.bytes_in_line text.now }
    ensures bound { result ≤ length text.now }
{
    let mut count = 0;
    for byte in text {
        if breaks_line(*byte) {
            return count;
        }
        count += 1;
    }
    count
}

/// Where the line of a place of that column begins.
fn start_of(at: usize, column: u32) -> usize
    ensures value { result ≡ at - (column - 1) }
{
    at.saturating_sub((column as usize).saturating_sub(1))
}

/// What stands in a line before a place of that column.
fn front_of(text: &[u8], at: usize, column: u32) -> &[u8]
    requires { at ≤ length text.now }
    ensures { result.now ≡ spec.front_of text.now at column }
{
    &text[start_of(at, column)..at]
}

/// The whole line of it.
fn line_of(text: &[u8], at: usize, column: u32) -> &[u8]
    requires { at ≤ length text.now }
    ensures { result.now ≡ spec.place_line text.now at column }
{
    let rest = bytes_in_line(&text[at..]);
    &text[start_of(at, column)..at + rest]
}

/// Adds the line of a place and a caret under it.
fn push_pointed(
    alloc: Global,
    out: &mut String,
    text: &[u8],
    at: usize,
    column: u32,
) -> Result<(), AllocError>
    requires { at ≤ length text.now }
    ensures { OnOk result (string_bytes out.new ≡ string_bytes out.old ++ spec.pointed text.now at column) }
{
    let line = String::from_utf8_lossy(alloc, line_of(text, at, column))?;
    let front = String::from_utf8_lossy(alloc, front_of(text, at, column))?;
    out.push_str("    ")?;
    push_line(out, line.as_str())?;
    out.push_str("\n    ")?;
    push_blank(out, front.as_str())?;
    out.push_str("^\n")
}

fn push_number(out: &mut String, number: u32) -> Result<(), AllocError>
    ensures { OnOk result (string_bytes out.new ≡ string_bytes out.old ++ decimal number) }
{
    let mut buffer = Buffer::new();
    out.push_str(buffer.format(number))
}

/// Adds where the bracket stands that a sentence speaks of.
fn push_opened(out: &mut String, opened: Option<(u32, u32)>) -> Result<(), AllocError>
    ensures { OnOk result (string_bytes out.new ≡ string_bytes out.old ++ spec.opened_words opened) }
{
    match opened {
        None => Ok(()),
        Some((line, column)) => push_opened_at(out, line, column),
    }
}

fn push_opened_at(out: &mut String, line: u32, column: u32) -> Result<(), AllocError>
    ensures { OnOk result (string_bytes out.new ≡ string_bytes out.old ++ spec.opened_at line column) }
{
    out.push_str(" It is opened in line ")?;
    push_number(out, line)?;
    out.push_str(", column ")?;
    push_number(out, column)?;
    out.push_str(".")?;
    Ok(())
}

fn push_example(out: &mut String, example: &str) -> Result<(), AllocError>
    ensures { OnOk result (string_bytes out.new ≡ string_bytes out.old ++ spec.example_line example.now) }
{
    if example.is_empty() {
        return Ok(());
    }
    out.push_str("for example: ")?;
    out.push_str(example)?;
    out.push_str("\n")
}

/// What is told of a line and a column, both from 1, of a text: the sentence and where the bracket stands of which it speaks; the line as a terminal
/// shows it, in which tabs are spaces and neither a control character nor what is no UTF-8 stands as it is; a caret under the column; and the example.
/// A line and column that the text hasn't stand for its end.
pub fn explained(
    alloc: Global,
    said: &Explanation,
    text: &[u8],
    line: u32,
    column: u32,
) -> Result<String, AllocError>
    ensures { IfOk result (λ told. (at : ℕ)
        × (IsFound text.now line column at × (string_bytes told ≡ spec.explained_text said.now text.now at column))) }
{
    let at = place_at(text, line, column);
    let mut out = String::from_str(alloc, said.sentence)?;
    push_opened(&mut out, said.opened)?;
    out.push_str("\n")?;
    push_pointed(alloc, &mut out, text, at, column)?;
    push_example(&mut out, said.example)?;
    Ok(out)
}

/// Adds bytes of a text as a terminal shows them.
fn push_bytes(alloc: Global, out: &mut String, bytes: &[u8]) -> Result<(), AllocError>
    ensures { OnOk result (string_bytes out.new ≡ string_bytes out.old ++ spec.shown_in_line bytes.now) }
{
    let text = String::from_utf8_lossy(alloc, bytes)?;
    push_line(out, text.as_str())
}

/// Adds that a word isn't there, and what is meant.
fn push_meant(alloc: Global, out: &mut String, meant: &Meant<'_>) -> Result<(), AllocError>
    ensures { OnOk result (string_bytes out.new ≡ string_bytes out.old ++ spec.meant_words meant.now) }
{
    out.push_str("`")?;
    push_bytes(alloc, out, meant.word)?;
    out.push_str("` isn't there; did you mean `")?;
    out.push_str(meant.front)?;
    push_bytes(alloc, out, meant.name)?;
    out.push_str("`?\n")?;
    Ok(())
}

/// What is told of a word of a text at a line and a column, both from 1, that may be meant as another: that it isn't there, and what is meant; and the line with
/// a caret as `explained` has them.
pub fn explained_meant(
    alloc: Global,
    meant: &Meant<'_>,
    text: &[u8],
    line: u32,
    column: u32,
) -> Result<String, AllocError>
    ensures { IfOk result (λ told. (at : ℕ)
        × (IsFound text.now line column at × (string_bytes told ≡ spec.meant_text meant.now text.now at column))) }
{
    let place = place_at(text, line, column);
    let mut out = String::new(alloc);
    push_meant(alloc, &mut out, meant)?;
    push_pointed(alloc, &mut out, text, place, column)?;
    Ok(out)
}
