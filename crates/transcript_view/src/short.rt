// What a short view has of a long transcript.
ghost use Rattle.std.specs.Prelude.{◌≡◌, ◌≤◌, ◌<◌, ◌-◌, ◌++◌, ◌∷◌, ℕ, List, [], OnOk, IfOk, length, take, drop, decimal};
ghost use Rattle.view_forms.specs.Parts.{lines_in, told_of};
ghost use Rattle.view_forms.specs.Rows.{text_of_rows};
ghost use Rattle.view_forms.specs.Short as spec;

use crate::parts::{first_line, has_lead, lead, told};
use crate::pictures::shows_text;
use itoa::Buffer;
use std::alloc::{AllocError, Global};

/// Whether two lines are of one moment.
fn is_same_moment(a: &[u8], b: &[u8]) -> bool
    ensures { result ≡ spec.is_same_moment a.now b.now }
{
    has_lead(a) && lead(a) == lead(b)
}

/// Whether a text goes on in the next line.
fn goes_on(a: &[u8], b: &[u8]) -> bool
    ensures { result ≡ spec.text_goes_on a.now b.now }
{
    a.len() < 500
        && is_same_moment(a, b)
        && a.strip_suffix(b"0a").is_none()
        && shows_text(a)
        && shows_text(b)
}

/// Adds a row.
fn push_row(out: &mut Vec<u8>, row: &[u8]) -> Result<(), AllocError>
    ensures { OnOk result (out.new.items ≡ out.old.items ++ (row.now ++ 10 ∷ [])) }
{
    out.extend_from_slice(row)?;
    out.push(b'\n')?;
    Ok(())
}

/// The digits of a line's text.
fn digits_of(line: &[u8]) -> &[u8]
    ensures { result.now ≡ drop 7 (told_of line.now) }
{
    let told = told(line);
    &told[told.len().min(7)..]
}

/// Takes one more line behind the one that was gathered.
fn push_next(out: &mut Vec<u8>, gathered: &mut Vec<u8>, line: &[u8]) -> Result<(), AllocError>
    ensures { (lines : List (List ℕ)) → OnOk result
        (out.new.items ++ text_of_rows (spec.texts_joined_from gathered.new.items lines)
        ≡ out.old.items ++ text_of_rows (spec.texts_joined_from gathered.old.items (line.now ∷ lines))) }
{
    if goes_on(gathered.as_slice(), line) {
        return gathered.extend_from_slice(digits_of(line));
    }
    push_row(out, gathered.as_slice())?;
    gathered.clear();
    gathered.extend_from_slice(line)
}

/// Adds the lines of a text behind one that was gathered.
fn push_joined(out: &mut Vec<u8>, gathered: &mut Vec<u8>, text: &[u8]) -> Result<(), AllocError>
    ensures { OnOk result (out.new.items
        ≡ out.old.items ++ text_of_rows (spec.texts_joined_from gathered.old.items (lines_in text.now))) }
{
    let mut left = text;
    while !left.is_empty() {
        let (line, rest) = first_line(left);
        push_next(out, gathered, line)?;
        left = rest;
    }
    push_row(out, gathered.as_slice())
}

/// The lines of a transcript, in which serial texts are joined to their lines.
pub fn joined(alloc: Global, input: &[u8]) -> Result<Vec<u8>, AllocError>
    ensures { IfOk result (λ text. text.items ≡ text_of_rows (spec.texts_joined (lines_in input.now))) }
{
    let mut out = Vec::new(alloc);
    if input.is_empty() {
        return Ok(out);
    }
    let (first, rest) = first_line(input);
    let mut gathered = Vec::new(alloc);
    gathered.extend_from_slice(first)?;
    push_joined(&mut out, &mut gathered, rest)?;
    Ok(out)
}

/// How many lines the first moment of a text has, and what stands behind them.
fn first_moment(text: &[u8]) -> (usize, &[u8])
    requires { 0 < length text.now }
    ensures moment { spec.moments (lines_in text.now)
        ≡ take result.0 (lines_in text.now) ∷ spec.moments (lines_in result.1.now) }
    ensures rest { lines_in result.1.now ≡ drop result.0 (lines_in text.now) }
    ensures count { result.0 ≤ length (lines_in text.now) }
    ensures less { length result.1.now < length text.now }
{
    let (first, rest) = first_line(text);
    let mut count: usize = 1;
    let mut left = rest;
    while !left.is_empty() {
        let (line, rest) = first_line(left);
        if !is_same_moment(first, line) {
            return (count, left);
        }
        count += 1;
        left = rest;
    }
    (count, left)
}

/// Adds so many lines of a text, which has them, and gives what stands behind them.
fn push_lines<'a>(out: &mut Vec<u8>, text: &'a [u8], count: usize) -> Result<&'a [u8], AllocError>
    requires { count ≤ length (lines_in text.now) }
    ensures rows { OnOk result
        (out.new.items ≡ out.old.items ++ text_of_rows (take count (lines_in text.entry.now))) }
    ensures rest { IfOk result (λ rest. lines_in rest.now ≡ drop count (lines_in text.entry.now)) }
{
    let mut left = text;
    for _ in 0..count {
        let (line, rest) = first_line(left);
        push_row(out, line)?;
        left = rest;
    }
    Ok(left)
}

/// What stands behind so many lines of a text, which has them.
fn without_lines(text: &[u8], count: usize) -> &[u8]
    requires { count ≤ length (lines_in text.now) }
    ensures { lines_in result.now ≡ drop count (lines_in text.now) }
{
    let mut left = text;
    for _ in 0..count {
        let (_, rest) = first_line(left);
        left = rest;
    }
    left
}

/// Adds the line that says how many are left out.
fn push_left_out(out: &mut Vec<u8>, lead: &[u8], count: usize) -> Result<(), AllocError>
    ensures { OnOk result (out.new.items ≡ out.old.items ++ (spec.left_out lead.now count ++ 10 ∷ [])) }
{
    let mut buffer = Buffer::new();
    out.extend_from_slice(lead)?;
    out.extend_from_slice(b" left out ")?;
    out.extend_from_slice(buffer.format(count).as_bytes())?;
    out.push(b'\n')?;
    Ok(())
}

/// Adds what stands of a moment that has so many lines.
fn push_short(out: &mut Vec<u8>, text: &[u8], count: usize) -> Result<(), AllocError>
    requires some { 0 < length text.now }
    requires has { count ≤ length (lines_in text.now) }
    ensures { OnOk result (out.new.items
        ≡ out.old.items ++ text_of_rows (spec.short_moment (take count (lines_in text.now)))) }
{
    if count <= 40 {
        push_lines(out, text, count)?;
        return Ok(());
    }
    let (first, _) = first_line(text);
    let middle = push_lines(out, text, 10)?;
    push_left_out(out, lead(first), count - 20)?;
    push_lines(out, without_lines(middle, count - 20), 10)?;
    Ok(())
}

/// The lines of a transcript, but for those in the middle of a moment that has many.
pub fn shortened(alloc: Global, input: &[u8]) -> Result<Vec<u8>, AllocError>
    ensures { IfOk result (λ text. text.items ≡ text_of_rows (spec.short_lines (lines_in input.now))) }
{
    let mut out = Vec::new(alloc);
    let mut left = input;
    while !left.is_empty() {
        let (count, rest) = first_moment(left);
        push_short(&mut out, left, count)?;
        left = rest;
    }
    Ok(out)
}
