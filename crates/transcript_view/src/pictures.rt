// Pictures and texts in lines.
ghost use Rattle.std.specs.Prelude.{◌≡◌, ◌≤◌, ◌<◌, ◌-◌, ◌*◌, ◌+◌, ◌++◌, ◌∷◌, [], OnOk, length, map, replicate, flat_map, true};
ghost use Rattle.std.specs.List.{list_all};
ghost use Rattle.view_forms.specs.Parts.{line_lead};
ghost use Rattle.view_forms.specs.Rows.{text_of_rows};
ghost use Rattle.view_forms.specs.Pictures as spec;

use crate::parts::{has_lead, lead, told};
use crate::shown::{is_hex_text, push_hex_text};
use std::alloc::AllocError;

/// How many columns a picture takes, with what is before it.
pub const PICTURE_COLUMNS: usize = 13;

/// So many spaces.
const SPACES: &[u8; 13] = b"             ";

fn is_light(byte: u8) -> bool
    ensures { result ≡ spec.is_light byte }
{
    byte == b'#' || byte == b'.'
}

fn are_lights(row: &[u8]) -> bool
    ensures { result ≡ list_all spec.is_light row.now }
{
    row.iter().all(|light| is_light(*light))
}

fn is_light_row(row: &[u8]) -> bool
    ensures { result ≡ spec.is_light_row row.now }
{
    row.len() == 5 && are_lights(row)
}

/// Row `r` of a picture, from 0.
fn picture_row(r: usize, picture: &[u8]) -> &[u8]
    requires { r < 5 }
    ensures { result.now ≡ spec.picture_row r picture.now }
{
    let from = picture.len().min(6 * r);
    let upto = picture.len().min(6 * r + 5);
    &picture[from..upto]
}

/// Whether these are five rows of five lights, joined by slashes.
fn is_picture(picture: &[u8]) -> bool
    ensures { result ≡ spec.is_picture picture.now }
{
    picture.len() == 29
        && is_light_row(picture_row(0, picture))
        && picture[5] == b'/'
        && is_light_row(picture_row(1, picture))
        && picture[11] == b'/'
        && is_light_row(picture_row(2, picture))
        && picture[17] == b'/'
        && is_light_row(picture_row(3, picture))
        && picture[23] == b'/'
        && is_light_row(picture_row(4, picture))
}

/// Whether a line shows a picture.
pub fn shows_picture(line: &[u8]) -> bool
    ensures { result ≡ spec.shows_picture line.now }
{
    if !has_lead(line) {
        return false;
    }
    match told(line).strip_prefix(b"display ") {
        Some(picture) => is_picture(picture),
        None => false,
    }
}

/// Whether a line tells of bytes at the serial port.
pub fn shows_text(line: &[u8]) -> bool
    ensures { result ≡ spec.shows_text line.now }
{
    if !has_lead(line) {
        return false;
    }
    match told(line).strip_prefix(b"serial ") {
        Some(digits) => is_hex_text(digits),
        None => false,
    }
}

/// Adds such a line with its bytes as people see them.
pub fn push_text(out: &mut Vec<u8>, line: &[u8]) -> Result<(), AllocError>
    requires { spec.shows_text line.now ≡ true }
    ensures { OnOk result (out.new.items ≡ out.old.items ++ spec.text_row line.now) }
{
    out.extend_from_slice(lead(line))?;
    out.extend_from_slice(b" serial \"")?;
    push_hex_text(out, &told(line)[7..])?;
    out.extend_from_slice(b"\"")
}

/// The spaces before a text of that length at the right end of a picture's columns.
fn spaces_before(length: usize) -> &'static [u8]
    ensures { result.now ≡ replicate (spec.picture_columns - length) 32 }
{
    &SPACES[length.min(PICTURE_COLUMNS)..]
}

/// Adds a text at the right end of a picture's columns.
fn push_at_right(out: &mut Vec<u8>, text: &[u8]) -> Result<(), AllocError>
    ensures { OnOk result (out.new.items ≡ out.old.items ++ spec.at_right text.now) }
{
    out.extend_from_slice(spaces_before(text.len()))?;
    out.extend_from_slice(text)
}

/// Adds the moments of pictures side by side.
fn push_moments(out: &mut Vec<u8>, lines: &[&[u8]]) -> Result<(), AllocError>
    ensures { OnOk result (out.new.items
        ≡ out.old.items ++ flat_map (λ line. spec.at_right (line_lead line)) (map (λ line. line.now) lines.now)) }
{
    for line in lines {
        push_at_right(out, lead(line))?;
    }
    Ok(())
}

/// Adds what stands over pictures side by side.
fn push_heading(out: &mut Vec<u8>, lines: &[&[u8]]) -> Result<(), AllocError>
    ensures { OnOk result
        (out.new.items ≡ out.old.items ++ (spec.heading (map (λ line. line.now) lines.now) ++ 10 ∷ [])) }
{
    push_moments(out, lines)?;
    out.extend_from_slice(b" ms")?;
    out.push(b'\n')?;
    Ok(())
}

fn push_squares(out: &mut Vec<u8>, lights: &[u8]) -> Result<(), AllocError>
    ensures { OnOk result (out.new.items ≡ out.old.items ++ flat_map spec.squares lights.now) }
{
    for light in lights {
        let squares = if *light == b'#' { "██" } else { "··" };
        out.extend_from_slice(squares.as_bytes())?;
    }
    Ok(())
}

/// The picture of a line that shows one.
fn picture_of(line: &[u8]) -> &[u8]
    ensures { result.now ≡ spec.picture_of line.now }
{
    let told = told(line);
    &told[told.len().min(8)..]
}

/// Adds a row of a picture, with the space before it.
fn push_cell(out: &mut Vec<u8>, r: usize, line: &[u8]) -> Result<(), AllocError>
    requires { r < 5 }
    ensures { OnOk result (out.new.items ≡ out.old.items ++ spec.squares_cell r line.now) }
{
    out.extend_from_slice(b"   ")?;
    push_squares(out, picture_row(r, picture_of(line)))
}

/// Adds a row of pictures side by side.
fn push_squares_row(out: &mut Vec<u8>, r: usize, lines: &[&[u8]]) -> Result<(), AllocError>
    requires { r < 5 }
    ensures { OnOk result (out.new.items ≡ out.old.items ++ spec.squares_row r (map (λ line. line.now) lines.now)) }
{
    for line in lines {
        push_cell(out, r, line)?;
    }
    Ok(())
}

/// Adds such a row and its line's end.
fn push_squares_line(out: &mut Vec<u8>, r: usize, lines: &[&[u8]]) -> Result<(), AllocError>
    requires { r < 5 }
    ensures { OnOk result
        (out.new.items ≡ out.old.items ++ (spec.squares_row r (map (λ line. line.now) lines.now) ++ 10 ∷ [])) }
{
    push_squares_row(out, r, lines)?;
    out.push(b'\n')?;
    Ok(())
}

/// Adds the heading of pictures side by side and their rows.
fn push_picture_rows(out: &mut Vec<u8>, lines: &[&[u8]]) -> Result<(), AllocError>
    ensures { OnOk result
        (out.new.items ≡ out.old.items ++ text_of_rows (spec.picture_rows_of (map (λ line. line.now) lines.now))) }
{
    push_heading(out, lines)?;
    push_squares_line(out, 0, lines)?;
    push_squares_line(out, 1, lines)?;
    push_squares_line(out, 2, lines)?;
    push_squares_line(out, 3, lines)?;
    push_squares_line(out, 4, lines)?;
    Ok(())
}

/// Adds the rows of pictures side by side.
pub fn push_pictures(out: &mut Vec<u8>, lines: &[&[u8]]) -> Result<(), AllocError>
    ensures { OnOk result
        (out.new.items ≡ out.old.items ++ text_of_rows (spec.picture_rows (map (λ line. line.now) lines.now))) }
{
    if lines.is_empty() {
        return Ok(());
    }
    push_picture_rows(out, lines)
}
