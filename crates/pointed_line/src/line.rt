// A line as a terminal shows it.
ghost use Rattle.std.specs.Prelude.{◌≡◌, ℕ, ◌++◌, ◌+◌, ◌-◌, ◌*◌, ◌%◌, ◌<◌, ◌≤◌, length, flat_map, replicate, false, OnOk, chars, string_bytes, encode_utf8};
ghost use Rattle.pointed_line.specs.Columns as spec;
ghost use Rattle.std.specs.Fmt.{digit_glyph};

use std::alloc::AllocError;
use unicode_width::UnicodeWidthChar;

/// The columns from one stop of a tab to the next.
const STOP: usize = 8;

/// How many characters the digits of a byte are.
const DIGITS: usize = 4;

/// Whether a character isn't ASCII and turns the direction of what comes after it, ends a line elsewhere, or has neither width nor look.
fn is_unseen(character: char) -> bool
    ensures { result ≡ spec.is_unseen character }
{
    let c = character as u32;
    if c < 128 || c == 0xFFFD {
        return false;
    }
    c <= 159
        || c == 173
        || c == 1564
        || c == 6158
        || (8203 <= c && c <= 8207)
        || (8232 <= c && c <= 8238)
        || (8288 <= c && c <= 8303)
        || (55296 <= c && c <= 57343)
        || c == 65279
        || (65529 <= c && c <= 65535)
        || (917504 <= c && c <= 921599)
}

/// How many columns the digits of a character take.
fn digit_columns(character: char) -> usize
    ensures value { result ≡ length (spec.in_digits character) }
    ensures bound { result ≤ 16 }
{
    DIGITS * character.len_utf8()
}

/// How many columns a character takes, so many columns behind a tab stop.
fn columns(behind: usize, character: char) -> usize
    requires { behind < spec.stop }
    ensures value { result ≡ spec.columns behind character }
    ensures bound { result ≤ 16 }
{
    if character == '\t' {
        return STOP - behind;
    }
    if is_unseen(character) {
        return digit_columns(character);
    }
    match character.width() {
        Some(columns) => columns,
        None => digit_columns(character),
    }
}

/// How many columns behind a tab stop the next character stands.
fn behind_it(behind: usize, character: char) -> usize
    requires { behind < spec.stop }
    ensures value { result ≡ spec.behind_it behind character }
    ensures bound { result < spec.stop }
{
    (behind + columns(behind, character)) % STOP
}

/// Adds so many spaces.
fn push_spaces(out: &mut String, count: usize) -> Result<(), AllocError>
    ensures { OnOk result (string_bytes out.new ≡ string_bytes out.old ++ replicate count 32) }
{
    for _ in 0..count {
        out.push(' ')?;
    }
    Ok(())
}

/// The hexadecimal digit of a value, in lower case.
fn hex_digit(value: u8) -> char
    requires { value < 16 }
    ensures { result ≡ digit_glyph false value }
{
    if value < 10 {
        (48 + value) as char
    } else {
        (87 + value) as char
    }
}

/// Adds a byte by its digits.
fn push_byte(out: &mut String, byte: u8) -> Result<(), AllocError>
    ensures { OnOk result (string_bytes out.new ≡ string_bytes out.old ++ spec.byte_digits byte) }
{
    out.push_str("\\x")?;
    out.push(hex_digit(byte / 16))?;
    out.push(hex_digit(byte % 16))
}

/// Adds bytes by their digits.
fn push_each(out: &mut String, bytes: &[u8]) -> Result<(), AllocError>
    ensures { OnOk result (string_bytes out.new ≡ string_bytes out.old ++ flat_map spec.byte_digits bytes.now) }
{
    for byte in bytes {
        push_byte(out, *byte)?;
    }
    Ok(())
}

/// Adds a character by the digits of its bytes.
fn push_digits(out: &mut String, character: char) -> Result<(), AllocError>
    ensures { OnOk result (string_bytes out.new ≡ string_bytes out.old ++ spec.in_digits character) }
{
    let mut room = [0; 4];
    push_each(out, character.encode_utf8(&mut room).as_bytes())
}

/// Adds a character as a terminal shows it.
fn push_shown(out: &mut String, behind: usize, character: char) -> Result<(), AllocError>
    requires { behind < spec.stop }
    ensures { OnOk result (string_bytes out.new ≡ string_bytes out.old ++ spec.as_shown behind character) }
{
    if character == '\t' {
        return push_spaces(out, STOP - behind);
    }
    if is_unseen(character) {
        return push_digits(out, character);
    }
    match character.width() {
        Some(_) => out.push(character),
        None => push_digits(out, character),
    }
}

/// Adds a text as a terminal shows it.
pub fn push_line(out: &mut String, text: &str) -> Result<(), AllocError>
    ensures { OnOk result
        (string_bytes out.new ≡ string_bytes out.old ++ spec.written_from spec.as_shown 0 (chars text.now)) }
{
    let mut behind = 0;
    for character in text.chars() {
        push_shown(out, behind, character)?;
        behind = behind_it(behind, character);
    }
    Ok(())
}

/// Adds spaces that are as wide as a text.
pub fn push_blank(out: &mut String, text: &str) -> Result<(), AllocError>
    ensures { OnOk result
        (string_bytes out.new ≡ string_bytes out.old ++ spec.written_from spec.blank_at 0 (chars text.now)) }
{
    let mut behind = 0;
    for character in text.chars() {
        push_spaces(out, columns(behind, character))?;
        behind = behind_it(behind, character);
    }
    Ok(())
}
