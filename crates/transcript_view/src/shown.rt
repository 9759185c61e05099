// Bytes as people see them.
ghost use Rattle.std.specs.Prelude.{◌≡◌, ◌≤◌, ◌<◌, ◌++◌, ◌∷◌, OnOk, IfOk, length, true, false};
ghost use Rattle.std.specs.Fmt.{digit_glyph};
ghost use Rattle.view_forms.specs.Shown.{is_shown_plain, hex_pair, shown_byte, shown_bytes, nibble, bytes_of_hex};
ghost use Rattle.view_forms.specs.Shown as spec;
ghost use Rattle.view_forms.specs.Pictures.{is_low_hex, is_hex_text};

use std::alloc::{AllocError, Global};

/// Whether a terminal prints a byte as it is, and it isn't one that escapes are written with.
pub fn is_plain(byte: u8) -> bool
    ensures { result ≡ is_shown_plain byte }
{
    32 <= byte && byte < 127 && !(byte == b'"' || byte == b'\\')
}

/// The hexadecimal digit of a value, in lower case.
fn hex_digit(value: u8) -> u8
    requires { value < 16 }
    ensures { result ≡ digit_glyph false value }
{
    if value < 10 { 48 + value } else { 87 + value }
}

/// Adds two hexadecimal digits.
fn push_hex(out: &mut Vec<u8>, byte: u8) -> Result<(), AllocError>
    ensures { OnOk result (out.new.items ≡ out.old.items ++ hex_pair byte) }
{
    out.push(hex_digit(byte / 16))?;
    out.push(hex_digit(byte % 16))?;
    Ok(())
}

/// Adds a byte by its digits.
pub fn push_escape(out: &mut Vec<u8>, byte: u8) -> Result<(), AllocError>
    ensures { OnOk result (out.new.items ≡ out.old.items ++ 92 ∷ (120 ∷ hex_pair byte)) }
{
    out.extend_from_slice(b"\\x")?;
    push_hex(out, byte)
}

fn push_shown_byte(out: &mut Vec<u8>, byte: u8) -> Result<(), AllocError>
    ensures { OnOk result (out.new.items ≡ out.old.items ++ shown_byte byte) }
{
    if is_plain(byte) {
        out.push(byte)?;
        return Ok(());
    }
    push_escape(out, byte)
}

/// Adds bytes as people see them.
pub fn push_shown(out: &mut Vec<u8>, bytes: &[u8]) -> Result<(), AllocError>
    ensures { OnOk result (out.new.items ≡ out.old.items ++ shown_bytes bytes.now) }
{
    for byte in bytes {
        push_shown_byte(out, *byte)?;
    }
    Ok(())
}

/// The value of a hexadecimal digit in lower case.
fn nibble(digit: u8) -> u8
    requires { is_low_hex digit ≡ true }
    ensures value { result ≡ nibble digit }
    ensures bound { result < 16 }
{
    if digit < 58 { digit - 48 } else { digit - 87 }
}

/// Whether a byte is a hexadecimal digit in lower case.
fn is_low_hex(byte: u8) -> bool
    ensures { result ≡ is_low_hex byte }
{
    (48 <= byte && byte <= 57) || (97 <= byte && byte <= 102)
}

/// Whether these are hexadecimal digits, two for each byte.
pub fn is_hex_text(digits: &[u8]) -> bool
    ensures { result ≡ is_hex_text digits.now }
{
    let mut left = digits;
    while let [high, low, rest @ ..] = left {
        if !is_low_hex(*high) || !is_low_hex(*low) {
            return false;
        }
        left = rest;
    }
    left.is_empty()
}

fn is_tail(b: u8) -> bool
    ensures { result ≡ spec.is_tail b }
{
    128 <= b && b < 192
}

fn is_hidden(c: u32) -> bool
    ensures { result ≡ spec.stands_as_digits c }
{
    c <= 159
        || c == 173
        || c == 1564
        || c == 6158
        || (8203 <= c && c <= 8207)
        || (8232 <= c && c <= 8238)
        || (8288 <= c && c <= 8303)
        || (55296 <= c && c <= 57343)
        || c == 65279
        || (65529 <= c && c <= 65535)
        || (917504 <= c && c <= 921599)
}

/// Whether these are a character of two bytes that is shown; likewise of three and four.
fn is_two(a: u8, b: u8) -> bool
    ensures { result ≡ spec.is_two_bytes a b }
{
    192 <= a && a <= 223 && is_tail(b) && !is_hidden(64 * (a as u32 - 192) + (b as u32 - 128))
}

fn is_three(a: u8, b: u8, c: u8) -> bool
    ensures { result ≡ spec.is_three_bytes a b c }
{
    if !(224 <= a && a <= 239 && is_tail(b) && is_tail(c)) {
        return false;
    }
    let value = 4096 * (a as u32 - 224) + (64 * (b as u32 - 128) + (c as u32 - 128));
    2048 <= value && !is_hidden(value)
}

fn is_four(a: u8, b: u8, c: u8, d: u8) -> bool
    ensures { result ≡ spec.is_four_bytes a b c d }
{
    if !(240 <= a && a <= 247 && is_tail(b) && is_tail(c) && is_tail(d)) {
        return false;
    }
    let low = 4096 * (b as u32 - 128) + (64 * (c as u32 - 128) + (d as u32 - 128));
    let value = 262144 * (a as u32 - 240) + low;
    65536 <= value && value <= 1114111 && !is_hidden(value)
}

/// How many bytes a character has that begins a text, needs more than one, and is shown; else 0.
fn seen_size(text: &[u8]) -> usize
    ensures value { result ≡ spec.seen_size text.now }
    ensures bound { result ≤ length text.now }
{
    match text {
        [a, b, ..] if is_two(*a, *b) => 2,
        [a, b, c, ..] if is_three(*a, *b, *c) => 3,
        [a, b, c, d, ..] if is_four(*a, *b, *c, *d) => 4,
        _ => 0,
    }
}

/// Adds the first character of a text as people see it, and gives what stands behind it.
fn push_first<'a>(out: &mut Vec<u8>, text: &'a [u8]) -> Result<&'a [u8], AllocError>
    requires { 0 < length text.now }
    ensures shown { IfOk result (λ rest. out.new.items ++ spec.shown_text rest.now
        ≡ out.old.items ++ spec.shown_text text.entry.now) }
    ensures less { IfOk result (λ rest. length rest.now < length text.entry.now) }
{
    let size = seen_size(text);
    if size == 0 {
        push_shown_byte(out, text[0])?;
        return Ok(&text[1..]);
    }
    out.extend_from_slice(&text[..size])?;
    Ok(&text[size..])
}

/// Adds a text as people see it.
pub fn push_shown_text(out: &mut Vec<u8>, text: &[u8]) -> Result<(), AllocError>
    ensures { OnOk result (out.new.items ≡ out.old.items ++ spec.shown_text text.now) }
{
    let mut left = text;
    while !left.is_empty() {
        left = push_first(out, left)?;
    }
    Ok(())
}

/// The bytes of a text of hexadecimal digits.
fn bytes_of(alloc: Global, digits: &[u8]) -> Result<Vec<u8>, AllocError>
    requires { is_hex_text digits.now ≡ true }
    ensures { IfOk result (λ bytes. bytes.items ≡ bytes_of_hex digits.now) }
{
    let mut bytes = Vec::new(alloc);
    let mut left = digits;
    while let [high, low, rest @ ..] = left {
        bytes.push(16 * nibble(*high) + nibble(*low))?;
        left = rest;
    }
    Ok(bytes)
}

/// Adds the bytes of a text of such digits as people see them.
pub fn push_hex_text(out: &mut Vec<u8>, digits: &[u8]) -> Result<(), AllocError>
    requires { is_hex_text digits.now ≡ true }
    ensures { OnOk result (out.new.items ≡ out.old.items ++ spec.shown_text (bytes_of_hex digits.now)) }
{
    let bytes = bytes_of(*out.allocator(), digits)?;
    push_shown_text(out, bytes.as_slice())
}
