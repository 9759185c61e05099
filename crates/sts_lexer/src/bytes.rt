// Classes of bytes, and runs of them.
ghost use Rattle.std.specs.Prelude.{◌≡◌, ◌↔◌, ◌<◌, ◌≤◌, length, slice_index, IsTrue, false};
ghost use Rattle.sts_lexer.specs.Bytes as b;
ghost use Rattle.sts_lexer.specs.Classes.{in_class};

/// The byte at a place, and 0 past the end.
pub fn byte_at(text: &[u8], at: usize) -> u8
    ensures { result ≡ slice_index text.now at }
{
    if at < text.len() { text[at] } else { 0 }
}

pub fn is_break(byte: u8) -> bool
    ensures { result ≡ b.is_break byte }
{
    byte == b'\n' || byte == b'\r'
}

pub fn begins_name(byte: u8) -> bool
    ensures { result ≡ b.begins_name byte }
{
    byte.is_ascii_alphabetic() || (byte == b'_' || byte == b'$')
}

pub fn goes_on_name(byte: u8) -> bool
    ensures { result ≡ b.goes_on_name byte }
{
    begins_name(byte) || byte.is_ascii_digit()
}

pub fn is_quote(byte: u8) -> bool
    ensures { result ≡ b.is_quote byte }
{
    byte == b'"' || (byte == b'\'' || byte == b'`')
}

/// A class of bytes that stand in runs.
#[derive(Clone, Copy, Drop)]
pub enum Class {
    /// What a name goes on with.
    Name,
    Digit,
    HexDigit,
    /// All but line breaks.
    Unbroken,
}

fn is_in(byte: u8, class: Class) -> bool
    ensures { result ≡ in_class class byte }
{
    match class {
        Class::Name => goes_on_name(byte),
        Class::Digit => byte.is_ascii_digit(),
        Class::HexDigit => byte.is_ascii_hexdigit(),
        Class::Unbroken => !is_break(byte),
    }
}

/// The place behind the bytes of a class that stand from a place on.
pub fn run_end(text: &[u8], from: usize, class: Class) -> usize
    requires { from ≤ length text.now }
    ensures after { from ≤ result }
    ensures within { result ≤ length text.now }
    ensures each { b.Each (in_class class) text.now from result }
    ensures ends { result < length text.now → in_class class (slice_index text.now result) ≡ false }
{
    let mut at = from;
    while at < text.len() && is_in(text[at], class) {
        at += 1;
    }
    at
}

/// Whether a line break is among the bytes from one place up to another.
pub fn has_break(text: &[u8], from: usize, upto: usize) -> bool
    requires { upto ≤ length text.now }
    ensures { IsTrue result ↔ b.SomeByte b.is_break text.now from upto }
{
    let mut at = from;
    while at < upto {
        if is_break(text[at]) {
            return true;
        }
        at += 1;
    }
    false
}
