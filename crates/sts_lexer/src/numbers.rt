// Numbers.
ghost use Rattle.std.specs.Prelude.{◌≡◌, ◌↔◌, ℕ, ◌+◌, ◌<◌, ◌≤◌, ◌^◌, length, slice_index, IsTrue, IfSome, IfNone, SomeIff};
ghost use Rattle.std.specs.Char.{is_ascii_digit, is_ascii_hexdigit, digit_value};
ghost use Rattle.std.specs.Str.Parse.{digits_value};
ghost use Rattle.sts_lexer.specs.Bytes.{most_bytes};
ghost use Rattle.sts_lexer.specs.Lexemes as spec;

use crate::bytes::{Class, byte_at, goes_on_name, run_end};

/// The value of digits, where it is below 2^32.
fn value_of(digits: &[u8], radix: u32) -> Option<u32>
    requires two { 2 ≤ radix }
    requires sixteen { radix ≤ 16 }
    requires some { 0 < length digits.now }
    requires digits { (k : ℕ) → k < length digits.now → digit_value (slice_index digits.now k) < radix }
    ensures { SomeIff result (digits_value radix digits.now < 2 ^ 32) (digits_value radix digits.now) }
{
    let text = str::from_utf8(digits).ok()?;
    u32::from_str_radix(text, radix).ok()
}

/// Whether what stands behind a number lets it end there.
fn may_end(text: &[u8], end: usize) -> bool
    ensures { result ≡ spec.ends_number (slice_index text.now end) }
{
    let byte = byte_at(text, end);
    !(goes_on_name(byte) || byte == b'.')
}

/// The decimal number that stands at a place, and the place behind it.
fn decimal_at(text: &[u8], at: usize) -> Option<(u32, usize)>
    requires short { length text.now ≤ most_bytes }
    requires here { at < length text.now }
    requires digit { IsTrue (is_ascii_digit (slice_index text.now at)) }
    ensures some { IfSome result (λ r. spec.IsDecimal text.now at r.1 × spec.IsValue text.now 10 r.0 at r.1) }
    ensures none { IfNone result
        ((value end : ℕ) → spec.IsDecimal text.now at end → spec.IsValue text.now 10 value at end → ⊥) }
{
    let end = if text[at] == b'0' {
        at + 1
    } else {
        run_end(text, at, Class::Digit)
    };
    if may_end(text, end) {
        Some((value_of(&text[at..end], 10)?, end))
    } else {
        None
    }
}

/// The hexadecimal number that stands at a place, and the place behind it.
fn hex_at(text: &[u8], at: usize) -> Option<(u32, usize)>
    requires short { length text.now ≤ most_bytes }
    requires zero { slice_index text.now at ≡ 48 }
    requires x { spec.IsX (slice_index text.now (at + 1)) }
    ensures some { IfSome result (λ r. spec.IsHex text.now at r.1 × spec.IsValue text.now 16 r.0 (at + 2) r.1) }
    ensures none { IfNone result
        ((value end : ℕ) → spec.IsHex text.now at end → spec.IsValue text.now 16 value (at + 2) end → ⊥) }
{
    let from = at + 2;
    let end = run_end(text, from, Class::HexDigit);
    if from < end && may_end(text, end) {
        Some((value_of(&text[from..end], 16)?, end))
    } else {
        None
    }
}

fn is_x(byte: u8) -> bool
    ensures { IsTrue result ↔ spec.IsX byte }
{
    byte == b'x' || byte == b'X'
}

/// The number that stands at a place, and the place behind it.
pub fn number_at(text: &[u8], at: usize) -> Option<(u32, usize)>
    requires short { length text.now ≤ most_bytes }
    requires here { at < length text.now }
    requires digit { IsTrue (is_ascii_digit (slice_index text.now at)) }
    ensures some { IfSome result (λ r. spec.IsNumber text.now r.0 at r.1) }
    ensures none { IfNone result ((value end : ℕ) → spec.IsNumber text.now value at end → ⊥) }
{
    if text[at] == b'0' && is_x(byte_at(text, at + 1)) {
        hex_at(text, at)
    } else {
        decimal_at(text, at)
    }
}
