// Text literals.
ghost use Rattle.std.specs.Prelude.{◌≡◌, ℕ, ◌<◌, ◌≤◌, List, length, slice_index, IsTrue, IfOk, IfSome, IfNone, MatchOption};
ghost use Rattle.sts_lexer.specs.Bytes.{most_bytes, is_quote};
ghost use Rattle.sts_lexer.specs.Lexemes as spec;

use crate::bytes::{byte_at, is_break, is_quote};
use std::alloc::Global;
use sts_base::{NoMemory, Seq};

/// What a backslash and this byte stand for.
fn escaped(byte: u8) -> Option<u8>
    ensures { result ≡ spec.escaped byte }
{
    match byte {
        b'n' => Some(b'\n'),
        b'r' => Some(b'\r'),
        b't' => Some(b'\t'),
        b'\\' | b'\'' | b'"' | b'`' => Some(byte),
        _ => None,
    }
}

/// One character in quotes: the byte that it stands for and how many bytes it takes, by its first two bytes.
fn character(quote: u8, byte: u8, next: u8) -> Option<(u8, usize)>
    ensures { result ≡ spec.character quote byte next }
{
    if byte == b'\\' {
        return Some((escaped(next)?, 2));
    }
    if byte == quote {
        return None;
    }
    if quote != b'`' {
        return if is_break(byte) {
            None
        } else {
            Some((byte, 1))
        };
    }
    match (byte, next) {
        (b'\r', b'\n') => Some((b'\n', 2)),
        (b'\r', _) => Some((b'\n', 1)),
        (b'$', b'{') => None,
        _ => Some((byte, 1)),
    }
}

/// The bytes that the text literal at a place stands for, and the place behind it. None where none is whole.
pub fn quoted_at(
    alloc: Global,
    text: &[u8],
    at: usize,
) -> Result<Option<(Seq<u8>, usize)>, NoMemory>
    requires short { length text.now ≤ most_bytes }
    requires here { at < length text.now }
    requires quote { IsTrue (is_quote (slice_index text.now at)) }
    ensures some { IfOk result (λ found. IfSome found (λ r. spec.IsQuoted text.now r.0 at r.1)) }
    ensures none { IfOk result
        (λ found. IfNone found ((value : List ℕ) (end : ℕ) → spec.IsQuoted text.now value at end → ⊥)) }
{
    let quote = text[at];
    let mut value = Seq::new(alloc);
    let mut close = at + 1;
    while close < text.len() {
        if text[close] == quote {
            return Ok(Some((value, close + 1)));
        }
        match character(quote, text[close], byte_at(text, close + 1)) {
            Some((byte, size)) => {
                value.push(byte)?;
                close += size;
            }
            None => return Ok(None),
        }
    }
    Ok(None)
}
