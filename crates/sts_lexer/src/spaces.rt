// White space and comments.
ghost use Rattle.std.specs.Prelude.{◌≡◌, ℕ, ◌+◌, ◌<◌, ◌≤◌, List, length, IfSome, IfNone};
ghost use Rattle.sts_lexer.specs.Bytes.{most_bytes};
ghost use Rattle.sts_lexer.specs.Spaces as spec;

use crate::bytes::{Class, byte_at, run_end};

/// The next place from a given one on where `*/` stands.
fn closing(text: &[u8], from: usize) -> Option<usize>
    requires { length text.now ≤ most_bytes }
    ensures after { IfSome result (λ close. from ≤ close) }
    ensures closes { IfSome result (λ close. spec.Closes text.now close) }
    ensures next { IfSome result (λ close. (k : ℕ) → from ≤ k → k < close → spec.Closes text.now k → ⊥) }
    ensures within { IfSome result (λ close. close + 2 ≤ length text.now) }
    ensures none { IfNone result ((k : ℕ) → from ≤ k → spec.Closes text.now k → ⊥) }
{
    for at in from..text.len() {
        if text[at] == b'*' && byte_at(text, at + 1) == b'/' {
            return Some(at);
        }
    }
    None
}

/// The place behind the byte of white space or the comment that stands at a place.
fn space_end(text: &[u8], at: usize) -> Option<usize>
    requires short { length text.now ≤ most_bytes }
    requires here { at < length text.now }
    ensures some { IfSome result (λ end. spec.IsSpace text.now at end) }
    ensures within { IfSome result (λ end. (at < end) × (end ≤ length text.now)) }
    ensures none { IfNone result ((end : ℕ) → spec.IsSpace text.now at end → ⊥) }
{
    match (text[at], byte_at(text, at + 1)) {
        (b' ' | b'\t' | b'\n' | b'\r', _) => Some(at + 1),
        (b'/', b'/') => Some(run_end(text, at, Class::Unbroken)),
        (b'/', b'*') => Some(closing(text, at + 2)? + 2),
        _ => None,
    }
}

/// The place behind the white space and the comments that stand from a place on.
pub fn gap_end(text: &[u8], from: usize) -> usize
    requires short { length text.now ≤ most_bytes }
    requires here { from ≤ length text.now }
    ensures gap { (places : List ℕ) × spec.IsGap text.now from places result }
    ensures after { from ≤ result }
    ensures within { result ≤ length text.now }
    ensures ends { (end : ℕ) → spec.IsSpace text.now result end → ⊥ }
{
    let mut at = from;
    while at < text.len() {
        match space_end(text, at) {
            Some(end) => at = end,
            None => return at,
        }
    }
    at
}

/// Whether `//` or `/*` stands at a place.
pub fn opens_comment(text: &[u8], at: usize) -> bool
    requires here { at < length text.now }
    requires short { length text.now ≤ most_bytes }
    ensures { result ≡ spec.opens_comment text.now at }
{
    let next = byte_at(text, at + 1);
    text[at] == b'/' && (next == b'/' || next == b'*')
}

/// The place where reading begins: behind a byte order mark.
pub fn start(text: &[u8]) -> usize
    ensures { result ≡ spec.start_of text.now }
{
    if byte_at(text, 0) == 0xEF && (byte_at(text, 1) == 0xBB && byte_at(text, 2) == 0xBF) {
        3
    } else {
        0
    }
}
