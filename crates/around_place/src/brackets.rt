// The bracket that is open at a place.
ghost use Rattle.std.specs.Prelude.{◌≡◌, ℕ, ◌<◌, ◌≤◌, ◌+◌, ◌-◌, ◌^◌, ◌==◌, ◌&&◌, List, None};
ghost use Rattle.std.specs.Option.{option_map};
ghost use Rattle.around_place.specs.Brackets as spec;
ghost use Rattle.around_place.specs.Words.{AreItsWords};

use crate::words::{from_word, next_word};

/// Whether a word opens a bracket.
fn opens(word: &[u8]) -> bool
    ensures { result ≡ spec.opens_bracket word.now }
{
    match word {
        [byte, ..] => *byte == b'(' || (*byte == b'[' || *byte == b'{'),
        [] => false,
    }
}

/// Whether a word closes a bracket.
fn closes(word: &[u8]) -> bool
    ensures { result ≡ spec.closes_bracket word.now }
{
    match word {
        [byte, ..] => *byte == b')' || (*byte == b']' || *byte == b'}'),
        [] => false,
    }
}

/// How many brackets are open behind a word, where so many are before it. A closing bracket closes the latest one, of
/// whatever kind, and does nothing where none is open.
fn open_behind(count: usize, word: &[u8]) -> usize
    requires { count < 2 ^ 64 - 1 }
    ensures count { result ≡ spec.open_behind_word count word.now }
    ensures most { result ≤ count + 1 }
{
    if opens(word) {
        count + 1
    } else if closes(word) {
        count.saturating_sub(1)
    } else {
        count
    }
}

/// How many brackets are open at the end of a text.
fn open_count(text: &[u8]) -> usize
    ensures { (words : List (List ℕ)) → AreItsWords text.now words → result ≡ spec.open_count 0 words }
{
    let mut count = 0;
    let mut rest = text;
    while let Some((word, after)) = next_word(rest) {
        count = open_behind(count, word);
        rest = after;
    }
    count
}

/// Whether a word opens a bracket, and so many are open behind it as at the end.
fn is_as_open(word: &[u8], count: usize, all: usize) -> bool
    ensures { result ≡ (spec.opens_bracket word.now && (count == all)) }
{
    opens(word) && count == all
}

/// The text from the innermost bracket on that is open at its end: the latest one right behind which as many are open as there.
pub fn innermost<'t>(text: &'t [u8]) -> Option<&'t [u8]>
    ensures { (words : List (List ℕ)) → AreItsWords text.now words
        → option_map (λ rest. rest.now) result ≡ spec.innermost_bracket text.now words }
{
    let all = open_count(text);
    let mut found = None;
    let mut count = 0;
    let mut rest = text;
    while let Some((word, after)) = next_word(rest) {
        count = open_behind(count, word);
        if is_as_open(word, count, all) {
            found = Some(from_word(rest));
        }
        rest = after;
    }
    found
}
