// The words of a text: names, numbers, texts in quotes, comments, runs of signs, and single brackets and marks.
ghost use Rattle.std.specs.Prelude.{◌≡◌, ◌<◌, ◌≤◌, false, length, IfSome, IfNone, MatchBool};
ghost use Rattle.around_place.specs.Words as spec;

/// A kind of byte that stands in runs.
#[derive(Clone, Copy, Drop)]
pub enum WordKind {
    /// What stands between words.
    Blank,
    /// Letters, digits, `_` and `$`.
    Name,
    /// Bytes beyond ASCII.
    Foreign,
    /// The signs of which longer marks are made.
    Sign,
    /// All but line breaks.
    Unbroken,
}

/// Whether a byte ends a line.
fn is_break(byte: u8) -> bool
    ensures { result ≡ spec.breaks_line byte }
{
    byte == b'\n' || byte == b'\r'
}

/// Whether a byte is a sign of which longer marks are made.
fn is_sign(byte: u8) -> bool
    ensures { result ≡ spec.is_sign byte }
{
    let compares = byte == b'=' || (byte == b'<' || (byte == b'>' || byte == b'!'));
    let counts = byte == b'+' || (byte == b'-' || byte == b'*');
    let chooses = byte == b'&' || (byte == b'|' || (byte == b'?' || byte == b':'));
    compares || (counts || chooses)
}

/// Whether a byte is of a kind.
pub fn is_in(byte: u8, kind: WordKind) -> bool
    ensures { result ≡ spec.in_kind kind byte }
{
    match kind {
        WordKind::Blank => byte == b' ' || (byte == b'\t' || is_break(byte)),
        WordKind::Name => byte.is_ascii_alphanumeric() || (byte == b'_' || byte == b'$'),
        WordKind::Foreign => 128 <= byte,
        WordKind::Sign => is_sign(byte),
        WordKind::Unbroken => !is_break(byte),
    }
}

/// Whether a byte opens a text.
pub fn opens_text(byte: u8) -> bool
    ensures { result ≡ spec.opens_text byte }
{
    byte == b'"' || (byte == b'\'' || byte == b'`')
}

/// What stands behind the bytes of a kind with which a text begins.
#[tactic(auto, unfolding(crate::specs::Words::behind_run))]
fn behind_run<'t>(text: &'t [u8], kind: WordKind) -> &'t [u8]
    ensures behind { result.now ≡ spec.behind_run (spec.in_kind kind) text.now }
    ensures within { length result.now ≤ length text.now }
{
    let mut rest = text;
    while let [byte, after @ ..] = rest {
        if !is_in(*byte, kind) {
            return rest;
        }
        rest = after;
    }
    rest
}

/// What stands behind the quote that closes a text, or from the end of its line on where it isn't closed there.
#[tactic(auto, unfolding(crate::specs::Words::behind_text))]
fn behind_text<'t>(quote: u8, text: &'t [u8]) -> &'t [u8]
    ensures behind { result.now ≡ spec.behind_text quote false text.now }
    ensures within { length result.now ≤ length text.now }
{
    let mut rest = text;
    let mut escaped = false;
    while let [byte, after @ ..] = rest {
        if !escaped && *byte == quote {
            return after;
        }
        if !escaped && (is_break(*byte) && quote != b'`') {
            return rest;
        }
        escaped = !escaped && *byte == b'\\';
        rest = after;
    }
    rest
}

/// What stands behind the end of a comment.
#[tactic(auto, unfolding(crate::specs::Words::behind_comment))]
fn behind_comment<'t>(text: &'t [u8]) -> &'t [u8]
    ensures behind { result.now ≡ spec.behind_comment false text.now }
    ensures within { length result.now ≤ length text.now }
{
    let mut rest = text;
    let mut starred = false;
    while let [byte, after @ ..] = rest {
        if starred && *byte == b'/' {
            return after;
        }
        starred = *byte == b'*';
        rest = after;
    }
    rest
}

/// What stands behind a word that begins with `/`, by what follows that.
fn behind_slash<'t>(text: &'t [u8]) -> &'t [u8]
    ensures behind { result.now ≡ spec.behind_slash text.now }
    ensures within { length result.now ≤ length text.now }
{
    match text {
        [b'/', ..] => behind_run(text, WordKind::Unbroken),
        [b'*', after @ ..] => behind_comment(after),
        _ => text,
    }
}

/// What stands behind the word that begins with a byte, by what follows that.
#[tactic(auto, unfolding(crate::specs::Words::behind_word))]
fn behind_word<'t>(first: u8, text: &'t [u8]) -> &'t [u8]
    ensures behind { result.now ≡ spec.behind_word first text.now }
    ensures within { length result.now ≤ length text.now }
{
    if is_in(first, WordKind::Name) {
        behind_run(text, WordKind::Name)
    } else if is_in(first, WordKind::Foreign) {
        behind_run(text, WordKind::Foreign)
    } else if is_in(first, WordKind::Sign) {
        behind_run(text, WordKind::Sign)
    } else if opens_text(first) {
        behind_text(first, text)
    } else if first == b'/' {
        behind_slash(text)
    } else {
        text
    }
}

/// What stands from a text's first word on.
pub fn from_word<'t>(text: &'t [u8]) -> &'t [u8]
    ensures from { result.now ≡ spec.from_word text.now }
    ensures within { length result.now ≤ length text.now }
{
    behind_run(text, WordKind::Blank)
}

/// Whether no word stands in a text.
pub fn is_blank(text: &[u8]) -> bool
    ensures { MatchBool result (spec.IsBlank text.now) (spec.IsBlank text.now → ⊥) }
{
    match from_word(text) {
        [] => true,
        [_, ..] => false,
    }
}

/// The first word of a text, and what stands behind it.
pub fn next_word<'t>(text: &'t [u8]) -> Option<(&'t [u8], &'t [u8])>
    ensures none { IfNone result (spec.IsBlank text.now) }
    ensures some { IfSome result (λ read. spec.IsFirstWord text.now read.0.now read.1.now) }
    ensures shorter { IfSome result (λ read. length read.1.now < length text.now) }
{
    let here = from_word(text);
    match here {
        [] => None,
        [first, rest @ ..] => {
            let after = behind_word(*first, rest);
            Some((&here[..here.len() - after.len()], after))
        }
    }
}
