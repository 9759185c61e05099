// The tokens of a JSON text, each with its line.
ghost use Rattle.std.specs.Prelude.{◌≤◌, ◌<◌, length};

use std::alloc::{AllocError, Global};

/// What a token is.
#[derive(Clone, Copy, Debug, PartialEq, Eq, Drop)]
pub enum Kind {
    /// `{` or `[`.
    Open,
    /// `}` or `]`.
    Close,
    Colon,
    Comma,
    /// A text in double quotes.
    Text,
    /// A text that isn't closed on its line.
    OpenText,
    /// What begins with a single quote.
    Quoted,
    /// What begins with `/` or `#`, up to the end of the line.
    Comment,
    /// A number or a word.
    Word,
    /// Spaces and tabs.
    Blank,
    /// A line's end.
    NewLine,
}

/// A token: its bytes, with its quotes, and its line, from 1.
#[derive(Clone, Copy, Drop)]
pub struct Token<'t> {
    pub kind: Kind,
    pub text: &'t [u8],
    pub line: usize,
}

impl<'t> Token<'t> {
    /// A text without its quotes; every other token as it is.
    pub fn inner(&self) -> &'t [u8] {
        match self.text {
            [b'"', inner @ .., b'"'] => inner,
            _ => self.text,
        }
    }

    /// Whether it is a text that says this.
    pub fn says(&self, words: &str) -> bool {
        self.kind == Kind::Text && self.inner() == words.as_bytes()
    }

    /// Whether it is this bracket.
    pub fn is_bracket(&self, byte: u8) -> bool {
        match self.text {
            [first] => *first == byte,
            _ => false,
        }
    }
}

/// The bytes of a text from its quote on, and whether it is closed on its line.
fn text_length(rest: &[u8], quote: u8) -> (bool, usize)
    requires { 0 < length rest.now }
    ensures some { 0 < result.1 }
    ensures within { result.1 ≤ length rest.now }
{
    let mut escaped = false;
    for at in 1..rest.len() {
        let byte = rest[at];
        if byte == quote && !escaped {
            return (true, at + 1);
        }
        if byte == b'\n' || byte == b'\r' {
            return (false, at);
        }
        escaped = byte == b'\\' && !escaped;
    }
    (false, rest.len())
}

/// The bytes up to the end of the line.
fn line_length(rest: &[u8]) -> usize
    requires { 0 < length rest.now }
    ensures some { 0 < result }
    ensures within { result ≤ length rest.now }
{
    for at in 1..rest.len() {
        if rest[at] == b'\n' || rest[at] == b'\r' {
            return at;
        }
    }
    rest.len()
}

/// Whether a byte ends a word.
fn ends_word(byte: u8) -> bool {
    match byte {
        b' ' | b'\t' | b'\n' | b'\r' => true,
        b'{' | b'}' | b'[' | b']' | b':' | b',' => true,
        b'"' | b'\'' | b'/' | b'#' => true,
        _ => false,
    }
}

/// The bytes of a word.
fn word_length(rest: &[u8]) -> usize
    requires { 0 < length rest.now }
    ensures some { 0 < result }
    ensures within { result ≤ length rest.now }
{
    for at in 1..rest.len() {
        if ends_word(rest[at]) {
            return at;
        }
    }
    rest.len()
}

/// The kind of a token of one byte, if it is one.
fn single(byte: u8) -> Option<Kind> {
    match byte {
        b' ' | b'\t' | b'\r' => Some(Kind::Blank),
        b'\n' => Some(Kind::NewLine),
        b'{' | b'[' => Some(Kind::Open),
        b'}' | b']' => Some(Kind::Close),
        b':' => Some(Kind::Colon),
        b',' => Some(Kind::Comma),
        _ => None,
    }
}

/// The first token of a text, and how many bytes it has.
fn first_piece(rest: &[u8]) -> (Kind, usize)
    requires { 0 < length rest.now }
    ensures some { 0 < result.1 }
    ensures within { result.1 ≤ length rest.now }
{
    let byte = rest[0];
    if let Some(kind) = single(byte) {
        return (kind, 1);
    }
    match byte {
        b'"' => match text_length(rest, b'"') {
            (true, count) => (Kind::Text, count),
            (false, count) => (Kind::OpenText, count),
        },
        b'\'' => (Kind::Quoted, text_length(rest, b'\'').1),
        b'/' | b'#' => (Kind::Comment, line_length(rest)),
        _ => (Kind::Word, word_length(rest)),
    }
}

/// The tokens of a text, but for what is between them.
pub fn tokens_of<'t>(alloc: Global, text: &'t [u8]) -> Result<Vec<Token<'t>>, AllocError> {
    let mut tokens = Vec::new(alloc);
    let mut line: usize = 1;
    let mut rest = text;
    while !rest.is_empty() {
        let (kind, count) = first_piece(rest);
        match kind {
            Kind::Blank => {}
            Kind::NewLine => line = line.saturating_add(1),
            _ => tokens.push(Token {
                kind,
                text: &rest[..count],
                line,
            })?,
        }
        rest = &rest[count..];
    }
    Ok(tokens)
}
