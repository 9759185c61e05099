// Tokens.
use crate::marks::Mark;
use crate::words::Word;
use sts_base::Span;

/// What a token is. Names, reserved words and texts are given by the number of their entry in the tables.
#[derive(Clone, Copy, Drop)]
pub enum TokenKind {
    /// A number's value, converted to 32 bits (ToInt32 of ECMA-262, section 7.1.6).
    Num(i32),
    /// A text literal, by its value's entry in `texts`.
    Text(u32),
    /// A name, by its entry in `names`.
    Name(u32),
    /// A reserved word, with its entry in `names`: a member may have it as its name.
    Word(Word, u32),
    Mark(Mark),
    /// The end of the text.
    Finish,
}

/// A token and the bytes that spell it.
#[derive(Clone, Copy, Drop)]
pub struct Token {
    pub kind: TokenKind,
    pub span: Span,
    /// Whether a line break stands before the token, behind the token before.
    pub broken: bool,
}
