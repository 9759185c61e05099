// The tokens that are read, with the tables of their names.
ghost use Rattle.std.specs.Prelude.{◌≡◌, ◌≢◌, ◌<◌, ◌≤◌, ◌+◌, length, true, Some, Err, IfOk, slice_get};
ghost use Rattle.sts_grammar.specs.Source as source;
ghost use Rattle.sts_grammar.specs.Found as found;
ghost use Rattle.parse_expr.specs.Gives.{source, Gives};

use std::alloc::Global;
use sts_base::{NoMemory, Seq, Tables};
use sts_lexer::{Mark, Token, TokenKind, Word};

/// Why nothing is read: no tree stands there, as the token with this number shows, or memory ran out.
#[derive(Clone, Copy, Drop)]
pub enum Unread {
    Syntax(usize),
    NoMemory,
}

/// Gives up what was read, since what stands behind it isn't. A generic function, in which no form of tree is written out: the drop of a
/// tree at each `?` would take a step for each form there, and in the function's proof.
pub fn lost<T: Drop, U>(why: Unread, _read: T) -> Result<U, Unread>
    ensures { result ≡ Err why }
{
    Err(why)
}

impl From<NoMemory> for Unread {
    ghost use Rattle.std.specs.Prelude.{◌≡◌};
    ghost use Rattle.parse_expr.specs.declared.reader.Unread.TheVariants as unread;

    ghost from_gives = { λ _ r. r ≡ unread.NoMemory };

    fn from(_: NoMemory) -> Unread {
        Unread::NoMemory
    }
}

/// A node that was read.
#[derive(Drop)]
pub struct Read<T> {
    pub item: T,
    /// the number of the token behind it
    pub end: usize,
    /// the nesting of its tree
    pub nesting: usize,
}

/// What is read from. Expressions go on only with tokens before `upto`.
#[derive(Clone, Copy)]
pub struct Reader<'a> {
    pub alloc: Global,
    pub tokens: &'a Seq<Token>,
    pub tables: &'a Tables,
    pub upto: usize,
}

impl<'a> Reader<'a> {
    /// The same for expressions that go on with any token.
    pub fn whole(&self) -> Reader<'a>
        ensures source { source result ≡ source self.now }
        ensures upto { result.upto ≡ length self.now.tokens.now }
    {
        Reader {
            alloc: self.alloc,
            tokens: self.tokens,
            tables: self.tables,
            upto: self.tokens.len(),
        }
    }

    /// The number of tokens.
    pub fn count(&self) -> usize
        ensures { result ≡ length self.now.tokens.now }
    {
        self.tokens.len()
    }

    /// The kind of the token with a number, Finish past the end.
    pub fn kind(&self, at: usize) -> TokenKind
        ensures value { result ≡ source.kind (source self.now) at }
        ensures inside { result ≢ TokenKind.Finish → at < usize.MAX }
    {
        let _count = self.tokens.len();
        match self.tokens.get(at) {
            Some(token) => token.kind,
            None => TokenKind::Finish,
        }
    }

    /// Whether a line break stands before the token.
    pub fn is_broken(&self, at: usize) -> bool
        ensures { result ≡ source.broken (source self.now) at }
    {
        match self.tokens.get(at) {
            Some(token) => token.broken,
            None => false,
        }
    }

    /// The place of the token in the text: its first byte.
    pub fn place(&self, at: usize) -> u32
        ensures { result ≡ source.place (source self.now) at }
    {
        match self.tokens.get(at) {
            Some(token) => token.span.from,
            None => 0,
        }
    }

    /// Whether a token is this mark.
    pub fn is_mark(&self, at: usize, mark: Mark) -> bool
        ensures value { result ≡ source.is_mark mark (source.kind (source self.now) at) }
        ensures inside { result ≡ true → at < usize.MAX }
    {
        match self.kind(at) {
            TokenKind::Mark(other) => other == mark,
            _ => false,
        }
    }

    /// Whether a token is this reserved word.
    pub fn is_word(&self, at: usize, word: Word) -> bool
        ensures value { result ≡ source.is_word word (source.kind (source self.now) at) }
        ensures inside { result ≡ true → at < usize.MAX }
    {
        match self.kind(at) {
            TokenKind::Word(other, _) => other == word,
            _ => false,
        }
    }

    /// Whether a list ends: at `]` where it is square, or else at `)`.
    pub fn closes(&self, square: bool, at: usize) -> bool
        ensures value { result ≡ found.closes square (source.kind (source self.now) at) }
        ensures inside { result ≡ true → at < usize.MAX }
    {
        if square {
            self.is_mark(at, Mark::CloseBracket)
        } else {
            self.is_mark(at, Mark::CloseParenthesis)
        }
    }

    /// The name that a token is.
    pub fn name(&self, at: usize) -> Result<u32, Unread>
        ensures reads { Gives (λ name. name) result (found.name_of (source.kind (source self.now) at)) }
        ensures inside { IfOk result (λ _. at < usize.MAX) }
    {
        match self.kind(at) {
            TokenKind::Name(name) => Ok(name),
            _ => Err(Unread::Syntax(at)),
        }
    }

    /// The member's name that a token is: any name or reserved word.
    pub fn member_name(&self, at: usize) -> Result<u32, Unread>
        ensures reads { Gives (λ name. name) result (found.member_name_of (source.kind (source self.now) at)) }
        ensures inside { IfOk result (λ _. at < usize.MAX) }
    {
        match self.kind(at) {
            TokenKind::Name(name) => Ok(name),
            TokenKind::Word(_, name) => Ok(name),
            _ => Err(Unread::Syntax(at)),
        }
    }

    /// Whether a name has this spelling.
    pub fn is_spelled(&self, name: u32, bytes: &[u8]) -> bool
        ensures { result ≡ found.has_bytes (slice_get self.now.tables.now.names name) bytes.now }
    {
        match self.tables.names.get(name as usize) {
            Some(spelling) => spelling.as_slice() == bytes,
            None => false,
        }
    }
}
