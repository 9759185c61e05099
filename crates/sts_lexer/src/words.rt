// The reserved words.
ghost use Rattle.std.specs.Prelude.{◌≡◌, IfSome, IfNone, ◌≢◌};
ghost use Rattle.sts_lexer.specs.inner.{words_beginning};
ghost use Rattle.sts_lexer.specs.Words.{word_bytes};
ghost use Rattle.sts_lexer.specs.declared.words.Word.{Word};

use crate::bytes::byte_at;

/// A reserved word (ECMA-262, section 12.7.2, and TypeScript's words for classes). Those from `Case` on stand in
/// no program: they are reserved so that a text which any ECMAScript program might mean otherwise is refused.
#[derive(Clone, Copy, PartialEq, Eq, Drop)]
pub enum Word {
    Break,
    Class,
    Const,
    Continue,
    Do,
    Else,
    Extends,
    False,
    For,
    Function,
    If,
    Let,
    New,
    Null,
    Private,
    Protected,
    Public,
    Return,
    Super,
    This,
    True,
    Void,
    While,
    Case,
    Catch,
    Debugger,
    Default,
    Delete,
    Enum,
    Export,
    Finally,
    Implements,
    Import,
    In,
    Instanceof,
    Interface,
    Package,
    Static,
    Switch,
    Throw,
    Try,
    Typeof,
    Var,
    With,
    Yield,
}

/// The bytes of a reserved word.
fn spelling(word: Word) -> &'static [u8]
    ensures { result.now ≡ word_bytes word }
{
    match word {
        Word::Break => b"break",
        Word::Class => b"class",
        Word::Const => b"const",
        Word::Continue => b"continue",
        Word::Do => b"do",
        Word::Else => b"else",
        Word::Extends => b"extends",
        Word::False => b"false",
        Word::For => b"for",
        Word::Function => b"function",
        Word::If => b"if",
        Word::Let => b"let",
        Word::New => b"new",
        Word::Null => b"null",
        Word::Private => b"private",
        Word::Protected => b"protected",
        Word::Public => b"public",
        Word::Return => b"return",
        Word::Super => b"super",
        Word::This => b"this",
        Word::True => b"true",
        Word::Void => b"void",
        Word::While => b"while",
        Word::Case => b"case",
        Word::Catch => b"catch",
        Word::Debugger => b"debugger",
        Word::Default => b"default",
        Word::Delete => b"delete",
        Word::Enum => b"enum",
        Word::Export => b"export",
        Word::Finally => b"finally",
        Word::Implements => b"implements",
        Word::Import => b"import",
        Word::In => b"in",
        Word::Instanceof => b"instanceof",
        Word::Interface => b"interface",
        Word::Package => b"package",
        Word::Static => b"static",
        Word::Switch => b"switch",
        Word::Throw => b"throw",
        Word::Try => b"try",
        Word::Typeof => b"typeof",
        Word::Var => b"var",
        Word::With => b"with",
        Word::Yield => b"yield",
    }
}

/// The reserved words that begin with a byte.
fn words_beginning(byte: u8) -> &'static [Word]
    ensures { result.now ≡ words_beginning byte }
{
    match byte {
        b'b' => &[Word::Break],
        b'c' => &[
            Word::Class,
            Word::Const,
            Word::Continue,
            Word::Case,
            Word::Catch,
        ],
        b'd' => &[Word::Do, Word::Debugger, Word::Default, Word::Delete],
        b'e' => &[Word::Else, Word::Extends, Word::Enum, Word::Export],
        b'f' => &[Word::False, Word::For, Word::Function, Word::Finally],
        b'i' => &[
            Word::If,
            Word::Implements,
            Word::Import,
            Word::In,
            Word::Instanceof,
            Word::Interface,
        ],
        b'l' => &[Word::Let],
        b'n' => &[Word::New, Word::Null],
        b'p' => &[Word::Private, Word::Protected, Word::Public, Word::Package],
        b'r' => &[Word::Return],
        b's' => &[Word::Super, Word::Static, Word::Switch],
        b't' => &[Word::This, Word::True, Word::Throw, Word::Try, Word::Typeof],
        b'v' => &[Word::Void, Word::Var],
        b'w' => &[Word::While, Word::With],
        b'y' => &[Word::Yield],
        _ => &[],
    }
}

/// The reserved word that has these bytes.
pub fn reserved(bytes: &[u8]) -> Option<Word>
    ensures some { IfSome result (λ word. bytes.now ≡ word_bytes word) }
    ensures none { IfNone result ((word : Word) → bytes.now ≢ word_bytes word) }
{
    let words = words_beginning(byte_at(bytes, 0));
    for word in words {
        if spelling(*word) == bytes {
            return Some(*word);
        }
    }
    None
}
