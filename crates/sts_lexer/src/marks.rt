// Punctuation and operators.
ghost use Rattle.std.specs.Prelude.{◌≡◌, ℕ, ◌<◌, ◌≤◌, length, IfSome, IfNone};
ghost use Rattle.sts_lexer.specs.Bytes.{Stands};
ghost use Rattle.sts_lexer.specs.inner.{marks_beginning};
ghost use Rattle.sts_lexer.specs.Marks.{mark_bytes};
ghost use Rattle.sts_lexer.specs.declared.marks.Mark.{Mark};

/// A mark of punctuation or an operator (Punctuator of ECMA-262, section 12.8, without `...`, `?.`, `??`, `**`, `#`,
/// `@` and the assignments that belong to them).
#[derive(Clone, Copy, PartialEq, Eq, Drop)]
pub enum Mark {
    /// `{`
    OpenBrace,
    /// `}`
    CloseBrace,
    /// `(`
    OpenParenthesis,
    /// `)`
    CloseParenthesis,
    /// `[`
    OpenBracket,
    /// `]`
    CloseBracket,
    /// `;`
    Semicolon,
    /// `,`
    Comma,
    /// `.`
    Dot,
    /// `:`
    Colon,
    /// `?`
    Question,
    /// `=>`
    Arrow,
    /// `=`
    Assign,
    /// `+=`
    PlusAssign,
    /// `-=`
    MinusAssign,
    /// `*=`
    StarAssign,
    /// `/=`
    SlashAssign,
    /// `%=`
    PercentAssign,
    /// `&=`
    AmpersandAssign,
    /// `|=`
    BarAssign,
    /// `^=`
    CaretAssign,
    /// `<<=`
    ShiftLeftAssign,
    /// `>>=`
    ShiftRightAssign,
    /// `>>>=`
    UnsignedShiftRightAssign,
    /// `==`
    Equal,
    /// `!=`
    NotEqual,
    /// `===`
    StrictEqual,
    /// `!==`
    StrictNotEqual,
    /// `<`
    Less,
    /// `>`
    Greater,
    /// `<=`
    LessEqual,
    /// `>=`
    GreaterEqual,
    /// `+`
    Plus,
    /// `-`
    Minus,
    /// `*`
    Star,
    /// `/`
    Slash,
    /// `%`
    Percent,
    /// `&`
    Ampersand,
    /// `|`
    Bar,
    /// `^`
    Caret,
    /// `~`
    Tilde,
    /// `!`
    Exclamation,
    /// `&&`
    AmpersandAmpersand,
    /// `||`
    BarBar,
    /// `<<`
    ShiftLeft,
    /// `>>`
    ShiftRight,
    /// `>>>`
    UnsignedShiftRight,
    /// `++`
    PlusPlus,
    /// `--`
    MinusMinus,
}

/// The bytes of a mark.
fn spelling(mark: Mark) -> &'static [u8]
    ensures { result.now ≡ mark_bytes mark }
{
    match mark {
        Mark::OpenBrace => b"{",
        Mark::CloseBrace => b"}",
        Mark::OpenParenthesis => b"(",
        Mark::CloseParenthesis => b")",
        Mark::OpenBracket => b"[",
        Mark::CloseBracket => b"]",
        Mark::Semicolon => b";",
        Mark::Comma => b",",
        Mark::Dot => b".",
        Mark::Colon => b":",
        Mark::Question => b"?",
        Mark::Arrow => b"=>",
        Mark::Assign => b"=",
        Mark::PlusAssign => b"+=",
        Mark::MinusAssign => b"-=",
        Mark::StarAssign => b"*=",
        Mark::SlashAssign => b"/=",
        Mark::PercentAssign => b"%=",
        Mark::AmpersandAssign => b"&=",
        Mark::BarAssign => b"|=",
        Mark::CaretAssign => b"^=",
        Mark::ShiftLeftAssign => b"<<=",
        Mark::ShiftRightAssign => b">>=",
        Mark::UnsignedShiftRightAssign => b">>>=",
        Mark::Equal => b"==",
        Mark::NotEqual => b"!=",
        Mark::StrictEqual => b"===",
        Mark::StrictNotEqual => b"!==",
        Mark::Less => b"<",
        Mark::Greater => b">",
        Mark::LessEqual => b"<=",
        Mark::GreaterEqual => b">=",
        Mark::Plus => b"+",
        Mark::Minus => b"-",
        Mark::Star => b"*",
        Mark::Slash => b"/",
        Mark::Percent => b"%",
        Mark::Ampersand => b"&",
        Mark::Bar => b"|",
        Mark::Caret => b"^",
        Mark::Tilde => b"~",
        Mark::Exclamation => b"!",
        Mark::AmpersandAmpersand => b"&&",
        Mark::BarBar => b"||",
        Mark::ShiftLeft => b"<<",
        Mark::ShiftRight => b">>",
        Mark::UnsignedShiftRight => b">>>",
        Mark::PlusPlus => b"++",
        Mark::MinusMinus => b"--",
    }
}

/// The marks that begin with a byte, none before a longer one.
fn marks_beginning(byte: u8) -> &'static [Mark]
    ensures { result.now ≡ marks_beginning byte }
{
    match byte {
        b'!' => &[Mark::StrictNotEqual, Mark::NotEqual, Mark::Exclamation],
        b'%' => &[Mark::PercentAssign, Mark::Percent],
        b'&' => &[
            Mark::AmpersandAssign,
            Mark::AmpersandAmpersand,
            Mark::Ampersand,
        ],
        b'(' => &[Mark::OpenParenthesis],
        b')' => &[Mark::CloseParenthesis],
        b'*' => &[Mark::StarAssign, Mark::Star],
        b'+' => &[Mark::PlusAssign, Mark::PlusPlus, Mark::Plus],
        b',' => &[Mark::Comma],
        b'-' => &[Mark::MinusAssign, Mark::MinusMinus, Mark::Minus],
        b'.' => &[Mark::Dot],
        b'/' => &[Mark::SlashAssign, Mark::Slash],
        b':' => &[Mark::Colon],
        b';' => &[Mark::Semicolon],
        b'<' => &[
            Mark::ShiftLeftAssign,
            Mark::LessEqual,
            Mark::ShiftLeft,
            Mark::Less,
        ],
        b'=' => &[Mark::StrictEqual, Mark::Arrow, Mark::Equal, Mark::Assign],
        b'>' => &[
            Mark::UnsignedShiftRightAssign,
            Mark::ShiftRightAssign,
            Mark::UnsignedShiftRight,
            Mark::GreaterEqual,
            Mark::ShiftRight,
            Mark::Greater,
        ],
        b'?' => &[Mark::Question],
        b'[' => &[Mark::OpenBracket],
        b']' => &[Mark::CloseBracket],
        b'^' => &[Mark::CaretAssign, Mark::Caret],
        b'{' => &[Mark::OpenBrace],
        b'|' => &[Mark::BarAssign, Mark::BarBar, Mark::Bar],
        b'}' => &[Mark::CloseBrace],
        b'~' => &[Mark::Tilde],
        _ => &[],
    }
}

/// The longest mark that stands at a place, and the place behind it.
pub fn mark_at(text: &[u8], at: usize) -> Option<(Mark, usize)>
    requires here { at < length text.now }
    ensures some { IfSome result (λ r. Stands text.now (mark_bytes r.0) at r.1) }
    ensures longest { IfSome result
        (λ r. (mark : Mark) (end : ℕ) → Stands text.now (mark_bytes mark) at end → end ≤ r.1) }
    ensures none { IfNone result ((mark : Mark) (end : ℕ) → Stands text.now (mark_bytes mark) at end → ⊥) }
{
    let rest = &text[at..];
    let marks = marks_beginning(text[at]);
    for mark in marks {
        let bytes = spelling(*mark);
        if rest.starts_with(bytes) {
            return Some((*mark, at + bytes.len()));
        }
    }
    None
}
