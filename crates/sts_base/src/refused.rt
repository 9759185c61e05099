// Why a text is refused, and the number that is printed for it.
ghost use Rattle.std.specs.Prelude.{◌≡◌};
ghost use Rattle.sts_base.specs.Numbers.{number_of};

/// Why a text is no program.
#[derive(Clone, Copy, Debug, PartialEq, Eq, Drop)]
pub enum Code {
    /// The text has more bytes than a program may have.
    TextTooLong,
    /// The bytes are no UTF-8.
    NotUtf8,
    /// No token begins there.
    BadCharacter,
    /// A number is malformed or too great.
    BadNumber,
    /// A text is unclosed or has an unknown escape.
    BadText,
    /// The tokens spell no tree.
    Syntax,
    /// Too many brackets are open.
    TooDeep,
    /// A name stands for nothing there.
    UnknownName,
    /// A name is given twice.
    TwiceNamed,
    /// A handler uses a local of the function around it.
    Captures,
    /// Types or counts don't agree.
    Mismatch,
    /// A type is wanted and can't be derived.
    NeedsType,
    /// A function stands where only a handler may, or is no handler.
    BadHandler,
    /// A class is a base of itself.
    ClassCycle,
    /// A counted limit is passed.
    OverLimit,
}

/// A refusal: of the text, by a code and the place of the byte where it stands, or for want of memory.
#[derive(Clone, Copy, Debug, PartialEq, Eq, Drop)]
pub enum Refused {
    Program { code: Code, at: u32 },
    NoMemory,
}

/// The number of a code, from 1, as it is printed.
pub fn number(code: Code) -> u8
    ensures { result ≡ number_of code }
{
    code as u8 + 1
}
