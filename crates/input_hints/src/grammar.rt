// Whether tokens spell JSON.
use crate::faults::{InputFault, Part, fault, in_line};
use crate::tokens::{Kind, Token};
use std::alloc::{AllocError, Global};

/// What may come next.
#[derive(Clone, Copy, Debug, PartialEq, Eq, Drop)]
enum Want {
    /// A value.
    Value,
    /// The first value of a list, or its end.
    FirstValue,
    /// A member's name.
    Name,
    /// The first member's name, or the object's end.
    FirstName,
    Colon,
    /// A comma or the end.
    More,
    /// Nothing: the text is whole.
    Nothing,
}

/// What is said, around some bytes of the file.
#[derive(Clone, Copy, Drop)]
struct Quoting<'t> {
    front: &'static str,
    shown: &'t [u8],
    back: &'static str,
}

/// Whether a word is a number as JSON writes it, as far as its first bytes show.
fn is_number(word: &[u8]) -> bool {
    match word {
        [b'-', b'0', next, ..] => !next.is_ascii_digit(),
        [b'0', next, ..] => !next.is_ascii_digit(),
        [b'-', next, ..] => next.is_ascii_digit(),
        [first, ..] => first.is_ascii_digit(),
        [] => false,
    }
}

/// Whether a word is a value.
fn is_value(word: &[u8]) -> bool {
    match word {
        b"true" | b"false" | b"null" => true,
        _ => is_number(word),
    }
}

/// What is said of a token that is no value, name or mark of JSON.
fn no_token<'t>(token: &Token<'t>) -> Option<Quoting<'t>> {
    let parts = match token.kind {
        Kind::OpenText => Quoting {
            front: "the text ",
            shown: token.text,
            back: " isn't closed: a `\"` is missing at its end",
        },
        Kind::Quoted => Quoting {
            front: "a text is in double quotes, `\"`; here it is ",
            shown: token.text,
            back: "",
        },
        Kind::Comment => Quoting {
            front: "there are no comments in such a file: take `",
            shown: token.text,
            back: "` out",
        },
        _ => return None,
    };
    Some(parts)
}

/// What is said where a value is to come.
fn no_value<'t>(token: &Token<'t>) -> Quoting<'t> {
    match token.kind {
        Kind::Word => match token.text {
            [b'0'..=b'9', ..] => Quoting {
                front: "a number has no 0 before it; here it is ",
                shown: token.text,
                back: "",
            },
            _ => Quoting {
                front: "`",
                shown: token.text,
                back: "` is no value: a text is in quotes, and a number is digits",
            },
        },
        _ => Quoting {
            front: "a value is missing before this `",
            shown: token.text,
            back: "`",
        },
    }
}

/// What is said where a member's name is to come.
fn no_name<'t>(token: &Token<'t>) -> Quoting<'t> {
    match token.kind {
        Kind::Word => Quoting {
            front: "the name of a member is in quotes: \"",
            shown: token.text,
            back: "\"",
        },
        _ => Quoting {
            front: "the name of a member is missing before this `",
            shown: token.text,
            back: "`",
        },
    }
}

/// What is said where a comma or the end is to come.
fn no_comma<'t>(before: &Token<'t>, token: &Token<'t>) -> Quoting<'t> {
    match token.kind {
        Kind::Close => Quoting {
            front: "this `",
            shown: token.text,
            back: "` closes another bracket than the one that is open: one before it is missing or too many",
        },
        _ => Quoting {
            front: "a comma is missing after this `",
            shown: before.text,
            back: "`",
        },
    }
}

/// What is said of a comma right before a closing bracket.
fn comma_too_many<'t>(token: &Token<'t>) -> Quoting<'t> {
    let words = if token.is_bracket(b']') {
        "a comma is after the last entry: take it out"
    } else {
        "a comma is after the last member: take it out"
    };
    Quoting {
        front: words,
        shown: b"",
        back: "",
    }
}

/// A line and what is said there.
#[derive(Clone, Copy, Drop)]
struct Said<'t> {
    line: usize,
    words: Quoting<'t>,
}

/// What is wrong with a token where this may come, if something is: the innermost open bracket and the token before it are given.
fn wrong_at<'t>(want: Want, open: u8, before: &Token<'t>, token: &Token<'t>) -> Option<Said<'t>> {
    if let Some(words) = no_token(token) {
        let line = token.line;
        return Some(Said { line, words });
    }
    let ends = token.kind == Kind::Close && closes(open, token);
    let is_fine = match want {
        Want::Value => may_begin(token),
        Want::FirstValue => ends || may_begin(token),
        Want::Name => token.kind == Kind::Text,
        Want::FirstName => ends || token.kind == Kind::Text,
        Want::Colon => token.kind == Kind::Colon,
        Want::More => ends || token.kind == Kind::Comma,
        Want::Nothing => false,
    };
    if is_fine {
        return None;
    }
    if ends && before.kind == Kind::Comma {
        let line = before.line;
        let words = comma_too_many(token);
        return Some(Said { line, words });
    }
    let said = said_of(want, before, token);
    Some(said)
}

/// What is said where a colon is to come.
fn no_colon<'t>(before: &Token<'t>) -> Quoting<'t> {
    Quoting {
        front: "a `:` is missing after ",
        shown: before.text,
        back: "",
    }
}

/// What is said of a token after the end.
fn after_end<'t>(token: &Token<'t>) -> Quoting<'t> {
    Quoting {
        front: "the file goes on after its end, by `",
        shown: token.text,
        back: "`: a bracket before it is too many, or this is",
    }
}

/// What is said of a token that isn't what may come.
fn said_of<'t>(want: Want, before: &Token<'t>, token: &Token<'t>) -> Said<'t> {
    let words = match want {
        Want::Value | Want::FirstValue => no_value(token),
        Want::Name | Want::FirstName => no_name(token),
        Want::Colon => no_colon(before),
        Want::More => no_comma(before, token),
        Want::Nothing => after_end(token),
    };
    let line = match want {
        Want::Colon => before.line,
        Want::More if token.kind != Kind::Close => before.line,
        _ => token.line,
    };
    Said { line, words }
}

/// Whether a token begins a value.
fn may_begin(token: &Token<'_>) -> bool {
    match token.kind {
        Kind::Open | Kind::Text => true,
        Kind::Word => is_value(token.text),
        _ => false,
    }
}

/// Whether a token closes a bracket.
fn closes(open: u8, token: &Token<'_>) -> bool {
    (open == b'{' && token.is_bracket(b'}')) || (open == b'[' && token.is_bracket(b']'))
}

/// What may come after a token that is right.
fn after_token(want: Want, open: u8, token: &Token<'_>) -> Want {
    match token.kind {
        Kind::Open => {
            if token.is_bracket(b'{') {
                Want::FirstName
            } else {
                Want::FirstValue
            }
        }
        Kind::Colon => Want::Value,
        Kind::Comma => {
            if open == b'{' {
                Want::Name
            } else {
                Want::Value
            }
        }
        Kind::Text if want == Want::Name || want == Want::FirstName => Want::Colon,
        _ => { if open == 0 { Want::Nothing } else { Want::More } }
    }
}

/// The bracket that is open innermost, and 0 where none is.
fn innermost(open: &[u8]) -> u8 {
    match open {
        [.., last] => *last,
        [] => 0,
    }
}

/// What is said at the end of the tokens.
fn at_end(want: Want, open: u8) -> Option<Quoting<'static>> {
    let words = match (want, open) {
        (Want::Nothing, _) => return None,
        (_, b'{') => "a `}` is missing at the end",
        (_, b'[') => "a `]` is missing at the end",
        _ => "the file is empty",
    };
    Some(Quoting {
        front: words,
        shown: b"",
        back: "",
    })
}

/// Keeps which brackets are open.
fn turn(open: &mut Vec<u8>, token: &Token<'_>) -> Result<(), AllocError> {
    match (token.kind, token.text) {
        (Kind::Open, [byte, ..]) => {
            open.push(*byte)?;
            Ok(())
        }
        (Kind::Close, _) => {
            let _ = open.pop();
            Ok(())
        }
        _ => Ok(()),
    }
}

fn said_fault(
    alloc: Global,
    line: usize,
    words: Quoting<'_>,
) -> Result<Option<InputFault>, AllocError> {
    fault(
        alloc,
        in_line(line),
        &[
            Part::Words(words.front),
            Part::Shown(words.shown),
            Part::Words(words.back),
        ],
    )
}

/// Why tokens are no JSON, as far as it is seen here.
pub fn grammar_fault(
    alloc: Global,
    tokens: &[Token<'_>],
) -> Result<Option<InputFault>, AllocError> {
    let mut open: Vec<u8> = Vec::new(alloc);
    let mut want = Want::Value;
    let mut before = Token {
        kind: Kind::Blank,
        text: b"",
        line: 1,
    };
    for token in tokens {
        if let Some(said) = wrong_at(want, innermost(&open), &before, token) {
            return said_fault(alloc, said.line, said.words);
        }
        turn(&mut open, token)?;
        want = after_token(want, innermost(&open), token);
        before = *token;
    }
    match at_end(want, innermost(&open)) {
        Some(words) => said_fault(alloc, before.line, words),
        None => Ok(None),
    }
}
