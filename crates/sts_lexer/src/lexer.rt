// The tokens of a text.
ghost use Rattle.std.specs.Prelude.{◌≡◌, ◌+◌, ◌<◌, ◌≤◌, ◌^◌, length, IfOk, IfErr};
ghost use Rattle.std.specs.Str.{IsUtf8};
ghost use Rattle.sts_base.specs.Distinct.{IsDistinct};
ghost use Rattle.sts_lexer.specs.Bytes.{most_bytes};
ghost use Rattle.sts_lexer.specs.Entries.{IsIndexed};
ghost use Rattle.sts_lexer.specs.Refusals.{RefusesBytes, cause};
ghost use Rattle.sts_lexer.specs.Tables.{Extends, GrewBy, AreDistinct};
ghost use Rattle.sts_lexer.specs.Tokens.{IsTokenization};
ghost use Rattle.sts_lexer.specs.Uses.{NumbersInOrder};

use crate::bytes::{has_break, is_quote};
use crate::entries::{Index, index_of};
use crate::kinds::kind_at;
use crate::spaces::{gap_end, start};
use crate::token::{Token, TokenKind};
use std::alloc::Global;
use sts_base::{Code, NoMemory, Refused, Seq, Span, Tables};

/// The most bytes of a text.
const MOST_BYTES: usize = 65_536;

fn no_memory(_: NoMemory) -> Refused
    ensures { result ≡ Refused.NoMemory }
{
    Refused::NoMemory
}

/// The code for a place where no token can be read, by the byte that stands there.
fn cause(byte: u8) -> Code
    ensures { result ≡ cause byte }
{
    if is_quote(byte) {
        Code::BadText
    } else if byte.is_ascii_digit() {
        Code::BadNumber
    } else {
        Code::BadCharacter
    }
}

fn make_token(kind: TokenKind, from: usize, upto: usize, broken: bool) -> Token
    requires from { from ≤ most_bytes }
    requires upto { upto ≤ most_bytes }
    ensures kind { result.kind ≡ kind }
    ensures from { result.span.from ≡ from }
    ensures upto { result.span.upto ≡ upto }
    ensures broken { result.broken ≡ broken }
{
    Token {
        kind,
        span: Span {
            from: from as u32,
            upto: upto as u32,
        },
        broken,
    }
}

/// Reads the tokens of a text that is short and UTF-8.
fn read_all(
    alloc: Global,
    text: &[u8],
    tables: &mut Tables,
    index: &mut Index,
) -> Result<Seq<Token>, Refused>
    requires short { length text.now ≤ most_bytes }
    requires utf8 { IsUtf8 text.now }
    requires few_names { length tables.old.names < 2 ^ 31 }
    requires few_texts { length tables.old.texts < 2 ^ 31 }
    requires indexed { IsIndexed tables.old index.old }
    ensures tokens { IfOk result (IsTokenization tables.new text.now) }
    ensures in_order { IfOk result (NumbersInOrder tables.old tables.new) }
    ensures refused { IfErr result (RefusesBytes text.now) }
    ensures distinct { AreDistinct tables.new }
    ensures grew { GrewBy most_bytes tables.old tables.new }
{
    let mut all = Seq::new(alloc);
    let mut at = start(text);
    'reading: loop {
        let from = gap_end(text, at);
        let broken = has_break(text, at, from);
        if from == text.len() {
            all.push(make_token(TokenKind::Finish, from, from, broken))
                .map_err(no_memory)?;
            return Ok(all);
        }
        let found = kind_at(alloc, text, from, tables, index).map_err(no_memory)?;
        let Some((kind, upto)) = found else {
            return Err(Refused::Program {
                code: cause(text[from]),
                at: from as u32,
            });
        };
        all.push(make_token(kind, from, upto, broken))
            .map_err(no_memory)?;
        at = upto;
    }
}

/// The tokens of a text; the last is `Finish`. Names, reserved words and texts that the tables lack are taken up at
/// their ends.
///
/// Refusals, tried in this order: `TextTooLong` at 0 for more than 65,536 bytes; `NotUtf8` at the first byte of the
/// first ill-formed sequence; then at the first place where no token can be read `BadText` for a text that is not
/// whole or has another escape, `BadNumber` for digits that are no number, and `BadCharacter` for everything else, an
/// unclosed comment included. After a refusal the tables have their old entries, and may have more behind them.
pub fn tokens(alloc: Global, text: &[u8], tables: &mut Tables) -> Result<Seq<Token>, Refused>
    requires distinct_names { IsDistinct tables.old.names }
    requires distinct_texts { IsDistinct tables.old.texts }
    requires few_names { length tables.old.names < 2 ^ 31 }
    requires few_texts { length tables.old.texts < 2 ^ 31 }
    ensures tokens { IfOk result (IsTokenization tables.new text.now) }
    ensures in_order { IfOk result (NumbersInOrder tables.old tables.new) }
    ensures refused { IfErr result (RefusesBytes text.now) }
    ensures names_extended { Extends tables.old.names tables.new.names }
    ensures texts_extended { Extends tables.old.texts tables.new.texts }
    ensures names_distinct { IsDistinct tables.new.names }
    ensures texts_distinct { IsDistinct tables.new.texts }
    ensures names_added { length tables.new.names ≤ length tables.old.names + most_bytes }
    ensures texts_added { length tables.new.texts ≤ length tables.old.texts + most_bytes }
{
    if text.len() > MOST_BYTES {
        return Err(Refused::Program {
            code: Code::TextTooLong,
            at: 0,
        });
    }
    if let Err(fault) = str::from_utf8(text) {
        return Err(Refused::Program {
            code: Code::NotUtf8,
            at: fault.valid_up_to() as u32,
        });
    }
    let mut index = index_of(alloc, tables).map_err(no_memory)?;
    read_all(alloc, text, tables, &mut index)
}
