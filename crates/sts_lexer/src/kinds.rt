// The token that stands at a place.
ghost use Rattle.std.specs.Prelude.{◌≡◌, ℕ, ◌+◌, ◌<◌, ◌≤◌, ◌^◌, length, slice_index, false, Some, IsTrue, IfOk, IfSome, IfNone, OnOk};
ghost use Rattle.sts_base.specs.declared.tables.Tables.{Tables};
ghost use Rattle.sts_lexer.specs.Bytes as bytes;
ghost use Rattle.sts_lexer.specs.Lexemes.{Lexeme, Spells};
ghost use Rattle.sts_lexer.specs.Tokens.{Reads};
ghost use Rattle.sts_lexer.specs.Tables.{GrewBy, AreDistinct};
ghost use Rattle.sts_lexer.specs.Entries.{IsIndexed};
ghost use Rattle.sts_lexer.specs.Uses.{NumbersOne};

use crate::bytes::{Class, begins_name, is_quote, run_end};
use crate::entries::{Index, entry_of};
use crate::marks::mark_at;
use crate::numbers::number_at;
use crate::quotes::quoted_at;
use crate::spaces::opens_comment;
use crate::token::TokenKind;
use crate::words::reserved;
use std::alloc::Global;
use sts_base::{NoMemory, Tables};

/// The name or the reserved word that begins at a place, and the place behind it.
fn name_at(
    alloc: Global,
    text: &[u8],
    at: usize,
    tables: &mut Tables,
    index: &mut Index,
) -> Result<(TokenKind, usize), NoMemory>
    requires here { at < length text.now }
    requires begins { IsTrue (bytes.begins_name (slice_index text.now at)) }
    requires room { length tables.old.names < 2 ^ 32 }
    requires indexed { IsIndexed tables.old index.old }
    ensures reads { IfOk result (λ r. Reads tables.new text.now at r.0 r.1) }
    ensures in_order { IfOk result (λ r. NumbersOne tables.old tables.new (Some r)) }
    ensures within { IfOk result (λ r. (at < r.1) × (r.1 ≤ length text.now)) }
    ensures indexed { OnOk result (IsIndexed tables.new index.new) }
    ensures distinct { AreDistinct tables.new }
    ensures grew { GrewBy 1 tables.old tables.new }
{
    let end = run_end(text, at, Class::Name);
    let name = &text[at..end];
    let entry = entry_of(alloc, &mut tables.names, &mut index.names, name)?;
    match reserved(name) {
        Some(word) => Ok((TokenKind::Word(word, entry), end)),
        None => Ok((TokenKind::Name(entry), end)),
    }
}

/// The text literal that opens at a place, and the place behind it. None where it isn't whole.
fn text_at(
    alloc: Global,
    text: &[u8],
    at: usize,
    tables: &mut Tables,
    index: &mut Index,
) -> Result<Option<(TokenKind, usize)>, NoMemory>
    requires short { length text.now ≤ bytes.most_bytes }
    requires here { at < length text.now }
    requires opens { IsTrue (bytes.is_quote (slice_index text.now at)) }
    requires room { length tables.old.texts < 2 ^ 32 }
    requires indexed { IsIndexed tables.old index.old }
    ensures reads { IfOk result (λ found. IfSome found (λ r. Reads tables.new text.now at r.0 r.1)) }
    ensures in_order { IfOk result (NumbersOne tables.old tables.new) }
    ensures within { IfOk result (λ found. IfSome found (λ r. (at < r.1) × (r.1 ≤ length text.now))) }
    ensures none { IfOk result
        (λ found. IfNone found ((lexeme : Lexeme) (end : ℕ) → Spells text.now lexeme at end → ⊥)) }
    ensures indexed { OnOk result (IsIndexed tables.new index.new) }
    ensures distinct { AreDistinct tables.new }
    ensures grew { GrewBy 1 tables.old tables.new }
{
    let Some((value, end)) = quoted_at(alloc, text, at)? else {
        return Ok(None);
    };
    let entry = entry_of(alloc, &mut tables.texts, &mut index.texts, value.as_slice())?;
    Ok(Some((TokenKind::Text(entry), end)))
}

/// The number or mark that stands at a place, and the place behind it.
fn plain_at(text: &[u8], at: usize) -> Option<(TokenKind, usize)>
    requires short { length text.now ≤ bytes.most_bytes }
    requires here { at < length text.now }
    requires no_name { bytes.begins_name (slice_index text.now at) ≡ false }
    requires no_quote { bytes.is_quote (slice_index text.now at) ≡ false }
    ensures reads { IfSome result (λ r. (tables : Tables) → Reads tables text.now at r.0 r.1) }
    ensures in_order { (tables : Tables) → NumbersOne tables tables result }
    ensures within { IfSome result (λ r. (at < r.1) × (r.1 ≤ length text.now)) }
    ensures none { IfNone result ((lexeme : Lexeme) (end : ℕ) → Spells text.now lexeme at end → ⊥) }
{
    if text[at].is_ascii_digit() {
        let (value, end) = number_at(text, at)?;
        return Some((TokenKind::Num(value.cast_signed()), end));
    }
    if opens_comment(text, at) {
        return None;
    }
    let (mark, end) = mark_at(text, at)?;
    Some((TokenKind::Mark(mark), end))
}

/// The token that stands at a place, and the place behind it. None where no token can be read.
pub fn kind_at(
    alloc: Global,
    text: &[u8],
    at: usize,
    tables: &mut Tables,
    index: &mut Index,
) -> Result<Option<(TokenKind, usize)>, NoMemory>
    requires short { length text.now ≤ bytes.most_bytes }
    requires here { at < length text.now }
    requires names_room { length tables.old.names < 2 ^ 32 }
    requires texts_room { length tables.old.texts < 2 ^ 32 }
    requires indexed { IsIndexed tables.old index.old }
    ensures reads { IfOk result (λ found. IfSome found (λ r. Reads tables.new text.now at r.0 r.1)) }
    ensures in_order { IfOk result (NumbersOne tables.old tables.new) }
    ensures within { IfOk result (λ found. IfSome found (λ r. (at < r.1) × (r.1 ≤ length text.now))) }
    ensures none { IfOk result
        (λ found. IfNone found ((lexeme : Lexeme) (end : ℕ) → Spells text.now lexeme at end → ⊥)) }
    ensures indexed { OnOk result (IsIndexed tables.new index.new) }
    ensures distinct { AreDistinct tables.new }
    ensures grew { GrewBy 1 tables.old tables.new }
{
    let byte = text[at];
    if begins_name(byte) {
        return Ok(Some(name_at(alloc, text, at, tables, index)?));
    }
    if is_quote(byte) {
        return text_at(alloc, text, at, tables, index);
    }
    Ok(plain_at(text, at))
}
