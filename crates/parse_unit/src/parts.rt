// Classes, functions and statements of the main program.
ghost use Rattle.std.specs.Prelude.{◌≡◌, ◌<◌, ◌+◌, ◌≤◌, ◌==◌, Some, None, [], length};
ghost use Rattle.sts_syntax.specs.Programs.{top_level, top_levels};
ghost use Rattle.sts_grammar.specs.Source as source;
ghost use Rattle.sts_grammar.specs.Reading.{statement_readers};
ghost use Rattle.parse_expr.specs.Gives.{source, Gives, found};
ghost use Rattle.parse_unit.specs.Bases.{base_of};
ghost use Rattle.sts_grammar.specs.ReadUnits as read;

use crate::members::{read_members, read_routine};
use parse_expr::{Reader, Unread, statement};
use sts_base::Seq;
use sts_lexer::{Mark, TokenKind, Word};
use sts_syntax::Item;

/// The base of a class.
#[derive(Clone, Copy, Drop)]
pub struct Base {
    /// the number of its name, where there is a base
    pub name: Option<u32>,
    /// the place of its name; 0 without a base
    pub at: u32,
}

/// The base of a class, where one is written, and the token behind it.
fn read_base(reader: Reader<'_>, at: usize) -> Result<(Base, usize), Unread>
    ensures { Gives (found base_of) result
        (read.read_base (source reader.entry) (source.is_word Word.Extends (source.kind (source reader.entry) at)) at) }
{
    if !reader.is_word(at, Word::Extends) {
        return Ok((Base { name: None, at: 0 }, at));
    }
    let base = Base {
        name: Some(reader.name(at + 1)?),
        at: reader.place(at + 1),
    };
    Ok((base, at + 2))
}

/// What stands behind the word `class`.
#[tactic(auto, unfolding(sts_grammar::specs::ReadUnits::read_class))]
fn read_class(reader: Reader<'_>, room: usize, at: usize) -> Result<(Item, usize), Unread>
    requires { room < usize.MAX }
    ensures { Gives (found top_level) result
        (read.read_class (source reader.entry) (statement_readers (source reader.entry) room) at) }
{
    let name = reader.name(at)?;
    let (base, end) = read_base(reader, at + 1)?;
    if !reader.is_mark(end, Mark::OpenBrace) {
        return Err(Unread::Syntax(end));
    }
    let (members, end) = read_members(reader, room, end + 1)?;
    let class = Item::Class {
        at: reader.place(at),
        name,
        base: base.name,
        base_at: base.at,
        members,
    };
    Ok((class, end))
}

/// What stands behind the word `function`.
#[tactic(auto, unfolding(sts_grammar::specs::ReadUnits::read_function))]
fn read_function(reader: Reader<'_>, room: usize, at: usize) -> Result<(Item, usize), Unread>
    requires { room < usize.MAX }
    ensures { Gives (found top_level) result
        (read.read_function (source reader.entry) (statement_readers (source reader.entry) room) at) }
{
    let name = reader.name(at)?;
    let (body, end) = read_routine(reader, room, reader.place(at), at + 1)?;
    Ok((Item::Function { name, body }, end))
}

/// A statement of the main program.
#[tactic(auto, unfolding(sts_grammar::specs::ReadUnits::read_main))]
fn read_main(reader: Reader<'_>, room: usize, at: usize) -> Result<(Item, usize), Unread>
    requires { room < usize.MAX }
    ensures { Gives (found top_level) result (read.read_main (statement_readers (source reader.entry) room) at) }
{
    let a = statement(reader, room, false, false, at)?;
    Ok((Item::Stmt(a.item), a.end))
}

/// A part of a text, of at most a nesting, and the token behind it.
fn read_part(reader: Reader<'_>, room: usize, at: usize) -> Result<(Item, usize), Unread>
    requires least { 2 ≤ room }
    requires most { room < usize.MAX }
    ensures { Gives (found top_level) result
        (read.read_part (source reader.entry) room at (source.kind (source reader.entry) at)) }
{
    match reader.kind(at) {
        TokenKind::Word(Word::Class, _) => read_class(reader, room - 2, at + 1),
        TokenKind::Word(Word::Function, _) => read_function(reader, room - 1, at + 1),
        _ => read_main(reader, room, at),
    }
}

/// Whether a token is the last one.
fn is_last(reader: Reader<'_>, at: usize) -> bool
    ensures { result ≡ (length reader.entry.tokens.now == at + 1) }
{
    let count = reader.count();
    at < count && count - at == 1
}

/// The parts of a text from a token on, up to the last token.
#[tactic(auto, using(crate::proofs::Turns::parts_at, crate::proofs::Turns::parts_put), unfolding(sts_grammar::specs::ReadUnits::read_parts))]
pub fn read_parts(reader: Reader<'_>, room: usize) -> Result<Seq<Item>, Unread>
    requires least { 2 ≤ room }
    requires most { room < usize.MAX }
    ensures { Gives top_levels result
        (read.read_parts (source reader.entry) room (length reader.entry.tokens.now) [] 0) }
{
    let mut all = Seq::new(reader.alloc);
    let mut next = 0;
    let mut left = reader.count();
    while left > 0 {
        if matches!(reader.kind(next), TokenKind::Finish) {
            return if is_last(reader, next) {
                Ok(all)
            } else {
                Err(Unread::Syntax(next))
            };
        }
        let (part, end) = read_part(reader, room, next)?;
        all.push(part)?;
        next = end;
        left -= 1;
    }
    Err(Unread::Syntax(next))
}
