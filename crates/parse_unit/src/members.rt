// Members of classes.
ghost use Rattle.std.specs.Prelude.{◌≡◌, ◌<◌, ◌+◌, false, Some, [], length};
ghost use Rattle.sts_syntax.specs.Trees as t;
ghost use Rattle.sts_syntax.specs.Programs.{class_member, class_members};
ghost use Rattle.sts_syntax.specs.Views.{declaration, routine, parameters, optional_annotation, optional_expression, statements};
ghost use Rattle.sts_grammar.specs.Source as source;
ghost use Rattle.sts_grammar.specs.Ends.{may_end, declaration_continues};
ghost use Rattle.sts_grammar.specs.Found.{member_name_of};
ghost use Rattle.sts_grammar.specs.ReadHeadings.{is_found};
ghost use Rattle.sts_grammar.specs.Units.{is_modifier, field_continues};
ghost use Rattle.sts_grammar.specs.Reading.{statement_readers};
ghost use Rattle.parse_expr.specs.Gives.{source, Gives, found};
ghost use Rattle.sts_grammar.specs.ReadUnits as read;

use parse_expr::{Reader, Unread, block, initialiser};
use sts_base::Seq;
use sts_lexer::{Mark, TokenKind, Word};
use sts_syntax::{Body, Member, build};

/// Whether a token is `public`, `private` or `protected`.
fn is_modifier(kind: TokenKind) -> bool
    ensures { result ≡ is_modifier kind }
{
    match kind {
        TokenKind::Word(Word::Public, _) => true,
        TokenKind::Word(Word::Private, _) => true,
        TokenKind::Word(Word::Protected, _) => true,
        _ => false,
    }
}

/// Whether a token may be a member's name.
fn names_member(kind: TokenKind) -> bool
    ensures { result ≡ is_found (member_name_of kind) }
{
    match kind {
        TokenKind::Name(_) => true,
        TokenKind::Word(_, _) => true,
        _ => false,
    }
}

/// Where a member's name stands: behind a modifier, if there is one.
#[tactic(auto, unfolding(sts_grammar::specs::ReadUnits::behind_modifier))]
fn behind_modifier(reader: Reader<'_>, at: usize) -> usize
    ensures { result ≡ read.behind_modifier (source reader.entry) at }
{
    if !is_modifier(reader.kind(at)) {
        return at;
    }
    if names_member(reader.kind(at + 1)) {
        at + 1
    } else {
        at
    }
}

/// Parameters, a result's type and a block.
#[tactic(auto, unfolding(sts_grammar::specs::ReadUnits::read_routine))]
pub fn read_routine(
    reader: Reader<'_>,
    room: usize,
    place: u32,
    at: usize,
) -> Result<(Body, usize), Unread>
    requires { room < usize.MAX }
    ensures { Gives (found routine) result
        (read.read_routine (source reader.entry) (statement_readers (source reader.entry) room) place at) }
{
    let (heading, end) = reader.heading(at)?;
    let held = block(reader, room, true, false, end)?;
    let body = build::body(place, heading.params, heading.gives, held.item, false);
    Ok((body, held.end))
}

/// A constructor's parameters and block.
#[tactic(auto, unfolding(sts_grammar::specs::ReadUnits::read_maker))]
fn read_maker(
    reader: Reader<'_>,
    room: usize,
    place: u32,
    at: usize,
) -> Result<(Member, usize), Unread>
    requires { room < usize.MAX }
    ensures { Gives (found class_member) result
        (read.read_maker (source reader.entry) (statement_readers (source reader.entry) room) place at) }
{
    if !reader.is_mark(at, Mark::OpenParenthesis) {
        return Err(Unread::Syntax(at));
    }
    let (params, end) = reader.parameters(at + 1)?;
    let held = block(reader, room, true, false, end)?;
    let body = build::body(place, params, None, held.item, false);
    Ok((Member::Constructor(body), held.end))
}

/// What stands behind the name of a method.
#[tactic(auto, unfolding(sts_grammar::specs::ReadUnits::read_method))]
fn read_method(
    reader: Reader<'_>,
    room: usize,
    place: u32,
    name: u32,
    at: usize,
) -> Result<(Member, usize), Unread>
    requires { room < usize.MAX }
    ensures { Gives (found class_member) result
        (read.read_method (source reader.entry) (statement_readers (source reader.entry) room) place name at) }
{
    let (body, end) = read_routine(reader, room, place, at)?;
    Ok((Member::Method { name, body }, end))
}

/// The token behind the end of a field that is whole there.
#[tactic(auto, unfolding(sts_grammar::specs::ReadUnits::read_field_end))]
fn read_field_end(reader: Reader<'_>, at: usize) -> Result<usize, Unread>
    ensures { Gives (λ j. j) result (read.read_field_end (source reader.entry) at) }
{
    if reader.is_mark(at, Mark::Comma) {
        return Err(Unread::Syntax(at));
    }
    reader.ended(at)
}

/// What stands behind the name of a field.
#[tactic(auto, unfolding(sts_grammar::specs::ReadUnits::read_field))]
fn read_field(
    reader: Reader<'_>,
    room: usize,
    place: u32,
    name: u32,
    at: usize,
) -> Result<(Member, usize), Unread>
    requires { room < usize.MAX }
    ensures { Gives (found class_member) result
        (read.read_field (source reader.entry) (statement_readers (source reader.entry) room) place name at) }
{
    let (shape, end) = reader.written_type(at)?;
    let first = initialiser(reader, room, false, end)?;
    let end = read_field_end(reader, first.end)?;
    let field = build::binding(place, name, shape, first.item);
    Ok((Member::Field(field), end))
}

/// Whether a token is the name `constructor`.
fn is_constructor(reader: Reader<'_>, at: usize) -> bool
    ensures { result ≡ read.is_constructor (source reader.entry) (source.kind (source reader.entry) at) }
{
    match reader.kind(at) {
        TokenKind::Name(name) => reader.is_spelled(name, b"constructor"),
        _ => false,
    }
}

/// A member whose name stands at a token, and the token behind it.
#[tactic(auto, unfolding(sts_grammar::specs::ReadUnits::read_named))]
fn read_named(reader: Reader<'_>, room: usize, at: usize) -> Result<(Member, usize), Unread>
    requires { room < usize.MAX }
    ensures { Gives (found class_member) result
        (read.read_named (source reader.entry) (statement_readers (source reader.entry) room) at) }
{
    let name = reader.member_name(at)?;
    let place = reader.place(at);
    if !reader.is_mark(at + 1, Mark::OpenParenthesis) {
        return read_field(reader, room, place, name, at + 1);
    }
    if is_constructor(reader, at) {
        return read_maker(reader, room, place, at + 1);
    }
    read_method(reader, room, place, name, at + 1)
}

/// The members of a class up to its `}`, with any number of `;` between them, and the token behind the `}`.
#[tactic(auto, using(crate::proofs::Turns::members_at, crate::proofs::Turns::members_put), unfolding(sts_grammar::specs::ReadUnits::read_members))]
pub fn read_members(
    reader: Reader<'_>,
    room: usize,
    at: usize,
) -> Result<(Seq<Member>, usize), Unread>
    requires { room < usize.MAX }
    ensures { Gives (found class_members) result (read.read_members (source reader.entry)
        (statement_readers (source reader.entry) room) (length reader.entry.tokens.now) [] at) }
{
    let mut all = Seq::new(reader.alloc);
    let mut next = at;
    let mut left = reader.count();
    while left > 0 {
        if reader.is_mark(next, Mark::CloseBrace) {
            return Ok((all, next + 1));
        }
        if reader.is_mark(next, Mark::Semicolon) {
            next += 1;
        } else {
            let (member, end) = read_named(reader, room, behind_modifier(reader, next))?;
            all.push(member)?;
            next = end;
        }
        left -= 1;
    }
    Err(Unread::Syntax(next))
}
