// What is called, and names of the board's interface.
ghost use Rattle.std.specs.Prelude.{◌≡◌, Some, None};
ghost use Rattle.std.specs.Option.{option_map};
ghost use Rattle.sts_syntax.specs.Views.{tree};
ghost use Rattle.sts_scope.specs.declared.known.Known.{Known as Knowledge};
ghost use Rattle.sts_scope.specs.Rules as rule;
ghost use Rattle.type_derive.specs.Scopes.{place};
ghost use Rattle.type_derive.specs.Typing as typing;
ghost use Rattle.type_derive.specs.Typing.{◌>>=◌ as bind};
ghost use Rattle.type_derive.specs.Shown.{shown, all_shown};

use crate::scopes::{Scope, kind_at, name_found};
use sts_base::Tables;
use sts_scope::{Base, DeclarationKind, Environment, Found, Part, StaticType, This, flat, sort_of};
use sts_syntax::{BoardCall, Expr, Node, board_call, board_constant};

/// What is called, but for calls of the board.
#[derive(Clone, Copy)]
pub enum Called {
    /// a function or method, by its number among the declarations
    Routine(usize),
    /// `push` of an array of items of this type
    Push(StaticType),
    /// `pop` of an array of items of this type
    Pop(StaticType),
    /// the constructor of the class of this number
    Maker(u32),
}

/// What a function or method takes.
pub fn takes_at(known: &Environment, d: usize) -> &[StaticType]
    ensures { result.now ≡ rule.takes_at known.now.entries d }
{
    match known.entries().get(d) {
        None => &[],
        Some(e) => e.takes.as_slice(),
    }
}

/// What is taken of what is called.
pub fn takes_of<'a>(known: &'a Environment, called: &'a Called) -> &'a [StaticType]
    ensures { result.now ≡ (shown known.now called.now).takes }
{
    match called {
        Called::Routine(d) => takes_at(known, *d),
        Called::Push(t) => std::slice::from_ref(t),
        Called::Pop(_) => &[],
        Called::Maker(c) => known.maker_takes(*c),
    }
}

/// What it gives.
pub fn gives_of(known: &Environment, called: Called) -> Option<StaticType>
    ensures { result ≡ (shown known.now called).gives }
{
    match called {
        Called::Routine(d) => kind_at(known, d),
        Called::Push(_) => Some(flat(Base::Nothing)),
        Called::Pop(t) => Some(t),
        Called::Maker(c) => Some(flat(Base::Class(c))),
    }
}

/// What a name stands for that is called.
pub fn named_callee(found: Found) -> Option<Called>
    ensures { (known : Knowledge) → all_shown known result ≡ typing.named_callee known found }
{
    match found {
        Found::Function(d) => Some(Called::Routine(d)),
        Found::Local(_) => None,
        Found::Captured => None,
        Found::Global(_) => None,
        Found::Class(_) => None,
        Found::Unknown => None,
    }
}

/// What stands behind a dot and is called.
pub fn part_callee(part: Part) -> Option<Called>
    ensures { (known : Knowledge) → all_shown known result ≡ typing.part_callee known part }
{
    match part {
        Part::Method(d) => Some(Called::Routine(d)),
        Part::Push(t) => Some(Called::Push(t)),
        Part::Pop(t) => Some(Called::Pop(t)),
        Part::Field(_) => None,
        Part::Length => None,
        Part::Missing => None,
    }
}

/// The class that `new` makes an object of.
pub fn made(found: Found) -> Option<Called>
    ensures { (known : Knowledge) → all_shown known result ≡ typing.made known found }
{
    match found {
        Found::Class(c) => Some(Called::Maker(c)),
        Found::Local(_) => None,
        Found::Captured => None,
        Found::Global(_) => None,
        Found::Function(_) => None,
        Found::Unknown => None,
    }
}

/// A function or method that is called.
pub fn routine(d: Option<usize>) -> Option<Called>
    ensures { (known : Knowledge) → all_shown known result
        ≡ bind d (λ d. Some (typing.callee (rule.takes_at known.entries d) (rule.kind_at known d))) }
{
    match d {
        Some(d) => Some(Called::Routine(d)),
        None => None,
    }
}

fn method_of(known: &Environment, d: usize) -> Option<usize>
    ensures { result ≡ typing.method_of known.now (Some d) }
{
    match sort_of(known.entries().as_slice(), d) {
        Some(DeclarationKind::Method) => Some(d),
        Some(DeclarationKind::Field) => None,
        Some(DeclarationKind::Function) => None,
        Some(DeclarationKind::Class(_)) => None,
        Some(DeclarationKind::Global { fixed: _ }) => None,
        None => None,
    }
}

/// The method of a base that `super.m` is.
pub fn super_method(known: &Environment, this: This, m: u32) -> Option<usize>
    ensures { result ≡ typing.super_method known.now this m }
{
    match this {
        This::Object(c) => {
            match known.inherited(c, m) {
                None => None,
                Some(d) => method_of(known, d),
            }
        }
        This::Hidden(_) => None,
        This::Nowhere => None,
    }
}

/// The bytes of a name; none where it has no number in the table.
pub fn spelling(tables: &Tables, x: u32) -> &[u8]
    ensures { result.now ≡ typing.spelling tables.now x }
{
    match tables.names.get(x as usize) {
        None => &[],
        Some(bytes) => bytes.as_slice(),
    }
}

/// The name in front of a dot that may name a part of the board's interface.
fn space(tables: &Tables, known: &Environment, scope: &Scope, e: &Expr) -> Option<u32>
    ensures { option_map (typing.spelling tables.now) result
        ≡ typing.space tables.now known.now (place scope.now) (tree e.now) }
{
    match &e.node {
        Node::Name(x) => match name_found(tables, known, scope, *x) {
            Found::Unknown => Some(*x),
            Found::Local(_) => None,
            Found::Captured => None,
            Found::Global(_) => None,
            Found::Function(_) => None,
            Found::Class(_) => None,
        },
        _ => None,
    }
}

/// The value of a constant of the board.
pub fn constant(
    tables: &Tables,
    known: &Environment,
    scope: &Scope,
    a: &Expr,
    m: u32,
) -> Option<i32>
    ensures { result ≡ typing.constant_of tables.now known.now (place scope.now) (tree a.now) m }
{
    match space(tables, known, scope, a) {
        None => None,
        Some(x) => board_constant(spelling(tables, x), spelling(tables, m)),
    }
}

fn own_call(tables: &Tables, library: bool, name: Option<u32>) -> Option<BoardCall>
    ensures { result ≡ typing.own_call library
        (option_map (typing.spelling tables.now) name) }
{
    if !library {
        return None;
    }
    match name {
        None => None,
        Some(x) => board_call(&[], spelling(tables, x)),
    }
}

/// The call of the board that is called.
pub fn board_callee(
    tables: &Tables,
    known: &Environment,
    scope: &Scope,
    f: &Expr,
) -> Option<BoardCall>
    ensures { result ≡ typing.board_callee tables.now known.now (place scope.now) (tree f.now) }
{
    match &f.node {
        Node::Member(a, m) => match space(tables, known, scope, a) {
            None => None,
            Some(x) => board_call(spelling(tables, x), spelling(tables, *m)),
        },
        Node::Name(_) => own_call(tables, scope.library, space(tables, known, scope, f)),
        _ => None,
    }
}
