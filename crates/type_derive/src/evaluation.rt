// The type of an expression: each of its parts is gone through once, those of an operator before it.
ghost use Rattle.std.specs.Prelude.{◌≡◌, ◌&&◌, true, Some, None, IfOk, slice_get, if◌then◌else◌};
ghost use Rattle.std.specs.Option.{option_map};
ghost use Rattle.sts_scope.specs.Kinds as kind;
ghost use Rattle.sts_syntax.specs.BoardViews.{board_parameter};
ghost use Rattle.sts_syntax.specs.Trees as t;
ghost use Rattle.sts_syntax.specs.Views.{tree, trees};
ghost use Rattle.sts_scope.specs.Rules as rule;
ghost use Rattle.type_derive.specs.declared.roles.Role.TheVariants as role;
ghost use Rattle.type_derive.specs.Groups as group;
ghost use Rattle.type_derive.specs.Scopes.{place};
ghost use Rattle.type_derive.specs.Shown.{shown, all_shown, fits_some, row_shown, board_given};
ghost use Rattle.type_derive.specs.Typing as typing;
ghost use Rattle.type_derive.specs.Typing.{◌>>=◌ as bind};

use crate::boards::{BoardTakes, board_takes, goes_at, goes_some, is_function, is_given};
use crate::callees::{
    Called, constant, gives_of, made, named_callee, part_callee, routine, super_method, takes_of,
};
use crate::context::Context;
use crate::drawings::is_drawing;
use crate::parts::{assigned, both, bumped, chosen, indexed, listed, operated, prefixed};
use crate::roles::Role;
use crate::scopes::{
    Scope, name_fixed, name_found, name_kind, part_kind, part_of, part_settable, this_kind,
};
use crate::wanted::Wanted;
use sts_base::{NoMemory, Seq, Tables};
use sts_scope::{Base, Environment, Part, StaticType, flat, goes};
use sts_syntax::{BoardParameter, Expr, Node};

/// What stands behind the dot of what has a type.
pub fn part_behind(
    tables: &Tables,
    known: &Environment,
    t: Option<StaticType>,
    m: u32,
) -> Option<Part>
    ensures { result ≡ bind t (λ t. Some (rule.part_of tables.now.names known.now t m)) }
{
    match t {
        None => None,
        Some(t) => Some(part_of(tables, known, t, m)),
    }
}

/// The type of a member that is read.
fn part_type(known: &Environment, part: Option<Part>) -> Option<StaticType>
    ensures { result ≡ bind part (λ part. rule.part_kind known.now part) }
{
    match part {
        None => None,
        Some(part) => part_kind(known, part),
    }
}

/// The type of a member that may be set.
fn part_target(known: &Environment, part: Option<Part>) -> Option<StaticType>
    ensures { result ≡ bind part (λ part. bind (rule.part_kind known.now part)
        (λ u. if rule.part_settable part then Some u else None)) }
{
    match part {
        None => None,
        Some(part) => {
            if part_settable(part) {
                part_kind(known, part)
            } else {
                None
            }
        }
    }
}

/// What a member is that is called.
fn part_called(part: Option<Part>) -> Option<Called>
    ensures { (known : _) → all_shown known result
        ≡ bind part (λ part. typing.part_callee known part) }
{
    match part {
        None => None,
        Some(part) => part_callee(part),
    }
}

fn both_hold(a: bool, b: bool) -> bool
    ensures { result ≡ (a && b) }
{
    a && b
}

/// What is given by what is called with arguments that fit, or don't.
fn given_where(known: &Environment, called: Called, fits: bool) -> Option<StaticType>
    ensures { result ≡ if fits then (shown known.now called).gives else None }
{
    if fits { gives_of(known, called) } else { None }
}

/// The type of a list literal whose items go to the first one's type, or don't.
fn listed_where(t: StaticType, fits: bool) -> Option<StaticType>
    ensures { result ≡ if fits then kind.array_of t else None }
{
    if fits { listed(Some(t)) } else { None }
}

/// A type that is given where all fits.
fn where_fits(t: StaticType, fits: bool) -> Option<StaticType>
    ensures { result ≡ if fits then Some t else None }
{
    if fits { Some(t) } else { None }
}

/// What a call of the board takes at a place.
fn parameter_at(takes: &[BoardParameter], i: usize) -> Option<BoardParameter>
    ensures { result ≡ slice_get takes.now i }
{
    match takes.get(i) {
        None => None,
        Some(to) => Some(*to),
    }
}

/// The type of an expression.
#[cycle(types)]
pub fn type_of(
    wanted: &mut Wanted,
    context: &Context,
    scope: &Scope,
    role: Role,
    e: &Expr,
) -> Result<Option<StaticType>, NoMemory>
    ensures { IfOk result (λ u. u ≡ typing.type_of context.now.tables.now context.now.known.now (place scope.now) role
        (tree e.now)) }
{
    match &e.node {
        Node::Num(_) => Ok(Some(flat(Base::Number))),
        Node::Text(_) => Ok(Some(flat(Base::Text))),
        Node::Truth(_) => Ok(Some(flat(Base::Boolean))),
        Node::Null => Ok(Some(flat(Base::Null))),
        Node::This => Ok(this_kind(scope.this)),
        Node::Name(x) => {
            let found = name_found(context.tables, context.known, scope, *x);
            wanted.note_found(context.known, found)?;
            Ok(name_kind(context.known, scope, found))
        }
        Node::Unary(_, _)
        | Node::Binary(_, _, _)
        | Node::Both(_, _)
        | Node::Either(_, _)
        | Node::Choice(_, _, _)
        | Node::Set(_, _, _)
        | Node::Bump { .. } => operator_type(wanted, context, scope, e),
        Node::Member(a, m) => {
            if constant(context.tables, context.known, scope, a, *m).is_some() {
                return Ok(Some(flat(Base::Number)));
            }
            let s = type_of(wanted, context, scope, Role::Free, a)?;
            let part = part_behind(context.tables, context.known, s, *m);
            wanted.note_part(context.known, part)?;
            Ok(part_type(context.known, part))
        }
        Node::Item(a, i) => {
            let s = type_of(wanted, context, scope, Role::Free, a)?;
            let u = type_of(wanted, context, scope, Role::Free, i)?;
            Ok(indexed(s, u))
        }
        Node::Items(all) => list_type(wanted, context, scope, role, e.at, all.as_slice()),
        Node::Call(_, _) | Node::SuperCall(_, _) | Node::Make(_, _) => {
            call_type(wanted, context, scope, e)
        }
        Node::Handler(_) => Ok(None),
    }
}

/// The type of an operator with its operands, whatever its place does with it.
#[cycle(types)]
fn operator_type(
    wanted: &mut Wanted,
    context: &Context,
    scope: &Scope,
    e: &Expr,
) -> Result<Option<StaticType>, NoMemory>
    requires { group.is_operation (tree e.now) ≡ true }
    ensures { IfOk result (λ u. (r : _) → u ≡ typing.type_of context.now.tables.now context.now.known.now
        (place scope.now) r (tree e.now)) }
{
    match &e.node {
        Node::Unary(op, a) => {
            let s = type_of(wanted, context, scope, Role::Free, a)?;
            Ok(prefixed(*op, s))
        }
        Node::Binary(op, a, b) => {
            let s = type_of(wanted, context, scope, Role::Free, a)?;
            let u = type_of(wanted, context, scope, Role::Free, b)?;
            Ok(operated(context.known, *op, s, u))
        }
        Node::Both(a, b) => {
            let s = type_of(wanted, context, scope, Role::Free, a)?;
            let u = type_of(wanted, context, scope, Role::Free, b)?;
            Ok(both(s, u))
        }
        Node::Either(a, b) => {
            let s = type_of(wanted, context, scope, Role::Free, a)?;
            let u = type_of(wanted, context, scope, Role::Free, b)?;
            Ok(both(s, u))
        }
        Node::Choice(q, a, b) => {
            let v = type_of(wanted, context, scope, Role::Free, q)?;
            let s = type_of(wanted, context, scope, Role::Free, a)?;
            let u = type_of(wanted, context, scope, Role::Free, b)?;
            Ok(chosen(context.known, v, s, u))
        }
        Node::Set(op, x, a) => {
            let u = target_type(wanted, context, scope, x)?;
            let s = type_of(wanted, context, scope, Role::Given, a)?;
            Ok(assigned(context.known, *op, u, s))
        }
        Node::Bump { target, .. } => {
            let u = target_type(wanted, context, scope, target)?;
            Ok(bumped(u))
        }
        _ => unreachable!(),
    }
}

/// The type of a target that may be set.
#[cycle(types)]
fn target_type(
    wanted: &mut Wanted,
    context: &Context,
    scope: &Scope,
    x: &Expr,
) -> Result<Option<StaticType>, NoMemory>
    ensures { IfOk result (λ u. u ≡ bind (typing.type_of context.now.tables.now context.now.known.now
        (place scope.now) role.Free (tree x.now))
        (λ t. if typing.settable context.now.tables.now context.now.known.now (place scope.now)
        (tree x.now) then Some t else None)) }
{
    match &x.node {
        Node::Name(n) => {
            let found = name_found(context.tables, context.known, scope, *n);
            wanted.note_found(context.known, found)?;
            if name_fixed(context.known, scope, found) {
                return Ok(None);
            }
            Ok(name_kind(context.known, scope, found))
        }
        Node::Member(a, m) => {
            if constant(context.tables, context.known, scope, a, *m).is_some() {
                return Ok(None);
            }
            let s = type_of(wanted, context, scope, Role::Free, a)?;
            let part = part_behind(context.tables, context.known, s, *m);
            wanted.note_part(context.known, part)?;
            Ok(part_target(context.known, part))
        }
        Node::Item(a, i) => {
            let s = type_of(wanted, context, scope, Role::Free, a)?;
            let u = type_of(wanted, context, scope, Role::Free, i)?;
            Ok(indexed(s, u))
        }
        _ => Ok(None),
    }
}

/// The type of a list literal.
#[cycle(types)]
fn list_type(
    wanted: &mut Wanted,
    context: &Context,
    scope: &Scope,
    role: Role,
    at: u32,
    all: &[Expr],
) -> Result<Option<StaticType>, NoMemory>
    ensures { IfOk result (λ u. u ≡ typing.type_of context.now.tables.now context.now.known.now (place scope.now) role
        (t.Items at (trees all.now))) }
{
    match all {
        [] => {
            if is_given(role) {
                Ok(Some(flat(Base::Empty)))
            } else {
                Ok(None)
            }
        }
        [first, ..] => match type_of(wanted, context, scope, Role::Free, first)? {
            None => Ok(None),
            Some(s) => {
                let mut fits = true;
                for i in 1..all.len() {
                    let u = type_of(wanted, context, scope, Role::Given, &all[i])?;
                    let goes = goes_some(context.known, u, s);
                    fits = both_hold(fits, goes);
                }
                Ok(listed_where(s, fits))
            }
        },
    }
}

/// The type of a call or of `new`, whatever its place does with it.
#[cycle(types)]
fn call_type(
    wanted: &mut Wanted,
    context: &Context,
    scope: &Scope,
    e: &Expr,
) -> Result<Option<StaticType>, NoMemory>
    requires { group.is_call (tree e.now) ≡ true }
    ensures { IfOk result (λ u. (r : _) → u ≡ typing.type_of context.now.tables.now context.now.known.now
        (place scope.now) r (tree e.now)) }
{
    match &e.node {
        Node::Call(f, args) => {
            let row = board_takes(context.tables, context.known, scope, f);
            if row.is_some() {
                return board_type(wanted, context, scope, row, args);
            }
            let called = callee(wanted, context, scope, f)?;
            called_type(wanted, context, scope, called, args.as_slice())
        }
        Node::SuperCall(method, args) => match method {
            None => Ok(None),
            Some(m) => {
                let called = routine(super_method(context.known, scope.this, *m));
                wanted.note_called(context.known, called)?;
                called_type(wanted, context, scope, called, args.as_slice())
            }
        },
        Node::Make(x, args) => {
            let called = made(name_found(context.tables, context.known, scope, *x));
            called_type(wanted, context, scope, called, args.as_slice())
        }
        _ => unreachable!(),
    }
}

/// What is called.
#[cycle(types)]
fn callee(
    wanted: &mut Wanted,
    context: &Context,
    scope: &Scope,
    f: &Expr,
) -> Result<Option<Called>, NoMemory>
    ensures { IfOk result (λ d. all_shown context.now.known.now d
        ≡ typing.callee_of context.now.tables.now context.now.known.now (place scope.now) (tree f.now)) }
{
    match &f.node {
        Node::Name(x) => {
            let found = name_found(context.tables, context.known, scope, *x);
            wanted.note_found(context.known, found)?;
            Ok(named_callee(found))
        }
        Node::Member(a, m) => {
            let s = type_of(wanted, context, scope, Role::Free, a)?;
            let part = part_behind(context.tables, context.known, s, *m);
            wanted.note_part(context.known, part)?;
            Ok(part_called(part))
        }
        _ => Ok(None),
    }
}

/// The type of a call of this with some arguments.
#[cycle(types)]
fn called_type(
    wanted: &mut Wanted,
    context: &Context,
    scope: &Scope,
    called: Option<Called>,
    args: &[Expr],
) -> Result<Option<StaticType>, NoMemory>
    ensures { IfOk result (λ u. u ≡ typing.called context.now.known.now
        (all_shown context.now.known.now called)
        (typing.types_of context.now.tables.now context.now.known.now (place scope.now) (trees args.now))) }
{
    match called {
        None => Ok(None),
        Some(called) => {
            let takes = takes_of(context.known, &called);
            let mut fits = true;
            for i in 0..args.len() {
                let u = type_of(wanted, context, scope, Role::Given, &args[i])?;
                let goes = goes_at(context.known, u, takes, i);
                fits = both_hold(fits, goes);
            }
            let all = both_hold(fits, takes.len() <= args.len());
            Ok(given_where(context.known, called, all))
        }
    }
}

/// Whether an argument of a call of the board fits.
#[cycle(types)]
fn fits_board(
    wanted: &mut Wanted,
    context: &Context,
    scope: &Scope,
    to: Option<BoardParameter>,
    a: &Expr,
) -> Result<bool, NoMemory>
    ensures { IfOk result (λ b. b ≡ fits_some context.now.tables.now context.now.known.now (place scope.now)
        (option_map board_parameter to) (tree a.now)) }
{
    let kind = match to {
        None => return Ok(false),
        Some(BoardParameter::Handler) => {
            return Ok(is_function(context.tables, context.known, scope, a));
        }
        Some(BoardParameter::Drawing) => return Ok(is_drawing(context.tables, a)),
        Some(BoardParameter::Number) => flat(Base::Number),
        Some(BoardParameter::Text) => flat(Base::Text),
    };
    let s = type_of(wanted, context, scope, Role::Given, a)?;
    Ok(goes_some(context.known, s, kind))
}

/// The type of a call of the board, if it is one.
#[cycle(types)]
fn board_type(
    wanted: &mut Wanted,
    context: &Context,
    scope: &Scope,
    row: Option<BoardTakes>,
    args: &Seq<Expr>,
) -> Result<Option<StaticType>, NoMemory>
    ensures { IfOk result (λ u. u ≡ board_given context.now.tables.now context.now.known.now (place scope.now)
        (option_map row_shown row) (trees args.now)) }
{
    match row {
        None => Ok(None),
        Some(row) => {
            let takes = row.takes;
            let args = args.as_slice();
            let mut fits = true;
            for i in 0..args.len() {
                let to = parameter_at(takes, i);
                let goes = fits_board(wanted, context, scope, to, &args[i])?;
                fits = both_hold(fits, goes);
            }
            let all = both_hold(fits, takes.len() <= args.len());
            Ok(where_fits(row.gives, all))
        }
    }
}
