// What declarations make known, and the first value that a function returns.
ghost use Rattle.std.specs.Prelude.{◌≡◌, ◌++◌, ◌∷◌, [], true, length, OnOk, IfOk};
ghost use Rattle.sts_syntax.specs.Views.{tree, declarations, statement, statements, optional_annotation, optional_expression, optional_written};
ghost use Rattle.sts_syntax.specs.Trees as t;
ghost use Rattle.sts_scope.specs.Places as name;
ghost use Rattle.type_derive.specs.Groups as group;
ghost use Rattle.type_derive.specs.Scopes.{place, left, naming};
ghost use Rattle.type_derive.specs.Returns as given;

use crate::context::Context;
use crate::evaluation::type_of;
use crate::locals::Mark;
use crate::roles::Role;
use crate::scopes::Scope;
use crate::wanted::Wanted;
use sts_base::NoMemory;
use sts_scope::{Local, StaticType, is_array, item, kind_of};
use sts_syntax::{Binding, Expr, Form, Node, Shape, Stmt};

/// Whether an initialiser gives no type to what it stands at: `null` or `[]`.
pub fn is_alone(e: &Expr) -> bool
    ensures { result ≡ given.is_alone (tree e.now) }
{
    match &e.node {
        Node::Null => true,
        Node::Items(items) => items.len() == 0,
        _ => false,
    }
}

/// The type of a declared name: the one that is written, else its initialiser's.
pub fn bound(
    wanted: &mut Wanted,
    context: &Context,
    scope: &Scope,
    shape: &Option<Shape>,
    first: &Option<Expr>,
) -> Result<Option<StaticType>, NoMemory>
    ensures { IfOk result (λ kind. kind ≡ given.bound context.now.tables.now (naming context.now) context.now.known.now
        (place scope.now) (optional_annotation shape.now) (optional_expression first.now)) }
{
    match shape {
        Some(shape) => Ok(kind_of(context.classes, shape)),
        None => match first {
            None => Ok(None),
            Some(e) => {
                if is_alone(e) {
                    return Ok(None);
                }
                type_of(wanted, context, scope, Role::Free, e)
            }
        },
    }
}

/// A name is known from here on.
pub fn declare(
    scope: &mut Scope,
    x: u32,
    kind: Option<StaticType>,
    fixed: bool,
) -> Result<(), NoMemory>
    ensures { OnOk result (place scope.new ≡ name.with (place scope.old) x kind fixed) }
{
    scope.locals.push(Local {
        name: x,
        kind,
        fixed,
    })
}

/// A declared name is known from here on.
#[tactic(auto, using(sts_syntax::proofs::Laws::declaration_parts))]
fn declare_binding(
    wanted: &mut Wanted,
    context: &Context,
    scope: &mut Scope,
    fixed: bool,
    b: &Binding,
) -> Result<(), NoMemory>
    ensures { OnOk result (place scope.new ≡ given.all_declared context.now.tables.now
        (naming context.now) context.now.known.now (place scope.old) fixed (declarations (b.now ∷ []))) }
{
    let kind = bound(wanted, context, scope, &b.shape, &b.first)?;
    declare(scope, b.name, kind, fixed)
}

/// Declared names are known from here on.
pub fn declare_all(
    wanted: &mut Wanted,
    context: &Context,
    scope: &mut Scope,
    fixed: bool,
    each: &[Binding],
) -> Result<(), NoMemory>
    ensures { OnOk result (place scope.new ≡ given.all_declared context.now.tables.now
        (naming context.now) context.now.known.now (place scope.old) fixed (declarations each.now)) }
{
    for i in 0..each.len() {
        declare_binding(wanted, context, scope, fixed, &each[i])?;
    }
    Ok(())
}

/// What a statement declares is known from here on.
pub fn after(
    wanted: &mut Wanted,
    context: &Context,
    scope: &mut Scope,
    s: &Stmt,
) -> Result<(), NoMemory>
    ensures { OnOk result (place scope.new ≡ given.after context.now.tables.now
        (naming context.now) context.now.known.now (place scope.old) (statement s.now)) }
{
    match &s.form {
        Form::Let { fixed, each } => {
            declare_all(wanted, context, scope, *fixed, each.as_slice())
        }
        Form::Block(_) => Ok(()),
        Form::If(_, _, _) => Ok(()),
        Form::While(_, _) => Ok(()),
        Form::DoWhile(_, _) => Ok(()),
        Form::For(_, _, _, _) => Ok(()),
        Form::ForOf {
            fixed: _,
            name: _,
            list: _,
            body: _,
        } => Ok(()),
        Form::Return(_) => Ok(()),
        Form::Break => Ok(()),
        Form::Continue => Ok(()),
        Form::Plain(_) => Ok(()),
        Form::Empty => Ok(()),
    }
}

/// A block begins.
pub fn enter(scope: &mut Scope) -> Mark
    ensures place { place scope.new ≡ name.inner (place scope.old) }
    ensures locals { result.locals ≡ length (place scope.old).locals }
    ensures block { result.block ≡ (place scope.old).block }
{
    let mark = scope.locals.mark();
    scope.locals.enter();
    mark
}

/// It ends.
pub fn leave(scope: &mut Scope, mark: Mark)
    ensures { place scope.new ≡ left (place scope.old) mark.locals mark.block }
{
    scope.locals.leave(mark);
}

/// The type of the items that a loop goes through.
pub fn items_of(t: Option<StaticType>) -> Option<StaticType>
    ensures { result ≡ given.items_of t }
{
    match t {
        None => None,
        Some(t) => { if is_array(t) { Some(item(t)) } else { None } }
    }
}

/// The first value that a statement returns: none, or its type if it has one.
#[cycle(returns)]
fn returned(
    wanted: &mut Wanted,
    context: &Context,
    scope: &mut Scope,
    s: &Stmt,
) -> Result<Option<Option<StaticType>>, NoMemory>
    ensures value { IfOk result (λ r. r ≡ given.returned context.now.tables.now
        (naming context.now) context.now.known.now (place scope.old) (statement s.now)) }
    ensures place { OnOk result (place scope.new
        ≡ given.after context.now.tables.now (naming context.now) context.now.known.now (place scope.old)
        (statement s.now)) }
{
    match &s.form {
        Form::Return(value) => match value {
            None => Ok(None),
            Some(e) => {
                let kind = type_of(wanted, context, scope, Role::Free, e)?;
                Ok(Some(kind))
            }
        },
        Form::Block(all) => returned_in_block(wanted, context, scope, all.as_slice()),
        Form::Let { fixed, each } => {
            declare_all(wanted, context, scope, *fixed, each.as_slice())?;
            Ok(None)
        }
        Form::If(_, a, other) => match returned_in_branch(wanted, context, scope, a)? {
            Some(kind) => Ok(Some(kind)),
            None => match other {
                None => Ok(None),
                Some(b) => returned_in_branch(wanted, context, scope, b),
            },
        },
        Form::While(_, _) | Form::DoWhile(_, _) | Form::For(_, _, _, _) | Form::ForOf { .. } =>
            returned_in_loop(wanted, context, scope, s),
        Form::Break => Ok(None),
        Form::Continue => Ok(None),
        Form::Plain(_) => Ok(None),
        Form::Empty => Ok(None),
    }
}

/// That of a loop.
#[cycle(returns)]
fn returned_in_loop(
    wanted: &mut Wanted,
    context: &Context,
    scope: &mut Scope,
    s: &Stmt,
) -> Result<Option<Option<StaticType>>, NoMemory>
    requires { group.is_loop (statement s.now) ≡ true }
    ensures value { IfOk result (λ r. r ≡ given.returned context.now.tables.now
        (naming context.now) context.now.known.now (place scope.old) (statement s.now)) }
    ensures place { OnOk result (place scope.new
        ≡ given.after context.now.tables.now (naming context.now) context.now.known.now (place scope.old)
        (statement s.now)) }
{
    match &s.form {
        Form::While(_, a) => returned_in_branch(wanted, context, scope, a),
        Form::DoWhile(a, _) => returned_in_branch(wanted, context, scope, a),
        Form::For(first, _, _, a) => {
            let mark = enter(scope);
            if let Some(first) = first {
                after(wanted, context, scope, first)?;
            }
            let kind = returned_in_branch(wanted, context, scope, a)?;
            leave(scope, mark);
            Ok(kind)
        }
        Form::ForOf {
            fixed,
            name,
            list,
            body,
        } => {
            let kind = type_of(wanted, context, scope, Role::Free, list)?;
            let mark = enter(scope);
            declare(scope, *name, items_of(kind), *fixed)?;
            let kind = returned_in_branch(wanted, context, scope, body)?;
            leave(scope, mark);
            Ok(kind)
        }
        _ => unreachable!(),
    }
}

/// That of a statement in a block of its own.
#[cycle(returns)]
fn returned_in_branch(
    wanted: &mut Wanted,
    context: &Context,
    scope: &mut Scope,
    s: &Stmt,
) -> Result<Option<Option<StaticType>>, NoMemory>
    ensures value { IfOk result (λ r. r ≡ given.returned context.now.tables.now
        (naming context.now) context.now.known.now (name.inner (place scope.old)) (statement s.now)) }
    ensures place { OnOk result (place scope.new ≡ place scope.old) }
{
    let mark = enter(scope);
    let kind = returned(wanted, context, scope, s)?;
    leave(scope, mark);
    Ok(kind)
}

/// That of statements in a block of their own.
#[cycle(returns)]
pub fn returned_in_block(
    wanted: &mut Wanted,
    context: &Context,
    scope: &mut Scope,
    all: &[Stmt],
) -> Result<Option<Option<StaticType>>, NoMemory>
    ensures value { IfOk result (λ r. r ≡ given.all_returned context.now.tables.now
        (naming context.now) context.now.known.now (name.inner (place scope.old)) (statements all.now)) }
    ensures place { OnOk result (place scope.new ≡ place scope.old) }
{
    let mark = enter(scope);
    for i in 0..all.len() {
        if let Some(kind) = returned(wanted, context, scope, &all[i])? {
            leave(scope, mark);
            return Ok(Some(kind));
        }
    }
    leave(scope, mark);
    Ok(None)
}
