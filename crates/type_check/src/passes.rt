// The nodes of a text, in text order.
ghost use Rattle.std.specs.Prelude.{◌≡◌, ◌+◌, ◌^◌, ◌<◌, Some, None, length, false, IfOk};
ghost use Rattle.sts_syntax.specs.Programs.{class_member, class_members, top_level, top_levels};
ghost use Rattle.sts_syntax.specs.Views.{trees, statement, statements, declaration, declarations, routine};
ghost use Rattle.sts_scope.specs.Entries as entry;
ghost use Rattle.sts_scope.specs.Failures.{Finds, ◌then◌};
ghost use Rattle.sts_scope.specs.Lookup as look;
ghost use Rattle.sts_scope.specs.Places as name;
ghost use Rattle.sts_scope.specs.declared.known.This.TheVariants as this;
ghost use Rattle.text_headings.specs.Standing.{classes_before, IsItemAt, IsTextAt};
ghost use Rattle.type_derive.specs.Passes as pass;
ghost use Rattle.type_derive.specs.Scopes.{place, naming};
ghost use Rattle.type_check.specs.Contexts as c;
ghost use Rattle.type_check.specs.Texts.{member_nodes, super_failure, unmade_failure};

use crate::arguments::all_go;
use crate::bounds::bound;
use crate::failure::{initial, kinds_of, statement, statements};
use crate::overrides::behind_member;
use sts_base::{Code, Refused};
use sts_scope::{Base, ClassHead, StaticType, This, flat, or_no_memory, unless};
use sts_syntax::{Binding, Body, Expr, Form, Item, Member, Stmt};
use text_headings::{check_written, class_at, globals_in};
use type_derive::{Context, Scope, head_of, kind_at, outer_scope, routine_scope};

/// A field or a global, which is declared outside all functions.
fn check_field(context: &Context, this: This, b: &Binding) -> Result<(), Refused>
    ensures { Finds result (pass.outside_failure context.now.tables.now (naming context.now) context.now.known.now this
        (declaration b.now)) }
{
    check_written(context.classes, b.at, &b.shape)?;
    let scope = outer_scope(context.alloc, this);
    let first = initial(context, &scope, &b.shape, &b.first)?;
    let at = b.at;
    bound(context, &b.shape, b.first.is_some(), first, at)?;
    Ok(())
}

/// Globals.
fn check_globals(context: &Context, each: &[Binding]) -> Result<(), Refused>
    ensures { Finds result (pass.globals_failure context.now.tables.now (naming context.now) context.now.known.now
        (declarations each.now)) }
{
    for i in 0..each.len() {
        check_field(context, This::Nowhere, &each[i])?;
    }
    Ok(())
}

/// A statement of the main program that declares no globals.
fn check_outer(context: &Context, s: &Stmt) -> Result<(), Refused>
    ensures { Finds result (c.statement_failure context.now (name.outside this.Nowhere false None) (statement s.now)) }
{
    let mut scope = outer_scope(context.alloc, This::Nowhere);
    statement(context, &mut scope, s)
}

/// A statement of the main program.
fn check_main(context: &Context, s: &Stmt) -> Result<(), Refused>
    ensures { Finds result (pass.main_failure context.now.tables.now (naming context.now) context.now.known.now
        (statement s.now)) }
{
    match &s.form {
        Form::Let { fixed: _, each } => check_globals(context, each.as_slice()),
        Form::Block(_) => check_outer(context, s),
        Form::If(_, _, _) => check_outer(context, s),
        Form::While(_, _) => check_outer(context, s),
        Form::DoWhile(_, _) => check_outer(context, s),
        Form::For(_, _, _, _) => check_outer(context, s),
        Form::ForOf {
            fixed: _,
            name: _,
            list: _,
            body: _,
        } => check_outer(context, s),
        Form::Return(_) => check_outer(context, s),
        Form::Break => check_outer(context, s),
        Form::Continue => check_outer(context, s),
        Form::Plain(_) => check_outer(context, s),
        Form::Empty => check_outer(context, s),
    }
}

/// The statements of a function, where `this` and the result are these.
fn check_body(
    context: &Context,
    this: This,
    gives: Option<StaticType>,
    body: &Body,
) -> Result<(), Refused>
    ensures { Finds result (pass.body_failure context.now.tables.now
        (naming context.now) context.now.known.now this gives (routine body.now)) }
{
    let mut scope = or_no_memory(routine_scope(
        context.alloc,
        context.classes,
        body.params.as_slice(),
        this,
        gives,
        false,
    ))?;
    statements(context, &mut scope, body.stmts.as_slice())
}

/// The call of the base's constructor.
fn check_super(
    context: &Context,
    scope: &Scope,
    at: u32,
    b: u32,
    args: &[Expr],
) -> Result<(), Refused>
    ensures { Finds result (super_failure context.now.tables.now (naming context.now) context.now.known.now
        (place scope.now) at b (trees args.now)) }
{
    let kinds = kinds_of(context, scope, None, 0, args)?;
    let known = context.known;
    unless(
        all_go(known, kinds.as_slice(), known.maker_takes(b)),
        Code::Mismatch,
        at,
    )
}

/// The statements of a constructor without `super(..)` at its head, of a class with a base.
fn check_unmade(context: &Context, scope: &mut Scope, at: u32, all: &[Stmt]) -> Result<(), Refused>
    ensures { Finds result (unmade_failure context.now.tables.now (naming context.now) context.now.known.now
        (place scope.old) at (statements all.now)) }
{
    statements(context, scope, all)?;
    Err(Refused::Program {
        code: Code::Mismatch,
        at,
    })
}

/// The call of the base's constructor, and the statements behind it.
fn check_headed(
    context: &Context,
    scope: &mut Scope,
    at: u32,
    b: u32,
    args: &[Expr],
    rest: &[Stmt],
) -> Result<(), Refused>
    ensures { Finds result (super_failure context.now.tables.now (naming context.now) context.now.known.now
        (place scope.old) at b (trees args.now)
        then c.statements_failure context.now (place scope.old) (statements rest.now)) }
{
    check_super(context, scope, at, b, args)?;
    statements(context, scope, rest)
}

/// The statements of a constructor of a class with the base b.
fn check_made(
    context: &Context,
    scope: &mut Scope,
    at: u32,
    b: u32,
    all: &[Stmt],
) -> Result<(), Refused>
    ensures { Finds result (pass.made_failure context.now.tables.now (naming context.now) context.now.known.now
        (place scope.old) at b (statements all.now)) }
{
    match all {
        [] => check_unmade(context, scope, at, all),
        [first, rest @ ..] => match head_of(first) {
            None => check_unmade(context, scope, at, all),
            Some(head) => check_headed(context, scope, head.at, b, head.args, rest),
        },
    }
}

/// A constructor of the class with the base b.
fn check_derived(context: &Context, this: This, b: u32, body: &Body) -> Result<(), Refused>
    ensures { Finds result (pass.constructor_failure context.now.tables.now
        (naming context.now) context.now.known.now this (Some b) (routine body.now)) }
{
    let mut scope = or_no_memory(routine_scope(
        context.alloc,
        context.classes,
        body.params.as_slice(),
        this,
        Some(flat(Base::Nothing)),
        false,
    ))?;
    let at = body.at;
    check_made(context, &mut scope, at, b, body.stmts.as_slice())
}

/// The base of a class.
fn base_of(classes: &[ClassHead], c: u32) -> Option<u32>
    ensures { result ≡ look.base_of classes.now c }
{
    match classes.get(c as usize) {
        None => None,
        Some(class) => class.base,
    }
}

/// A constructor of the class c.
fn check_constructor(context: &Context, c: u32, body: &Body) -> Result<(), Refused>
    ensures { Finds result (pass.constructor_failure context.now.tables.now (naming context.now) context.now.known.now
        (this.Object c) (look.base_of context.now.known.now.classes c) (routine body.now)) }
{
    match base_of(context.known.classes(), c) {
        None => check_body(context, This::Object(c), Some(flat(Base::Nothing)), body),
        Some(b) => check_derived(context, This::Object(c), b, body),
    }
}

/// A member of the class c; the d-th declaration is the next.
fn check_member(context: &Context, c: u32, d: usize, member: &Member) -> Result<(), Refused>
    ensures { Finds result (member_nodes context.now.tables.now (naming context.now) context.now.known.now c d
        (class_member member.now)) }
{
    match member {
        Member::Field(b) => check_field(context, This::Object(c), b),
        Member::Method { name: _, body } => {
            check_body(context, This::Object(c), kind_at(context.known, d), body)
        }
        Member::Constructor(body) => check_constructor(context, c, body),
    }
}

/// The members of the class c, of which the first is the d-th declaration. The number of the declaration behind them.
fn check_members(
    context: &Context,
    c: u32,
    first: usize,
    members: &[Member],
) -> Result<usize, Refused>
    requires { first + length (entry.member_entries (naming context.now) c (class_members members.now)) < 2 ^ 64 }
    ensures found { Finds result (pass.members_nodes context.now.tables.now
        (naming context.now) context.now.known.now c first (class_members members.now)) }
    ensures next { IfOk result (λ n. n ≡ first
        + length (entry.member_entries (naming context.now) c (class_members members.now))) }
{
    let mut d = first;
    for i in 0..members.len() {
        check_member(context, c, d, &members[i])?;
        d = behind_member(context, c, d, &members[i]);
    }
    Ok(d)
}

/// A part of a text, whose first declaration is the d-th. The number of the declaration behind it.
fn check_item(context: &Context, d: usize, item: &Item) -> Result<usize, Refused>
    requires room { d + length (entry.item_entries (naming context.now) (classes_before context.now.known.now.entries d)
        (top_level item.now)) < 2 ^ 64 }
    requires stands { IsItemAt (naming context.now) context.now.known.now.entries d (top_level item.now) }
    ensures found { Finds result (pass.item_nodes context.now.tables.now (naming context.now) context.now.known.now
        (classes_before context.now.known.now.entries d) d (top_level item.now)) }
    ensures next { IfOk result (λ n. n ≡ d + length
        (entry.item_entries (naming context.now) (classes_before context.now.known.now.entries d)
        (top_level item.now))) }
{
    match item {
        Item::Class {
            at: _,
            name: _,
            base: _,
            base_at: _,
            members,
        } => {
            let c = class_at(context.known, d);
            check_members(context, c, d + 1, members.as_slice())
        }
        Item::Function { name: _, body } => {
            check_body(context, This::Nowhere, kind_at(context.known, d), body)?;
            Ok(d + 1)
        }
        Item::Stmt(s) => {
            check_main(context, s)?;
            Ok(d + globals_in(s))
        }
    }
}

/// The nodes of a text, whose first declaration is this one.
pub fn check_nodes(context: &Context, first: usize, items: &[Item]) -> Result<(), Refused>
    requires { IsTextAt (naming context.now) context.now.known.now.entries first (top_levels items.now) }
    ensures { Finds result (pass.nodes_failure context.now.tables.now (naming context.now) context.now.known.now
        (classes_before context.now.known.now.entries first) first (top_levels items.now)) }
{
    // (all declarations are in memory: that bounds every number of one)
    let _count = context.known.entries().len();
    let mut d = first;
    for i in 0..items.len() {
        d = check_item(context, d, &items[i])?;
    }
    Ok(())
}
