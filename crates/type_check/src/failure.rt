// The first failure of an expression, else its type: each of its parts is gone through once, in text order, before itself.
ghost use Rattle.std.specs.Prelude.{◌≡◌, ◌≤◌, ◌&&◌, ◌++◌, ◌∷◌, [], Some, None, length, drop, map, IfOk, IfErr, OnOk, if◌then◌else◌};
ghost use Rattle.sts_base.specs.declared.refused.Code.TheVariants as code;
ghost use Rattle.sts_syntax.specs.BoardViews.{board_parameter};
ghost use Rattle.sts_syntax.specs.Trees as t;
ghost use Rattle.sts_syntax.specs.Views.{tree, trees, routine, parameters, optional_expression, optional_annotation, statement, statements, declaration, declarations, optional_written};
ghost use Rattle.sts_scope.specs.Failures.{Finds, ◌then◌};
ghost use Rattle.sts_scope.specs.Places as name;
ghost use Rattle.sts_scope.specs.Rules as rule;
ghost use Rattle.type_derive.specs.declared.roles.Role.TheVariants as role;
ghost use Rattle.type_derive.specs.Scopes.{place, naming, Extends};
ghost use Rattle.type_derive.specs.Typing as typing;
ghost use Rattle.sts_scope.specs.Kinds as kind;
ghost use Rattle.type_check.specs.Bounds.{optional_boxed};
ghost use Rattle.type_check.specs.Contexts as c;
ghost use Rattle.type_derive.specs.Nodes as node;
ghost use Rattle.type_check.specs.Seen.{is_served, is_test, initial_kind};

use crate::bounds::{
    bound, check_local, check_parameter_types, fits, is_boolean, is_list, is_nothing, kind_role,
    shape_role,
};
use crate::nodes::{
    board_call_seen, call_seen, callee, is_called, is_served, items_seen, make_seen, member_seen,
    name_seen, settable, super_call_seen, this_seen,
};
use crate::places::enter_loop;
use crate::seen::{Seen, always, own, plain};
use sts_base::{Code, Refused, Seq};
use sts_scope::{Base, StaticType, flat, is_dollar, or_no_memory, unless};
use sts_syntax::{Binding, BoardCall, BoardParameter, Body, Expr, Form, Node, Param, Shape, Stmt};
use text_headings::check_written;
use type_derive::{
    Context, Role, Scope, board_callee, both, bump_kind, chosen, constant, declare, enter,
    handler_result, handler_scope, indexed, is_alone, is_given, leave, operated, prefixed,
    set_kind,
};

/// An expression: its first failure, else its type and what stands behind its dot.
#[cycle(walk)]
pub fn expression(context: &Context, scope: &Scope, role: Role, e: &Expr) -> Result<Seen, Refused>
    ensures found { Finds result (c.failure context.now (place scope.now) role (tree e.now)) }
    ensures seen { IfOk result (λ s. s ≡ c.seen_of context.now (place scope.now) role (tree e.now)) }
{
    let at = e.at;
    match &e.node {
        Node::Num(_) => Ok(always(Base::Number)),
        Node::Text(_) => Ok(always(Base::Text)),
        Node::Truth(_) => Ok(always(Base::Boolean)),
        Node::Null => Ok(always(Base::Null)),
        Node::This => this_seen(scope, at),
        Node::Name(x) => name_seen(context, scope, role, *x, at),
        Node::Unary(op, a) => unary(context, scope, *op, a, at),
        Node::Binary(op, a, b) => binary(context, scope, *op, a, b, at),
        Node::Both(a, b) | Node::Either(a, b) => joined(context, scope, a, b, at),
        Node::Item(a, i) => item(context, scope, a, i, at),
        Node::Choice(q, a, b) => choice(context, scope, q, a, b, at),
        Node::Set(op, x, a) => setting(context, scope, *op, x, a, at),
        Node::Bump { target, by, late } => bumping(context, scope, target, *by, *late, at),
        Node::Member(a, m) => member(context, scope, role, e, a, *m),
        Node::Items(all) => items(context, scope, role, all.as_slice(), at),
        Node::Call(f, args) => call(context, scope, role, f, args.as_slice(), at),
        Node::SuperCall(m, args) => super_call(context, scope, role, *m, args.as_slice(), at),
        Node::Make(x, args) => make(context, scope, role, *x, args.as_slice(), at),
        Node::Handler(body) => serving(context, scope, role, body, at),
    }
}

/// A prefix operator and its operand. As for the other operators, it doesn't matter what their place does with it.
#[cycle(walk)]
fn unary(context: &Context, scope: &Scope, op: u8, a: &Expr, at: u32) -> Result<Seen, Refused>
    ensures found { Finds result (c.failure context.now (place scope.now) role.Free (t.Unary at op (tree a.now))) }
    ensures seen { IfOk result (λ s. s ≡ c.seen_of context.now (place scope.now) role.Free
        (t.Unary at op (tree a.now))) }
{
    let s = expression(context, scope, Role::Free, a)?;
    own(prefixed(op, s.kind), Code::Mismatch, at)
}

/// An operator between two operands.
#[cycle(walk)]
fn binary(
    context: &Context,
    scope: &Scope,
    op: u8,
    a: &Expr,
    b: &Expr,
    at: u32,
) -> Result<Seen, Refused>
    ensures found { Finds result (c.failure context.now (place scope.now) role.Free
        (t.Binary at op (tree a.now) (tree b.now))) }
    ensures seen { IfOk result (λ s. s ≡ c.seen_of context.now (place scope.now) role.Free
        (t.Binary at op (tree a.now) (tree b.now))) }
{
    let s = expression(context, scope, Role::Free, a)?;
    let u = expression(context, scope, Role::Free, b)?;
    own(
        operated(context.known, op, s.kind, u.kind),
        Code::Mismatch,
        at,
    )
}

/// `&&` and `||`, of which one fails as the other would.
#[cycle(walk)]
fn joined(context: &Context, scope: &Scope, a: &Expr, b: &Expr, at: u32) -> Result<Seen, Refused>
    ensures found { Finds result (c.failure context.now (place scope.now) role.Free
        (t.Both at (tree a.now) (tree b.now))) }
    ensures seen { IfOk result (λ s. s ≡ c.seen_of context.now (place scope.now) role.Free
        (t.Both at (tree a.now) (tree b.now))) }
{
    let s = expression(context, scope, Role::Free, a)?;
    let u = expression(context, scope, Role::Free, b)?;
    own(both(s.kind, u.kind), Code::Mismatch, at)
}

/// An item of a list.
#[cycle(walk)]
fn item(context: &Context, scope: &Scope, a: &Expr, i: &Expr, at: u32) -> Result<Seen, Refused>
    ensures found { Finds result (c.failure context.now (place scope.now) role.Free
        (t.Item at (tree a.now) (tree i.now))) }
    ensures seen { IfOk result (λ s. s ≡ c.seen_of context.now (place scope.now) role.Free
        (t.Item at (tree a.now) (tree i.now))) }
{
    let s = expression(context, scope, Role::Free, a)?;
    let u = expression(context, scope, Role::Free, i)?;
    own(indexed(s.kind, u.kind), Code::Mismatch, at)
}

/// A choice.
#[cycle(walk)]
fn choice(
    context: &Context,
    scope: &Scope,
    q: &Expr,
    a: &Expr,
    b: &Expr,
    at: u32,
) -> Result<Seen, Refused>
    ensures found { Finds result (c.failure context.now (place scope.now) role.Free
        (t.Choice at (tree q.now) (tree a.now) (tree b.now))) }
    ensures seen { IfOk result (λ s. s ≡ c.seen_of context.now (place scope.now) role.Free
        (t.Choice at (tree q.now) (tree a.now) (tree b.now))) }
{
    let v = expression(context, scope, Role::Free, q)?;
    let s = expression(context, scope, Role::Free, a)?;
    let u = expression(context, scope, Role::Free, b)?;
    own(
        chosen(context.known, v.kind, s.kind, u.kind),
        Code::Mismatch,
        at,
    )
}

/// An assignment.
#[cycle(walk)]
fn setting(
    context: &Context,
    scope: &Scope,
    op: Option<u8>,
    x: &Expr,
    a: &Expr,
    at: u32,
) -> Result<Seen, Refused>
    ensures found { Finds result (c.failure context.now (place scope.now) role.Free
        (t.Set at op (tree x.now) (tree a.now))) }
    ensures seen { IfOk result (λ s. s ≡ c.seen_of context.now (place scope.now) role.Free
        (t.Set at op (tree x.now) (tree a.now))) }
{
    let u = expression(context, scope, Role::Free, x)?;
    let s = expression(context, scope, Role::Given, a)?;
    let can = settable(context, scope, x, u.part);
    own(
        set_kind(context.known, op, can, u.kind, s.kind),
        Code::Mismatch,
        at,
    )
}

/// `++` and `--`.
#[cycle(walk)]
fn bumping(
    context: &Context,
    scope: &Scope,
    x: &Expr,
    by: i32,
    late: bool,
    at: u32,
) -> Result<Seen, Refused>
    ensures found { Finds result (c.failure context.now (place scope.now) role.Free (t.Bump at (tree x.now) by late)) }
    ensures seen { IfOk result (λ s. s ≡ c.seen_of context.now (place scope.now) role.Free
        (t.Bump at (tree x.now) by late)) }
{
    let u = expression(context, scope, Role::Free, x)?;
    let can = settable(context, scope, x, u.part);
    own(bump_kind(can, u.kind), Code::Mismatch, at)
}

/// What stands behind a dot: e is `a.m`.
#[cycle(walk)]
fn member(
    context: &Context,
    scope: &Scope,
    role: Role,
    e: &Expr,
    a: &Expr,
    m: u32,
) -> Result<Seen, Refused>
    requires whole { tree e.now ≡ t.Member e.now.at (tree a.now) m }
    ensures found { Finds result (c.failure context.now (place scope.now) role (t.Member e.now.at (tree a.now) m)) }
    ensures seen { IfOk result (λ s. s ≡ c.seen_of context.now (place scope.now) role
        (t.Member e.now.at (tree a.now) m)) }
{
    let at = e.at;
    if constant(context.tables, context.known, scope, a, m).is_some() {
        return Ok(always(Base::Number));
    }
    if board_callee(context.tables, context.known, scope, e).is_some() {
        unless(is_called(role), Code::BadHandler, at)?;
        return Ok(plain(None));
    }
    let s = expression(context, scope, Role::Free, a)?;
    member_seen(context, role, s.kind, m, at)
}

/// A function expression, where it stands.
#[cycle(walk)]
fn serving(
    context: &Context,
    scope: &Scope,
    role: Role,
    body: &Body,
    at: u32,
) -> Result<Seen, Refused>
    ensures found { Finds result (c.failure context.now (place scope.now) role (t.Handler at (routine body.now))) }
    ensures seen { IfOk result (λ s. s ≡ c.seen_of context.now (place scope.now) role
        (t.Handler at (routine body.now))) }
{
    let serves = handler(context, scope, body)?;
    unless(serves_there(role, serves), Code::BadHandler, at)?;
    Ok(plain(None))
}

/// What the place of an argument does with it.
fn role_at(takes: &[BoardParameter], i: usize) -> Role
    ensures { result ≡ typing.role_of (map board_parameter (drop i takes.now)) }
{
    match takes.get(i) {
        None => Role::Given,
        Some(to) => match to {
            BoardParameter::Handler => Role::Served,
            BoardParameter::Number => Role::Given,
            BoardParameter::Text => Role::Given,
            BoardParameter::Drawing => Role::Given,
        },
    }
}

/// What a call takes that may be one of the board.
fn taken(board: Option<BoardCall>) -> &'static [BoardParameter]
    ensures { map board_parameter result.now ≡ c.taken board }
{
    match board {
        None => &[],
        Some(call) => call.takes(),
    }
}

/// Adds the type of an argument.
fn add(kinds: &mut Seq<Option<StaticType>>, kind: Option<StaticType>) -> Result<(), Refused>
    ensures ok { OnOk result (kinds.new ≡ kinds.old ++ kind ∷ []) }
    ensures err { IfErr result (λ e. e ≡ Refused.NoMemory) }
{
    or_no_memory(kinds.push(kind))
}

/// Arguments from one on: their first failure, else their types.
#[cycle(walk)]
pub fn kinds_of(
    context: &Context,
    scope: &Scope,
    board: Option<BoardCall>,
    from: usize,
    all: &[Expr],
) -> Result<Seq<Option<StaticType>>, Refused>
    requires within { from ≤ length all.now }
    ensures found { Finds result (c.failures context.now (place scope.now) (drop from (c.taken board))
        (trees (drop from all.now))) }
    ensures kinds { IfOk result (λ os. os ≡ c.kinds_of context.now (place scope.now) (drop from (c.taken board))
        (trees (drop from all.now))) }
{
    let takes = taken(board);
    let mut kinds = Seq::new(context.alloc);
    for i in from..all.len() {
        let s = expression(context, scope, role_at(takes, i), &all[i])?;
        add(&mut kinds, s.kind)?;
    }
    Ok(kinds)
}

/// The type of `[]`, where its place gives it one.
fn empty_kind(role: Role) -> Option<StaticType>
    ensures { result ≡ if typing.is_given role then Some kind.empty else None }
{
    if is_given(role) {
        Some(flat(Base::Empty))
    } else {
        None
    }
}

/// A list literal.
#[cycle(walk)]
fn items(
    context: &Context,
    scope: &Scope,
    role: Role,
    all: &[Expr],
    at: u32,
) -> Result<Seen, Refused>
    ensures found { Finds result (c.failure context.now (place scope.now) role (t.Items at (trees all.now))) }
    ensures seen { IfOk result (λ s. s ≡ c.seen_of context.now (place scope.now) role (t.Items at (trees all.now))) }
{
    match all {
        [] => own(empty_kind(role), Code::Mismatch, at),
        [first, ..] => {
            let s = expression(context, scope, Role::Free, first)?;
            let kinds = kinds_of(context, scope, None, 1, all)?;
            items_seen(context, s.kind, kinds.as_slice(), at)
        }
    }
}

/// A call.
#[cycle(walk)]
fn call(
    context: &Context,
    scope: &Scope,
    role: Role,
    f: &Expr,
    args: &[Expr],
    at: u32,
) -> Result<Seen, Refused>
    ensures found { Finds result (c.failure context.now (place scope.now) role
        (t.Call at (tree f.now) (trees args.now))) }
    ensures seen { IfOk result (λ s. s ≡ c.seen_of context.now (place scope.now) role
        (t.Call at (tree f.now) (trees args.now))) }
{
    match board_callee(context.tables, context.known, scope, f) {
        Some(board) => {
            let kinds = kinds_of(context, scope, Some(board), 0, args)?;
            board_call_seen(context, scope, board, kinds.as_slice(), args, at)
        }
        None => {
            let s = expression(context, scope, Role::Called, f)?;
            let kinds = kinds_of(context, scope, None, 0, args)?;
            let called = callee(context, scope, f, s.part);
            call_seen(context, called, kinds.as_slice(), at)
        }
    }
}

/// `super(..)` elsewhere than at the head of a constructor, and `super.m(..)`.
#[cycle(walk)]
fn super_call(
    context: &Context,
    scope: &Scope,
    role: Role,
    m: Option<u32>,
    args: &[Expr],
    at: u32,
) -> Result<Seen, Refused>
    ensures found { Finds result (c.failure context.now (place scope.now) role (t.SuperCall at m (trees args.now))) }
    ensures seen { IfOk result (λ s. s ≡ c.seen_of context.now (place scope.now) role
        (t.SuperCall at m (trees args.now))) }
{
    let kinds = kinds_of(context, scope, None, 0, args)?;
    match m {
        None => Err(Refused::Program {
            code: Code::Mismatch,
            at,
        }),
        Some(m) => super_call_seen(context, scope, m, kinds.as_slice(), at),
    }
}

/// `new` of a class.
#[cycle(walk)]
fn make(
    context: &Context,
    scope: &Scope,
    role: Role,
    x: u32,
    args: &[Expr],
    at: u32,
) -> Result<Seen, Refused>
    ensures found { Finds result (c.failure context.now (place scope.now) role (t.Make at x (trees args.now))) }
    ensures seen { IfOk result (λ s. s ≡ c.seen_of context.now (place scope.now) role (t.Make at x (trees args.now))) }
{
    let kinds = kinds_of(context, scope, None, 0, args)?;
    make_seen(context, scope, x, kinds.as_slice(), at)
}

/// Whether a function expression with these parameters and this result may be a handler.
fn may_serve(params: &[Param], gives: Option<StaticType>) -> bool
    ensures { result ≡ (node.takes_nothing (parameters params.now) && rule.is_nothing gives) }
{
    match params {
        [] => is_nothing(gives),
        [_, ..] => false,
    }
}

/// Whether it stands where a handler is wanted and may be one.
fn serves_there(role: Role, serves: bool) -> bool
    ensures { result ≡ (is_served role && serves) }
{
    is_served(role) && serves
}

/// A function expression: its first failure, else whether it serves.
#[cycle(walk)]
fn handler(context: &Context, scope: &Scope, body: &Body) -> Result<bool, Refused>
    ensures found { Finds result (c.handler_failure context.now (place scope.now) (routine body.now)) }
    ensures serves { IfOk result (λ b. b ≡ node.serves_itself context.now.tables.now
        (naming context.now) context.now.known.now (place scope.now) (routine body.now)) }
{
    check_parameter_types(context.classes, body.params.as_slice())?;
    check_written(context.classes, body.at, &body.gives)?;
    let gives = handler_result(
        context,
        scope,
        body.params.as_slice(),
        &body.gives,
        body.stmts.as_slice(),
    )?;
    let mut inside = or_no_memory(handler_scope(context, &*scope, body.params.as_slice(), gives))?;
    statements(context, &mut inside, body.stmts.as_slice())?;
    Ok(may_serve(body.params.as_slice(), gives))
}

/// Statements of a block.
#[cycle(walk)]
pub fn statements(context: &Context, scope: &mut Scope, all: &[Stmt]) -> Result<(), Refused>
    ensures found { Finds result (c.statements_failure context.now (place scope.old) (statements all.now)) }
    ensures place { OnOk result (Extends (place scope.old) (place scope.new)) }
{
    for i in 0..all.len() {
        statement(context, scope, &all[i])?;
    }
    Ok(())
}

/// A statement that has a block of its own.
#[cycle(walk)]
fn nested(context: &Context, scope: &mut Scope, s: &Stmt) -> Result<(), Refused>
    ensures found { Finds result (c.statement_failure context.now (name.inner (place scope.old)) (statement s.now)) }
    ensures place { OnOk result (place scope.new ≡ place scope.old) }
{
    let mark = enter(scope);
    statement(context, scope, s)?;
    leave(scope, mark);
    Ok(())
}

/// Statements that have a block of their own.
#[cycle(walk)]
fn block(context: &Context, scope: &mut Scope, all: &[Stmt]) -> Result<(), Refused>
    ensures found { Finds result (c.statements_failure context.now (name.inner (place scope.old))
        (statements all.now)) }
    ensures place { OnOk result (place scope.new ≡ place scope.old) }
{
    let mark = enter(scope);
    statements(context, scope, all)?;
    leave(scope, mark);
    Ok(())
}

/// A statement.
#[cycle(walk)]
pub fn statement(context: &Context, scope: &mut Scope, s: &Stmt) -> Result<(), Refused>
    ensures found { Finds result (c.statement_failure context.now (place scope.old) (statement s.now)) }
    ensures place { OnOk result (place scope.new ≡ c.after context.now (place scope.old) (statement s.now)) }
{
    let at = s.at;
    match &s.form {
        Form::Block(all) => block(context, scope, all.as_slice()),
        Form::Let { fixed, each } => declarations_failure(context, scope, *fixed, each.as_slice()),
        Form::If(test, a, other) => match other {
            None => tested(context, scope, test, a, at),
            Some(b) => if_else(context, scope, test, a, b, at),
        },
        Form::While(test, a) => tested(context, scope, test, a, at),
        Form::DoWhile(a, test) => do_while(context, scope, a, test, at),
        Form::For(first, test, step, a) => {
            for_loop(context, scope, Turns { first, test, step }, a, at)
        }
        Form::ForOf {
            fixed,
            name,
            list,
            body,
        } => {
            let each = Each {
                fixed: *fixed,
                name: *name,
                list,
            };
            for_of(context, scope, each, body, at)
        }
        Form::Return(value) => match value {
            None => unless(is_nothing(scope.gives), Code::Mismatch, at),
            Some(e) => returned(context, scope, e, at),
        },
        Form::Break => Ok(()),
        Form::Continue => Ok(()),
        Form::Plain(e) => {
            expression(context, scope, Role::Free, e)?;
            Ok(())
        }
        Form::Empty => Ok(()),
    }
}

/// `if` without `else`, and `while`, which fails as that would.
#[cycle(walk)]
fn tested(
    context: &Context,
    scope: &mut Scope,
    test: &Expr,
    a: &Stmt,
    at: u32,
) -> Result<(), Refused>
    ensures found { Finds result (c.statement_failure context.now (place scope.old)
        (t.IfOnly at (tree test.now) (statement a.now))) }
    ensures place { OnOk result (place scope.new ≡ place scope.old) }
{
    let s = expression(context, scope, Role::Free, test)?;
    nested(context, scope, a)?;
    unless(is_boolean(s.kind), Code::Mismatch, at)
}

/// `if (test) a else b`
#[cycle(walk)]
fn if_else(
    context: &Context,
    scope: &mut Scope,
    test: &Expr,
    a: &Stmt,
    b: &Stmt,
    at: u32,
) -> Result<(), Refused>
    ensures found { Finds result (c.statement_failure context.now (place scope.old)
        (t.IfElse at (tree test.now) (statement a.now) (statement b.now))) }
    ensures place { OnOk result (place scope.new ≡ place scope.old) }
{
    let s = expression(context, scope, Role::Free, test)?;
    nested(context, scope, a)?;
    nested(context, scope, b)?;
    unless(is_boolean(s.kind), Code::Mismatch, at)
}

/// `do a while (test)`
#[cycle(walk)]
fn do_while(
    context: &Context,
    scope: &mut Scope,
    a: &Stmt,
    test: &Expr,
    at: u32,
) -> Result<(), Refused>
    ensures found { Finds result (c.statement_failure context.now (place scope.old)
        (t.DoWhile at (statement a.now) (tree test.now))) }
    ensures place { OnOk result (place scope.new ≡ place scope.old) }
{
    nested(context, scope, a)?;
    let s = expression(context, scope, Role::Free, test)?;
    unless(is_boolean(s.kind), Code::Mismatch, at)
}

/// `first; test; step` in front of what a loop does
#[derive(Clone, Copy)]
struct Turns<'a> {
    first: &'a Option<Box<Stmt>>,
    test: &'a Option<Expr>,
    step: &'a Option<Expr>,
}

/// `for (first; test; step) s`
#[cycle(walk)]
fn for_loop(
    context: &Context,
    scope: &mut Scope,
    turns: Turns,
    a: &Stmt,
    at: u32,
) -> Result<(), Refused>
    ensures found { Finds result (c.statement_failure context.now (place scope.old)
        (t.For at (optional_boxed turns.entry.first.now) (optional_expression turns.entry.test.now)
        (optional_expression turns.entry.step.now) (statement a.now))) }
    ensures place { OnOk result (place scope.new ≡ place scope.old) }
{
    let mark = enter(scope);
    first_of(context, scope, turns.first)?;
    let tests = optional(context, scope, turns.test)?;
    optional(context, scope, turns.step)?;
    nested(context, scope, a)?;
    leave(scope, mark);
    unless(tests, Code::Mismatch, at)?;
    Ok(())
}

/// What stands first in a `for`, which may be left out.
#[cycle(walk)]
fn first_of(context: &Context, scope: &mut Scope, first: &Option<Box<Stmt>>) -> Result<(), Refused>
    ensures found { Finds result (c.first_failure context.now (place scope.old) (optional_boxed first.now)) }
    ensures place { OnOk result (place scope.new
        ≡ c.after_first context.now (place scope.old) (optional_boxed first.now)) }
{
    match first {
        None => Ok(()),
        Some(first) => statement(context, scope, first),
    }
}

/// A test or a step, which may be left out: its first failure, else whether it is left out or a truth value.
#[cycle(walk)]
fn optional(context: &Context, scope: &Scope, e: &Option<Expr>) -> Result<bool, Refused>
    ensures found { Finds result (c.optional_failure context.now (place scope.now) (optional_expression e.now)) }
    ensures tests { IfOk result (λ b. b ≡ is_test context.now.tables.now context.now.known.now (place scope.now)
        (optional_expression e.now)) }
{
    match e {
        None => Ok(true),
        Some(e) => {
            let s = expression(context, scope, Role::Free, e)?;
            Ok(is_boolean(s.kind))
        }
    }
}

/// `let name of list` in front of what a loop does; it may be `const`
#[derive(Clone, Copy)]
struct Each<'a> {
    fixed: bool,
    name: u32,
    list: &'a Expr,
}

/// `for (let name of list) s`
#[cycle(walk)]
fn for_of(
    context: &Context,
    scope: &mut Scope,
    each: Each,
    a: &Stmt,
    at: u32,
) -> Result<(), Refused>
    ensures found { Finds result (c.statement_failure context.now (place scope.old)
        (t.ForOf at each.entry.fixed each.entry.name (tree each.entry.list.now) (statement a.now))) }
    ensures place { OnOk result (place scope.new ≡ place scope.old) }
{
    let s = expression(context, scope, Role::Free, each.list)?;
    let mark = enter_loop(scope, each.name, s.kind, each.fixed)?;
    nested(context, scope, a)?;
    leave(scope, mark);
    unless(!is_dollar(context.tables, each.name), Code::UnknownName, at)?;
    unless(is_list(s.kind), Code::Mismatch, at)?;
    Ok(())
}

/// `return` with a value
#[cycle(walk)]
fn returned(context: &Context, scope: &Scope, e: &Expr, at: u32) -> Result<(), Refused>
    ensures { Finds result (c.statement_failure context.now (place scope.now) (t.Return at (t.present (tree e.now)))) }
{
    let s = expression(context, scope, kind_role(scope.gives), e)?;
    unless(fits(context.known, s.kind, scope.gives), Code::Mismatch, at)
}

/// An initialiser: its first failure, else its type if it gives one.
#[cycle(walk)]
pub fn initial(
    context: &Context,
    scope: &Scope,
    shape: &Option<Shape>,
    first: &Option<Expr>,
) -> Result<Option<StaticType>, Refused>
    ensures found { Finds result (c.initial_failure context.now (place scope.now) (optional_annotation shape.now)
        (optional_expression first.now)) }
    ensures kind { IfOk result (λ kind. kind
        ≡ initial_kind context.now.tables.now context.now.known.now (place scope.now)
        (optional_annotation shape.now) (optional_expression first.now)) }
{
    match first {
        None => Ok(None),
        Some(e) => {
            if shape.is_none() && is_alone(e) {
                return Ok(None);
            }
            let s = expression(context, scope, shape_role(shape), e)?;
            Ok(s.kind)
        }
    }
}

/// A declared name in a block.
#[cycle(walk)]
fn declaration_failure(
    context: &Context,
    scope: &mut Scope,
    fixed: bool,
    b: &Binding,
) -> Result<(), Refused>
    ensures found { Finds result (c.declaration_failure context.now (place scope.old) (declaration b.now)) }
    ensures place { OnOk result (place scope.new ≡ c.declared context.now (place scope.old) fixed (declaration b.now)) }
{
    check_written(context.classes, b.at, &b.shape)?;
    let first = initial(context, scope, &b.shape, &b.first)?;
    check_local(context, scope, b.name, b.at)?;
    let kind = bound(context, &b.shape, b.first.is_some(), first, b.at)?;
    or_no_memory(declare(scope, b.name, kind, fixed))
}

/// Declared names in a block.
#[cycle(walk)]
fn declarations_failure(
    context: &Context,
    scope: &mut Scope,
    fixed: bool,
    each: &[Binding],
) -> Result<(), Refused>
    ensures found { Finds result (c.declarations_failure context.now (place scope.old) fixed (declarations each.now)) }
    ensures place { OnOk result (place scope.new
        ≡ c.all_declared context.now (place scope.old) fixed (declarations each.now)) }
{
    for i in 0..each.len() {
        declaration_failure(context, scope, fixed, &each[i])?;
    }
    Ok(())
}
