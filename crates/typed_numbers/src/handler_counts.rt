// How many functions stand in a tree, where 32 bits count them: behind the last number there is none.
ghost use Rattle.std.specs.Prelude.{◌≡◌, ◌+◌, ◌-◌, ◌^◌, ◌<◌, min};
ghost use Rattle.std.specs.Option.{option_map};
ghost use Rattle.sts_syntax.specs.Views.{tree, trees, routine, optional_expression, optional_written, statement, statements, declaration, declarations};
ghost use Rattle.sts_scope.specs.Handlers as h;

use sts_syntax::{Binding, Body, Expr, Form, Node, Stmt};

/// The functions in an expression, counted on from a number, up to the last one of 32 bits.
#[cycle(handlers)]
fn handlers(e: &Expr, from: u32) -> u32
    ensures { result ≡ min (from + h.handlers (tree e.now)) (2 ^ 32 - 1) }
{
    match &e.node {
        Node::Num(_) | Node::Text(_) | Node::Truth(_) | Node::Null | Node::This | Node::Name(_) =>
            from,
        Node::Unary(_, a) | Node::Member(a, _) => handlers(a, from),
        Node::Bump { target, .. } => handlers(target, from),
        Node::Binary(_, a, b) | Node::Both(a, b) | Node::Either(a, b) | Node::Item(a, b) =>
            handlers(b, handlers(a, from)),
        Node::Set(_, x, a) => handlers(a, handlers(x, from)),
        Node::Choice(test, a, b) => handlers(b, handlers(a, handlers(test, from))),
        Node::Call(f, args) => handlers_of(args.as_slice(), handlers(f, from)),
        Node::SuperCall(_, args) => handlers_of(args.as_slice(), from),
        Node::Make(_, args) => handlers_of(args.as_slice(), from),
        Node::Items(items) => handlers_of(items.as_slice(), from),
        Node::Handler(body) => statements_handlers(body.stmts.as_slice(), from.saturating_add(1)),
    }
}

/// The functions in some expressions.
#[cycle(handlers)]
fn handlers_of(all: &[Expr], from: u32) -> u32
    ensures { result ≡ min (from + h.handlers_of (trees all.now)) (2 ^ 32 - 1) }
{
    let mut count = from;
    for e in all {
        count = handlers(e, count);
    }
    count
}

/// The functions in an expression that may be left out.
#[cycle(handlers)]
fn optional_handlers(e: &Option<Expr>, from: u32) -> u32
    ensures { result ≡ min (from + h.optional_handlers (optional_expression e.now)) (2 ^ 32 - 1) }
{
    match e {
        None => from,
        Some(e) => handlers(e, from),
    }
}

/// The functions in declarations.
#[cycle(handlers)]
fn declarations_handlers(all: &[Binding], from: u32) -> u32
    ensures { result ≡ min (from + h.declarations_handlers (declarations all.now)) (2 ^ 32 - 1) }
{
    let mut count = from;
    for a in all {
        count = optional_handlers(&a.first, count);
    }
    count
}

/// The functions in a statement.
#[cycle(handlers)]
fn statement_count(s: &Stmt, from: u32) -> u32
    ensures { result ≡ min (from + h.statement_handlers (statement s.now)) (2 ^ 32 - 1) }
{
    match &s.form {
        Form::Block(all) => statements_handlers(all.as_slice(), from),
        Form::Let { each, .. } => declarations_handlers(each.as_slice(), from),
        Form::If(test, a, None) => statement_count(a, handlers(test, from)),
        Form::If(test, a, Some(b)) => statement_count(b, statement_count(a, handlers(test, from))),
        Form::While(test, a) => statement_count(a, handlers(test, from)),
        Form::DoWhile(a, test) => handlers(test, statement_count(a, from)),
        Form::For(first, test, step, a) => {
            let count = optional_handlers(test, first_count(first, from));
            statement_count(a, optional_handlers(step, count))
        }
        Form::ForOf { list, body, .. } => statement_count(body, handlers(list, from)),
        Form::Return(value) => optional_handlers(value, from),
        Form::Plain(e) => handlers(e, from),
        Form::Break | Form::Continue | Form::Empty => from,
    }
}

/// The functions in the statement that a `for` begins with, where there is one.
#[cycle(handlers)]
fn first_count(first: &Option<Box<Stmt>>, from: u32) -> u32
    ensures { result
        ≡ min (from + h.first_handlers (optional_written (option_map (λ b. b.value) first.now))) (2 ^ 32 - 1) }
{
    match first {
        None => from,
        Some(first) => statement_count(first, from),
    }
}

/// The functions in some statements.
#[cycle(handlers)]
fn statements_handlers(all: &[Stmt], from: u32) -> u32
    ensures { result ≡ min (from + h.statements_handlers (statements all.now)) (2 ^ 32 - 1) }
{
    let mut count = from;
    for s in all {
        count = statement_count(s, count);
    }
    count
}

/// The functions in the statements of a function.
pub fn routine_handlers(body: &Body, from: u32) -> u32
    requires few { from + h.routine_handlers (routine body.now) < 2 ^ 32 }
    ensures { result ≡ from + h.routine_handlers (routine body.now) }
{
    statements_handlers(body.stmts.as_slice(), from)
}

/// The functions in a declaration.
#[tactic(auto, using(sts_syntax::proofs::Laws::declaration_parts))]
pub fn declared_handlers(a: &Binding, from: u32) -> u32
    requires few { from + h.declared_handlers (declaration a.now) < 2 ^ 32 }
    ensures { result ≡ from + h.declared_handlers (declaration a.now) }
{
    optional_handlers(&a.first, from)
}

/// The functions in a statement.
pub fn statement_handlers(s: &Stmt, from: u32) -> u32
    requires few { from + h.statement_handlers (statement s.now) < 2 ^ 32 }
    ensures { result ≡ from + h.statement_handlers (statement s.now) }
{
    statement_count(s, from)
}
