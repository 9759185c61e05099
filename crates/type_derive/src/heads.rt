// How constructors begin, and what statements declare.
ghost use Rattle.std.specs.Prelude.{◌≡◌};
ghost use Rattle.sts_syntax.specs.Views.{tree, statement};
ghost use Rattle.type_derive.specs.Heads.{head, super_of, head_of, lets, lets_of};

use sts_syntax::{Binding, Expr, Form, Node, Stmt};

/// The call of a base's constructor: its place and arguments.
#[derive(Clone, Copy)]
pub struct Head<'a> {
    pub at: u32,
    pub args: &'a [Expr],
}

/// `super(..)`, where an expression is that.
fn super_of(e: &Expr) -> Option<Head<'_>>
    ensures { head result ≡ super_of (tree e.now) }
{
    match &e.node {
        Node::SuperCall(m, args) => match m {
            None => Some(Head {
                at: e.at,
                args: args.as_slice(),
            }),
            Some(_) => None,
        },
        Node::Num(_) => None,
        Node::Text(_) => None,
        Node::Truth(_) => None,
        Node::Null => None,
        Node::This => None,
        Node::Name(_) => None,
        Node::Unary(_, _) => None,
        Node::Binary(_, _, _) => None,
        Node::Both(_, _) => None,
        Node::Either(_, _) => None,
        Node::Choice(_, _, _) => None,
        Node::Set(_, _, _) => None,
        Node::Bump {
            target: _,
            by: _,
            late: _,
        } => None,
        Node::Member(_, _) => None,
        Node::Item(_, _) => None,
        Node::Call(_, _) => None,
        Node::Make(_, _) => None,
        Node::Items(_) => None,
        Node::Handler(_) => None,
    }
}

/// `super(..)`, where a statement is that.
pub fn head_of(s: &Stmt) -> Option<Head<'_>>
    ensures { head result ≡ head_of (statement s.now) }
{
    match &s.form {
        Form::Plain(e) => super_of(e),
        Form::Block(_) => None,
        Form::Let { fixed: _, each: _ } => None,
        Form::If(_, _, _) => None,
        Form::While(_, _) => None,
        Form::DoWhile(_, _) => None,
        Form::For(_, _, _, _) => None,
        Form::ForOf {
            fixed: _,
            name: _,
            list: _,
            body: _,
        } => None,
        Form::Return(_) => None,
        Form::Break => None,
        Form::Continue => None,
        Form::Empty => None,
    }
}

/// Declared names of a statement.
#[derive(Clone, Copy)]
pub struct Lets<'a> {
    /// whether it is `const`
    pub fixed: bool,
    pub each: &'a [Binding],
}

/// `let` and `const`, where a statement is that.
pub fn lets_of(s: &Stmt) -> Option<Lets<'_>>
    ensures { lets result ≡ lets_of (statement s.now) }
{
    match &s.form {
        Form::Let { fixed, each } => Some(Lets {
            fixed: *fixed,
            each: each.as_slice(),
        }),
        Form::Block(_) => None,
        Form::If(_, _, _) => None,
        Form::While(_, _) => None,
        Form::DoWhile(_, _) => None,
        Form::For(_, _, _, _) => None,
        Form::ForOf {
            fixed: _,
            name: _,
            list: _,
            body: _,
        } => None,
        Form::Return(_) => None,
        Form::Break => None,
        Form::Continue => None,
        Form::Plain(_) => None,
        Form::Empty => None,
    }
}
