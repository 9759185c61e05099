// How many ops a statement has.
ghost use Rattle.std.specs.Prelude.{◌≡◌, ◌+◌, ◌<◌, ◌^◌};
ghost use Rattle.sts_syntax.specs.TypedViews.{optional_typed_tree, typed_statement, typed_statements, typed_declarations};
ghost use Rattle.sts_lower.specs.Sizes as z;

use crate::sizes::size_of;
use sts_syntax::{Spot, TypedBinding, TypedExpr, TypedStmt};

/// How many ops a turn over items has before its body.
pub(crate) const ITEM_SIZE: u32 = 6;

/// How many ops the value of a declared name has.
pub(crate) fn initial_size(first: &Option<TypedExpr>) -> u32
    requires { z.initial_size (optional_typed_tree first.now) < 2 ^ 32 }
    ensures { result ≡ z.initial_size (optional_typed_tree first.now) }
{
    match first {
        None => 1,
        Some(a) => size_of(a),
    }
}

fn declared_size(each: &[TypedBinding]) -> u32
    requires { z.declared_size (typed_declarations each.now) < 2 ^ 32 }
    ensures { result ≡ z.declared_size (typed_declarations each.now) }
{
    let mut sum = 0;
    for binding in each {
        sum += initial_size(&binding.first) + 1;
    }
    sum
}

/// How many ops the test of a `for` has, with what it decides.
pub(crate) fn test_size(test: &Option<TypedExpr>) -> u32
    requires { z.test_size (optional_typed_tree test.now) < 2 ^ 32 }
    ensures { result ≡ z.test_size (optional_typed_tree test.now) }
{
    match test {
        None => 0,
        Some(a) => size_of(a) + 2,
    }
}

/// How many ops the step of a `for` has.
pub(crate) fn step_size(step: &Option<TypedExpr>) -> u32
    requires { z.step_size (optional_typed_tree step.now) < 2 ^ 32 }
    ensures { result ≡ z.step_size (optional_typed_tree step.now) }
{
    match step {
        None => 0,
        Some(a) => size_of(a),
    }
}

fn return_size(maker: bool) -> u32
    ensures { result ≡ z.return_size maker }
{
    if maker { 2 } else { 1 }
}

/// How many ops a statement has, in a constructor or in another function.
#[cycle(statement_size)]
pub(crate) fn statement_size(s: &TypedStmt, maker: bool) -> u32
    requires few { z.statement_size maker (typed_statement s.now) < 2 ^ 32 }
    ensures { result ≡ z.statement_size maker (typed_statement s.now) }
{
    match s {
        TypedStmt::Block(all) => statements_size(all.as_slice(), maker),
        TypedStmt::Let { each, .. } => declared_size(each.as_slice()),
        TypedStmt::If(test, a, None) => size_of(test) + 2 + statement_size(a, maker),
        TypedStmt::If(test, a, Some(b)) => {
            size_of(test) + 1 + statement_size(b, maker) + 1 + statement_size(a, maker)
        }
        TypedStmt::While(test, a) => size_of(test) + 2 + statement_size(a, maker) + 1,
        TypedStmt::DoWhile(a, test) => statement_size(a, maker) + size_of(test) + 3,
        TypedStmt::For(first, test, step, a) => {
            let turn = test_size(test) + statement_size(a, maker) + step_size(step) + 1;
            match first {
                None => turn,
                Some(first) => statement_size(first, maker) + turn,
            }
        }
        TypedStmt::ForOf {
            name,
            list,
            body,
            ..
        } => match name {
            Spot::Local(_) => size_of(list) + 3 + (ITEM_SIZE + statement_size(body, maker) + 1),
            Spot::Param(_) | Spot::Global(_) => 1,
        },
        TypedStmt::Return(None) => 2,
        TypedStmt::Return(Some(a)) => size_of(a) + return_size(maker),
        TypedStmt::Break | TypedStmt::Continue => 1,
        TypedStmt::Plain(a) => size_of(a),
        TypedStmt::Empty => 0,
    }
}

/// How many ops some statements have.
#[cycle(statement_size)]
pub(crate) fn statements_size(all: &[TypedStmt], maker: bool) -> u32
    requires few { z.statements_size maker (typed_statements all.now) < 2 ^ 32 }
    ensures { result ≡ z.statements_size maker (typed_statements all.now) }
{
    let mut sum = 0;
    for a in all {
        sum += statement_size(a, maker);
    }
    sum
}
