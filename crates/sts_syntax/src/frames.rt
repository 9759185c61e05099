// How much a function of a typed program takes: the words of its frame, and its weight, which bounds its code.
ghost use Rattle.std.specs.Prelude.{◌≡◌, ◌+◌, ◌-◌, ◌<◌, ◌^◌, min, max, length};
ghost use Rattle.sts_syntax.specs.Measures as m;
ghost use Rattle.sts_syntax.specs.Weights as w;
ghost use Rattle.sts_syntax.specs.TypedViews.{typed_tree, optional_typed_tree, typed_declarations, typed_statement, typed_statements, typed_routine};

use crate::measures::{hold, outgoing, sum, weight_of};
use crate::{TypedBinding, TypedBody, TypedExpr, TypedStmt};
use sts_base::Seq;

/// What expressions need in a frame.
#[derive(Clone, Copy)]
struct Words {
    /// for values that are pending at once
    pending: u64,
    /// for arguments that a call leaves
    outgoing: u64,
}

const NO_WORDS: Words = Words {
    pending: 0,
    outgoing: 0,
};

/// What is enough for one and for the other, which are not needed at once.
fn either(a: Words, b: Words) -> Words
    ensures pending { result.pending ≡ max a.pending b.pending }
    ensures outgoing { result.outgoing ≡ max a.outgoing b.outgoing }
{
    Words {
        pending: a.pending.max(b.pending),
        outgoing: a.outgoing.max(b.outgoing),
    }
}

fn expression_words(e: &TypedExpr) -> Words
    requires few { w.weight_of (typed_tree e.now) < 2 ^ 40 }
    ensures pending { result.pending ≡ m.hold (typed_tree e.now) }
    ensures outgoing { result.outgoing ≡ m.outgoing (typed_tree e.now) }
{
    Words {
        pending: hold(e),
        outgoing: outgoing(e),
    }
}

fn optional_words(e: &Option<TypedExpr>) -> Words
    requires few { w.optional_weight (optional_typed_tree e.now) < 2 ^ 40 }
    ensures pending { result.pending ≡ m.optional_size m.hold (optional_typed_tree e.now) }
    ensures outgoing { result.outgoing ≡ m.optional_size m.outgoing (optional_typed_tree e.now) }
{
    match e {
        None => NO_WORDS,
        Some(e) => expression_words(e),
    }
}

fn declared_words(each: &[TypedBinding]) -> Words
    requires few { w.declared_weight (typed_declarations each.now) < 2 ^ 40 }
    ensures pending { result.pending ≡ m.greatest_first m.hold (typed_declarations each.now) }
    ensures outgoing { result.outgoing ≡ m.greatest_first m.outgoing (typed_declarations each.now) }
{
    let mut most = NO_WORDS;
    for binding in each {
        most = either(optional_words(&binding.first), most);
    }
    most
}

#[cycle(statement_words)]
fn statement_words(s: &TypedStmt) -> Words
    requires few { w.statement_weight (typed_statement s.now) < 2 ^ 40 }
    ensures pending { result.pending ≡ m.greatest_in m.hold (typed_statement s.now) }
    ensures outgoing { result.outgoing ≡ m.greatest_in m.outgoing (typed_statement s.now) }
{
    match s {
        TypedStmt::Block(all) => statements_words(all.as_slice()),
        TypedStmt::Let { each, .. } => declared_words(each.as_slice()),
        TypedStmt::If(test, a, None) => either(expression_words(test), statement_words(a)),
        TypedStmt::If(test, a, Some(b)) => {
            either(
                expression_words(test),
                either(statement_words(a), statement_words(b)),
            )
        }
        TypedStmt::While(test, a) => either(expression_words(test), statement_words(a)),
        TypedStmt::DoWhile(a, test) => either(statement_words(a), expression_words(test)),
        TypedStmt::For(first, test, step, a) => {
            let head = either(
                optional_words(test),
                either(optional_words(step), statement_words(a)),
            );
            match first {
                None => head,
                Some(first) => either(statement_words(first), head),
            }
        }
        TypedStmt::ForOf { list, body, .. } => either(
            expression_words(list),
            statement_words(body),
        ),
        TypedStmt::Return(value) => optional_words(value),
        TypedStmt::Plain(a) => expression_words(a),
        TypedStmt::Break | TypedStmt::Continue | TypedStmt::Empty => NO_WORDS,
    }
}

#[cycle(statement_words)]
fn statements_words(all: &[TypedStmt]) -> Words
    requires few { w.statements_weight (typed_statements all.now) < 2 ^ 40 }
    ensures pending { result.pending ≡ m.greatest_of m.hold (typed_statements all.now) }
    ensures outgoing { result.outgoing ≡ m.greatest_of m.outgoing (typed_statements all.now) }
{
    let mut most = NO_WORDS;
    for a in all {
        most = either(statement_words(a), most);
    }
    most
}

fn optional_weight(e: &Option<TypedExpr>) -> u64
    ensures { result ≡ min (w.optional_weight (optional_typed_tree e.now)) (2 ^ 64 - 1) }
{
    match e {
        None => 0,
        Some(e) => weight_of(e),
    }
}

fn declared_weight(each: &[TypedBinding]) -> u64
    ensures { result ≡ min (w.declared_weight (typed_declarations each.now)) (2 ^ 64 - 1) }
{
    let mut weight = 0;
    for binding in each {
        weight = sum(weight, sum(1, optional_weight(&binding.first)));
    }
    weight
}

/// What each turn of a loop weighs: its test, its step and a body of this weight.
fn turn_weight(test: &Option<TypedExpr>, step: &Option<TypedExpr>, body: u64) -> u64
    ensures { result ≡ min (w.optional_weight (optional_typed_tree test.now)
        + w.optional_weight (optional_typed_tree step.now) + body) (2 ^ 64 - 1) }
{
    sum(optional_weight(test), sum(optional_weight(step), body))
}

#[cycle(statement_weight)]
fn statement_weight(s: &TypedStmt) -> u64
    ensures { result ≡ min (w.statement_weight (typed_statement s.now)) (2 ^ 64 - 1) }
{
    match s {
        TypedStmt::Block(all) => sum(1, statements_weight(all.as_slice())),
        TypedStmt::Let { each, .. } => sum(1, declared_weight(each.as_slice())),
        TypedStmt::If(test, a, None) => sum(1, sum(weight_of(test), statement_weight(a))),
        TypedStmt::If(test, a, Some(b)) => {
            let branches = sum(statement_weight(a), statement_weight(b));
            sum(1, sum(weight_of(test), branches))
        }
        TypedStmt::While(test, a) => sum(1, sum(weight_of(test), statement_weight(a))),
        TypedStmt::DoWhile(a, test) => sum(1, sum(statement_weight(a), weight_of(test))),
        TypedStmt::For(first, test, step, a) => {
            let turn = turn_weight(test, step, statement_weight(a));
            match first {
                None => sum(1, turn),
                Some(first) => sum(1, sum(statement_weight(first), turn)),
            }
        }
        TypedStmt::ForOf { list, body, .. } => sum(4, sum(weight_of(list), statement_weight(body))),
        TypedStmt::Return(value) => sum(1, optional_weight(value)),
        TypedStmt::Plain(a) => sum(1, weight_of(a)),
        TypedStmt::Break | TypedStmt::Continue | TypedStmt::Empty => 1,
    }
}

#[cycle(statement_weight)]
fn statements_weight(all: &[TypedStmt]) -> u64
    ensures { result ≡ min (w.statements_weight (typed_statements all.now)) (2 ^ 64 - 1) }
{
    let mut weight = 0;
    for a in all {
        weight = sum(weight, statement_weight(a));
    }
    weight
}

/// The greatest number of values that are pending at once in a function that weighs less than 2^40; 1 where it has no expression.
pub fn pending_words(body: &TypedBody) -> u64
    requires { w.weight (typed_routine body.now) < 2 ^ 40 }
    ensures { result ≡ m.pending_words (typed_routine body.now) }
{
    statements_words(body.stmts.as_slice()).pending.max(1)
}

/// The greatest number of arguments that a call in a function leaves, for a function that weighs less than 2^40.
pub fn outgoing_words(body: &TypedBody) -> u64
    requires { w.weight (typed_routine body.now) < 2 ^ 40 }
    ensures { result ≡ m.outgoing_words (typed_routine body.now) }
{
    statements_words(body.stmts.as_slice()).outgoing
}

/// The words of a function's frame, for a function that weighs less than 2^40 and has fewer than 2^32 locals.
#[tactic(auto, using(crate::proofs::FrameBounds::pending_le, crate::proofs::FrameBounds::outgoing_words_le, crate::proofs::FrameBounds::locals_are))]
pub fn frame_words(body: &TypedBody) -> u64
    requires light { w.weight (typed_routine body.now) < 2 ^ 40 }
    requires few { length (typed_routine body.now).locals < 2 ^ 32 }
    ensures { result ≡ m.frame_words (typed_routine body.now) }
{
    let words = statements_words(body.stmts.as_slice());
    5 + body.locals.len() as u64 + words.pending.max(1) + words.outgoing
}

/// The weight of a function, main and constructors that are not written included; 2^64 - 1 where it is greater.
pub fn weight(body: &TypedBody) -> u64
    ensures { result ≡ min (w.weight (typed_routine body.now)) (2 ^ 64 - 1) }
{
    sum(4, statements_weight(body.stmts.as_slice()))
}
