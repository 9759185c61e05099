// The functions whose calls `forever` repeats.
ghost use Rattle.std.specs.Prelude.{◌≡◌, ◌+◌, ◌<◌, ◌^◌, [], ◌∷◌, ◌++◌, OnOk};
ghost use Rattle.sts_syntax.specs.BoardViews.{board_action};
ghost use Rattle.sts_syntax.specs.TypedViews.{typed_tree, typed_trees, optional_typed_tree, typed_statement, typed_statements, typed_declarations, typed_routines};
ghost use Rattle.sts_lower.specs.Code as k;
ghost use Rattle.sts_lower.specs.Repeated as r;

use crate::calls::handler_of;
use sts_base::{NoMemory, Seq};
use sts_syntax::{BoardAction, Callee, TypedBinding, TypedBody, TypedExpr, TypedNode, TypedStmt};

/// Appends the function that a call repeats, if it does.
fn note_call(found: &mut Seq<u32>, callee: Callee, handler: u32) -> Result<(), NoMemory>
    ensures { OnOk result (found.new ≡ found.old ++ r.repeated_by_call callee handler) }
{
    match callee {
        Callee::Board(call) => match call.action() {
            BoardAction::Repeats => found.push(handler),
            BoardAction::Service(_, _) | BoardAction::Library(_) => Ok(()),
        },
        Callee::Function(_) | Callee::Slot(_) | Callee::Push | Callee::Pop => Ok(()),
    }
}

/// Appends those of an expression.
#[cycle(repeats)]
fn note(found: &mut Seq<u32>, e: &TypedExpr) -> Result<(), NoMemory>
    ensures { OnOk result (found.new ≡ found.old ++ r.repeated (typed_tree e.now)) }
{
    match &e.node {
        TypedNode::Num(_)
        | TypedNode::Text(_)
        | TypedNode::Truth(_)
        | TypedNode::Null
        | TypedNode::This
        | TypedNode::Name(_)
        | TypedNode::Handler(_) => Ok(()),
        TypedNode::Unary(_, a)
        | TypedNode::Bump { target: a, .. }
        | TypedNode::Field(a, _)
        | TypedNode::Length(a) => note(found, a),
        TypedNode::Binary(_, a, b)
        | TypedNode::Both(a, b)
        | TypedNode::Either(a, b)
        | TypedNode::Set(_, a, b)
        | TypedNode::Item(a, b) => {
            note(found, a)?;
            note(found, b)
        }
        TypedNode::Choice(test, a, b) => {
            note(found, test)?;
            note(found, a)?;
            note(found, b)
        }
        TypedNode::Call(callee, args) => {
            note_each(found, args)?;
            note_call(found, *callee, handler_of(args.as_slice()))
        }
        TypedNode::SuperCall(_, args) => note_each(found, args),
        TypedNode::Make(_, args) => note_each(found, args),
        TypedNode::Items(items) => note_each(found, items),
    }
}

/// Appends those of some expressions.
#[cycle(repeats)]
fn note_each(found: &mut Seq<u32>, all: &Seq<TypedExpr>) -> Result<(), NoMemory>
    ensures { OnOk result (found.new ≡ found.old ++ r.repeated_each (typed_trees all.now)) }
{
    for a in all.as_slice() {
        note(found, a)?;
    }
    Ok(())
}

fn note_optional(found: &mut Seq<u32>, e: &Option<TypedExpr>) -> Result<(), NoMemory>
    ensures { OnOk result (found.new ≡ found.old ++ r.optionally_repeated (optional_typed_tree e.now)) }
{
    match e {
        None => Ok(()),
        Some(e) => note(found, e),
    }
}

fn note_declared(found: &mut Seq<u32>, each: &[TypedBinding]) -> Result<(), NoMemory>
    ensures { OnOk result (found.new ≡ found.old ++ r.repeated_first (typed_declarations each.now)) }
{
    for binding in each {
        note_optional(found, &binding.first)?;
    }
    Ok(())
}

/// Appends those of a statement.
#[cycle(statement_repeats)]
fn note_statement(found: &mut Seq<u32>, s: &TypedStmt) -> Result<(), NoMemory>
    ensures { OnOk result (found.new ≡ found.old ++ r.repeated_in (typed_statement s.now)) }
{
    match s {
        TypedStmt::Block(all) => note_statements(found, all),
        TypedStmt::Let { each, .. } => note_declared(found, each.as_slice()),
        TypedStmt::If(test, a, None) => {
            note(found, test)?;
            note_statement(found, a)
        }
        TypedStmt::While(test, a) => {
            note(found, test)?;
            note_statement(found, a)
        }
        TypedStmt::If(test, a, Some(o)) => {
            note(found, test)?;
            note_statement(found, a)?;
            note_statement(found, o)
        }
        TypedStmt::DoWhile(a, test) => {
            note_statement(found, a)?;
            note(found, test)
        }
        TypedStmt::For(first, test, step, a) => {
            match first {
                None => {}
                Some(first) => note_statement(found, first)?,
            }
            note_optional(found, test)?;
            note_optional(found, step)?;
            note_statement(found, a)
        }
        TypedStmt::ForOf { list, body, .. } => {
            note(found, list)?;
            note_statement(found, body)
        }
        TypedStmt::Return(value) => note_optional(found, value),
        TypedStmt::Plain(a) => note(found, a),
        TypedStmt::Break | TypedStmt::Continue | TypedStmt::Empty => Ok(()),
    }
}

/// Appends those of some statements.
#[cycle(statement_repeats)]
fn note_statements(found: &mut Seq<u32>, all: &Seq<TypedStmt>) -> Result<(), NoMemory>
    ensures { OnOk result (found.new ≡ found.old ++ r.repeated_in_all (typed_statements all.now)) }
{
    for a in all.as_slice() {
        note_statement(found, a)?;
    }
    Ok(())
}

/// Appends those of some functions.
pub(crate) fn note_functions(found: &mut Seq<u32>, all: &Seq<TypedBody>) -> Result<(), NoMemory>
    ensures { OnOk result (found.new ≡ found.old ++ r.repeated_in_each (typed_routines all.now)) }
{
    for body in all.as_slice() {
        note_statements(found, &body.stmts)?;
    }
    Ok(())
}
