// What the expressions of a typed program use: the texts that they name, and calls of `forever`.
ghost use Rattle.std.specs.Prelude.{◌≡◌, ◌+◌, OnOk, IfOk};
ghost use Rattle.sts_syntax.specs.TypedViews.{typed_tree, typed_trees, optional_typed_tree, typed_declarations, typed_statement, typed_statements};
ghost use Rattle.sts_syntax.specs.Nodes.{nodes, nodes_of, optional_nodes, declared_nodes, expressions, expressions_of};
ghost use Rattle.typed_limits.specs.Uses.{with_node, noted};

use sts_base::{NoMemory, Seq};
use sts_syntax::{BoardAction, Callee, TypedBinding, TypedExpr, TypedNode, TypedStmt};

/// What expressions use.
#[derive(Drop)]
pub struct Uses {
    /// the numbers of the texts among them, in text order
    pub texts: Seq<u32>,
    /// how many of them are calls of `forever`; 2^32 - 1 where there are more
    pub repeats: u32,
}

/// One expression more, without those in it.
fn note(e: &TypedExpr, uses: &mut Uses) -> Result<(), NoMemory>
    ensures { OnOk result (uses.new ≡ with_node uses.old (typed_tree e.now)) }
{
    match &e.node {
        TypedNode::Text(text) => uses.texts.push(*text),
        TypedNode::Call(Callee::Board(call), _) => {
            match call.action() {
                BoardAction::Repeats => uses.repeats = uses.repeats.saturating_add(1),
                BoardAction::Service(_, _) | BoardAction::Library(_) => {}
            }
            Ok(())
        }
        _ => Ok(()),
    }
}

/// An expression, and those in it.
#[cycle(uses)]
#[tactic(auto, using(crate::proofs::Noting::noted_append))]
fn note_expression(e: &TypedExpr, uses: &mut Uses) -> Result<(), NoMemory>
    ensures { OnOk result (uses.new ≡ noted uses.old (nodes (typed_tree e.now))) }
{
    note(e, uses)?;
    match &e.node {
        TypedNode::Num(_)
        | TypedNode::Text(_)
        | TypedNode::Truth(_)
        | TypedNode::Null
        | TypedNode::This
        | TypedNode::Handler(_)
        | TypedNode::Name(_) => Ok(()),
        TypedNode::Unary(_, a) | TypedNode::Field(a, _) | TypedNode::Length(a) => note_expression(
            a, uses,
        ),
        TypedNode::Bump { target, .. } => note_expression(target, uses),
        TypedNode::Binary(_, a, b)
        | TypedNode::Both(a, b)
        | TypedNode::Either(a, b)
        | TypedNode::Item(a, b)
        | TypedNode::Set(_, a, b) => {
            note_expression(a, uses)?;
            note_expression(b, uses)
        }
        TypedNode::Choice(test, a, b) => {
            note_expression(test, uses)?;
            note_expression(a, uses)?;
            note_expression(b, uses)
        }
        TypedNode::Call(_, args) => note_each(args.as_slice(), uses),
        TypedNode::SuperCall(_, args) => note_each(args.as_slice(), uses),
        TypedNode::Make(_, args) => note_each(args.as_slice(), uses),
        TypedNode::Items(items) => note_each(items.as_slice(), uses),
    }
}

/// Some expressions, and those in them.
#[cycle(uses)]
fn note_each(all: &[TypedExpr], uses: &mut Uses) -> Result<(), NoMemory>
    ensures { OnOk result (uses.new ≡ noted uses.old (nodes_of (typed_trees all.now))) }
{
    for e in all {
        note_expression(e, uses)?;
    }
    Ok(())
}

/// An expression that may be left out.
fn note_optional(e: &Option<TypedExpr>, uses: &mut Uses) -> Result<(), NoMemory>
    ensures { OnOk result (uses.new ≡ noted uses.old (optional_nodes (optional_typed_tree e.now))) }
{
    match e {
        None => Ok(()),
        Some(e) => note_expression(e, uses),
    }
}

/// The first values of declared names.
fn note_declared(each: &[TypedBinding], uses: &mut Uses) -> Result<(), NoMemory>
    ensures { OnOk result (uses.new ≡ noted uses.old (declared_nodes (typed_declarations each.now))) }
{
    for binding in each {
        note_optional(&binding.first, uses)?;
    }
    Ok(())
}

/// The expressions of a statement.
#[cycle(statement_uses)]
#[tactic(auto, using(crate::proofs::Noting::noted_append))]
fn note_statement(s: &TypedStmt, uses: &mut Uses) -> Result<(), NoMemory>
    ensures { OnOk result (uses.new ≡ noted uses.old (expressions (typed_statement s.now))) }
{
    match s {
        TypedStmt::Block(all) => note_statements(all.as_slice(), uses),
        TypedStmt::Let { each, .. } => note_declared(each.as_slice(), uses),
        TypedStmt::While(test, a) => {
            note_expression(test, uses)?;
            note_statement(a, uses)
        }
        TypedStmt::If(test, a, other) => {
            note_expression(test, uses)?;
            note_statement(a, uses)?;
            match other {
                None => Ok(()),
                Some(b) => note_statement(b, uses),
            }
        }
        TypedStmt::DoWhile(a, test) => {
            note_statement(a, uses)?;
            note_expression(test, uses)
        }
        TypedStmt::For(first, test, step, a) => {
            if let Some(first) = first {
                note_statement(first, uses)?;
            }
            note_optional(test, uses)?;
            note_optional(step, uses)?;
            note_statement(a, uses)
        }
        TypedStmt::ForOf { list, body, .. } => {
            note_expression(list, uses)?;
            note_statement(body, uses)
        }
        TypedStmt::Return(value) => note_optional(value, uses),
        TypedStmt::Plain(a) => note_expression(a, uses),
        TypedStmt::Break | TypedStmt::Continue | TypedStmt::Empty => Ok(()),
    }
}

/// The expressions of some statements.
#[cycle(statement_uses)]
pub fn note_statements(all: &[TypedStmt], uses: &mut Uses) -> Result<(), NoMemory>
    ensures { OnOk result (uses.new ≡ noted uses.old (expressions_of (typed_statements all.now))) }
{
    for s in all {
        note_statement(s, uses)?;
    }
    Ok(())
}
