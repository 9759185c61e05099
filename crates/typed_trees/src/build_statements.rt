// Typed statements. Behind each of them the site is the one of what follows it.
ghost use Rattle.std.specs.Prelude.{◌≡◌, true, IfOk, OnOk};
ghost use Rattle.sts_syntax.specs.TypedTrees as t;
ghost use Rattle.sts_syntax.specs.TypedTrees.{OptionalTypedStatement};
ghost use Rattle.sts_syntax.specs.TypedViews.{optional_typed_tree, typed_statement, typed_statements};
ghost use Rattle.sts_syntax.specs.Views.{routine, statement, statements};
ghost use Rattle.type_derive.specs.inner.Filled as b;
ghost use Rattle.typed_trees.specs.Fits.{NumbersFit};
ghost use Rattle.typed_trees.specs.Grown.{Grown};
ghost use Rattle.typed_trees.specs.Sites as s;
ghost use Rattle.typed_trees.specs.Sites.{IsPlan};
ghost use Rattle.typed_trees.specs.Steps as steps;
ghost use Rattle.typed_trees.specs.Steps.{IsBuilt};

use crate::build_blocks::{begin, declare_local, end, handler_site, mark};
use crate::build_forms::{add_loop, beside, block_of};
use crate::build_locals::{build_locals, build_value};
use crate::build_nodes::boxed;
use crate::build_places::{Builder, Plan, Site};
use crate::build_trees::build_tree;
use sts_base::{NoMemory, Seq};
use sts_syntax::{Body, Form, Spot, Stmt, TypedExpr, TypedStmt};
use type_derive::items_of;

/// The statements of a handler, whose first local and first function the builder has.
#[cycle(build)]
pub fn build_body(
    plan: &Plan,
    site: &Site,
    builder: &mut Builder,
    body: &Body,
) -> Result<Seq<TypedStmt>, NoMemory>
    requires { IsPlan plan.now }
    ensures { IfOk result (λ r. IsBuilt builder.old builder.new
        (s.body_made plan.now (s.site site.now) (routine body.now)) (typed_statements r)) }
{
    let mut inside = handler_site(plan, &*site, body)?;
    build_statements(plan, &mut inside, builder, body.stmts.as_slice())
}

/// A typed statement that stands in a block of its own.
#[cycle(build)]
fn build_branch(
    plan: &Plan,
    site: &mut Site,
    builder: &mut Builder,
    a: &Stmt,
) -> Result<Box<TypedStmt>, NoMemory>
    requires { IsPlan plan.now }
    ensures built { IfOk result (λ r. IsBuilt builder.old builder.new
        (s.statement_made plan.now (b.in_block (s.site site.old)) (statement a.now)) (typed_statement r.value)) }
    ensures site { OnOk result (s.site site.new ≡ s.site site.old) }
{
    let around = begin(site);
    let made = build_statement(plan, site, builder, a)?;
    end(site, around);
    boxed(plan.alloc, made)
}

/// A loop behind what it begins with.
#[derive(Drop)]
struct Turns {
    test: Option<TypedExpr>,
    step: Option<TypedExpr>,
    body: Box<TypedStmt>,
}

/// A loop behind what it begins with.
#[cycle(build)]
fn build_turns(
    plan: &Plan,
    site: &mut Site,
    builder: &mut Builder,
    all: &Stmt,
) -> Result<Turns, NoMemory>
    requires plan { IsPlan plan.now }
    requires form { steps.is_for (statement all.now) ≡ true }
    ensures built { IfOk result (λ r. (first : OptionalTypedStatement)
        → IsBuilt builder.old builder.new (steps.turns_made plan.now (s.site site.old) first (statement all.now))
        (t.For first (optional_typed_tree r.test) (optional_typed_tree r.step) (typed_statement r.body.value))) }
    ensures site { OnOk result (s.site site.new ≡ s.site site.old) }
{
    let Form::For(_, test, step, a) = &all.form else {
        unreachable!();
    };
    let test = build_value(plan, site, builder, None, test)?;
    let (test, step) = beside(test, build_value(plan, site, builder, None, step))?;
    let ((test, step), body) = beside((test, step), build_branch(plan, site, builder, a))?;
    Ok(Turns { test, step, body })
}

/// `if`
#[cycle(build)]
#[tactic(auto, unfolding(crate::specs::Sites::statement_made, crate::specs::Sites::value_made))]
fn build_if(
    plan: &Plan,
    site: &mut Site,
    builder: &mut Builder,
    a: &Stmt,
) -> Result<TypedStmt, NoMemory>
    requires plan { IsPlan plan.now }
    requires form { steps.is_if (statement a.now) ≡ true }
    ensures built { IfOk result (λ r. IsBuilt builder.old builder.new
        (s.statement_made plan.now (s.site site.old) (statement a.now)) (typed_statement r)) }
    ensures site { OnOk result (s.site site.new
        ≡ s.behind plan.now builder.old.local (s.site site.old) (statement a.now)) }
{
    match &a.form {
        Form::If(test, a, other) => {
            let test = build_tree(plan, site, builder, None, test)?;
            let (test, a) = beside(test.tree, build_branch(plan, site, builder, a))?;
            match other {
                None => Ok(TypedStmt::If(test, a, None)),
                Some(b) => {
                    let ((test, a), b) = beside((test, a), build_branch(plan, site, builder, b))?;
                    Ok(TypedStmt::If(test, a, Some(b)))
                }
            }
        }
        _ => unreachable!(),
    }
}

/// `while`, and `do` with it
#[cycle(build)]
#[tactic(auto, unfolding(crate::specs::Sites::statement_made, crate::specs::Sites::value_made))]
fn build_while(
    plan: &Plan,
    site: &mut Site,
    builder: &mut Builder,
    a: &Stmt,
) -> Result<TypedStmt, NoMemory>
    requires plan { IsPlan plan.now }
    requires form { steps.is_while (statement a.now) ≡ true }
    ensures built { IfOk result (λ r. IsBuilt builder.old builder.new
        (s.statement_made plan.now (s.site site.old) (statement a.now)) (typed_statement r)) }
    ensures site { OnOk result (s.site site.new
        ≡ s.behind plan.now builder.old.local (s.site site.old) (statement a.now)) }
{
    match &a.form {
        Form::While(test, a) => {
            let test = build_tree(plan, site, builder, None, test)?;
            let (test, a) = beside(test.tree, build_branch(plan, site, builder, a))?;
            Ok(TypedStmt::While(test, a))
        }
        Form::DoWhile(a, test) => {
            let a = build_branch(plan, site, builder, a)?;
            let (a, test) = beside(a, build_tree(plan, site, builder, None, test))?;
            Ok(TypedStmt::DoWhile(a, test.tree))
        }
        _ => unreachable!(),
    }
}

/// `for`
#[cycle(build)]
#[tactic(auto, unfolding(crate::specs::Sites::statement_made, crate::specs::Sites::value_made))]
fn build_for(
    plan: &Plan,
    site: &mut Site,
    builder: &mut Builder,
    a: &Stmt,
) -> Result<TypedStmt, NoMemory>
    requires plan { IsPlan plan.now }
    requires form { steps.is_for (statement a.now) ≡ true }
    ensures built { IfOk result (λ r. IsBuilt builder.old builder.new
        (s.statement_made plan.now (s.site site.old) (statement a.now)) (typed_statement r)) }
    ensures site { OnOk result (s.site site.new
        ≡ s.behind plan.now builder.old.local (s.site site.old) (statement a.now)) }
{
    match &a.form {
        Form::For(first, _, _, _) => {
            let around = begin(site);
            match first {
                None => {
                    let turns = build_turns(plan, site, builder, a)?;
                    end(site, around);
                    Ok(TypedStmt::For(None, turns.test, turns.step, turns.body))
                }
                Some(first) => {
                    let first = build_statement(plan, site, builder, first)?;
                    let first = boxed(plan.alloc, first)?;
                    let (first, turns) = beside(first, build_turns(plan, site, builder, a))?;
                    end(site, around);
                    Ok(TypedStmt::For(Some(first), turns.test, turns.step, turns.body))
                }
            }
        }
        _ => unreachable!(),
    }
}

/// `for` through the items of an array
#[cycle(build)]
#[tactic(auto, unfolding(crate::specs::Sites::statement_made, crate::specs::Sites::value_made))]
fn build_for_of(
    plan: &Plan,
    site: &mut Site,
    builder: &mut Builder,
    a: &Stmt,
) -> Result<TypedStmt, NoMemory>
    requires plan { IsPlan plan.now }
    requires form { steps.is_for_of (statement a.now) ≡ true }
    ensures built { IfOk result (λ r. IsBuilt builder.old builder.new
        (s.statement_made plan.now (s.site site.old) (statement a.now)) (typed_statement r)) }
    ensures site { OnOk result (s.site site.new
        ≡ s.behind plan.now builder.old.local (s.site site.old) (statement a.now)) }
{
    match &a.form {
        Form::ForOf {
            fixed,
            name,
            list,
            body,
        } => {
            let number = builder.local;
            let list = build_tree(plan, site, builder, None, list)?;
            let kind = items_of(list.kind);
            let around = begin(site);
            let (list, local) = beside(list.tree, add_loop(builder, kind))?;
            let (list, _known) = beside(list, declare_local(site, *name, kind, *fixed, number))?;
            let (list, body) = beside(list, build_branch(plan, site, builder, body))?;
            end(site, around);
            Ok(TypedStmt::ForOf {
                fixed: *fixed,
                name: Spot::Local(local),
                list,
                body,
            })
        }
        _ => unreachable!(),
    }
}

/// A typed statement.
#[cycle(build)]
#[tactic(auto, unfolding(crate::specs::Sites::statement_made, crate::specs::Sites::value_made))]
pub fn build_statement(
    plan: &Plan,
    site: &mut Site,
    builder: &mut Builder,
    a: &Stmt,
) -> Result<TypedStmt, NoMemory>
    requires { IsPlan plan.now }
    ensures built { IfOk result (λ r. IsBuilt builder.old builder.new
        (s.statement_made plan.now (s.site site.old) (statement a.now)) (typed_statement r)) }
    ensures site { OnOk result (NumbersFit builder.old
        (s.statement_made plan.now (s.site site.old) (statement a.now) builder.old.local builder.old.function)
        → s.site site.new ≡ s.behind plan.now builder.old.local (s.site site.old) (statement a.now)) }
    ensures grown { OnOk result (Grown (s.site site.old) (s.site site.new)) }
{
    match &a.form {
        Form::Block(all) => {
            let around = begin(site);
            let all = build_statements(plan, site, builder, all.as_slice())?;
            end(site, around);
            Ok(block_of(all))
        }
        Form::Let { fixed, each } => {
            let each = build_locals(plan, site, builder, *fixed, each.as_slice())?;
            Ok(TypedStmt::Let {
                fixed: *fixed,
                each,
            })
        }
        Form::If(_, _, _) => build_if(plan, site, builder, a),
        Form::While(_, _) | Form::DoWhile(_, _) => build_while(plan, site, builder, a),
        Form::For(_, _, _, _) => build_for(plan, site, builder, a),
        Form::ForOf {
            fixed: _,
            name: _,
            list: _,
            body: _,
        } => build_for_of(plan, site, builder, a),
        Form::Return(value) => {
            let gives = site.scope.gives;
            let value = build_value(plan, site, builder, gives, value)?;
            Ok(TypedStmt::Return(value))
        }
        Form::Break => Ok(TypedStmt::Break),
        Form::Continue => Ok(TypedStmt::Continue),
        Form::Plain(e) => {
            let e = build_tree(plan, site, builder, None, e)?;
            Ok(TypedStmt::Plain(e.tree))
        }
        Form::Empty => Ok(TypedStmt::Empty),
    }
}

/// Typed statements, behind which the site is the one before them.
#[cycle(build)]
pub fn build_statements(
    plan: &Plan,
    site: &mut Site,
    builder: &mut Builder,
    all: &[Stmt],
) -> Result<Seq<TypedStmt>, NoMemory>
    requires { IsPlan plan.now }
    ensures built { IfOk result (λ r. IsBuilt builder.old builder.new
        (s.statements_made plan.now (s.site site.old) (statements all.now)) (typed_statements r)) }
    ensures site { OnOk result (s.site site.new ≡ s.site site.old) }
{
    let around = mark(site);
    let mut made = Seq::new(plan.alloc);
    for i in 0..all.len() {
        let a = build_statement(plan, site, builder, &all[i])?;
        made.push(a)?;
    }
    end(site, around);
    Ok(made)
}
