// Statements of the main program: a declaration in it gives globals their first values.
ghost use Rattle.std.specs.Prelude.{◌+◌, ◌^◌, ◌<◌, length, IfOk};
ghost use Rattle.sts_syntax.specs.TypedViews.{typed_declaration, typed_declarations, typed_statement};
ghost use Rattle.sts_syntax.specs.Views.{declaration, declarations, statement};
ghost use Rattle.sts_scope.specs.declared.known.This.TheVariants as this;
ghost use Rattle.sts_scope.specs.Entries as entry;
ghost use Rattle.typed_trees.specs.Sites as s;
ghost use Rattle.typed_trees.specs.Sites.{IsPlan};
ghost use Rattle.typed_trees.specs.Steps.{IsBuilt};
ghost use Rattle.typed_program.specs.Wholes as w;

use crate::build_initials::outer_site;
use sts_base::{NoMemory, Seq};
use sts_scope::This;
use sts_syntax::{Binding, Spot, Stmt, TypedBinding, TypedStmt};
use type_derive::lets_of;
use typed_trees::{Builder, Plan, Site, build_first, build_statement, global_number};

/// A global with its first value, by its number.
#[tactic(auto, using(crate::proofs::Globally::global_is))]
pub fn build_global(
    plan: &Plan,
    site: &Site,
    builder: &mut Builder,
    number: u32,
    a: &Binding,
) -> Result<TypedBinding, NoMemory>
    requires { IsPlan plan.now }
    ensures { IfOk result (λ r. IsBuilt builder.old builder.new
        (w.global_made plan.now (s.site site.now) number (declaration a.now)) (typed_declaration r)) }
{
    let first = build_first(plan, site, builder, &a.shape, &a.first)?;
    Ok(TypedBinding {
        name: Spot::Global(number),
        first,
    })
}

/// A global with its first value, by its declaration.
fn build_declared(
    plan: &Plan,
    builder: &mut Builder,
    d: usize,
    a: &Binding,
) -> Result<TypedBinding, NoMemory>
    requires { IsPlan plan.now }
    ensures { IfOk result (λ r. IsBuilt builder.old builder.new (w.declared_made plan.now d (declaration a.now))
        (typed_declaration r)) }
{
    let site = outer_site(plan, This::Nowhere);
    let number = global_number(plan, d);
    let made = build_global(plan, &site, builder, number, a)?;
    Ok(made)
}

/// Globals with their first values, of which the first is the d-th declaration.
fn build_globals(
    plan: &Plan,
    builder: &mut Builder,
    first: usize,
    each: &[Binding],
) -> Result<Seq<TypedBinding>, NoMemory>
    requires plan { IsPlan plan.now }
    requires numbered { first + length each.now < 2 ^ 64 }
    ensures { IfOk result (λ r. IsBuilt builder.old builder.new (w.globals_made plan.now first (declarations each.now))
        (typed_declarations r)) }
{
    let mut made = Seq::new(plan.alloc);
    for i in 0..each.len() {
        let a = build_declared(plan, builder, first + i, &each[i])?;
        made.push(a)?;
    }
    Ok(made)
}

/// A statement of the main program that declares globals.
fn build_lets(
    plan: &Plan,
    builder: &mut Builder,
    d: usize,
    fixed: bool,
    each: &[Binding],
) -> Result<TypedStmt, NoMemory>
    requires plan { IsPlan plan.now }
    requires numbered { d + length each.now < 2 ^ 64 }
    ensures { IfOk result (λ r. IsBuilt builder.old builder.new (w.lets_made plan.now d fixed (declarations each.now))
        (typed_statement r)) }
{
    let each = build_globals(plan, builder, d, each)?;
    Ok(TypedStmt::Let { fixed, each })
}

/// A statement of the main program that declares no globals.
fn build_outer(plan: &Plan, builder: &mut Builder, a: &Stmt) -> Result<TypedStmt, NoMemory>
    requires { IsPlan plan.now }
    ensures { IfOk result (λ r. IsBuilt builder.old builder.new
        (s.statement_made plan.now (w.outer_site this.Nowhere) (statement a.now)) (typed_statement r)) }
{
    let mut site = outer_site(plan, This::Nowhere);
    let made = build_statement(plan, &mut site, builder, a)?;
    Ok(made)
}

/// A statement of the main program, before which stand d declarations.
pub fn build_main(
    plan: &Plan,
    builder: &mut Builder,
    d: usize,
    a: &Stmt,
) -> Result<TypedStmt, NoMemory>
    requires plan { IsPlan plan.now }
    requires numbered { d + length (entry.main_entries (statement a.now)) < 2 ^ 64 }
    ensures { IfOk result (λ r. IsBuilt builder.old builder.new (w.main_made plan.now d (statement a.now))
        (typed_statement r)) }
{
    match lets_of(a) {
        None => {
            let made = build_outer(plan, builder, a)?;
            Ok(made)
        }
        Some(lets) => {
            let made = build_lets(plan, builder, d, lets.fixed, lets.each)?;
            Ok(made)
        }
    }
}
