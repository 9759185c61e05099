// Declared names of a block with their initialisers, and expressions that may be left out.
ghost use Rattle.std.specs.Prelude.{◌≡◌, ◌∷◌, [], IfOk, OnOk};
ghost use Rattle.sts_syntax.specs.Trees as t;
ghost use Rattle.sts_syntax.specs.TypedViews.{optional_typed_tree, typed_declaration, typed_declarations};
ghost use Rattle.sts_syntax.specs.Views.{tree, optional_expression, optional_annotation, declaration, declarations};
ghost use Rattle.type_derive.specs.Returns as derive;
ghost use Rattle.type_derive.specs.Scopes.{place};
ghost use Rattle.typed_trees.specs.Fits.{NumbersFit};
ghost use Rattle.typed_trees.specs.Grown.{Grown};
ghost use Rattle.typed_trees.specs.Sites as s;
ghost use Rattle.typed_trees.specs.Sites.{IsPlan};
ghost use Rattle.typed_trees.specs.Steps as steps;
ghost use Rattle.typed_trees.specs.Steps.{IsBuilt};

use crate::build_blocks::declare_local;
use crate::build_forms::{add_local, beside};
use crate::build_places::{Builder, Plan, Site};
use crate::build_trees::build_tree;
use sts_base::{NoMemory, Seq};
use sts_scope::{StaticType, written_kind};
use sts_syntax::{Binding, Expr, Shape, Spot, TypedBinding, TypedExpr};
use type_derive::is_alone;

/// An expression that may be left out, to whose place a type may be given.
#[cycle(build)]
#[tactic(auto, unfolding(crate::specs::Sites::value_made, crate::specs::Sites::tree_made))]
pub fn build_value(
    plan: &Plan,
    site: &Site,
    builder: &mut Builder,
    given: Option<StaticType>,
    e: &Option<Expr>,
) -> Result<Option<TypedExpr>, NoMemory>
    requires { IsPlan plan.now }
    ensures { IfOk result (λ r. IsBuilt builder.old builder.new
        (s.value_made plan.now (s.site site.now) given (optional_expression e.now)) (optional_typed_tree r)) }
{
    match e {
        None => Ok(None),
        Some(e) => {
            let e = build_tree(plan, site, builder, given, e)?;
            Ok(Some(e.tree))
        }
    }
}

/// An initialiser, and the type of what is declared with it.
#[derive(Drop)]
pub struct Initial {
    pub first: Option<TypedExpr>,
    /// the type, if it has one
    pub kind: Option<StaticType>,
}

/// The type of a declared name whose initialiser has this one: the one that is written, else the initialiser's.
fn bound_kind(
    shape: &Option<Shape>,
    written: Option<StaticType>,
    first: &Expr,
    kind: Option<StaticType>,
) -> Option<StaticType>
    ensures { result ≡ steps.bound_kind (optional_annotation shape.now) written (tree first.now) kind }
{
    match shape {
        Some(_) => written,
        None => if is_alone(first) { None } else { kind },
    }
}

/// An initialiser, and the type of what is declared with it.
#[cycle(build)]
#[tactic(auto, unfolding(crate::specs::Sites::first_made, crate::specs::Sites::tree_made))]
fn build_initial(
    plan: &Plan,
    site: &Site,
    builder: &mut Builder,
    shape: &Option<Shape>,
    first: &Option<Expr>,
) -> Result<Initial, NoMemory>
    requires { IsPlan plan.now }
    ensures built { IfOk result (λ r. IsBuilt builder.old builder.new
        (s.first_made plan.now (s.site site.now) (optional_annotation shape.now) (optional_expression first.now))
        (optional_typed_tree r.first)) }
    ensures kind { IfOk result (λ r. r.kind ≡ derive.bound plan.now.tables.now (s.naming plan.now) plan.now.known.now
        (place site.now.scope) (optional_annotation shape.now) (optional_expression first.now)) }
{
    let written = written_kind(plan.classes, shape);
    match first {
        None => Ok(Initial {
            first: None,
            kind: written,
        }),
        Some(e) => {
            let noted = build_tree(plan, site, builder, written, e)?;
            let kind = bound_kind(shape, written, e, noted.kind);
            Ok(Initial {
                first: Some(noted.tree),
                kind,
            })
        }
    }
}

/// An initialiser.
pub fn build_first(
    plan: &Plan,
    site: &Site,
    builder: &mut Builder,
    shape: &Option<Shape>,
    first: &Option<Expr>,
) -> Result<Option<TypedExpr>, NoMemory>
    requires { IsPlan plan.now }
    ensures { IfOk result (λ r. IsBuilt builder.old builder.new
        (s.first_made plan.now (s.site site.now) (optional_annotation shape.now) (optional_expression first.now))
        (optional_typed_tree r)) }
{
    let initial = build_initial(plan, site, builder, shape, first)?;
    Ok(initial.first)
}

/// A declared name, which is a local, and known from here on.
#[cycle(build)]
#[tactic(auto, unfolding(crate::specs::Steps::local_made, crate::specs::Sites::first_made))]
fn build_local(
    plan: &Plan,
    site: &mut Site,
    builder: &mut Builder,
    fixed: bool,
    a: &Binding,
) -> Result<TypedBinding, NoMemory>
    requires { IsPlan plan.now }
    ensures built { IfOk result (λ r. IsBuilt builder.old builder.new
        (steps.local_made plan.now (s.site site.old) (declaration a.now)) (typed_declaration r)) }
    ensures site { OnOk result (s.site site.new
        ≡ s.behind plan.now builder.old.local (s.site site.old) (t.Let 0 fixed (declarations (a.now ∷ [])))) }
{
    let number = builder.local;
    let initial = build_initial(plan, site, builder, &a.shape, &a.first)?;
    let kind = initial.kind;
    let (first, local) = beside(initial.first, add_local(builder, kind))?;
    let (first, _known) = beside(first, declare_local(site, a.name, kind, fixed, number))?;
    Ok(TypedBinding {
        name: Spot::Local(local),
        first,
    })
}

/// Declared names of a block: each is a local.
#[cycle(build)]
pub fn build_locals(
    plan: &Plan,
    site: &mut Site,
    builder: &mut Builder,
    fixed: bool,
    each: &[Binding],
) -> Result<Seq<TypedBinding>, NoMemory>
    requires { IsPlan plan.now }
    ensures built { IfOk result (λ r. IsBuilt builder.old builder.new
        (s.locals_made plan.now (s.site site.old) fixed (declarations each.now)) (typed_declarations r)) }
    ensures site { OnOk result (NumbersFit builder.old
        (s.locals_made plan.now (s.site site.old) fixed (declarations each.now) builder.old.local builder.old.function)
        → s.site site.new ≡ s.behind plan.now builder.old.local (s.site site.old)
        (t.Let 0 fixed (declarations each.now))) }
    ensures grown { OnOk result (Grown (s.site site.old) (s.site site.new)) }
{
    let mut made = Seq::new(plan.alloc);
    for i in 0..each.len() {
        let a = build_local(plan, site, builder, fixed, &each[i])?;
        made.push(a)?;
    }
    Ok(made)
}
