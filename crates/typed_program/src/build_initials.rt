// Initialisers of a class's own fields: each constructor begins with them.
ghost use Rattle.std.specs.Prelude.{◌≡◌, ◌+◌, ◌^◌, ◌<◌, ◌++◌, ◌∷◌, [], None, IfOk, OnOk};
ghost use Rattle.sts_syntax.specs.TypedTrees as e;
ghost use Rattle.sts_syntax.specs.Types as value;
ghost use Rattle.sts_syntax.specs.Types.{value_type};
ghost use Rattle.sts_syntax.specs.TypedViews.{optional_typed_tree, typed_tree, typed_statement, typed_routines};
ghost use Rattle.sts_syntax.specs.Views.{declaration};
ghost use Rattle.sts_syntax.specs.Programs.{class_member};
ghost use Rattle.sts_scope.specs.Numbers as number;
ghost use Rattle.text_sizes.specs.Numbered as numbered;
ghost use Rattle.typed_trees.specs.Sites as s;
ghost use Rattle.typed_trees.specs.Sites.{IsPlan};
ghost use Rattle.typed_program.specs.Numbered.{AreNumbered};
ghost use Rattle.typed_program.specs.Wholes as w;

use crate::build_parts::{ClassParts, Next, next_member};
use sts_base::{NoMemory, Seq};
use sts_scope::{StaticType, This};
use sts_syntax::{Binding, Member, Ty, TypedBody, TypedExpr, TypedNode, TypedStmt};
use type_derive::{kind_at, outer_scope};
use typed_trees::{
    Accumulator, Plan, Site, Spots, beside, boxed, build_first, field_number, noted_type,
    nothing_built,
};

/// A field's initialiser, and the functions that stand in it.
#[derive(Drop)]
pub struct Initial {
    pub first: Option<TypedExpr>,
    pub inner: Accumulator<TypedBody>,
}

/// Outside all functions, where no local is in scope.
pub fn outer_site<'a>(plan: &Plan, this: This) -> Site<'a>
    ensures { s.site result ≡ w.outer_site this }
{
    Site {
        scope: outer_scope(plan.alloc, this),
        spots: Spots::new(plan.alloc),
    }
}

/// The initialiser of a class's field, whose first function has the number n.
#[tactic(auto, using(crate::proofs::Initials::initial_is))]
pub fn build_field(plan: &Plan, class: u32, n: u32, a: &Binding) -> Result<Initial, NoMemory>
    requires plan { IsPlan plan.now }
    requires functions { n + numbered.declared_numbered (declaration a.now) < 2 ^ 32 }
    ensures first { IfOk result (λ r. optional_typed_tree r.first
        ≡ (w.initial_made plan.now class n (declaration a.now)).it) }
    ensures inner { IfOk result (λ r. typed_routines r.inner
        ≡ (w.initial_made plan.now class n (declaration a.now)).routines) }
{
    let site = outer_site(plan, This::Object(class));
    let mut builder = nothing_built(plan.alloc, n);
    let first = build_first(plan, &site, &mut builder, &a.shape, &a.first)?;
    Ok(Initial {
        first,
        inner: builder.routines,
    })
}

/// A class's field of `this`.
fn own_field(
    plan: &Plan,
    class: u32,
    of: Option<StaticType>,
    name: u32,
) -> Result<TypedExpr, NoMemory>
    requires { IsPlan plan.now }
    ensures { IfOk result (λ r. typed_tree r
        ≡ e.Field (s.noted of) (e.This (value.Object class))
        (number.place_among (number.field_names plan.now.known.now class) name)) }
{
    let number = field_number(plan, class, name)?;
    let ty = noted_type(of);
    let this = boxed(
        plan.alloc,
        TypedExpr {
            ty: Ty::object(class),
            node: TypedNode::This,
        },
    )?;
    Ok(TypedExpr {
        ty,
        node: TypedNode::Field(this, number),
    })
}

/// An assignment without an operator.
fn set(ty: Ty, target: Box<TypedExpr>, value: Box<TypedExpr>) -> TypedStmt
    ensures { typed_statement result ≡ e.Plain
        (e.Set (value_type ty) None (typed_tree target.value) (typed_tree value.value)) }
{
    TypedStmt::Plain(TypedExpr {
        ty,
        node: TypedNode::Set(None, target, value),
    })
}

/// `this.x = value` in a class, where the field is the d-th declaration.
fn field_set(
    plan: &Plan,
    class: u32,
    d: usize,
    name: u32,
    value: TypedExpr,
) -> Result<TypedStmt, NoMemory>
    requires { IsPlan plan.now }
    ensures { IfOk result (λ r. typed_statement r ≡ w.field_set plan.now class d name (typed_tree value)) }
{
    let of = kind_at(plan.known, d);
    let value = boxed(plan.alloc, value)?;
    let (value, target) = beside(value, own_field(plan, class, of, name))?;
    let (value, target) = beside(value, boxed(plan.alloc, target))?;
    Ok(set(noted_type(of), target, value))
}

/// A statement more.
#[tactic(auto, using(crate::proofs::Initials::list_append))]
pub fn add_statement(all: &mut Seq<TypedStmt>, a: TypedStmt) -> Result<(), NoMemory>
    ensures { OnOk result (w.typed_list all.new ≡ w.typed_list all.old ++ typed_statement a ∷ []) }
{
    all.push(a)
}

/// A field's initialiser, where it has one.
#[tactic(auto, using(sts_syntax::proofs::Laws::declaration_parts))]
fn add_field(
    plan: &Plan,
    all: &mut Seq<TypedStmt>,
    class: u32,
    next: Next,
    a: &Binding,
) -> Result<(), NoMemory>
    requires plan { IsPlan plan.now }
    requires functions { next.function + numbered.declared_numbered (declaration a.now) < 2 ^ 32 }
    ensures { OnOk result (w.typed_list all.new
        ≡ w.typed_list all.old ++ w.set_field plan.now class next.declaration (declaration a.now)
        (w.initial_made plan.now class next.function (declaration a.now)).it) }
{
    let Initial { first, .. } = build_field(plan, class, next.function, a)?;
    match first {
        None => Ok(()),
        Some(first) => {
            let made = field_set(plan, class, next.declaration, a.name, first)?;
            add_statement(all, made)
        }
    }
}

/// The initialiser of a member that is a field with one.
fn add_member_initial(
    plan: &Plan,
    all: &mut Seq<TypedStmt>,
    class: u32,
    next: Next,
    member: &Member,
) -> Result<(), NoMemory>
    requires plan { IsPlan plan.now }
    requires functions { next.function + numbered.member_numbered (class_member member.now) < 2 ^ 32 }
    ensures { OnOk result (w.typed_list all.new
        ≡ w.typed_list all.old ++ w.member_initials plan.now class next.function next.declaration
        (class_member member.now)) }
{
    match member {
        Member::Field(a) => add_field(plan, all, class, next, a),
        Member::Method { name: _, body: _ } => Ok(()),
        Member::Constructor(_) => Ok(()),
    }
}

/// The initialisers of a class's own fields, in text order.
pub fn add_initials(
    plan: &Plan,
    all: &mut Seq<TypedStmt>,
    parts: &ClassParts,
) -> Result<(), NoMemory>
    requires plan { IsPlan plan.now }
    requires numbered { AreNumbered plan.now parts.now }
    ensures { OnOk result (w.typed_list all.new ≡ w.typed_list all.old ++ w.initials_of plan.now parts.now) }
{
    let mut next = parts.first;
    for member in parts.members {
        add_member_initial(plan, all, parts.class, next, member)?;
        next = next_member(plan, parts.class, next, member);
    }
    Ok(())
}
