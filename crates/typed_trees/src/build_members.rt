// Typed expressions that have no parts, and members that are read.
ghost use Rattle.std.specs.Prelude.{◌≡◌, IfOk, Some};
ghost use Rattle.sts_syntax.specs.Types as value;
ghost use Rattle.sts_syntax.specs.Types.{value_type};
ghost use Rattle.sts_syntax.specs.TypedTrees as e;
ghost use Rattle.sts_syntax.specs.TypedViews.{typed_tree};
ghost use Rattle.sts_scope.specs.Kinds as kind;
ghost use Rattle.sts_scope.specs.Rules as rule;
ghost use Rattle.type_derive.specs.Scopes.{place};
ghost use Rattle.type_derive.specs.Typing as typing;
ghost use Rattle.type_derive.specs.Typing.{◌>>=◌ as bind};
ghost use Rattle.typed_trees.specs.Sites as s;
ghost use Rattle.typed_trees.specs.Sites.{IsPlan};

use crate::build_nodes::{Part as Operand, noted, noted_type};
use crate::build_places::{Noted, Plan, Site};
use crate::build_spots::{class_behind, field_number, part_behind, spot_of};
use sts_base::NoMemory;
use sts_scope::{Base, Part, StaticType, flat};
use sts_syntax::{Ty, TypedExpr, TypedNode};
use type_derive::{name_found, name_kind, part_kind, part_of, this_kind};

/// A number, or a constant of the board.
pub fn number_leaf(z: i32) -> Noted
    ensures tree { typed_tree result.tree ≡ e.Num value.Number z }
    ensures kind { result.kind ≡ Some kind.number }
{
    noted(Ty::NUMBER, TypedNode::Num(z), Some(flat(Base::Number)))
}

/// A text.
pub fn text_leaf(text: u32) -> Noted
    ensures tree { typed_tree result.tree ≡ e.Text value.Text text }
    ensures kind { result.kind ≡ Some kind.text }
{
    noted(Ty::TEXT, TypedNode::Text(text), Some(flat(Base::Text)))
}

/// `true` or `false`
pub fn truth_leaf(truth: bool) -> Noted
    ensures tree { typed_tree result.tree ≡ e.Truth value.Boolean truth }
    ensures kind { result.kind ≡ Some kind.boolean }
{
    noted(
        Ty::BOOLEAN,
        TypedNode::Truth(truth),
        Some(flat(Base::Boolean)),
    )
}

/// `null`
pub fn null_leaf() -> Noted
    ensures tree { typed_tree result.tree ≡ e.Null value.NullType }
    ensures kind { result.kind ≡ Some kind.null }
{
    noted(Ty::NULL, TypedNode::Null, Some(flat(Base::Null)))
}

/// `this`
pub fn this_leaf(site: &Site) -> Noted
    ensures tree { typed_tree result.tree ≡ e.This (s.noted (rule.this_kind (place site.now.scope).this)) }
    ensures kind { result.kind ≡ rule.this_kind (place site.now.scope).this }
{
    let kind = this_kind(site.scope.this);
    noted(noted_type(kind), TypedNode::This, kind)
}

/// A name.
pub fn name_leaf(plan: &Plan, site: &Site, x: u32) -> Noted
    requires { IsPlan plan.now }
    ensures tree { typed_tree result.tree ≡ e.Name
        (s.noted (rule.name_kind plan.now.known.now (place site.now.scope)
        (typing.finds plan.now.tables.now plan.now.known.now (place site.now.scope) x)))
        (s.spot_of plan.now (s.site site.now)
        (typing.finds plan.now.tables.now plan.now.known.now (place site.now.scope) x)) }
    ensures kind { result.kind ≡ rule.name_kind plan.now.known.now (place site.now.scope)
        (typing.finds plan.now.tables.now plan.now.known.now (place site.now.scope) x) }
{
    let found = name_found(plan.tables, plan.known, &site.scope, x);
    let kind = name_kind(plan.known, &site.scope, found);
    let at = spot_of(plan, site, found);
    noted(noted_type(kind), TypedNode::Name(at), kind)
}

/// The type of a member that is read, of what has a type or none.
fn read_kind(plan: &Plan, of: Option<StaticType>, name: u32) -> Option<StaticType>
    ensures { result ≡ bind of (λ u. rule.part_kind plan.now.known.now
        (rule.part_of plan.now.tables.now.names plan.now.known.now u name)) }
{
    match of {
        None => None,
        Some(u) => part_kind(plan.known, part_of(plan.tables, plan.known, u, name)),
    }
}

/// A member that is read.
fn member_read(
    plan: &Plan,
    ty: Ty,
    part: Part,
    class: u32,
    name: u32,
    a: Box<TypedExpr>,
) -> Result<TypedExpr, NoMemory>
    requires { IsPlan plan.now }
    ensures { IfOk result (λ r. typed_tree r
        ≡ s.member_read plan.now (value_type ty) part class name (typed_tree a.value)) }
{
    match part {
        Part::Field(_) => Ok(TypedExpr {
            ty,
            node: TypedNode::Field(a, field_number(plan, class, name)?),
        }),
        Part::Length => Ok(TypedExpr {
            ty,
            node: TypedNode::Length(a),
        }),
        Part::Method(_) | Part::Push(_) | Part::Pop(_) | Part::Missing => Ok(TypedExpr {
            ty: Ty::NULL,
            node: TypedNode::Null,
        }),
    }
}

/// A member that is read, of its object.
pub fn read_of(plan: &Plan, name: u32, x: Operand) -> Result<Noted, NoMemory>
    requires { IsPlan plan.now }
    ensures tree { IfOk result (λ r. typed_tree r.tree
        ≡ s.member_read plan.now (s.noted
        (bind x.kind (λ u. rule.part_kind plan.now.known.now
        (rule.part_of plan.now.tables.now.names plan.now.known.now u name)))) (s.part_behind plan.now x.kind name)
        (s.class_behind x.kind) name (typed_tree x.tree.value)) }
    ensures kind { IfOk result (λ r. r.kind ≡ bind x.kind
        (λ u. rule.part_kind plan.now.known.now (rule.part_of plan.now.tables.now.names plan.now.known.now u name))) }
{
    let kind = read_kind(plan, x.kind, name);
    let part = part_behind(plan, x.kind, name);
    let class = class_behind(x.kind);
    let tree = member_read(plan, noted_type(kind), part, class, name, x.tree)?;
    Ok(Noted { tree, kind })
}
