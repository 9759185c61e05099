// Typed expressions: each of an expression's parts is gone through once, before itself.
ghost use Rattle.std.specs.Prelude.{◌≡◌, IfOk};
ghost use Rattle.sts_syntax.specs.TypedViews.{typed_tree, typed_trees};
ghost use Rattle.sts_syntax.specs.Views.{tree, trees};
ghost use Rattle.typed_trees.specs.Sites as s;
ghost use Rattle.typed_trees.specs.Sites.{IsPlan};
ghost use Rattle.typed_trees.specs.Steps.{IsBuilt};

use crate::build_arguments::Takes;
use crate::build_calls::{build_arguments, build_call};
use crate::build_forms::beside;
use crate::build_members::{name_leaf, null_leaf, number_leaf, text_leaf, this_leaf, truth_leaf};
use crate::build_operators::{Operator, build_last, build_part, bump_of, prefix_of};
use crate::build_places::{Builder, Noted, Plan, Site};
use crate::build_routines::build_handler;
use crate::build_targets::{build_member, build_target};
use sts_base::{NoMemory, Seq};
use sts_scope::StaticType;
use sts_syntax::{Expr, Node, TypedExpr};

/// A typed expression, to whose place a type may be given.
#[cycle(build)]
pub fn build_tree(
    plan: &Plan,
    site: &Site,
    builder: &mut Builder,
    given: Option<StaticType>,
    e: &Expr,
) -> Result<Noted, NoMemory>
    requires { IsPlan plan.now }
    ensures built { IfOk result (λ r. IsBuilt builder.old builder.new
        (s.tree_made plan.now (s.site site.now) given (tree e.now)) (typed_tree r.tree)) }
    ensures kind { IfOk result (λ r. r.kind ≡ s.tree_kind plan.now (s.site site.now) given (tree e.now)) }
{
    match &e.node {
        Node::Num(v) => Ok(number_leaf(*v)),
        Node::Text(v) => Ok(text_leaf(*v)),
        Node::Truth(v) => Ok(truth_leaf(*v)),
        Node::Null => Ok(null_leaf()),
        Node::This => Ok(this_leaf(site)),
        Node::Name(x) => Ok(name_leaf(plan, site, *x)),
        Node::Unary(op, a) => {
            let x = build_part(plan, site, builder, None, a)?;
            Ok(prefix_of(*op, x))
        }
        Node::Binary(op, a, b) => {
            let x = build_part(plan, site, builder, None, a)?;
            build_last(plan, site, builder, b, Operator::Binary(*op), x)
        }
        Node::Both(a, b) => {
            let x = build_part(plan, site, builder, None, a)?;
            build_last(plan, site, builder, b, Operator::Both, x)
        }
        Node::Either(a, b) => {
            let x = build_part(plan, site, builder, None, a)?;
            build_last(plan, site, builder, b, Operator::Either, x)
        }
        Node::Item(a, b) => {
            let x = build_part(plan, site, builder, None, a)?;
            build_last(plan, site, builder, b, Operator::Item, x)
        }
        Node::Set(op, a, b) => {
            let x = build_target(plan, site, builder, a)?;
            build_last(plan, site, builder, b, Operator::Set(*op, x.can), x.part)
        }
        Node::Choice(q, a, b) => {
            let test = build_part(plan, site, builder, None, q)?;
            let (test, x) = beside(test, build_part(plan, site, builder, None, a))?;
            build_last(plan, site, builder, b, Operator::Choice(test), x)
        }
        Node::Bump { target, by, late } => {
            let x = build_target(plan, site, builder, target)?;
            Ok(bump_of(*by, *late, x.can, x.part))
        }
        Node::Member(_, _) => {
            let member = build_member(plan, site, builder, given, e)?;
            Ok(member.read)
        }
        Node::Handler(body) => build_handler(plan, site, builder, body),
        Node::Call(_, _) | Node::SuperCall(_, _) | Node::Make(_, _) | Node::Items(_) => {
            build_call(plan, site, builder, given, e)
        }
    }
}

/// Arguments, to whose places types are given.
pub fn build_given(
    plan: &Plan,
    site: &Site,
    builder: &mut Builder,
    takes: &[StaticType],
    args: &[Expr],
) -> Result<Seq<TypedExpr>, NoMemory>
    requires { IsPlan plan.now }
    ensures { IfOk result (λ r. IsBuilt builder.old builder.new
        (s.given_made plan.now (s.site site.now) takes.now (trees args.now)) (typed_trees r)) }
{
    let none = Seq::new(plan.alloc);
    let all = build_arguments(plan, site, builder, Takes::Given(takes), args, none)?;
    Ok(all)
}
