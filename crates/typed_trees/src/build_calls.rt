// Typed nodes that hold a list of expressions: arrays, `new`, and calls. What they are is settled before their parts are built.
ghost use Rattle.std.specs.Prelude.{◌≡◌, true, IfOk};
ghost use Rattle.sts_syntax.specs.TypedViews.{typed_tree, typed_trees};
ghost use Rattle.sts_syntax.specs.Views.{tree, trees};
ghost use Rattle.typed_trees.specs.Calls as call;
ghost use Rattle.typed_trees.specs.Sites as s;
ghost use Rattle.typed_trees.specs.Sites.{IsPlan};
ghost use Rattle.typed_trees.specs.Steps.{IsBuilt};

use crate::build_arguments::{Planned, Takes, amiss, plan_argument};
use crate::build_heads::{Head, has_object, listed, noted_list, takes_of};
use crate::build_places::{Builder, Noted, Plan, Site};
use crate::build_trees::build_tree;
use sts_base::{NoMemory, Seq};
use sts_scope::StaticType;
use sts_syntax::{Expr, Node, TypedExpr};

/// The i-th expression of a list.
#[cycle(build)]
fn build_argument(
    plan: &Plan,
    site: &Site,
    builder: &mut Builder,
    takes: Takes,
    i: usize,
    a: &Expr,
) -> Result<TypedExpr, NoMemory>
    requires { IsPlan plan.now }
    ensures { IfOk result (λ r. IsBuilt builder.old builder.new
        (call.argument_made plan.now (s.site site.now) (call.places takes.entry) i (tree a.now)) (typed_tree r)) }
{
    match plan_argument(plan, site, takes, i, a) {
        Planned::There(x) => Ok(x),
        Planned::Built(given) => {
            let x = build_tree(plan, site, builder, given, a)?;
            Ok(x.tree)
        }
    }
}

/// The expressions of a list, behind what is there of it.
#[cycle(build)]
pub fn build_arguments(
    plan: &Plan,
    site: &Site,
    builder: &mut Builder,
    takes: Takes,
    args: &[Expr],
    first: Seq<TypedExpr>,
) -> Result<Seq<TypedExpr>, NoMemory>
    requires { IsPlan plan.now }
    ensures { IfOk result (λ r. IsBuilt builder.old builder.new
        (call.behind_made plan.now (s.site site.now) (call.places takes.entry) (typed_trees first) (trees args.now))
        (typed_trees r)) }
{
    let mut all = first;
    for i in 0..args.len() {
        let x = build_argument(plan, site, builder, takes, i, &args[i])?;
        all.push(x)?;
    }
    Ok(all)
}

/// The object of a call, where there is one.
#[cycle(build)]
fn build_object(
    plan: &Plan,
    site: &Site,
    builder: &mut Builder,
    wanted: bool,
    f: &Expr,
) -> Result<Seq<TypedExpr>, NoMemory>
    requires { IsPlan plan.now }
    ensures { IfOk result (λ r. IsBuilt builder.old builder.new
        (call.object_made plan.now (s.site site.now) wanted (tree f.now)) (typed_trees r)) }
{
    let mut all = Seq::new(plan.alloc);
    if wanted {
        match &f.node {
            Node::Member(a, _) => {
                let x = build_tree(plan, site, builder, None, a)?;
                all.push(x.tree)?;
                Ok(all)
            }
            _ => Ok(all),
        }
    } else {
        Ok(all)
    }
}

/// What stands in a node's list.
#[cycle(build)]
fn build_passed(
    plan: &Plan,
    site: &Site,
    builder: &mut Builder,
    head: Head,
    e: &Expr,
) -> Result<Seq<TypedExpr>, NoMemory>
    requires plan { IsPlan plan.now }
    requires list { call.has_list (tree e.now) ≡ true }
    ensures { IfOk result (λ r. IsBuilt builder.old builder.new
        (call.passed_made plan.now (s.site site.now) head (tree e.now)) (typed_trees r)) }
{
    let takes = takes_of(&*plan, &head);
    let none = Seq::new(plan.alloc);
    match &e.node {
        Node::Items(args) => build_arguments(plan, site, builder, takes, args.as_slice(), none),
        Node::Make(_, args) => build_arguments(plan, site, builder, takes, args.as_slice(), none),
        Node::SuperCall(_, args) => {
            build_arguments(plan, site, builder, takes, args.as_slice(), none)
        }
        Node::Call(f, args) => {
            let object = build_object(plan, site, builder, has_object(head), f)?;
            build_arguments(plan, site, builder, takes, args.as_slice(), object)
        }
        _ => unreachable!(),
    }
}

/// A node with a list.
#[cycle(build)]
pub fn build_call(
    plan: &Plan,
    site: &Site,
    builder: &mut Builder,
    given: Option<StaticType>,
    e: &Expr,
) -> Result<Noted, NoMemory>
    requires plan { IsPlan plan.now }
    requires list { call.has_list (tree e.now) ≡ true }
    ensures built { IfOk result (λ r. IsBuilt builder.old builder.new
        (s.tree_made plan.now (s.site site.now) given (tree e.now)) (typed_tree r.tree)) }
    ensures kind { IfOk result (λ r. r.kind ≡ s.tree_kind plan.now (s.site site.now) given (tree e.now)) }
{
    let list = listed(plan, site, given, e)?;
    match list.head {
        None => Ok(Noted {
            tree: amiss(),
            kind: list.kind,
        }),
        Some(head) => {
            let args = build_passed(plan, site, builder, head, e)?;
            noted_list(plan, list, head, args)
        }
    }
}
