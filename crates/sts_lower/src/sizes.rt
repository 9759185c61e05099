// How many ops a tree has.
ghost use Rattle.std.specs.Prelude.{◌≡◌, ◌<◌, ◌^◌};
ghost use Rattle.sts_syntax.specs.Measures as m;
ghost use Rattle.sts_syntax.specs.TypedViews.{typed_tree, typed_trees};
ghost use Rattle.sts_lower.specs.Sizes as z;

use crate::arguments::{call_size, own_numbers};
use crate::targets::{bump_size, store_size, target_of};
use sts_base::Seq;
use sts_syntax::{TypedExpr, TypedNode};

/// How many ops an expression has.
#[cycle(size)]
pub(crate) fn size_of(e: &TypedExpr) -> u32
    requires few { z.size (typed_tree e.now) < 2 ^ 32 }
    ensures { result ≡ z.size (typed_tree e.now) }
{
    match &e.node {
        TypedNode::Num(_)
        | TypedNode::Text(_)
        | TypedNode::Truth(_)
        | TypedNode::Null
        | TypedNode::This
        | TypedNode::Name(_)
        | TypedNode::Handler(_) => 1,
        TypedNode::Unary(_, a) | TypedNode::Field(a, _) | TypedNode::Length(a) => size_of(a) + 1,
        TypedNode::Binary(_, a, b) | TypedNode::Item(a, b) => size_of(a) + size_of(b) + 1,
        TypedNode::Both(a, b) => size_of(a) + 2 + size_of(b),
        TypedNode::Either(a, b) => size_of(a) + 1 + size_of(b),
        TypedNode::Choice(test, a, b) => size_of(test) + 1 + size_of(b) + 1 + size_of(a),
        TypedNode::Set(None, x, r) => reach_size(x) + size_of(r) + store_size(target_of(x)),
        TypedNode::Set(Some(_), x, r) => {
            reach_size(x) + 1 + size_of(r) + 1 + store_size(target_of(x))
        }
        TypedNode::Bump { target, late, .. } => {
            reach_size(target) + bump_size(target_of(target), *late)
        }
        TypedNode::Call(callee, args) => {
            own_numbers(*callee) + total_size(args) + call_size(*callee)
        }
        TypedNode::SuperCall(_, args) => 1 + total_size(args) + 1,
        TypedNode::Make(_, args) => total_size(args) + 2,
        TypedNode::Items(items) => 1 + total_size(items) + items.len() as u32,
    }
}

/// How many ops some expressions have.
#[cycle(size)]
pub(crate) fn total_size(all: &Seq<TypedExpr>) -> u32
    requires few { m.total (z.sizes (typed_trees all.now)) < 2 ^ 32 }
    ensures { result ≡ m.total (z.sizes (typed_trees all.now)) }
{
    let mut sum = 0;
    for a in all.as_slice() {
        sum += size_of(a);
    }
    sum
}

/// How many ops there are before anything is read from a target or stored in it.
#[cycle(size)]
pub(crate) fn reach_size(target: &TypedExpr) -> u32
    requires few { z.reach_size (typed_tree target.now) < 2 ^ 32 }
    ensures { result ≡ z.reach_size (typed_tree target.now) }
{
    match &target.node {
        TypedNode::Field(a, _) => size_of(a),
        TypedNode::Item(a, index) => size_of(a) + size_of(index),
        TypedNode::Num(_)
        | TypedNode::Text(_)
        | TypedNode::Truth(_)
        | TypedNode::Null
        | TypedNode::This
        | TypedNode::Name(_)
        | TypedNode::Unary(_, _)
        | TypedNode::Binary(_, _, _)
        | TypedNode::Both(_, _)
        | TypedNode::Either(_, _)
        | TypedNode::Choice(_, _, _)
        | TypedNode::Set(_, _, _)
        | TypedNode::Bump { .. }
        | TypedNode::Length(_)
        | TypedNode::Call(_, _)
        | TypedNode::SuperCall(_, _)
        | TypedNode::Make(_, _)
        | TypedNode::Items(_)
        | TypedNode::Handler(_) => 0,
    }
}
