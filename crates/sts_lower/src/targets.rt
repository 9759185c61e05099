// What is assigned to.
ghost use Rattle.std.specs.Prelude.{◌≡◌};
ghost use Rattle.sts_syntax.specs.TypedViews.{typed_tree};
ghost use Rattle.sts_lower.specs.Sizes as z;
ghost use Rattle.sts_lower.specs.inner.Shown.{target_shown};

use sts_syntax::{Spot, TypedExpr, TypedNode};

/// What is assigned to.
#[derive(Clone, Copy)]
pub(crate) enum Target {
    /// a name
    Name(Spot),
    /// a field of the object that is the latest operand
    Field(u32),
    /// an item of the array below the index that is the latest operand
    Item,
    /// nothing: no well-typed tree has it
    Nothing,
}

/// The target that an expression is.
pub(crate) fn target_of(e: &TypedExpr) -> Target
    ensures { target_shown result ≡ z.target (typed_tree e.now) }
{
    match &e.node {
        TypedNode::Name(x) => Target::Name(*x),
        TypedNode::Field(_, field) => Target::Field(*field),
        TypedNode::Item(_, _) => Target::Item,
        TypedNode::Num(_)
        | TypedNode::Text(_)
        | TypedNode::Truth(_)
        | TypedNode::Null
        | TypedNode::This
        | TypedNode::Unary(_, _)
        | TypedNode::Binary(_, _, _)
        | TypedNode::Both(_, _)
        | TypedNode::Either(_, _)
        | TypedNode::Choice(_, _, _)
        | TypedNode::Set(_, _, _)
        | TypedNode::Bump { .. }
        | TypedNode::Length(_)
        | TypedNode::Call(_, _)
        | TypedNode::SuperCall(_, _)
        | TypedNode::Make(_, _)
        | TypedNode::Items(_)
        | TypedNode::Handler(_) => Target::Nothing,
    }
}

/// How many ops store in a target.
pub(crate) fn store_size(target: Target) -> u32
    ensures { result ≡ z.store_size (target_shown target) }
{
    match target {
        Target::Name(_) => 1,
        Target::Field(_) | Target::Item => 2,
        Target::Nothing => 0,
    }
}

/// How many ops a `++` or `--` has behind what is evaluated of its target.
pub(crate) fn bump_size(target: Target, late: bool) -> u32
    ensures { result ≡ z.bump_size (target_shown target) late }
{
    match target {
        Target::Name(Spot::Param(_)) | Target::Name(Spot::Local(_)) => 2,
        Target::Name(Spot::Global(_)) => if late { 4 } else { 3 },
        Target::Field(_) | Target::Item => 4,
        Target::Nothing => 1,
    }
}
