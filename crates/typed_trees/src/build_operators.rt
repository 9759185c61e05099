// Typed expressions of operators: their operands are gone through once, in text order, before themselves.
ghost use Rattle.std.specs.Prelude.{◌≡◌, IfOk, None, if◌then◌else◌};
ghost use Rattle.sts_syntax.specs.Types as value;
ghost use Rattle.sts_syntax.specs.TypedTrees as e;
ghost use Rattle.sts_syntax.specs.TypedViews.{typed_tree};
ghost use Rattle.sts_syntax.specs.Views.{tree};
ghost use Rattle.sts_scope.specs.Rules as rule;
ghost use Rattle.type_derive.specs.Typing.{◌>>=◌ as bind};
ghost use Rattle.typed_trees.specs.Operators as operators;
ghost use Rattle.typed_trees.specs.Sites as s;
ghost use Rattle.typed_trees.specs.Sites.{IsPlan};
ghost use Rattle.typed_trees.specs.Steps.{IsBuilt};

use crate::build_forms::beside;
use crate::build_nodes::{Part, boxed, noted, noted_type, or_nothing};
use crate::build_places::{Builder, Noted, Plan, Site};
use crate::build_trees::build_tree;
use sts_base::NoMemory;
use sts_scope::StaticType;
use sts_syntax::{Expr, Ty, TypedNode};
use type_derive::{both, bump_kind, chosen, indexed, operated, prefixed, set_kind};

/// An operator before its last operand.
#[derive(Drop)]
pub enum Operator {
    /// an operator between two operands, by its number
    Binary(u8),
    /// `&&`
    Both,
    /// `||`
    Either,
    /// an array's item
    Item,
    /// an assignment, with whether its target may be set
    Set(Option<u8>, bool),
    /// a choice, with its test
    Choice(Part),
}

/// An operand, to whose place a type may be given.
#[cycle(build)]
pub fn build_part(
    plan: &Plan,
    site: &Site,
    builder: &mut Builder,
    given: Option<StaticType>,
    e: &Expr,
) -> Result<Part, NoMemory>
    requires { IsPlan plan.now }
    ensures built { IfOk result (λ r. IsBuilt builder.old builder.new
        (s.tree_made plan.now (s.site site.now) given (tree e.now)) (typed_tree r.tree.value)) }
    ensures kind { IfOk result (λ r. r.kind ≡ s.tree_kind plan.now (s.site site.now) given (tree e.now)) }
{
    let x = build_tree(plan, site, builder, given, e)?;
    Ok(Part {
        kind: x.kind,
        tree: boxed(plan.alloc, x.tree)?,
    })
}

/// The last operand of an operator, whose operand before it is built, and the node.
#[cycle(build)]
pub fn build_last(
    plan: &Plan,
    site: &Site,
    builder: &mut Builder,
    b: &Expr,
    operator: Operator,
    x: Part,
) -> Result<Noted, NoMemory>
    requires { IsPlan plan.now }
    ensures built { IfOk result (λ r. IsBuilt builder.old builder.new
        (operators.last_made plan.now (s.site site.now) operator x.kind (typed_tree x.tree.value) (tree b.now))
        (typed_tree r.tree)) }
    ensures kind { IfOk result (λ r. r.kind ≡ operators.operator_kind plan.now operator x.kind
        (s.tree_kind plan.now (s.site site.now) (operators.last_given operator x.kind) (tree b.now))) }
{
    let given = last_given(&operator, x.kind);
    let ((operator, x), y) = beside((operator, x), build_part(plan, site, builder, given, b))?;
    Ok(operation_of(plan, operator, x, y))
}

/// The type that is given to the place of the last operand: what is assigned is given its target's.
fn last_given(operator: &Operator, before: Option<StaticType>) -> Option<StaticType>
    ensures { result ≡ operators.last_given operator.now before }
{
    match operator {
        Operator::Set(_, _) => Some(or_nothing(before)),
        Operator::Binary(_)
        | Operator::Both
        | Operator::Either
        | Operator::Item
        | Operator::Choice(_) => None,
    }
}

/// An operator's node, of its last two operands.
fn operation_of(plan: &Plan, operator: Operator, x: Part, y: Part) -> Noted
    ensures tree { typed_tree result.tree ≡ operators.operator_node operator
        (s.noted (operators.operator_kind plan.now operator x.kind y.kind)) (typed_tree x.tree.value)
        (typed_tree y.tree.value) }
    ensures kind { result.kind ≡ operators.operator_kind plan.now operator x.kind y.kind }
{
    let known = plan.known;
    match operator {
        Operator::Binary(op) => {
            let kind = operated(known, op, x.kind, y.kind);
            noted(
                noted_type(kind),
                TypedNode::Binary(op, x.tree, y.tree),
                kind,
            )
        }
        Operator::Both => {
            let kind = both(x.kind, y.kind);
            noted(Ty::BOOLEAN, TypedNode::Both(x.tree, y.tree), kind)
        }
        Operator::Either => {
            let kind = both(x.kind, y.kind);
            noted(Ty::BOOLEAN, TypedNode::Either(x.tree, y.tree), kind)
        }
        Operator::Item => {
            let kind = indexed(x.kind, y.kind);
            noted(noted_type(kind), TypedNode::Item(x.tree, y.tree), kind)
        }
        Operator::Set(op, can) => {
            let kind = set_kind(known, op, can, x.kind, y.kind);
            noted(noted_type(kind), TypedNode::Set(op, x.tree, y.tree), kind)
        }
        Operator::Choice(test) => {
            let kind = chosen(known, test.kind, x.kind, y.kind);
            noted(
                noted_type(kind),
                TypedNode::Choice(test.tree, x.tree, y.tree),
                kind,
            )
        }
    }
}

/// A prefix operator's node, of its operand.
pub fn prefix_of(op: u8, x: Part) -> Noted
    ensures tree { typed_tree result.tree ≡ e.Unary (s.noted (bind x.kind (λ u. rule.prefix op u))) op
        (typed_tree x.tree.value) }
    ensures kind { result.kind ≡ bind x.kind (λ u. rule.prefix op u) }
{
    let kind = prefixed(op, x.kind);
    noted(noted_type(kind), TypedNode::Unary(op, x.tree), kind)
}

/// The node of `++` and `--`, of their target and whether it may be set.
pub fn bump_of(by: i32, late: bool, can: bool, x: Part) -> Noted
    ensures tree { typed_tree result.tree ≡ e.Bump value.Number (typed_tree x.tree.value) by late }
    ensures kind { result.kind ≡ bind x.kind (λ u. if can then rule.counted u else None) }
{
    let kind = bump_kind(can, x.kind);
    noted(
        Ty::NUMBER,
        TypedNode::Bump {
            target: x.tree,
            by,
            late,
        },
        kind,
    )
}
