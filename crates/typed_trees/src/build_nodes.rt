// What nodes of typed trees are made of.
ghost use Rattle.std.specs.Prelude.{◌≡◌, IfOk, unwrap_or};
ghost use Rattle.sts_syntax.specs.Types as value;
ghost use Rattle.sts_syntax.specs.TypedViews.{typed_node_tree, typed_tree};
ghost use Rattle.sts_syntax.specs.Views.{tree};
ghost use Rattle.sts_scope.specs.Kinds.{nothing};
ghost use Rattle.typed_trees.specs.Sites as s;

use crate::build_places::{Noted, Plan, Site};
use crate::build_types::type_of_values;
use std::alloc::Global;
use sts_base::NoMemory;
use sts_scope::{Base, StaticType, flat};
use sts_syntax::{Expr, Ty, TypedExpr, TypedNode};
use type_derive::{Context, Role, Wanted, type_of};

/// A typed expression in a box of its own, and its type.
#[derive(Drop)]
pub struct Part {
    pub tree: Box<TypedExpr>,
    /// its type, if it has one
    pub kind: Option<StaticType>,
}

/// A value in a box of its own.
pub fn boxed<T: Drop>(alloc: Global, value: T) -> Result<Box<T>, NoMemory>
    ensures { IfOk result (λ b. b.value ≡ value) }
{
    match Box::new(alloc, value) {
        Ok(held) => Ok(held),
        Err(_) => Err(NoMemory),
    }
}

/// A node with the type that is noted, and its type.
pub fn noted(ty: Ty, node: TypedNode, kind: Option<StaticType>) -> Noted
    ensures tree { typed_tree result.tree ≡ typed_node_tree ty node }
    ensures kind { result.kind ≡ kind }
{
    Noted {
        tree: TypedExpr { ty, node },
        kind,
    }
}

/// A type, or `void` where there is none.
pub fn or_nothing(of: Option<StaticType>) -> StaticType
    ensures { result ≡ unwrap_or of nothing }
{
    match of {
        None => flat(Base::Nothing),
        Some(of) => of,
    }
}

/// The type that is noted where this one was found, or none.
pub fn noted_type(of: Option<StaticType>) -> Ty
    ensures { value.value_type result ≡ s.noted of }
{
    type_of_values(or_nothing(of))
}

/// What the place of an expression does with it, to which a type may be given.
fn role_of(given: Option<StaticType>) -> Role
    ensures { result ≡ s.role given }
{
    match given {
        None => Role::Free,
        Some(_) => Role::Given,
    }
}

/// The type of an expression, to whose place a type may be given.
#[tactic(auto, unfolding(crate::specs::Sites::tree_kind))]
pub fn kind_of(
    plan: &Plan,
    site: &Site,
    given: Option<StaticType>,
    e: &Expr,
) -> Result<Option<StaticType>, NoMemory>
    ensures { IfOk result (λ u. u ≡ s.tree_kind plan.now (s.site site.now) given (tree e.now)) }
{
    let context = Context {
        alloc: plan.alloc,
        tables: plan.tables,
        classes: plan.classes,
        known: plan.known,
    };
    let mut wanted = Wanted::nothing(plan.alloc);
    type_of(&mut wanted, &context, &site.scope, role_of(given), e)
}
