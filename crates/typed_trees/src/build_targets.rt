// Members that are read, and targets that are set or counted: whether each may be set.
ghost use Rattle.std.specs.Prelude.{◌≡◌, true, false, IfOk};
ghost use Rattle.sts_syntax.specs.TypedViews.{typed_tree};
ghost use Rattle.sts_syntax.specs.Views.{tree};
ghost use Rattle.type_derive.specs.Typing as typing;
ghost use Rattle.typed_trees.specs.Sites as s;
ghost use Rattle.typed_trees.specs.Sites.{IsPlan};
ghost use Rattle.typed_trees.specs.Steps.{IsBuilt};
ghost use Rattle.typed_trees.specs.Targets as target;

use crate::build_members::{number_leaf, read_of};
use crate::build_nodes::{Part, boxed};
use crate::build_operators::build_part;
use crate::build_places::{Builder, Noted, Plan, Site};
use crate::build_spots::part_behind;
use sts_base::NoMemory;
use sts_scope::StaticType;
use sts_syntax::{Expr, Node};
use type_derive::{constant, name_fixed, name_found, part_settable};

/// Whether what is no member may be set: an item, and a name that is no `const`.
fn may_be_set(plan: &Plan, site: &Site, x: &Expr) -> bool
    requires { target.is_member (tree x.now) ≡ false }
    ensures { result ≡ typing.settable plan.now.tables.now plan.now.known.now (s.site site.now).place (tree x.now) }
{
    match &x.node {
        Node::Name(n) => !name_fixed(
            plan.known,
            &site.scope,
            name_found(plan.tables, plan.known, &site.scope, *n),
        ),
        Node::Item(_, _) => true,
        _ => false,
    }
}

/// A member that is read, and whether it may be set: no length, no constant of the board.
#[derive(Drop)]
pub struct Member {
    pub read: Noted,
    pub can: bool,
}

/// A member, to whose place a type may be given.
#[cycle(build)]
pub fn build_member(
    plan: &Plan,
    site: &Site,
    builder: &mut Builder,
    given: Option<StaticType>,
    e: &Expr,
) -> Result<Member, NoMemory>
    requires plan { IsPlan plan.now }
    requires form { target.is_member (tree e.now) ≡ true }
    ensures built { IfOk result (λ r. IsBuilt builder.old builder.new
        (s.tree_made plan.now (s.site site.now) given (tree e.now)) (typed_tree r.read.tree)) }
    ensures kind { IfOk result (λ r. r.read.kind ≡ s.tree_kind plan.now (s.site site.now) given (tree e.now)) }
    ensures can { IfOk result (λ r. r.can ≡ typing.settable plan.now.tables.now plan.now.known.now
        (s.site site.now).place (tree e.now)) }
{
    let Node::Member(a, m) = &e.node else {
        unreachable!();
    };
    match constant(plan.tables, plan.known, &site.scope, a, *m) {
        Some(z) => Ok(Member {
            read: number_leaf(z),
            can: false,
        }),
        None => {
            let x = build_part(plan, site, builder, None, a)?;
            let can = part_settable(part_behind(plan, x.kind, *m));
            let read = read_of(plan, *m, x)?;
            Ok(Member { read, can })
        }
    }
}

/// A target, and whether it may be set.
#[derive(Drop)]
pub struct Target {
    pub part: Part,
    pub can: bool,
}

/// A target.
#[cycle(build)]
pub fn build_target(
    plan: &Plan,
    site: &Site,
    builder: &mut Builder,
    e: &Expr,
) -> Result<Target, NoMemory>
    requires { IsPlan plan.now }
    ensures built { IfOk result (λ r. IsBuilt builder.old builder.new
        (s.tree_made plan.now (s.site site.now) None (tree e.now)) (typed_tree r.part.tree.value)) }
    ensures kind { IfOk result (λ r. r.part.kind ≡ s.tree_kind plan.now (s.site site.now) None (tree e.now)) }
    ensures can { IfOk result (λ r. r.can ≡ typing.settable plan.now.tables.now plan.now.known.now
        (s.site site.now).place (tree e.now)) }
{
    match &e.node {
        Node::Member(_, _) => {
            let member = build_member(plan, site, builder, None, e)?;
            let part = Part {
                kind: member.read.kind,
                tree: boxed(plan.alloc, member.read.tree)?,
            };
            Ok(Target {
                part,
                can: member.can,
            })
        }
        _ => {
            let part = build_part(plan, site, builder, None, e)?;
            Ok(Target {
                part,
                can: may_be_set(plan, site, e),
            })
        }
    }
}
