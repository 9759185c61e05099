// Nodes that hold a list of expressions: what they are, and the nodes themselves.
ghost use Rattle.std.specs.Prelude.{◌≡◌, IfOk};
ghost use Rattle.sts_syntax.specs.BoardTable.{row_of};
ghost use Rattle.sts_syntax.specs.Types.{value_type};
ghost use Rattle.sts_syntax.specs.TypedTrees as typed;
ghost use Rattle.sts_syntax.specs.TypedViews.{typed_tree, typed_trees};
ghost use Rattle.sts_syntax.specs.Views.{tree, trees};
ghost use Rattle.type_derive.specs.inner.Filled as b;
ghost use Rattle.typed_trees.specs.Calls as call;
ghost use Rattle.typed_trees.specs.Sites as s;
ghost use Rattle.typed_trees.specs.Sites.{IsPlan};

use crate::build_arguments::{Takes, routine_of};
use crate::build_nodes::{kind_of, noted_type, or_nothing};
use crate::build_numbers::routine_number;
use crate::build_places::{Noted, Plan, Site};
use crate::build_spots::{class_behind, part_behind, slot_number};
use sts_base::{NoMemory, Seq};
use sts_scope::{Base, Found, Part, StaticType, flat};
use sts_syntax::{BoardAction, BoardCall, Callee, Expr, Node, Ty, TypedExpr, TypedNode};
use type_derive::{board_callee, name_found, super_method, takes_at};

/// What a node with a list is.
#[derive(Clone, Copy)]
pub enum Head {
    /// an array, whose items behind the first are given this type
    Items(StaticType),
    /// `new` of the class of this number
    Make(u32),
    /// a base's method, by its number among the declarations
    Super(usize),
    /// a call of the board
    Board(BoardCall),
    /// a call of what a name stands for
    Named(Found),
    /// a call of what stands behind an object's dot: with the object's class and the name
    Behind(Part, u32, u32),
}

/// A node with a list, before its parts are built.
#[derive(Clone, Copy)]
pub struct ListNode {
    /// what it is; none where the tree has a failure
    pub head: Option<Head>,
    /// its type, if it has one
    pub kind: Option<StaticType>,
    /// the type that it is noted to have
    pub ty: Ty,
}

/// A node with a list, before its parts are built.
pub fn listed(
    plan: &Plan,
    site: &Site,
    given: Option<StaticType>,
    e: &Expr,
) -> Result<ListNode, NoMemory>
    ensures head { IfOk result (λ l. l.head ≡ call.head_of plan.now (s.site site.now) (tree e.now)) }
    ensures kind { IfOk result (λ l. l.kind ≡ s.tree_kind plan.now (s.site site.now) given (tree e.now)) }
    ensures noted { IfOk result (λ l. value_type l.ty ≡ call.type_noted given l.kind (tree e.now)) }
{
    let kind = kind_of(plan, site, given, e)?;
    let head = head_of(plan, site, e)?;
    let ty = node_type(given, kind, e);
    Ok(ListNode { head, kind, ty })
}

/// What a node with a list is. It is none where the tree has a failure. A node without one is none of these.
#[tactic(auto, unfolding(crate::specs::Calls::head_of))]
fn head_of(plan: &Plan, site: &Site, e: &Expr) -> Result<Option<Head>, NoMemory>
    ensures { IfOk result (λ h. h ≡ call.head_of plan.now (s.site site.now) (tree e.now)) }
{
    let known = plan.known;
    match &e.node {
        Node::Items(items) => {
            let kind = first_kind(plan, site, items.as_slice())?;
            Ok(Some(Head::Items(kind)))
        }
        Node::Make(x, _) => {
            let found = name_found(plan.tables, known, &site.scope, *x);
            Ok(Some(Head::Make(class_found(plan, found))))
        }
        Node::SuperCall(m, _) => Ok(super_head(plan, site, *m)),
        Node::Call(f, _) => match board_callee(plan.tables, known, &site.scope, f) {
            Some(call) => Ok(Some(Head::Board(call))),
            None => called_head(plan, site, f),
        },
        _ => Ok(None),
    }
}

/// The type that is given to the items of an array behind the first.
fn first_kind(plan: &Plan, site: &Site, items: &[Expr]) -> Result<StaticType, NoMemory>
    ensures { IfOk result (λ u. u ≡ call.first_kind plan.now (s.site site.now) (trees items.now)) }
{
    match items {
        [] => Ok(flat(Base::Nothing)),
        [first, ..] => Ok(or_nothing(kind_of(plan, site, None, first)?)),
    }
}

/// The class that a name stands for, where `new` makes an object of it.
fn class_found(plan: &Plan, found: Found) -> u32
    ensures { result ≡ s.class_found plan.now found }
{
    match found {
        Found::Class(class) => class,
        Found::Local(_) => 0,
        Found::Captured => 0,
        Found::Global(_) => 0,
        Found::Function(_) => 0,
        Found::Unknown => 0,
    }
}

/// What `super.m(..)` is. `super(..)` stands for nothing here.
fn super_head(plan: &Plan, site: &Site, m: Option<u32>) -> Option<Head>
    ensures { result ≡ call.super_head plan.now (s.site site.now) m }
{
    match m {
        None => None,
        Some(m) => match super_method(plan.known, site.scope.this, m) {
            None => None,
            Some(d) => Some(Head::Super(d)),
        },
    }
}

/// What is called, where it is no call of the board.
fn called_head(plan: &Plan, site: &Site, f: &Expr) -> Result<Option<Head>, NoMemory>
    ensures { IfOk result (λ h. h ≡ call.called_head plan.now (s.site site.now) (tree f.now)) }
{
    match &f.node {
        Node::Name(x) => {
            let found = name_found(plan.tables, plan.known, &site.scope, *x);
            Ok(Some(Head::Named(found)))
        }
        Node::Member(a, m) => {
            let of = kind_of(plan, site, None, a)?;
            let part = part_behind(plan, of, *m);
            Ok(Some(Head::Behind(part, class_behind(of), *m)))
        }
        _ => Ok(None),
    }
}

/// What is given to the places of its list.
pub fn takes_of<'a>(plan: &'a Plan, head: &'a Head) -> Takes<'a>
    ensures { call.places result ≡ call.head_places plan.now head.now }
{
    match head {
        Head::Items(kind) => Takes::Alike(*kind),
        Head::Make(class) => Takes::Given(plan.known.maker_takes(*class)),
        Head::Super(d) => Takes::Given(takes_at(plan.known, *d)),
        Head::Board(call) => Takes::Asked(call.takes()),
        Head::Named(found) => Takes::Given(routine_takes(plan, *found)),
        Head::Behind(part, _, _) => Takes::Given(part_takes(plan, part)),
    }
}

/// What a function takes that a name stands for.
fn routine_takes<'a>(plan: &'a Plan, found: Found) -> &'a [StaticType]
    ensures { result.now ≡ call.routine_takes plan.now found }
{
    match found {
        Found::Function(d) => takes_at(plan.known, d),
        Found::Local(_) => &[],
        Found::Captured => &[],
        Found::Global(_) => &[],
        Found::Class(_) => &[],
        Found::Unknown => &[],
    }
}

/// What is taken of what stands behind a dot.
fn part_takes<'a>(plan: &'a Plan, part: &'a Part) -> &'a [StaticType]
    ensures { result.now ≡ call.part_takes plan.now part.now }
{
    match part {
        Part::Method(d) => takes_at(plan.known, *d),
        Part::Push(kind) => std::slice::from_ref(kind),
        Part::Pop(_) => &[],
        Part::Field(_) => &[],
        Part::Length => &[],
        Part::Missing => &[],
    }
}

/// Whether an object stands before the arguments.
pub fn has_object(head: Head) -> bool
    ensures { result ≡ call.has_object head }
{
    match head {
        Head::Behind(_, _, _) => true,
        Head::Items(_) => false,
        Head::Make(_) => false,
        Head::Super(_) => false,
        Head::Board(_) => false,
        Head::Named(_) => false,
    }
}

/// What is called of a call of the board: a row of the library is the call of its function.
fn board_target(board: BoardCall) -> Callee
    ensures { result ≡ b.board_target board (row_of board).action }
{
    match board.action() {
        BoardAction::Service(_, _) => Callee::Board(board),
        BoardAction::Library(function) => Callee::Function(function),
        BoardAction::Repeats => Callee::Board(board),
    }
}

/// What is called behind a dot.
fn part_target(plan: &Plan, part: Part, class: u32, name: u32) -> Result<Callee, NoMemory>
    requires { IsPlan plan.now }
    ensures { IfOk result (λ callee. callee ≡ call.part_target plan.now part class name) }
{
    match part {
        Part::Method(_) => Ok(Callee::Slot(slot_number(plan, class, name)?)),
        Part::Push(_) => Ok(Callee::Push),
        Part::Pop(_) => Ok(Callee::Pop),
        Part::Field(_) => Ok(Callee::Pop),
        Part::Length => Ok(Callee::Pop),
        Part::Missing => Ok(Callee::Pop),
    }
}

/// A call.
fn call_node(ty: Ty, callee: Callee, args: Seq<TypedExpr>) -> TypedExpr
    ensures { typed_tree result ≡ typed.Call (value_type ty) callee (typed_trees args) }
{
    TypedExpr {
        ty,
        node: TypedNode::Call(callee, args),
    }
}

/// The node, of its type and its list.
#[tactic(auto, using(sts_syntax::proofs::Laws::typed_items_tree, sts_syntax::proofs::Laws::typed_super_call_tree))]
fn head_node(plan: &Plan, ty: Ty, head: Head, args: Seq<TypedExpr>) -> Result<TypedExpr, NoMemory>
    requires { IsPlan plan.now }
    ensures { IfOk result (λ r. typed_tree r ≡ call.head_node plan.now (value_type ty) head (typed_trees args)) }
{
    match head {
        Head::Items(_) => Ok(TypedExpr {
            ty,
            node: TypedNode::Items(args),
        }),
        Head::Make(class) => Ok(TypedExpr {
            ty: Ty::object(class),
            node: TypedNode::Make(class, args),
        }),
        Head::Super(d) => Ok(TypedExpr {
            ty,
            node: TypedNode::SuperCall(routine_number(plan.numbers, d), args),
        }),
        Head::Board(board) => Ok(call_node(ty, board_target(board), args)),
        Head::Named(found) => Ok(call_node(ty, Callee::Function(routine_of(plan, found)), args)),
        Head::Behind(part, class, name) => {
            let callee = part_target(plan, part, class, name)?;
            Ok(call_node(ty, callee, args))
        }
    }
}

/// The node and its type, once its list is built.
pub fn noted_list(
    plan: &Plan,
    list: ListNode,
    head: Head,
    args: Seq<TypedExpr>,
) -> Result<Noted, NoMemory>
    requires { IsPlan plan.now }
    ensures tree { IfOk result (λ r. typed_tree r.tree
        ≡ call.head_node plan.now (value_type list.ty) head (typed_trees args)) }
    ensures kind { IfOk result (λ r. r.kind ≡ list.kind) }
{
    let tree = head_node(plan, list.ty, head, args)?;
    Ok(Noted {
        tree,
        kind: list.kind,
    })
}

/// The type that such a node is noted to have, of its own type: `[]` has that of its place.
fn node_type(given: Option<StaticType>, kind: Option<StaticType>, e: &Expr) -> Ty
    ensures { value_type result ≡ call.type_noted given kind (tree e.now) }
{
    match &e.node {
        Node::Items(items) => match items.as_slice() {
            [] => noted_type(given),
            [_, ..] => noted_type(kind),
        },
        _ => noted_type(kind),
    }
}
