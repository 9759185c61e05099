// Expressions of a list: what is given to the place of each, and those that are there without being built.
ghost use Rattle.std.specs.Prelude.{◌≡◌, ◌+◌, ◌*◌, ◌^◌, ◌<◌, ◌==◌, pos, slice_get, true, if◌then◌else◌};
ghost use Rattle.std.specs.Option.{option_map};
ghost use Rattle.sts_syntax.specs.BoardViews.{board_parameter};
ghost use Rattle.sts_syntax.specs.TypedViews.{typed_tree};
ghost use Rattle.sts_syntax.specs.Views.{tree};
ghost use Rattle.type_derive.specs.inner.Filled as b;
ghost use Rattle.type_derive.specs.Typing as typing;
ghost use Rattle.typed_trees.specs.Calls as call;
ghost use Rattle.typed_trees.specs.Sites as s;

use crate::build_numbers::routine_number;
use crate::build_places::{Plan, Site};
use sts_base::Tables;
use sts_scope::{Base, Found, StaticType, flat};
use sts_syntax::{BoardParameter, Expr, Node, Ty, TypedExpr, TypedNode};
use type_derive::{draws, name_found};

/// What is given to the places of a list.
#[derive(Clone, Copy)]
pub enum Takes<'a> {
    /// each its type
    Given(&'a [StaticType]),
    /// all behind the first one that one's type
    Alike(StaticType),
    /// what a call of the board asks for
    Asked(&'a [BoardParameter]),
}

/// An expression of a list.
#[derive(Drop)]
pub enum Planned {
    /// it is to be built, where this type is given to its place
    Built(Option<StaticType>),
    /// it is there already
    There(TypedExpr),
}

/// What is planned of the i-th expression of a list.
pub fn plan_argument(plan: &Plan, site: &Site, takes: Takes, i: usize, a: &Expr) -> Planned
    ensures { call.planned_made plan.now (s.site site.now) result (tree a.now)
        ≡ call.argument_made plan.now (s.site site.now) (call.places takes.entry) i (tree a.now) }
{
    match takes {
        Takes::Given(takes) => Planned::Built(given_at(takes, i)),
        Takes::Alike(kind) => Planned::Built(alike_given(i, kind)),
        Takes::Asked(takes) => asked_one(plan, site, asked_at(takes, i), a),
    }
}

/// The type that is given to the i-th place.
fn given_at(takes: &[StaticType], i: usize) -> Option<StaticType>
    ensures { result ≡ slice_get takes.now i }
{
    match takes.get(i) {
        None => None,
        Some(kind) => Some(*kind),
    }
}

/// The type that is given to the i-th item of an array.
fn alike_given(i: usize, kind: StaticType) -> Option<StaticType>
    ensures { result ≡ call.alike_given i kind }
{
    if i == 0 { None } else { Some(kind) }
}

/// What is asked for at the i-th place.
fn asked_at(takes: &[BoardParameter], i: usize) -> Option<BoardParameter>
    ensures { result ≡ slice_get takes.now i }
{
    match takes.get(i) {
        None => None,
        Some(parameter) => Some(*parameter),
    }
}

/// What is planned of an argument of a call of the board.
fn asked_one(plan: &Plan, site: &Site, asked: Option<BoardParameter>, a: &Expr) -> Planned
    ensures { call.planned_made plan.now (s.site site.now) result (tree a.now)
        ≡ call.asked_one plan.now (s.site site.now) (option_map board_parameter asked) (tree a.now) }
{
    match asked {
        None => Planned::Built(None),
        Some(BoardParameter::Number) => Planned::Built(Some(flat(Base::Number))),
        Some(BoardParameter::Text) => Planned::Built(Some(flat(Base::Text))),
        Some(BoardParameter::Handler) => served(plan, site, a),
        Some(BoardParameter::Drawing) => Planned::There(drawing(plan, a)),
    }
}

/// What serves events: a function expression is built, else it is a function's name.
fn served(plan: &Plan, site: &Site, a: &Expr) -> Planned
    ensures { call.planned_made plan.now (s.site site.now) result (tree a.now)
        ≡ call.served plan.now (s.site site.now) (tree a.now) }
{
    match &a.node {
        Node::Handler(_) => Planned::Built(None),
        Node::Name(x) => Planned::There(TypedExpr {
            ty: Ty::NOTHING,
            node: TypedNode::Handler(routine_of(
                plan,
                name_found(plan.tables, plan.known, &site.scope, *x),
            )),
        }),
        _ => Planned::There(amiss()),
    }
}

/// What stands where a tree has a failure.
pub fn amiss() -> TypedExpr
    ensures { typed_tree result ≡ b.amiss }
{
    TypedExpr {
        ty: Ty::NULL,
        node: TypedNode::Null,
    }
}

/// The number of the function that a name stands for.
pub fn routine_of(plan: &Plan, found: Found) -> u32
    ensures { result ≡ call.routine_of plan.now found }
{
    match found {
        Found::Function(d) => routine_number(plan.numbers, d),
        Found::Local(_) => 0,
        Found::Captured => 0,
        Found::Global(_) => 0,
        Found::Class(_) => 0,
        Found::Unknown => 0,
    }
}

/// The bytes of a text; none where it has no number in the table.
fn text_at(tables: &Tables, text: u32) -> &[u8]
    ensures { result.now ≡ typing.text_at tables.now text }
{
    match tables.texts.get(text as usize) {
        None => &[],
        Some(bytes) => bytes.as_slice(),
    }
}

/// A frame with one light more before it, unless the byte is white space.
fn light(frame: u32, byte: u8) -> u32
    requires { frame < 2 ^ 31 }
    ensures { result ≡ (if typing.is_white byte then frame else (if byte == 35 then 1 else 0) + 2 * frame) }
{
    if byte == 32 || byte == 9 || byte == 10 || byte == 13 {
        frame
    } else if byte == 35 {
        1 + 2 * frame
    } else {
        2 * frame
    }
}

/// The frame that a text draws.
#[tactic(auto, using(crate::proofs::Drawn::light_more, crate::proofs::Drawn::none_drawn, crate::proofs::Drawn::is_small))]
fn frame_of(bytes: &[u8]) -> i32
    requires { typing.draws bytes.now ≡ true }
    ensures { result ≡ pos (b.frame_of (typing.drawn bytes.now)) }
{
    let mut frame: u32 = 0;
    for i in 0..bytes.len() {
        frame = light(frame, bytes[bytes.len() - 1 - i]);
    }
    match i32::try_from(frame) {
        Ok(frame) => frame,
        Err(_) => unreachable!(),
    }
}

/// A drawing, as the number of its frame.
fn drawing(plan: &Plan, a: &Expr) -> TypedExpr
    ensures { typed_tree result ≡ call.drawing plan.now (tree a.now) }
{
    match &a.node {
        Node::Text(text) => {
            let bytes = text_at(plan.tables, *text);
            if !draws(bytes) {
                return amiss();
            }
            TypedExpr {
                ty: Ty::NUMBER,
                node: TypedNode::Num(frame_of(bytes)),
            }
        }
        _ => amiss(),
    }
}
