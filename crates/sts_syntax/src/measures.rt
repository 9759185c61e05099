// How much a function of a typed program takes: the words of its frame, and its weight, which bounds its code.
ghost use Rattle.std.specs.Prelude.{◌≡◌, ℕ, List, ◌+◌, ◌-◌, ◌<◌, ◌≤◌, ◌^◌, [], map, length, drop, min};
ghost use Rattle.sts_syntax.specs.BoardTable.{placed};
ghost use Rattle.sts_syntax.specs.BoardViews.{service_place};
ghost use Rattle.sts_syntax.specs.Measures as m;
ghost use Rattle.sts_syntax.specs.Weights as w;
ghost use Rattle.sts_syntax.specs.TypedViews.{typed_tree, typed_trees};

use crate::{BoardAction, Callee, ServicePlace, TypedExpr, TypedNode};
use sts_base::Seq;

/// What stands at the places of what is called: nothing but written arguments, except in a service.
#[tactic(auto, using(crate::proofs::Measured::few_places))]
fn places(callee: Callee) -> &'static [ServicePlace]
    ensures sizes { (xs : List ℕ) → m.argument_sizes 1 callee xs ≡ placed (λ n. 1) (map service_place result.now) xs }
    ensures few { length result.now ≤ 4 }
{
    match callee {
        Callee::Board(call) => match call.action() {
            BoardAction::Service(_, places) => places,
            BoardAction::Library(_) | BoardAction::Repeats => &[],
        },
        Callee::Function(_) | Callee::Slot(_) | Callee::Push | Callee::Pop => &[],
    }
}

/// How many numbers of its own a callee gets between the written arguments.
fn own_numbers(callee: Callee) -> u64
    ensures sum { result ≡ m.total (m.argument_sizes 1 callee []) }
    ensures few { result ≤ 4 }
{
    let mut count = 0;
    for place in places(callee) {
        match place {
            ServicePlace::Always(_) => count += 1,
            ServicePlace::Written => {}
        }
    }
    count
}

fn call_weight(callee: Callee) -> u64
    ensures weight { result ≡ w.call_weight callee }
    ensures few { result ≤ 2 }
{
    match callee {
        Callee::Slot(_) => 2,
        Callee::Function(_) | Callee::Push | Callee::Pop | Callee::Board(_) => 1,
    }
}

/// A sum, or 2^64 - 1 where it is greater.
pub(crate) fn sum(a: u64, b: u64) -> u64
    ensures { result ≡ min (a + b) (2 ^ 64 - 1) }
{
    a.saturating_add(b)
}

/// The weight of an expression.
#[cycle(weight)]
pub(crate) fn weight_of(e: &TypedExpr) -> u64
    ensures { result ≡ min (w.weight_of (typed_tree e.now)) (2 ^ 64 - 1) }
{
    match &e.node {
        TypedNode::Num(_)
        | TypedNode::Truth(_)
        | TypedNode::Null
        | TypedNode::This
        | TypedNode::Name(_)
        | TypedNode::Handler(_) => 1,
        TypedNode::Text(_) => 2,
        TypedNode::Unary(_, a) | TypedNode::Field(a, _) | TypedNode::Length(a) => sum(
            1,
            weight_of(a),
        ),
        TypedNode::Binary(_, a, b)
        | TypedNode::Both(a, b)
        | TypedNode::Either(a, b)
        | TypedNode::Item(a, b) => sum(1, sum(weight_of(a), weight_of(b))),
        TypedNode::Choice(test, a, b) => {
            let branches = sum(weight_of(a), weight_of(b));
            sum(1, sum(weight_of(test), branches))
        }
        TypedNode::Set(None, target, a) => sum(1, sum(weight_of(target), weight_of(a))),
        TypedNode::Set(Some(_), target, a) => sum(3, sum(weight_of(target), weight_of(a))),
        TypedNode::Bump { target, .. } => sum(3, weight_of(target)),
        TypedNode::Call(callee, args) => {
            sum(call_weight(*callee) + own_numbers(*callee), weights(args))
        }
        TypedNode::SuperCall(_, args) => sum(1, weights(args)),
        TypedNode::Make(_, args) => sum(3, weights(args)),
        TypedNode::Items(items) => sum(2, weights(items)),
    }
}

/// The weight of a list of expressions.
#[cycle(weight)]
fn weights(all: &Seq<TypedExpr>) -> u64
    ensures { result ≡ min (m.total (w.weights (typed_trees all.now))) (2 ^ 64 - 1) }
{
    let mut weight = 0;
    for a in all.as_slice() {
        weight = sum(weight, weight_of(a));
    }
    weight
}

/// The greatest number of values that are pending at once while an expression is evaluated, its own one included.
#[cycle(hold)]
#[tactic(auto, using(crate::proofs::Holds::hold_le))]
pub(crate) fn hold(e: &TypedExpr) -> u64
    requires few { w.weight_of (typed_tree e.now) < 2 ^ 40 }
    ensures { result ≡ m.hold (typed_tree e.now) }
{
    match &e.node {
        TypedNode::Num(_)
        | TypedNode::Text(_)
        | TypedNode::Truth(_)
        | TypedNode::Null
        | TypedNode::This
        | TypedNode::Handler(_)
        | TypedNode::Name(_) => 1,
        TypedNode::Unary(_, a) | TypedNode::Field(a, _) | TypedNode::Length(a) => hold(a),
        TypedNode::Binary(_, a, b) | TypedNode::Item(a, b) => hold(a).max(1 + hold(b)),
        TypedNode::Both(a, b) | TypedNode::Either(a, b) => hold(a).max(hold(b)),
        TypedNode::Choice(test, a, b) => hold(test).max(hold(a).max(hold(b))),
        TypedNode::Set(None, target, a) => target_hold(target, 0, hold(a)),
        TypedNode::Set(Some(_), target, a) => target_hold(target, 1, hold(a)),
        TypedNode::Bump { target, .. } => target_hold(target, 1, 0),
        TypedNode::Call(callee, args) => placed_hold(places(*callee), 0, args.as_slice()).max(1),
        TypedNode::SuperCall(_, args) => stacked_hold(1, args.as_slice()).max(1),
        TypedNode::Make(_, args) => stacked_hold(0, args.as_slice()).max(1 + args.len() as u64),
        TypedNode::Items(items) => 1 + greatest_hold(items.as_slice()),
    }
}

/// What an assignment to a target holds, of a value that holds so much. `read` is 1 where the target is read first.
#[cycle(hold)]
#[tactic(auto, using(crate::proofs::Holds::hold_le))]
fn target_hold(target: &TypedExpr, read: u64, value: u64) -> u64
    requires few { w.weight_of (typed_tree target.now) < 2 ^ 40 }
    requires read { read ≤ 1 }
    requires value { value < 2 ^ 42 }
    ensures { result ≡ m.target_hold (typed_tree target.now) read value }
{
    match &target.node {
        TypedNode::Name(_) => read + value,
        TypedNode::Field(a, _) => hold(a).max(1 + read + value),
        TypedNode::Item(a, index) => hold(a).max((1 + hold(index)).max(2 + read + value)),
        TypedNode::Num(_)
        | TypedNode::Text(_)
        | TypedNode::Truth(_)
        | TypedNode::Null
        | TypedNode::This
        | TypedNode::Unary(_, _)
        | TypedNode::Binary(_, _, _)
        | TypedNode::Both(_, _)
        | TypedNode::Either(_, _)
        | TypedNode::Choice(_, _, _)
        | TypedNode::Set(_, _, _)
        | TypedNode::Bump { .. }
        | TypedNode::Length(_)
        | TypedNode::Call(_, _)
        | TypedNode::SuperCall(_, _)
        | TypedNode::Make(_, _)
        | TypedNode::Items(_)
        | TypedNode::Handler(_) => 0,
    }
}

/// What arguments hold that are pending one above the other, with the numbers between them, above so many other values.
#[cycle(hold)]
#[tactic(auto, using(crate::proofs::Holds::hold_le))]
fn placed_hold(places: &[ServicePlace], below: u64, args: &[TypedExpr]) -> u64
    requires few { m.total (w.weights (typed_trees args.now)) < 2 ^ 40 }
    requires places { length places.now ≤ 4 }
    requires below { below + length places.now ≤ 4 }
    ensures { result
        ≡ m.stacked below (placed (λ n. 1) (map service_place places.now) (m.holds (typed_trees args.now))) }
{
    match places {
        [] => stacked_hold(below, args),
        [ServicePlace::Always(_), rest @ ..] => {
            (below + 1).max(placed_hold(rest, below + 1, args))
        }
        [ServicePlace::Written, rest @ ..] => match args {
            [] => placed_hold(rest, below, args),
            [a, behind @ ..] => (below + hold(a)).max(placed_hold(rest, below + 1, behind)),
        },
    }
}

/// What expressions hold that are pending one above the other, above so many other values.
#[cycle(hold)]
#[tactic(auto, using(crate::proofs::Holds::hold_le, crate::proofs::Holds::weighs))]
fn stacked_hold(below: u64, all: &[TypedExpr]) -> u64
    requires few { m.total (w.weights (typed_trees all.now)) < 2 ^ 40 }
    requires below { below ≤ 4 }
    ensures { result ≡ m.stacked below (m.holds (typed_trees all.now)) }
{
    let mut most = 0;
    let mut pending = below;
    for a in all {
        most = (pending + hold(a)).max(most);
        pending += 1;
    }
    most
}

/// The greatest that one of some expressions holds.
#[cycle(hold)]
#[tactic(auto, using(crate::proofs::Holds::hold_le))]
fn greatest_hold(all: &[TypedExpr]) -> u64
    requires few { m.total (w.weights (typed_trees all.now)) < 2 ^ 40 }
    ensures { result ≡ m.greatest (m.holds (typed_trees all.now)) }
{
    let mut most = 0;
    for a in all {
        most = hold(a).max(most);
    }
    most
}

fn passed(callee: Callee, arguments: u64) -> u64
    ensures { result ≡ m.passed callee arguments }
{
    match callee {
        Callee::Function(_) | Callee::Slot(_) => arguments,
        Callee::Push | Callee::Pop | Callee::Board(_) => 0,
    }
}

/// The greatest number of arguments that a call in an expression leaves in the frame, with `this`.
#[cycle(outgoing)]
pub(crate) fn outgoing(e: &TypedExpr) -> u64
    requires few { w.weight_of (typed_tree e.now) < 2 ^ 40 }
    ensures { result ≡ m.outgoing (typed_tree e.now) }
{
    match &e.node {
        TypedNode::Num(_)
        | TypedNode::Text(_)
        | TypedNode::Truth(_)
        | TypedNode::Null
        | TypedNode::This
        | TypedNode::Name(_)
        | TypedNode::Handler(_) => 0,
        TypedNode::Unary(_, a)
        | TypedNode::Field(a, _)
        | TypedNode::Length(a)
        | TypedNode::Bump { target: a, .. } => outgoing(a),
        TypedNode::Binary(_, a, b)
        | TypedNode::Both(a, b)
        | TypedNode::Either(a, b)
        | TypedNode::Item(a, b)
        | TypedNode::Set(_, a, b) => outgoing(a).max(outgoing(b)),
        TypedNode::Choice(test, a, b) => outgoing(test).max(outgoing(a).max(outgoing(b))),
        TypedNode::Call(callee, args) => {
            passed(*callee, args.len() as u64).max(outgoing_all(args.as_slice()))
        }
        TypedNode::SuperCall(_, args) => {
            (1 + args.len() as u64).max(outgoing_all(args.as_slice()))
        }
        TypedNode::Make(_, args) => (1 + args.len() as u64).max(outgoing_all(args.as_slice())),
        TypedNode::Items(items) => outgoing_all(items.as_slice()),
    }
}

/// The greatest number of arguments that a call in one of some expressions leaves in the frame.
#[cycle(outgoing)]
fn outgoing_all(all: &[TypedExpr]) -> u64
    requires few { m.total (w.weights (typed_trees all.now)) < 2 ^ 40 }
    ensures { result ≡ m.outgoing_all (typed_trees all.now) }
{
    let mut most = 0;
    for a in all {
        most = outgoing(a).max(most);
    }
    most
}
