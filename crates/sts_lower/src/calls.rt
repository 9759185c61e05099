// The pieces of calls, of new objects and of arrays.
ghost use Rattle.std.specs.Prelude.{◌≡◌, suc, ◌+◌, ◌<◌, ◌≤◌, ◌^◌, [], ◌∷◌, ◌++◌, length, map, OnOk, IfOk};
ghost use Rattle.sts_syntax.specs.BoardViews.{service_place, board_action};
ghost use Rattle.sts_syntax.specs.Measures.{how_many, total};
ghost use Rattle.sts_syntax.specs.TypedViews.{typed_tree, typed_trees, class_entries};
ghost use Rattle.sts_lower.specs.Sizes as z;
ghost use Rattle.sts_lower.specs.Code as k;
ghost use Rattle.sts_lower.specs.Repeated as r;
ghost use Rattle.sts_lower.specs.inner.Works as p;
ghost use Rattle.sts_lower.specs.inner.Fitting.{WorkFits};
ghost use Rattle.sts_lower.specs.inner.Shown.{works, layout};

use crate::arguments::{own_numbers, places};
use crate::frame::Frame;
use crate::ops::{ask, constant, copy, pair, span};
use crate::sizes::size_of;
use crate::values::{evaluate, put};
use crate::work::{Site, Stack, Work};
use board_services::{PUSH, SPAWN};
use flat_ir::Op;
use std::alloc::Global;
use sts_base::{NoMemory, Seq};
use sts_syntax::{BoardAction, Callee, ServicePlace, TypedClass, TypedExpr, TypedNode};

/// The function whose calls `forever` repeats; without one 0, which no well-typed tree has.
pub(crate) fn handler_of(args: &[TypedExpr]) -> u32
    ensures { result ≡ k.handler_of (typed_trees args.now) }
{
    match args {
        [] => 0,
        [first, ..] => match &first.node {
            TypedNode::Handler(f) => *f,
            TypedNode::Num(_)
            | TypedNode::Text(_)
            | TypedNode::Truth(_)
            | TypedNode::Null
            | TypedNode::This
            | TypedNode::Name(_)
            | TypedNode::Unary(_, _)
            | TypedNode::Binary(_, _, _)
            | TypedNode::Both(_, _)
            | TypedNode::Either(_, _)
            | TypedNode::Choice(_, _, _)
            | TypedNode::Set(_, _, _)
            | TypedNode::Bump { .. }
            | TypedNode::Field(_, _)
            | TypedNode::Length(_)
            | TypedNode::Item(_, _)
            | TypedNode::Call(_, _)
            | TypedNode::SuperCall(_, _)
            | TypedNode::Make(_, _)
            | TypedNode::Items(_) => 0,
        },
    }
}

/// How many of some numbers stand before the first that is f.
pub(crate) fn before(all: &[u32], f: u32) -> u32
    requires { length all.now < 2 ^ 32 }
    ensures count { result ≡ r.before all.now f }
    ensures few { result ≤ length all.now }
{
    let mut count = 0;
    for g in all {
        if *g == f {
            return count;
        }
        count += 1;
    }
    count
}

/// The number of the function that repeats the calls of f.
pub(crate) fn repeating(frame: &Frame, f: u32) -> u32
    requires { frame.now.functions + length frame.now.repeated.now < 2 ^ 32 }
    ensures { result ≡ (layout frame.now).repeating f }
{
    frame.functions + before(frame.repeated, f)
}

/// The constructor of a class; where there is no such class 0.
pub(crate) fn maker_of(classes: &Seq<TypedClass>, class: u32) -> u32
    ensures { result ≡ k.maker_of (class_entries classes.now) class }
{
    match classes.get(class as usize) {
        Some(entry) => entry.maker,
        None => 0,
    }
}

/// A call of the board comes next, behind its n arguments.
fn act<'a>(
    stack: &mut Stack<'a>,
    frame: &Frame<'a>,
    action: BoardAction,
    handler: u32,
    d: u32,
    n: u32,
) -> Result<(), NoMemory>
    requires temporaries { frame.now.base + d + n < 2 ^ 32 }
    requires functions { frame.now.functions + length frame.now.repeated.now < 2 ^ 32 }
    ensures { OnOk result
        (works stack.new ≡ p.puts (p.acts (layout frame.now) (board_action action) handler d n) ++ works stack.old) }
{
    let to = frame.base + d;
    match action {
        BoardAction::Service(service, _) => {
            let args = span(frame.alloc, to, n)?;
            put(stack, Op::Ask { to, service, args })
        }
        BoardAction::Library(_) => put(stack, constant(to, 0)),
        BoardAction::Repeats => {
            let mut args = Seq::new(frame.alloc);
            args.push(to)?;
            put(stack, ask(to, SPAWN, args))?;
            let function = repeating(frame, handler);
            put(stack, Op::HandlerOf { to, function })
        }
    }
}

/// What is called comes next, behind its n arguments.
fn invoke<'a>(
    stack: &mut Stack<'a>,
    frame: &Frame<'a>,
    callee: Callee,
    handler: u32,
    d: u32,
    n: u32,
) -> Result<(), NoMemory>
    requires temporaries { frame.now.base + d + n < 2 ^ 32 }
    requires functions { frame.now.functions + length frame.now.repeated.now < 2 ^ 32 }
    ensures { OnOk result
        (works stack.new ≡ p.puts (p.invokes (layout frame.now) callee handler d n) ++ works stack.old) }
{
    let to = frame.base + d;
    match callee {
        Callee::Function(function) => {
            let args = span(frame.alloc, to, n)?;
            put(stack, Op::Call { to, function, args })
        }
        Callee::Slot(slot) => {
            let args = span(frame.alloc, to, n)?;
            put(stack, Op::CallSlot { to, slot, args })
        }
        Callee::Push => {
            let args = span(frame.alloc, to, n)?;
            put(stack, ask(to, PUSH, args))
        }
        Callee::Pop => put(stack, Op::Pop { to, array: to }),
        Callee::Board(call) => act(stack, frame, call.action(), handler, d, n),
    }
}

/// A call comes next.
#[tactic(auto, using(sts_syntax::proofs::Laws::how_many_are))]
pub(crate) fn open_call<'a>(
    stack: &mut Stack<'a>,
    frame: &Frame<'a>,
    callee: Callee,
    args: &'a Seq<TypedExpr>,
    site: Site,
) -> Result<(), NoMemory>
    requires temporaries { frame.now.base + site.d + p.passed_by callee (how_many (typed_trees args.now)) < 2 ^ 32 }
    requires functions { frame.now.functions + length frame.now.repeated.now < 2 ^ 32 }
    ensures { OnOk result (works stack.new
        ≡ p.called (layout frame.now) callee (typed_trees args.now) site.d site.at ++ works stack.old) }
{
    let n = own_numbers(callee) + args.len() as u32;
    let handler = handler_of(args.as_slice());
    invoke(stack, frame, callee, handler, site.d, n)?;
    stack.push(Work::Arguments {
        places: places(callee),
        args: args.as_slice(),
        d: site.d,
        at: site.at,
    })
}

/// A call of a base's constructor or method comes next.
#[tactic(auto, using(sts_syntax::proofs::Laws::how_many_are))]
pub(crate) fn open_super_call<'a>(
    stack: &mut Stack<'a>,
    frame: &Frame<'a>,
    function: u32,
    args: &'a Seq<TypedExpr>,
    site: Site,
) -> Result<(), NoMemory>
    requires temporaries { frame.now.base + site.d + (how_many (typed_trees args.now) + 1) < 2 ^ 32 }
    requires places { site.at + 1 < 2 ^ 32 }
    ensures { OnOk result (works stack.new
        ≡ p.called_above (layout frame.now) function (typed_trees args.now) site.d site.at ++ works stack.old) }
{
    let to = frame.base + site.d;
    let numbers = span(frame.alloc, to, args.len() as u32 + 1)?;
    put(
        stack,
        Op::Call {
            to,
            function,
            args: numbers,
        },
    )?;
    stack.push(Work::Arguments {
        places: &[],
        args: args.as_slice(),
        d: site.d + 1,
        at: site.at + 1,
    })?;
    put(stack, copy(to, 0))
}

/// The arguments of a constructor: the object, and then what was written.
#[tactic(auto, using(crate::proofs::Spans::span_more))]
fn with_object(alloc: Global, object: u32, first: u32, n: u32) -> Result<Seq<u32>, NoMemory>
    requires { first + n < 2 ^ 32 }
    ensures { IfOk result (λ numbers. numbers ≡ object ∷ k.span first n []) }
{
    let mut numbers = Seq::new(alloc);
    numbers.push(object)?;
    for i in 0..n {
        numbers.push(first + i)?;
    }
    Ok(numbers)
}

/// A new object comes next.
#[tactic(auto, using(sts_syntax::proofs::Laws::how_many_are))]
pub(crate) fn open_make<'a>(
    stack: &mut Stack<'a>,
    frame: &Frame<'a>,
    class: u32,
    args: &'a Seq<TypedExpr>,
    site: Site,
) -> Result<(), NoMemory>
    requires temporaries { frame.now.base + site.d + (how_many (typed_trees args.now) + 1) < 2 ^ 32 }
    ensures { OnOk result
        (works stack.new ≡ p.made (layout frame.now) class (typed_trees args.now) site.d site.at ++ works stack.old) }
{
    let to = frame.base + site.d;
    let n = args.len() as u32;
    let object = frame.base + (n + site.d);
    let function = maker_of(frame.classes, class);
    let numbers = with_object(frame.alloc, object, to, n)?;
    put(
        stack,
        Op::Call {
            to,
            function,
            args: numbers,
        },
    )?;
    put(stack, Op::MakeObject { to: object, class })?;
    stack.push(Work::Arguments {
        places: &[],
        args: args.as_slice(),
        d: site.d,
        at: site.at,
    })
}

/// An array comes next.
#[tactic(auto, using(sts_syntax::proofs::Laws::how_many_are))]
pub(crate) fn open_items<'a>(
    stack: &mut Stack<'a>,
    frame: &Frame<'a>,
    items: &'a Seq<TypedExpr>,
    site: Site,
) -> Result<(), NoMemory>
    requires temporaries { frame.now.base + site.d < 2 ^ 32 }
    requires places { site.at + 1 + how_many (typed_trees items.now) < 2 ^ 32 }
    ensures { OnOk result
        (works stack.new ≡ p.listed (layout frame.now) (typed_trees items.now) site.d site.at ++ works stack.old) }
{
    stack.push(Work::Elements {
        items: items.as_slice(),
        d: site.d,
        at: site.at + 1,
    })?;
    put(
        stack,
        Op::MakeArray {
            to: frame.base + site.d,
            room: items.len() as u32,
        },
    )
}

/// The next argument of a call, and those behind it.
pub(crate) fn open_arguments<'a>(
    stack: &mut Stack<'a>,
    frame: &Frame<'a>,
    places: &'static [ServicePlace],
    args: &'a [TypedExpr],
    d: u32,
    at: u32,
) -> Result<(), NoMemory>
    requires fits { WorkFits (layout frame.now)
        (p.Arguments (map service_place places.now) (typed_trees args.now) d at) }
    ensures { OnOk result (works stack.new ≡ p.opened_arguments (layout frame.now) (map service_place places.now)
        (typed_trees args.now) d at ++ works stack.old) }
{
    match (places, args) {
        ([], []) => Ok(()),
        ([], [a, rest @ ..]) => argument(stack, &[], a, rest, d, at),
        ([ServicePlace::Always(n), behind @ ..], _) => {
            stack.push(Work::Arguments {
                places: behind,
                args,
                d: d + 1,
                at: at + 1,
            })?;
            put(stack, constant(frame.base + d, *n))
        }
        ([ServicePlace::Written, behind @ ..], []) => stack.push(Work::Arguments {
            places: behind,
            args,
            d,
            at,
        }),
        ([ServicePlace::Written, behind @ ..], [a, rest @ ..]) => argument(
            stack, behind, a, rest, d, at,
        ),
    }
}

/// A written argument comes next, and then what is behind it.
fn argument<'a>(
    stack: &mut Stack<'a>,
    places: &'static [ServicePlace],
    a: &'a TypedExpr,
    rest: &'a [TypedExpr],
    d: u32,
    at: u32,
) -> Result<(), NoMemory>
    requires places { at + z.size (typed_tree a.now) < 2 ^ 32 }
    requires operands { d + 1 < 2 ^ 32 }
    ensures { OnOk result (works stack.new ≡ p.Value (typed_tree a.now) d at (at + z.size (typed_tree a.now))
        ∷ (p.Arguments (map service_place places.now) (typed_trees rest.now) (suc d) (at + z.size (typed_tree a.now))
        ∷ works stack.old)) }
{
    stack.push(Work::Arguments {
        places,
        args: rest,
        d: d + 1,
        at: at + size_of(a),
    })?;
    evaluate(stack, a, d, at)
}

/// The next item of an array, and those behind it.
pub(crate) fn open_elements<'a>(
    stack: &mut Stack<'a>,
    frame: &Frame<'a>,
    items: &'a [TypedExpr],
    d: u32,
    at: u32,
) -> Result<(), NoMemory>
    requires fits { WorkFits (layout frame.now) (p.Elements (typed_trees items.now) d at) }
    ensures { OnOk result
        (works stack.new ≡ p.opened_elements (layout frame.now) (typed_trees items.now) d at ++ works stack.old) }
{
    match items {
        [] => Ok(()),
        [a, rest @ ..] => {
            let array = frame.base + d;
            stack.push(Work::Elements {
                items: rest,
                d,
                at: at + size_of(a) + 1,
            })?;
            let args = pair(frame.alloc, array, array + 1)?;
            put(stack, ask(array + 1, PUSH, args))?;
            evaluate(stack, a, d + 1, at)
        }
    }
}
