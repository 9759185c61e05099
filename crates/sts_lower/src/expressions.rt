// The pieces of an expression.
ghost use Rattle.std.specs.Prelude.{◌≡◌, suc, ◌+◌, ◌<◌, ◌^◌, [], ◌∷◌, ◌++◌, length, OnOk};
ghost use Rattle.sts_syntax.specs.TypedViews.{typed_tree};
ghost use Rattle.sts_lower.specs.Sizes as z;
ghost use Rattle.sts_lower.specs.inner.Works as p;
ghost use Rattle.sts_lower.specs.inner.Fitting.{WorkFits, IsTarget};
ghost use Rattle.sts_lower.specs.inner.Shown.{works, layout};

use crate::assign::{bump, read_op, store, stored_at};
use crate::calls::{open_call, open_items, open_make, open_super_call};
use crate::frame::Frame;
use crate::ops::{
    binary, branch, constant, copy, field_get, get_op, item_get, jump, truth_number, unary,
};
use crate::sizes::{reach_size, size_of};
use crate::targets::target_of;
use crate::values::{evaluate, evaluate_both, push_reach, push_value, put};
use crate::work::{Site, Stack};
use flat_ir::Op;
use sts_base::NoMemory;
use sts_syntax::{TypedExpr, TypedNode};

/// An op on the value of an expression comes next.
fn apply<'a>(stack: &mut Stack<'a>, op: Op, a: &'a TypedExpr, site: Site) -> Result<(), NoMemory>
    requires { site.at + z.size (typed_tree a.now) < 2 ^ 32 }
    ensures { OnOk result (works stack.new ≡ p.Value (typed_tree a.now) site.d site.at
        (site.at + z.size (typed_tree a.now)) ∷ (p.Put op ∷ works stack.old)) }
{
    put(stack, op)?;
    evaluate(stack, a, site.d, site.at)
}

/// An op on the values of two expressions comes next.
fn apply_both<'a>(
    stack: &mut Stack<'a>,
    op: Op,
    a: &'a TypedExpr,
    b: &'a TypedExpr,
    site: Site,
) -> Result<(), NoMemory>
    requires places { site.at + z.size (typed_tree a.now) + z.size (typed_tree b.now) < 2 ^ 32 }
    requires operands { site.d + 1 < 2 ^ 32 }
    ensures { OnOk result
        (works stack.new ≡ p.Value (typed_tree a.now) site.d site.at (site.at + z.size (typed_tree a.now))
        ∷ (p.Value (typed_tree b.now) (suc site.d) (site.at + z.size (typed_tree a.now))
        (site.at + z.size (typed_tree a.now) + z.size (typed_tree b.now)) ∷ (p.Put op ∷ works stack.old))) }
{
    put(stack, op)?;
    evaluate_both(stack, a, b, site.d, site.at)
}

/// `a && b` comes next.
fn open_both<'a>(
    stack: &mut Stack<'a>,
    frame: &Frame<'a>,
    a: &'a TypedExpr,
    b: &'a TypedExpr,
    site: Site,
) -> Result<(), NoMemory>
    requires places { site.at + z.size (typed_tree a.now) + 2 < 2 ^ 32 }
    requires temporaries { frame.now.base + site.d < 2 ^ 32 }
    ensures { OnOk result (works stack.new
        ≡ p.both (layout frame.now) (typed_tree a.now) (typed_tree b.now) site.d site.at site.next ++ works stack.old) }
{
    let behind = site.at + size_of(a) + 1 + 1;
    push_value(stack, b, site.beginning(behind))?;
    // Where a is false, b is not evaluated.
    let skip = jump(site.next);
    put(stack, skip)?;
    apply(stack, branch(frame.base + site.d, behind), a, site)
}

/// `a || b` comes next.
fn open_either<'a>(
    stack: &mut Stack<'a>,
    frame: &Frame<'a>,
    a: &'a TypedExpr,
    b: &'a TypedExpr,
    site: Site,
) -> Result<(), NoMemory>
    requires places { site.at + z.size (typed_tree a.now) + 1 < 2 ^ 32 }
    requires temporaries { frame.now.base + site.d < 2 ^ 32 }
    ensures { OnOk result (works stack.new ≡ p.either (layout frame.now) (typed_tree a.now)
        (typed_tree b.now) site.d site.at site.next ++ works stack.old) }
{
    let behind = site.at + size_of(a) + 1;
    push_value(stack, b, site.beginning(behind))?;
    apply(stack, branch(frame.base + site.d, site.next), a, site)
}

/// `test ? a : b` comes next. The ops of `a` stand behind those of `b`.
fn open_choice<'a>(
    stack: &mut Stack<'a>,
    frame: &Frame<'a>,
    test: &'a TypedExpr,
    a: &'a TypedExpr,
    b: &'a TypedExpr,
    site: Site,
) -> Result<(), NoMemory>
    requires places { site.at + z.size (typed_tree test.now) + 1 + z.size (typed_tree b.now) + 1 < 2 ^ 32 }
    requires temporaries { frame.now.base + site.d < 2 ^ 32 }
    ensures { OnOk result (works stack.new ≡ p.choice (layout frame.now) (typed_tree test.now) (typed_tree a.now)
        (typed_tree b.now) site.d site.at site.next ++ works stack.old) }
{
    let otherwise = site.at + size_of(test) + 1;
    let so = otherwise + size_of(b) + 1;
    push_value(stack, a, site.beginning(so))?;
    put(stack, jump(site.next))?;
    push_value(stack, b, site.beginning(otherwise))?;
    apply(stack, branch(frame.base + site.d, so), test, site)
}

/// An assignment comes next.
#[tactic(auto, using(crate::proofs::Assigning::target_fits))]
fn open_store<'a>(
    stack: &mut Stack<'a>,
    frame: &Frame<'a>,
    x: &'a TypedExpr,
    r: &'a TypedExpr,
    site: Site,
) -> Result<(), NoMemory>
    requires places { site.at + z.reach_size (typed_tree x.now) + z.size (typed_tree r.now) < 2 ^ 32 }
    requires temporaries { frame.now.base + p.held_at (layout frame.now) (z.target (typed_tree x.now)) site.d < 2 ^ 32 }
    requires names { IsTarget frame.now.params (typed_tree x.now) }
    ensures { OnOk result (works stack.new
        ≡ p.assigned (layout frame.now) (typed_tree x.now) (typed_tree r.now) site.d site.at ++ works stack.old) }
{
    let target = target_of(x);
    store(stack, frame, target, site.d)?;
    let held = stored_at(frame, target, site.d);
    evaluate(stack, r, held, site.at + reach_size(x))?;
    push_reach(stack, x, site)
}

/// A compound assignment comes next.
#[tactic(auto, using(crate::proofs::Assigning::target_fits))]
fn open_compound<'a>(
    stack: &mut Stack<'a>,
    frame: &Frame<'a>,
    op: u8,
    x: &'a TypedExpr,
    r: &'a TypedExpr,
    site: Site,
) -> Result<(), NoMemory>
    requires places { site.at + z.reach_size (typed_tree x.now) + 1 + z.size (typed_tree r.now) < 2 ^ 32 }
    requires temporaries { frame.now.base
        + suc (p.held_at (layout frame.now) (z.target (typed_tree x.now)) site.d) < 2 ^ 32 }
    requires names { IsTarget frame.now.params (typed_tree x.now) }
    ensures { OnOk result (works stack.new
        ≡ p.compounded (layout frame.now) op (typed_tree x.now) (typed_tree r.now) site.d site.at ++ works stack.old) }
{
    let target = target_of(x);
    let held = stored_at(frame, target, site.d);
    let to = frame.base + held;
    store(stack, frame, target, site.d)?;
    put(stack, binary(to, op, to, to + 1))?;
    evaluate(stack, r, held + 1, site.at + reach_size(x) + 1)?;
    put(stack, read_op(frame, target, site.d))?;
    push_reach(stack, x, site)
}

/// A `++` or `--` comes next.
#[tactic(auto, using(crate::proofs::Assigning::target_fits))]
fn open_bump<'a>(
    stack: &mut Stack<'a>,
    frame: &Frame<'a>,
    x: &'a TypedExpr,
    by: i32,
    late: bool,
    site: Site,
) -> Result<(), NoMemory>
    requires temporaries { frame.now.base + p.held_at (layout frame.now) (z.target (typed_tree x.now)) site.d < 2 ^ 32 }
    requires names { IsTarget frame.now.params (typed_tree x.now) }
    ensures { OnOk result
        (works stack.new ≡ p.bumped (layout frame.now) (typed_tree x.now) by late site.d site.at ++ works stack.old) }
{
    bump(stack, frame, target_of(x), by, late, site.d)?;
    push_reach(stack, x, site)
}

/// The pieces of an expression come next.
pub(crate) fn open_value<'a>(
    stack: &mut Stack<'a>,
    frame: &Frame<'a>,
    e: &'a TypedExpr,
    site: Site,
) -> Result<(), NoMemory>
    requires fits { WorkFits (layout frame.now) (p.Value (typed_tree e.now) site.d site.at site.next) }
    requires functions { frame.now.functions + length frame.now.repeated.now < 2 ^ 32 }
    ensures { OnOk result (works stack.new
        ≡ p.opened_value (layout frame.now) (typed_tree e.now) site.d site.at site.next ++ works stack.old) }
{
    let to = frame.base + site.d;
    match &e.node {
        TypedNode::Both(a, b) => open_both(stack, frame, a, b, site),
        TypedNode::Either(a, b) => open_either(stack, frame, a, b, site),
        TypedNode::Choice(test, a, b) => open_choice(stack, frame, test, a, b, site),
        TypedNode::Set(None, x, r) => open_store(stack, frame, x, r, site),
        TypedNode::Set(Some(op), x, r) => open_compound(stack, frame, *op, x, r, site),
        TypedNode::Bump { target, by, late } => open_bump(stack, frame, target, *by, *late, site),
        TypedNode::Call(callee, args) => open_call(stack, frame, *callee, args, site),
        TypedNode::SuperCall(f, args) => open_super_call(stack, frame, *f, args, site),
        TypedNode::Make(class, args) => open_make(stack, frame, *class, args, site),
        TypedNode::Items(items) => open_items(stack, frame, items, site),
        TypedNode::Unary(op, a) => apply(stack, unary(to, *op, to), a, site),
        TypedNode::Field(a, field) => apply(stack, field_get(to, to, *field), a, site),
        TypedNode::Length(a) => apply(stack, Op::Length { to, array: to }, a, site),
        TypedNode::Binary(op, a, b) => apply_both(stack, binary(to, *op, to, to + 1), a, b, site),
        TypedNode::Item(a, index) => apply_both(stack, item_get(to, to, to + 1), a, index, site),
        TypedNode::Num(value) => put(stack, constant(to, *value)),
        TypedNode::Text(text) => put(stack, Op::TextOf { to, text: *text }),
        TypedNode::Truth(value) => put(stack, constant(to, truth_number(*value))),
        TypedNode::Null => put(stack, constant(to, 0)),
        TypedNode::This => put(stack, copy(to, 0)),
        TypedNode::Name(x) => put(stack, get_op(frame.params, to, *x)),
        TypedNode::Handler(f) => put(stack, Op::HandlerOf { to, function: *f }),
    }
}

/// The pieces of what is evaluated of a target come next.
pub(crate) fn open_reach<'a>(
    stack: &mut Stack<'a>,
    frame: &Frame<'a>,
    target: &'a TypedExpr,
    d: u32,
    at: u32,
) -> Result<(), NoMemory>
    requires fits { WorkFits (layout frame.now) (p.Reach (typed_tree target.now) d at) }
    ensures { OnOk result
        (works stack.new ≡ p.opened_reach (layout frame.now) (typed_tree target.now) d at ++ works stack.old) }
{
    match &target.node {
        TypedNode::Field(a, _) => evaluate(stack, a, d, at),
        TypedNode::Item(a, index) => evaluate_both(stack, a, index, d, at),
        _ => Ok(()),
    }
}
