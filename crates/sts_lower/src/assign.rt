// What is assigned to: what is read from it, and stored in it.
ghost use Rattle.std.specs.Prelude.{◌≡◌, suc, ◌+◌, ◌<◌, ◌^◌, ◌∷◌, ◌++◌, ◌⊎◌, pos, negsuc, OnOk};
ghost use Rattle.sts_lower.specs.Code as k;
ghost use Rattle.sts_lower.specs.inner.Works as p;
ghost use Rattle.sts_lower.specs.inner.Fitting.{TargetFits};
ghost use Rattle.sts_lower.specs.inner.Shown.{works, layout, target_shown};

use crate::frame::Frame;
use crate::ops::{constant, copy, field_get, field_set, get_op, item_get, item_set, set_op, unary};
use crate::targets::Target;
use crate::values::put;
use crate::work::Stack;
use flat_ir::{DECREMENT, INCREMENT, Op};
use sts_base::NoMemory;
use sts_syntax::Spot;

/// The operator of `++` where it adds, and of `--`.
fn bump_op(by: i32) -> u8
    ensures { result ≡ k.bump_op by }
{
    if by < 0 { DECREMENT } else { INCREMENT }
}

/// The op that gives the value of a `++` or `--`, of the new value in a temporary.
fn bumped_op(by: i32, late: bool, to: u32, from: u32) -> Op
    ensures { result ≡ k.bumped_op by late to from }
{
    if late {
        unary(to, if by < 0 { INCREMENT } else { DECREMENT }, from)
    } else {
        Op::Copy { to, from }
    }
}

/// The operand that is stored in a target, whose operands begin with d.
pub(crate) fn stored_at(frame: &Frame, target: Target, d: u32) -> u32
    requires { frame.now.base + p.held_at (layout frame.now) (target_shown target) d < 2 ^ 32 }
    ensures { result ≡ p.held_at (layout frame.now) (target_shown target) d }
{
    match target {
        Target::Name(_) | Target::Nothing => d,
        Target::Field(_) => d + 1,
        Target::Item => d + 2,
    }
}

/// The op that reads a target whose operands begin with d.
pub(crate) fn read_op(frame: &Frame, target: Target, d: u32) -> Op
    requires temporaries { frame.now.base + p.held_at (layout frame.now) (target_shown target) d < 2 ^ 32 }
    requires names { TargetFits frame.now.params (target_shown target) }
    ensures { result ≡ p.reads (layout frame.now) (target_shown target) d }
{
    let first = frame.base + d;
    match target {
        Target::Name(x) => get_op(frame.params, first, x),
        Target::Field(field) => field_get(first + 1, first, field),
        Target::Item => item_get(first + 2, first, first + 1),
        Target::Nothing => constant(first, 0),
    }
}

/// A `++` or `--` of a temporary comes next.
fn bump_temporary(stack: &mut Stack, by: i32, late: bool, t: u32, to: u32) -> Result<(), NoMemory>
    ensures { OnOk result
        (works stack.new ≡ p.Put (Op.Unary t (k.bump_op by) t) ∷ (p.Put (k.bumped_op by late to t) ∷ works stack.old)) }
{
    put(stack, bumped_op(by, late, to, t))?;
    put(stack, unary(t, bump_op(by), t))
}

/// A `++` or `--` of a global comes next.
fn bump_global<'a>(
    stack: &mut Stack<'a>,
    frame: &Frame<'a>,
    by: i32,
    late: bool,
    slot: u32,
    d: u32,
) -> Result<(), NoMemory>
    requires { frame.now.base + d < 2 ^ 32 }
    ensures { OnOk result
        (works stack.new ≡ p.puts (p.bumps_global (layout frame.now) by late slot d) ++ works stack.old) }
{
    let first = frame.base + d;
    if late {
        put(stack, bumped_op(by, late, first, first))?;
    }
    put(stack, Op::GlobalSet { slot, from: first })?;
    put(stack, unary(first, bump_op(by), first))?;
    put(stack, Op::GlobalGet { to: first, slot })
}

/// A `++` or `--` comes next, behind what is evaluated of its target.
pub(crate) fn bump<'a>(
    stack: &mut Stack<'a>,
    frame: &Frame<'a>,
    target: Target,
    by: i32,
    late: bool,
    d: u32,
) -> Result<(), NoMemory>
    requires temporaries { frame.now.base + p.held_at (layout frame.now) (target_shown target) d < 2 ^ 32 }
    requires names { TargetFits frame.now.params (target_shown target) }
    ensures { OnOk result
        (works stack.new ≡ p.puts (p.bumps (layout frame.now) (target_shown target) by late d) ++ works stack.old) }
{
    let first = frame.base + d;
    match target {
        Target::Name(Spot::Param(i)) => bump_temporary(stack, by, late, i, first),
        Target::Name(Spot::Local(i)) => bump_temporary(stack, by, late, frame.params + i, first),
        Target::Name(Spot::Global(slot)) => bump_global(stack, frame, by, late, slot, d),
        Target::Field(field) => {
            let value = first + 1;
            put(stack, bumped_op(by, late, first, value))?;
            put(stack, field_set(first, field, value))?;
            put(stack, unary(value, bump_op(by), value))?;
            put(stack, read_op(frame, target, d))
        }
        Target::Item => {
            let value = first + 2;
            put(stack, bumped_op(by, late, first, value))?;
            put(stack, item_set(first, first + 1, value))?;
            put(stack, unary(value, bump_op(by), value))?;
            put(stack, read_op(frame, target, d))
        }
        Target::Nothing => put(stack, constant(first, 0)),
    }
}

/// A store in a target comes next, whose operands begin with d.
pub(crate) fn store<'a>(
    stack: &mut Stack<'a>,
    frame: &Frame<'a>,
    target: Target,
    d: u32,
) -> Result<(), NoMemory>
    requires temporaries { frame.now.base + p.held_at (layout frame.now) (target_shown target) d < 2 ^ 32 }
    requires names { TargetFits frame.now.params (target_shown target) }
    ensures { OnOk result
        (works stack.new ≡ p.puts (p.stores (layout frame.now) (target_shown target) d) ++ works stack.old) }
{
    let first = frame.base + d;
    match target {
        Target::Name(x) => put(stack, set_op(frame.params, first, x)),
        Target::Field(field) => {
            put(stack, copy(first, first + 1))?;
            put(stack, field_set(first, field, first + 1))
        }
        Target::Item => {
            put(stack, copy(first, first + 2))?;
            put(stack, item_set(first, first + 1, first + 2))
        }
        Target::Nothing => Ok(()),
    }
}
