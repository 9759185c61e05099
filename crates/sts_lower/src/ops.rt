// Ops by themselves, and lists of temporaries.
ghost use Rattle.std.specs.Prelude.{◌≡◌, ◌+◌, ◌<◌, ◌^◌, [], ◌∷◌, IfOk};
ghost use Rattle.sts_lower.specs.Code as k;
ghost use Rattle.sts_lower.specs.inner.Fitting.{LocalFits};

use flat_ir::Op;
use std::alloc::Global;
use sts_base::{NoMemory, Seq};
use sts_syntax::Spot;

/// A number goes into a temporary.
pub(crate) fn constant(to: u32, value: i32) -> Op
    ensures { result ≡ Op.Const to value }
{
    Op::Const { to, value }
}

/// The number of a truth value.
pub(crate) fn truth_number(value: bool) -> i32
    ensures { result ≡ k.truth_number value }
{
    if value { 1 } else { 0 }
}

/// A temporary is copied.
pub(crate) fn copy(to: u32, from: u32) -> Op
    ensures { result ≡ Op.Copy to from }
{
    Op::Copy { to, from }
}

/// A prefix operator.
pub(crate) fn unary(to: u32, op: u8, from: u32) -> Op
    ensures { result ≡ Op.Unary to op from }
{
    Op::Unary { to, op, from }
}

/// An operator with two operands.
pub(crate) fn binary(to: u32, op: u8, left: u32, right: u32) -> Op
    ensures { result ≡ Op.Binary to op left right }
{
    Op::Binary {
        to,
        op,
        left,
        right,
    }
}

/// The value of a field.
pub(crate) fn field_get(to: u32, object: u32, field: u32) -> Op
    ensures { result ≡ Op.FieldGet to object field }
{
    Op::FieldGet { to, object, field }
}

/// A field's new value.
pub(crate) fn field_set(object: u32, field: u32, from: u32) -> Op
    ensures { result ≡ Op.FieldSet object field from }
{
    Op::FieldSet {
        object,
        field,
        from,
    }
}

/// The value of an array's item.
pub(crate) fn item_get(to: u32, array: u32, index: u32) -> Op
    ensures { result ≡ Op.ItemGet to array index }
{
    Op::ItemGet { to, array, index }
}

/// A new value of an array's item.
pub(crate) fn item_set(array: u32, index: u32, from: u32) -> Op
    ensures { result ≡ Op.ItemSet array index from }
{
    Op::ItemSet { array, index, from }
}

/// A service is asked for.
pub(crate) fn ask(to: u32, service: u8, args: Seq<u32>) -> Op
    ensures { result ≡ Op.Ask to service args }
{
    Op::Ask { to, service, args }
}

/// Where a temporary isn't 0 it goes on at an op.
pub(crate) fn branch(when: u32, target: u32) -> Op
    ensures { result ≡ Op.Branch when target }
{
    Op::Branch { when, target }
}

/// It goes on at an op.
pub(crate) fn jump(target: u32) -> Op
    ensures { result ≡ Op.Jump target }
{
    Op::Jump { target }
}

/// The n numbers from `first` on.
#[tactic(auto, using(crate::proofs::Spans::span_more))]
pub(crate) fn span(alloc: Global, first: u32, n: u32) -> Result<Seq<u32>, NoMemory>
    requires { first + n < 2 ^ 32 }
    ensures { IfOk result (λ numbers. numbers ≡ k.span first n []) }
{
    let mut numbers = Seq::new(alloc);
    for i in 0..n {
        numbers.push(first + i)?;
    }
    Ok(numbers)
}

/// Two numbers.
pub(crate) fn pair(alloc: Global, first: u32, second: u32) -> Result<Seq<u32>, NoMemory>
    ensures { IfOk result (λ numbers. numbers ≡ first ∷ (second ∷ [])) }
{
    let mut numbers = Seq::new(alloc);
    numbers.push(first)?;
    numbers.push(second)?;
    Ok(numbers)
}

/// The op that gives the value of a name, in a function with so many parameters.
pub(crate) fn get_op(params: u32, to: u32, x: Spot) -> Op
    requires { LocalFits params x }
    ensures { result ≡ k.get_op params to x }
{
    match x {
        Spot::Param(i) => Op::Copy { to, from: i },
        Spot::Local(i) => Op::Copy {
            to,
            from: params + i,
        },
        Spot::Global(slot) => Op::GlobalGet { to, slot },
    }
}

/// The op that stores a value under a name.
pub(crate) fn set_op(params: u32, from: u32, x: Spot) -> Op
    requires { LocalFits params x }
    ensures { result ≡ k.set_op params from x }
{
    match x {
        Spot::Param(i) => Op::Copy { to: i, from },
        Spot::Local(i) => Op::Copy {
            to: params + i,
            from,
        },
        Spot::Global(slot) => Op::GlobalSet { slot, from },
    }
}
