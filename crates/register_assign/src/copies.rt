// A function once more.
ghost use Rattle.std.specs.Prelude.{◌≡◌, IfOk};

use flat_ir::{Function, Op};
use std::alloc::Global;
use sts_base::{NoMemory, Seq};

fn copied_numbers(alloc: Global, numbers: &[u32]) -> Result<Seq<u32>, NoMemory>
    ensures { IfOk result (λ copy. copy ≡ numbers.now) }
{
    let mut copy = Seq::new(alloc);
    for x in numbers {
        copy.push(*x)?;
    }
    Ok(copy)
}

fn copied_op(alloc: Global, op: &Op) -> Result<Op, NoMemory>
    ensures { IfOk result (λ copy. copy ≡ op.now) }
{
    let copy = match *op {
        Op::Const { to, value } => Op::Const { to, value },
        Op::Copy { to, from } => Op::Copy { to, from },
        Op::Unary { to, op, from } => Op::Unary { to, op, from },
        Op::Binary {
            to,
            op,
            left,
            right,
        } => Op::Binary {
            to,
            op,
            left,
            right,
        },
        Op::GlobalGet { to, slot } => Op::GlobalGet { to, slot },
        Op::GlobalSet { slot, from } => Op::GlobalSet { slot, from },
        Op::FieldGet { to, object, field } => Op::FieldGet { to, object, field },
        Op::FieldSet {
            object,
            field,
            from,
        } => Op::FieldSet {
            object,
            field,
            from,
        },
        Op::ItemGet { to, array, index } => Op::ItemGet { to, array, index },
        Op::ItemSet { array, index, from } => Op::ItemSet { array, index, from },
        Op::Length { to, array } => Op::Length { to, array },
        Op::Pop { to, array } => Op::Pop { to, array },
        Op::TextOf { to, text } => Op::TextOf { to, text },
        Op::MakeObject { to, class } => Op::MakeObject { to, class },
        Op::MakeArray { to, room } => Op::MakeArray { to, room },
        Op::HandlerOf { to, function } => Op::HandlerOf { to, function },
        Op::Jump { target } => Op::Jump { target },
        Op::Branch { when, target } => Op::Branch { when, target },
        Op::Return { from } => Op::Return { from },
        Op::Call {
            to,
            function,
            ref args,
        } => {
            let args = copied_numbers(alloc, args.as_slice())?;
            Op::Call { to, function, args }
        }
        Op::CallSlot { to, slot, ref args } => {
            let args = copied_numbers(alloc, args.as_slice())?;
            Op::CallSlot { to, slot, args }
        }
        Op::Ask {
            to,
            service,
            ref args,
        } => {
            let args = copied_numbers(alloc, args.as_slice())?;
            Op::Ask { to, service, args }
        }
    };
    Ok(copy)
}

fn copied_ops(alloc: Global, ops: &[Op]) -> Result<Seq<Op>, NoMemory>
    ensures { IfOk result (λ copy. copy ≡ ops.now) }
{
    let mut copy = Seq::new(alloc);
    for op in ops {
        copy.push(copied_op(alloc, op)?)?;
    }
    Ok(copy)
}

/// The same function once more.
pub fn copied(alloc: Global, function: &Function) -> Result<Function, NoMemory>
    ensures { IfOk result (λ copy. copy ≡ function.now) }
{
    Ok(Function {
        params: function.params,
        locals: function.locals,
        operands: function.operands,
        outgoing: function.outgoing,
        ops: copied_ops(alloc, function.ops.as_slice())?,
    })
}
