//! Which branches are joined with the comparison before them.
ghost use Rattle.std.specs.Prelude.{◌≡◌, ℕ, ◌<◌, length};
ghost use Rattle.flat_ir.specs.Ops.{target_of};
ghost use Rattle.register_assign.specs.Marks.{is_the, is_marked};
ghost use Rattle.register_assign.specs.Unread.{is_unread};
ghost use Rattle.thumb_emit.specs.Joined.{condition_of_operator, condition_of, condition_for, is_gone_to, joined_by};
ghost use Rattle.thumb_emit.specs.Ready.{IsOpTold, IsJoinTold};

use crate::pieces::{At, EQ, GE, GT, LE, LT, NE};
use flat_ir::{Function, Op};
use register_assign::Placed;
use sts_syntax::operators::{AT_LEAST, AT_MOST, EQUAL, GREATER, LESS, NOT, UNEQUAL};

/// The condition that holds after a comparison where an operator gives 1, if it compares.
fn condition_of_operator(op: u8) -> Option<u8>
    ensures { result ≡ condition_of_operator op }
{
    match op {
        EQUAL => Some(EQ),
        UNEQUAL => Some(NE),
        LESS => Some(LT),
        GREATER => Some(GT),
        AT_MOST => Some(LE),
        AT_LEAST => Some(GE),
        _ => None,
    }
}

/// That of an op whose result is a temporary; `!` compares with 0.
fn condition_of(op: &Op, when: u32) -> Option<u8>
    ensures { result ≡ condition_of when op.now }
{
    match op {
        Op::Unary { to, op, .. } => {
            if *to == when && *op == NOT {
                Some(EQ)
            } else {
                None
            }
        }
        Op::Binary { to, op, .. } => {
            if *to == when {
                condition_of_operator(*op)
            } else {
                None
            }
        }
        _ => None,
    }
}

/// That of an op and the branch after it, which tests the op's result.
fn condition_for(op: &Op, next: &Op) -> Option<u8>
    ensures { result ≡ condition_for op.now next.now }
{
    match next {
        Op::Branch { when, .. } => condition_of(op, *when),
        _ => None,
    }
}

/// Whether an op goes to a place.
fn goes_to(op: &Op, at: usize) -> bool
    ensures { result ≡ is_the at (target_of op.now) }
{
    match op {
        Op::Jump { target } | Op::Branch { target, .. } => *target as usize == at,
        _ => false,
    }
}

/// Whether some op does.
fn is_gone_to(ops: &[Op], at: usize) -> bool
    ensures { result ≡ is_gone_to ops.now at }
{
    ops.iter().any(|op| goes_to(op, at))
}

/// The condition on which the branch at a place goes, where it is joined with the op right before it.
fn joined_by(function: &Function, unread: &[bool], at: usize) -> Option<u8>
    requires long { length unread.now ≡ length function.now.ops }
    requires unread { (at : ℕ) → is_marked unread.now at ≡ is_unread function.now at }
    ensures { result ≡ joined_by function.now at }
{
    let ops = function.ops.as_slice();
    if at == 0 || at >= ops.len() {
        return None;
    }
    let condition = condition_for(&ops[at - 1], &ops[at]);
    if condition.is_some() && unread[at] && !is_gone_to(ops, at) {
        condition
    } else {
        None
    }
}

/// What an op is told with.
pub(crate) fn told(placed: &Placed, unread: &[bool], k: u32) -> At
    requires long { length unread.now ≡ length placed.now.function.ops }
    requires unread { (at : ℕ) → is_marked unread.now at ≡ is_unread placed.now.function at }
    requires there { k < length unread.now }
    ensures number { result.k ≡ k }
    ensures told { IsOpTold placed.now result }
    ensures joined { IsJoinTold placed.now result }
{
    let at = k as usize;
    At {
        k,
        unread: unread[at],
        joined: joined_by(&placed.function, unread, at),
        next: joined_by(&placed.function, unread, at + 1),
    }
}
