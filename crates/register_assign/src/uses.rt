// How much temporaries are used.
ghost use Rattle.std.specs.Prelude.{◌≡◌, ◌<◌, ◌≤◌, length, replicate, IfOk, IfSome, Some};
ghost use Rattle.register_assign.specs.Chosen.{back_to, with_loop, no_bounds, loops, use_weight, weights_to, weights_of, uses_to, is_more, most_used};

use crate::liveness::writes;
use crate::ops::reads;
use flat_ir::Op;
use std::alloc::Global;
use sts_base::NoMemory;

/// Loops in one another that count; a use in a deeper one counts as in the last of these.
const DEEPEST: u32 = 12;

/// Where loops begin and end.
#[derive(Clone, Copy)]
pub struct Bounds {
    /// whether one begins at the op
    pub begins: bool,
    /// how many have ended right before it
    pub ended: u32,
}

/// The op at or before this one at which a run goes on from it.
fn back_to(op: &Op, at: usize) -> Option<usize>
    ensures back { result ≡ back_to at (Some op.now) }
    ensures before { IfSome result (λ target. target ≤ at) }
{
    let target = match op {
        Op::Jump { target } | Op::Branch { target, .. } => *target as usize,
        _ => return None,
    };
    if target <= at { Some(target) } else { None }
}

/// Notes a loop, unless one that begins at the same op is noted.
fn note_loop(bounds: &mut [Bounds], begin: usize, end: usize)
    requires { begin < length bounds.old }
    ensures bounds { bounds.new ≡ with_loop bounds.old begin end }
    ensures long { length bounds.new ≡ length bounds.old }
{
    if bounds[begin].begins {
        return;
    }
    bounds[begin].begins = true;
    if end < bounds.len() {
        bounds[end].ended = bounds[end].ended.saturating_add(1);
    }
}

/// Notes the loops of ops: one begins wherever a run goes back to, and ends behind the last op from which it does.
fn note_loops(ops: &[Op], bounds: &mut [Bounds])
    requires { bounds.old ≡ replicate (length ops.now) no_bounds }
    ensures loops { bounds.new ≡ loops ops.now }
    ensures long { length bounds.new ≡ length ops.now }
{
    let mut at = ops.len();
    while at > 0 {
        at -= 1;
        if let Some(target) = back_to(&ops[at], at) {
            note_loop(bounds, target, at + 1);
        }
    }
}

/// What a use counts in so many loops: ten times as much for each.
fn weight(depth: u32) -> u64
    ensures { result ≡ use_weight depth }
{
    let mut weight = 1u64;
    for _ in 0..depth.min(DEEPEST) {
        weight = weight.saturating_mul(10);
    }
    weight
}

/// What a use at each op counts.
fn weigh(alloc: Global, bounds: &[Bounds]) -> Result<Vec<u64>, NoMemory>
    ensures weights { IfOk result (λ weights. weights.items ≡ weights_to bounds.now (length bounds.now)) }
    ensures long { IfOk result (λ weights. length weights.items ≡ length bounds.now) }
{
    let mut weights = Vec::new(alloc);
    let mut depth = 0u32;
    for here in bounds {
        depth = depth.saturating_sub(here.ended);
        if here.begins {
            depth = depth.saturating_add(1);
        }
        if weights.push(weight(depth)).is_err() {
            return Err(NoMemory);
        }
    }
    Ok(weights)
}

/// What a use at each op counts.
pub fn weights(alloc: Global, ops: &[Op]) -> Result<Vec<u64>, NoMemory>
    ensures weights { IfOk result (λ weights. weights.items ≡ weights_of ops.now) }
    ensures long { IfOk result (λ weights. length weights.items ≡ length ops.now) }
{
    let none = Bounds {
        begins: false,
        ended: 0,
    };
    let mut bounds = match vec![in alloc; none; ops.len()] {
        Ok(bounds) => bounds,
        Err(_) => return Err(NoMemory),
    };
    note_loops(ops, &mut bounds);
    weigh(alloc, &bounds)
}

/// How much a temporary is used: what its reads and writes count, added up.
pub fn uses(ops: &[Op], t: usize, weights: &[u64]) -> u64
    requires { length weights.now ≡ length ops.now }
    ensures { result ≡ uses_to ops.now t weights.now (length ops.now) }
{
    let mut sum = 0u64;
    for (at, op) in ops.iter().enumerate() {
        if reads(op, t) {
            sum = sum.saturating_add(weights[at]);
        }
        if writes(op, t) {
            sum = sum.saturating_add(weights[at]);
        }
    }
    sum
}

/// Whether a use is left, and none is that is as much.
fn is_more(uses: Option<u64>, most: Option<u64>) -> bool
    ensures { result ≡ is_more uses most }
{
    match (uses, most) {
        (Some(uses), Some(most)) => uses > most,
        (uses, _) => uses.is_some(),
    }
}

/// The first of those left that is used most. None where none is left.
pub fn most_used(left: &[Option<u64>]) -> Option<usize>
    ensures most { result ≡ most_used left.now }
    ensures there { IfSome result (λ t. t < length left.now) }
{
    let mut best = None;
    let mut most = None;
    for (t, uses) in left.iter().enumerate() {
        if is_more(*uses, most) {
            best = Some(t);
            most = *uses;
        }
    }
    best
}
