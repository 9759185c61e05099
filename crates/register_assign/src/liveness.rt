// Where a temporary is live.
ghost use Rattle.std.specs.Prelude.{◌≡◌, ℕ, ◌&&◌, if◌then◌else◌, ◌+◌, ◌<◌, ◌≤◌, ◌^◌, not, true, false, length, slice_set, IfOk};
ghost use Rattle.flat_ir.specs.Ops.{writes, goes_on};
ghost use Rattle.register_assign.specs.Marks.{is_the, is_marked, any_marked, is_due, AreMarks, AreLive, HasPassed};

use crate::ops::{reads, written};
use flat_ir::Op;
use std::alloc::Global;
use sts_base::NoMemory;

/// Whether a place is marked; none past the end is.
pub fn is_marked(marks: &[bool], at: usize) -> bool
    ensures { result ≡ is_marked marks.now at }
{
    at < marks.len() && marks[at]
}

/// Whether a place is marked at which a run goes on behind an op.
pub fn is_marked_behind(op: &Op, at: usize, marks: &[bool]) -> bool
    requires { at < length marks.now }
    ensures { result ≡ any_marked marks.now (goes_on at op.now) }
{
    match op {
        Op::Jump { target } => is_marked(marks, *target as usize),
        Op::Branch { target, .. } => is_marked(marks, *target as usize) || is_marked(marks, at + 1),
        Op::Return { .. } => false,
        _ => is_marked(marks, at + 1),
    }
}

/// Whether an op writes a temporary.
pub fn writes(op: &Op, t: usize) -> bool
    ensures { result ≡ is_the t (writes op.now) }
{
    match written(op) {
        Some(to) => to as usize == t,
        None => false,
    }
}

/// Whether a place is to be marked.
fn is_due(op: &Op, t: usize, at: usize, marks: &[bool]) -> bool
    requires { at < length marks.now }
    ensures { result ≡ is_due op.now t at marks.now }
{
    reads(op, t) || (!writes(op, t) && is_marked_behind(op, at, marks))
}

/// Marks a place that is to be marked, and says whether it wasn't.
fn mark(op: &Op, t: usize, at: usize, marks: &mut [bool]) -> bool
    requires { at < length marks.old }
    ensures made { result ≡ (is_due op.now t at marks.old && not (is_marked marks.old at)) }
    ensures marks { marks.new ≡ (if result then slice_set marks.old at true else marks.old) }
{
    if marks[at] || !is_due(op, t, at, marks) {
        return false;
    }
    marks[at] = true;
    true
}

/// Marks, from the last op to the first, each place that is to be marked; says whether one wasn't.
fn pass(ops: &[Op], t: usize, marks: &mut [bool]) -> bool
    requires long { length marks.old ≡ length ops.now }
    requires live { AreLive ops.now t marks.old }
    ensures { HasPassed ops.now t marks.old marks.new result }
{
    let mut changed = false;
    let mut at = ops.len();
    while at > 0 {
        at -= 1;
        let made = mark(&ops[at], t, at, marks);
        if made {
            changed = true;
        }
    }
    changed
}

/// Passes over the ops until all that is to be marked is marked.
fn settle(ops: &[Op], t: usize, marks: &mut [bool])
    requires long { length marks.old ≡ length ops.now }
    requires live { AreLive ops.now t marks.old }
    ensures { AreMarks ops.now t marks.new }
{
    loop {
        let changed = pass(ops, t, marks);
        if !changed {
            return;
        }
    }
}

/// The places at which a temporary is live. A pass carries marks back as far as no jump leads backwards, so there are
/// about as many passes as loops stand in one another.
pub fn live(alloc: Global, ops: &[Op], t: usize) -> Result<Vec<bool>, NoMemory>
    ensures { IfOk result (λ marks. AreMarks ops.now t marks.items) }
{
    let mut marks = match vec![in alloc; false; ops.len()] {
        Ok(marks) => marks,
        Err(_) => return Err(NoMemory),
    };
    settle(ops, t, &mut marks);
    Ok(marks)
}
