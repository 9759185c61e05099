// Which results nobody reads, and which conditions nobody reads again.
ghost use Rattle.std.specs.Prelude.{◌≡◌, ℕ, ◌↔◌, true, length, IfOk, OnOk};
ghost use Rattle.flat_ir.specs.declared.ops.Function.{Function};
ghost use Rattle.flat_ir.specs.WellFormed.{IsWellFormedFunction, temporaries};
ghost use Rattle.register_assign.specs.Marks.{is_the, is_marked, AreMarks};
ghost use Rattle.register_assign.specs.Unread.{written_or_tested, is_unread, HasDeadResult, AreNoted, AreNotedAnew};

use crate::liveness::{is_marked_behind, live, writes};
use flat_ir::{Function, Op};
use std::alloc::Global;
use sts_base::NoMemory;

/// Whether an op writes a temporary, or is a branch that tests it.
fn handles(op: &Op, t: usize) -> bool
    ensures { result ≡ is_the t (written_or_tested op.now) }
{
    match op {
        Op::Branch { when, .. } => *when as usize == t,
        _ => writes(op, t),
    }
}

/// Notes at each op that writes or tests a temporary whether it isn't live after it.
fn note(ops: &[Op], t: usize, marks: &[bool], notes: &mut [bool])
    requires marks { AreMarks ops.now t marks.now }
    requires long { length notes.old ≡ length ops.now }
    ensures { AreNotedAnew ops.now t (length ops.now) notes.old notes.new }
{
    for (at, op) in ops.iter().enumerate() {
        if handles(op, t) {
            notes[at] = !is_marked_behind(op, at, marks);
        }
    }
}

/// Notes at each op whether nobody reads its result.
fn note_all(alloc: Global, function: &Function, notes: &mut [bool]) -> Result<(), NoMemory>
    requires well_formed { IsWellFormedFunction function.now }
    requires none { AreNoted function.now.ops 0 notes.old }
    ensures { OnOk result (AreNoted function.now.ops (temporaries function.now) notes.new) }
{
    let ops = function.ops.as_slice();
    for t in 0..function.params + function.locals + function.operands {
        let marks = live(alloc, ops, t as usize)?;
        note(ops, t as usize, &marks, notes);
    }
    Ok(())
}

/// At which ops of a function nobody reads the result: the temporary that the op writes is live at no place where a run
/// goes on. Of a branch it is the temporary that it tests.
///
/// `NoMemory` comes only for want of memory.
pub fn unread_results(alloc: Global, function: &Function) -> Result<Vec<bool>, NoMemory>
    requires { IsWellFormedFunction function.now }
    ensures long { IfOk result (λ unread. length unread.items ≡ length function.now.ops) }
    ensures unread { IfOk result (λ unread. (at : ℕ) → is_marked unread.items at ≡ is_unread function.now at) }
{
    let mut notes = match vec![in alloc; false; function.ops.len()] {
        Ok(notes) => notes,
        Err(_) => return Err(NoMemory),
    };
    note_all(alloc, function, &mut notes)?;
    Ok(notes)
}

/// A result is one that nobody reads exactly where it isn't live after its op.
pub fn unread_results_are_dead()
    ensures { (f : Function) (at : ℕ) → (is_unread f at ≡ true) ↔ HasDeadResult f at }
{}
