//! The switch of a board: it holds the routine's bytes.
ghost use Rattle.std.specs.Prelude.{◌≡◌, ℕ, [], ◌≤◌, IfSome, IsSome, IfOk, Some, None, length};
ghost use Rattle.std.specs.Bool.{OnTrue, OnFalse};
ghost use Rattle.bank_model.specs.Standing.{IsInside};
ghost use Rattle.board_world.specs.Limits.{end_limit};
ghost use Rattle.fiber_pool.specs.Kept.{kept_at};
ghost use Rattle.fiber_queues.specs.Lists.{Leads};
ghost use Rattle.fiber_runtime.specs.declared.turning.Turning.{Turning};
ghost use Rattle.fiber_runtime.specs.Moves.{Blocked, Resumed};
ghost use Rattle.thumb_switch.specs.Routine.{routine_steps};
ghost use Rattle.thumb_switch.specs.Switching.{count_behind, depth};

use crate::switch::Switch;
use fiber_runtime::{Runtime, Why};
use std::alloc::Global;
use std::marker::Model;
use sts_base::NoMemory;

/// A switch that holds the routine's bytes. A contract sees how many instructions were executed.
#[derive(Drop)]
pub struct Copier {
    switch: Switch,
}

impl Model for Copier {
    ghost use Rattle.std.specs.Prelude.{ℕ, ◌≡◌};
    ghost use Rattle.thumb_switch.specs.Routine.{routine_bytes};

    ghost Value = { ℕ };

    ghost view = { λ c. c.switch.count };

    ghost invariant = { λ c. c.switch.bytes ≡ routine_bytes };
}

impl Copier {
    /// Nothing was executed yet. It is refused for want of memory alone.
    pub fn new(alloc: Global) -> Result<Copier, NoMemory>
        ensures { IfOk result (λ copier. copier ≡ 0) }
    {
        let switch = Switch::new(alloc)?;
        Ok(Copier { switch })
    }

    /// How many instructions were executed so far.
    pub fn count(&self) -> u64
        ensures { result ≡ self.now }
    {
        self.switch.count()
    }

    /// The running fiber, which has a record, blocks, as by `Runtime::block`; its words are copied by the routine.
    pub fn block(&mut self, runtime: &mut Runtime, why: Why, now: u32)
        requires runs { IsSome runtime.old.running }
        requires keyed { IfSome runtime.old.running (λ t. IsSome t.key) }
        requires inside { IsInside runtime.old.machine.registers.sp runtime.old.machine.memory.base }
        requires early { now ≤ end_limit }
        ensures blocked { (key : ℕ) (t : Turning) → runtime.old.running ≡ Some t → t.key ≡ Some key
            → Blocked key t why now runtime.old runtime.new }
        ensures counted { self.new ≡ count_behind self.old (routine_steps (depth runtime.old.machine)) }
    {
        self.switch.block(runtime, why, now);
    }

    /// The first ready fiber becomes the running one, as by `Runtime::resume`; its words are copied by the routine. False exactly where none is
    /// ready; then nothing changes.
    pub fn resume(&mut self, runtime: &mut Runtime) -> bool
        requires idle { runtime.old.running ≡ None }
        requires alone { runtime.old.raisers ≡ [] }
        ensures none { OnFalse result (runtime.old.lists.ready ≡ []) }
        ensures same { OnFalse result (runtime.new ≡ runtime.old) }
        ensures still { OnFalse result (self.new ≡ self.old) }
        ensures some { OnTrue result (Resumed runtime.old runtime.new) }
        ensures counted { (key : ℕ) → Leads key runtime.old.lists.ready
            → self.new ≡ count_behind self.old (routine_steps (length (kept_at runtime.old.pool key).words)) }
    {
        self.switch.resume(runtime)
    }
}
