// The switch: bytes that are executed where a fiber blocks or is resumed.
ghost use Rattle.std.specs.Prelude.{◌≡◌, ◌+◌, ◌<◌, ◌≤◌, ◌^◌, ℕ, IfSome, IsSome, IfOk, Some, [], None, replicate, ◌∷◌, length};
ghost use Rattle.std.specs.Bool.{OnTrue, OnFalse};
ghost use Rattle.bank_model.specs.Standing.{IsInside};
ghost use Rattle.board_world.specs.Limits.{end_limit};
ghost use Rattle.fiber_pool.specs.Kept.{kept_at};
ghost use Rattle.fiber_queues.specs.Lists.{Leads};
ghost use Rattle.fiber_runtime.specs.declared.turning.Turning.{Turning};
ghost use Rattle.fiber_runtime.specs.Moves.{Blocked, Resumed};
ghost use Rattle.thumb_switch.specs.ReadOnce.{AreRead};
ghost use Rattle.thumb_switch.specs.Routine.{routine_bytes, routine_steps};
ghost use Rattle.thumb_switch.specs.Space.{called, most_instructions};
ghost use Rattle.thumb_switch.specs.Switching.{Held, counted, depth, BlockedBy, ResumedBy};

use crate::copying::routine;
use crate::desk::Desk;
use crate::running::run;
use crate::slots::{COUNT, Slot, slots_of};
use crate::space::{BACK, RAM_END, RECORD};
use fiber_runtime::{Runtime, Why};
use std::alloc::Global;
use std::marker::Model;
use sts_base::{NoMemory, Seq};
use thumb_code::Registers;

/// Held bytes, and how many instructions of them were executed so far.
#[derive(Drop)]
pub struct Switch {
    bytes: Seq<u8>,
    /// What stands at the first places of the bytes, read once.
    slots: [Slot; COUNT],
    count: u64,
}

impl Model for Switch {
    ghost use Rattle.thumb_switch.specs.Switching.{Held};
    ghost use Rattle.thumb_switch.specs.ReadOnce.{AreRead};

    ghost Value = { Held };

    ghost view = { λ s. record { bytes = s.bytes; count = s.count } };

    ghost invariant = { λ s. AreRead s.bytes s.slots };
}

/// The registers with which an execution begins.
fn call(source: u32, target: u32, count: u32) -> Registers
    ensures { result ≡ called source target count }
{
    let mut r = [0u32; 13];
    r[0] = source;
    r[1] = target;
    r[2] = count;
    Registers {
        r,
        sp: RAM_END,
        lr: BACK + 1,
        pc: 0,
        flags: 0,
    }
}

/// The running fiber blocks by these bytes. How many instructions were executed.
fn block_by(bytes: &[u8], slots: &[Slot], runtime: &mut Runtime, why: Why, now: u32) -> u32
    requires read { AreRead bytes.now slots.now }
    requires runs { IsSome runtime.old.running }
    requires keyed { IfSome runtime.old.running (λ t. IsSome t.key) }
    requires inside { IsInside runtime.old.machine.registers.sp runtime.old.machine.memory.base }
    requires early { now ≤ end_limit }
    ensures any { (key : ℕ) (t : Turning) (h : Held) → runtime.old.running ≡ Some t → t.key ≡ Some key
        → h.bytes ≡ bytes.now → BlockedBy key t why now h (counted h result) runtime.old runtime.new }
    ensures most { result ≤ most_instructions (depth runtime.old.machine) }
    ensures small { result ≤ 8232 }
    ensures stack { length runtime.old.machine.memory.stack ≡ 1024 }
{
    match runtime.running() {
        None => unreachable!(),
        Some(key) => {
            let sp = runtime.registers().sp;
            let words = (runtime.base() - sp) / 4;
            runtime.size(key, words as usize);
            let mut desk = Desk {
                code: bytes,
                runtime,
                key,
            };
            let steps = run(&mut desk, slots, call(sp, RECORD, words), 8 * words + 40);
            desk.runtime.park(why, now);
            steps
        }
    }
}

/// The first ready fiber is resumed by these bytes. How many instructions were executed.
fn resume_by(bytes: &[u8], slots: &[Slot], runtime: &mut Runtime, key: usize) -> u32
    requires read { AreRead bytes.now slots.now }
    requires idle { runtime.old.running ≡ None }
    requires alone { runtime.old.raisers ≡ [] }
    requires first { Leads key runtime.old.lists.ready }
    ensures any { (h : Held) → h.bytes ≡ bytes.now → ResumedBy h (counted h result) runtime.old runtime.new }
    ensures most { result ≤ most_instructions (length (kept_at runtime.old.pool key).words) }
    ensures small { result ≤ 8232 }
    ensures stack { length runtime.old.machine.memory.stack ≡ 1024 }
{
    runtime.take(key);
    let sp = runtime.registers().sp;
    let words = runtime.words(key) as u32;
    let mut desk = Desk {
        code: bytes,
        runtime,
        key,
    };
    run(&mut desk, slots, call(RECORD, sp, words), 8 * words + 40)
}

impl Switch {
    /// Holds the routine's bytes.
    pub fn new(alloc: Global) -> Result<Switch, NoMemory>
        ensures { IfOk result (λ s. s ≡ record { bytes = routine_bytes; count = 0 }) }
    {
        let bytes = routine(alloc)?;
        let slots = slots_of(bytes.as_slice());
        Ok(Switch {
            bytes,
            slots,
            count: 0,
        })
    }

    /// Holds these bytes.
    pub fn of(bytes: Seq<u8>) -> Switch
        requires { length bytes ≤ 65536 }
        ensures { result ≡ record { bytes = bytes; count = 0 } }
    {
        let slots = slots_of(bytes.as_slice());
        Switch {
            bytes,
            slots,
            count: 0,
        }
    }

    /// How many instructions were executed so far.
    pub fn count(&self) -> u64
        ensures { result ≡ self.now.count }
    {
        self.count
    }

    /// The running fiber, which has a record, blocks: the record gets as many words as lie from SP to the base, the held bytes are executed to
    /// copy them, and its registers and base are kept. It sleeps or waits from then on; `now` is the present moment.
    pub fn block(&mut self, runtime: &mut Runtime, why: Why, now: u32)
        requires runs { IsSome runtime.old.running }
        requires keyed { IfSome runtime.old.running (λ t. IsSome t.key) }
        requires inside { IsInside runtime.old.machine.registers.sp runtime.old.machine.memory.base }
        requires early { now ≤ end_limit }
        ensures any { (key : ℕ) (t : Turning) → runtime.old.running ≡ Some t → t.key ≡ Some key
            → BlockedBy key t why now self.old self.new runtime.old runtime.new }
        ensures routine { self.old.bytes ≡ routine_bytes → (key : ℕ) (t : Turning) → runtime.old.running ≡ Some t
            → t.key ≡ Some key → Blocked key t why now runtime.old runtime.new }
        ensures exact { self.old.bytes ≡ routine_bytes
            → self.new ≡ counted self.old (routine_steps (depth runtime.old.machine)) }
        ensures bytes { self.new.bytes ≡ self.old.bytes }
        ensures most { self.new.count ≤ self.old.count + most_instructions (depth runtime.old.machine) }
        ensures few { self.new.count ≤ self.old.count + 8232 }
    {
        let steps = block_by(self.bytes.as_slice(), &self.slots, runtime, why, now);
        self.count = self.count.saturating_add(u64::from(steps));
    }

    /// The first ready fiber becomes the running one: its registers and base are put into the machine, and the held bytes are executed to copy
    /// its words. False exactly where none is ready; then nothing changes.
    pub fn resume(&mut self, runtime: &mut Runtime) -> bool
        requires idle { runtime.old.running ≡ None }
        requires alone { runtime.old.raisers ≡ [] }
        ensures none { OnFalse result (runtime.old.lists.ready ≡ []) }
        ensures same { OnFalse result (runtime.new ≡ runtime.old) }
        ensures still { OnFalse result (self.new ≡ self.old) }
        ensures any { OnTrue result (ResumedBy self.old self.new runtime.old runtime.new) }
        ensures routine { self.old.bytes ≡ routine_bytes → OnTrue result (Resumed runtime.old runtime.new) }
        ensures exact { self.old.bytes ≡ routine_bytes → (key : ℕ) → Leads key runtime.old.lists.ready
            → self.new ≡ counted self.old (routine_steps (length (kept_at runtime.old.pool key).words)) }
        ensures bytes { self.new.bytes ≡ self.old.bytes }
        ensures most { (key : ℕ) → Leads key runtime.old.lists.ready
            → self.new.count ≤ self.old.count + most_instructions (length (kept_at runtime.old.pool key).words) }
        ensures few { self.new.count ≤ self.old.count + 8232 }
    {
        match runtime.next_key() {
            None => false,
            Some(key) => {
                let steps = resume_by(self.bytes.as_slice(), &self.slots, runtime, key);
                self.count = self.count.saturating_add(u64::from(steps));
                true
            }
        }
    }
}
