// The runtime.
ghost use Rattle.std.specs.Prelude.{◌≡◌, ℕ, ◌+◌, ◌<◌, ◌≤◌, ◌↔◌, [], length, Some, None, IsOk, IfOk, OnOk, OnErr, IfSome, OnSome, IsSome, is_some, ◌*◌, slice_index, slice_set};
ghost use Rattle.std.specs.Bool.{OnTrue, OnFalse};
ghost use Rattle.slab.specs.Slab.{slab_len, ContainsKey};
ghost use Rattle.fiber_pool.specs.Kept.{record_limit, kept_at, sized, with_words, with_kept};
ghost use Rattle.fiber_queues.specs.Lists.{Leads};
ghost use Rattle.thumb_code.specs.Machine.{base_of, step as step_of};
ghost use Rattle.armv6m_machine.specs.Steps.{IsStep};
ghost use Rattle.board_world.specs.Limits.{seat_limit, raiser_limit, end_limit};
ghost use Rattle.board_world.specs.Waiting.{least};
ghost use Rattle.fiber_queues.specs.Calls.{due_woken};
ghost use Rattle.bank_model.specs.Standing.{IsInside};
ghost use Rattle.fiber_runtime.specs.State.{running_key, ReachesBase, innermost};

use crate::begun::{begun, first_base, main_entry};
use crate::blocking::{Why, join};
use crate::copy::{copy_in, copy_out, name};
use crate::raisers::Raisers;
use crate::turning::{Raiser, Turning};
use crate::wake::wake;
use armv6m_machine::{Machine, Turn};
use board_world::{Event, RAISER_LIMIT};
use fiber_pool::Pool;
use fiber_queues::Queues;
use std::alloc::Global;
use std::marker::Model;
use sts_base::NoMemory;
use thumb_code::Registers;

/// The machine, who runs in it, the raisers, and the records of all others with the lists that they stand in.
/// All memory is taken by `new`.
#[derive(Drop)]
pub struct Runtime {
    machine: Machine,
    running: Option<Turning>,
    raisers: Raisers,
    pool: Pool,
    queues: Queues,
}

impl Model for Runtime {
    ghost use Rattle.fiber_runtime.specs.State.{State};
    ghost use Rattle.fiber_runtime.specs.Sound.{IsSound};

    ghost Value = { State };

    ghost view = { λ r.
        record { machine = r.machine; running = r.running; raisers = r.raisers; pool = r.pool; lists = r.queues } };

    ghost invariant = { λ r. IsSound
        (record { machine = r.machine; running = r.running; raisers = r.raisers; pool = r.pool; lists = r.queues }) };
}

/// 24 seats are taken.
#[derive(Clone, Copy, Debug, PartialEq, Eq)]
pub struct SeatsFull;

impl Runtime {
    ghost use Rattle.std.specs.Borrow.{sem};
    ghost use Rattle.fiber_runtime.specs.LendingMachine.{LendsMachine};
    ghost use Rattle.fiber_runtime.specs.declared.turning.Turning.{Turning};
    ghost use Rattle.fiber_runtime.specs.Moves.{IsIdle, HasMain, Blocked, Adopted, Resumed, Ended, Spawned, Woken, Reinstated, started, restarted, suspended, Parked, Taken};

    /// Over this machine, with main alone: it begins as the image in flash says, and is ready.
    pub fn new(alloc: Global, machine: Machine) -> Result<Runtime, NoMemory>
        ensures { IfOk result (HasMain machine) }
    {
        let mut runtime = Runtime::idle(alloc, machine)?;
        let main = main_entry(&runtime.machine);
        match runtime.spawn(main) {
            Ok(()) => Ok(runtime),
            Err(SeatsFull) => unreachable!(),
        }
    }

    /// Over this machine, with no fiber.
    fn idle(alloc: Global, machine: Machine) -> Result<Runtime, NoMemory>
        ensures { IfOk result (IsIdle machine) }
    {
        let raisers = Raisers::new(alloc)?;
        let pool = Pool::new(alloc)?;
        let queues = Queues::new(alloc)?;
        Ok(Runtime {
            machine,
            running: None,
            raisers,
            pool,
            queues,
        })
    }

    /// A new fiber becomes the last ready one. It is refused exactly where 24 seats are taken; then nothing changes.
    pub fn spawn(&mut self, entry: u32) -> Result<(), SeatsFull>
        ensures room { IsOk result ↔ (slab_len self.old.pool < seat_limit) }
        ensures full { OnErr result (self.new ≡ self.old) }
        ensures ok { OnOk result (Spawned entry (base_of self.old.machine.memory.flash) self.old self.new) }
    {
        match self.pool.claim() {
            None => Err(SeatsFull),
            Some(key) => {
                let base = first_base(&self.machine);
                let registers = begun(&self.machine, entry, base);
                self.pool.save(key, registers, base, &[]);
                self.queues.ready(key);
                Ok(())
            }
        }
    }

    /// The running fiber, which has a record, is copied into it: its registers, its base, and its words from SP to the
    /// base. It sleeps or waits from then on; `now` is the present moment.
    pub fn block(&mut self, why: Why, now: u32)
        requires runs { IsSome self.old.running }
        requires keyed { IfSome self.old.running (λ t. IsSome t.key) }
        requires inside { IsInside self.old.machine.registers.sp self.old.machine.memory.base }
        requires early { now ≤ end_limit }
        ensures { (key : ℕ) (t : Turning) → self.old.running ≡ Some t → t.key ≡ Some key
            → Blocked key t why now self.old self.new }
    {
        match self.running {
            Some(turning) => match turning.key {
                Some(key) => {
                    copy_out(&self.machine, &mut self.pool, key, turning);
                    self.running = None;
                    join(&mut self.queues, key, why, now);
                }
                None => unreachable!(),
            },
            None => unreachable!(),
        }
    }

    /// The first ready fiber is copied in, and runs. False exactly where none is ready; then nothing changes.
    pub fn resume(&mut self) -> bool
        requires idle { self.old.running ≡ None }
        requires alone { self.old.raisers ≡ [] }
        ensures none { OnFalse result (self.old.lists.ready ≡ []) }
        ensures same { OnFalse result (self.new ≡ self.old) }
        ensures some { OnTrue result (Resumed self.old self.new) }
    {
        match self.queues.next() {
            None => false,
            Some(key) => {
                let value = self.pool.value(key);
                let listener = self.pool.listener(key);
                copy_in(&mut self.machine, &self.pool, key);
                self.running = Some(Turning {
                    key: Some(key),
                    value,
                    listener,
                });
                true
            }
        }
    }

    /// Sets the number of words in the running fiber's record: those that there are stay, and new ones are 0.
    pub fn size(&mut self, key: usize, words: usize)
        requires runs { running_key self.old.running ≡ Some key }
        requires most { words ≤ record_limit }
        ensures sized { self.new
            ≡ record self.old { pool = with_words self.old.pool key (sized words (kept_at self.old.pool key).words) } }
        ensures live { ContainsKey self.old.pool key }
    {
        self.pool.size(key, words);
    }

    /// How many words a record keeps, 0 at a key that isn't live.
    pub fn words(&self, key: usize) -> usize
        ensures count { result ≡ length (kept_at self.now.pool key).words }
        ensures most { result ≤ record_limit }
    {
        self.pool.words(key)
    }

    /// One of the words of a record.
    pub fn word(&self, key: usize, at: usize) -> u32
        requires live { ContainsKey self.now.pool key }
        requires there { at < length (kept_at self.now.pool key).words }
        ensures { result ≡ slice_index (kept_at self.now.pool key).words at }
    {
        self.pool.word(key, at)
    }

    /// Changes one of the words of a record.
    pub fn set_word(&mut self, key: usize, at: usize, word: u32)
        requires live { ContainsKey self.old.pool key }
        requires there { at < length (kept_at self.old.pool key).words }
        ensures { self.new ≡ record self.old { pool = with_words self.old.pool key (slice_set (kept_at self.old.pool key).words at word) } }
    {
        self.pool.set_word(key, at, word);
    }

    /// Keeps registers and base in the running fiber's record.
    pub fn keep(&mut self, key: usize, registers: Registers, base: u32)
        requires runs { running_key self.old.running ≡ Some key }
        ensures { self.new ≡ record self.old { pool = with_kept self.old.pool key registers base } }
    {
        self.pool.keep(key, registers, base);
    }

    /// The first ready key. None exactly where none is ready.
    pub fn next_key(&self) -> Option<usize>
        ensures none { (result ≡ None) ↔ (self.now.lists.ready ≡ []) }
        ensures first { IfSome result (λ key. Leads key self.now.lists.ready) }
    {
        self.queues.first()
    }

    /// The running fiber blocks, and its record's words stay, of which there are as many as lie from SP to the base.
    pub fn park(&mut self, why: Why, now: u32)
        requires runs { IsSome self.old.running }
        requires keyed { IfSome self.old.running (λ t. IsSome t.key) }
        requires inside { IsInside self.old.machine.registers.sp self.old.machine.memory.base }
        requires early { now ≤ end_limit }
        requires sized { IfSome (running_key self.old.running) (λ key. self.old.machine.registers.sp
            + 4 * length (kept_at self.old.pool key).words ≡ self.old.machine.memory.base) }
        ensures { (key : ℕ) (t : Turning) → self.old.running ≡ Some t → t.key ≡ Some key
            → Parked key t why now self.old self.new }
    {
        match self.running {
            Some(turning) => match turning.key {
                Some(key) => {
                    self.pool
                        .keep(key, self.machine.registers(), self.machine.base());
                    name(&mut self.pool, key, turning);
                    self.running = None;
                    join(&mut self.queues, key, why, now);
                }
                None => unreachable!(),
            },
            None => unreachable!(),
        }
    }

    /// The first ready fiber becomes the running one, and the words in the stack region stay.
    pub fn take(&mut self, key: usize)
        requires idle { self.old.running ≡ None }
        requires alone { self.old.raisers ≡ [] }
        requires first { Leads key self.old.lists.ready }
        ensures taken { Taken self.old self.new }
        ensures fits { ReachesBase (kept_at self.old.pool key) }
    {
        let (registers, base) = self.pool.kept(key);
        let value = self.pool.value(key);
        let listener = self.pool.listener(key);
        match self.queues.next() {
            Some(_) => {
                self.machine.set_registers(registers);
                self.machine.set_base(base);
                self.running = Some(Turning {
                    key: Some(key),
                    value,
                    listener,
                });
            }
            None => unreachable!(),
        }
    }

    /// The running fiber, which has a record, ends: its record is free, and nobody runs.
    pub fn end(&mut self)
        requires runs { IsSome self.old.running }
        requires keyed { IfSome self.old.running (λ t. IsSome t.key) }
        ensures { (key : ℕ) (t : Turning) → self.old.running ≡ Some t → t.key ≡ Some key → Ended key self.old self.new }
    {
        match self.running {
            Some(turning) => match turning.key {
                Some(key) => {
                    self.pool.release(key);
                    self.running = None;
                }
                None => unreachable!(),
            },
            None => unreachable!(),
        }
    }

    /// A fiber without a record begins, on this base and with this event value, and runs.
    pub fn start(&mut self, entry: u32, base: u32, value: i32)
        requires idle { self.old.running ≡ None }
        requires below { IfSome (innermost self.old.raisers) (λ sp. base ≤ sp) }
        ensures { self.new ≡ started entry base (record { key = None; value = value; listener = None }) self.old }
    {
        let registers = begun(&self.machine, entry, base);
        self.machine.set_registers(registers);
        self.machine.set_base(base);
        self.running = Some(Turning {
            key: None,
            value,
            listener: None,
        });
    }

    /// The running fiber begins again, on its own base and with this event value. It keeps its record, where it has one,
    /// and its listener.
    pub fn restart(&mut self, entry: u32, value: i32)
        requires { IsSome self.old.running }
        ensures { (t : Turning) → self.old.running ≡ Some t
            → self.new ≡ restarted entry (record t { value = value }) self.old }
    {
        let registers = begun(&self.machine, entry, self.machine.base());
        self.machine.set_registers(registers);
        self.set_event_value(value);
    }

    /// The running fiber, which has no record, ends: nobody runs, and all records stay.
    pub fn stop(&mut self)
        requires runs { IsSome self.old.running }
        requires keyless { running_key self.old.running ≡ None }
        ensures { self.new ≡ record self.old { running = None } }
    {
        self.running = None;
    }

    /// The running fiber, which has no record, gets one, and its key is given. It is refused exactly where 24 seats are
    /// taken; then nothing changes.
    pub fn adopt(&mut self) -> Result<usize, SeatsFull>
        requires runs { IsSome self.old.running }
        requires keyless { running_key self.old.running ≡ None }
        ensures room { IsOk result ↔ (slab_len self.old.pool < seat_limit) }
        ensures full { OnErr result (self.new ≡ self.old) }
        ensures ok { IfOk result (λ key. (t : Turning) → self.old.running ≡ Some t → Adopted key t self.old self.new) }
    {
        match self.running {
            Some(turning) => match self.pool.claim() {
                None => Err(SeatsFull),
                Some(key) => {
                    name(&mut self.pool, key, turning);
                    self.running = Some(Turning {
                        key: Some(key),
                        value: turning.value,
                        listener: turning.listener,
                    });
                    Ok(key)
                }
            },
            None => unreachable!(),
        }
    }

    /// The running fiber is suspended: it becomes the innermost raiser, its words stay in RAM, and nobody runs. False
    /// exactly where 32 raisers stand; then nothing changes.
    pub fn suspend(&mut self) -> bool
        requires { IsSome self.old.running }
        ensures full { OnFalse result (raiser_limit ≤ length self.old.raisers) }
        ensures same { OnFalse result (self.new ≡ self.old) }
        ensures room { OnTrue result (length self.old.raisers < raiser_limit) }
        ensures done { OnTrue result ((t : Turning) → self.old.running ≡ Some t → self.new ≡ suspended t self.old) }
    {
        if self.raisers.depth() >= RAISER_LIMIT {
            return false;
        }
        match self.running {
            Some(turning) => {
                let raiser = Raiser {
                    registers: self.machine.registers(),
                    base: self.machine.base(),
                    turning,
                };
                self.raisers.push(raiser);
                self.running = None;
                true
            }
            None => unreachable!(),
        }
    }

    /// The innermost raiser goes on. False exactly where none stands; then nothing changes.
    pub fn reinstate(&mut self) -> bool
        requires { self.old.running ≡ None }
        ensures none { OnFalse result (self.old.raisers ≡ []) }
        ensures same { OnFalse result (self.new ≡ self.old) }
        ensures done { OnTrue result (Reinstated self.old self.new) }
    {
        match self.raisers.pop() {
            None => false,
            Some(raiser) => {
                self.machine.set_registers(raiser.registers);
                self.machine.set_base(raiser.base);
                self.running = Some(raiser.turning);
                true
            }
        }
    }

    /// The innermost raiser's SP. None exactly where none stands.
    pub fn raiser_sp(&self) -> Option<u32>
        ensures sp { result ≡ innermost self.now.raisers }
        ensures none { (result ≡ None) ↔ (self.now.raisers ≡ []) }
    {
        self.raisers.sp()
    }

    /// How many raisers stand.
    pub fn raisers(&self) -> usize
        ensures depth { result ≡ length self.now.raisers }
        ensures most { result ≤ raiser_limit }
    {
        self.raisers.depth()
    }

    /// How many seats are taken: as many as records are live.
    pub fn seats(&self) -> usize
        ensures live { result ≡ slab_len self.now.pool }
        ensures most { result ≤ seat_limit }
    {
        self.pool.live()
    }

    /// Whether a fiber runs.
    pub fn is_running(&self) -> bool
        ensures running { result ≡ is_some self.now.running }
        ensures idle { OnFalse result (self.now.running ≡ None) }
    {
        self.running.is_some()
    }

    /// The key of the running fiber's record. None exactly where no fiber runs or the running one has no record.
    pub fn running(&self) -> Option<usize>
        ensures key { result ≡ running_key self.now.running }
        ensures runs { OnSome result (IsSome self.now.running) }
        ensures keyed { OnSome result (IfSome self.now.running (λ t. IsSome t.key)) }
    {
        match self.running {
            Some(turning) => turning.key,
            None => None,
        }
    }

    /// The value of the latest event that started or woke the running fiber, 0 where there was none.
    pub fn event_value(&self) -> i32
        requires { IsSome self.now.running }
        ensures { IfSome self.now.running (λ t. result ≡ t.value) }
    {
        match self.running {
            Some(turning) => turning.value,
            None => unreachable!(),
        }
    }

    /// Sets the running fiber's event value.
    pub fn set_event_value(&mut self, value: i32)
        requires { IsSome self.old.running }
        ensures { (t : Turning) → self.old.running ≡ Some t
            → self.new ≡ record self.old { running = Some (record t { value = value }) } }
    {
        match self.running {
            Some(turning) => {
                self.running = Some(Turning {
                    key: turning.key,
                    value,
                    listener: turning.listener,
                });
            }
            None => unreachable!(),
        }
    }

    /// The number of the running handler's listener. None where the running fiber is no handler, or was not said to be one.
    pub fn listener(&self) -> Option<u32>
        requires { IsSome self.now.running }
        ensures { IfSome self.now.running (λ t. result ≡ t.listener) }
    {
        match self.running {
            Some(turning) => turning.listener,
            None => unreachable!(),
        }
    }

    /// Says that the running fiber is a handler of this listener.
    pub fn set_listener(&mut self, listener: u32)
        requires { IsSome self.old.running }
        ensures { (t : Turning) → self.old.running ≡ Some t
            → self.new ≡ record self.old { running = Some (record t { listener = Some listener }) } }
    {
        match self.running {
            Some(turning) => {
                self.running = Some(Turning {
                    key: turning.key,
                    value: turning.value,
                    listener: Some(listener),
                });
            }
            None => unreachable!(),
        }
    }

    /// The least wake time. None exactly where nobody sleeps.
    pub fn next_wake(&self) -> Option<u32>
        ensures least { result ≡ least self.now.lists.sleepers }
        ensures none { (result ≡ None) ↔ (self.now.lists.sleepers ≡ []) }
    {
        self.queues.next_wake()
    }

    /// The sleepers whose wake time has come become ready, in the order in which they went to sleep.
    pub fn wake_due(&mut self, now: u32)
        ensures { self.new ≡ record self.old { lists = due_woken now self.old.lists } }
    {
        self.queues.wake_due(now);
    }

    /// The waiters who hear the event become ready, in the order in which they began to wait, and its value is then the
    /// event value of each.
    pub fn wake_waiters(&mut self, event: Event)
        ensures { Woken event self.old self.new }
    {
        wake(&mut self.queues, &mut self.pool, event);
    }

    /// Lends the machine.
    pub fn machine(&mut self) -> &mut Machine
        ensures* writes_back { sem 𝓛 (LendsMachine self.entry result) }
        ensures value { result.now ≡ self.old.machine }
    {
        &mut self.machine
    }

    /// The machine's registers.
    pub fn registers(&self) -> Registers
        ensures { result ≡ self.now.machine.registers }
    {
        self.machine.registers()
    }

    /// The machine's base.
    pub fn base(&self) -> u32
        ensures { result ≡ self.now.machine.memory.base }
    {
        self.machine.base()
    }

    /// The words of the stack region.
    pub fn stack(&self) -> &[u32]
        ensures value { result.now ≡ self.now.machine.memory.stack }
        ensures size { length result.now ≡ 1024 }
    {
        self.machine.stack()
    }

    /// Sets the machine's registers.
    pub fn set_registers(&mut self, registers: Registers)
        ensures { self.new ≡ record self.old { machine = record self.old.machine { registers = registers } } }
    {
        self.machine.set_registers(registers);
    }

    /// Word 0 of flash: the base of a fiber that begins where no raiser stands.
    pub fn first_base(&self) -> u32
        ensures { result ≡ base_of self.now.machine.memory.flash }
    {
        first_base(&self.machine)
    }

    /// One instruction of the running fiber.
    pub fn step(&mut self) -> Turn
        ensures rest { self.new ≡ record self.old { machine = self.new.machine } }
        ensures step { IsStep (step_of self.old.machine) result self.old.machine self.new.machine }
    {
        self.machine.step()
    }
}
