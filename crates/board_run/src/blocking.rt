// Services by which a fiber blocks, ends, begins another, or registers a listener.
ghost use Rattle.std.specs.Prelude.{◌≡◌, ◌+◌, ◌<◌, ◌≤◌, ◌^◌, ℕ, IfSome, IsSome, Some, length, max};
ghost use Rattle.slab.specs.Slab.{slab_len};
ghost use Rattle.board_world.specs.Limits.{end_limit};
ghost use Rattle.board_services.specs.declared.numbers.TheConstants.{SPAWN};
ghost use Rattle.bank_model.specs.AllServices.{service, asked_listener, word_argument, with_code};
ghost use Rattle.bank_model.specs.Standing.{IsInside, words_in};
ghost use Rattle.board_world.specs.Kinds.{Listens};
ghost use Rattle.board_run.specs.Serving.{IsServed, Keeps, blocks_for, Rests, copied_behind, IsCopiedOut};
ghost use Rattle.fiber_runtime.specs.declared.turning.Turning.{Turning};
ghost use Rattle.thumb_switch.specs.Switching.{depth};

use crate::arguments::{number, word};
use crate::end::Stop;
use crate::engine::{Engine, Served};
use armv6m_machine::Fault;
use board_outside::Output;
use board_world::{LISTENER_PANIC, Listener, SEAT_PANIC};
use fiber_runtime::{Runtime, Why};
use fork_on_block::fork;

/// How many words the running fiber has.
fn depth(runtime: &Runtime) -> u32
    requires inside { IsInside runtime.now.machine.registers.sp runtime.now.machine.memory.base }
    requires whole { length runtime.now.machine.memory.stack ≡ 1024 }
    ensures words { result ≡ length
        (words_in runtime.now.machine.memory.stack runtime.now.machine.registers.sp runtime.now.machine.memory.base) }
    ensures most { result ≤ 1024 }
{
    (runtime.base() - runtime.registers().sp) / 4
}

impl Engine {
    /// As many seats as are taken now may be the most so far.
    fn count_seats(&mut self)
        ensures { self.new ≡ record self.old { counts = record self.old.counts { most = max self.old.counts.most (slab_len self.old.runtime.pool) } } }
    {
        let seats = self.runtime.seats() as u64;
        self.counts.most = self.counts.most.max(seats);
    }

    /// The running fiber, which has a record, is copied into it by the switch, and its words are counted.
    fn rest(&mut self, why: Why)
        requires runs { IsSome self.old.runtime.running }
        requires keyed { IfSome self.old.runtime.running (λ t. IsSome t.key) }
        requires inside { IsInside self.old.runtime.machine.registers.sp self.old.runtime.machine.memory.base }
        requires early { self.old.clock ≤ end_limit }
        requires whole { length self.old.runtime.machine.memory.stack ≡ 1024 }
        requires words { self.old.counts.words + 1024 < 2 ^ 64 }
        ensures rests { (key : ℕ) (t : Turning) → self.old.runtime.running ≡ Some t → t.key ≡ Some key
            → Rests key t why self.old self.new }
        ensures few { self.new.counts.words ≤ self.old.counts.words + 1024 }
        ensures copied { self.new.switch ≡ copied_behind (depth self.old.runtime.machine) self.old }
        ensures stays { self.new ≡ record self.old { runtime = self.new.runtime; switch = self.new.switch; counts = record self.old.counts { words = self.new.counts.words } } }
    {
        self.counts.words += u64::from(depth(&self.runtime));
        self.switch.block(&mut self.runtime, why, self.clock);
    }

    /// Services 2 and 3: the fiber sleeps or waits. A handler gets a record at its first block.
    pub fn block(&mut self, why: Why) -> Served
        requires runs { IsSome self.old.runtime.running }
        requires inside { IsInside self.old.runtime.machine.registers.sp self.old.runtime.machine.memory.base }
        requires early { self.old.clock ≤ end_limit }
        requires whole { length self.old.runtime.machine.memory.stack ≡ 1024 }
        requires blocked { self.old.counts.blocked + 1 < 2 ^ 64 }
        requires words { self.old.counts.words + 1024 < 2 ^ 64 }
        ensures served { IsServed (λ image. blocks_for why) result self.old self.new }
        ensures copied { IsCopiedOut result self.old self.new }
        ensures keeps { Keeps self.old self.new }
    {
        if self.runtime.running().is_some() {
            self.rest(why);
            return Served::Goes(Output::Nothing);
        }
        if fork(&mut self.runtime).is_err() {
            return Served::Stops(Stop::Panic(SEAT_PANIC));
        }
        self.counts.blocked += 1;
        self.count_seats();
        self.rest(why);
        Served::Goes(Output::Nothing)
    }

    /// Service 4: another fiber begins, as the last ready one.
    pub fn spawn(&mut self, at: u32) -> Served
        requires inside { IsInside self.old.runtime.machine.registers.sp self.old.runtime.machine.memory.base }
        requires spawned { self.old.counts.spawned + 1 < 2 ^ 64 }
        ensures served { IsServed (λ image. service image at SPAWN) result self.old self.new }
        ensures keeps { Keeps self.old self.new }
    {
        let entry = word(&self.runtime, 0);
        if entry % 2 == 0 {
            return Served::Stops(Stop::Fault(Fault::NotThumb, at));
        }
        match self.runtime.spawn(entry) {
            Ok(()) => {
                self.counts.spawned += 1;
                self.count_seats();
                Served::Goes(Output::Nothing)
            }
            Err(_) => Served::Stops(Stop::Panic(SEAT_PANIC)),
        }
    }

    /// Services 5 and 22: a listener with this mode is registered.
    pub fn listen(&mut self, mode: i32, at: u32) -> Served
        requires { IsInside self.old.runtime.machine.registers.sp self.old.runtime.machine.memory.base }
        ensures served { IsServed (λ image f s. with_code at (word_argument f 2) (Listens (asked_listener f mode) f s))
            result self.old self.new }
        ensures keeps { Keeps self.old self.new }
    {
        let handler = word(&self.runtime, 2);
        if handler % 2 == 0 {
            return Served::Stops(Stop::Fault(Fault::NotThumb, at));
        }
        let listener = Listener {
            source: number(&self.runtime, 0),
            value: number(&self.runtime, 1),
            handler,
            mode,
        };
        match self.bus.listen(listener) {
            Ok(()) => Served::Goes(Output::Nothing),
            Err(_) => Served::Stops(Stop::Panic(LISTENER_PANIC)),
        }
    }
}
