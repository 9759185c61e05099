//! The board: an engine with its devices, run over a sink.
ghost use Rattle.std.specs.Prelude.{◌≡◌, ◌+◌, ◌<◌, ◌≤◌, ◌⊎◌, ◌^◌, [], ℕ, List, None, IfOk, IfErr, IsSome, OnOk, OnErr, vec_len, length, All};
ghost use Rattle.std.specs.declared.option.Option.{Option};
ghost use Rattle.sts_base.specs.Faults.{Rose};
ghost use Rattle.thumb_code.specs.Map.{flash_end};
ghost use Rattle.tool_io.specs.Putting.{PutsTo};
ghost use Rattle.board_world.specs.Transcript.{lines};
ghost use Rattle.board_ports.specs.History.{FollowsMoves};
ghost use Rattle.board_ports.specs.Plugged.{SettlesAll};
ghost use Rattle.event_script.specs.Sound.{IsSound};
ghost use Rattle.board_outside.specs.Moves.{seen_of};
ghost use Rattle.board_outside.specs.Ports.{port_moves};
ghost use Rattle.board_outside.specs.Outputs.{moves_of, IsSeen};
ghost use Rattle.board_run.specs.Advancing.{Advances, HasExecuted, Fails, IsWhole, IsSettled, of_run};
ghost use Rattle.board_run.specs.Outside.{PortsMeet, outside_of, over_sink};
ghost use Rattle.board_run.specs.Ran.{world_after, IsMounted, Finishes, Ran};
ghost use Rattle.event_script.specs.declared.script.Script.{Script as EventScript};

use crate::closing::{put_closing, told};
use crate::end::{Counts, End};
use crate::engine::Engine;
use crate::places::Places;
use crate::slots::Slots;
use arena_heap::Arena;
use armv6m_machine::Machine;
use board_drivers::{Buttons, Display};
use board_outside::{Output, show};
use board_ports::{Device, Plugs};
use board_world::Event;
use event_script::Script;
use fiber_runtime::Runtime;
use message_bus::Bus;
use std::alloc::Global;
use sts_base::NoMemory;
use thumb_switch::Copier;
use tool_io::{PutFailed, Sink};

/// A board with an image in flash, a script, and devices in their places. All memory of a run is taken by `mount`.
#[derive(Drop)]
pub struct Board<D> {
    pub(crate) engine: Engine,
    pub(crate) plugs: Plugs<D>,
    pub(crate) instructions: u64,
    /// The events that are kept for the next moment.
    pub(crate) kept: Slots<Event>,
    /// The first numbers that were sent by radio in the moment that went last.
    pub(crate) sent: Slots<i32>,
}

/// There was no memory for a board; the devices are handed back.
#[derive(Drop)]
pub struct NotMounted<D> {
    pub places: Vec<Option<D>>,
}

/// What is counted of a run.
#[derive(Clone, Copy, Debug, PartialEq, Eq, Drop)]
pub struct Stats {
    /// Main and the fibers that were spawned.
    pub spawned: u64,
    /// The handlers that blocked at least once.
    pub blocked: u64,
    /// The sum, over all blocks, of the words that the fiber had.
    pub words: u64,
    /// The most seats that were taken at once.
    pub seats: u64,
    /// The instructions executed.
    pub instructions: u64,
}

/// An engine over an image, with all memory of a run.
fn fresh_engine(alloc: Global, image: Vec<u8>, script: Script) -> Result<Engine, NoMemory>
    requires size { vec_len image ≤ flash_end }
    requires script { IsSound script }
    ensures mounted { IfOk result (IsMounted image.items script) }
    ensures switched { IfOk result (λ engine. engine.switch ≡ 0) }
{
    let machine = Machine::reset(alloc, image)?;
    let runtime = Runtime::new(alloc, machine)?;
    let switch = Copier::new(alloc)?;
    let bus = Bus::new(alloc)?;
    let places = Places::new(alloc)?;
    Ok(Engine {
        runtime,
        switch,
        bus,
        places,
        buttons: Buttons::new(),
        display: Display::new(),
        arena: Arena::new(),
        script,
        next: 0,
        clock: 0,
        counts: Counts {
            spawned: 1,
            blocked: 0,
            words: 0,
            most: 1,
        },
        end: None,
    })
}

/// An engine over an image, and room for kept events and for numbers that are sent.
fn fresh_parts(
    alloc: Global,
    image: Vec<u8>,
    script: Script,
) -> Result<(Engine, Slots<Event>, Slots<i32>), NoMemory>
    requires size { vec_len image ≤ flash_end }
    requires script { IsSound script }
    ensures mounted { IfOk result (λ parts. IsMounted image.items script parts.0) }
    ensures switched { IfOk result (λ parts. parts.0.switch ≡ 0) }
    ensures none { IfOk result (λ parts. (parts.1 ≡ []) × (parts.2 ≡ [])) }
{
    let engine = fresh_engine(alloc, image, script)?;
    let kept = Slots::new(alloc)?;
    let sent = Slots::new(alloc)?;
    Ok((engine, kept, sent))
}

/// Puts the line of what was seen at a moment, and then sends its words to the devices.
#[inline(always)]
pub fn tell<K: Sink, D: Device>(
    engine: &mut Engine,
    output: Output,
    now: u32,
    out: &mut K,
    plugs: &mut Plugs<D>,
) -> Result<(), PutFailed>
    requires size { length engine.old.runtime.machine.memory.flash ≤ flash_end }
    requires bytes { All (λ b. b < 256) engine.old.runtime.machine.memory.flash }
    ensures puts { PutsTo K.taken K.faults out.old out.new
        (lines (seen_of (moves_of engine.old.runtime.machine.memory.flash now output))) result }
    ensures sends { OnOk result
        (PortsMeet D.account (moves_of engine.old.runtime.machine.memory.flash now output) plugs.old plugs.new) }
    ensures stays { OnErr result (plugs.new ≡ plugs.old) }
    ensures seen { OnErr result (IsSeen engine.old.runtime.machine.memory.flash now output) }
    ensures same { engine.new ≡ engine.old }
{
    match output {
        Output::Nothing => Ok(()),
        seen => show(seen, now, engine.runtime.machine(), out, plugs),
    }
}

impl<D: Device> Board<D> {
    /// A board with this image and script and these devices, before its first instruction. It is refused for want of memory alone, and
    /// then hands the devices back unchanged.
    pub fn mount(
        alloc: Global,
        image: Vec<u8>,
        script: Script,
        places: Vec<Option<D>>,
    ) -> Result<Board<D>, NotMounted<D>>
        requires size { vec_len image ≤ flash_end }
        requires script { IsSound script }
        ensures mounted { IfOk result (λ board. IsMounted image.items script board.engine) }
        ensures plugged { IfOk result
            (λ board. (board.plugs.places ≡ places.items) × FollowsMoves D.account [] places.items board.plugs) }
        ensures counted { IfOk result (λ board. board.instructions ≡ 0) }
        ensures switched { IfOk result (λ board. board.engine.switch ≡ 0) }
        ensures none { IfOk result (λ board. (board.kept ≡ []) × (board.sent ≡ [])) }
        ensures back { IfErr result (λ refused. refused.places.items ≡ places.items) }
    {
        match fresh_parts(alloc, image, script) {
            Ok((engine, kept, sent)) => Ok(Board {
                engine,
                plugs: Plugs::new(places),
                instructions: 0,
                kept,
                sent,
            }),
            Err(NoMemory) => Err(NotMounted { places }),
        }
    }

    /// One instruction of the running fiber, with its line and its words, and the idle moves behind it. After `PutFailed` the line was
    /// cut, and no device was touched.
    #[inline(always)]
    fn advance<K: Sink>(&mut self, out: &mut K) -> Result<(), PutFailed>
        requires whole { IsWhole self.old.engine self.old.instructions }
        requires settled { IsSettled self.old.engine }
        requires going { self.old.engine.end ≡ None }
        requires early { self.old.instructions < 2 ^ 50 }
        ensures goes { OnOk result (Advances D.account of_run 1 (over_sink K.taken K.faults self.old out.old)
            (over_sink K.taken K.faults self.new out.new)) }
        ensures whole { OnOk result (IsWhole self.new.engine self.new.instructions) }
        ensures settled { OnOk result (IsSettled self.new.engine) }
        ensures counted { self.new.instructions ≡ self.old.instructions + 1 }
        ensures cut { OnErr result (Fails D.account of_run 1 (over_sink K.taken K.faults self.old out.old)
            (over_sink K.taken K.faults self.new out.new)) }
        ensures later { K.faults out.old ≤ K.faults out.new }
        ensures failed { OnErr result (Rose (K.faults out.old) (K.faults out.new)) }
    {
        let now = self.engine.clock;
        let output = self.engine.instruct();
        self.instructions += 1;
        match tell(&mut self.engine, output, now, out, &mut self.plugs) {
            Ok(()) => {
                self.engine.settle(&mut self.plugs);
                Ok(())
            }
            Err(PutFailed) => Err(PutFailed),
        }
    }

    /// Executes instructions until the run is over, but at most so many.
    pub(crate) fn execute<K: Sink>(&mut self, most: u32, out: &mut K) -> Result<(), PutFailed>
        requires whole { IsWhole self.old.engine self.old.instructions }
        requires settled { IsSettled self.old.engine }
        requires early { self.old.instructions < 2 ^ 49 }
        ensures goes { OnOk result ((count : ℕ) × HasExecuted D.account count most
            (over_sink K.taken K.faults self.old out.old) (over_sink K.taken K.faults self.new out.new)) }
        ensures settled { OnOk result (IsSettled self.new.engine) }
        ensures whole { OnOk result (IsWhole self.new.engine self.new.instructions) }
        ensures cut { OnErr result (Fails D.account of_run most (over_sink K.taken K.faults self.old out.old)
            (over_sink K.taken K.faults self.new out.new)) }
        ensures few { self.new.instructions ≤ self.old.instructions + most }
        ensures later { K.faults out.old ≤ K.faults out.new }
        ensures failed { OnErr result (Rose (K.faults out.old) (K.faults out.new)) }
    {
        for _ in 0..most {
            if self.engine.end.is_some() {
                return Ok(());
            }
            self.advance(out)?;
        }
        Ok(())
    }

    /// Puts the closing line, and says how the run ended.
    pub(crate) fn finish<K: Sink>(&self, out: &mut K) -> End
        ensures { Finishes (over_sink K.taken K.faults self.now out.old)
            (over_sink K.taken K.faults self.now out.new) result }
    {
        match put_closing(out, self.engine.clock, self.engine.end) {
            Ok(()) => told(self.engine.end),
            Err(PutFailed) => End::SinkFault,
        }
    }

    /// Runs the board for at most `budget` instructions, and writes the transcript of the run up to its closing line. The board is as `mount`
    /// gave it.
    ///
    /// The answer is how the run ended; `Budget` exactly where it hasn't ended within the budget. `SinkFault` comes only where the sink's
    /// count of faults rose in this call: then a part of the transcript was written, and the devices are as the run had left them before the
    /// line that was cut. Whatever the answer, no more instructions were executed and counted than the budget. No memory is taken.
    pub fn run<K: Sink>(&mut self, budget: u32, out: &mut K) -> End
        requires fresh { (image : List ℕ) × (script : EventScript) × IsMounted image script self.old.engine }
        requires counted { self.old.instructions ≡ 0 }
        requires least { 1 ≤ budget }
        requires most { budget ≤ 2147483648 }
        ensures ran { (image : List ℕ) (script : EventScript) (places : List (Option D))
            → IsMounted image script self.old.engine → FollowsMoves D.account [] places self.old.plugs
            → Ran D.account image (world_after image script) budget (outside_of K.taken K.faults out.old places)
            (over_sink K.taken K.faults self.new out.new) result }
        ensures counted { self.new.instructions ≤ budget }
        ensures later { K.faults out.old ≤ K.faults out.new }
    {
        self.engine.settle(&mut self.plugs);
        match self.execute(budget, out) {
            Ok(()) => self.finish(out),
            Err(PutFailed) => End::SinkFault,
        }
    }

    /// What was counted of the run.
    pub fn stats(&self) -> Stats
        ensures { result ≡ record {
          spawned = self.now.engine.counts.spawned;
          blocked = self.now.engine.counts.blocked;
          words = self.now.engine.counts.words;
          seats = self.now.engine.counts.most;
          instructions = self.now.instructions;
        } }
    {
        Stats {
            spawned: self.engine.counts.spawned,
            blocked: self.engine.counts.blocked,
            words: self.engine.counts.words,
            seats: self.engine.counts.most,
            instructions: self.instructions,
        }
    }

    /// How many instructions the switch executed, which copies the words of fibers that block and are resumed. They are no fiber's: neither the
    /// budget nor `instructions` counts them.
    pub fn switched(&self) -> u64
        ensures { result ≡ self.now.engine.switch }
    {
        self.engine.switch.count()
    }

    /// The devices in their places, behind the last word: each has let go of what it held back, or its count of faults rose.
    pub fn close(self) -> Vec<Option<D>>
        ensures { SettlesAll D.settled D.account self.plugs result.items }
    {
        let Board {
            engine: _,
            plugs,
            instructions: _,
            kept: _,
            sent: _,
        } = self;
        plugs.into_places()
    }
}
