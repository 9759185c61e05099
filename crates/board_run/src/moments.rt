//! A board that goes from moment to moment, and is given events in between.
ghost use Rattle.std.specs.Prelude.{◌≡◌, ◌+◌, ◌++◌, ◌<◌, ◌≤◌, ◌⊎◌, ◌^◌, [], ℕ, List, Some, None, Result, OnOk, OnErr, IsSome, All, length};
ghost use Rattle.std.specs.Bool.{OnTrue, OnFalse};
ghost use Rattle.sts_base.specs.Faults.{Rose};
ghost use Rattle.thumb_code.specs.Map.{flash_end};
ghost use Rattle.tool_io.specs.Putting.{PutsTo};
ghost use Rattle.tool_io.specs.declared.sink.PutFailed.{PutFailed as PutFailedState};
ghost use Rattle.board_world.specs.Transcript.{closing_line};
ghost use Rattle.message_bus.specs.BusState.{queued};
ghost use Rattle.message_bus.specs.Answers.{answer_of as raised_as};
ghost use Rattle.board_outside.specs.Moves.{seen_of};
ghost use Rattle.board_outside.specs.Outputs.{moves_of, IsSeen};
ghost use Rattle.board_run.specs.Represents.{IsShown, IsEmpty, end_of, state_of};
ghost use Rattle.board_run.specs.Run.{Comes};
ghost use Rattle.board_run.specs.Outside.{over_sink, PortsMeet};
ghost use Rattle.board_run.specs.Advancing.{IsWhole, led_lines, Fails, lead_before, first_sent, Proceeds, HasProceeded, Stands, IsStayed, of_moment};
ghost use Rattle.board_run.specs.Going.{next_moment, IsDueAt, IsResting, MayGo, HasGone, GoesOnOrIdle, IsPassed, IsCutShort, Went};
ghost use Rattle.board_run.specs.Ran.{answer_of};

use crate::board::{Board, tell};
use crate::closing::{put_closing, told};
use crate::end::{End, Stop};
use crate::engine::Engine;
use crate::slots::Slots;
use board_outside::Output;
use board_ports::{Device, Plugs};
use board_world::Event;
use message_bus::Raised;
use tool_io::{PutFailed, Sink};

/// What became of a board that went through a moment.
#[derive(Clone, Copy, Debug, PartialEq, Eq, Drop)]
pub enum Gone {
    /// Nobody is left to go on before a later moment, after so many instructions.
    Idle { used: u32 },
    /// The run has ended, or its budget first; or the sink failed.
    Ended(End),
}

/// What is put before the line of what was seen: nothing where nothing was.
fn lead_of<'a>(output: Output, lead: &'a [u8]) -> &'a [u8]
    ensures { result.now ≡ lead_before lead.now output }
{
    match output {
        Output::Nothing => &lead[..0],
        Output::Frame(_) => lead,
        Output::Number(_) => lead,
        Output::Text(_) => lead,
        Output::Pin(_, _) => lead,
        Output::Radio(_) => lead,
    }
}

/// Puts the line of what was seen at a moment, behind a lead, and then sends its words to the devices.
fn tell_behind<K: Sink, D: Device>(
    engine: &mut Engine,
    output: Output,
    now: u32,
    lead: &[u8],
    out: &mut K,
    plugs: &mut Plugs<D>,
) -> Result<(), PutFailed>
    requires size { length engine.old.runtime.machine.memory.flash ≤ flash_end }
    requires bytes { All (λ b. b < 256) engine.old.runtime.machine.memory.flash }
    ensures puts { PutsTo K.taken K.faults out.old out.new
        (led_lines lead.now (seen_of (moves_of engine.old.runtime.machine.memory.flash now output))) result }
    ensures sends { OnOk result
        (PortsMeet D.account (moves_of engine.old.runtime.machine.memory.flash now output) plugs.old plugs.new) }
    ensures stays { OnErr result (plugs.new ≡ plugs.old) }
    ensures same { engine.new ≡ engine.old }
{
    match out.put(lead_of(output, lead)) {
        Ok(()) => tell(engine, output, now, out, plugs),
        Err(PutFailed) => Err(PutFailed),
    }
}

/// The same, which puts nothing where nothing was seen.
#[inline(always)]
fn tell_led<K: Sink, D: Device>(
    engine: &mut Engine,
    output: Output,
    now: u32,
    lead: &[u8],
    out: &mut K,
    plugs: &mut Plugs<D>,
) -> Result<(), PutFailed>
    requires size { length engine.old.runtime.machine.memory.flash ≤ flash_end }
    requires bytes { All (λ b. b < 256) engine.old.runtime.machine.memory.flash }
    ensures puts { PutsTo K.taken K.faults out.old out.new
        (led_lines lead.now (seen_of (moves_of engine.old.runtime.machine.memory.flash now output))) result }
    ensures sends { OnOk result
        (PortsMeet D.account (moves_of engine.old.runtime.machine.memory.flash now output) plugs.old plugs.new) }
    ensures stays { OnErr result (plugs.new ≡ plugs.old) }
    ensures seen { OnErr result (IsSeen engine.old.runtime.machine.memory.flash now output) }
    ensures same { engine.new ≡ engine.old }
{
    match output {
        Output::Nothing => Ok(()),
        Output::Frame(_) => tell_behind(engine, output, now, lead, out, plugs),
        Output::Number(_) => tell_behind(engine, output, now, lead, out, plugs),
        Output::Text(_) => tell_behind(engine, output, now, lead, out, plugs),
        Output::Pin(_, _) => tell_behind(engine, output, now, lead, out, plugs),
        Output::Radio(_) => tell_behind(engine, output, now, lead, out, plugs),
    }
}

/// Notes a number that was sent by radio, while there is room.
fn note(sent: &mut Slots<i32>, output: Output)
    ensures { (flash : List ℕ) (now : ℕ) → sent.new ≡ first_sent sent.old (seen_of (moves_of flash now output)) }
{
    match output {
        Output::Radio(number) => {
            if sent.has_room() {
                sent.push(number);
            }
        }
        Output::Nothing => {}
        Output::Frame(_) => {}
        Output::Number(_) => {}
        Output::Text(_) => {}
        Output::Pin(_, _) => {}
    }
}

impl Engine {
    /// Whether a fiber runs; where none does, the next one begins. False exactly where nobody is left to go on; then nothing changes.
    fn run_next(&mut self) -> bool
        requires shown { IsShown (state_of self.old) }
        ensures comes { (image : List ℕ) → Comes image 0 [] (state_of self.old) (state_of self.new) }
        ensures stays { self.new
            ≡ record self.old { runtime = self.new.runtime; switch = self.new.switch; places = self.new.places } }
        ensures runs { OnTrue result (IsSome self.new.runtime.running) }
        ensures same { OnFalse result (self.new ≡ self.old) }
        ensures nobody { OnFalse result (IsEmpty (state_of self.old)) }
    {
        if self.runtime.is_running() {
            return true;
        }
        self.begin()
    }

    /// Goes on while the clock stands: until a fiber runs, the run is over, or nobody is left to go on and no event is queued.
    pub fn stay(&mut self)
        requires shown { IsShown (state_of self.old) }
        ensures comes { (image : List ℕ) → Comes image 0 [] (state_of self.old) (state_of self.new) }
        ensures stays { self.new ≡ record self.old { runtime = self.new.runtime; switch = self.new.switch; bus = self.new.bus; places = self.new.places } }
        ensures rests { self.new.end ≡ None
            → IsSome self.new.runtime.running ⊎ (IsEmpty (state_of self.new) × (self.new.bus.queue ≡ [])) }
    {
        while self.end.is_none() && !self.runtime.is_running() {
            if self.begin() {
                break;
            }
            if !self.dispatch() {
                break;
            }
        }
    }

    /// When the next sleeper wakes or the next entry of the script comes. None exactly where neither does.
    pub fn next_moment(&self) -> Option<u32>
        ensures { result ≡ next_moment self.now }
    {
        match (self.runtime.next_wake(), self.next_entry()) {
            (None, entry) => entry,
            (Some(wake), None) => Some(wake),
            (Some(wake), Some(entry)) => Some(if entry < wake { entry } else { wake }),
        }
    }
}

impl<D: Device> Board<D> {
    /// One instruction of the running fiber, with its line behind a lead and its words, and what follows while the clock stands.
    #[inline(always)]
    fn advance_here<K: Sink>(&mut self, lead: &[u8], out: &mut K) -> Result<(), PutFailed>
        requires whole { IsWhole self.old.engine self.old.instructions }
        requires runs { IsSome self.old.engine.runtime.running }
        requires going { self.old.engine.end ≡ None }
        requires early { self.old.instructions < 2 ^ 50 }
        ensures goes { OnOk result (Proceeds D.account lead.now 1 (over_sink K.taken K.faults self.old out.old)
            (over_sink K.taken K.faults self.new out.new)) }
        ensures whole { OnOk result (IsWhole self.new.engine self.new.instructions) }
        ensures stayed { OnOk result (IsStayed self.new.engine) }
        ensures stands { OnOk result (Stands self.old self.new) }
        ensures counted { self.new.instructions ≡ self.old.instructions + 1 }
        ensures cut { OnErr result (Fails D.account (of_moment lead.now) 1 (over_sink K.taken K.faults self.old out.old)
            (over_sink K.taken K.faults self.new out.new)) }
        ensures later { K.faults out.old ≤ K.faults out.new }
        ensures failed { OnErr result (Rose (K.faults out.old) (K.faults out.new)) }
    {
        let now = self.engine.clock;
        let output = self.engine.instruct();
        self.instructions += 1;
        match tell_led(&mut self.engine, output, now, lead, out, &mut self.plugs) {
            Ok(()) => {
                note(&mut self.sent, output);
                self.engine.stay();
                Ok(())
            }
            Err(PutFailed) => Err(PutFailed),
        }
    }

    /// Executes instructions while the clock stands and somebody runs, but at most so many.
    fn proceed<K: Sink>(&mut self, most: u32, lead: &[u8], out: &mut K) -> Result<(), PutFailed>
        requires whole { IsWhole self.old.engine self.old.instructions }
        requires stayed { IsStayed self.old.engine }
        requires early { self.old.instructions + most < 2 ^ 50 }
        ensures goes { OnOk result ((count : ℕ) × HasProceeded D.account lead.now count most
            (over_sink K.taken K.faults self.old out.old) (over_sink K.taken K.faults self.new out.new)) }
        ensures whole { OnOk result (IsWhole self.new.engine self.new.instructions) }
        ensures stayed { OnOk result (IsStayed self.new.engine) }
        ensures cut { OnErr result (Fails D.account (of_moment lead.now) most
            (over_sink K.taken K.faults self.old out.old) (over_sink K.taken K.faults self.new out.new)) }
        ensures later { K.faults out.old ≤ K.faults out.new }
        ensures failed { OnErr result (Rose (K.faults out.old) (K.faults out.new)) }
    {
        for _ in 0..most {
            if self.engine.end.is_some() || !self.engine.runtime.is_running() {
                return Ok(());
            }
            self.advance_here(lead, out)?;
        }
        Ok(())
    }

    /// Comes to a moment with the kept events, which are raised behind the script's own entries, and goes through it for at most so many
    /// instructions.
    fn through<K: Sink>(
        &mut self,
        moment: u32,
        most: u32,
        lead: &[u8],
        out: &mut K,
    ) -> Result<(), PutFailed>
        requires whole { IsWhole self.old.engine self.old.instructions }
        requires resting { IsResting self.old.engine }
        requires due { IsDueAt moment self.old.kept self.old.engine }
        requires early { self.old.instructions + most < 2 ^ 50 }
        ensures goes { OnOk result ((count : ℕ) × HasGone D.account lead.now self.old.sent moment count
            (over_sink K.taken K.faults self.old out.old) (over_sink K.taken K.faults self.new out.new) []
            × IsPassed moment count most self.new) }
        ensures cut { OnErr result (IsCutShort D.account lead.now moment most
            (over_sink K.taken K.faults self.old out.old) (over_sink K.taken K.faults self.new out.new)) }
        ensures later { K.faults out.old ≤ K.faults out.new }
        ensures failed { OnErr result (Rose (K.faults out.old) (K.faults out.new)) }
    {
        self.engine
            .come_to(moment, self.kept.as_slice(), &mut self.plugs);
        self.kept.clear();
        self.engine.stay();
        self.proceed(most, lead, out)
    }

    /// Whether nobody is left to go on and something comes at the first moment: of its own, or an event that is kept.
    fn comes_at_once(&self) -> bool
        requires { IsStayed self.now.engine }
        ensures due { OnTrue result (IsResting self.now.engine × IsDueAt 0 self.now.kept self.now.engine) }
        ensures later { OnFalse result (GoesOnOrIdle 0 self.now) }
    {
        if self.engine.end.is_some() || self.engine.runtime.is_running() {
            return false;
        }
        if !self.kept.as_slice().is_empty() {
            return true;
        }
        self.engine.next_moment() == Some(0)
    }

    /// Goes through a moment. In the first call main goes on before anything comes.
    fn pass<K: Sink>(
        &mut self,
        moment: u32,
        most: u32,
        lead: &[u8],
        out: &mut K,
    ) -> Result<(), PutFailed>
        requires whole { IsWhole self.old.engine self.old.instructions }
        requires may { MayGo moment most self.old.kept self.old.engine }
        requires early { self.old.instructions + most < 2 ^ 50 }
        ensures goes { OnOk result ((count : ℕ) × HasGone D.account lead.now self.old.sent moment count
            (over_sink K.taken K.faults self.old out.old) (over_sink K.taken K.faults self.new out.new) []
            × IsPassed moment count most self.new) }
        ensures cut { OnErr result (IsCutShort D.account lead.now moment most
            (over_sink K.taken K.faults self.old out.old) (over_sink K.taken K.faults self.new out.new)) }
        ensures later { K.faults out.old ≤ K.faults out.new }
        ensures failed { OnErr result (Rose (K.faults out.old) (K.faults out.new)) }
    {
        if !self.engine.run_next() {
            return self.through(moment, most, lead, out);
        }
        let before = self.instructions;
        self.proceed(most, lead, out)?;
        let used = (self.instructions - before) as u32;
        if !self.comes_at_once() {
            return Ok(());
        }
        self.through(moment, most - used, lead, out)
    }

    /// Puts the closing line of a run that ended so, behind a lead.
    fn put_end<K: Sink>(&self, stop: Stop, lead: &[u8], out: &mut K) -> End
        ensures { (put : Result (Unit {0}) PutFailedState)
            × PutsTo K.taken K.faults out.old out.new
            (lead.now ++ closing_line self.now.engine.clock (Some (end_of stop))) put
            × (result ≡ answer_of put (Some stop)) }
    {
        match out.put(lead) {
            Ok(()) => match put_closing(out, self.engine.clock, Some(stop)) {
                Ok(()) => told(Some(stop)),
                Err(PutFailed) => End::SinkFault,
            },
            Err(PutFailed) => End::SinkFault,
        }
    }

    /// When the next sleeper wakes or the next entry of the script comes. None exactly where neither does.
    pub fn next_moment(&self) -> Option<u32>
        ensures { result ≡ next_moment self.now.engine }
    {
        self.engine.next_moment()
    }

    /// Keeps an event for the next moment that the board goes through. It is dropped exactly where 32 are kept; then nothing changes.
    pub fn deliver(&mut self, event: Event) -> Raised
        ensures answer { result ≡ raised_as self.old.kept }
        ensures kept { self.new ≡ record self.old { kept = queued event self.old.kept } }
    {
        if self.kept.has_room() {
            self.kept.push(event);
            Raised::Queued
        } else {
            Raised::Dropped
        }
    }

    /// Goes through a moment in milliseconds, for at most `budget` instructions: the clock is set, the sleepers that are due become ready,
    /// the moment's entries are applied and the kept events raised behind them, and all go on until nobody is ready and no event is queued.
    /// The first call is for moment 0: main begins, and goes on before anything comes.
    ///
    /// The lines of what was seen are put, each behind the lead, and behind them the closing line where the run ended by a panic or a
    /// fault. The answer is `Budget` exactly where the budget was executed and somebody would still go on; never `Quiet` or `Script`.
    /// `SinkFault` comes only where the sink's count of faults rose in this call. No memory is taken.
    pub fn go_led<K: Sink>(&mut self, moment: u32, budget: u32, lead: &[u8], out: &mut K) -> Gone
        requires whole { IsWhole self.old.engine self.old.instructions }
        requires may { MayGo moment budget self.old.kept self.old.engine }
        requires early { self.old.instructions < 2 ^ 49 }
        requires most { budget ≤ 2147483648 }
        ensures went { Went D.account lead.now moment budget (over_sink K.taken K.faults self.old out.old)
            (over_sink K.taken K.faults self.new out.new) result }
        ensures later { K.faults out.old ≤ K.faults out.new }
    {
        self.sent.clear();
        let before = self.instructions;
        match self.pass(moment, budget, lead, out) {
            Err(PutFailed) => Gone::Ended(End::SinkFault),
            Ok(()) => match self.engine.end {
                Some(stop) => Gone::Ended(self.put_end(stop, lead, out)),
                None if self.engine.runtime.is_running() => Gone::Ended(End::Budget),
                None => Gone::Idle {
                    used: (self.instructions - before) as u32,
                },
            },
        }
    }

    /// The same with nothing before the lines.
    pub fn go<K: Sink>(&mut self, moment: u32, budget: u32, out: &mut K) -> Gone
        requires whole { IsWhole self.old.engine self.old.instructions }
        requires may { MayGo moment budget self.old.kept self.old.engine }
        requires early { self.old.instructions < 2 ^ 49 }
        requires most { budget ≤ 2147483648 }
        ensures went { Went D.account [] moment budget (over_sink K.taken K.faults self.old out.old)
            (over_sink K.taken K.faults self.new out.new) result }
        ensures later { K.faults out.old ≤ K.faults out.new }
    {
        self.go_led(moment, budget, b"", out)
    }

    /// The first 32 numbers that were sent by radio in the moment that went last.
    pub fn sent(&self) -> &[i32]
        ensures { result.now ≡ self.now.sent }
    {
        self.sent.as_slice()
    }
}
