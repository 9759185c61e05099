// Idle moves: an event is dispatched, or the clock goes on.
ghost use Rattle.std.specs.Prelude.{◌≡◌, ◌+◌, ◌*◌, ◌<◌, ◌≤◌, ℕ, List, [], Some, None, All, IsSome, drop, length};
ghost use Rattle.std.specs.Bool.{OnTrue, OnFalse};
ghost use Rattle.board_world.specs.Limits.{end_limit};
ghost use Rattle.board_world.specs.Board.{IsSoundAct, next_entry};
ghost use Rattle.board_world.specs.Before.{IsRisingFrom};
ghost use Rattle.board_run.specs.Going.{CameTo, queued_all};
ghost use Rattle.event_script.specs.World.{world_act, world_entries};
ghost use Rattle.event_script.specs.Sound.{IsSound};
ghost use Rattle.board_run.specs.Arriving.{Applied, Arrived};
ghost use Rattle.board_run.specs.Represents.{IsEmpty, moves_left, IsShown, state_of};
ghost use Rattle.board_run.specs.Outside.{Idles};
ghost use Rattle.board_run.specs.Run.{Comes};

use crate::end::Stop;
use crate::engine::Engine;
use crate::place::place_for;
use board_drivers::Buttons;
use board_ports::{Device, Plugs};
use board_world::{Event, Idle, idle_move};
use event_script::Act;
use message_bus::Bus;

/// Applies an act from outside, at a moment in milliseconds.
pub(crate) fn apply<D: Device>(
    act: Act,
    now: u32,
    buttons: &mut Buttons,
    bus: &mut Bus,
    plugs: &mut Plugs<D>,
)
    requires { IsSoundAct (world_act act) }
    ensures applied { Applied D.account act now buttons.old buttons.new bus.old bus.new plugs.old plugs.new }
    ensures grows { length bus.new.queue ≤ length bus.old.queue + 2 }
{
    match act {
        Act::Down(button) => buttons.down(button, now, bus),
        Act::Up(button) => buttons.up(button, now, bus),
        Act::Raise(event) => {
            let _ = bus.raise(event);
        }
        Act::Unplug(port) => plugs.unplug(port as usize),
    }
}

/// Raises events in order.
fn raise_all(bus: &mut Bus, events: &[Event])
    ensures { bus.new ≡ record bus.old { queue = queued_all events.now bus.old.queue } }
{
    for event in events {
        let _ = bus.raise(*event);
    }
}

impl Engine {
    /// When the next entry of the script comes. None where none is left.
    pub fn next_entry(&self) -> Option<u32>
        ensures { result ≡ next_entry (world_entries (drop self.now.next self.now.script.entries)) }
    {
        match self.script.entries.get(self.next) {
            None => None,
            Some(entry) => Some(entry.at),
        }
    }

    /// Takes the oldest event of the queue and dispatches it: its handlers are to begin, then the waiters that hear it. False exactly where
    /// there is none; then nothing changes.
    pub fn dispatch(&mut self) -> bool
        requires empty { IsEmpty (state_of self.old) }
        requires shown { IsShown (state_of self.old) }
        requires going { self.old.end ≡ None }
        ensures comes { OnTrue result ((image : List ℕ) → Comes image 0 [] (state_of self.old) (state_of self.new)) }
        ensures none { OnFalse result ((self.new ≡ self.old) × (self.old.bus.queue ≡ [])) }
        ensures stays { self.new
            ≡ record self.old { runtime = self.new.runtime; bus = self.new.bus; places = self.new.places } }
        ensures fewer { OnTrue result (moves_left (state_of self.new) < moves_left (state_of self.old)) }
    {
        match self.bus.next() {
            None => false,
            Some(event) => {
                let place = place_for(&mut self.bus, event);
                self.places.renew(place);
                self.runtime.wake_waiters(event);
                true
            }
        }
    }

    /// The clock goes on to the next moment at which something is due, or the run ends.
    fn clock_move<D: Device>(&mut self, plugs: &mut Plugs<D>)
        requires empty { IsEmpty (state_of self.old) }
        requires shown { IsShown (state_of self.old) }
        requires going { self.old.end ≡ None }
        requires quiet { self.old.bus.queue ≡ [] }
        requires script { IsSound self.old.script }
        requires within { self.old.next ≤ length self.old.script.entries }
        ensures idles { Idles D.account (state_of self.old) (state_of self.new) plugs.old plugs.new }
        ensures script { self.new.script ≡ self.old.script }
        ensures within { self.new.next ≤ length self.old.script.entries }
        ensures counts { self.new.counts ≡ self.old.counts }
        ensures early { self.old.clock ≤ end_limit → self.new.clock ≤ end_limit }
        ensures fewer { moves_left (state_of self.new) < moves_left (state_of self.old) }
    {
        match idle_move(self.runtime.next_wake(), self.next_entry(), self.script.end) {
            Idle::Quiet => self.end = Some(Stop::Quiet),
            Idle::Script => {
                self.clock = self.script.end;
                self.end = Some(Stop::Script);
            }
            Idle::Jump(moment) => {
                self.clock = moment;
                self.runtime.wake_due(moment);
                self.arrive(plugs);
            }
        }
    }

    /// One idle move: the oldest event is dispatched, or where there is none the clock goes on or the run ends.
    pub fn idle<D: Device>(&mut self, plugs: &mut Plugs<D>)
        requires empty { IsEmpty (state_of self.old) }
        requires shown { IsShown (state_of self.old) }
        requires going { self.old.end ≡ None }
        requires script { IsSound self.old.script }
        requires within { self.old.next ≤ length self.old.script.entries }
        ensures idles { Idles D.account (state_of self.old) (state_of self.new) plugs.old plugs.new }
        ensures script { self.new.script ≡ self.old.script }
        ensures within { self.new.next ≤ length self.old.script.entries }
        ensures counts { self.new.counts ≡ self.old.counts }
        ensures early { self.old.clock ≤ end_limit → self.new.clock ≤ end_limit }
        ensures fewer { moves_left (state_of self.new) < moves_left (state_of self.old) }
    {
        if !self.dispatch() {
            self.clock_move(plugs);
        }
    }

    /// The clock comes to a moment: the sleepers that are due become ready, the entries of the moment are applied, and behind them these events are raised.
    pub fn come_to<D: Device>(&mut self, moment: u32, events: &[Event], plugs: &mut Plugs<D>)
        requires acts { All (λ e. IsSoundAct (world_act e.act)) self.old.script.entries }
        requires within { self.old.next ≤ length self.old.script.entries }
        requires rising { IsRisingFrom moment (world_entries (drop self.old.next self.old.script.entries)) }
        ensures came { CameTo D.account moment events.now self.old self.new plugs.old plugs.new }
        ensures script { self.new.script ≡ self.old.script }
        ensures counts { self.new.counts ≡ self.old.counts }
        ensures end { self.new.end ≡ self.old.end }
        ensures clock { self.new.clock ≡ moment }
        ensures within { self.new.next ≤ length self.old.script.entries }
    {
        self.clock = moment;
        self.runtime.wake_due(moment);
        self.arrive(plugs);
        raise_all(&mut self.bus, events);
    }

    /// Goes on until a fiber runs or the run is over.
    #[inline(always)]
    pub fn settle<D: Device>(&mut self, plugs: &mut Plugs<D>)
        requires shown { IsShown (state_of self.old) }
        requires script { IsSound self.old.script }
        requires within { self.old.next ≤ length self.old.script.entries }
        ensures idles { Idles D.account (state_of self.old) (state_of self.new) plugs.old plugs.new }
        ensures settled { self.new.end ≡ None → IsSome self.new.runtime.running }
        ensures script { self.new.script ≡ self.old.script }
        ensures within { self.new.next ≤ length self.old.script.entries }
        ensures counts { self.new.counts ≡ self.old.counts }
        ensures early { self.old.clock ≤ end_limit → self.new.clock ≤ end_limit }
    {
        if !self.runtime.is_running() {
            self.go_on(plugs);
        }
    }

    /// Goes on, idle move by idle move, until a fiber runs or the run is over.
    fn go_on<D: Device>(&mut self, plugs: &mut Plugs<D>)
        requires shown { IsShown (state_of self.old) }
        requires script { IsSound self.old.script }
        requires within { self.old.next ≤ length self.old.script.entries }
        ensures idles { Idles D.account (state_of self.old) (state_of self.new) plugs.old plugs.new }
        ensures settled { self.new.end ≡ None → IsSome self.new.runtime.running }
        ensures script { self.new.script ≡ self.old.script }
        ensures within { self.new.next ≤ length self.old.script.entries }
        ensures counts { self.new.counts ≡ self.old.counts }
        ensures early { self.old.clock ≤ end_limit → self.new.clock ≤ end_limit }
    {
        while self.end.is_none() && !self.runtime.is_running() {
            if self.begin() {
                break;
            }
            self.idle(plugs);
        }
    }

    /// Applies the entries of the present moment, in order.
    fn arrive<D: Device>(&mut self, plugs: &mut Plugs<D>)
        requires acts { All (λ e. IsSoundAct (world_act e.act)) self.old.script.entries }
        requires within { self.old.next ≤ length self.old.script.entries }
        ensures arrived { Arrived D.account self.old self.new plugs.old plugs.new }
        ensures stays { self.new
            ≡ record self.old { bus = self.new.bus; buttons = self.new.buttons; next = self.new.next } }
        ensures later { (self.old.next ≤ self.new.next) × (self.new.next ≤ length self.old.script.entries) }
        ensures grows { length self.new.bus.queue + 2 * self.old.next ≤ length self.old.bus.queue + 2 * self.new.next }
        ensures applies { next_entry (world_entries (drop self.old.next self.old.script.entries)) ≡ Some self.old.clock
            → self.old.next < self.new.next }
    {
        let count = self.script.entries.len();
        while self.next < count {
            match self.script.entries.get(self.next) {
                Some(entry) => {
                    if entry.at != self.clock {
                        break;
                    }
                    let act = entry.act;
                    apply(act, self.clock, &mut self.buttons, &mut self.bus, plugs);
                    self.next += 1;
                }
                None => unreachable!(),
            }
        }
    }
}
