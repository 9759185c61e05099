// A listener on the bus.
ghost use Rattle.std.specs.Prelude.{◌≡◌, ◌+◌, ◌<◌, ◌≤◌, ◌^◌, ◌↔◌, length, map, All, IsTrue};
ghost use Rattle.board_world.specs.Limits.{listener_limit};
ghost use Rattle.std.specs.List.{list_any};
ghost use Rattle.message_bus.specs.ListenerState.{fresh, begins_new, heard, oldest, ended};
ghost use Rattle.message_bus.specs.BusState.{begun_bits};

use crate::held::Held;
use board_world::{DROPS_IF_BUSY, Event, Listener, REENTRANT, hits};
use std::marker::Model;

/// A listener, the events that it holds, and how many of its activities are alive.
#[derive(Drop)]
pub struct Registration {
    listener: Listener,
    held: Held,
    alive: u32,
}

impl Model for Registration {
    ghost use Rattle.message_bus.specs.ListenerState.{ListenerState};

    ghost Value = { ListenerState };

    ghost view = { λ p. record { hearing = record { listener = p.listener; held = p.held }; alive = p.alive } };
}

impl Registration {
    /// A listener as it is registered.
    pub fn new(listener: Listener, mut held: Held) -> Registration
        ensures { result ≡ fresh listener }
    {
        held.clear();
        Registration {
            listener,
            held,
            alive: 0,
        }
    }

    pub fn listener(&self) -> Listener
        ensures { result ≡ self.now.hearing.listener }
    {
        self.listener
    }

    /// Whether it begins a new activity for the event.
    pub fn begins(&self, event: Event) -> bool
        ensures { result ≡ begins_new event self.now }
    {
        hits(self.listener, event) && (self.listener.mode == REENTRANT || self.alive == 0)
    }

    /// Begins a new activity, holds the event, or does nothing.
    pub fn hear(&mut self, event: Event)
        requires { self.old.alive < 1000 }
        ensures { self.new ≡ heard event self.old }
    {
        if self.begins(event) {
            self.alive += 1;
        } else if hits(self.listener, event) && self.listener.mode != DROPS_IF_BUSY {
            self.held.hold(event);
        }
    }

    /// Begins again with the oldest held event, or one fewer is alive.
    pub fn end(&mut self) -> Option<Event>
        requires { 0 < self.old.alive }
        ensures next { result ≡ oldest self.old.hearing.held }
        ensures after { self.new ≡ ended self.old }
    {
        let next = self.held.take_oldest();
        if next.is_none() {
            self.alive -= 1;
        }
        next
    }
}

/// The set of those that begin a new activity for the event.
pub fn begun(registrations: &[Registration], event: Event) -> u32
    requires { length registrations.now ≤ listener_limit }
    ensures bits { result ≡ begun_bits event registrations.now }
    ensures below { result < 2 ^ length registrations.now }
{
    match registrations {
        [] => 0,
        [first, rest @ ..] => u32::from(first.begins(event)) + 2 * begun(rest, event),
    }
}

/// Whether one of them begins a new activity for the event.
pub fn some_begins(registrations: &[Registration], event: Event) -> bool
    ensures { result ≡ list_any (begins_new event) registrations.now }
{
    match registrations {
        [] => false,
        [first, rest @ ..] => first.begins(event) || some_begins(rest, event),
    }
}

/// Each of them hears the event.
pub fn hear_all(registrations: &mut [Registration], event: Event)
    requires { All (λ l. l.alive < 1000) registrations.old }
    ensures { registrations.new ≡ map (heard event) registrations.old }
{
    for registration in registrations.iter_mut() {
        registration.hear(event);
    }
}
