// A dispatch place.
ghost use Rattle.std.specs.Prelude.{◌≡◌, ◌++◌, ◌<◌, ◌≤◌, ◌%◌, [], IfNone, All, map};
ghost use Rattle.std.specs.Option.{option_to_list};
ghost use Rattle.message_bus.specs.Numbers.{numbers};
ghost use Rattle.message_bus.specs.ListenerState.{heard};
ghost use Rattle.board_run.specs.Shown.{left_of, place_for};

use board_world::Event;
use message_bus::Bus;
use std::marker::Model;

/// An event, and the set of the listeners that `Bus::dispatch` gave for it and whose handlers haven't begun.
#[derive(Drop)]
pub struct PendingDispatch {
    event: Event,
    next: u32,
    bits: u32,
}

impl Model for PendingDispatch {
    ghost use Rattle.std.specs.Prelude.{◌≤◌};
    ghost use Rattle.board_run.specs.Shown.{PendingDispatch as PlaceState, left_of};

    ghost Value = { PlaceState };

    ghost view = { λ p. record { event = p.event; left = left_of p.next p.bits } };

    ghost invariant = { λ p. p.next ≤ 32 };
}

impl PendingDispatch {
    /// The place of an event, with these listeners.
    pub fn new(event: Event, bits: u32) -> PendingDispatch
        ensures { result ≡ record { event = event; left = numbers 32 0 bits } }
    {
        PendingDispatch {
            event,
            next: 0,
            bits,
        }
    }

    pub fn event(&self) -> Event
        ensures { result ≡ self.now.event }
    {
        self.event
    }

    #[tactic(auto, using(crate::proofs::Bits::left_odd, crate::proofs::Bits::left_none))]
    /// Takes the first listener that is left. None exactly where none is.
    pub fn take_next(&mut self) -> Option<u32>
        ensures taken { self.old.left ≡ option_to_list result ++ self.new.left }
        ensures none { IfNone result (self.old.left ≡ []) }
        ensures event { self.new.event ≡ self.old.event }
    {
        let (at, bits) = first_set(self.next, self.bits);
        if at == 32 {
            self.next = 32;
            return None;
        }
        self.next = at + 1;
        self.bits = bits / 2;
        Some(at)
    }
}

/// The first number from `next` on whose bit is set, and the bits from it on; 32 where none is.
#[tactic(auto, using(crate::proofs::Bits::left_even, crate::proofs::Bits::left_none))]
fn first_set(next: u32, bits: u32) -> (u32, u32)
    requires { next ≤ 32 }
    ensures left { left_of result.0 result.1 ≡ left_of next bits }
    ensures most { result.0 ≤ 32 }
    ensures set { result.0 < 32 → result.1 % 2 ≡ 1 }
{
    let mut at = next;
    let mut rest = bits;
    while at < 32 && rest % 2 == 0 {
        at += 1;
        rest /= 2;
    }
    (at, rest)
}

/// The listeners hear an event: the place of those that begin a handler for it.
pub fn place_for(bus: &mut Bus, event: Event) -> PendingDispatch
    requires { All (λ l. l.alive < 1000) bus.old.listeners }
    ensures place { result ≡ place_for event bus.old.listeners }
    ensures bus { bus.new ≡ record bus.old { listeners = map (heard event) bus.old.listeners } }
{
    // There are at most as many listeners as bits.
    let _ = bus.count();
    let bits = bus.dispatch(event);
    PendingDispatch::new(event, bits)
}
