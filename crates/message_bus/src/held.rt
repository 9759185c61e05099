// The events that a listener holds.
ghost use Rattle.std.specs.Prelude.{◌≡◌, [], ◌∷◌, ◌++◌, ◌≤◌, length, nat_lt, if◌then◌else◌, IfOk, drop};
ghost use Rattle.board_world.specs.Limits.{held_limit};
ghost use Rattle.message_bus.specs.ListenerState.{oldest};

use board_world::{Event, HELD_LIMIT};
use circular_buffer::HeapCircularBuffer;
use std::alloc::Global;
use std::marker::Model;
use sts_base::NoMemory;

/// Up to ten events, the oldest first, with the memory for them.
#[derive(Drop)]
pub struct Held {
    events: HeapCircularBuffer<Event>,
}

impl Model for Held {
    ghost use Rattle.std.specs.Prelude.{◌≡◌, List};
    ghost use Rattle.board_world.specs.Limits.{held_limit};
    ghost use Rattle.board_world.specs.declared.events.Event.{Event};

    ghost Value = { List Event };

    ghost view = { λ h. h.events.items };

    ghost invariant = { λ h. h.events.capacity ≡ held_limit };
}

impl Held {
    /// None at first, with room for ten.
    pub fn new(alloc: Global) -> Result<Held, NoMemory>
        ensures { IfOk result (λ h. h ≡ []) }
    {
        match HeapCircularBuffer::with_capacity(alloc, HELD_LIMIT) {
            Ok(events) => Ok(Held { events }),
            Err(_) => Err(NoMemory),
        }
    }

    /// Lets all events go.
    pub fn clear(&mut self)
        ensures { self.new ≡ [] }
    {
        self.events.clear();
    }

    /// Holds one more event; an eleventh one is lost.
    pub fn hold(&mut self, event: Event)
        ensures { self.new ≡ (if nat_lt (length self.old) held_limit then self.old ++ event ∷ [] else self.old) }
    {
        let _ = self.events.try_push_back(event);
    }

    /// Takes the oldest event.
    pub fn take_oldest(&mut self) -> Option<Event>
        ensures value { result ≡ oldest self.old }
        ensures rest { self.new ≡ drop 1 self.old }
    {
        self.events.pop_front()
    }
}
