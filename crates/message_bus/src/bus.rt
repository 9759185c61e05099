// The bus, and the calls on it.
ghost use Rattle.std.specs.Prelude.{◌≡◌, ◌+◌, ◌<◌, ◌≤◌, ◌^◌, ◌↔◌, ℕ, [], ◌∷◌, ◌++◌, length, map, All, IsTrue, IsOk, OnOk, OnErr, IfOk, IsSome, None, slice_get, IsBitSet, Option, option_map};
ghost use Rattle.std.specs.Option.{option_to_list};
ghost use Rattle.board_world.specs.Limits.{listener_limit, queue_limit};
ghost use Rattle.std.specs.List.{list_any};
ghost use Rattle.message_bus.specs.ListenerState.{fresh, begins_new, heard, oldest, ended};
ghost use Rattle.message_bus.specs.BusState.{queued, begun_bits, AtListener, changed, held_at, alive_at};
ghost use Rattle.message_bus.specs.Answers.{answer_of};

use crate::held::Held;
use crate::registration::{Registration, begun, hear_all, some_begins};
use board_world::{Event, LISTENER_LIMIT, Listener, QUEUE_LIMIT};
use circular_buffer::HeapCircularBuffer;
use std::alloc::Global;
use std::marker::Model;
use sts_base::NoMemory;

/// The listeners, in the order of registration, and the events that wait to be dispatched. All memory is taken by `new`:
/// for 32 listeners, for ten held events of each, and for 32 queued events.
#[derive(Drop)]
pub struct Bus {
    registrations: Vec<Registration>,
    spare: Vec<Held>,
    queue: HeapCircularBuffer<Event>,
}

impl Model for Bus {
    ghost use Rattle.std.specs.Prelude.{◌≡◌, ◌+◌, ◌≤◌, vec_len, vec_capacity, length};
    ghost use Rattle.board_world.specs.Limits.{listener_limit, queue_limit};
    ghost use Rattle.message_bus.specs.BusState.{BusState};

    ghost Value = { BusState };

    ghost view = { λ b. record { listeners = b.registrations.items; queue = b.queue.items } };

    ghost invariant = { λ b. (listener_limit ≤ vec_capacity b.registrations)
        × (vec_len b.registrations + vec_len b.spare ≡ listener_limit) × (b.queue.capacity ≡ queue_limit)
        × (length b.queue.items ≤ queue_limit) };
}

/// 32 listeners stand.
#[derive(Clone, Copy, Debug, PartialEq, Eq)]
pub struct ListenersFull;

/// What becomes of an event that is raised.
#[derive(Clone, Copy, Debug, PartialEq, Eq)]
pub enum Raised {
    /// It waits to be dispatched.
    Queued,
    /// It is gone, since 32 events wait.
    Dropped,
}

/// Room for ten held events of each of 32 listeners.
fn rooms(alloc: Global) -> Result<Vec<Held>, NoMemory>
    ensures { IfOk result (λ spare. length spare.items ≡ listener_limit) }
{
    let mut spare = match Vec::with_capacity(alloc, LISTENER_LIMIT) {
        Ok(spare) => spare,
        Err(_) => return Err(NoMemory),
    };
    for _ in 0..LISTENER_LIMIT {
        let held = Held::new(alloc)?;
        if spare.push(held).is_err() {
            return Err(NoMemory);
        }
    }
    Ok(spare)
}

impl Bus {
    /// No listeners and no events, with all memory that the bus will need.
    pub fn new(alloc: Global) -> Result<Bus, NoMemory>
        ensures { IfOk result (λ b. b ≡ record { listeners = []; queue = [] }) }
    {
        let spare = rooms(alloc)?;
        let registrations = match Vec::with_capacity(alloc, LISTENER_LIMIT) {
            Ok(registrations) => registrations,
            Err(_) => return Err(NoMemory),
        };
        match HeapCircularBuffer::with_capacity(alloc, QUEUE_LIMIT) {
            Ok(queue) => Ok(Bus {
                registrations,
                spare,
                queue,
            }),
            Err(_) => Err(NoMemory),
        }
    }

    /// Registers a listener behind the others. It is refused exactly where 32 stand; then nothing changes.
    pub fn listen(&mut self, listener: Listener) -> Result<(), ListenersFull>
        ensures room { IsOk result ↔ (length self.old.listeners < listener_limit) }
        ensures ok { OnOk result
            (self.new ≡ record self.old { listeners = self.old.listeners ++ fresh listener ∷ [] }) }
        ensures full { OnErr result (self.new ≡ self.old) }
    {
        match self.spare.pop() {
            None => Err(ListenersFull),
            Some(held) => match self.registrations.push(Registration::new(listener, held)) {
                Ok(()) => Ok(()),
                Err(_) => unreachable!(),
            },
        }
    }

    /// An event joins the queue. It is dropped exactly where 32 wait there; then nothing changes.
    pub fn raise(&mut self, event: Event) -> Raised
        ensures answer { result ≡ answer_of self.old.queue }
        ensures queue { self.new ≡ record self.old { queue = queued event self.old.queue } }
        ensures most { length self.new.queue ≤ queue_limit }
    {
        match self.queue.try_push_back(event) {
            Ok(()) => Raised::Queued,
            Err(_) => Raised::Dropped,
        }
    }

    /// Takes the oldest event of the queue. None exactly where there is none.
    pub fn next(&mut self) -> Option<Event>
        ensures none { (result ≡ None) ↔ (self.old.queue ≡ []) }
        ensures taken { self.old ≡ record self.new { queue = option_to_list result ++ self.new.queue } }
    {
        self.queue.pop_front()
    }

    /// How many listeners stand.
    pub fn count(&self) -> usize
        ensures count { result ≡ length self.now.listeners }
        ensures most { result ≤ listener_limit }
    {
        self.registrations.len()
    }

    /// The listener with this number, counted from 0 in the order of registration. None exactly past the end.
    pub fn listener(&self, at: usize) -> Option<Listener>
        ensures value { result ≡ option_map (λ l. l.hearing.listener) (slice_get self.now.listeners at) }
        ensures within { IsSome result ↔ (at < length self.now.listeners) }
    {
        match self.registrations.get(at) {
            None => None,
            Some(registration) => Some(registration.listener()),
        }
    }

    /// Goes through the listeners that match the event, in the order of registration. One that is reentrant or of which
    /// no activity is alive begins a new one, and its bit is set in the answer; one that is busy and queues holds the
    /// event, where it holds fewer than ten. For each other one the event is lost.
    pub fn dispatch(&mut self, event: Event) -> u32
        requires { All (λ l. l.alive < 1000) self.old.listeners }
        ensures bits { result ≡ begun_bits event self.old.listeners }
        ensures each { (i : ℕ)
            → IsBitSet result i ↔ AtListener (λ l. IsTrue (begins_new event l)) i self.old.listeners }
        ensures after { self.new ≡ record self.old { listeners = map (heard event) self.old.listeners } }
    {
        let bits = begun(self.registrations.as_slice(), event);
        hear_all(self.registrations.as_mut_slice(), event);
        bits
    }

    /// Whether `dispatch` of this event would begin a new activity.
    pub fn begins(&self, event: Event) -> bool
        ensures some { result ≡ list_any (begins_new event) self.now.listeners }
        ensures bits { IsTrue result ↔ (0 < begun_bits event self.now.listeners) }
    {
        some_begins(self.registrations.as_slice(), event)
    }

    /// An activity of listener `at` ends: the oldest event that the listener holds is given, and the activity begins
    /// again with it. None exactly where it holds none; then one activity fewer of it is alive.
    pub fn again(&mut self, at: usize) -> Option<Event>
        requires stands { at < length self.old.listeners }
        requires lives { 0 < alive_at at self.old.listeners }
        ensures next { result ≡ oldest (held_at at self.old.listeners) }
        ensures after { self.new ≡ record self.old { listeners = changed ended at self.old.listeners } }
    {
        let registration = &mut self.registrations[at];
        registration.end()
    }
}
