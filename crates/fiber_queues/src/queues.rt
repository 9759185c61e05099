// The lists, and the calls on them.
ghost use Rattle.std.specs.Prelude.{◌≡◌, ◌+◌, ◌<◌, ◌≤◌, ◌↔◌, [], ◌∷◌, ◌++◌, length, nat_lt, vec_len, vec_capacity, Some, None, IfOk, IfSome, IfNone};
ghost use Rattle.std.specs.Option.{option_to_list};
ghost use Rattle.board_world.specs.Limits.{seat_limit};
ghost use Rattle.board_world.specs.Waiting.{least, chosen, left, hears};
ghost use Rattle.fiber_queues.specs.Lists.{no_lists, Leads, total, HasRoom, first_chosen};
ghost use Rattle.fiber_queues.specs.Calls.{due_woken, waiter_woken};

use crate::search::{first_due, first_hearing, least_of};
use board_world::{Event, SEAT_LIMIT};
use std::alloc::Global;
use std::marker::Model;
use sts_base::NoMemory;

/// The keys of the ready fibers, of the sleepers with their wake times, and of the waiters with their events.
/// Each list is in the order in which its keys came, and has room for 24 from the start: no call takes memory.
#[derive(Drop)]
pub struct Queues {
    ready: Vec<usize>,
    sleepers: Vec<(u32, usize)>,
    waiters: Vec<(Event, usize)>,
}

impl Model for Queues {
    ghost use Rattle.std.specs.Prelude.{ℕ, ◌+◌, vec_len, vec_capacity};
    ghost use Rattle.fiber_queues.specs.Lists.{ListsOf, HasRoom};

    ghost Value = { ListsOf ℕ };

    ghost view = { λ q. record { ready = q.ready.items; sleepers = q.sleepers.items; waiters = q.waiters.items } };

    ghost invariant = { λ q. HasRoom (vec_capacity q.ready) (vec_capacity q.sleepers) (vec_capacity q.waiters)
        (vec_len q.ready + vec_len q.sleepers + vec_len q.waiters) };
}

/// An empty list with room for 24.
fn with_room<T: Drop>(alloc: Global) -> Result<Vec<T>, NoMemory>
    ensures empty { IfOk result (λ list. list.items ≡ []) }
    ensures room { IfOk result (λ list. vec_capacity list ≡ seat_limit) }
{
    match Vec::with_capacity(alloc, SEAT_LIMIT) {
        Ok(list) => Ok(list),
        Err(_) => Err(NoMemory),
    }
}

/// Appends to a list with room.
fn append<T: Drop>(list: &mut Vec<T>, item: T)
    requires { vec_len list.old < vec_capacity list.old }
    ensures items { list.new.items ≡ list.old.items ++ item ∷ [] }
    ensures len { vec_len list.new ≡ vec_len list.old + 1 }
    ensures capacity { vec_capacity list.old ≤ vec_capacity list.new }
{
    match list.push(item) {
        Ok(()) => {}
        Err(_) => unreachable!(),
    }
}

impl Queues {
    /// Three empty lists, each with room for 24 keys.
    pub fn new(alloc: Global) -> Result<Queues, NoMemory>
        ensures { IfOk result (λ q. q ≡ no_lists) }
    {
        Ok(Queues {
            ready: with_room(alloc)?,
            sleepers: with_room(alloc)?,
            waiters: with_room(alloc)?,
        })
    }

    /// A key becomes the last ready one.
    pub fn ready(&mut self, key: usize)
        requires { total self.old < seat_limit }
        ensures { self.new ≡ record self.old { ready = self.old.ready ++ key ∷ [] } }
    {
        append(&mut self.ready, key);
    }

    /// A key becomes the last sleeper, until this moment.
    pub fn sleep(&mut self, key: usize, wake: u32)
        requires { total self.old < seat_limit }
        ensures { self.new ≡ record self.old { sleepers = self.old.sleepers ++ (wake, key) ∷ [] } }
    {
        append(&mut self.sleepers, (wake, key));
    }

    /// A key becomes the last waiter, for this event.
    pub fn wait(&mut self, key: usize, event: Event)
        requires { total self.old < seat_limit }
        ensures { self.new ≡ record self.old { waiters = self.old.waiters ++ (event, key) ∷ [] } }
    {
        append(&mut self.waiters, (event, key));
    }

    /// Takes the first ready key. None exactly where none is ready.
    pub fn next(&mut self) -> Option<usize>
        ensures none { (result ≡ None) ↔ (self.old.ready ≡ []) }
        ensures taken { self.old ≡ record self.new { ready = option_to_list result ++ self.new.ready } }
    {
        if self.ready.is_empty() {
            None
        } else {
            Some(self.ready.remove(0))
        }
    }

    /// The first ready key. None exactly where none is ready.
    pub fn first(&self) -> Option<usize>
        ensures none { (result ≡ None) ↔ (self.now.ready ≡ []) }
        ensures first { IfSome result (λ key. Leads key self.now.ready) }
    {
        match self.ready.as_slice().first() {
            Some(key) => Some(*key),
            None => None,
        }
    }

    /// The least wake time. None exactly where nobody sleeps.
    pub fn next_wake(&self) -> Option<u32>
        ensures least { result ≡ least self.now.sleepers }
        ensures none { (result ≡ None) ↔ (self.now.sleepers ≡ []) }
    {
        least_of(self.sleepers.as_slice())
    }

    /// The sleepers whose wake time has come become ready, in the order in which they went to sleep.
    pub fn wake_due(&mut self, now: u32)
        ensures { self.new ≡ due_woken now self.old }
    {
        while let Some(at) = first_due(self.sleepers.as_slice(), now) {
            let (_, key) = self.sleepers.remove(at);
            append(&mut self.ready, key);
        }
    }

    /// The first waiter that hears the event becomes the last ready one, and its key is given. None exactly where no
    /// waiter hears it; then nothing changes.
    pub fn wake_waiter(&mut self, event: Event) -> Option<usize>
        ensures first { result ≡ first_chosen (hears event) self.old.waiters }
        ensures none { (result ≡ None) ↔ (chosen (hears event) self.old.waiters ≡ []) }
        ensures woken { self.new ≡ waiter_woken event self.old }
        ensures others { chosen (hears event) self.old.waiters
            ≡ option_to_list result ++ chosen (hears event) self.new.waiters }
        ensures left { left (hears event) self.new.waiters ≡ left (hears event) self.old.waiters }
    {
        match first_hearing(self.waiters.as_slice(), event) {
            None => None,
            Some(at) => {
                let (_, key) = self.waiters.remove(at);
                append(&mut self.ready, key);
                Some(key)
            }
        }
    }
}
