// The dispatch places, the innermost first.
ghost use Rattle.std.specs.Prelude.{◌≡◌, ◌∷◌, ◌<◌, ◌≤◌, [], length, IfSome, IfNone, IfOk, OnSome, vec_len, List, ℕ};
ghost use Rattle.board_run.specs.Shown.{PendingDispatch as PlaceState, Takes, IsSpent, at_first};

use crate::place::PendingDispatch;
use board_world::Event;
use std::alloc::Global;
use std::marker::Model;
use std::mem::replace;
use sts_base::NoMemory;

/// One place for each raiser, and one behind them.
#[derive(Drop)]
pub struct Places {
    top: PendingDispatch,
    below: Vec<PendingDispatch>,
}

impl Model for Places {
    ghost use Rattle.std.specs.Prelude.{List, reverse, ◌∷◌, ◌≤◌, vec_len, vec_capacity};
    ghost use Rattle.board_run.specs.Shown.{PendingDispatch as PlaceState};

    ghost Value = { List PlaceState };

    ghost view = { λ p. p.top ∷ reverse p.below.items };

    ghost invariant = { λ p. (32 ≤ vec_capacity p.below) × (vec_len p.below ≤ 32) };
}

impl Places {
    /// One place, with no handlers left.
    pub fn new(alloc: Global) -> Result<Places, NoMemory>
        ensures { IfOk result (λ p. p ≡ at_first) }
    {
        match Vec::with_capacity(alloc, 32) {
            Ok(below) => Ok(Places {
                top: PendingDispatch::new(
                    Event {
                        source: 0,
                        value: 0,
                    },
                    0,
                ),
                below,
            }),
            Err(_) => Err(NoMemory),
        }
    }

    /// Takes the first handler of the innermost place. None exactly where none is left there.
    pub fn take_next(&mut self) -> Option<(Event, u32)>
        ensures taken { IfSome result (λ x. Takes x.0 x.1 self.old self.new) }
        ensures none { IfNone result (IsSpent self.old × (self.new ≡ self.old)) }
    {
        let event = self.top.event();
        match self.top.take_next() {
            Some(at) => Some((event, at)),
            None => None,
        }
    }

    /// Puts a place in front.
    pub fn push(&mut self, place: PendingDispatch)
        requires { length self.old ≤ 32 }
        ensures { self.new ≡ place ∷ self.old }
    {
        let top = replace(&mut self.top, place);
        match self.below.push(top) {
            Ok(()) => {}
            Err(_) => unreachable!(),
        }
    }

    /// Another place stands in place of the innermost.
    pub fn renew(&mut self, place: PendingDispatch)
        ensures { (p : PlaceState) (ps : List PlaceState) → self.old ≡ p ∷ ps → self.new ≡ place ∷ ps }
    {
        self.top = place;
    }

    /// Lets the innermost place go, where there is another behind it.
    pub fn pop(&mut self)
        ensures { (p q : PlaceState) (ps : List PlaceState) → self.old ≡ p ∷ (q ∷ ps) → self.new ≡ q ∷ ps }
    {
        match self.below.pop() {
            Some(place) => self.top = place,
            None => {}
        }
    }
}
