//! The arena.
ghost use Rattle.std.specs.Prelude.{◌≡◌, ℕ, ◌+◌, ◌≤◌, ◌<◌, ◌↔◌, IsSome, IfSome};
ghost use Rattle.board_world.specs.Limits.{arena_limit};
ghost use Rattle.bank_model.specs.Arrays.{behind_words};
ghost use Rattle.arena_heap.specs.Pushing.{pushing, IsPushed};

use crate::arrays::{grown_room, header_at, move_array, store};
use armv6m_machine::Machine;
use board_world::ARENA_LIMIT;
use std::marker::Model;

/// The address of the arena's first word.
const START: u32 = 0x2000_0400;

/// What a push came to.
#[derive(Clone, Copy, Debug, PartialEq, Eq, Drop)]
pub enum Pushed {
    /// The item stands behind the others.
    Done,
    /// The array is full, and more room for it would pass the end of the arena.
    Full,
    /// No array stands there.
    Bad,
}

/// How many words of the arena are used: the first ones.
#[derive(Drop)]
pub struct Arena {
    used: u32,
}

impl Model for Arena {
    ghost Value = { ℕ };

    ghost view = { λ a. a.used };

    ghost invariant = { λ a. a.used ≤ arena_limit };
}

impl Arena {
    /// No word is used.
    pub fn new() -> Arena
        ensures { result ≡ 0 }
    {
        Arena { used: 0 }
    }

    /// How many words are used.
    pub fn used(&self) -> u32
        ensures value { result ≡ self.now }
        ensures most { result ≤ arena_limit }
    {
        self.used
    }

    /// Uses so many more words, and gives the address of the first. They aren't cleared. None exactly where there aren't so many;
    /// nothing changes then.
    pub fn take(&mut self, words: u32) -> Option<u32>
        ensures fits { IsSome result ↔ (self.old + words ≤ arena_limit) }
        ensures taken { IfSome result (λ at. (at ≡ behind_words self.old) × (self.new ≡ self.old + words)) }
        ensures kept { result ≡ None → self.new ≡ self.old }
    {
        if words > ARENA_LIMIT - self.used {
            return None;
        }
        let at = START + 4 * self.used;
        self.used += words;
        Some(at)
    }

    /// Puts an item behind those of the array at an address, which moves to more room where it is full. `Full` comes exactly where
    /// that room doesn't fit, and `Bad` exactly where no array stands there; nothing changes then.
    pub fn push(&mut self, machine: &mut Machine, array: u32, item: u32) -> Pushed
        ensures { IsPushed (pushing machine.old.memory.arena self.old array item) result machine.old machine.new
            self.old self.new }
    {
        let Some(header) = header_at(machine, self.used, array) else {
            return Pushed::Bad;
        };
        if header.length < header.room {
            store(machine, array, header, item);
            return Pushed::Done;
        }
        match self.take(grown_room(header.room)) {
            Some(to) => {
                move_array(machine, array, header, item, to);
                Pushed::Done
            }
            None => Pushed::Full,
        }
    }
}
