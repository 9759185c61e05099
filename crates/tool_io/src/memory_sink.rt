// A sink in memory, which fails at the calls that it is told to and past its room.
ghost use Rattle.std.specs.Prelude.{◌≡◌, ◌≤◌, ◌<◌, ◌+◌, ◌-◌, ◌++◌, ◌↔◌, List, ℕ, Some, [], OnOk, OnErr, IfOk, IsOk, Contains, vec_capacity, vec_len, length, max};
ghost use Rattle.tool_io.specs.Putting.{Puts};
ghost use Rattle.sts_base.specs.Faults.{one_more};

use crate::{PutFailed, Sink};
use std::alloc::Global;
use sts_base::{NoMemory, Seq};

/// A sink in memory. The calls of `put` whose numbers, from 1, stand in its list of failing calls fail, and so do those
/// past the room that was reserved. No others do, and one that fails takes nothing.
#[derive(Drop)]
pub struct MemorySink {
    taken: Vec<u8>,
    room: usize,
    failing: Seq<u64>,
    calls: u64,
    faults: u64,
    ghost reserved: { vec_len taken + room ≤ vec_capacity taken },
}

impl MemorySink {
    /// A sink without faults that has taken nothing and has no room, whose calls of these numbers, from 1, are to fail.
    pub fn new(alloc: Global, failing: Seq<u64>) -> Result<MemorySink, NoMemory>
        ensures empty { IfOk result (λ sink. sink.taken.items ≡ []) }
        ensures room { IfOk result (λ sink. sink.room ≡ 0) }
        ensures failing { IfOk result (λ sink. sink.failing ≡ failing) }
        ensures calls { IfOk result (λ sink. sink.calls ≡ 0) }
        ensures faults { IfOk result (λ sink. sink.faults ≡ 0) }
    {
        Ok(MemorySink {
            taken: Vec::new(alloc),
            room: 0,
            failing,
            calls: 0,
            faults: 0,
        })
    }

    /// Makes room for so many bytes, if it has room for less. After `NoMemory` it is unchanged.
    pub fn reserve(&mut self, _alloc: Global, bytes: usize) -> Result<(), NoMemory>
        ensures room { OnOk result (self.new.room ≡ max self.old.room bytes) }
        ensures unchanged { OnErr result (self.new.room ≡ self.old.room) }
        ensures taken { self.new.taken.items ≡ self.old.taken.items }
        ensures failing { self.new.failing ≡ self.old.failing }
        ensures calls { self.new.calls ≡ self.old.calls }
        ensures faults { self.new.faults ≡ self.old.faults }
    {
        if self.room < bytes {
            if self.taken.try_reserve(bytes).is_err() {
                return Err(NoMemory);
            }
            self.room = bytes;
        }
        Ok(())
    }

    /// The bytes so far.
    pub fn taken(&self) -> &[u8]
        ensures { result.now ≡ self.now.taken.items }
    {
        &self.taken
    }
}

impl Sink for MemorySink {
    ghost taken = { λ sink. Some sink.taken.items };

    ghost faults = { λ sink. sink.faults };

    fn put(&mut self, piece: &[u8]) -> Result<(), PutFailed>
        ensures puts { Puts (Some self.old.taken.items)
            (Some self.new.taken.items) self.old.faults self.new.faults piece.now result }
        ensures calls { self.new.calls ≡ one_more self.old.calls }
        ensures exact { IsOk result
            ↔ ((Contains self.old.failing self.new.calls → ⊥) × (length piece.now ≤ self.old.room)) }
        ensures nothing { OnErr result (self.new.taken.items ≡ self.old.taken.items) }
        ensures room_less { OnOk result (self.new.room + length piece.now ≡ self.old.room) }
        ensures room_stays { OnErr result (self.new.room ≡ self.old.room) }
        ensures counted { OnErr result (self.new.faults ≡ one_more self.old.faults) }
        ensures uncounted { OnOk result (self.new.faults ≡ self.old.faults) }
        ensures failing { self.new.failing ≡ self.old.failing }
    {
        self.calls = self.calls.saturating_add(1);
        if self.failing.as_slice().contains(&self.calls) {
            self.faults = self.faults.saturating_add(1);
            return Err(PutFailed);
        }
        if piece.len() > self.room {
            self.faults = self.faults.saturating_add(1);
            return Err(PutFailed);
        }
        match self.taken.extend_from_slice(piece) {
            Ok(()) => {
                self.room -= piece.len();
                Ok(())
            }
            Err(_) => unreachable!(),
        }
    }
}
