// A device in memory, which fails at the calls that it is told to and past its room.
ghost use Rattle.std.specs.Prelude.{◌≡◌, ◌≤◌, ◌<◌, ◌∷◌, [], ◌↔◌, Some, IfOk, Contains, length, vec_capacity, slice_get, IsTrue, true};
ghost use Rattle.std.specs.Bool.{OnTrue, OnFalse};
ghost use Rattle.sts_base.specs.Faults.{Rose, one_more};
ghost use Rattle.board_ports.specs.Logs.{Logs};

use crate::Device;
use std::alloc::Global;
use sts_base::{NoMemory, Seq};

/// A device in memory, which tells its log. The writes whose numbers, from 1, stand in its list of failing calls fail, and
/// so does each that finds the log full. No others do.
#[derive(Drop)]
pub struct MemoryDevice {
    log: Vec<(u32, u32)>,
    room: usize,
    failing: Seq<u64>,
    calls: u64,
    faults: u64,
    ghost reserved: { room ≤ vec_capacity log },
}

impl MemoryDevice {
    /// A device without faults, with an empty log and room for so many entries, whose writes of these numbers, from 1, are
    /// to fail.
    pub fn new(alloc: Global, room: usize, failing: Seq<u64>) -> Result<MemoryDevice, NoMemory>
        ensures empty { IfOk result (λ device. device.log.items ≡ []) }
        ensures room { IfOk result (λ device. device.room ≡ room) }
        ensures failing { IfOk result (λ device. device.failing ≡ failing) }
        ensures calls { IfOk result (λ device. device.calls ≡ 0) }
        ensures faults { IfOk result (λ device. device.faults ≡ 0) }
    {
        let mut log = Vec::new(alloc);
        if log.try_reserve(room).is_err() {
            return Err(NoMemory);
        }
        Ok(MemoryDevice {
            log,
            room,
            failing,
            calls: 0,
            faults: 0,
        })
    }
}

impl Device for MemoryDevice {
    ghost account = { λ device. record { log = Some device.log.items; faults = device.faults; writes = device.calls } };

    fn logged(&self, at: usize) -> Option<(u32, u32)>
        ensures { result ≡ slice_get self.now.log.items at }
    {
        self.log.get(at).copied()
    }

    fn write(&mut self, now: u32, word: u32) -> bool
        ensures logged { OnTrue result
            (Logs (Some self.old.log.items) (Some self.new.log.items) ((now, word) ∷ [])) }
        ensures stays { OnFalse result (Some self.new.log.items ≡ Some self.old.log.items) }
        ensures later { self.old.faults ≤ self.new.faults }
        ensures failed { OnFalse result (Rose self.old.faults self.new.faults) }
        ensures exact { IsTrue result
            ↔ ((Contains self.old.failing self.new.calls → ⊥) × (length self.old.log.items < self.old.room)) }
        ensures calls { self.new.calls ≡ one_more self.old.calls }
        ensures uncounted { OnTrue result (self.new.faults ≡ self.old.faults) }
        ensures counted { OnFalse result (self.new.faults ≡ one_more self.old.faults) }
        ensures room { self.new.room ≡ self.old.room }
        ensures failing { self.new.failing ≡ self.old.failing }
    {
        self.calls = self.calls.saturating_add(1);
        if self.failing.as_slice().contains(&self.calls) {
            self.faults = self.faults.saturating_add(1);
            return false;
        }
        if self.log.len() >= self.room {
            self.faults = self.faults.saturating_add(1);
            return false;
        }
        match self.log.push((now, word)) {
            Ok(()) => true,
            Err(_) => unreachable!(),
        }
    }

    fn settle(&mut self) -> bool
        ensures sure { result ≡ true }
        ensures unchanged { self.new ≡ self.old }
    {
        true
    }
}
