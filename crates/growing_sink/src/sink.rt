// A sink in memory that grows.
ghost use Rattle.std.specs.Prelude.{◌≡◌, ◌≤◌, ◌+◌, Some, [], OnOk, OnErr, length};
ghost use Rattle.std.specs.Bool.{OnTrue};
ghost use Rattle.sts_base.specs.Faults.{one_more};
ghost use Rattle.tool_io.specs.Putting.{Puts};

use std::alloc::Global;
use tool_io::{PutFailed, Sink};

/// A sink in memory that takes each piece which fits below its most and for which there is memory. One that fails takes nothing, and is counted.
#[derive(Drop)]
pub struct GrowingSink {
    taken: Vec<u8>,
    most: usize,
    faults: u64,
}

impl GrowingSink {
    /// A sink that has taken nothing, and takes at most so many bytes. It takes no memory.
    pub fn new(alloc: Global, most: usize) -> GrowingSink
        ensures empty { result.taken.items ≡ [] }
        ensures most { result.most ≡ most }
        ensures faults { result.faults ≡ 0 }
    {
        GrowingSink {
            taken: Vec::new(alloc),
            most,
            faults: 0,
        }
    }

    /// The bytes so far.
    pub fn taken(&self) -> &[u8]
        ensures { result.now ≡ self.now.taken.items }
    {
        &self.taken
    }

    /// Whether the piece fits below the most.
    fn has_room(&self, piece: &[u8]) -> bool
        ensures { OnTrue result (length self.now.taken.items + length piece.now ≤ self.now.most) }
    {
        match self.taken.len().checked_add(piece.len()) {
            Some(bytes) => bytes <= self.most,
            None => false,
        }
    }
}

impl Sink for GrowingSink {
    ghost taken = { λ sink. Some sink.taken.items };

    ghost faults = { λ sink. sink.faults };

    fn put(&mut self, piece: &[u8]) -> Result<(), PutFailed>
        ensures puts { Puts (Some self.old.taken.items)
            (Some self.new.taken.items) self.old.faults self.new.faults piece.now result }
        ensures nothing { OnErr result (self.new.taken.items ≡ self.old.taken.items) }
        ensures within { OnOk result (length self.new.taken.items ≤ self.new.most) }
        ensures counted { OnErr result (self.new.faults ≡ one_more self.old.faults) }
        ensures uncounted { OnOk result (self.new.faults ≡ self.old.faults) }
        ensures most { self.new.most ≡ self.old.most }
    {
        if self.has_room(piece) && self.taken.extend_from_slice(piece).is_ok() {
            return Ok(());
        }
        self.faults = self.faults.saturating_add(1);
        Err(PutFailed)
    }
}
