// A sink that never fails.
ghost use Rattle.std.specs.Prelude.{None, IsOk};
ghost use Rattle.tool_io.specs.Putting.{Puts};

use crate::{PutFailed, Sink};
use std::alloc::Global;
use sts_base::NoMemory;

/// A sink that takes every piece, keeps no byte and tells no content.
#[derive(Drop)]
pub struct SureSink;

impl SureSink {
    /// The sink.
    pub fn new(_alloc: Global) -> Result<SureSink, NoMemory>
        ensures { IsOk result }
    {
        Ok(SureSink)
    }
}

impl Sink for SureSink {
    ghost taken = { λ sink. None };

    ghost faults = { λ sink. 0 };

    fn put(&mut self, piece: &[u8]) -> Result<(), PutFailed>
        ensures puts { Puts None None 0 0 piece.now result }
        ensures sure { IsOk result }
    {
        let _ = piece;
        Ok(())
    }
}
