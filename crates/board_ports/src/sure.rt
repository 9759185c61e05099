// A device that never fails.
ghost use Rattle.std.specs.Prelude.{◌≡◌, None, true, length};
ghost use Rattle.board_ports.specs.Counts.{some_more};
ghost use Rattle.sts_base.specs.Faults.{one_more};

use crate::Device;

/// A device that takes every word, keeps none and tells no log.
#[derive(Drop)]
pub struct SureDevice {
    writes: u64,
}

impl SureDevice {
    /// The device, which nothing was written to.
    pub fn new() -> SureDevice
        ensures { result.writes ≡ 0 }
    {
        SureDevice { writes: 0 }
    }
}

impl Device for SureDevice {
    ghost account = { λ device. record { log = None; faults = 0; writes = device.writes } };

    fn logged(&self, _at: usize) -> Option<(u32, u32)>
        ensures untold { result ≡ None }
    {
        None
    }

    fn write(&mut self, _now: u32, _word: u32) -> bool
        ensures sure { result ≡ true }
        ensures once { self.new.writes ≡ one_more self.old.writes }
    {
        self.writes = self.writes.saturating_add(1);
        true
    }

    fn write_bytes(&mut self, _now: u32, bytes: &[u8]) -> bool
        ensures sure { result ≡ true }
        ensures once { self.new.writes ≡ some_more (length bytes.now) self.old.writes }
    {
        let before = self.writes;
        self.writes = before.saturating_add(bytes.len() as u64);
        true
    }

    fn settle(&mut self) -> bool
        ensures sure { result ≡ true }
        ensures unchanged { self.new ≡ self.old }
    {
        true
    }
}
