// A device, by the log of what was written to it and a count of its faults.
ghost use Rattle.std.specs.Prelude.{◌≡◌, ◌≤◌, ◌∷◌, [], None, length, slice_get};
ghost use Rattle.std.specs.Bool.{OnTrue, OnFalse};
ghost use Rattle.std.specs.Option.{ForSome};
ghost use Rattle.sts_base.specs.Faults.{Rose, one_more};
ghost use Rattle.board_ports.specs.Account.{Account};
ghost use Rattle.board_ports.specs.Counts.{some_more};
ghost use Rattle.board_ports.specs.Logs.{Logs, LogsFirst, at_moment};

/// A device that words are written to. Moments are in milliseconds.
pub trait Device: Drop {
    /// The moments and words that were written, where the device tells them; how often it has failed; and how often it was written to, a count
    /// that stays at 2^64 - 1 once it gets there.
    ghost account: { Self → Account };

    /// The device holds no word back. One that doesn't say otherwise never does.
    ghost settled: { Self → Type 0 } = { λ _. Unit {0} };

    /// The moment and the word at a place of the log. None comes exactly past its end, and always where the device
    /// tells no log.
    fn logged(&self, at: usize) -> Option<(u32, u32)>
        ensures told { ForSome (account self.now).log (λ entries. result ≡ slice_get entries at) }
        ensures untold { (account self.now).log ≡ None → result ≡ None };

    /// Writes a word at a moment. Where it answers true the pair was appended to the log, and the faults are those before. It answers false
    /// only where the count of faults rose, and then the log is unchanged. Either way the device was written to once.
    fn write(&mut self, now: u32, word: u32) -> bool
        ensures logged { OnTrue result (Logs (account self.old).log (account self.new).log ((now, word) ∷ [])) }
        ensures stays { OnFalse result ((account self.new).log ≡ (account self.old).log) }
        ensures kept { OnTrue result ((account self.new).faults ≡ (account self.old).faults) }
        ensures later { (account self.old).faults ≤ (account self.new).faults }
        ensures failed { OnFalse result (Rose (account self.old).faults (account self.new).faults) }
        ensures once { (account self.new).writes ≡ one_more (account self.old).writes };

    /// Writes bytes at a moment, a word for each, one behind the other until one fails. Where it answers true their pairs were appended to the
    /// log, the faults are those before, and the device was written to once for each. It answers false only where the count of faults rose, and
    /// then the pairs of the first of them were appended.
    fn write_bytes(&mut self, now: u32, bytes: &[u8]) -> bool
        ensures logged { OnTrue result (Logs (account self.old).log (account self.new).log (at_moment now bytes.now)) }
        ensures first { OnFalse result
            (LogsFirst (account self.old).log (account self.new).log (at_moment now bytes.now)) }
        ensures kept { OnTrue result ((account self.new).faults ≡ (account self.old).faults) }
        ensures later { (account self.old).faults ≤ (account self.new).faults }
        ensures failed { OnFalse result (Rose (account self.old).faults (account self.new).faults) }
        ensures once { OnTrue result
            ((account self.new).writes ≡ some_more (length bytes.now) (account self.old).writes) }
        ensures at_most { (account self.new).writes ≤ some_more (length bytes.now) (account self.old).writes }
    {
        for byte in bytes {
            if !self.write(now, u32::from(*byte)) {
                return false;
            }
        }
        true
    }

    /// Hears that no more words come, as at the end of a run: a device that holds words back lets them go. The log is unchanged. Where it answers
    /// true it holds none back any more and the faults are those before, and it answers false only where the count of faults rose.
    fn settle(&mut self) -> bool
        ensures settled { OnTrue result (settled self.new) }
        ensures stays { (account self.new).log ≡ (account self.old).log }
        ensures unwritten { (account self.new).writes ≡ (account self.old).writes }
        ensures kept { OnTrue result ((account self.new).faults ≡ (account self.old).faults) }
        ensures later { (account self.old).faults ≤ (account self.new).faults }
        ensures failed { OnFalse result (Rose (account self.old).faults (account self.new).faults) };
}

/// A box of a device is that device, so that code over one type of device serves a list of boxes.
impl Device for Box<dyn Device> {
    ghost account = { λ boxed. (Device-box boxed).account boxed.value };

    ghost settled = { λ boxed. (Device-box boxed).settled boxed.value };

    fn logged(&self, at: usize) -> Option<(u32, u32)> {
        (**self).logged(at)
    }

    fn write(&mut self, now: u32, word: u32) -> bool {
        (**self).write(now, word)
    }

    fn write_bytes(&mut self, now: u32, bytes: &[u8]) -> bool {
        (**self).write_bytes(now, bytes)
    }

    fn settle(&mut self) -> bool {
        (**self).settle()
    }
}
