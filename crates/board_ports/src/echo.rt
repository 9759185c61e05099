// A device that writes its words to a stream, as raw bytes.
ghost use Rattle.std.specs.Prelude.{◌≡◌, ◌≤◌, ◌∷◌, [], ◌↔◌, ◌%◌, None, true, IsOk, OnOk, OnErr, IfOk, length};
ghost use Rattle.std.specs.Bool.{OnTrue, OnFalse};
ghost use Rattle.std.specs.Io.KnownBytes.{Appends, Keeps, append_known};
ghost use Rattle.sts_base.specs.Faults.{Rose, one_more};
ghost use Rattle.board_ports.specs.Counts.{some_more};
ghost use Rattle.buffered_stream.specs.Lines.{EndsLine};
ghost use Rattle.buffered_stream.specs.Pieces.{AppendsFront};

use crate::Device;
use buffered_stream::BufferedStream;
use std::alloc::Global;
use std::io;
use std::io::Write;
use sts_base::NoMemory;

/// A device that writes each word's low byte to a stream, such as standard error, and tells no log. At the serial port a
/// word is a byte, so the stream gets the raw serial bytes. Bytes are held back until a write's last byte is a line's end, no room is left, or the
/// device settles: a line's end among the bytes of a write, and not the last of them, is held back with them. While no write to the stream has
/// failed, what is held back ends no line. A write that takes nothing is a fault, and so is every error but an interruption, after which the write
/// is tried again.
#[derive(Drop)]
pub struct EchoDevice<W: Write + Drop> {
    stream: BufferedStream<W>,
    faults: u64,
    writes: u64,
    ghost written: { faults ≡ 0 → EndsLine stream.held.items → ⊥ },
}

impl<W: Write + Drop> EchoDevice<W> {
    /// The device, without faults, with nothing held back. The memory for what it holds back is taken here.
    pub fn new(alloc: Global, writer: W) -> Result<EchoDevice<W>, NoMemory>
        ensures writer { IfOk result (λ device. device.stream.writer ≡ writer) }
        ensures nothing { IfOk result (λ device. device.stream.held.items ≡ []) }
        ensures faults { IfOk result (λ device. device.faults ≡ 0) }
        ensures writes { IfOk result (λ device. device.writes ≡ 0) }
    {
        match BufferedStream::new(alloc, writer) {
            Ok(stream) => Ok(EchoDevice {
                stream,
                faults: 0,
                writes: 0,
            }),
            Err(_) => Err(NoMemory),
        }
    }
}

/// Whether what was done with a stream went well. An error is counted.
fn went(done: io::Result<()>, faults: &mut u64) -> bool
    ensures well { (result ≡ true) ↔ IsOk done }
    ensures later { faults.old ≤ faults.new }
    ensures uncounted { OnOk done (faults.new ≡ faults.old) }
    ensures counted { OnErr done (faults.new ≡ one_more faults.old) }
{
    match done {
        Ok(()) => true,
        Err(_) => {
            *faults = faults.saturating_add(1);
            false
        }
    }
}

impl<W: Write + Drop> Device for EchoDevice<W> {
    ghost account = { λ device. record { log = None; faults = device.faults; writes = device.writes } };

    ghost settled = { λ device. device.stream.held.items ≡ [] };

    fn logged(&self, _at: usize) -> Option<(u32, u32)>
        ensures untold { result ≡ None }
    {
        None
    }

    fn write(&mut self, _now: u32, word: u32) -> bool
        ensures later { self.old.faults ≤ self.new.faults }
        ensures failed { OnFalse result (Rose self.old.faults self.new.faults) }
        ensures written { OnTrue result
            (Appends (append_known (W.contents self.old.stream.writer) self.old.stream.held.items)
            (append_known (W.contents self.new.stream.writer) self.new.stream.held.items) ((word % 256) ∷ [])) }
        ensures front { OnFalse result
            (AppendsFront (append_known (W.contents self.old.stream.writer) self.old.stream.held.items)
            (append_known (W.contents self.new.stream.writer) self.new.stream.held.items) ((word % 256) ∷ [])) }
        ensures line { OnTrue result (word % 256 ≡ 10 → self.new.stream.held.items ≡ []) }
        ensures uncounted { OnTrue result (self.new.faults ≡ self.old.faults) }
        ensures counted { OnFalse result (self.new.faults ≡ one_more self.old.faults) }
        ensures once { self.new.writes ≡ one_more self.old.writes }
    {
        self.writes = self.writes.saturating_add(1);
        let appended = self.stream.append_lines(&[(word % 256) as u8]);
        went(appended, &mut self.faults)
    }

    fn write_bytes(&mut self, _now: u32, bytes: &[u8]) -> bool
        ensures later { self.old.faults ≤ self.new.faults }
        ensures failed { OnFalse result (Rose self.old.faults self.new.faults) }
        ensures written { OnTrue result
            (Appends (append_known (W.contents self.old.stream.writer) self.old.stream.held.items)
            (append_known (W.contents self.new.stream.writer) self.new.stream.held.items) bytes.now) }
        ensures front { OnFalse result
            (AppendsFront (append_known (W.contents self.old.stream.writer) self.old.stream.held.items)
            (append_known (W.contents self.new.stream.writer) self.new.stream.held.items) bytes.now) }
        ensures line { OnTrue result (EndsLine bytes.now → self.new.stream.held.items ≡ []) }
        ensures uncounted { OnTrue result (self.new.faults ≡ self.old.faults) }
        ensures counted { OnFalse result (self.new.faults ≡ one_more self.old.faults) }
        ensures once { self.new.writes ≡ some_more (length bytes.now) self.old.writes }
    {
        let before = self.writes;
        self.writes = before.saturating_add(bytes.len() as u64);
        let appended = self.stream.append_lines(bytes);
        went(appended, &mut self.faults)
    }

    fn settle(&mut self) -> bool
        ensures settled { OnTrue result (self.new.stream.held.items ≡ []) }
        ensures stays { Keeps (append_known (W.contents self.old.stream.writer) self.old.stream.held.items)
            (append_known (W.contents self.new.stream.writer) self.new.stream.held.items) }
        ensures unwritten { self.new.writes ≡ self.old.writes }
        ensures later { self.old.faults ≤ self.new.faults }
        ensures failed { OnFalse result (Rose self.old.faults self.new.faults) }
        ensures uncounted { OnTrue result (self.new.faults ≡ self.old.faults) }
        ensures counted { OnFalse result (self.new.faults ≡ one_more self.old.faults) }
    {
        let written = self.stream.write_out();
        went(written, &mut self.faults)
    }
}
