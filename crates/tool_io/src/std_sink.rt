// Standard output, or another stream of the operating system.
ghost use Rattle.std.specs.Prelude.{◌≡◌, ◌≢◌, ◌↔◌, [], true, OnOk, OnErr, IfOk, IfErr};
ghost use Rattle.std.specs.IoError.{error_kind};
ghost use Rattle.std.specs.Io.KnownBytes.{append_known};
ghost use Rattle.sts_base.specs.Faults.{one_more};
ghost use Rattle.tool_io.specs.Putting.{Took, TookPart, Puts};
ghost use Rattle.buffered_stream.specs.Lines.{EndsLine};

use crate::{PutFailed, Sink};
use buffered_stream::BufferedStream;
use std::alloc::Global;
use std::io::Write;
use sts_base::NoMemory;

/// A stream, such as standard output. Pieces are gathered until one ends a line, or no room is left, and then written in one piece. What it has
/// taken is what the stream holds and then what is gathered: it tells that where the stream tells, which one of the operating system doesn't.
/// A line's end inside a piece, and not at its end, is gathered with it. While no write has failed, what is gathered ends no line. A write that
/// takes nothing is a fault, and so is every error but an interruption, after which the write is tried again.
#[derive(Drop)]
pub struct StdSink<W: Write + Drop> {
    stream: BufferedStream<W>,
    faults: u64,
    ghost written: { faults ≡ 0 → EndsLine stream.held.items → ⊥ },
}

impl<W: Write + Drop> StdSink<W> {
    /// The sink, without faults, with nothing gathered. The memory for what it gathers is taken here.
    pub fn new(alloc: Global, writer: W) -> Result<StdSink<W>, NoMemory>
        ensures writer { IfOk result (λ sink. sink.stream.writer ≡ writer) }
        ensures nothing { IfOk result (λ sink. sink.stream.held.items ≡ []) }
        ensures faults { IfOk result (λ sink. sink.faults ≡ 0) }
    {
        match BufferedStream::new(alloc, writer) {
            Ok(stream) => Ok(StdSink { stream, faults: 0 }),
            Err(_) => Err(NoMemory),
        }
    }
}

impl<W: Write + Drop> Sink for StdSink<W> {
    ghost taken = { λ sink. append_known (W.contents sink.stream.writer) sink.stream.held.items };

    ghost faults = { λ sink. sink.faults };

    fn put(&mut self, piece: &[u8]) -> Result<(), PutFailed>
        ensures puts { Puts (append_known (W.contents self.old.stream.writer) self.old.stream.held.items)
            (append_known (W.contents self.new.stream.writer) self.new.stream.held.items) self.old.faults
            self.new.faults piece.now result }
        ensures line { OnOk result (EndsLine piece.now → self.new.stream.held.items ≡ []) }
        ensures counted { OnErr result (self.new.faults ≡ one_more self.old.faults) }
        ensures uncounted { OnOk result (self.new.faults ≡ self.old.faults) }
    {
        match self.stream.append_lines(piece) {
            Ok(()) => Ok(()),
            Err(_) => {
                self.faults = self.faults.saturating_add(1);
                Err(PutFailed)
            }
        }
    }
}
