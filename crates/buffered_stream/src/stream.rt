// A stream, and the bytes for it that are held back.
ghost use Rattle.std.specs.Prelude.{◌≡◌, ◌≢◌, ◌≤◌, ◌+◌, ◌++◌, ◌⊎◌, ◌↔◌, [], true, drop, OnOk, OnErr, IfOk, IfErr, length, vec_capacity, vec_len};
ghost use Rattle.std.specs.IoError.{error_kind};
ghost use Rattle.std.specs.Io.KnownBytes.{Appends, Keeps, append_known};
ghost use Rattle.buffered_stream.specs.Pieces.{AppendsFront, IsSuffix};
ghost use Rattle.buffered_stream.specs.Lines.{EndsLine};
ghost use Rattle.buffered_stream.specs.declared.stream.TheConstants.{ROOM};

use crate::writing::write_front;
use std::alloc::{AllocError, Global};
use std::io;
use std::io::{ErrorKind, Write};

/// So many bytes are held back at most.
pub const ROOM: usize = 32_800;

/// A stream, and the bytes that are for it and not yet written. Whoever owns it says when they are written out; before that they are where
/// there is no room for more. The room is taken when it is made, and never grows. After an error the bytes that weren't written are still held
/// back, and the next call tries them again.
#[derive(Drop)]
pub struct BufferedStream<W: Write + Drop> {
    writer: W,
    held: Vec<u8>,
    ghost reserved: { ROOM ≤ vec_capacity held },
    ghost within: { vec_len held ≤ ROOM },
}

impl<W: Write + Drop> BufferedStream<W> {
    /// The stream, with nothing held back. It fails for want of memory alone.
    pub fn new(alloc: Global, writer: W) -> Result<BufferedStream<W>, AllocError>
        ensures writer { IfOk result (λ stream. stream.writer ≡ writer) }
        ensures nothing { IfOk result (λ stream. stream.held.items ≡ []) }
    {
        Ok(BufferedStream {
            writer,
            held: Vec::with_capacity(alloc, ROOM)?,
        })
    }

    /// Makes room for so many bytes, or has nothing held back where the room is less than that.
    fn make_room(&mut self, bytes: usize) -> io::Result<()>
        ensures stays { Keeps (append_known (W.contents self.old.writer) self.old.held.items)
            (append_known (W.contents self.new.writer) self.new.held.items) }
        ensures room { OnOk result ((length self.new.held.items + bytes ≤ ROOM) ⊎ (self.new.held.items ≡ [])) }
        ensures held { OnOk result ((self.new.held.items ≡ self.old.held.items) ⊎ (self.new.held.items ≡ [])) }
        ensures retried { IfErr result (λ error. error_kind error ≢ ErrorKind.Interrupted) }
    {
        if ROOM - self.held.len() >= bytes {
            return Ok(());
        }
        self.write_out()
    }

    /// Writes a piece, where nothing is held back.
    fn write_past(&mut self, piece: &[u8]) -> io::Result<()>
        requires { self.now.held.items ≡ [] }
        ensures appended { OnOk result (Appends (append_known (W.contents self.old.writer) self.old.held.items)
            (append_known (W.contents self.new.writer) self.new.held.items) piece.now) }
        ensures front { OnErr result (AppendsFront (append_known (W.contents self.old.writer) self.old.held.items)
            (append_known (W.contents self.new.writer) self.new.held.items) piece.now) }
        ensures held { self.new.held.items ≡ [] }
        ensures retried { IfErr result (λ error. error_kind error ≢ ErrorKind.Interrupted) }
    {
        let (_, result) = write_front(&mut self.writer, piece);
        result
    }

    /// Appends a piece to what is held back. Where there is no room, what is held back is written out before, and a piece that is longer
    /// than the room is written at once. After an error nothing of the piece was appended where it fits the room, and else its front.
    pub fn append(&mut self, piece: &[u8]) -> io::Result<()>
        ensures appended { OnOk result (Appends (append_known (W.contents self.old.writer) self.old.held.items)
            (append_known (W.contents self.new.writer) self.new.held.items) piece.now) }
        ensures front { OnErr result (AppendsFront (append_known (W.contents self.old.writer) self.old.held.items)
            (append_known (W.contents self.new.writer) self.new.held.items) piece.now) }
        ensures nothing { OnErr result
            (length piece.now ≤ ROOM → Keeps (append_known (W.contents self.old.writer) self.old.held.items)
            (append_known (W.contents self.new.writer) self.new.held.items)) }
        ensures held { OnOk result (IsSuffix self.new.held.items (self.old.held.items ++ piece.now)) }
        ensures retried { IfErr result (λ error. error_kind error ≢ ErrorKind.Interrupted) }
    {
        self.make_room(piece.len())?;
        if piece.len() > ROOM {
            return self.write_past(piece);
        }
        match self.held.extend_from_slice(piece) {
            Ok(()) => Ok(()),
            Err(_) => unreachable!(),
        }
    }

    /// Appends a piece, and writes out what is held back where the piece ends a line. After an error the front of the piece was appended, which
    /// may be all of it. Where what is held back ended no line before, it ends none behind a call that went well.
    pub fn append_lines(&mut self, piece: &[u8]) -> io::Result<()>
        ensures appended { OnOk result (Appends (append_known (W.contents self.old.writer) self.old.held.items)
            (append_known (W.contents self.new.writer) self.new.held.items) piece.now) }
        ensures front { OnErr result (AppendsFront (append_known (W.contents self.old.writer) self.old.held.items)
            (append_known (W.contents self.new.writer) self.new.held.items) piece.now) }
        ensures line { OnOk result (EndsLine piece.now → self.new.held.items ≡ []) }
        ensures written { OnOk result (EndsLine self.new.held.items → EndsLine self.old.held.items) }
        ensures retried { IfErr result (λ error. error_kind error ≢ ErrorKind.Interrupted) }
    {
        self.append(piece)?;
        if ends_line(piece) {
            self.write_out()?;
        }
        Ok(())
    }

    /// Writes out what is held back. After an error the rest of it still is.
    pub fn write_out(&mut self) -> io::Result<()>
        ensures stays { Keeps (append_known (W.contents self.old.writer) self.old.held.items)
            (append_known (W.contents self.new.writer) self.new.held.items) }
        ensures written { OnOk result (self.new.held.items ≡ []) }
        ensures retried { IfErr result (λ error. error_kind error ≢ ErrorKind.Interrupted) }
    {
        let (done, result) = write_front(&mut self.writer, self.held.as_slice());
        if done == self.held.len() {
            self.held.clear();
        } else {
            forget_front(&mut self.held, done);
        }
        result
    }
}

/// Whether a text ends with a line's end.
fn ends_line(text: &[u8]) -> bool
    ensures { (result ≡ true) ↔ EndsLine text.now }
{
    match text.last() {
        Some(byte) => *byte == b'\n',
        None => false,
    }
}

/// Takes so many bytes away from the front, where a writer took no more.
#[cold]
#[inline(never)]
fn forget_front(held: &mut Vec<u8>, count: usize)
    requires { count ≤ vec_len held.now }
    ensures items { held.new.items ≡ drop count held.old.items }
    ensures capacity { vec_capacity held.new ≡ vec_capacity held.old }
{
    drop(held.drain(..count));
}
