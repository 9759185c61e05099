// Writing as much of a piece as a stream takes.
ghost use Rattle.std.specs.Prelude.{◌≡◌, ◌≢◌, ◌≤◌, take, length, OnOk, IfErr};
ghost use Rattle.std.specs.IoError.{error_kind};
ghost use Rattle.std.specs.Io.KnownBytes.{Appends};

use std::io;
use std::io::{ErrorKind, Write};

/// The error of a stream that takes nothing more.
fn takes_nothing() -> io::Error
    ensures { error_kind result ≡ ErrorKind.WriteZero }
{
    io::Error::new(ErrorKind::WriteZero, "the stream takes nothing more")
}

/// How often a write of a piece that is interrupted is tried again.
const TRIES: usize = 1_048_576;

/// Writes a piece, from its front on, and tells how many of its bytes the stream took: all of them, or what it took before an error. A
/// write that is interrupted is tried again, up to 1,048,576 times for a piece; one that takes nothing is an error, `WriteZero`, and so are
/// more interruptions than these.
pub fn write_front<W: Write>(writer: &mut W, piece: &[u8]) -> (usize, io::Result<()>)
    ensures front { Appends (W.contents writer.old) (W.contents writer.new) (take result.0 piece.now) }
    ensures within { result.0 ≤ length piece.now }
    ensures whole { OnOk result.1 (result.0 ≡ length piece.now) }
    ensures retried { IfErr result.1 (λ error. error_kind error ≢ ErrorKind.Interrupted) }
{
    let mut done = 0;
    'writing: for _ in 0..piece.len().saturating_add(TRIES) {
        if done == piece.len() {
            return (done, Ok(()));
        }
        match writer.write(&piece[done..]) {
            Ok(0) => return (done, Err(takes_nothing())),
            Ok(count) => done += count,
            Err(error) if error.kind() == ErrorKind::Interrupted => continue 'writing,
            Err(error) => return (done, Err(error)),
        }
    }
    (done, Err(takes_nothing()))
}
