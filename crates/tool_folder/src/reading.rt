// Reading what a reader still holds, up to a limit.
ghost use Rattle.std.specs.Prelude.{◌≡◌, ◌≢◌, ◌≤◌, ◌<◌, ◌+◌, Ok, Some, take, length, vec_len, IfOk, IfErr, IfSome, OnErr};
ghost use Rattle.std.specs.IoError.{error_kind};
ghost use Rattle.std.specs.Io.{ReadsAtMost};
ghost use Rattle.std.specs.Io.KnownBytes.{Consumes, IsAtEnd, Keeps};
ghost use Rattle.tool_folder.specs.Fetching.{IsFoundOf, IsWithinLimit};
ghost use Rattle.tool_folder.specs.Reading.{Gathers, ReadsUpTo, most_tries};

use crate::Found;
use std::alloc::Global;
use std::io;
use std::io::{ErrorKind, Read};

/// The most bytes of one read.
const PIECE: usize = 4096;

/// How often a read is tried that is interrupted each time.
fn tries() -> u32
    ensures { result ≡ most_tries }
{
    1_048_576
}

/// The error of a reader that never comes to an end.
fn too_many_reads() -> io::Error
    ensures { error_kind result ≡ ErrorKind.Other }
{
    io::Error::new(ErrorKind::Other, "too many reads")
}

/// One read, which is tried again where it is interrupted, `tries` times in all.
fn read_piece<F: Read>(file: &mut F, piece: &mut [u8]) -> io::Result<usize>
    ensures bound { ReadsAtMost result piece.new }
    ensures within { length piece.new ≡ length piece.old }
    ensures read { IfOk result
        (λ count. Consumes (F.remaining file.old) (F.remaining file.new) (take count piece.new)) }
    ensures end { IfOk result (λ count. count ≡ 0 → 0 < length piece.old → IsAtEnd (F.remaining file.new)) }
    ensures nothing { OnErr result (Keeps (F.remaining file.old) (F.remaining file.new)) }
    ensures retried { IfErr result (λ error. error_kind error ≢ ErrorKind.Interrupted) }
{
    'reading: for _ in 0..tries() {
        match file.read(piece) {
            Ok(count) => return Ok(count),
            Err(error) if error.kind() == ErrorKind::Interrupted => continue 'reading,
            Err(error) => return Err(error),
        }
    }
    Err(too_many_reads())
}

/// One read into a piece, whose bytes are appended, and their count; none come at the end alone.
fn read_more<F: Read>(file: &mut F, piece: &mut [u8], whole: &mut Vec<u8>) -> io::Result<usize>
    requires { 0 < length piece.now }
    ensures read { ReadsUpTo (length piece.old) (F.remaining file.old) (F.remaining file.new) }
    ensures gathered { IfOk result
        (λ count. Gathers (F.remaining file.old) (F.remaining file.new) count whole.old.items whole.new.items) }
    ensures within { length piece.new ≡ length piece.old }
    ensures few { IfOk result (λ count. count ≤ length piece.old) }
    ensures end { IfOk result (λ count. count ≡ 0 → IsAtEnd (F.remaining file.new)) }
    ensures retried { IfErr result (λ error. error_kind error ≢ ErrorKind.Interrupted) }
{
    let count = read_piece(file, piece)?;
    whole.extend_from_slice(&piece[..count])?;
    Ok(count)
}

/// What a reader still holds, if it has at most `limit` bytes. No more than `limit + 1` are read of it, whatever comes of that. A read may give
/// fewer bytes than there are, and one that is interrupted is tried again.
pub fn read_up_to<F: Read>(alloc: Global, file: &mut F, limit: usize) -> io::Result<Found>
    ensures content { IfOk result (λ found. IfSome (F.remaining file.old) (λ left. IsFoundOf (Some left) limit found)) }
    ensures within { IfOk result (λ found. IsWithinLimit limit found) }
    ensures read { ReadsUpTo (limit + 1) (F.remaining file.old) (F.remaining file.new) }
    ensures there { result ≢ Ok Found.Missing }
    ensures retried { IfErr result (λ error. error_kind error ≢ ErrorKind.Interrupted) }
{
    let mut whole = Vec::new(alloc);
    let mut piece = [0; PIECE];
    'reading: for _ in 0..limit.saturating_add(2) {
        if whole.len() > limit {
            return Ok(Found::TooLong);
        }
        let room = (limit - whole.len()).saturating_add(1).min(PIECE);
        if read_more(file, &mut piece[..room], &mut whole)? == 0 {
            return Ok(Found::Whole(whole));
        }
    }
    Err(too_many_reads())
}
