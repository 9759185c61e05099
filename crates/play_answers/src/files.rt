// A file that is shown and kept, by its path.
use hex::encode;
use sha2::{Digest, Sha256};
use std::alloc::{AllocError, Global};
use std::io::{ErrorKind, Write};
use std::{fs, io};
use tool_folder::{Found, read_up_to};

/// The most bytes of a file that is shown.
const MOST: usize = 1024 * 1024;

/// The sum of a file that isn't there.
pub const NO_FILE: &str = "none";

/// What there is of a file.
#[derive(Drop)]
pub enum Stored {
    Bytes(Vec<u8>),
    Missing,
    /// It can't be read, or is too long.
    Unread,
}

/// What there is of the file of this path.
pub fn read_file(rt: &HostRuntime, path: &str) -> Stored {
    let mut file = match fs::File::open(rt, path) {
        Ok(file) => file,
        Err(error) => {
            return if error.kind() == ErrorKind::NotFound {
                Stored::Missing
            } else {
                Stored::Unread
            };
        }
    };
    match read_up_to(rt.alloc(), &mut file, MOST) {
        Ok(Found::Whole(bytes)) => Stored::Bytes(bytes),
        _ => Stored::Unread,
    }
}

/// The sum by which a file is known again: SHA-256, in hexadecimal digits.
pub fn sum_of(alloc: Global, bytes: &[u8]) -> Result<String, AllocError> {
    encode(alloc, Sha256::digest(bytes).as_slice())
}

/// Whether what there is of a file has this sum.
pub fn has_sum(alloc: Global, now: &Stored, sum: &[u8]) -> Result<bool, AllocError> {
    match now {
        Stored::Bytes(bytes) => Ok(sum_of(alloc, bytes)?.as_bytes() == sum),
        Stored::Missing => Ok(sum == NO_FILE.as_bytes()),
        Stored::Unread => Ok(false),
    }
}

/// How many names are tried for a new file.
const MOST_NAMES: u32 = 100;

/// Writes these bytes to a new file beside the one of this path, waits until the disk has them, and gives its name. It writes to no file that was there, and follows no link.
fn write_beside(rt: &HostRuntime, path: &str, bytes: &[u8]) -> io::Result<String> {
    for number in 0..MOST_NAMES {
        let beside = format!(in rt.alloc(); "{path}.{number}.new")?;
        match fs::File::create_new(rt, &beside) {
            Ok(mut file) => {
                let written = file.write_all(bytes).and_then(|()| file.sync_all());
                return match written {
                    Ok(()) => Ok(beside),
                    Err(error) => {
                        let _ = fs::remove_file(rt, &beside);
                        Err(error)
                    }
                };
            }
            Err(error) if error.kind() == ErrorKind::AlreadyExists => {}
            Err(error) => return Err(error),
        }
    }
    Err(ErrorKind::AlreadyExists.into())
}

/// Puts these bytes in the place of the file of this path: beside it first, and then under its name, so that there is one of the two whole at each moment.
pub fn keep(rt: &HostRuntime, path: &str, bytes: &[u8]) -> bool {
    let Ok(beside) = write_beside(rt, path, bytes) else {
        return false;
    };
    if fs::rename(rt, &beside, path).is_ok() {
        return true;
    }
    let _ = fs::remove_file(rt, &beside);
    false
}
