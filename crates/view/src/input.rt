// What is read: a transcript, and the files beside it.
use std::alloc::Global;
use std::fs;
use std::io::{ErrorKind, Read};
use std::rt::Files;
use tool_folder::{Found, read_up_to};

/// The statuses are those of `sts`.
pub const FOLDER_FAILED: u8 = 20;

pub const MISSING: u8 = 21;

pub const NO_MEMORY: u8 = 30;

/// At most so many bytes of a transcript are read.
const MOST: usize = 67_108_864;

/// Another file has at most so many.
const MOST_OF_FILE: usize = 1_048_576;

/// The line that stands in place of what isn't read.
const REST: &[u8] = b"the rest is left out\n";

/// How many bytes stand up to the last line's end.
pub fn whole_lines(bytes: &[u8]) -> usize {
    let mut end = 0;
    for (at, byte) in bytes.iter().enumerate() {
        if *byte == b'\n' {
            end = at + 1;
        }
    }
    end
}

/// All lines that a reader gives, but for what goes past the limit, which one line stands for; or the status where there is no memory or it fails.
pub fn lines_of<F: Read + Drop>(alloc: Global, reader: F) -> Result<Vec<u8>, u8> {
    let mut first = reader.take(MOST as u64 + 1);
    match read_up_to(alloc, &mut first, usize::MAX) {
        Ok(Found::Whole(mut bytes)) => {
            if bytes.len() > MOST {
                let end = whole_lines(bytes.as_slice());
                bytes.truncate(end);
                if bytes.extend_from_slice(REST).is_err() {
                    return Err(NO_MEMORY);
                }
            }
            Ok(bytes)
        }
        Ok(_) => Err(NO_MEMORY),
        Err(error) if error.kind() == ErrorKind::OutOfMemory => Err(NO_MEMORY),
        Err(_) => Err(FOLDER_FAILED),
    }
}

/// The status where a file can't be opened.
fn status_of(kind: ErrorKind) -> u8 {
    match kind {
        ErrorKind::NotFound => MISSING,
        ErrorKind::OutOfMemory => NO_MEMORY,
        _ => FOLDER_FAILED,
    }
}

/// The lines of a file, or the status where they can't be had.
pub fn lines_in_file<R: Files>(alloc: Global, rt: &R, name: &str) -> Result<Vec<u8>, u8> {
    match fs::File::open(rt, name) {
        Ok(file) => lines_of(alloc, file),
        Err(error) => Err(status_of(error.kind())),
    }
}

/// The bytes of a file that is named beside the transcript, none where it is too long; or the status where they can't be had.
fn bytes_in_file<R: Files>(alloc: Global, rt: &R, name: &str) -> Result<Vec<u8>, u8> {
    match fs::File::open(rt, name) {
        Ok(mut file) => match read_up_to(alloc, &mut file, MOST_OF_FILE) {
            Ok(Found::Whole(bytes)) => Ok(bytes),
            Ok(_) => Ok(Vec::new(alloc)),
            Err(error) => Err(status_of(error.kind())),
        },
        Err(error) => Err(status_of(error.kind())),
    }
}

/// The bytes of such a file, if one is named.
pub fn file_of<R: Files>(alloc: Global, rt: &R, name: Option<&str>) -> Result<Option<Vec<u8>>, u8> {
    match name {
        None => Ok(None),
        Some(name) => match bytes_in_file(alloc, rt, name) {
            Ok(bytes) => Ok(Some(bytes)),
            Err(status) => Err(status),
        },
    }
}
