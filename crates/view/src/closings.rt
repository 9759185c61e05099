// The lines of a transcript that say how a run ended, or why there was none.
use std::alloc::{AllocError, Global};

/// With which words such a line begins, behind the number of a class's board.
const BEGINNINGS: [&str; 15] = [
    "end ",
    "panic ",
    "budget ",
    "fault ",
    "refused ",
    "script refused ",
    "class refused ",
    "arrivals refused ",
    "image refused ",
    "missing",
    "too long",
    "folder failed",
    "usage",
    "the rest is left out",
    "left out of this page",
];

/// At most so many of them are taken, each of at most so many bytes.
const MOST: usize = 64;

const MOST_OF_LINE: usize = 1024;

/// A line without the number of a class's board before it.
pub fn without_board(line: &[u8]) -> &[u8] {
    match line {
        [board, b' ', rest @ ..] if board.is_ascii_digit() => rest,
        _ => line,
    }
}

/// Whether it is such a line.
fn is_closing(line: &[u8]) -> bool {
    let words = without_board(line);
    for beginning in &BEGINNINGS {
        if words.strip_prefix(beginning.as_bytes()).is_some() {
            return true;
        }
    }
    false
}

/// Those lines, each with its end.
pub fn closings(alloc: Global, transcript: &[u8]) -> Result<Vec<u8>, AllocError> {
    let mut found = Vec::new(alloc);
    let mut count = 0;
    for line in transcript.split(|byte| *byte == b'\n') {
        if count < MOST && line.len() <= MOST_OF_LINE && is_closing(line) {
            found.extend_from_slice(line)?;
            found.push(b'\n')?;
            count += 1;
        }
    }
    Ok(found)
}

/// Where the last line begins of a text whose lines all end.
fn last_begin(text: &[u8]) -> usize {
    let mut begin = 0;
    let mut end = 0;
    for (at, byte) in text.iter().enumerate() {
        if *byte == b'\n' {
            begin = end;
            end = at + 1;
        }
    }
    begin
}

/// The last line of a text whose lines all end, with its end.
pub fn last_line(text: &[u8]) -> &[u8] {
    let begin = last_begin(text).min(text.len());
    &text[begin..]
}
