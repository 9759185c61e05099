// A transcript as it is shown, where not all of it is asked for.
use crate::closings::last_line;
use std::alloc::{AllocError, Global};
use transcript_view::{joined, shortened};

/// A page has at most so many bytes, of which the transcript takes these.
const MOST_OF_PAGE: usize = 4_800_000;

/// A line of at most so many bytes stands at a page's end.
const MOST_OF_LINE: usize = 4096;

/// The line that stands in a page for what it has no room for.
const REST_OF_PAGE: &[u8] = b"left out of this page, which has 5 MB at most\n";

/// How many bytes of a page a byte of a transcript takes.
fn page_size(byte: u8) -> usize {
    match byte {
        b'"' | b'&' | b'\'' | b'<' | b'>' | b'\\' => 4,
        b'\n' | b' '..=b'~' => 1,
        _ => 4,
    }
}

/// The lines of a short text: serial texts are joined, and the middle of a long moment is left out. Where something is, the last line, which says why
/// the run ended, also stands before the others.
pub fn short_text(alloc: Global, input: Vec<u8>) -> Result<Vec<u8>, AllocError> {
    let whole = joined(alloc, input.as_slice())?;
    drop(input);
    let short = shortened(alloc, whole.as_slice())?;
    if short.len() == whole.len() {
        return Ok(short);
    }
    drop(whole);
    let mut text = Vec::new(alloc);
    text.extend_from_slice(last_line(short.as_slice()))?;
    text.extend_from_slice(short.as_slice())?;
    Ok(text)
}

/// How many bytes at the front of a text, up to a line's end, a page has room for.
fn fitting(text: &[u8]) -> usize {
    let mut end = 0;
    let mut size: usize = 0;
    for (at, byte) in text.iter().enumerate() {
        size = size.saturating_add(page_size(*byte));
        if size > MOST_OF_PAGE {
            return end;
        }
        if *byte == b'\n' {
            end = at + 1;
        }
    }
    text.len()
}

/// The lines of a page: the middle of a long moment is left out, and what it has no room for, but for the last line.
pub fn page_lines(alloc: Global, input: Vec<u8>) -> Result<Vec<u8>, AllocError> {
    let mut short = shortened(alloc, input.as_slice())?;
    drop(input);
    let end = fitting(short.as_slice());
    if end == short.len() {
        return Ok(short);
    }
    let mut last = Vec::new(alloc);
    last.extend_from_slice(last_line(short.as_slice()))?;
    short.truncate(end);
    short.extend_from_slice(REST_OF_PAGE)?;
    if last.len() <= MOST_OF_LINE {
        short.extend_from_slice(last.as_slice())?;
    }
    Ok(short)
}
