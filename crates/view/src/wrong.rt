// A script, a class file or arrivals that are refused.
use crate::closings::without_board;
use input_hints::{InputKind, input_fault};
use itoa::Buffer;
use std::alloc::{AllocError, Global};

/// A line that tells of such a refusal.
#[derive(Clone, Copy, Drop)]
pub struct Wrong<'a> {
    pub told: &'a [u8],
    kind: InputKind,
}

/// What is refused by a line.
fn kind_of(words: &[u8]) -> Option<InputKind> {
    if words.strip_prefix(b"script refused ").is_some() {
        return Some(InputKind::Script);
    }
    if words.strip_prefix(b"class refused ").is_some() {
        return Some(InputKind::Class);
    }
    if words.strip_prefix(b"arrivals refused ").is_some() {
        return Some(InputKind::Arrivals);
    }
    None
}

/// The first line of a transcript that tells of one.
pub fn first_wrong(transcript: &[u8]) -> Option<Wrong<'_>> {
    for line in transcript.split(|byte| *byte == b'\n') {
        if let Some(kind) = kind_of(without_board(line)) {
            return Some(Wrong { told: line, kind });
        }
    }
    None
}

impl Wrong<'_> {
    /// What is wrong in the file: its line and a sentence; nothing where none is found.
    pub fn explained(&self, alloc: Global, file: &[u8]) -> Result<Vec<u8>, AllocError> {
        let mut text = Vec::new(alloc);
        if let Some(fault) = input_fault(alloc, self.kind, file)? {
            let mut buffer = Buffer::new();
            text.extend_from_slice(b"line ")?;
            text.extend_from_slice(buffer.format(fault.line).as_bytes())?;
            text.extend_from_slice(b": ")?;
            text.extend_from_slice(fault.sentence.as_slice())?;
            text.push(b'\n')?;
        }
        Ok(text)
    }
}
