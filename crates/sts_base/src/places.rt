// Spans of a text, and the line and column of a place.
ghost use Rattle.std.specs.Prelude.{◌≡◌, ◌≤◌, ◌<◌, length};
ghost use Rattle.sts_base.specs.Places.{IsPlace, begins_line};

/// The bytes of a text from `from` up to but not including `upto`, both counted from 0.
#[derive(Clone, Copy, Debug, PartialEq, Eq, Drop)]
pub struct Span {
    pub from: u32,
    pub upto: u32,
}

/// Whether a line begins at a place behind the first: a line break ends there.
fn begins_line(text: &[u8], at: usize) -> bool
    requires behind { 0 < at }
    requires within { at ≤ length text.now }
    ensures { result ≡ begins_line text.now at }
{
    match text[at - 1] {
        b'\n' => true,
        b'\r' => at == text.len() || text[at] != b'\n',
        _ => false,
    }
}

/// The line and the column of a place in a text, both counted from 1. A column counts bytes. A line break is
/// LF, CR LF or CR.
pub fn place(text: &[u8], at: u32) -> (u32, u32)
    requires within { at ≤ length text.now }
    requires fits { at < 4294967295 }
    ensures { IsPlace text.now at result.0 result.1 }
{
    let mut line = 1;
    let mut start = 0;
    for here in 1..at + 1 {
        if begins_line(text, here as usize) {
            line += 1;
            start = here;
        }
    }
    (line, at - start + 1)
}
