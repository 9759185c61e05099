// What stands below lines.

/// An explanation of lines: below each line that is this one stand the lines of a text, each behind a mark, in place of what is said of it.
#[derive(Clone, Copy, Drop)]
pub struct Below<'a> {
    pub line: &'a [u8],
    pub text: &'a [u8],
}
