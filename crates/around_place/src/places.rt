// Places of a text, by line and column.
ghost use Rattle.std.specs.Prelude.{◌≡◌, ℕ, ◌<◌, ◌≤◌, length, MatchBool};
ghost use Rattle.around_place.specs.Around.{IsLineColumn};
ghost use Rattle.around_place.specs.Telling.{IsFound};
ghost use Rattle.sts_base.specs.Places.{begins_line};

/// Whether a line begins at a place behind the first.
fn begins_line(text: &[u8], at: usize) -> bool
    requires behind { 0 < at }
    requires within { at ≤ length text.now }
    ensures { result ≡ begins_line text.now at }
{
    match text[at - 1] {
        b'\n' => true,
        b'\r' => at == text.len() || text[at] != b'\n',
        _ => false,
    }
}

/// Whether a place that a line of this number, which begins at `start`, has, is that of a line and a column.
fn is_there(lines: usize, start: usize, at: usize, line: u32, column: u32) -> bool
    requires { start ≤ at }
    ensures { MatchBool result (IsLineColumn lines start at line column) (IsLineColumn lines start at line column → ⊥) }
{
    lines == line as usize && (at - start == (column as usize).saturating_sub(1) && 0 < column)
}

/// The place of a line and a column, both from 1, in bytes from the beginning of a text; its end where it has no such place.
pub fn place_at(text: &[u8], line: u32, column: u32) -> usize
    ensures within { result ≤ length text.now }
    ensures found { IsFound text.now line column result }
{
    if is_there(1, 0, 0, line, column) {
        return 0;
    }
    let mut lines = 1;
    let mut start = 0;
    for at in 1..text.len() + 1 {
        if begins_line(text, at) {
            lines += 1;
            start = at;
        }
        if is_there(lines, start, at, line, column) {
            return at;
        }
    }
    text.len()
}
