// The parts of a line.
ghost use Rattle.std.specs.Prelude.{◌≡◌, ◌≤◌, ◌<◌, ◌≢◌, ◌∷◌, [], length, nat_lt};
ghost use Rattle.std.specs.List.{prefix_len};
ghost use Rattle.std.specs.Char.{is_ascii_digit};
ghost use Rattle.view_forms.specs.Parts as spec;

/// The first line of a text that isn't empty, and what stands behind it and its LF.
pub fn first_line(text: &[u8]) -> (&[u8], &[u8])
    requires { 0 < length text.now }
    ensures parts { spec.lines_in text.now ≡ result.0.now ∷ spec.lines_in result.1.now }
    ensures less { length result.1.now < length text.now }
{
    for (at, byte) in text.iter().enumerate() {
        if *byte == b'\n' {
            return (&text[..at], &text[at + 1..]);
        }
    }
    (text, &[])
}

/// How many digits stand at the front.
fn digits_at_front(line: &[u8]) -> usize
    ensures value { result ≡ prefix_len is_ascii_digit line.now }
    ensures bound { result ≤ length line.now }
{
    let mut count = 0;
    for byte in line {
        if !byte.is_ascii_digit() {
            return count;
        }
        count += 1;
    }
    count
}

/// How many bytes the word at the front has, where it is a number of one to ten digits with a space behind it; else 0.
fn number_size(line: &[u8]) -> usize
    ensures value { result ≡ spec.number_size line.now }
    ensures bound { 0 < result → result < length line.now }
{
    let digits = digits_at_front(line);
    if 1 <= digits && digits <= 10 && digits < line.len() && line[digits] == b' ' {
        digits
    } else {
        0
    }
}

/// The same of the lead.
fn lead_size(line: &[u8]) -> usize
    ensures value { result ≡ spec.lead_size line.now }
    ensures bound { 0 < result → result < length line.now }
{
    let first = number_size(line);
    if first != 1 {
        return first;
    }
    let second = number_size(&line[2..]);
    if second == 0 { 1 } else { second + 2 }
}

/// The lead of a line.
pub fn lead(line: &[u8]) -> &[u8]
    ensures { result.now ≡ spec.line_lead line.now }
{
    &line[..lead_size(line)]
}

/// What a line tells behind its lead.
pub fn told(line: &[u8]) -> &[u8]
    ensures { result.now ≡ spec.told_of line.now }
{
    match lead_size(line) {
        0 => line,
        size => &line[size + 1..],
    }
}

/// Whether a line has a lead.
pub fn has_lead(line: &[u8]) -> bool
    ensures { result ≡ nat_lt 0 (spec.lead_size line.now) }
{
    lead_size(line) > 0
}
