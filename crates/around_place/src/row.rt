// Rows of the table, and what they ask of the text around a place.
ghost use Rattle.std.specs.Prelude.{◌≡◌, ◌↔◌, ℕ, List, map, IsTrue};
ghost use Rattle.std.specs.Option.{option_map};
ghost use Rattle.around_place.specs.Rows as spec;
ghost use Rattle.around_place.specs.Words.{AreItsWords};

use crate::words::{WordKind, is_blank, is_in, next_word, opens_text};

/// What is asked of a word.
#[derive(Clone, Copy, Drop)]
pub enum Test {
    /// It is this word.
    Is(&'static str),
    /// It is this word, in capitals or small letters.
    Like(&'static str),
    /// It is a name or a reserved word.
    Name,
    /// It begins with a digit.
    Number,
    /// It is a text in quotes, closed or not.
    Text,
    /// It is a text in quotes that its quote doesn't close.
    Open,
    /// It begins with one of the signs of which longer marks are made.
    Sign,
    /// It begins with letters or signs beyond ASCII.
    Foreign,
    /// It has this byte in it.
    With(u8),
    /// It is any word.
    Any,
}

/// Which bracket is open at the place, the innermost one.
#[derive(Clone, Copy, Drop)]
pub enum Inside {
    /// Any, or none.
    Anything,
    /// This one.
    Bracket(u8),
    /// This one, and the sentence speaks of it.
    Unclosed(u8),
    /// None is open.
    Nothing,
}

/// A row: what stands around the place, and what is said there.
#[derive(Clone, Copy, Drop)]
pub struct Row {
    /// The first words of the place's line are these, before the place;
    pub line: &'static [Test],
    /// and they are all that stands on the line before it.
    pub alone: bool,
    /// The last words before the place are these.
    pub before: &'static [Test],
    /// The words from the place on begin with these;
    pub at: &'static [Test],
    /// and they are all that stands there.
    pub last: bool,
    /// The bracket that is open there.
    pub inside: Inside,
    pub sentence: &'static str,
    pub example: &'static str,
}

/// A row that asks nothing.
pub const ANYWHERE: Row = Row {
    line: &[],
    alone: false,
    before: &[],
    at: &[],
    last: false,
    inside: Inside::Anything,
    sentence: "",
    example: "",
};

/// The text around a place.
#[derive(Clone, Copy, Drop)]
pub struct Around<'t> {
    /// The line of the place, up to the place.
    pub line: &'t [u8],
    /// All before the place.
    pub before: &'t [u8],
    /// All from the place on.
    pub at: &'t [u8],
    /// The innermost bracket that is open at the place.
    pub bracket: Option<u8>,
}

/// The first byte of a word.
pub fn first_byte(word: &[u8]) -> u8
    ensures { result ≡ spec.first_byte word.now }
{
    match word {
        [first, ..] => *first,
        [] => 0,
    }
}

/// Whether a word is a text in quotes that its quote doesn't close.
fn is_open(word: &[u8]) -> bool
    ensures { result ≡ spec.is_unclosed_text word.now }
{
    opens_text(first_byte(word)) && (word.len() < 2 || word[word.len() - 1] != first_byte(word))
}

/// Whether a word is as asked.
fn holds(test: Test, word: &[u8]) -> bool
    ensures { IsTrue result ↔ spec.WordIsAsked test word.now }
{
    let first = first_byte(word);
    match test {
        Test::Is(wanted) => word == wanted.as_bytes(),
        Test::Like(wanted) => word.eq_ignore_ascii_case(wanted.as_bytes()),
        Test::Name => is_in(first, WordKind::Name) && !first.is_ascii_digit(),
        Test::Number => first.is_ascii_digit(),
        Test::Text => opens_text(first),
        Test::Open => is_open(word),
        Test::Sign => is_in(first, WordKind::Sign),
        Test::Foreign => is_in(first, WordKind::Foreign),
        Test::With(byte) => word.contains(&byte),
        Test::Any => true,
    }
}

/// Whether a text begins with words as asked, and has no more where it is to be whole.
fn begins(tests: &[Test], whole: bool, text: &[u8]) -> bool
    ensures { (words : List (List ℕ)) → AreItsWords text.now words
        → IsTrue result ↔ spec.BeginsAsAsked tests.now whole words }
{
    match tests {
        [] => !whole || is_blank(text),
        [test, tests @ ..] => match next_word(text) {
            Some((word, after)) => holds(*test, word) && begins(tests, whole, after),
            None => false,
        },
    }
}

/// Whether a text ends with words as asked.
fn ends(tests: &[Test], text: &[u8]) -> bool
    ensures { (words : List (List ℕ)) → AreItsWords text.now words → IsTrue result ↔ spec.EndsAsAsked tests.now words }
{
    let mut rest = text;
    while !begins(tests, true, rest) {
        match next_word(rest) {
            Some((_, after)) => rest = after,
            None => return false,
        }
    }
    true
}

/// Whether the open bracket is as asked.
fn is_inside(inside: Inside, bracket: Option<u8>) -> bool
    ensures { IsTrue result ↔ spec.BracketIsAsked inside bracket }
{
    match inside {
        Inside::Anything => true,
        Inside::Bracket(wanted) => bracket == Some(wanted),
        Inside::Unclosed(wanted) => bracket == Some(wanted),
        Inside::Nothing => bracket.is_none(),
    }
}

/// Whether a row fits.
fn fits(row: &Row, around: &Around<'_>) -> bool
    ensures { (seen : spec.Surroundings) → spec.HasTheseWords around.now seen
        → IsTrue result ↔ spec.RowFits row.now seen }
{
    is_inside(row.inside, around.bracket)
        && begins(row.at, row.last, around.at)
        && begins(row.line, row.alone, around.line)
        && ends(row.before, around.before)
}

/// The first row that fits.
fn first_fitting<'r>(rows: &'r [Row], around: &Around<'_>) -> Option<&'r Row>
    ensures { (seen : spec.Surroundings) → spec.HasTheseWords around.now seen
        → spec.IsFirstFit rows.now seen (option_map (λ row. row.now) result) }
{
    match rows {
        [] => None,
        [row, rest @ ..] => {
            if fits(row, around) {
                Some(row)
            } else {
                first_fitting(rest, around)
            }
        }
    }
}

/// The first row that fits of the first table that has one.
pub fn first_of<'r>(tables: &[&'r [Row]], around: &Around<'_>) -> Option<&'r Row>
    ensures { (seen : spec.Surroundings) → spec.HasTheseWords around.now seen
        → spec.IsFirstOf (map (λ table. table.now) tables.now) seen (option_map (λ row. row.now) result) }
{
    match tables {
        [] => None,
        [table, rest @ ..] => match first_fitting(*table, around) {
            Some(row) => Some(row),
            None => first_of(rest, around),
        },
    }
}
