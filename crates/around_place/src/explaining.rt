// From a refusal to its explanation.
ghost use Rattle.std.specs.Prelude.{◌≡◌, ℕ, ◌-◌, ◌≤◌, List, take, drop, map, length, slice_range, Option};
ghost use Rattle.std.specs.Option.{option_map};
ghost use Rattle.around_place.specs.Rows.{first_byte};
ghost use Rattle.around_place.specs.Telling as spec;

use crate::brackets::innermost;
use crate::places::place_at;
use crate::row::{Around, Inside, Row, first_byte, first_of};
use sts_base::place;

/// What a refusal means, and what to change.
#[derive(Clone, Copy, Debug, Drop)]
pub struct Explanation {
    /// One or two sentences, on one line.
    pub sentence: &'static str,
    /// What would be taken, as a line of a program; empty where none helps.
    pub example: &'static str,
    /// The line and the column, both from 1, of the open bracket that the sentence speaks of.
    pub opened: Option<(u32, u32)>,
}

/// The byte of a bracket, by the text from it on.
fn bracket_of(found: Option<&[u8]>) -> Option<u8>
    ensures { result ≡ option_map (λ rest. first_byte rest.now) found.entry }
{
    match found {
        Some(rest) => Some(first_byte(rest)),
        None => None,
    }
}

/// The text around a place, where the innermost open bracket is known.
fn around<'t>(text: &'t [u8], at: usize, column: u32, bracket: Option<u8>) -> Around<'t>
    requires { at ≤ length text.now }
    ensures line { result.line.now ≡ slice_range text.now (at - (column - 1)) at }
    ensures before { result.before.now ≡ take at text.now }
    ensures behind { result.at.now ≡ drop at text.now }
    ensures bracket { result.bracket ≡ bracket }
{
    let back = (column as usize).saturating_sub(1);
    Around {
        line: &text[at.saturating_sub(back)..at],
        before: &text[..at],
        at: &text[at..],
        bracket,
    }
}

/// The line and column of a bracket, by the text from it on up to a place.
fn opened(text: &[u8], at: usize, bracket: Option<&[u8]>) -> Option<(u32, u32)>
    requires { at ≤ length text.now }
    ensures { spec.IsBracketPlace text.now at (option_map (λ rest. rest.now) bracket.entry) result }
{
    let from = match bracket {
        Some(rest) => at.saturating_sub(rest.len()),
        None => return None,
    };
    if from < 4_294_967_295 {
        Some(place(text, from as u32))
    } else {
        None
    }
}

/// What is said where a row fits: of one that speaks of the open bracket its place too.
fn said(row: &Row, opened: Option<(u32, u32)>) -> Explanation
    ensures sentence { result.sentence ≡ row.now.sentence }
    ensures example { result.example ≡ row.now.example }
    ensures opened { result.opened ≡ spec.opened_as row.now.inside opened }
{
    Explanation {
        sentence: row.sentence,
        example: row.example,
        opened: match row.inside {
            Inside::Unclosed(_) => opened,
            Inside::Anything | Inside::Bracket(_) | Inside::Nothing => None,
        },
    }
}

/// What tables say of a line and a column, both from 1, of a text: the first row that fits what stands around the place, or
/// another explanation where none does. A line and column that the text hasn't stand for its end.
pub fn explain_by(
    tables: &[&'static [Row]],
    other: Explanation,
    text: &[u8],
    line: u32,
    column: u32,
) -> Explanation
    ensures { (at : ℕ) × (spec.IsFound text.now line column at
        × spec.Explains (map (λ table. table.now) tables.now) other text.now at column result) }
{
    let at = place_at(text, line, column);
    let bracket = innermost(&text[..at]);
    let byte = bracket_of(bracket);
    let seen = around(text, at, column, byte);
    match first_of(tables, &seen) {
        Some(row) => said(row, opened(text, at, bracket)),
        None => other,
    }
}
