// What is meant at the place of a refusal.
ghost use Rattle.std.specs.Prelude.{◌≤◌, length};

use crate::names::nearest;
use crate::own::{goes_on_with, is_in_class, is_name, last_two, names_in_scope, push_members};
use crate::tables::{CALLED, members_of, objects, of_lists, types, values, words};
use around_place::{next_word, place_at};
use std::alloc::{AllocError, Global};

/// How many letters a word has at least that may be meant as another.
const LEAST_LETTERS: usize = 3;

/// A word that isn't known, and what it may be meant as.
#[derive(Clone, Copy, Drop)]
pub struct Meant<'t> {
    /// The word as it is written.
    pub word: &'t [u8],
    /// What comes before the name that is meant, as `basic.` or `this.`.
    pub front: &'static str,
    pub name: &'t [u8],
}

/// Adds words of a table.
fn push_table<'t>(
    names: &mut Vec<&'t [u8]>,
    table: &'static [&'static str],
) -> Result<(), AllocError> {
    for word in table {
        names.push(word.as_bytes())?;
    }
    Ok(())
}

/// Whether a word is one of these.
fn is_one_of(names: &[&[u8]], word: &[u8]) -> bool {
    for name in names {
        if *name == word {
            return true;
        }
    }
    false
}

/// Whether a word is in a table.
fn is_in_table(table: &[&'static str], word: &[u8]) -> bool {
    for name in table {
        if name.as_bytes() == word {
            return true;
        }
    }
    false
}

/// What a word is meant as, of these names.
fn among<'t>(names: &[&'t [u8]], word: &'t [u8]) -> Option<Meant<'t>> {
    if word.len() < LEAST_LETTERS {
        return None;
    }
    let name = nearest(names, word)?;
    Some(Meant {
        word,
        front: "",
        name,
    })
}

/// The member that is asked of a word, if one is.
fn member_after<'t>(after: &'t [u8]) -> Option<&'t [u8]> {
    let (dot, rest) = next_word(after)?;
    let (member, _) = next_word(rest)?;
    if dot == b".".as_slice() && is_name(member) {
        Some(member)
    } else {
        None
    }
}

/// The call of the board that a word is meant as.
fn meant_call<'t>(alloc: Global, word: &'t [u8]) -> Result<Option<Meant<'t>>, AllocError> {
    let mut names: Vec<&'t [u8]> = Vec::new(alloc);
    for (object, _) in &CALLED {
        push_table(&mut names, members_of(object.as_bytes()))?;
    }
    let Some(name) = nearest(&names, word) else {
        return Ok(None);
    };
    for (object, front) in &CALLED {
        if is_in_table(members_of(object.as_bytes()), name) {
            return Ok(Some(Meant { word, front, name }));
        }
    }
    Ok(None)
}

/// What the word before a dot, or the member after it, is meant as.
fn meant_member<'t>(
    alloc: Global,
    text: &'t [u8],
    at: usize,
    first: &'t [u8],
    member: &'t [u8],
) -> Result<Option<Meant<'t>>, AllocError>
    requires { at ≤ length text.now }
{
    let mut names = names_in_scope(alloc, &text[..at], text)?;
    if first == b"this".as_slice() || is_one_of(&names, first) {
        let mut members: Vec<&'t [u8]> = Vec::new(alloc);
        push_members(&mut members, text)?;
        push_table(&mut members, of_lists())?;
        return Ok(among(&members, member));
    }
    if is_in_table(objects(), first) {
        let mut members: Vec<&'t [u8]> = Vec::new(alloc);
        push_table(&mut members, members_of(first))?;
        return Ok(among(&members, member));
    }
    push_table(&mut names, objects())?;
    Ok(among(&names, first))
}

/// What a word is meant as that is the name of a member of the class around it.
fn meant_own<'t>(
    alloc: Global,
    text: &'t [u8],
    at: usize,
    word: &'t [u8],
) -> Result<Option<Meant<'t>>, AllocError>
    requires { at ≤ length text.now }
{
    if !is_in_class(&text[..at]) {
        return Ok(None);
    }
    let mut members: Vec<&'t [u8]> = Vec::new(alloc);
    push_members(&mut members, text)?;
    if !is_one_of(&members, word) {
        return Ok(None);
    }
    Ok(Some(Meant {
        word,
        front: "this.",
        name: word,
    }))
}

/// What a word without a dot is meant as.
fn meant_alone<'t>(
    alloc: Global,
    text: &'t [u8],
    at: usize,
    word: &'t [u8],
    after: &'t [u8],
) -> Result<Option<Meant<'t>>, AllocError>
    requires { at ≤ length text.now }
{
    if let Some(own) = meant_own(alloc, text, at, word)? {
        return Ok(Some(own));
    }
    let is_called = goes_on_with(after, "(");
    let mut names = names_in_scope(alloc, &text[..at], text)?;
    let (_, last) = last_two(&text[..at]);
    if last == b":".as_slice() {
        push_table(&mut names, types())?;
    } else if !is_called {
        push_table(&mut names, values())?;
    }
    match among(&names, word) {
        Some(meant) => Ok(Some(meant)),
        None if is_called && LEAST_LETTERS <= word.len() => meant_call(alloc, word),
        None => Ok(None),
    }
}

/// The first word of a text, or after `new` the next one, and what comes after it.
fn name_from<'t>(text: &'t [u8]) -> Option<(&'t [u8], &'t [u8])> {
    let (first, after) = next_word(text)?;
    if first == b"new".as_slice() {
        return next_word(after);
    }
    Some((first, after))
}

/// What the name at a place is meant as.
fn meant_name<'t>(alloc: Global, text: &'t [u8], at: usize) -> Result<Option<Meant<'t>>, AllocError>
    requires { at ≤ length text.now }
{
    let Some((first, after)) = name_from(&text[at..]) else {
        return Ok(None);
    };
    if !is_name(first) {
        return Ok(None);
    }
    match member_after(after) {
        Some(member) => meant_member(alloc, text, at, first, member),
        None => meant_alone(alloc, text, at, first, after),
    }
}

/// The word of the language that a word is meant as, which is none of these names.
fn meant_language<'t>(
    alloc: Global,
    names: &[&'t [u8]],
    word: &'t [u8],
) -> Result<Option<Meant<'t>>, AllocError> {
    let is_known = is_one_of(names, word)
        || (is_in_table(words(), word) || is_in_table(objects(), word));
    if !is_name(word) || is_known {
        return Ok(None);
    }
    let mut table: Vec<&'t [u8]> = Vec::new(alloc);
    push_table(&mut table, words())?;
    Ok(among(&table, word))
}

/// The first word of a line, up to a place in it; behind a `}`, the next one.
fn first_of_line<'t>(line: &'t [u8]) -> &'t [u8] {
    match next_word(line) {
        Some((b"}", after)) => match next_word(after) {
            Some((word, _)) => word,
            None => after,
        },
        Some((word, _)) => word,
        None => line,
    }
}

/// What a word before a place is meant as: the last one, the one before a bracket, or the first of the line.
fn meant_word<'t>(
    alloc: Global,
    text: &'t [u8],
    at: usize,
    column: u32,
) -> Result<Option<Meant<'t>>, AllocError>
    requires { at ≤ length text.now }
{
    let names = names_in_scope(alloc, &text[..at], text)?;
    let (former, last) = last_two(&text[..at]);
    if let Some(meant) = meant_language(alloc, &names, last)? {
        return Ok(Some(meant));
    }
    if last == b"(".as_slice() {
        if let Some(meant) = meant_language(alloc, &names, former)? {
            return Ok(Some(meant));
        }
    }
    let start = at.saturating_sub((column as usize).saturating_sub(1));
    meant_language(alloc, &names, first_of_line(&text[start..at]))
}

/// What is meant where a refusal by this code has its place: of names that aren't known (code 8) and of words where the text is no program (code 6).
pub fn meaning_at<'t>(
    alloc: Global,
    code: u32,
    text: &'t [u8],
    line: u32,
    column: u32,
) -> Result<Option<Meant<'t>>, AllocError> {
    let at = place_at(text, line, column);
    match code {
        6 => meant_word(alloc, text, at, column),
        8 => meant_name(alloc, text, at),
        _ => Ok(None),
    }
}
