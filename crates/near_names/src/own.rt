// The names that a program declares itself.
use around_place::{WordKind, is_in, next_word};
use std::alloc::{AllocError, Global};

/// A name, and how many brackets are open where it is declared.
#[derive(Clone, Copy, Drop)]
struct Own<'t> {
    name: &'t [u8],
    depth: usize,
}

/// How many brackets are open, and how many within the class that is open, 0 where none is.
#[derive(Clone, Copy, Drop)]
struct Depth {
    now: usize,
    class: usize,
    is_awaited: bool,
}

/// Whether a word is a name or a word of the language.
pub fn is_name(word: &[u8]) -> bool {
    match word {
        [first, ..] => is_in(*first, WordKind::Name) && !first.is_ascii_digit(),
        [] => false,
    }
}

/// Whether the next word is a mark.
pub fn goes_on_with(after: &[u8], mark: &str) -> bool {
    match next_word(after) {
        Some((word, _)) => word == mark.as_bytes(),
        None => false,
    }
}

/// The depth after a word.
fn depth_after(depth: Depth, word: &[u8]) -> Depth {
    let mut next = depth;
    match word {
        b"(" | b"[" => next.now = depth.now.saturating_add(1),
        b"{" => {
            next.now = depth.now.saturating_add(1);
            if depth.is_awaited {
                next.class = next.now;
                next.is_awaited = false;
            }
        }
        b")" | b"]" | b"}" => {
            next.now = depth.now.saturating_sub(1);
            if next.now < depth.class {
                next.class = 0;
            }
        }
        b"class" => next.is_awaited = true,
        _ => {}
    }
    next
}

/// The depth before the first word.
fn no_depth() -> Depth {
    Depth {
        now: 0,
        class: 0,
        is_awaited: false,
    }
}

/// Whether a word declares a local or a parameter, by the word before it and what comes after.
fn declares(last: &[u8], word: &[u8], after: &[u8]) -> bool {
    is_name(word)
        && (last == b"let".as_slice() || last == b"const".as_slice() || goes_on_with(after, ":"))
}

/// Adds the names of locals and parameters that are in scope at the end of a text, in its order. A parameter goes out with the block after it.
fn push_locals<'t>(
    alloc: Global,
    names: &mut Vec<&'t [u8]>,
    before: &'t [u8],
) -> Result<(), AllocError> {
    let mut found: Vec<Own<'t>> = Vec::new(alloc);
    let mut depth = no_depth();
    let mut last: &'t [u8] = &before[..0];
    let mut rest = before;
    while let Some((word, after)) = next_word(rest) {
        depth = depth_after(depth, word);
        if word == b"}".as_slice() {
            let now = depth.now;
            found.retain(|own| own.depth <= now);
        }
        if declares(last, word, after) {
            found.push(Own {
                name: word,
                depth: depth.now,
            })?;
        }
        last = word;
        rest = after;
    }
    for own in &found {
        names.push(own.name)?;
    }
    Ok(())
}

/// Adds the names of functions and classes, in the text's order.
fn push_declared<'t>(names: &mut Vec<&'t [u8]>, text: &'t [u8]) -> Result<(), AllocError> {
    let mut last: &'t [u8] = &text[..0];
    let mut rest = text;
    while let Some((word, after)) = next_word(rest) {
        let declares = last == b"function".as_slice() || last == b"class".as_slice();
        if declares && is_name(word) {
            names.push(word)?;
        }
        last = word;
        rest = after;
    }
    Ok(())
}

/// The program's own names: the locals and parameters in scope where the first text ends, then the functions and classes of the whole.
pub fn names_in_scope<'t>(
    alloc: Global,
    before: &'t [u8],
    text: &'t [u8],
) -> Result<Vec<&'t [u8]>, AllocError> {
    let mut names = Vec::new(alloc);
    push_locals(alloc, &mut names, before)?;
    push_declared(&mut names, text)?;
    Ok(names)
}

/// Whether a word in a class's body is a member's name, by the word before it and what comes after.
fn is_member(last: &[u8], word: &[u8], after: &[u8]) -> bool {
    let goes_on = goes_on_with(after, "=") || goes_on_with(after, ":") || goes_on_with(after, "(");
    is_name(word) && (goes_on && (last != b":".as_slice() && word != b"constructor".as_slice()))
}

/// Adds the names of the classes' members, in the text's order.
pub fn push_members<'t>(names: &mut Vec<&'t [u8]>, text: &'t [u8]) -> Result<(), AllocError> {
    let mut depth = no_depth();
    let mut last: &'t [u8] = &text[..0];
    let mut rest = text;
    while let Some((word, after)) = next_word(rest) {
        depth = depth_after(depth, word);
        if depth.class != 0 && (depth.now == depth.class && is_member(last, word, after)) {
            names.push(word)?;
        }
        last = word;
        rest = after;
    }
    Ok(())
}

/// Whether a class is open at the end of a text.
pub fn is_in_class(before: &[u8]) -> bool {
    let mut depth = no_depth();
    let mut rest = before;
    while let Some((word, after)) = next_word(rest) {
        depth = depth_after(depth, word);
        rest = after;
    }
    depth.class != 0
}

/// The last word of a text, and the one before it.
pub fn last_two<'t>(before: &'t [u8]) -> (&'t [u8], &'t [u8]) {
    let none = &before[..0];
    let mut last = none;
    let mut former = none;
    let mut rest = before;
    while let Some((word, after)) = next_word(rest) {
        former = last;
        last = word;
        rest = after;
    }
    (former, last)
}
