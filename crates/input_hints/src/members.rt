// The members of objects and the items of lists, of tokens that spell JSON.
ghost use Rattle.std.specs.Prelude.{All, ◌<◌, length};

use crate::faults::{InputFault, Part, Place, fault};
use crate::tokens::{Kind, Token};
use std::alloc::{AllocError, Global};

/// A member: its name, and the tokens from its value on.
#[derive(Clone, Copy, Drop)]
pub struct Member<'a, 't> {
    pub name: Token<'t>,
    pub value: Token<'t>,
    pub from: &'a [Token<'t>],
}

/// How deep brackets are open after a token.
fn depth_after(depth: usize, token: &Token<'_>) -> usize {
    match token.kind {
        Kind::Open => depth.saturating_add(1),
        Kind::Close => depth.saturating_sub(1),
        _ => depth,
    }
}

/// The member whose name is the first of these tokens, if one is.
fn member_at<'a, 't>(from: &'a [Token<'t>]) -> Option<Member<'a, 't>> {
    match from {
        [name, colon, value @ ..] => match value {
            [first, ..] if colon.kind == Kind::Colon => Some(Member {
                name: *name,
                value: *first,
                from: value,
            }),
            _ => None,
        },
        _ => None,
    }
}

/// The members of the object that begins these tokens.
pub fn members_of<'a, 't>(
    alloc: Global,
    tokens: &'a [Token<'t>],
) -> Result<Vec<Member<'a, 't>>, AllocError> {
    let mut members = Vec::new(alloc);
    let mut depth = 0;
    for at in 0..tokens.len() {
        depth = depth_after(depth, &tokens[at]);
        if depth == 0 {
            return Ok(members);
        }
        if depth == 1 && tokens[at].kind == Kind::Text {
            if let Some(member) = member_at(&tokens[at..]) {
                members.push(member)?;
            }
        }
    }
    Ok(members)
}

/// The items of the list that begins these tokens, each from its first token on.
pub fn items_of<'a, 't>(
    alloc: Global,
    tokens: &'a [Token<'t>],
) -> Result<Vec<&'a [Token<'t>]>, AllocError> {
    let mut items = Vec::new(alloc);
    let mut depth = 0;
    let mut begins = false;
    for at in 0..tokens.len() {
        let now = depth_after(depth, &tokens[at]);
        if now == 0 {
            return Ok(items);
        }
        if begins && depth == 1 {
            items.push(&tokens[at..])?;
        }
        begins = now == 1 && (at == 0 || tokens[at].kind == Kind::Comma);
        depth = now;
    }
    Ok(items)
}

/// The member of this name, the last one.
pub fn find<'a, 't>(members: &[Member<'a, 't>], name: &str) -> Option<Member<'a, 't>> {
    let mut found = None;
    for member in members {
        if member.name.says(name) {
            found = Some(*member);
        }
    }
    found
}

/// Whether one of the names is a member's.
fn is_one_of(member: &Member<'_, '_>, names: &[&'static str]) -> bool {
    for name in names {
        if member.name.says(name) {
            return true;
        }
    }
    false
}

/// The name that a member's is in other letters, capitals or small ones.
fn in_other_case(member: &Member<'_, '_>, names: &[&'static str]) -> Option<&'static str> {
    for name in names {
        if member.name.inner().eq_ignore_ascii_case(name.as_bytes()) {
            return Some(name);
        }
    }
    None
}

/// The member that isn't one of these names, if there is one; then the name that isn't there.
pub fn names_fault(
    alloc: Global,
    place: Place,
    members: &[Member<'_, '_>],
    names: &[&'static str],
    listed: &'static str,
) -> Result<Option<InputFault>, AllocError> {
    for member in members {
        if !is_one_of(member, names) {
            return name_fault(alloc, place, member, names, listed);
        }
    }
    for name in names {
        if find(members, name).is_none() {
            return missing(alloc, place, name);
        }
    }
    Ok(None)
}

/// What is said of a member whose name isn't one of these.
fn name_fault(
    alloc: Global,
    place: Place,
    member: &Member<'_, '_>,
    names: &[&'static str],
    listed: &'static str,
) -> Result<Option<InputFault>, AllocError> {
    let here = Place {
        line: member.name.line,
        ..place
    };
    let name = Part::Shown(member.name.text);
    match in_other_case(member, names) {
        Some(right) => fault(
            alloc,
            here,
            &[
                name,
                Part::Words(" is written \""),
                Part::Words(right),
                Part::Words("\""),
            ],
        ),
        None => fault(
            alloc,
            here,
            &[
                name,
                Part::Words(" is no member here: "),
                Part::Words(listed),
            ],
        ),
    }
}

/// What is said of a member that isn't there.
fn missing(
    alloc: Global,
    place: Place,
    name: &'static str,
) -> Result<Option<InputFault>, AllocError> {
    let front = if place.noun.is_empty() {
        "\""
    } else {
        "a member \""
    };
    fault(
        alloc,
        place,
        &[
            Part::Words(front),
            Part::Words(name),
            Part::Words("\" is missing"),
        ],
    )
}

/// The whole number that a token is.
pub fn whole(token: &Token<'_>) -> Option<u64> {
    if token.kind != Kind::Word {
        return None;
    }
    for byte in token.text {
        if !byte.is_ascii_digit() {
            return None;
        }
    }
    str::from_utf8(token.text).ok()?.parse().ok()
}

/// What is said of a value that is to be a whole number between these two, if it isn't.
pub fn whole_fault(
    alloc: Global,
    place: Place,
    member: &Member<'_, '_>,
    least: u64,
    most: u64,
) -> Result<Option<InputFault>, AllocError> {
    match whole(&member.value) {
        Some(number) if least <= number && number <= most => Ok(None),
        _ => whole_said(alloc, place, member, least, most),
    }
}

fn whole_said(
    alloc: Global,
    place: Place,
    member: &Member<'_, '_>,
    least: u64,
    most: u64,
) -> Result<Option<InputFault>, AllocError> {
    let here = Place {
        line: member.value.line,
        ..place
    };
    let name = Part::Shown(member.name.text);
    if member.value.kind == Kind::Text {
        return fault(
            alloc,
            here,
            &[name, Part::Words(" is a whole number, without quotes")],
        );
    }
    fault(
        alloc,
        here,
        &[
            name,
            Part::Words(" is a whole number from "),
            Part::Number(least),
            Part::Words(" to "),
            Part::Number(most),
            Part::Words("; here it is "),
            Part::Shown(member.value.text),
        ],
    )
}

/// What is said of a value that is to be a text, if it isn't.
pub fn text_fault(
    alloc: Global,
    place: Place,
    member: &Member<'_, '_>,
) -> Result<Option<InputFault>, AllocError> {
    if member.value.kind == Kind::Text {
        return Ok(None);
    }
    let here = Place {
        line: member.value.line,
        ..place
    };
    let name = Part::Shown(member.name.text);
    fault(
        alloc,
        here,
        &[
            name,
            Part::Words(" is the name of a file, in quotes; here it is "),
            Part::Shown(member.value.text),
        ],
    )
}

/// What is said of a value that is to be a list, if it isn't.
pub fn list_fault(
    alloc: Global,
    place: Place,
    member: &Member<'_, '_>,
) -> Result<Option<InputFault>, AllocError> {
    if member.value.is_bracket(b'[') {
        return Ok(None);
    }
    let here = Place {
        line: member.value.line,
        ..place
    };
    let name = Part::Shown(member.name.text);
    fault(
        alloc,
        here,
        &[
            name,
            Part::Words(" is a list: it begins with `[`; here it is "),
            Part::Shown(member.value.text),
        ],
    )
}
