// The entries of scripts and arrivals.
use crate::faults::{InputFault, Part, Place, fault};
use crate::members::{Member, find, names_fault, whole_fault};
use crate::tokens::Token;
use std::alloc::{AllocError, Global};

/// The greatest source and value of an event.
const GREATEST_NUMBER: u64 = 65_535;

/// The last port.
const LAST_PORT: u64 = 3;

/// Whether it is an entry of a script or of arrivals: the member with its place, and the least and greatest number of that.
#[derive(Clone, Copy, Drop)]
pub struct When {
    pub name: &'static str,
    pub least: u64,
    pub most: u64,
    pub unplugs: bool,
}

/// What an entry does.
#[derive(Clone, Copy, Drop)]
enum Act {
    Press,
    Raise,
    Unplug,
}

fn act_of(value: &Token<'_>, when: When) -> Option<Act> {
    if value.says("down") || value.says("up") {
        Some(Act::Press)
    } else if value.says("raise") {
        Some(Act::Raise)
    } else if value.says("unplug") && when.unplugs {
        Some(Act::Unplug)
    } else {
        None
    }
}

/// Whether a text is a word for a press.
fn is_press(value: &Token<'_>) -> bool {
    let word = value.inner();
    word.eq_ignore_ascii_case(b"press")
        || word.eq_ignore_ascii_case(b"pressed")
        || word.eq_ignore_ascii_case(b"click")
}

/// What is said of a `do` that is none of the four.
fn act_fault(
    alloc: Global,
    place: Place,
    value: &Token<'_>,
    when: When,
) -> Result<Option<InputFault>, AllocError> {
    let here = Place {
        line: value.line,
        ..place
    };
    let words = if when.unplugs {
        "\"do\" is \"down\", \"up\", \"raise\" or \"unplug\"; here it is "
    } else {
        "\"do\" is \"down\", \"up\" or \"raise\"; here it is "
    };
    let more = if is_press(value) {
        ": a press is an entry \"down\" and a later one \"up\""
    } else {
        ""
    };
    fault(
        alloc,
        here,
        &[
            Part::Words(words),
            Part::Shown(value.text),
            Part::Words(more),
        ],
    )
}

/// What is said of a button, if it is none.
fn button_fault(
    alloc: Global,
    place: Place,
    member: &Member<'_, '_>,
) -> Result<Option<InputFault>, AllocError> {
    let value = &member.value;
    if value.says("A") || value.says("B") {
        return Ok(None);
    }
    let here = Place {
        line: value.line,
        ..place
    };
    let inner = value.inner();
    let words = if inner.eq_ignore_ascii_case(b"A") || inner.eq_ignore_ascii_case(b"B") {
        "\"button\" is \"A\" or \"B\", in capitals; here it is "
    } else {
        "\"button\" is \"A\" or \"B\"; here it is "
    };
    let more = if inner.eq_ignore_ascii_case(b"AB") || inner.eq_ignore_ascii_case(b"A+B") {
        ": write an entry for each of the two"
    } else {
        ""
    };
    fault(
        alloc,
        here,
        &[
            Part::Words(words),
            Part::Shown(value.text),
            Part::Words(more),
        ],
    )
}

/// The fault of the number of this name, if it is there and has one.
fn number_fault(
    alloc: Global,
    place: Place,
    members: &[Member<'_, '_>],
    name: &str,
    most: u64,
) -> Result<Option<InputFault>, AllocError> {
    match find(members, name) {
        Some(member) => whole_fault(alloc, place, &member, 0, most),
        None => Ok(None),
    }
}

fn press_fault(
    alloc: Global,
    place: Place,
    members: &[Member<'_, '_>],
    when: When,
) -> Result<Option<InputFault>, AllocError> {
    let listed = if when.unplugs {
        "at, do, button"
    } else {
        "after, do, button"
    };
    if let Some(found) = names_fault(alloc, place, members, &[when.name, "do", "button"], listed)? {
        return Ok(Some(found));
    }
    match find(members, "button") {
        Some(member) => button_fault(alloc, place, &member),
        None => Ok(None),
    }
}

fn raise_fault(
    alloc: Global,
    place: Place,
    members: &[Member<'_, '_>],
    when: When,
) -> Result<Option<InputFault>, AllocError> {
    let listed = if when.unplugs {
        "at, do, source, value"
    } else {
        "after, do, source, value"
    };
    let names = [when.name, "do", "source", "value"];
    if let Some(found) = names_fault(alloc, place, members, &names, listed)? {
        return Ok(Some(found));
    }
    if let Some(found) = number_fault(alloc, place, members, "source", GREATEST_NUMBER)? {
        return Ok(Some(found));
    }
    number_fault(alloc, place, members, "value", GREATEST_NUMBER)
}

fn unplug_fault(
    alloc: Global,
    place: Place,
    members: &[Member<'_, '_>],
    when: When,
) -> Result<Option<InputFault>, AllocError> {
    let names = [when.name, "do", "port"];
    if let Some(found) = names_fault(alloc, place, members, &names, "at, do, port")? {
        return Ok(Some(found));
    }
    number_fault(alloc, place, members, "port", LAST_PORT)
}

/// What is wrong with what an entry does.
fn does_fault(
    alloc: Global,
    place: Place,
    members: &[Member<'_, '_>],
    when: When,
) -> Result<Option<InputFault>, AllocError> {
    let Some(does) = find(members, "do") else {
        let listed = if when.unplugs {
            "at, do, button"
        } else {
            "after, do, button"
        };
        return names_fault(alloc, place, members, &[when.name, "do", "button"], listed);
    };
    match act_of(&does.value, when) {
        None => act_fault(alloc, place, &does.value, when),
        Some(Act::Press) => press_fault(alloc, place, members, when),
        Some(Act::Raise) => raise_fault(alloc, place, members, when),
        Some(Act::Unplug) => unplug_fault(alloc, place, members, when),
    }
}

/// What is wrong with an entry, but for where it is in the list.
pub fn entry_fault(
    alloc: Global,
    place: Place,
    members: &[Member<'_, '_>],
    when: When,
) -> Result<Option<InputFault>, AllocError> {
    if let Some(found) = does_fault(alloc, place, members, when)? {
        return Ok(Some(found));
    }
    match find(members, when.name) {
        Some(member) => whole_fault(alloc, place, &member, when.least, when.most),
        None => Ok(None),
    }
}
