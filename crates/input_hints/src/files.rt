// What is wrong with a file of a kind.
use crate::acts::{When, entry_fault};
use crate::faults::{InputFault, Part, Place, fault, in_line};
use crate::grammar::grammar_fault;
use crate::members::{
    Member, find, items_of, list_fault, members_of, names_fault, text_fault, whole, whole_fault,
};
use crate::tokens::{Token, tokens_of};
use std::alloc::{AllocError, Global};

/// The kinds of files.
#[derive(Clone, Copy, Debug, PartialEq, Eq, Drop)]
pub enum InputKind {
    Script,
    Class,
    Arrivals,
}

/// The last moment that there is.
const LAST_MOMENT: u64 = 1_073_741_824;

/// The most instructions that an arrival can wait for.
const MOST_AFTER: u64 = 2_147_483_648;

const MOST_ENTRIES: usize = 4096;

const MOST_BOARDS: usize = 8;

/// How entries of scripts say when they come.
const BY_MOMENT: When = When {
    name: "at",
    least: 0,
    most: LAST_MOMENT,
    unplugs: true,
};

/// How arrivals do.
const BY_COUNT: When = When {
    name: "after",
    least: 1,
    most: MOST_AFTER,
    unplugs: false,
};

/// What is wrong with something, if something is.
type Outcome = Result<Option<InputFault>, AllocError>;

/// The place of an item.
fn item_place(noun: &'static str, number: usize, item: &[Token<'_>]) -> Place {
    let line = match item {
        [first, ..] => first.line,
        [] => 1,
    };
    Place { line, noun, number }
}

/// What is wrong where an item is to be an object, if it is none.
fn object_fault(alloc: Global, place: Place, item: &[Token<'_>]) -> Outcome {
    match item {
        [first, ..] if !first.is_bracket(b'{') => fault(
            alloc,
            place,
            &[
                Part::Words("it is an object, in `{ }`; here it is "),
                Part::Shown(first.text),
            ],
        ),
        _ => Ok(None),
    }
}

/// What is wrong with one entry.
fn one_entry(alloc: Global, place: Place, item: &[Token<'_>], when: When) -> Outcome {
    if let Some(found) = object_fault(alloc, place, item)? {
        return Ok(Some(found));
    }
    let members = members_of(alloc, item)?;
    entry_fault(alloc, place, &members, when)
}

/// The number that says when an entry comes.
fn when_of(alloc: Global, item: &[Token<'_>], when: When) -> Result<u64, AllocError> {
    let members = members_of(alloc, item)?;
    match find(&members, when.name) {
        Some(member) => Ok(whole(&member.value).unwrap_or(0)),
        None => Ok(0),
    }
}

/// The first entry that comes before the one before it.
fn order_fault(alloc: Global, noun: &'static str, items: &[&[Token<'_>]], when: When) -> Outcome {
    let mut before = 0;
    for (at, item) in items.iter().enumerate() {
        let number = when_of(alloc, item, when)?;
        if number < before {
            let parts = [
                Part::Number(number),
                Part::Words(" comes after "),
                Part::Number(before),
            ];
            return fault(alloc, item_place(noun, at.saturating_add(1), item), &parts);
        }
        before = number;
    }
    Ok(None)
}

/// The first entry after the end.
fn end_fault(alloc: Global, items: &[&[Token<'_>]], end: u64) -> Outcome {
    for (at, item) in items.iter().enumerate() {
        let number = when_of(alloc, item, BY_MOMENT)?;
        if end < number {
            let parts = [
                Part::Number(number),
                Part::Words(" is after the end, which is "),
                Part::Number(end),
            ];
            return fault(
                alloc,
                item_place("entry", at.saturating_add(1), item),
                &parts,
            );
        }
    }
    Ok(None)
}

/// Too many items.
fn count_fault(alloc: Global, line: usize, count: usize, words: &'static str) -> Outcome {
    fault(
        alloc,
        in_line(line),
        &[
            Part::Words("there are "),
            Part::Number(count as u64),
            Part::Words(words),
        ],
    )
}

/// The first entry that is wrong by itself.
fn entries_fault(alloc: Global, noun: &'static str, items: &[&[Token<'_>]], when: When) -> Outcome {
    for (at, item) in items.iter().enumerate() {
        let place = item_place(noun, at.saturating_add(1), item);
        if let Some(found) = one_entry(alloc, place, item, when)? {
            return Ok(Some(found));
        }
    }
    order_fault(alloc, noun, items, when)
}

/// What is wrong with the number and the list of a script.
fn script_parts(alloc: Global, end: &Member<'_, '_>, events: &Member<'_, '_>) -> Outcome {
    let place = in_line(1);
    if let Some(found) = whole_fault(alloc, place, end, 0, LAST_MOMENT)? {
        return Ok(Some(found));
    }
    if let Some(found) = list_fault(alloc, place, events)? {
        return Ok(Some(found));
    }
    let items = items_of(alloc, events.from)?;
    if let Some(found) = entries_fault(alloc, "entry", &items, BY_MOMENT)? {
        return Ok(Some(found));
    }
    if let Some(found) = end_fault(alloc, &items, whole(&end.value).unwrap_or(0))? {
        return Ok(Some(found));
    }
    if MOST_ENTRIES < items.len() {
        return count_fault(
            alloc,
            events.value.line,
            items.len(),
            " entries; at most 4096 are taken",
        );
    }
    Ok(None)
}

fn script_fault(alloc: Global, members: &[Member<'_, '_>]) -> Outcome {
    if let Some(found) = names_fault(
        alloc,
        in_line(1),
        members,
        &["end", "events"],
        "end, events",
    )? {
        return Ok(Some(found));
    }
    match (find(members, "end"), find(members, "events")) {
        (Some(end), Some(events)) => script_parts(alloc, &end, &events),
        _ => Ok(None),
    }
}

fn arrivals_fault(alloc: Global, members: &[Member<'_, '_>]) -> Outcome {
    if let Some(found) = names_fault(alloc, in_line(1), members, &["arrivals"], "arrivals")? {
        return Ok(Some(found));
    }
    let Some(list) = find(members, "arrivals") else {
        return Ok(None);
    };
    if let Some(found) = list_fault(alloc, in_line(1), &list)? {
        return Ok(Some(found));
    }
    let items = items_of(alloc, list.from)?;
    if let Some(found) = entries_fault(alloc, "arrival", &items, BY_COUNT)? {
        return Ok(Some(found));
    }
    if MOST_ENTRIES < items.len() {
        return count_fault(
            alloc,
            list.value.line,
            items.len(),
            " arrivals; at most 4096 are taken",
        );
    }
    Ok(None)
}

/// What is wrong with one board of a class.
fn board_fault(alloc: Global, place: Place, item: &[Token<'_>]) -> Outcome {
    if let Some(found) = object_fault(alloc, place, item)? {
        return Ok(Some(found));
    }
    let members = members_of(alloc, item)?;
    let names = ["program", "script"];
    if let Some(found) = names_fault(alloc, place, &members, &names, "program, script")? {
        return Ok(Some(found));
    }
    for name in names {
        if let Some(member) = find(&members, name) {
            if let Some(found) = text_fault(alloc, place, &member)? {
                return Ok(Some(found));
            }
        }
    }
    Ok(None)
}

/// What is wrong with one loss of a class.
fn loss_fault(alloc: Global, place: Place, item: &[Token<'_>]) -> Outcome {
    if let Some(found) = object_fault(alloc, place, item)? {
        return Ok(Some(found));
    }
    let members = members_of(alloc, item)?;
    let names = ["at", "from", "to"];
    if let Some(found) = names_fault(alloc, place, &members, &names, "at, from, to")? {
        return Ok(Some(found));
    }
    for (name, most) in [("at", LAST_MOMENT), ("from", 7), ("to", 7)] {
        if let Some(member) = find(&members, name) {
            if let Some(found) = whole_fault(alloc, place, &member, 0, most)? {
                return Ok(Some(found));
            }
        }
    }
    Ok(None)
}

/// What is wrong with the boards of a class, which are numbered from 0.
fn boards_fault(alloc: Global, boards: &Member<'_, '_>) -> Outcome {
    if let Some(found) = list_fault(alloc, in_line(1), boards)? {
        return Ok(Some(found));
    }
    let items = items_of(alloc, boards.from)?;
    for (at, item) in items.iter().enumerate() {
        if let Some(found) = board_fault(alloc, item_place("board", at, item), item)? {
            return Ok(Some(found));
        }
    }
    if items.is_empty() || MOST_BOARDS < items.len() {
        return count_fault(
            alloc,
            boards.value.line,
            items.len(),
            " boards; a class has 1 to 8",
        );
    }
    Ok(None)
}

/// What is wrong with the losses of a class.
fn losses_fault(alloc: Global, losses: &Member<'_, '_>) -> Outcome {
    if let Some(found) = list_fault(alloc, in_line(1), losses)? {
        return Ok(Some(found));
    }
    let items = items_of(alloc, losses.from)?;
    for (at, item) in items.iter().enumerate() {
        let place = item_place("loss", at.saturating_add(1), item);
        if let Some(found) = loss_fault(alloc, place, item)? {
            return Ok(Some(found));
        }
    }
    if MOST_ENTRIES < items.len() {
        return count_fault(
            alloc,
            losses.value.line,
            items.len(),
            " losses; at most 4096 are taken",
        );
    }
    Ok(None)
}

fn class_fault(alloc: Global, members: &[Member<'_, '_>]) -> Outcome {
    let names = ["end", "boards", "lose"];
    if let Some(found) = names_fault(alloc, in_line(1), members, &names, "end, boards, lose")? {
        return Ok(Some(found));
    }
    if let Some(end) = find(members, "end") {
        if let Some(found) = whole_fault(alloc, in_line(1), &end, 0, LAST_MOMENT)? {
            return Ok(Some(found));
        }
    }
    if let Some(boards) = find(members, "boards") {
        if let Some(found) = boards_fault(alloc, &boards)? {
            return Ok(Some(found));
        }
    }
    match find(members, "lose") {
        Some(losses) => losses_fault(alloc, &losses),
        None => Ok(None),
    }
}

/// What is said of a file whose value is no object.
fn whole_file(kind: InputKind) -> &'static str {
    match kind {
        InputKind::Script =>
            "a script is one object, `{\"end\": .., \"events\": [..]}`; here it is `",
        InputKind::Class =>
            "a class file is one object, `{\"end\": .., \"boards\": [..], \"lose\": [..]}`; here it is `",
        InputKind::Arrivals => "arrivals are one object, `{\"arrivals\": [..]}`; here it is `",
    }
}

/// What is wrong with tokens that spell JSON.
fn form_fault(alloc: Global, kind: InputKind, tokens: &[Token<'_>]) -> Outcome {
    let [first, ..] = tokens else {
        return Ok(None);
    };
    if !first.is_bracket(b'{') {
        let parts = [
            Part::Words(whole_file(kind)),
            Part::Shown(first.text),
            Part::Words("`"),
        ];
        return fault(alloc, in_line(first.line), &parts);
    }
    let members = members_of(alloc, tokens)?;
    match kind {
        InputKind::Script => script_fault(alloc, &members),
        InputKind::Class => class_fault(alloc, &members),
        InputKind::Arrivals => arrivals_fault(alloc, &members),
    }
}

/// What is wrong with the bytes of a file, whatever is in it.
fn bytes_fault(alloc: Global, bytes: &[u8]) -> Outcome {
    let words = match bytes {
        [0xef, 0xbb, 0xbf, ..] =>
            "the file begins with a byte order mark: save it as UTF-8 without one",
        _ if str::from_utf8(bytes).is_err() => "the file is no UTF-8: save it as UTF-8",
        _ => return Ok(None),
    };
    fault(alloc, in_line(1), &[Part::Words(words)])
}

/// What is wrong with a file of this kind, by its first fault: that it is no JSON, then its form, then the order of its entries, its end and their number. Nothing where none is found here.
pub fn input_fault(
    alloc: Global,
    kind: InputKind,
    bytes: &[u8],
) -> Result<Option<InputFault>, AllocError> {
    if let Some(found) = bytes_fault(alloc, bytes)? {
        return Ok(Some(found));
    }
    let tokens = tokens_of(alloc, bytes)?;
    if let Some(found) = grammar_fault(alloc, &tokens)? {
        return Ok(Some(found));
    }
    form_fault(alloc, kind, &tokens)
}
