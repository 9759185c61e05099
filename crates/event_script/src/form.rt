// Reading a script from a JSON tree.
ghost use Rattle.std.specs.Prelude.{◌≡◌, IfOk, codes, option_map};
ghost use Rattle.serde_json.specs.View.{view};
ghost use Rattle.board_world.specs.Limits.{last_port};
ghost use Rattle.event_script.specs.Limits.{greatest_number};
ghost use Rattle.event_script.specs.Trees.{whole};
ghost use Rattle.event_script.specs.Form.{button_of, act_of, entry_of, script_of, raised_with};

use crate::trees::{FromTree, has_members, list_of, says, whole};
use crate::{Act, Entry, Script};
use board_world::{END_LIMIT, Event, LAST_PORT};
use serde_json::Value;
use std::alloc::Global;
use sts_base::NoMemory;

/// The greatest source and value of an event.
const GREATEST_NUMBER: u32 = 65_535;

/// The number of the button that is named.
fn button_of(tree: &Value) -> Option<u8>
    ensures { result ≡ button_of (view tree.now) }
{
    if says(tree, "button", "A") {
        Some(1)
    } else if says(tree, "button", "B") {
        Some(2)
    } else {
        None
    }
}

/// The event of `source` and `value`.
fn event_of(tree: &Value) -> Option<Act>
    ensures { result ≡ raised_with (whole greatest_number (codes "source") (view tree.now))
        (whole greatest_number (codes "value") (view tree.now)) }
{
    let source = whole(tree, "source", GREATEST_NUMBER)?;
    let value = whole(tree, "value", GREATEST_NUMBER)?;
    Some(Act::Raise(Event {
        source: source as i32,
        value: value as i32,
    }))
}

/// The port that is named.
fn port_of(tree: &Value) -> Option<Act>
    ensures { result ≡ option_map Act.Unplug (whole last_port (codes "port") (view tree.now)) }
{
    let port = whole(tree, "port", LAST_PORT)?;
    Some(Act::Unplug(port as u8))
}

/// What an entry does: what `do` says, where there are the members for it and one more.
pub fn act_of(tree: &Value) -> Option<Act>
    ensures { result ≡ act_of (view tree.now) }
{
    if says(tree, "do", "down") {
        if has_members(tree, 3) {
            button_of(tree).map(Act::Down)
        } else {
            None
        }
    } else if says(tree, "do", "up") {
        if has_members(tree, 3) {
            button_of(tree).map(Act::Up)
        } else {
            None
        }
    } else if says(tree, "do", "raise") {
        if has_members(tree, 4) {
            event_of(tree)
        } else {
            None
        }
    } else if says(tree, "do", "unplug") {
        if has_members(tree, 3) {
            port_of(tree)
        } else {
            None
        }
    } else {
        None
    }
}

/// An entry of the list.
fn entry_of(tree: &Value) -> Option<Entry>
    ensures { result ≡ entry_of (view tree.now) }
{
    let at = whole(tree, "at", END_LIMIT)?;
    let act = act_of(tree)?;
    Some(Entry { at, act })
}

impl FromTree for Entry {
    ghost use Rattle.event_script.specs.Form.{entry_of};

    ghost of_tree = { entry_of };

    ghost is_sound = { λ _. Unit {0} };

    fn from_tree(_: Global, tree: &Value) -> Result<Option<Entry>, NoMemory> {
        Ok(entry_of(tree))
    }
}

/// The script that a tree is, where it has the form of one.
pub fn script_of(alloc: Global, tree: &Value) -> Result<Option<Script>, NoMemory>
    ensures { IfOk result (λ o. o ≡ script_of (view tree.now)) }
{
    if !has_members(tree, 2) {
        return Ok(None);
    }
    let end = match whole(tree, "end", END_LIMIT) {
        None => return Ok(None),
        Some(end) => end,
    };
    match list_of(alloc, tree, "events")? {
        None => Ok(None),
        Some(entries) => Ok(Some(Script { end, entries })),
    }
}
