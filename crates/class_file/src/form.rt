// Reading a class from a JSON tree.
ghost use Rattle.std.specs.Prelude.{◌≡◌, IfOk, IfSome, All};
ghost use Rattle.serde_json.specs.View.{view};
ghost use Rattle.class_file.specs.Form.{loss_of, class_of};
ghost use Rattle.class_file.specs.Within.{AreTexts};

use crate::{ClassFile, Loss, Names};
use board_world::END_LIMIT;
use event_script::{FromTree, has_members, list_of, text_of, whole};
use serde_json::Value;
use std::alloc::Global;
use sts_base::{NoMemory, Seq};

/// The last board.
const LAST_BOARD: u32 = 7;

/// A copy of bytes.
fn copied(alloc: Global, bytes: &[u8]) -> Result<Seq<u8>, NoMemory>
    ensures { IfOk result (λ copy. copy ≡ bytes.now) }
{
    let mut copy = Seq::new(alloc);
    for byte in bytes {
        copy.push(*byte)?;
    }
    Ok(copy)
}

impl FromTree for Names {
    ghost use Rattle.class_file.specs.Form.{names_of};
    ghost use Rattle.class_file.specs.Within.{AreTexts};

    ghost of_tree = { names_of };

    ghost is_sound = { AreTexts };

    fn from_tree(alloc: Global, tree: &Value) -> Result<Option<Names>, NoMemory> {
        if !has_members(tree, 2) {
            return Ok(None);
        }
        match text_of(tree, "program") {
            None => Ok(None),
            Some(program) => match text_of(tree, "script") {
                None => Ok(None),
                Some(script) => {
                    let program = copied(alloc, program.as_bytes())?;
                    let script = copied(alloc, script.as_bytes())?;
                    Ok(Some(Names { program, script }))
                }
            },
        }
    }
}

/// A loss of the list.
fn loss_of(tree: &Value) -> Option<Loss>
    ensures { result ≡ loss_of (view tree.now) }
{
    if !has_members(tree, 3) {
        return None;
    }
    let at = whole(tree, "at", END_LIMIT)?;
    let from = whole(tree, "from", LAST_BOARD)?;
    let to = whole(tree, "to", LAST_BOARD)?;
    Some(Loss { at, from, to })
}

impl FromTree for Loss {
    ghost use Rattle.class_file.specs.Form.{loss_of};

    ghost of_tree = { loss_of };

    ghost is_sound = { λ _. Unit {0} };

    fn from_tree(_: Global, tree: &Value) -> Result<Option<Loss>, NoMemory> {
        Ok(loss_of(tree))
    }
}

/// The class that a tree is, where it has the form of one.
pub fn class_of(alloc: Global, tree: &Value) -> Result<Option<ClassFile>, NoMemory>
    ensures read { IfOk result (λ o. o ≡ class_of (view tree.now)) }
    ensures names { IfOk result (λ o. IfSome o (λ c. All AreTexts c.boards)) }
{
    if !has_members(tree, 3) {
        return Ok(None);
    }
    let end = match whole(tree, "end", END_LIMIT) {
        None => return Ok(None),
        Some(end) => end,
    };
    match list_of(alloc, tree, "boards")? {
        None => Ok(None),
        Some(boards) => match list_of(alloc, tree, "lose")? {
            None => Ok(None),
            Some(lose) => Ok(Some(ClassFile { end, boards, lose })),
        },
    }
}
