// Reading a JSON tree.
ghost use Rattle.std.specs.Prelude.{◌≡◌, ◌≤◌, Err, IfOk, IfSome, All, List, ℕ, option_map};
ghost use Rattle.std.specs.Str.{IsUtf8};
ghost use Rattle.std.specs.declared.option.Option.{Option};
ghost use Rattle.serde_json.specs.Data.{Data};
ghost use Rattle.serde_json.specs.View.{view, items_view};
ghost use Rattle.event_script.specs.Json.{IsTree};
ghost use Rattle.event_script.specs.Trees.{whole, text_of, says, has_members, items_of, list_of};

use serde_json::Value;
use std::alloc::Global;
use sts_base::{NoMemory, Seq};

/// Why there is no tree of bytes.
#[derive(Clone, Copy, Debug, PartialEq, Eq)]
pub enum TreeRefused {
    /// They are no JSON.
    NotJson,
    NoMemory,
}

/// What is read from JSON trees.
pub trait FromTree: Drop {
    /// What a tree stands for, where it has the form.
    ghost of_tree: { Data → Option Self };

    /// What is known besides of whatever is read.
    ghost is_sound: { Self → Type 0 };

    /// What the tree stands for. None comes exactly where it hasn't the form.
    fn from_tree(alloc: Global, tree: &Value) -> Result<Option<Self>, NoMemory>
        ensures read { IfOk result (λ o. o ≡ of_tree (view tree.now)) }
        ensures sound { IfOk result (λ o. IfSome o is_sound) };
}

/// The tree of a file's bytes.
pub fn tree_of(alloc: Global, bytes: &[u8]) -> Result<Value, TreeRefused>
    ensures ok { IfOk result (λ value. IsTree bytes.now (view value)) }
    ensures not_json { result ≡ Err TreeRefused.NotJson → (tree : Data) → ¬ IsTree bytes.now tree }
{
    match Value::from_slice(alloc, bytes) {
        Ok(value) => Ok(value),
        Err(error) => if error.is_memory() {
            Err(TreeRefused::NoMemory)
        } else {
            Err(TreeRefused::NotJson)
        },
    }
}

/// The number of a member, where it is a whole number up to the greatest.
pub fn whole(tree: &Value, name: &str, most: u32) -> Option<u32>
    ensures number { result ≡ whole most name.now (view tree.now) }
    ensures within { IfSome result (λ n. n ≤ most) }
{
    match tree.get(name).and_then(Value::as_u64) {
        None => None,
        Some(number) => if number <= u64::from(most) {
            Some(number as u32)
        } else {
            None
        },
    }
}

/// The text of a member, where it is one.
pub fn text_of<'a>(tree: &'a Value, name: &str) -> Option<&'a str>
    ensures text { option_map (λ s. s.now) result ≡ text_of name.now (view tree.now) }
    ensures utf8 { IfSome result (λ s. IsUtf8 s.now) }
{
    tree.get(name).and_then(Value::as_str)
}

/// Whether a member is this text.
pub fn says(tree: &Value, name: &str, text: &str) -> bool
    ensures { result ≡ says name.now text.now (view tree.now) }
{
    match text_of(tree, name) {
        None => false,
        Some(found) => found == text,
    }
}

/// Whether it is an object of so many members.
pub fn has_members(tree: &Value, count: usize) -> bool
    ensures { result ≡ has_members count (view tree.now) }
{
    match tree.as_object() {
        None => false,
        Some(members) => members.len() == count,
    }
}

/// All items, where each has its form.
fn items_of<X: FromTree>(alloc: Global, trees: &[Value]) -> Result<Option<Seq<X>>, NoMemory>
    ensures read { IfOk result (λ o. o ≡ items_of X.of_tree (items_view trees.now)) }
    ensures sound { IfOk result (λ o. IfSome o (All X.is_sound)) }
{
    let mut items = Seq::new(alloc);
    for tree in trees {
        match X::from_tree(alloc, tree)? {
            None => return Ok(None),
            Some(item) => items.push(item)?,
        }
    }
    Ok(Some(items))
}

/// The items of a member, where it is a list and each has its form.
pub fn list_of<X: FromTree>(
    alloc: Global,
    tree: &Value,
    name: &str,
) -> Result<Option<Seq<X>>, NoMemory>
    ensures read { IfOk result (λ o. o ≡ list_of X.of_tree name.now (view tree.now)) }
    ensures sound { IfOk result (λ o. IfSome o (All X.is_sound)) }
{
    match tree.get(name).and_then(Value::as_array) {
        None => Ok(None),
        Some(trees) => items_of(alloc, trees.as_slice()),
    }
}
