// Reading arrivals from a JSON tree.
ghost use Rattle.std.specs.Prelude.{◌≡◌, IfOk};
ghost use Rattle.serde_json.specs.View.{view};
ghost use Rattle.arrival_file.specs.Form.{may_arrive, arrival_of, arrivals_of};

use crate::Arrival;
use event_script::{Act, FromTree, Ordered, act_of, has_members, list_of, whole};
use serde_json::Value;
use std::alloc::Global;
use sts_base::{NoMemory, Seq};

/// The greatest number of instructions behind which an arrival may come.
const GREATEST_AFTER: u32 = 2_147_483_648;

/// Whether an act may arrive: all but an unplug.
fn may_arrive(act: Act) -> bool
    ensures { result ≡ may_arrive act }
{
    match act {
        Act::Down(_) | Act::Up(_) | Act::Raise(_) => true,
        Act::Unplug(_) => false,
    }
}

/// An arrival of the list.
fn arrival_of(tree: &Value) -> Option<Arrival>
    ensures { result ≡ arrival_of (view tree.now) }
{
    let after = whole(tree, "after", GREATEST_AFTER)?;
    let act = act_of(tree)?;
    if after > 0 && may_arrive(act) {
        Some(Arrival { after, act })
    } else {
        None
    }
}

impl FromTree for Arrival {
    ghost use Rattle.arrival_file.specs.Form.{arrival_of};

    ghost of_tree = { arrival_of };

    ghost is_sound = { λ _. Unit {0} };

    fn from_tree(_: Global, tree: &Value) -> Result<Option<Arrival>, NoMemory> {
        Ok(arrival_of(tree))
    }
}

impl Ordered for Arrival {
    ghost place = { λ a. a.after };

    fn place(&self) -> u32 {
        self.after
    }
}

/// The arrivals that a tree is, where it has their form.
pub fn arrivals_of(alloc: Global, tree: &Value) -> Result<Option<Seq<Arrival>>, NoMemory>
    ensures { IfOk result (λ o. o ≡ arrivals_of (view tree.now)) }
{
    if !has_members(tree, 1) {
        return Ok(None);
    }
    list_of(alloc, tree, "arrivals")
}
