// Numbers of fields, slots and globals, and where the values of names are.
ghost use Rattle.std.specs.Prelude.{◌≡◌, IfOk, get_or, Some};
ghost use Rattle.sts_syntax.specs.declared.typed.Spot.TheVariants as spot;
ghost use Rattle.sts_scope.specs.Numbers as number;
ghost use Rattle.typed_trees.specs.Sites as s;
ghost use Rattle.typed_trees.specs.Sites.{IsPlan};

use crate::build_nodes::or_nothing;
use crate::build_numbers::names_at;
use crate::build_places::{Plan, Site};
use sts_base::NoMemory;
use sts_scope::{Found, Part, StaticType, class_of};
use sts_syntax::Spot;
use type_derive::part_of;
use typed_numbers::{Members, class_names, place_among};

/// The number of a class's field of a name. The names of a class that isn't there aren't kept: they are looked for anew.
#[tactic(auto, using(crate::proofs::Listed::names_there, crate::proofs::Listed::names_are, crate::proofs::Listed::fields_few, crate::proofs::Listed::behind_few))]
pub fn field_number(plan: &Plan, class: u32, name: u32) -> Result<u32, NoMemory>
    requires { IsPlan plan.now }
    ensures { IfOk result (λ n. n ≡ number.place_among (number.field_names plan.now.known.now class) name) }
{
    if (class as usize) < plan.known.classes().len() {
        Ok(place_among(names_at(&plan.names.fields, class), name))
    } else {
        let names = class_names(plan.alloc, Members::Fields, plan.known, class)?;
        Ok(place_among(names.as_slice(), name))
    }
}

/// The number of a class's slot of a name. The names of a class that isn't there aren't kept: they are looked for anew.
#[tactic(auto, using(crate::proofs::Listed::names_there, crate::proofs::Listed::names_are, crate::proofs::Listed::slots_few, crate::proofs::Listed::behind_few))]
pub fn slot_number(plan: &Plan, class: u32, name: u32) -> Result<u32, NoMemory>
    requires { IsPlan plan.now }
    ensures { IfOk result (λ n. n ≡ number.place_among (number.slot_names plan.now.known.now class) name) }
{
    if (class as usize) < plan.known.classes().len() {
        Ok(place_among(names_at(&plan.names.slots, class), name))
    } else {
        let names = class_names(plan.alloc, Members::Methods, plan.known, class)?;
        Ok(place_among(names.as_slice(), name))
    }
}

/// The number of a global by its declaration; behind the last declaration, how many globals there are.
#[tactic(auto, using(crate::proofs::Globals::globals_long, crate::proofs::Globals::global_there, crate::proofs::Globals::global_behind))]
pub fn global_number(plan: &Plan, d: usize) -> u32
    requires { IsPlan plan.now }
    ensures { result ≡ number.global_number plan.now.known.now d }
{
    let count = plan.known.entries().len();
    let at = if d < count { d } else { count };
    plan.names.globals.as_slice()[at]
}

/// Where the value of a local is.
fn local_spot(site: &Site, i: usize) -> Spot
    ensures { result ≡ get_or (s.site site.now).spots i (spot.Global 0) }
{
    match site.spots.get(i) {
        Some(at) => at,
        None => Spot::Global(0),
    }
}

/// Where the value of a name is.
pub fn spot_of(plan: &Plan, site: &Site, found: Found) -> Spot
    requires { IsPlan plan.now }
    ensures { result ≡ s.spot_of plan.now (s.site site.now) found }
{
    match found {
        Found::Local(i) => local_spot(site, i),
        Found::Global(d) => Spot::Global(global_number(plan, d)),
        Found::Captured | Found::Function(_) | Found::Class(_) | Found::Unknown => Spot::Global(0),
    }
}

/// What stands behind the dot of what has a type, or none.
pub fn part_behind(plan: &Plan, of: Option<StaticType>, name: u32) -> Part
    ensures { result ≡ s.part_behind plan.now of name }
{
    part_of(plan.tables, plan.known, or_nothing(of), name)
}

/// The class of what has a type, or none.
pub fn class_behind(of: Option<StaticType>) -> u32
    ensures { result ≡ s.class_behind of }
{
    match class_of(or_nothing(of)) {
        None => 0,
        Some(class) => class,
    }
}
