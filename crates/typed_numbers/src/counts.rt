// What of the counted limits the declarations of a program tell, before its trees are gone through.
ghost use Rattle.std.specs.Prelude.{◌≡◌, length, IfOk};
ghost use Rattle.std.specs.List.{list_all};
ghost use Rattle.sts_scope.specs.Scopes as scope;
ghost use Rattle.typed_numbers.specs.Counts as count;

use crate::member_names::{Members, all_names, is_global};
use std::alloc::Global;
use sts_base::{NoMemory, Seq};
use sts_scope::{Entry, Environment};

/// How many globals are declared.
fn global_count(entries: &[Entry]) -> usize
    ensures { result ≡ length (scope.names_of scope.is_global entries.now) }
{
    let mut count = 0;
    for entry in entries {
        if is_global(entry.sort) {
            count += 1;
        }
    }
    count
}

/// Whether none of some lists of names is longer than a class's may be.
fn are_short(lists: &[Seq<u32>]) -> bool
    ensures { result ≡ list_all count.is_short lists.now }
{
    for names in lists {
        if names.as_slice().len() > 30 {
            return false;
        }
    }
    true
}

/// Whether a program declares at most 64 classes and 256 globals, and no class has more than 30 fields or 30 slots, those of its bases included.
pub fn counts_fit(alloc: Global, known: &Environment) -> Result<bool, NoMemory>
    ensures { IfOk result (λ fits. fits ≡ count.counts_fit known.now) }
{
    if known.classes().len() > 64 {
        return Ok(false);
    }
    if global_count(known.entries().as_slice()) > 256 {
        return Ok(false);
    }
    let fields = all_names(alloc, Members::Fields, known)?;
    let slots = all_names(alloc, Members::Methods, known)?;
    Ok(are_short(fields.as_slice()) && are_short(slots.as_slice()))
}
