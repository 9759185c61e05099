// The names of globals, functions and classes, and the bases of classes.
ghost use Rattle.std.specs.Prelude.{◌≡◌, ℕ, ◌≤◌, ◌||◌, length, drop, is_some, OnOk, IfErr};
ghost use Rattle.sts_scope.specs.declared.entries.Owner.TheVariants as o;
ghost use Rattle.sts_scope.specs.Values.{value_at};
ghost use Rattle.sts_scope.specs.Failures.{Finds};
ghost use Rattle.sts_scope.specs.Lookup.{declares};
ghost use Rattle.sts_scope.specs.Globals.{name_failure, names_failure};
ghost use Rattle.sts_scope.specs.Bases.{base_failure, bases_failure, chain_failure, chains_failure};

use std::alloc::Global;
use sts_base::{Code, Refused, Tables};
use sts_scope::{ByNumber, ClassHead, Entry, Environment, Owner, is_dollar, or_no_memory, unless};

/// Notes a declared name of the whole text.
fn note(seen: &mut ByNumber, e: &Entry) -> Result<(), Refused>
    ensures ok { OnOk result ((y : ℕ) → is_some (value_at seen.new.values.items y)
        ≡ (declares o.Whole y e.now || is_some (value_at seen.old.values.items y))) }
    ensures err { IfErr result (λ e. e ≡ Refused.NoMemory) }
{
    match e.owner {
        Owner::Whole => or_no_memory(seen.set(e.name, 0)),
        Owner::Class(_) => Ok(()),
    }
}

/// A declared name of the whole text begins with no `$` and is no second one.
fn check_name(tables: &Tables, seen: &ByNumber, e: &Entry) -> Result<(), Refused>
    ensures { Finds result (name_failure tables.now.names e.now.owner e.now.name e.now.at
        (is_some (value_at seen.now.values.items e.now.name))) }
{
    match e.owner {
        Owner::Whole => {
            unless(!is_dollar(tables, e.name), Code::UnknownName, e.at)?;
            unless(seen.get(e.name).is_none(), Code::TwiceNamed, e.at)
        }
        Owner::Class(_) => Ok(()),
    }
}

/// All declared names of the text, behind those of the library.
pub fn check_names(alloc: Global, tables: &Tables, known: &Environment) -> Result<(), Refused>
    requires { known.now.library ≤ length known.now.entries }
    ensures { Finds result (names_failure tables.now.names known.now.entries known.now.library
        (drop known.now.library known.now.entries)) }
{
    let mut seen = ByNumber::new(alloc);
    let entries = known.entries().as_slice();
    for d in 0..known.library() {
        note(&mut seen, &entries[d])?;
    }
    for d in known.library()..entries.len() {
        check_name(tables, &seen, &entries[d])?;
        note(&mut seen, &entries[d])?;
    }
    Ok(())
}

/// A base that is written is a class.
fn check_base(class: &ClassHead) -> Result<(), Refused>
    ensures { Finds result (base_failure class.now) }
{
    match class.base_name {
        None => Ok(()),
        Some(_) => unless(class.base.is_some(), Code::UnknownName, class.base_at),
    }
}

/// The bases of the classes from one on.
pub fn check_bases(classes: &[ClassHead], from: usize) -> Result<(), Refused>
    requires { from ≤ length classes.now }
    ensures { Finds result (bases_failure (drop from classes.now)) }
{
    for c in from..classes.len() {
        check_base(&classes[c])?;
    }
    Ok(())
}

/// No chain of bases comes back, of the classes from one on.
pub fn check_chains(known: &Environment, from: usize) -> Result<(), Refused>
    requires { from ≤ length known.now.classes }
    ensures { Finds result (chains_failure known.now.classes from (drop from known.now.classes)) }
{
    let classes = known.classes();
    for c in from..classes.len() {
        unless(!known.is_endless(c), Code::ClassCycle, classes[c].at)?;
    }
    Ok(())
}
