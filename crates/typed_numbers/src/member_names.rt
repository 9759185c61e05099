// The names of a class's fields and slots, in the order of their numbers, and the numbers of globals.
ghost use Rattle.std.specs.Prelude.{◌≡◌, ℕ, ◌++◌, ◌∷◌, [], ◌^◌, ◌<◌, ◌≤◌, Some, true, length, filter, not, take, IfOk};
ghost use Rattle.sts_scope.specs.Scopes as scope;
ghost use Rattle.sts_scope.specs.declared.entries.Owner.TheVariants.{Class};
ghost use Rattle.sts_scope.specs.Lookup as look;
ghost use Rattle.sts_scope.specs.Numbers as number;
ghost use Rattle.typed_numbers.specs.Building.{picks, chain_from, names_upto, globals_from};
ghost use Rattle.typed_numbers.specs.Counts.{counts_fit};

use std::alloc::Global;
use sts_base::{NoMemory, Seq};
use sts_scope::{DeclarationKind, Entry, Environment, Owner};

/// What of a class has numbers.
#[derive(Clone, Copy)]
pub enum Members {
    Fields,
    Methods,
}

impl Members {
    /// Whether it is such a member.
    fn pick(self, sort: DeclarationKind) -> bool
        ensures { result ≡ picks self (Some sort) }
    {
        match (self, sort) {
            (Members::Fields, DeclarationKind::Field) => true,
            (Members::Methods, DeclarationKind::Method) => true,
            _ => false,
        }
    }
}

/// Whether a declaration belongs to a class.
fn is_of(entry: &Entry, class: u32) -> bool
    ensures { result ≡ look.same_owner entry.now.owner (Class class) }
{
    match entry.owner {
        Owner::Whole => false,
        Owner::Class(c) => c == class,
    }
}

/// The names of a class's own members, in text order.
fn own_names(
    alloc: Global,
    which: Members,
    entries: &[Entry],
    class: u32,
) -> Result<Seq<u32>, NoMemory>
    ensures { IfOk result (λ names. names ≡ number.own_names (picks which) entries.now class) }
{
    let mut names = Seq::new(alloc);
    for entry in entries {
        if is_of(entry, class) && which.pick(entry.sort) {
            names.push(entry.name)?;
        }
    }
    Ok(names)
}

fn is_listed(names: &[u32], name: u32) -> bool
    ensures { result ≡ number.is_listed names.now name }
{
    names.iter().any(|other| *other == name)
}

/// Names, and behind them those of others that aren't there yet.
fn with_new(alloc: Global, names: &[u32], more: &[u32]) -> Result<Seq<u32>, NoMemory>
    ensures { IfOk result (λ all. all ≡ number.added names.now more.now) }
{
    let mut all = copied(alloc, names)?;
    for name in more {
        if !is_listed(names, *name) {
            all.push(*name)?;
        }
    }
    Ok(all)
}

fn copied(alloc: Global, names: &[u32]) -> Result<Seq<u32>, NoMemory>
    ensures { IfOk result (λ all. all ≡ names.now) }
{
    let mut all = Seq::new(alloc);
    for name in names {
        all.push(*name)?;
    }
    Ok(all)
}

/// The base of a class.
pub fn base_of(known: &Environment, class: u32) -> Option<u32>
    ensures { result ≡ look.base_of known.now.classes class }
{
    match known.classes().get(class as usize) {
        None => None,
        Some(head) => head.base,
    }
}

/// A class and its bases, the nearest first.
fn chain(alloc: Global, known: &Environment, class: u32) -> Result<Seq<u32>, NoMemory>
    ensures { IfOk result (λ all. all ≡ chain_from known.now (length known.now.classes) class) }
{
    let mut all = Seq::new(alloc);
    let mut at = Some(class);
    for _ in 0..known.classes().len() {
        let Some(class) = at else {
            break;
        };
        all.push(class)?;
        at = base_of(known, class);
    }
    Ok(all)
}

/// The names of a class's fields or methods, its bases' first: each stands at its number.
#[tactic(auto, using(crate::proofs::Chains::names_chain))]
pub fn class_names(
    alloc: Global,
    which: Members,
    known: &Environment,
    class: u32,
) -> Result<Seq<u32>, NoMemory>
    ensures { IfOk result
        (λ names. names ≡ number.names_from (picks which) known.now (length known.now.classes) class) }
{
    let classes = chain(alloc, known, class)?;
    let classes = classes.as_slice();
    let mut names = Seq::new(alloc);
    for i in 0..classes.len() {
        let nearer = classes[classes.len() - 1 - i];
        let own = own_names(alloc, which, known.entries().as_slice(), nearer)?;
        names = with_new(alloc, names.as_slice(), own.as_slice())?;
    }
    Ok(names)
}

/// The names of each class's fields or methods.
pub fn all_names(
    alloc: Global,
    which: Members,
    known: &Environment,
) -> Result<Seq<Seq<u32>>, NoMemory>
    requires few { length known.now.classes ≤ 2 ^ 32 }
    ensures { IfOk result (λ all. all ≡ names_upto (picks which) known.now (length known.now.classes)) }
{
    let mut all = Seq::new(alloc);
    for class in 0..known.classes().len() {
        all.push(class_names(alloc, which, known, class as u32)?)?;
    }
    Ok(all)
}

pub fn is_global(sort: DeclarationKind) -> bool
    ensures { result ≡ scope.is_global sort }
{
    match sort {
        DeclarationKind::Global { fixed: _ } => true,
        DeclarationKind::Function
        | DeclarationKind::Class(_)
        | DeclarationKind::Field
        | DeclarationKind::Method => false,
    }
}

/// How many globals are declared before each declaration, and before the end.
fn globals_before(alloc: Global, entries: &[Entry]) -> Result<Seq<u32>, NoMemory>
    requires few { length (scope.names_of scope.is_global entries.now) < 2 ^ 32 }
    ensures { IfOk result (λ all. all ≡ globals_from 0 entries.now) }
{
    let mut all = Seq::new(alloc);
    let mut count = 0;
    for entry in entries {
        all.push(count)?;
        if is_global(entry.sort) {
            count += 1;
        }
    }
    all.push(count)?;
    Ok(all)
}

/// The names of each class's fields and slots, which stand at their numbers, and how many globals are declared before each declaration
/// and before the end.
#[derive(Drop)]
pub struct Names {
    pub fields: Seq<Seq<u32>>,
    pub slots: Seq<Seq<u32>>,
    pub globals: Seq<u32>,
}

/// The names of members, and the numbers of globals, of a whole program whose declarations are within the limits.
#[tactic(auto, using(crate::proofs::Few::few_classes, crate::proofs::Few::few_globals))]
pub fn names_of(alloc: Global, known: &Environment) -> Result<Names, NoMemory>
    requires counts { counts_fit known.now ≡ true }
    ensures fields { IfOk result
        (λ names. names.fields ≡ names_upto look.is_field known.now (length known.now.classes)) }
    ensures slots { IfOk result
        (λ names. names.slots ≡ names_upto number.is_method known.now (length known.now.classes)) }
    ensures globals { IfOk result (λ names. names.globals ≡ globals_from 0 known.now.entries) }
{
    Ok(Names {
        fields: all_names(alloc, Members::Fields, known)?,
        slots: all_names(alloc, Members::Methods, known)?,
        globals: globals_before(alloc, known.entries().as_slice())?,
    })
}

/// The number of a name among some, which 32 bits number; 0 where it isn't there.
pub fn place_among(names: &[u32], name: u32) -> u32
    requires few { length names.now ≤ 2 ^ 32 }
    ensures { result ≡ number.place_among names.now name }
{
    for (i, other) in names.iter().enumerate() {
        if *other == name {
            return i as u32;
        }
    }
    0
}
