// The numbers of declarations by their owners and names.
ghost use Rattle.std.specs.Prelude.{◌≡◌, ℕ, ◌+◌, ◌<◌, ◌^◌, ◌&&◌, ◌==◌, Some, None, length, IfOk, OnOk, OnErr, if◌then◌else◌};
ghost use Rattle.std.specs.BTreeMap.{get};
ghost use Rattle.std.specs.Ordering.{nat_cmp};
ghost use Rattle.sts_scope.specs.declared.entries.Owner.{Owner as Belonging};
ghost use Rattle.sts_scope.specs.Lookup.{same_owner};
ghost use Rattle.persistent_maps.specs.Maps.{value_in};
ghost use Rattle.std.specs.Option.{option_or};
ghost use Rattle.sts_scope.specs.Symbols.{Notes, number_at, member_at};

use crate::Owner;
use crate::lines::put_members;
use persistent_maps::PersistentMap;
use std::alloc::Global;
use std::collections::BTreeMap;
use sts_base::NoMemory;

/// Numbers for some of the names of the whole text and of each class.
#[derive(Drop)]
pub struct Numbers {
    pub alloc: Global,
    /// for names of the whole text
    pub whole: BTreeMap<u32, usize>,
    /// for names of the members of each class; a class past the end has none
    pub classes: Vec<BTreeMap<u32, usize>>,
}

/// The number of a name.
fn number_of(numbers: &BTreeMap<u32, usize>, x: u32) -> Option<usize>
    ensures { result ≡ get nat_cmp numbers.now x }
{
    match numbers.get(&x) {
        None => None,
        Some(d) => Some(*d),
    }
}

/// Notes a number for a name, unless it has one. After `NoMemory` nothing is noted.
fn note(numbers: &mut BTreeMap<u32, usize>, x: u32, d: usize) -> Result<(), NoMemory>
    ensures ok { OnOk result (Notes numbers.old numbers.new x d) }
    ensures err { OnErr result (numbers.new.entries ≡ numbers.old.entries) }
{
    if numbers.contains_key(&x) {
        return Ok(());
    }
    match numbers.insert(x, d) {
        Ok(_) => Ok(()),
        Err(_) => Err(NoMemory),
    }
}

/// Makes room for a class. No number is noted.
#[tactic(auto, using(crate::proofs::Symbols::member_room))]
fn make_room(
    alloc: Global,
    classes: &mut Vec<BTreeMap<u32, usize>>,
    c: usize,
) -> Result<(), NoMemory>
    requires { c < 2 ^ 32 }
    ensures room { OnOk result (c < length classes.new.items) }
    ensures same { (b y : ℕ) → member_at classes.new.items b y ≡ member_at classes.old.items b y }
{
    for _ in classes.len()..c + 1 {
        match classes.push(BTreeMap::new(alloc)) {
            Ok(()) => {}
            Err(_) => return Err(NoMemory),
        }
    }
    Ok(())
}

/// Notes a number for a name of a class's members, unless it has one. After `NoMemory` nothing is noted.
#[tactic(auto, using(crate::proofs::Symbols::member_noted))]
fn note_member(
    alloc: Global,
    classes: &mut Vec<BTreeMap<u32, usize>>,
    c: u32,
    x: u32,
    d: usize,
) -> Result<(), NoMemory>
    ensures ok { OnOk result ((b y : ℕ) → member_at classes.new.items b y
        ≡ option_or (member_at classes.old.items b y) (if c == b && (x == y) then Some d else None)) }
    ensures err { OnErr result ((b y : ℕ) → member_at classes.new.items b y ≡ member_at classes.old.items b y) }
{
    let at = c as usize;
    make_room(alloc, classes, at)?;
    note(&mut classes[at], x, d)
}

impl Numbers {
    /// No numbers.
    pub fn new(alloc: Global) -> Numbers
        ensures { (owner : Belonging) (x : ℕ) → number_at result owner x ≡ None }
    {
        Numbers {
            alloc,
            whole: BTreeMap::new(alloc),
            classes: Vec::new(alloc),
        }
    }

    /// The number of a name of an owner.
    pub fn get(&self, owner: Owner, x: u32) -> Option<usize>
        ensures { result ≡ number_at self.now owner x }
    {
        match owner {
            Owner::Whole => number_of(&self.whole, x),
            Owner::Class(c) => match self.classes.get(c as usize) {
                None => None,
                Some(numbers) => number_of(numbers, x),
            },
        }
    }

    /// Notes a number for a name of an owner, unless it has one. After `NoMemory` nothing is noted.
    pub fn note(&mut self, owner: Owner, x: u32, d: usize) -> Result<(), NoMemory>
        ensures ok { OnOk result ((other : Belonging) (y : ℕ) → number_at self.new other y
            ≡ option_or (number_at self.old other y) (if same_owner owner other && (x == y) then Some d else None)) }
        ensures err { OnErr result
            ((other : Belonging) (y : ℕ) → number_at self.new other y ≡ number_at self.old other y) }
    {
        match owner {
            Owner::Whole => note(&mut self.whole, x, d),
            Owner::Class(c) => note_member(self.alloc, &mut self.classes, c, x, d),
        }
    }

    /// Puts the numbers of the names of the class c over those of another map.
    pub fn put_members(&self, c: u32, base: &PersistentMap) -> Result<PersistentMap, NoMemory>
        ensures { IfOk result (λ made. (x : ℕ)
            → value_in made x ≡ option_or (member_at self.now.classes.items c x) (value_in base.now x)) }
    {
        match self.classes.get(c as usize) {
            None => base.share(),
            Some(own) => put_members(self.alloc, own, base),
        }
    }
}
