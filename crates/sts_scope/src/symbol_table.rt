// Declarations, which are found by their owners and names.
ghost use Rattle.std.specs.Prelude.{◌≡◌, ℕ, IfOk, [], ◌∷◌, ◌++◌, ◌<◌, length, slice_get, OnOk, OnErr, OnSome};
ghost use Rattle.std.specs.Option.{option_copied};
ghost use Rattle.persistent_maps.specs.Maps.{value_in};
ghost use Rattle.sts_scope.specs.declared.entries.Owner.TheVariants as o;
ghost use Rattle.std.specs.Option.{option_or};
ghost use Rattle.sts_scope.specs.Lookup as look;

use crate::lookup::base_of;
use crate::numbers::Numbers;
use crate::{ClassHead, Entry, Owner};
use persistent_maps::PersistentMap;
use std::alloc::Global;
use std::marker::Model;
use sts_base::NoMemory;

/// Declarations in text order. Contracts see the list of them. The first one of a name of an owner is found in logarithmic time.
#[derive(Drop)]
pub struct SymbolTable {
    entries: Vec<Entry>,
    /// the number of the first declaration of each name of each owner
    numbers: Numbers,
}

impl Model for SymbolTable {
    ghost use Rattle.std.specs.Prelude.{List};
    ghost use Rattle.sts_scope.specs.declared.entries.Entry.{Entry};
    ghost use Rattle.sts_scope.specs.Symbols.{IsIndexed};

    ghost Value = { List Entry };

    ghost view = { λ table. table.entries.items };

    ghost invariant = { λ table. IsIndexed table.numbers table.entries.items };
}

impl SymbolTable {
    /// No declarations.
    pub fn new(alloc: Global) -> SymbolTable
        ensures { result ≡ [] }
    {
        SymbolTable {
            entries: Vec::new(alloc),
            numbers: Numbers::new(alloc),
        }
    }

    /// How many declarations there are.
    pub fn len(&self) -> usize
        ensures { result ≡ length self.now }
    {
        self.entries.len()
    }

    /// The declaration of a number. None exactly past the end.
    pub fn get(&self, d: usize) -> Option<&Entry>
        ensures value { option_copied result ≡ slice_get self.now d }
        ensures within { OnSome result (d < length self.now) }
    {
        self.entries.get(d)
    }

    /// All declarations, in text order.
    pub fn as_slice(&self) -> &[Entry]
        ensures { result.now ≡ self.now }
    {
        self.entries.as_slice()
    }

    /// Adds a declaration. After `NoMemory` none is added.
    pub fn push(&mut self, entry: Entry) -> Result<(), NoMemory>
        ensures ok { OnOk result (self.new ≡ self.old ++ entry ∷ []) }
        ensures err { OnErr result (self.new ≡ self.old) }
    {
        let owner = entry.owner;
        let name = entry.name;
        let d = self.entries.len();
        match self.entries.push(entry) {
            Ok(()) => {}
            Err(_) => return Err(NoMemory),
        }
        match self.numbers.note(owner, name, d) {
            Ok(()) => Ok(()),
            Err(NoMemory) => {
                self.entries.pop();
                Err(NoMemory)
            }
        }
    }

    /// The number of the first declaration of a name of an owner.
    pub fn number(&self, owner: Owner, x: u32) -> Option<usize>
        ensures { result ≡ look.entry_number self.now owner x }
    {
        self.numbers.get(owner, x)
    }

    /// Whether a declaration of a name of an owner stands before the d-th one.
    #[tactic(auto, using(crate::proofs::Symbols::second_is))]
    pub fn is_second(&self, d: usize, owner: Owner, x: u32) -> bool
        ensures { result ≡ look.is_second self.now d owner x }
    {
        match self.number(owner, x) {
            None => false,
            Some(first) => first < d,
        }
    }

    /// Puts the members of the class c over those of its base.
    #[tactic(auto, using(crate::proofs::Longer::own_put))]
    pub fn put_members(&self, c: u32, base: &PersistentMap) -> Result<PersistentMap, NoMemory>
        ensures { IfOk result (λ made. (x : ℕ)
            → value_in made x ≡ option_or (look.entry_number self.now (o.Class c) x) (value_in base.now x)) }
    {
        self.numbers.put_members(c, base)
    }

    /// The member of a name of a class: its own one, else that of the nearest base that has one.
    pub fn member(&self, classes: &[ClassHead], c: u32, x: u32) -> Option<usize>
        ensures { result ≡ look.member_number self.now classes.now c x }
    {
        let mut at = c;
        for _ in 0..classes.len() {
            if let Some(d) = self.number(Owner::Class(at), x) {
                return Some(d);
            }
            match base_of(classes, at as usize) {
                None => return None,
                Some(b) => at = b,
            }
        }
        None
    }
}
