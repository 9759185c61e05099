// Parameters and locals in scope, which are found by their names.
ghost use Rattle.std.specs.Prelude.{◌≡◌, List, [], ◌∷◌, ◌++◌, length, take, slice_get, IfOk, OnOk};
ghost use Rattle.sts_scope.specs.Places as name;
ghost use Rattle.sts_scope.specs.declared.known.Local.{Local};
ghost use Rattle.type_derive.specs.Named.{AreNamed, in_scope, is_at, local_found};

use persistent_maps::PersistentMap;
use std::alloc::Global;
use std::marker::Model;
use sts_base::NoMemory;
use sts_scope::{Found, Local};

/// Where a block began: how many locals of the function were in scope, and where the block around it begins.
#[derive(Clone, Copy)]
pub struct Mark {
    /// how many locals of the function were in scope
    pub locals: usize,
    /// those of the function from here on are of the block around it
    pub block: usize,
}

/// The parameters and locals of the function that are in scope, outermost first, and those of the functions around, which are lent, so that none is
/// copied. All are found by their names in one map. A function that stands in this one begins with that map and makes further ones of it, which leave it as it is.
#[derive(Drop)]
pub struct Locals<'a> {
    alloc: Global,
    /// those of each function around, outermost first: contracts alone see them
    around: Vec<&'a [Local]>,
    /// those of this function
    own: Vec<Local>,
    /// those of this function from here on are of this block
    block: usize,
    /// for each name in scope, the place of its innermost local among those of its function
    innermost: PersistentMap,
    /// that map as it was before each local of this function
    before: Vec<PersistentMap>,
}

impl<'a> Model for Locals<'a> {
    ghost use Rattle.type_derive.specs.Named.{AreNamed, InScope, around_of, in_scope};

    ghost Value = { InScope };

    ghost view = { λ l. in_scope (around_of l.around.items) l.own.items l.block };

    ghost invariant = { λ l. AreNamed (around_of l.around.items) l.own.items l.innermost l.before.items };
}

/// The same lists once more, and one behind them.
fn lent<'a>(
    alloc: Global,
    around: &[&'a [Local]],
    inner: &'a [Local],
) -> Result<Vec<&'a [Local]>, NoMemory>
    ensures { IfOk result (λ all. all.items ≡ around.now ++ inner.entry ∷ []) }
{
    let mut all = Vec::new(alloc);
    for k in 0..around.len() {
        if all.push(around[k]).is_err() {
            return Err(NoMemory);
        }
    }
    match all.push(inner) {
        Ok(()) => Ok(all),
        Err(_) => Err(NoMemory),
    }
}

/// Whether a function has a local of a name at a place.
fn is_at(own: &[Local], i: usize, x: u32) -> bool
    ensures { result ≡ is_at own.now i x }
{
    match own.get(i) {
        None => false,
        Some(local) => local.name == x,
    }
}

/// Takes away the locals of a function from the n-th on. Names stand for what they stood for before it.
fn take_back(
    own: &mut Vec<Local>,
    innermost: &mut PersistentMap,
    before: &mut Vec<PersistentMap>,
    n: usize,
)
    ensures rest { own.new.items ≡ take n own.old.items }
    ensures named { (around : List Local) → AreNamed around own.old.items innermost.old before.old.items
        → AreNamed around own.new.items innermost.new before.new.items }
{
    if n < own.len() {
        own.truncate(n);
        before.truncate(n + 1);
        if let Some(earlier) = before.pop() {
            *innermost = earlier;
        }
    }
}

impl<'a> Locals<'a> {
    /// No locals.
    pub fn new(alloc: Global) -> Locals<'a>
        ensures { result ≡ in_scope [] [] 0 }
    {
        Locals {
            alloc,
            around: Vec::new(alloc),
            own: Vec::new(alloc),
            block: 0,
            innermost: PersistentMap::Empty,
            before: Vec::new(alloc),
        }
    }

    /// The function's local at a place, counted from its first one. None exactly past the end.
    pub fn get(&self, i: usize) -> Option<Local>
        ensures { result ≡ slice_get self.now.own i }
    {
        match self.own.get(i) {
            None => None,
            Some(local) => Some(*local),
        }
    }

    /// What a name stands for, if a local has it: the function's innermost one of that name, else one of a function around.
    pub fn named(&self, x: u32) -> Option<Found>
        ensures { result ≡ local_found self.now x }
    {
        match self.innermost.get(x) {
            None => None,
            Some(i) => {
                if is_at(self.own.as_slice(), i, x) {
                    Some(Found::Local(i))
                } else {
                    Some(Found::Captured)
                }
            }
        }
    }

    /// Whether a local of a name stands in the block.
    pub fn is_twice(&self, x: u32) -> bool
        ensures { result ≡ name.is_from self.now.block (name.last_named self.now.own x) }
    {
        match self.innermost.get(x) {
            None => false,
            Some(i) => self.block <= i && is_at(self.own.as_slice(), i, x),
        }
    }

    /// The locals that a function in this one begins with: those in scope here are around it.
    pub fn inside(&'a self, alloc: Global) -> Result<Locals<'a>, NoMemory>
        ensures { IfOk result (λ l. l ≡ in_scope (self.now.around ++ self.now.own) [] 0) }
    {
        let around = lent(alloc, self.around.as_slice(), self.own.as_slice())?;
        Ok(Locals {
            alloc,
            around,
            own: Vec::new(alloc),
            block: 0,
            innermost: self.innermost.share()?,
            before: Vec::new(alloc),
        })
    }

    /// Adds a local.
    pub fn push(&mut self, local: Local) -> Result<(), NoMemory>
        ensures { OnOk result (self.new ≡ record self.old { own = self.old.own ++ local ∷ [] }) }
    {
        let innermost = self.innermost.with(self.alloc, local.name, self.own.len())?;
        let before = self.innermost.share()?;
        if self.before.push(before).is_err() {
            return Err(NoMemory);
        }
        if self.own.push(local).is_err() {
            self.before.pop();
            return Err(NoMemory);
        }
        self.innermost = innermost;
        Ok(())
    }

    /// What stands around here, where no block begins.
    pub fn mark(&self) -> Mark
        ensures locals { result.locals ≡ length self.now.own }
        ensures block { result.block ≡ self.now.block }
    {
        Mark {
            locals: self.own.len(),
            block: self.block,
        }
    }

    /// A block begins.
    pub fn enter(&mut self)
        ensures { self.new ≡ record self.old { block = length self.old.own } }
    {
        self.block = self.own.len();
    }

    /// It ends: all is as it was at the mark.
    pub fn leave(&mut self, mark: Mark)
        ensures { self.new ≡ record self.old { own = take mark.locals self.old.own; block = mark.block } }
    {
        take_back(
            &mut self.own,
            &mut self.innermost,
            &mut self.before,
            mark.locals,
        );
        self.block = mark.block;
    }
}
