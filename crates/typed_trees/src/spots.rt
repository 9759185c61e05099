// Where the values of a function's locals are.
ghost use Rattle.std.specs.Prelude.{◌≡◌, ◌∷◌, ◌++◌, [], length, take, slice_get, OnOk};

use std::alloc::Global;
use std::marker::Model;
use sts_base::NoMemory;
use sts_syntax::Spot;

/// Where the value of each local of the function is that is in scope. Contracts see the list of all.
#[derive(Drop)]
pub struct Spots {
    list: Vec<Spot>,
}

impl Model for Spots {
    ghost use Rattle.std.specs.Prelude.{List};
    ghost use Rattle.sts_syntax.specs.declared.typed.Spot.{Spot};

    ghost Value = { List Spot };

    ghost view = { λ s. s.list.items };
}

impl Spots {
    /// No locals.
    pub fn new(alloc: Global) -> Spots
        ensures { result ≡ [] }
    {
        Spots {
            list: Vec::new(alloc),
        }
    }

    /// How many there are.
    pub fn len(&self) -> usize
        ensures { result ≡ length self.now }
    {
        self.list.len()
    }

    /// Where the value of a local is, by its place among the function's own. None exactly past the end.
    pub fn get(&self, i: usize) -> Option<Spot>
        ensures { result ≡ slice_get self.now i }
    {
        match self.list.get(i) {
            None => None,
            Some(spot) => Some(*spot),
        }
    }

    /// Adds a local's.
    pub fn push(&mut self, spot: Spot) -> Result<(), NoMemory>
        ensures { OnOk result (self.new ≡ self.old ++ spot ∷ []) }
    {
        match self.list.push(spot) {
            Ok(()) => Ok(()),
            Err(_) => Err(NoMemory),
        }
    }

    /// Takes away those from the n-th on.
    pub fn truncate(&mut self, n: usize)
        ensures { self.new ≡ take n self.old }
    {
        self.list.truncate(n);
    }
}
