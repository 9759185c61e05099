// A list that another can be put behind.
ghost use Rattle.std.specs.Prelude.{◌≡◌, [], ◌∷◌, ◌++◌, length, IfOk, OnOk};

use std::alloc::Global;
use std::marker::Model;
use sts_base::{NoMemory, Seq};

/// Items that are accumulated. Contracts see the list of them.
#[derive(Drop)]
pub struct Accumulator<T> {
    items: Vec<T>,
}

impl<T> Model for Accumulator<T> {
    ghost use Rattle.std.specs.Prelude.{List};
    ghost use Rattle.std.specs.Coded.{coded_list};

    ghost Value = { List T };

    ghost coded = { coded_list T.code };

    ghost view = { λ accumulator. accumulator.items.items };
}

impl<T: Drop> Accumulator<T> {
    /// No items.
    pub fn new(alloc: Global) -> Accumulator<T>
        ensures { result ≡ [] }
    {
        Accumulator {
            items: Vec::new(alloc),
        }
    }

    /// How many there are.
    pub fn len(&self) -> usize
        ensures { result ≡ length self.now }
    {
        self.items.len()
    }

    /// Puts one behind them.
    pub fn push(&mut self, item: T) -> Result<(), NoMemory>
        ensures { OnOk result (self.new ≡ self.old ++ item ∷ []) }
    {
        match self.items.push(item) {
            Ok(()) => Ok(()),
            Err(_) => Err(NoMemory),
        }
    }

    /// Puts others behind them.
    pub fn append(&mut self, mut others: Accumulator<T>) -> Result<(), NoMemory>
        ensures { OnOk result (self.new ≡ self.old ++ others) }
    {
        match self.items.append(&mut others.items) {
            Ok(()) => Ok(()),
            Err(_) => Err(NoMemory),
        }
    }

    /// The list of them.
    pub fn into_seq(self, alloc: Global) -> Result<Seq<T>, NoMemory>
        ensures { IfOk result (λ all. all ≡ self) }
    {
        let mut all = Seq::new(alloc);
        for item in self.items {
            all.push(item)?;
        }
        Ok(all)
    }
}
