// Up to 32 values, with the memory for them.
ghost use Rattle.std.specs.Prelude.{◌≡◌, ◌<◌, ◌++◌, ◌∷◌, [], length, IfOk, nat_lt, not};

use std::alloc::Global;
use std::marker::Model;
use sts_base::NoMemory;

/// Up to 32 values in order. Their memory is taken when it is made.
#[derive(Drop)]
pub struct Slots<T> {
    items: Vec<T>,
}

impl<T> Model for Slots<T> {
    ghost use Rattle.std.specs.Prelude.{List, ◌≤◌, vec_len, vec_capacity};

    ghost Value = { List T };

    ghost view = { λ f. f.items.items };

    ghost invariant = { λ f. (32 ≤ vec_capacity f.items) × (vec_len f.items ≤ 32) };
}

impl<T: Copy> Slots<T> {
    /// None, with room for 32.
    pub fn new(alloc: Global) -> Result<Slots<T>, NoMemory>
        ensures { IfOk result (λ f. f ≡ []) }
    {
        match Vec::with_capacity(alloc, 32) {
            Ok(items) => Ok(Slots { items }),
            Err(_) => Err(NoMemory),
        }
    }

    /// Whether there is room for one more.
    pub fn has_room(&self) -> bool
        ensures { result ≡ nat_lt (length self.now) 32 }
    {
        self.items.len() < 32
    }

    /// One more, behind the others.
    pub fn push(&mut self, value: T)
        requires { length self.old < 32 }
        ensures { self.new ≡ self.old ++ value ∷ [] }
    {
        match self.items.push(value) {
            Ok(()) => {}
            Err(_) => unreachable!(),
        }
    }

    /// Lets all go.
    pub fn clear(&mut self)
        ensures { self.new ≡ [] }
    {
        self.items.clear();
    }

    /// All, in order.
    pub fn as_slice(&self) -> &[T]
        ensures { result.now ≡ self.now }
    {
        &self.items
    }
}
