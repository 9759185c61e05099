// A map that is made of another shares with it all but the way to its number.
ghost use Rattle.std.specs.Prelude.{◌≡◌, ℕ, ◌==◌, ◌+◌, ◌*◌, Some, IfOk, if◌then◌else◌};
ghost use Rattle.persistent_maps.specs.Maps.{value_among, value_in};

use std::alloc::Global;
use std::rc::Rc;
use sts_base::NoMemory;

/// A map from numbers to numbers.
#[cycle(map)]
pub enum PersistentMap {
    /// has no number
    Empty,
    /// has some
    Full(Rc<Node>),
}

/// A function of its own, so that who holds a map makes one call where it is dropped, and no choice between its forms.
impl Drop for PersistentMap {
    #[cycle(drop)]
    fn drop(self) {
        match self {
            PersistentMap::Empty => {}
            PersistentMap::Full(node) => drop(node),
        }
    }
}

/// The value of 0, and two smaller maps. The value of k + 1 is that of the half of k, in `even` where k is even, else in `odd`.
#[cycle(map)]
#[derive(Drop)]
pub struct Node {
    /// the value of 0
    pub value: Option<usize>,
    /// the map for the numbers behind even ones
    pub even: PersistentMap,
    /// the map for the numbers behind odd ones
    pub odd: PersistentMap,
}

/// A map of a value of 0 and two smaller maps.
fn joined(
    alloc: Global,
    value: Option<usize>,
    even: PersistentMap,
    odd: PersistentMap,
) -> Result<PersistentMap, NoMemory>
    ensures { IfOk result (λ map. (y : ℕ) → value_in map y ≡ value_among value (value_in even) (value_in odd) y) }
{
    match Rc::new(alloc, Node { value, even, odd }) {
        Ok(node) => Ok(PersistentMap::Full(node)),
        Err(_) => Err(NoMemory),
    }
}

impl PersistentMap {
    /// The value of a number.
    pub fn get(&self, x: u32) -> Option<usize>
        ensures { result ≡ value_in self.now x }
    {
        match self {
            PersistentMap::Empty => None,
            PersistentMap::Full(node) => {
                if x == 0 {
                    node.value
                } else if (x - 1) % 2 == 0 {
                    node.even.get((x - 1) / 2)
                } else {
                    node.odd.get((x - 1) / 2)
                }
            }
        }
    }

    /// The same map once more. Nothing is copied, and the answer is `NoMemory` only where it has as many owners as 64 bits count.
    pub fn share(&self) -> Result<PersistentMap, NoMemory>
        ensures { IfOk result (λ map. (y : ℕ) → value_in map y ≡ value_in self.now y) }
    {
        match self {
            PersistentMap::Empty => Ok(PersistentMap::Empty),
            PersistentMap::Full(node) => match node.clone() {
                Ok(node) => Ok(PersistentMap::Full(node)),
                Err(_) => Err(NoMemory),
            },
        }
    }

    /// The value of 0.
    fn value(&self) -> Option<usize>
        ensures { result ≡ value_in self.now 0 }
    {
        match self {
            PersistentMap::Empty => None,
            PersistentMap::Full(node) => node.value,
        }
    }

    /// The map for the numbers behind even ones.
    fn even(&self) -> Result<PersistentMap, NoMemory>
        ensures { IfOk result (λ map. (y : ℕ) → value_in map y ≡ value_in self.now (2 * y + 1)) }
    {
        match self {
            PersistentMap::Empty => Ok(PersistentMap::Empty),
            PersistentMap::Full(node) => node.even.share(),
        }
    }

    /// The map for the numbers behind odd ones.
    fn odd(&self) -> Result<PersistentMap, NoMemory>
        ensures { IfOk result (λ map. (y : ℕ) → value_in map y ≡ value_in self.now (2 * y + 2)) }
    {
        match self {
            PersistentMap::Empty => Ok(PersistentMap::Empty),
            PersistentMap::Full(node) => node.odd.share(),
        }
    }

    /// A map in which a number has this value, and the others have what they have here.
    pub fn with(&self, alloc: Global, x: u32, value: usize) -> Result<PersistentMap, NoMemory>
        ensures { IfOk result (λ map. (y : ℕ) → value_in map y ≡ (if x == y then Some value else value_in self.now y)) }
    {
        let even = self.even()?;
        let odd = self.odd()?;
        if x == 0 {
            return joined(alloc, Some(value), even, odd);
        }
        let k = x - 1;
        if k % 2 == 0 {
            joined(alloc, self.value(), even.with(alloc, k / 2, value)?, odd)
        } else {
            joined(alloc, self.value(), even, odd.with(alloc, k / 2, value)?)
        }
    }
}
