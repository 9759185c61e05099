// Values by the numbers of names.
ghost use Rattle.std.specs.Prelude.{◌≡◌, ℕ, ◌==◌, Some, None, [], OnOk, if◌then◌else◌};
ghost use Rattle.sts_scope.specs.Values.{value_at};

use std::alloc::Global;
use sts_base::NoMemory;

/// A value for some of the numbers.
#[derive(Drop)]
pub struct ByNumber {
    /// the value of each number, where it has one
    pub values: Vec<Option<u32>>,
}

impl ByNumber {
    /// No number has a value.
    pub fn new(alloc: Global) -> ByNumber
        ensures { result.values.items ≡ [] }
    {
        ByNumber {
            values: Vec::new(alloc),
        }
    }

    /// The value of a number.
    pub fn get(&self, x: u32) -> Option<u32>
        ensures { result ≡ value_at self.now.values.items x }
    {
        match self.values.get(x as usize) {
            None => None,
            Some(value) => *value,
        }
    }

    /// Gives a number a value.
    pub fn set(&mut self, x: u32, value: u32) -> Result<(), NoMemory>
        ensures { OnOk result ((y : ℕ)
            → value_at self.new.values.items y ≡ (if y == x then Some value else value_at self.old.values.items y)) }
    {
        let at = x as usize;
        for _ in self.values.len()..at + 1 {
            match self.values.push(None) {
                Ok(()) => {}
                Err(_) => return Err(NoMemory),
            }
        }
        self.values[at] = Some(value);
        Ok(())
    }
}
