// Files in memory, by name.
ghost use Rattle.std.specs.Prelude.{◌≡◌, ◌≢◌, ◌≤◌, List, ℕ, Some, None, OnOk, OnErr, IfOk, IsErrOf};

use crate::{FetchFault, Found};
use std::alloc::Global;
use std::collections::BTreeMap;
use sts_base::NoMemory;

/// Files by name.
#[derive(Drop)]
pub struct Files {
    pub by_name: BTreeMap<String, Vec<u8>>,
}

impl Files {
    ghost use Rattle.tool_folder.specs.Fetching.{IsFoundOf, IsWithinLimit};
    ghost use Rattle.tool_folder.specs.Memory.{bytes_named};

    pub fn new(alloc: Global) -> Files
        ensures { (file : List ℕ) → bytes_named result.by_name file ≡ None }
    {
        Files {
            by_name: BTreeMap::new(alloc),
        }
    }

    /// Adds a file, in the place of one of that name.
    pub fn add(&mut self, alloc: Global, name: &str, bytes: &[u8]) -> Result<(), NoMemory>
        ensures added { OnOk result (bytes_named self.new.by_name name.now ≡ Some bytes.now) }
        ensures others { (file : List ℕ) → file ≢ name.now
            → bytes_named self.new.by_name file ≡ bytes_named self.old.by_name file }
        ensures unchanged { OnErr result
            (bytes_named self.new.by_name name.now ≡ bytes_named self.old.by_name name.now) }
    {
        let (Ok(name), Ok(bytes)) = (String::from_str(alloc, name), Vec::from_slice(alloc, bytes))
        else {
            return Err(NoMemory);
        };
        match self.by_name.insert(name, bytes) {
            Ok(_) => Ok(()),
            Err(_) => Err(NoMemory),
        }
    }

    /// The file of that name, if it has at most `limit` bytes.
    pub fn fetch(&self, alloc: Global, name: &str, limit: usize) -> Result<Found, NoMemory>
        ensures content { IfOk result (λ found. IsFoundOf (bytes_named self.now.by_name name.now) limit found) }
        ensures within { IfOk result (λ found. IsWithinLimit limit found) }
    {
        match self.by_name.get(name) {
            None => Ok(Found::Missing),
            Some(bytes) if bytes.len() > limit => Ok(Found::TooLong),
            Some(bytes) => match Vec::from_slice(alloc, bytes) {
                Ok(whole) => Ok(Found::Whole(whole)),
                Err(_) => Err(NoMemory),
            },
        }
    }
}
