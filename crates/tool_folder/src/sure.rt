// A folder that never fails.
ghost use Rattle.std.specs.Prelude.{◌≡◌, ◌≢◌, ◌≤◌, [], List, ℕ, Some, None, IfOk, OnOk, OnErr, IsErrOf};
ghost use Rattle.std.specs.Option.{ForSome};

use crate::files::Files;
use crate::noting::note;
use crate::{FetchFault, Folder, Found};
use std::alloc::Global;
use sts_base::{NoMemory, Seq};

/// A folder in memory that never fails.
#[derive(Drop)]
pub struct SureFolder {
    files: Files,
    asked: Seq<String>,
}

impl SureFolder {
    ghost use Rattle.tool_folder.specs.Memory.{bytes_named};

    /// An empty folder, which was asked for nothing.
    pub fn new(alloc: Global) -> Result<SureFolder, NoMemory>
        ensures empty { IfOk result (λ folder. (file : List ℕ) → bytes_named folder.files.by_name file ≡ None) }
        ensures asked { IfOk result (λ folder. folder.asked ≡ []) }
    {
        Ok(SureFolder {
            files: Files::new(alloc),
            asked: Seq::new(alloc),
        })
    }

    /// Adds a file, in the place of one of that name. After `NoMemory` the folder is unchanged.
    pub fn add(&mut self, alloc: Global, name: &str, bytes: &[u8]) -> Result<(), NoMemory>
        ensures added { OnOk result (bytes_named self.new.files.by_name name.now ≡ Some bytes.now) }
        ensures others { (file : List ℕ) → file ≢ name.now
            → bytes_named self.new.files.by_name file ≡ bytes_named self.old.files.by_name file }
        ensures unchanged { OnErr result
            (bytes_named self.new.files.by_name name.now ≡ bytes_named self.old.files.by_name name.now) }
        ensures asked { self.new.asked ≡ self.old.asked }
    {
        self.files.add(alloc, name, bytes)
    }
}

impl Folder for SureFolder {
    ghost use Rattle.tool_folder.specs.Fetching.{IsFoundOf, IsWithinLimit};
    ghost use Rattle.tool_folder.specs.Memory.{bytes_named};
    ghost use Rattle.tool_folder.specs.Noting.{HasNoted, names_in};

    ghost holds = { λ folder file. Some (bytes_named folder.files.by_name file) };

    ghost asked = { λ folder. names_in folder.asked };

    ghost faults = { λ folder. 0 };

    fn fetch(&mut self, alloc: Global, name: &str, limit: usize) -> Result<Found, FetchFault>
        ensures content { IfOk result (λ found.
            ForSome (Some (bytes_named self.old.files.by_name name.now)) (λ content. IsFoundOf content limit found)) }
        ensures within { IfOk result (λ found. IsWithinLimit limit found) }
        ensures stays { (file : List ℕ)
            → Some (bytes_named self.new.files.by_name file) ≡ Some (bytes_named self.old.files.by_name file) }
        ensures noted { HasNoted (names_in self.old.asked) (names_in self.new.asked) name.now
            (IsErrOf result FetchFault.NoMemory) }
        ensures later { 0 ≤ 0 }
        ensures failed { IsErrOf result FetchFault.Failed → ⊥ }
    {
        if note(alloc, &mut self.asked, name).is_err() {
            return Err(FetchFault::NoMemory);
        }
        match self.files.fetch(alloc, name, limit) {
            Ok(found) => Ok(found),
            Err(NoMemory) => Err(FetchFault::NoMemory),
        }
    }
}
