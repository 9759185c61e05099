// A folder in memory, which fails at the calls that it is told to.
ghost use Rattle.std.specs.Prelude.{◌≡◌, ◌≢◌, ◌≤◌, ◌↔◌, ◌++◌, ◌∷◌, [], List, ℕ, Some, None, OnOk, OnErr, IfOk, IsErrOf, Contains};
ghost use Rattle.std.specs.Option.{ForSome};

use crate::files::Files;
use crate::noting::note;
use crate::{FetchFault, Folder, Found};
use std::alloc::Global;
use sts_base::{NoMemory, Seq};

/// A folder in memory. The calls of `fetch` whose numbers, from 1, stand in its list of failing calls fail where there is memory to note the name,
/// and no others do.
#[derive(Drop)]
pub struct MemoryFolder {
    files: Files,
    asked: Seq<String>,
    failing: Seq<u64>,
    calls: u64,
    faults: u64,
}

impl MemoryFolder {
    ghost use Rattle.tool_folder.specs.Memory.{bytes_named};

    /// An empty folder, which was asked for nothing, without faults, whose calls of these numbers, from 1, are to fail.
    pub fn new(alloc: Global, failing: Seq<u64>) -> Result<MemoryFolder, NoMemory>
        ensures empty { IfOk result (λ folder. (file : List ℕ) → bytes_named folder.files.by_name file ≡ None) }
        ensures asked { IfOk result (λ folder. folder.asked ≡ []) }
        ensures failing { IfOk result (λ folder. folder.failing ≡ failing) }
        ensures calls { IfOk result (λ folder. folder.calls ≡ 0) }
        ensures faults { IfOk result (λ folder. folder.faults ≡ 0) }
    {
        Ok(MemoryFolder {
            files: Files::new(alloc),
            asked: Seq::new(alloc),
            failing,
            calls: 0,
            faults: 0,
        })
    }

    /// Adds a file, in the place of one of that name. After `NoMemory` the folder is unchanged.
    pub fn add(&mut self, alloc: Global, name: &str, bytes: &[u8]) -> Result<(), NoMemory>
        ensures added { OnOk result (bytes_named self.new.files.by_name name.now ≡ Some bytes.now) }
        ensures others { (file : List ℕ) → file ≢ name.now
            → bytes_named self.new.files.by_name file ≡ bytes_named self.old.files.by_name file }
        ensures unchanged { OnErr result
            (bytes_named self.new.files.by_name name.now ≡ bytes_named self.old.files.by_name name.now) }
        ensures asked { self.new.asked ≡ self.old.asked }
        ensures failing { self.new.failing ≡ self.old.failing }
        ensures calls { self.new.calls ≡ self.old.calls }
        ensures faults { self.new.faults ≡ self.old.faults }
    {
        self.files.add(alloc, name, bytes)
    }

    /// The names that it was asked for, in their order.
    pub fn asked(&self) -> &[String]
        ensures { result.now ≡ self.now.asked }
    {
        self.asked.as_slice()
    }
}

impl Folder for MemoryFolder {
    ghost use Rattle.sts_base.specs.Faults.{Rose, one_more};
    ghost use Rattle.tool_folder.specs.Fetching.{IsFoundOf, IsWithinLimit};
    ghost use Rattle.tool_folder.specs.Memory.{bytes_named};
    ghost use Rattle.tool_folder.specs.Noting.{HasNoted, names_in};

    ghost holds = { λ folder file. Some (bytes_named folder.files.by_name file) };

    ghost asked = { λ folder. names_in folder.asked };

    ghost faults = { λ folder. folder.faults };

    fn fetch(&mut self, alloc: Global, name: &str, limit: usize) -> Result<Found, FetchFault>
        ensures content { IfOk result (λ found.
            ForSome (Some (bytes_named self.old.files.by_name name.now)) (λ content. IsFoundOf content limit found)) }
        ensures within { IfOk result (λ found. IsWithinLimit limit found) }
        ensures stays { (file : List ℕ)
            → Some (bytes_named self.new.files.by_name file) ≡ Some (bytes_named self.old.files.by_name file) }
        ensures noted { HasNoted (names_in self.old.asked) (names_in self.new.asked) name.now
            (IsErrOf result FetchFault.NoMemory) }
        ensures later { self.old.faults ≤ self.new.faults }
        ensures failed { IsErrOf result FetchFault.Failed → Rose self.old.faults self.new.faults }
        ensures failing { self.new.failing ≡ self.old.failing }
        ensures calls { self.new.calls ≡ one_more self.old.calls }
        ensures exact { IsErrOf result FetchFault.Failed
            ↔ ((names_in self.new.asked ≡ names_in self.old.asked ++ name.now ∷ [])
            × Contains self.old.failing self.new.calls) }
        ensures counted { IsErrOf result FetchFault.Failed → self.new.faults ≡ one_more self.old.faults }
        ensures uncounted { (IsErrOf result FetchFault.Failed → ⊥) → self.new.faults ≡ self.old.faults }
    {
        self.calls = self.calls.saturating_add(1);
        if note(alloc, &mut self.asked, name).is_err() {
            return Err(FetchFault::NoMemory);
        }
        if self.failing.as_slice().contains(&self.calls) {
            self.faults = self.faults.saturating_add(1);
            return Err(FetchFault::Failed);
        }
        match self.files.fetch(alloc, name, limit) {
            Ok(found) => Ok(found),
            Err(NoMemory) => Err(FetchFault::NoMemory),
        }
    }
}
