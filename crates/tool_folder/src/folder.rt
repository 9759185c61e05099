// A folder of files, by what it tells of each file, by the names that it was asked for, and by a count of its faults.
ghost use Rattle.std.specs.Prelude.{◌≡◌, ◌≤◌, List, ℕ, IfOk, IsErrOf};
ghost use Rattle.std.specs.Option.{ForSome};
ghost use Rattle.std.specs.declared.option.Option.{Option};

use std::alloc::Global;

/// What there is of a file.
#[derive(Drop)]
pub enum Found {
    /// All its bytes.
    Whole(Vec<u8>),
    /// There is no file of that name.
    Missing,
    /// The file has more bytes than were allowed.
    TooLong,
}

/// Why a fetch has no answer.
#[derive(Clone, Copy, Debug, PartialEq, Eq, Drop)]
pub enum FetchFault {
    /// The folder failed.
    Failed,
    NoMemory,
}

/// A folder that files are fetched from.
pub trait Folder {
    ghost use Rattle.sts_base.specs.Faults.{Rose};
    ghost use Rattle.tool_folder.specs.Fetching.{IsFoundOf, IsWithinLimit};
    ghost use Rattle.tool_folder.specs.Noting.{HasNoted};

    /// The bytes of the file of that name, or that there is none, where the folder tells.
    ghost holds: { Self → List ℕ → Option (Option (List ℕ)) };

    /// The names that the folder was asked for, in their order.
    ghost asked: { Self → List (List ℕ) };

    /// How often the folder has failed.
    ghost faults: { Self → ℕ };

    /// The file of that name, if it has at most `limit` bytes. Its answer agrees with what the folder tells, and the
    /// content of the folder stays. `Failed` comes only where the count of faults rose, and with every other answer the count is as it was. Whatever the answer, the name is noted; but for `NoMemory`,
    /// where there may have been none for that.
    fn fetch(&mut self, alloc: Global, name: &str, limit: usize) -> Result<Found, FetchFault>
        ensures content { IfOk result
            (λ found. ForSome (holds self.old name.now) (λ content. IsFoundOf content limit found)) }
        ensures within { IfOk result (λ found. IsWithinLimit limit found) }
        ensures stays { (file : List ℕ) → holds self.new file ≡ holds self.old file }
        ensures noted { HasNoted (asked self.old) (asked self.new) name.now (IsErrOf result FetchFault.NoMemory) }
        ensures later { faults self.old ≤ faults self.new }
        ensures failed { IsErrOf result FetchFault.Failed → Rose (faults self.old) (faults self.new) }
        ensures uncounted { (IsErrOf result FetchFault.Failed → ⊥) → faults self.new ≡ faults self.old };
}
