// The file that a command names.
ghost use Rattle.std.specs.Prelude.{◌≡◌, ◌≤◌, List, ℕ, Ok, IfOk, IfErr, OnOk, ◌⊎◌, ◌++◌, ◌∷◌, [], OnErr};
ghost use Rattle.run_tool.specs.inner.{FoundNoMemory, wants_never, GivesOneOf, none_to_read};
ghost use Rattle.sts_base.specs.Faults.{Rose};
ghost use Rattle.run_tool.specs.Wanted.{HasAsked, WantsFile};
ghost use Rattle.run_tool.specs.Files.{told_by, MayFetch, AnswersFile};
ghost use Rattle.run_tool.specs.Answers.{IsFailureTold};

use crate::ending::{Ending, Status};
use crate::said::say;
use std::alloc::Global;
use sts_base::NoMemory;
use tool_folder::{FetchFault, Folder, Found};
use tool_io::Sink;

/// The most bytes that a file may have.
const LIMIT: usize = 1_048_576;

/// What a fetch came to.
#[derive(Drop)]
pub enum Fetched {
    Text(Vec<u8>),
    Absent,
    Long,
    Failed,
}

/// Fetches the file of that name.
fn fetch<F: Folder>(alloc: Global, name: &str, folder: &mut F) -> Result<Fetched, NoMemory>
    ensures fetched { IfOk result
        (λ fetched. MayFetch (told_by F.holds F.faults folder.old folder.new) name.now fetched) }
    ensures asked { OnOk result (F.asked folder.new ≡ F.asked folder.old ++ name.now ∷ []) }
    ensures lacking { OnErr result ((F.asked folder.new ≡ F.asked folder.old ++ name.now ∷ [])
        ⊎ (F.asked folder.new ≡ F.asked folder.old)) }
    ensures stays { (file : List ℕ) → F.holds folder.new file ≡ F.holds folder.old file }
    ensures later { F.faults folder.old ≤ F.faults folder.new }
    ensures unfailed { (result ≡ Ok Fetched.Failed → ⊥) → F.faults folder.new ≡ F.faults folder.old }
{
    match folder.fetch(alloc, name, LIMIT) {
        Ok(Found::Whole(text)) => Ok(Fetched::Text(text)),
        Ok(Found::Missing) => Ok(Fetched::Absent),
        Ok(Found::TooLong) => Ok(Fetched::Long),
        Err(FetchFault::Failed) => Ok(Fetched::Failed),
        Err(FetchFault::NoMemory) => Err(NoMemory),
    }
}

/// The text of the file of that name, with nothing written. Where there is none, the answer that says so was given.
pub fn text_of<F: Folder, K: Sink>(
    alloc: Global,
    name: &str,
    folder: &mut F,
    out: &mut K,
) -> Result<Vec<u8>, Ending>
    ensures text { IfOk result
        (λ text. MayFetch (told_by F.holds F.faults folder.old folder.new) name.now (Fetched.Text text)) }
    ensures unwritten { OnOk result (K.taken out.new ≡ K.taken out.old) }
    ensures none { IfErr result (GivesOneOf K.taken K.faults out.old out.new
        (AnswersFile (told_by F.holds F.faults folder.old folder.new) name.now none_to_read)) }
    ensures asked { OnOk result (F.asked folder.new ≡ F.asked folder.old ++ name.now ∷ []) }
    ensures stopped { IfErr result (λ ending. HasAsked F.asked folder.old folder.new
        (WantsFile (told_by F.holds F.faults folder.old folder.new) (FoundNoMemory ending)
        name.now (λ text. wants_never))) }
    ensures stays { (file : List ℕ) → F.holds folder.new file ≡ F.holds folder.old file }
    ensures folder_later { F.faults folder.old ≤ F.faults folder.new }
    ensures unfailed { OnOk result (F.faults folder.new ≡ F.faults folder.old) }
    ensures failure { IfErr result (λ ending. IsFailureTold (F.faults folder.old) (F.faults folder.new) ending) }
    ensures later { K.faults out.old ≤ K.faults out.new }
{
    match fetch(alloc, name, folder) {
        Ok(Fetched::Text(text)) => Ok(text),
        Ok(Fetched::Absent) => Err(say(out, Status::Missing, b"missing\n")),
        Ok(Fetched::Long) => Err(say(out, Status::TooLong, b"too long\n")),
        Ok(Fetched::Failed) => Err(say(out, Status::FolderFailed, b"folder failed\n")),
        Err(NoMemory) => Err(Ending::NoMemory),
    }
}
