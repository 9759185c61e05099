// The command `check`.
ghost use Rattle.std.specs.Prelude.{◌≡◌, ◌≤◌};
ghost use Rattle.sts_base.specs.Faults.{Rose};
ghost use Rattle.run_tool.specs.Answers.{IsFailureTold};
ghost use Rattle.run_tool.specs.inner.{GivesOneOf, FoundNoMemory};
ghost use Rattle.run_tool.specs.Programs.{ChecksText};
ghost use Rattle.run_tool.specs.Wanted.{HasAsked, WantsFile, wants_none};
ghost use Rattle.run_tool.specs.Files.{told_by, AnswersFile};

use crate::ending::{Ending, Status};
use crate::fetched::text_of;
use crate::said::{say, say_refusal};
use std::alloc::Global;
use tool_folder::Folder;
use tool_io::Sink;
use typed_program::accept;

/// Says whether a text is accepted.
fn check_text<K: Sink>(alloc: Global, text: &[u8], out: &mut K) -> Ending
    ensures { GivesOneOf K.taken K.faults out.old out.new (ChecksText text.now) result }
{
    match accept(alloc, text) {
        Ok(_) => say(out, Status::Done, b"accepted\n"),
        Err(why) => say_refusal(out, text, why),
    }
}

/// The command `check`.
pub fn check<F: Folder, K: Sink>(alloc: Global, name: &str, folder: &mut F, out: &mut K) -> Ending
    ensures answer { GivesOneOf K.taken K.faults out.old out.new
        (AnswersFile (told_by F.holds F.faults folder.old folder.new) name.now ChecksText) result }
    ensures asked { HasAsked F.asked folder.old folder.new
        (WantsFile (told_by F.holds F.faults folder.old folder.new) (FoundNoMemory result)
        name.now (λ text. wants_none)) }
    ensures folder_later { F.faults folder.old ≤ F.faults folder.new }
    ensures failure { IsFailureTold (F.faults folder.old) (F.faults folder.new) result }
{
    match text_of(alloc, name, folder, out) {
        Ok(text) => check_text(alloc, &text, out),
        Err(ending) => ending,
    }
}
