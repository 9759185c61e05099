// The command `class`.
ghost use Rattle.std.specs.Prelude.{◌≡◌, ◌≤◌, ◌<◌, ℕ, List, All, length, IfOk, OnErr};
ghost use Rattle.std.specs.declared.option.Option.{Option};
ghost use Rattle.sts_base.specs.Faults.{Rose};
ghost use Rattle.board_world.specs.Simulation.{Paired};
ghost use Rattle.class_file.specs.Within.{AreTexts, IsWithinForm};
ghost use Rattle.class_radio.specs.Outcome.{setups_of};
ghost use Rattle.sts_words.specs.Orders.{IsBudget};
ghost use Rattle.run_tool.specs.Answers.{IsFailureTold};
ghost use Rattle.run_tool.specs.inner.{GivesOneOf, FoundNoMemory, CanRun, ending_of_class};
ghost use Rattle.run_tool.specs.ClassBoards.{BoardSource, classes};
ghost use Rattle.run_tool.specs.Class.{IsBuiltAs, RunsClass, RunsFile, RunsClassText};
ghost use Rattle.run_tool.specs.Wanted.{HasAsked, OrLacks, WantsBoards, WantsFile, wants_none, Onwards};
ghost use Rattle.run_tool.specs.Files.{told_by, AnswersFile};

use crate::class_boards::{Boards, boards_of};
use crate::classes::class_in;
use crate::ending::{Ending, Status};
use crate::fetched::text_of;
use class_file::ClassFile;
use class_radio::{ClassEnd, run_class};
use std::alloc::Global;
use sts_base::NoMemory;
use tool_folder::Folder;
use tool_io::Sink;

/// How a call ends whose class's run ended so.
fn ending_of_class(end: ClassEnd) -> Ending
    ensures { result ≡ ending_of_class end }
{
    match end {
        ClassEnd::Done { panics, .. } => {
            if panics == 0 {
                Ending::Gave(Status::Done)
            } else {
                Ending::Gave(Status::Panicked)
            }
        }
        ClassEnd::Budget(_) => Ending::Gave(Status::OutOfBudget),
        ClassEnd::SinkFault => Ending::Cut,
    }
}

/// Runs the boards of a class, which are made ready, each within the budget.
fn run_boards<K: Sink>(
    alloc: Global,
    class: ClassFile,
    boards: Boards,
    budget: u32,
    out: &mut K,
) -> Ending
    requires some { 1 ≤ length boards.images.items }
    requires few { length boards.images.items ≤ 8 }
    requires ready { CanRun class.end boards }
    requires budget { IsBudget budget }
    ensures { (sources : List BoardSource)
        → Paired IsBuiltAs sources (setups_of boards.images.items boards.scripts.items)
        → GivesOneOf K.taken K.faults out.old out.new (RunsClass class sources budget) result }
{
    match run_class(
        alloc,
        boards.images,
        boards.scripts,
        class.lose,
        class.end,
        budget,
        out,
    ) {
        Ok(end) => ending_of_class(end),
        Err(NoMemory) => Ending::NoMemory,
    }
}

/// Makes the boards of a class ready, and runs them.
fn run_file<F: Folder, K: Sink>(
    alloc: Global,
    class: ClassFile,
    budget: u32,
    folder: &mut F,
    out: &mut K,
) -> Ending
    requires within { IsWithinForm class }
    requires texts { All AreTexts class.boards }
    requires budget { IsBudget budget }
    ensures answer { GivesOneOf K.taken K.faults out.old out.new
        (RunsFile (told_by F.holds F.faults folder.old folder.new) budget class) result }
    ensures asked { HasAsked F.asked folder.old folder.new
        (WantsBoards (told_by F.holds F.faults folder.old folder.new) (FoundNoMemory result)
        class.end class.boards wants_none) }
    ensures folder_later { F.faults folder.old ≤ F.faults folder.new }
    ensures failure { IsFailureTold (F.faults folder.old) (F.faults folder.new) result }
{
    match boards_of(alloc, class.end, class.boards.as_slice(), folder, out) {
        Ok(boards) => run_boards(alloc, class, boards, budget, out),
        Err(ending) => ending,
    }
}

/// Reads a class from its text, and runs it.
fn run_text<F: Folder, K: Sink>(
    alloc: Global,
    text: &[u8],
    budget: u32,
    folder: &mut F,
    out: &mut K,
) -> Ending
    requires budget { IsBudget budget }
    ensures answer { GivesOneOf K.taken K.faults out.old out.new
        (RunsClassText (told_by F.holds F.faults folder.old folder.new) budget text.now) result }
    ensures asked { HasAsked F.asked folder.old folder.new
        (OrLacks (FoundNoMemory result) (Onwards classes
        (λ file. WantsBoards (told_by F.holds F.faults folder.old folder.new) (FoundNoMemory result)
        file.end file.boards wants_none) text.now)) }
    ensures folder_later { F.faults folder.old ≤ F.faults folder.new }
    ensures failure { IsFailureTold (F.faults folder.old) (F.faults folder.new) result }
{
    match class_in(alloc, text, out) {
        Ok(class) => run_file(alloc, class, budget, folder, out),
        Err(ending) => ending,
    }
}

/// The command `class`.
pub fn class<F: Folder, K: Sink>(
    alloc: Global,
    name: &str,
    budget: u32,
    folder: &mut F,
    out: &mut K,
) -> Ending
    requires budget { IsBudget budget }
    ensures answer { GivesOneOf K.taken K.faults out.old out.new
        (AnswersFile (told_by F.holds F.faults folder.old folder.new) name.now
        (RunsClassText (told_by F.holds F.faults folder.old folder.new) budget)) result }
    ensures asked { HasAsked F.asked folder.old folder.new
        (WantsFile (told_by F.holds F.faults folder.old folder.new) (FoundNoMemory result) name.now
        (Onwards classes
        (λ file. WantsBoards (told_by F.holds F.faults folder.old folder.new) (FoundNoMemory result)
        file.end file.boards wants_none))) }
    ensures folder_later { F.faults folder.old ≤ F.faults folder.new }
    ensures failure { IsFailureTold (F.faults folder.old) (F.faults folder.new) result }
{
    match text_of(alloc, name, folder, out) {
        Ok(text) => run_text(alloc, &text, budget, folder, out),
        Err(ending) => ending,
    }
}
