// The command `run-at`.
ghost use Rattle.std.specs.Prelude.{◌≡◌, ◌≤◌, ℕ, List, [], vec_len, ◌<◌, All};
ghost use Rattle.sts_base.specs.Faults.{Rose};
ghost use Rattle.board_world.specs.Observations.{ByteList};
ghost use Rattle.thumb_code.specs.Map.{flash_end};
ghost use Rattle.sts_syntax.specs.TypedTrees.{TypedProgram};
ghost use Rattle.event_script.specs.Sound as script_sound;
ghost use Rattle.arrival_file.specs.Sound.{IsSound};
ghost use Rattle.sts_whole.specs.Compiled.{IsBuiltFor};
ghost use Rattle.sts_words.specs.Orders.{IsBudget};
ghost use Rattle.run_tool.specs.Answers.{Concludes, IsFailureTold, of_devices, of_sink};
ghost use Rattle.run_tool.specs.inner.{FoundNoMemory};
ghost use Rattle.run_tool.specs.RunAt.{RunsProgramAt, RunsOnScript, RunsOutside, RunsTextAt};
ghost use Rattle.run_tool.specs.Wanted.{HasAsked, Onwards, OrLacks, WantsFile, WantsOutside, wants_none};
ghost use Rattle.run_tool.specs.Files.{told_by, AnswersFile};
ghost use Rattle.run_tool.specs.Programs.{programs};

use crate::arrivals::arrivals_of;
use crate::build::image_of;
use crate::ending::Ending;
use crate::fetched::text_of;
use crate::run_hex::ending_of;
use crate::script::script_of;
use arrival_file::Arrival;
use board_ports::Device;
use event_script::Script;
use irq_arrival::run_image_at;
use std::alloc::Global;
use sts_base::{NoMemory, Seq};
use tool_folder::Folder;
use tool_io::Sink;

/// What a program is to meet while it runs, by the names of files.
#[derive(Clone, Copy, Drop)]
pub struct Outside<'a> {
    pub script: &'a str,
    pub arrivals: &'a str,
}

/// A run with arrivals that is asked for, beside its program.
#[derive(Clone, Copy, Drop)]
pub struct AskedRunAt<'a> {
    /// what the program is to meet
    pub outside: Outside<'a>,
    /// the most instructions
    pub budget: u32,
}

/// An image, and the script that it is run on.
#[derive(Drop)]
struct Setup {
    image: Vec<u8>,
    script: Script,
}

/// Runs an image that implements a program on its script with arrivals, and writes the transcript.
fn run_board_at<K: Sink, D: Device>(
    alloc: Global,
    setup: Setup,
    arrivals: &Seq<Arrival>,
    budget: u32,
    out: &mut K,
    places: &mut Vec<Option<D>>,
) -> Ending
    requires size { vec_len setup.image ≤ flash_end }
    requires bytes { All (λ byte. byte < 256) setup.image.items }
    requires script { script_sound.IsSound setup.script }
    requires arrivals { IsSound arrivals.now }
    requires budget { IsBudget budget }
    ensures { (P : TypedProgram) (texts : List ByteList) → IsBuiltFor P texts setup.image.items
        → Concludes (of_sink K.taken K.faults out.old out.new)
        (of_devices D.account places.old.items places.new.items) []
        (RunsProgramAt P texts setup.script arrivals.now budget) result }
{
    match run_image_at(
        alloc,
        setup.image,
        setup.script,
        arrivals,
        places,
        budget,
        out,
    ) {
        Ok(end) => ending_of(end),
        Err(NoMemory) => Ending::NoMemory,
    }
}

/// Runs an image that implements a program on its script, with the arrivals that are named.
fn run_on_script<F: Folder, K: Sink, D: Device>(
    alloc: Global,
    setup: Setup,
    asked: AskedRunAt<'_>,
    folder: &mut F,
    out: &mut K,
    places: &mut Vec<Option<D>>,
) -> Ending
    requires size { vec_len setup.image ≤ flash_end }
    requires bytes { All (λ byte. byte < 256) setup.image.items }
    requires script { script_sound.IsSound setup.script }
    requires budget { IsBudget asked.budget }
    ensures answer { (P : TypedProgram) (texts : List ByteList) → IsBuiltFor P texts setup.image.items
        → Concludes (of_sink K.taken K.faults out.old out.new)
        (of_devices D.account places.old.items places.new.items) []
        (RunsOnScript (told_by F.holds F.faults folder.old folder.new)
        asked.entry.outside.arrivals.now asked.entry.budget P texts setup.script) result }
    ensures asked { HasAsked F.asked folder.old folder.new
        (WantsFile (told_by F.holds F.faults folder.old folder.new) (FoundNoMemory result)
        asked.entry.outside.arrivals.now (λ text. wants_none)) }
    ensures folder_later { F.faults folder.old ≤ F.faults folder.new }
    ensures failure { IsFailureTold (F.faults folder.old) (F.faults folder.new) result }
{
    match arrivals_of(alloc, asked.outside.arrivals, folder, out) {
        Ok(arrivals) => run_board_at(alloc, setup, &arrivals, asked.budget, out, places),
        Err(ending) => ending,
    }
}

/// Runs an image that implements a program on the script that is named, with the arrivals that are named.
fn run_outside<F: Folder, K: Sink, D: Device>(
    alloc: Global,
    image: Vec<u8>,
    asked: AskedRunAt<'_>,
    folder: &mut F,
    out: &mut K,
    places: &mut Vec<Option<D>>,
) -> Ending
    requires size { vec_len image ≤ flash_end }
    requires budget { IsBudget asked.budget }
    ensures answer { (P : TypedProgram) (texts : List ByteList) → IsBuiltFor P texts image.items
        → Concludes (of_sink K.taken K.faults out.old out.new)
        (of_devices D.account places.old.items places.new.items) []
        (RunsOutside (told_by F.holds F.faults folder.old folder.new)
        asked.entry.outside.script.now asked.entry.outside.arrivals.now asked.entry.budget P texts) result }
    ensures asked { HasAsked F.asked folder.old folder.new
        (WantsOutside (told_by F.holds F.faults folder.old folder.new) (FoundNoMemory result)
        asked.entry.outside.script.now asked.entry.outside.arrivals.now) }
    ensures folder_later { F.faults folder.old ≤ F.faults folder.new }
    ensures failure { IsFailureTold (F.faults folder.old) (F.faults folder.new) result }
{
    match script_of(alloc, Some(asked.outside.script), folder, out) {
        Ok(script) => {
            let setup = Setup { image, script };
            run_on_script(alloc, setup, asked, folder, out, places)
        }
        Err(ending) => ending,
    }
}

/// Builds a text, and runs its image on the script that is named, with the arrivals that are named. They are fetched behind that, in this order.
fn run_text_at<F: Folder, K: Sink, D: Device>(
    alloc: Global,
    text: &[u8],
    asked: AskedRunAt<'_>,
    folder: &mut F,
    out: &mut K,
    places: &mut Vec<Option<D>>,
) -> Ending
    requires budget { IsBudget asked.budget }
    ensures answer { Concludes (of_sink K.taken K.faults out.old out.new)
        (of_devices D.account places.old.items places.new.items) []
        (RunsTextAt (told_by F.holds F.faults folder.old folder.new)
        asked.entry.outside.script.now asked.entry.outside.arrivals.now asked.entry.budget text.now) result }
    ensures asked { HasAsked F.asked folder.old folder.new
        (OrLacks (FoundNoMemory result) (Onwards programs
        (λ read. WantsOutside (told_by F.holds F.faults folder.old folder.new) (FoundNoMemory result)
        asked.entry.outside.script.now asked.entry.outside.arrivals.now) text.now)) }
    ensures folder_later { F.faults folder.old ≤ F.faults folder.new }
    ensures failure { IsFailureTold (F.faults folder.old) (F.faults folder.new) result }
{
    match image_of(alloc, text, out) {
        Ok(image) => run_outside(alloc, image, asked, folder, out, places),
        Err(ending) => ending,
    }
}

/// The command `run-at`.
pub fn run_at<F: Folder, K: Sink, D: Device>(
    alloc: Global,
    name: &str,
    asked: AskedRunAt<'_>,
    folder: &mut F,
    out: &mut K,
    places: &mut Vec<Option<D>>,
) -> Ending
    requires budget { IsBudget asked.budget }
    ensures answer { Concludes (of_sink K.taken K.faults out.old out.new)
        (of_devices D.account places.old.items places.new.items) []
        (AnswersFile (told_by F.holds F.faults folder.old folder.new) name.now
        (RunsTextAt (told_by F.holds F.faults folder.old folder.new)
        asked.entry.outside.script.now asked.entry.outside.arrivals.now asked.entry.budget)) result }
    ensures asked { HasAsked F.asked folder.old folder.new
        (WantsFile (told_by F.holds F.faults folder.old folder.new) (FoundNoMemory result) name.now
        (Onwards programs
        (λ read. WantsOutside (told_by F.holds F.faults folder.old folder.new) (FoundNoMemory result)
        asked.entry.outside.script.now asked.entry.outside.arrivals.now))) }
    ensures folder_later { F.faults folder.old ≤ F.faults folder.new }
    ensures failure { IsFailureTold (F.faults folder.old) (F.faults folder.new) result }
{
    match text_of(alloc, name, folder, out) {
        Ok(text) => run_text_at(alloc, &text, asked, folder, out, places),
        Err(ending) => ending,
    }
}
