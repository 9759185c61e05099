// The command `run-hex`.
ghost use Rattle.std.specs.Prelude.{◌≡◌, ◌≤◌, [], List, ℕ, vec_len, codes};
ghost use Rattle.std.specs.Option.{option_map};
ghost use Rattle.sts_base.specs.Faults.{Rose};
ghost use Rattle.tool_io.specs.Putting.{PutsTo};
ghost use Rattle.hex_image.specs.Codes.{number_of};
ghost use Rattle.hex_image.specs.Spells.{flash_size};
ghost use Rattle.event_script.specs.Sound.{IsSound};
ghost use Rattle.sts_words.specs.Orders.{IsBudget};
ghost use Rattle.sts_words.specs.Views.{spoken};
ghost use Rattle.run_tool.specs.declared.ending.Status.TheVariants as status;
ghost use Rattle.run_tool.specs.Answers.{Concludes, IsFailureTold, of_devices, of_sink, says};
ghost use Rattle.run_tool.specs.inner.{GivesOneOf, FoundNoMemory, ending_of};
ghost use Rattle.run_tool.specs.Scripts.{OverScript};
ghost use Rattle.run_tool.specs.Runs.{RunsBoard, RunsHex, images};
ghost use Rattle.run_tool.specs.Files.{code_line, told_by, AnswersFile};
ghost use Rattle.run_tool.specs.Wanted.{HasAsked, Onwards, OrLacks, WantsScript, wants_none, WantsFile};

use crate::ending::{Ending, Status};
use crate::fetched::text_of;
use crate::script::script_of;
use board_ports::Device;
use board_run::End;
use event_script::Script;
use hex_image::{HexCode, HexRefused, read_hex};
use std::alloc::Global;
use sts_base::NoMemory;
use sts_whole::run_image;
use tool_folder::Folder;
use tool_io::{PutFailed, Sink, then_put, then_put_decimal};

/// Puts the line of a refusal of an image: the code's number.
fn put_image_refused<K: Sink>(out: &mut K, code: HexCode) -> Result<(), PutFailed>
    ensures { PutsTo K.taken K.faults out.old out.new (code_line (codes "image refused ") (number_of code)) result }
{
    let put = then_put(Ok(()), out, b"image refused ");
    let put = then_put_decimal(put, out, u32::from(code.number()));
    then_put(put, out, b"\n")
}

/// Gives the answer that a text spells no image.
fn say_image_refused<K: Sink>(out: &mut K, code: HexCode) -> Ending
    ensures { GivesOneOf K.taken K.faults out.old out.new
        (λ answer. answer ≡ says status.ImageRefused (code_line (codes "image refused ") (number_of code))) result }
{
    match put_image_refused(out, code) {
        Ok(()) => Ending::Gave(Status::ImageRefused),
        Err(PutFailed) => Ending::Cut,
    }
}

/// How a call ends whose run ended so.
pub fn ending_of(end: End) -> Ending
    ensures { result ≡ ending_of end }
{
    match end {
        End::Quiet => Ending::Gave(Status::Done),
        End::Script => Ending::Gave(Status::Done),
        End::Panic(_) => Ending::Gave(Status::Panicked),
        End::Budget => Ending::Gave(Status::OutOfBudget),
        End::Fault(_, _) => Ending::Gave(Status::Faulted),
        End::SinkFault => Ending::Cut,
    }
}

/// A run of an image that is asked for.
#[derive(Clone, Copy, Drop)]
pub struct AskedImageRun<'a> {
    /// the file of its script, if one is named
    pub script: Option<&'a str>,
    /// the most instructions
    pub budget: u32,
}

/// Runs an image on a script within a budget.
fn run_board<K: Sink, D: Device>(
    alloc: Global,
    image: Vec<u8>,
    script: Script,
    budget: u32,
    out: &mut K,
    places: &mut Vec<Option<D>>,
) -> Ending
    requires size { vec_len image ≤ flash_size }
    requires script { IsSound script }
    requires budget { IsBudget budget }
    ensures { Concludes (of_sink K.taken K.faults out.old out.new)
        (of_devices D.account places.old.items places.new.items) []
        (RunsBoard image.items script budget) result }
{
    match run_image(alloc, image, script, places, budget, out) {
        Ok((end, _)) => ending_of(end),
        Err(NoMemory) => Ending::NoMemory,
    }
}

/// Runs an image on the script that is named, within a budget.
fn run_named<F: Folder, K: Sink, D: Device>(
    alloc: Global,
    image: Vec<u8>,
    asked: AskedImageRun<'_>,
    folder: &mut F,
    out: &mut K,
    places: &mut Vec<Option<D>>,
) -> Ending
    requires size { vec_len image ≤ flash_size }
    requires budget { IsBudget asked.budget }
    ensures answer { Concludes (of_sink K.taken K.faults out.old out.new)
        (of_devices D.account places.old.items places.new.items) []
        (OverScript (told_by F.holds F.faults folder.old folder.new) (option_map spoken asked.entry.script)
        (λ read. RunsBoard image.items read asked.entry.budget)) result }
    ensures asked { HasAsked F.asked folder.old folder.new
        (WantsScript (told_by F.holds F.faults folder.old folder.new) (FoundNoMemory result)
        (option_map spoken asked.entry.script) wants_none) }
    ensures folder_later { F.faults folder.old ≤ F.faults folder.new }
    ensures failure { IsFailureTold (F.faults folder.old) (F.faults folder.new) result }
{
    match script_of(alloc, asked.script, folder, out) {
        Ok(script) => run_board(alloc, image, script, asked.budget, out, places),
        Err(ending) => ending,
    }
}

/// Reads an image from its text and runs it on the script that is named, within a budget.
fn run_hex_text<F: Folder, K: Sink, D: Device>(
    alloc: Global,
    text: &[u8],
    asked: AskedImageRun<'_>,
    folder: &mut F,
    out: &mut K,
    places: &mut Vec<Option<D>>,
) -> Ending
    requires budget { IsBudget asked.budget }
    ensures answer { Concludes (of_sink K.taken K.faults out.old out.new)
        (of_devices D.account places.old.items places.new.items) []
        (RunsHex (told_by F.holds F.faults folder.old folder.new) (option_map spoken asked.entry.script)
        asked.entry.budget text.now) result }
    ensures asked { HasAsked F.asked folder.old folder.new
        (OrLacks (FoundNoMemory result) (Onwards images
        (λ image. WantsScript (told_by F.holds F.faults folder.old folder.new) (FoundNoMemory result)
        (option_map spoken asked.entry.script) wants_none) text.now)) }
    ensures folder_later { F.faults folder.old ≤ F.faults folder.new }
    ensures failure { IsFailureTold (F.faults folder.old) (F.faults folder.new) result }
{
    match read_hex(alloc, text) {
        Ok(image) => run_named(alloc, image, asked, folder, out, places),
        Err(why) => match why {
            HexRefused::Image(code) => say_image_refused(out, code),
            HexRefused::NoMemory => Ending::NoMemory,
        },
    }
}

/// The command `run-hex`.
pub fn run_hex<F: Folder, K: Sink, D: Device>(
    alloc: Global,
    name: &str,
    asked: AskedImageRun<'_>,
    folder: &mut F,
    out: &mut K,
    places: &mut Vec<Option<D>>,
) -> Ending
    requires budget { IsBudget asked.budget }
    ensures answer { Concludes (of_sink K.taken K.faults out.old out.new)
        (of_devices D.account places.old.items places.new.items) []
        (AnswersFile (told_by F.holds F.faults folder.old folder.new) name.now
        (RunsHex (told_by F.holds F.faults folder.old folder.new) (option_map spoken asked.entry.script)
        asked.entry.budget)) result }
    ensures asked { HasAsked F.asked folder.old folder.new
        (WantsFile (told_by F.holds F.faults folder.old folder.new) (FoundNoMemory result) name.now
        (Onwards images
        (λ image. WantsScript (told_by F.holds F.faults folder.old folder.new) (FoundNoMemory result)
        (option_map spoken asked.entry.script) wants_none))) }
    ensures folder_later { F.faults folder.old ≤ F.faults folder.new }
    ensures failure { IsFailureTold (F.faults folder.old) (F.faults folder.new) result }
{
    match text_of(alloc, name, folder, out) {
        Ok(text) => run_hex_text(alloc, &text, asked, folder, out, places),
        Err(ending) => ending,
    }
}
