// The command `run`.
ghost use Rattle.std.specs.Prelude.{◌≡◌, ◌≤◌, ◌++◌, ℕ, List, [], true, decimal, length, vec_len, IfOk};
ghost use Rattle.std.specs.Option.{option_map};
ghost use Rattle.std.specs.declared.option.Option.{Option};
ghost use Rattle.sts_base.specs.Faults.{Rose};
ghost use Rattle.board_world.specs.Observations.{ByteList};
ghost use Rattle.board_world.specs.Transcript.{stats_line};
ghost use Rattle.thumb_code.specs.Map.{flash_end};
ghost use Rattle.tool_io.specs.Putting.{Puts, PutsTo};
ghost use Rattle.hex_image.specs.Writing.{hextext};
ghost use Rattle.sts_syntax.specs.TypedTrees.{TypedProgram};
ghost use Rattle.event_script.specs.Sound.{IsSound};
ghost use Rattle.sts_whole.specs.Compiled.{IsBuiltFor};
ghost use Rattle.sts_words.specs.Orders.{IsBudget};
ghost use Rattle.sts_words.specs.Views.{spoken};
ghost use Rattle.run_tool.specs.Answers.{Concludes, IsFailureTold, of_devices, of_sink};
ghost use Rattle.run_tool.specs.inner.{FoundNoMemory, ending_of, FinishesRun};
ghost use Rattle.run_tool.specs.Scripts.{OverScript};
ghost use Rattle.run_tool.specs.Run.{RunsProgram, RunsText};
ghost use Rattle.run_tool.specs.Runs.{asked_text, instructions_line};
ghost use Rattle.run_tool.specs.Wanted.{HasAsked, Onwards, OrLacks, WantsScript, wants_none, WantsFile};
ghost use Rattle.run_tool.specs.Files.{told_by, AnswersFile};
ghost use Rattle.run_tool.specs.Programs.{programs};

use crate::build::image_of;
use crate::ending::Ending;
use crate::fetched::text_of;
use crate::run_hex::ending_of;
use crate::script::script_of;
use board_ports::Device;
use board_run::{End, Stats};
use event_script::Script;
use hex_image::write_hex;
use itoa::Buffer;
use std::alloc::Global;
use sts_base::NoMemory;
use sts_whole::run_image;
use tool_folder::Folder;
use tool_io::{PutFailed, Sink, then_put};

/// What is asked for behind a transcript.
#[derive(Clone, Copy, Drop)]
pub struct AskedBehind {
    /// whether the line of statistics is
    pub stats: bool,
    /// whether the image is, behind it
    pub image: bool,
}

/// What a run is to be done with beside its program and its script.
#[derive(Clone, Copy, Drop)]
pub struct RunOptions {
    /// the most instructions
    pub budget: u32,
    /// what is asked for behind the transcript
    pub behind: AskedBehind,
}

/// A run that is asked for, beside its program.
#[derive(Clone, Copy, Drop)]
pub struct AskedRun<'a> {
    /// the file of its script, if one is named
    pub script: Option<&'a str>,
    /// what it is to be done with
    pub options: RunOptions,
}

/// Goes on with a count in decimal, unless a put before has failed.
fn then_put_count<K: Sink>(
    before: Result<(), PutFailed>,
    out: &mut K,
    count: u64,
) -> Result<(), PutFailed>
    ensures { (taken : Option (List ℕ)) (faults : ℕ) (text : List ℕ)
        → Puts taken (K.taken out.old) faults (K.faults out.old) text before
        → Puts taken (K.taken out.new) faults (K.faults out.new) (text ++ decimal count) result }
{
    let mut buffer = Buffer::new();
    then_put(before, out, buffer.format(count).as_bytes())
}

/// Puts the line of statistics.
fn put_stats<K: Sink>(out: &mut K, stats: &Stats) -> Result<(), PutFailed>
    ensures { PutsTo K.taken K.faults out.old out.new
        (stats_line stats.now.spawned stats.now.blocked stats.now.words stats.now.seats) result }
{
    let put = then_put(Ok(()), out, b"stats spawned ");
    let put = then_put_count(put, out, stats.spawned);
    let put = then_put(put, out, b" blocked ");
    let put = then_put_count(put, out, stats.blocked);
    let put = then_put(put, out, b" words ");
    let put = then_put_count(put, out, stats.words);
    let put = then_put(put, out, b" seats ");
    let put = then_put_count(put, out, stats.seats);
    then_put(put, out, b"\n")
}

/// Goes on with the line of the instructions executed and a HEX text, unless a put before has failed.
fn then_put_image<K: Sink>(
    before: Result<(), PutFailed>,
    out: &mut K,
    executed: u64,
    hex: &[u8],
) -> Result<(), PutFailed>
    ensures { (taken : Option (List ℕ)) (faults : ℕ) (text : List ℕ)
        → Puts taken (K.taken out.old) faults (K.faults out.old) text before
        → Puts taken (K.taken out.new) faults (K.faults out.new)
        (text ++ (instructions_line executed ++ hex.now)) result }
{
    let put = then_put(before, out, b"instructions ");
    let put = then_put_count(put, out, executed);
    let put = then_put(put, out, b"\n");
    then_put(put, out, hex)
}

/// Puts what stands behind a transcript: nothing, or the line of statistics, and behind it nothing, or the instructions executed and a HEX text.
fn put_asked<K: Sink>(
    out: &mut K,
    behind: AskedBehind,
    stats: &Stats,
    hex: &[u8],
) -> Result<(), PutFailed>
    ensures { PutsTo K.taken K.faults out.old out.new
        (asked_text behind.stats behind.image
        (stats_line stats.now.spawned stats.now.blocked stats.now.words stats.now.seats)
        (instructions_line stats.now.instructions ++ hex.now)) result }
{
    if behind.stats {
        let put = put_stats(out, stats);
        if behind.image {
            then_put_image(put, out, stats.instructions, hex)
        } else {
            put
        }
    } else {
        Ok(())
    }
}

/// How a call ends whose run ended so; what is asked for is put behind a run that the sink didn't stop.
fn finish<K: Sink>(out: &mut K, end: End, behind: AskedBehind, stats: &Stats, hex: &[u8]) -> Ending
    ensures { FinishesRun (K.taken out.old) (K.taken out.new) (K.faults out.old) (K.faults out.new) (ending_of end)
        (asked_text behind.stats behind.image
        (stats_line stats.now.spawned stats.now.blocked stats.now.words stats.now.seats)
        (instructions_line stats.now.instructions ++ hex.now)) result }
{
    match ending_of(end) {
        Ending::Gave(status) => match put_asked(out, behind, stats, hex) {
            Ok(()) => Ending::Gave(status),
            Err(PutFailed) => Ending::Cut,
        },
        Ending::Cut => Ending::Cut,
        Ending::NoMemory => Ending::NoMemory,
    }
}

/// The HEX text of an image, if it is asked for.
fn hex_of(alloc: Global, image: &[u8], behind: AskedBehind) -> Result<Vec<u8>, NoMemory>
    requires { length image.now ≤ flash_end }
    ensures { IfOk result (λ hex. behind.image ≡ true → hex.items ≡ hextext image.now) }
{
    if behind.image {
        write_hex(alloc, image)
    } else {
        Ok(Vec::new(alloc))
    }
}

/// Runs an image that implements a program on a script, and writes the transcript and what is asked for behind it. The image's HEX text is made before the run.
pub fn run_program<K: Sink, D: Device>(
    alloc: Global,
    image: Vec<u8>,
    script: Script,
    options: RunOptions,
    out: &mut K,
    places: &mut Vec<Option<D>>,
) -> Ending
    requires size { vec_len image ≤ flash_end }
    requires script { IsSound script }
    requires budget { IsBudget options.budget }
    ensures { (P : TypedProgram) (texts : List ByteList) → IsBuiltFor P texts image.items
        → Concludes (of_sink K.taken K.faults out.old out.new)
        (of_devices D.account places.old.items places.new.items) []
        (RunsProgram P texts script options.budget options.behind.stats options.behind.image) result }
{
    match hex_of(alloc, &image, options.behind) {
        Ok(hex) => match run_image(alloc, image, script, places, options.budget, out) {
            Ok((end, stats)) => finish(out, end, options.behind, &stats, &hex),
            Err(NoMemory) => Ending::NoMemory,
        },
        Err(NoMemory) => Ending::NoMemory,
    }
}

/// Runs an image that implements a program on the script that is named.
fn run_named<F: Folder, K: Sink, D: Device>(
    alloc: Global,
    image: Vec<u8>,
    asked: AskedRun<'_>,
    folder: &mut F,
    out: &mut K,
    places: &mut Vec<Option<D>>,
) -> Ending
    requires size { vec_len image ≤ flash_end }
    requires budget { IsBudget asked.options.budget }
    ensures answer { (P : TypedProgram) (texts : List ByteList) → IsBuiltFor P texts image.items
        → Concludes (of_sink K.taken K.faults out.old out.new)
        (of_devices D.account places.old.items places.new.items) []
        (OverScript (told_by F.holds F.faults folder.old folder.new) (option_map spoken asked.entry.script)
        (λ read. RunsProgram P texts read
        asked.entry.options.budget asked.entry.options.behind.stats asked.entry.options.behind.image)) result }
    ensures asked { HasAsked F.asked folder.old folder.new
        (WantsScript (told_by F.holds F.faults folder.old folder.new) (FoundNoMemory result)
        (option_map spoken asked.entry.script) wants_none) }
    ensures folder_later { F.faults folder.old ≤ F.faults folder.new }
    ensures failure { IsFailureTold (F.faults folder.old) (F.faults folder.new) result }
{
    match script_of(alloc, asked.script, folder, out) {
        Ok(script) => run_program(alloc, image, script, asked.options, out, places),
        Err(ending) => ending,
    }
}

/// Builds a text, and runs its image on the script that is named, which is fetched behind that.
fn run_text<F: Folder, K: Sink, D: Device>(
    alloc: Global,
    text: &[u8],
    asked: AskedRun<'_>,
    folder: &mut F,
    out: &mut K,
    places: &mut Vec<Option<D>>,
) -> Ending
    requires budget { IsBudget asked.options.budget }
    ensures answer { Concludes (of_sink K.taken K.faults out.old out.new)
        (of_devices D.account places.old.items places.new.items) []
        (RunsText (told_by F.holds F.faults folder.old folder.new) (option_map spoken asked.entry.script)
        asked.entry.options.budget asked.entry.options.behind.stats asked.entry.options.behind.image text.now) result }
    ensures asked { HasAsked F.asked folder.old folder.new
        (OrLacks (FoundNoMemory result) (Onwards programs
        (λ read. WantsScript (told_by F.holds F.faults folder.old folder.new) (FoundNoMemory result)
        (option_map spoken asked.entry.script) wants_none) text.now)) }
    ensures folder_later { F.faults folder.old ≤ F.faults folder.new }
    ensures failure { IsFailureTold (F.faults folder.old) (F.faults folder.new) result }
{
    match image_of(alloc, text, out) {
        Ok(image) => run_named(alloc, image, asked, folder, out, places),
        Err(ending) => ending,
    }
}

/// The command `run`.
pub fn run<F: Folder, K: Sink, D: Device>(
    alloc: Global,
    name: &str,
    asked: AskedRun<'_>,
    folder: &mut F,
    out: &mut K,
    places: &mut Vec<Option<D>>,
) -> Ending
    requires budget { IsBudget asked.options.budget }
    ensures answer { Concludes (of_sink K.taken K.faults out.old out.new)
        (of_devices D.account places.old.items places.new.items) []
        (AnswersFile (told_by F.holds F.faults folder.old folder.new) name.now
        (RunsText (told_by F.holds F.faults folder.old folder.new) (option_map spoken asked.entry.script)
        asked.entry.options.budget asked.entry.options.behind.stats asked.entry.options.behind.image)) result }
    ensures asked { HasAsked F.asked folder.old folder.new
        (WantsFile (told_by F.holds F.faults folder.old folder.new) (FoundNoMemory result) name.now
        (Onwards programs
        (λ read. WantsScript (told_by F.holds F.faults folder.old folder.new) (FoundNoMemory result)
        (option_map spoken asked.entry.script) wants_none))) }
    ensures folder_later { F.faults folder.old ≤ F.faults folder.new }
    ensures failure { IsFailureTold (F.faults folder.old) (F.faults folder.new) result }
{
    match text_of(alloc, name, folder, out) {
        Ok(text) => run_text(alloc, &text, asked, folder, out, places),
        Err(ending) => ending,
    }
}
