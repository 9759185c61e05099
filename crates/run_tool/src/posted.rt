// A run of texts that were handed over.
ghost use Rattle.std.specs.Prelude.{◌≡◌, [], ℕ, List, codes, false, Some, IfOk};
ghost use Rattle.std.specs.Option.{option_map};
ghost use Rattle.std.specs.declared.option.Option.{Option};
ghost use Rattle.board_ports.specs.declared.sure.SureDevice.{SureDevice};
ghost use Rattle.sts_words.specs.Orders.{IsBudget, run_program};
ghost use Rattle.sts_words.specs.Views.{spoken};
ghost use Rattle.run_tool.specs.Answers.{Concludes, of_devices, of_sink};
ghost use Rattle.run_tool.specs.Files.{told_by};
ghost use Rattle.run_tool.specs.Orders.{MayAnswer};
ghost use Rattle.run_tool.specs.Posted.{RanPosted, posted_files};

use crate::ending::Ending;
use crate::run::{AskedBehind, AskedRun, RunOptions, run};
use board_ports::{Device, SureDevice};
use std::alloc::Global;
use sts_base::NoMemory;
use tool_folder::{Folder, SureFolder};
use tool_io::Sink;
use typed_program::one_answer;

/// The folder of the two files.
fn folder_of(alloc: Global, text: &[u8], script: Option<&[u8]>) -> Result<SureFolder, NoMemory>
    ensures { IfOk result (λ folder. (file : List ℕ) → ⟦<SureFolder as Folder>⟧.holds folder file
        ≡ posted_files text.now (option_map (λ bytes. bytes.now) script.entry) file) }
{
    let mut folder = SureFolder::new(alloc)?;
    folder.add(alloc, "program", text)?;
    if let Some(bytes) = script {
        folder.add(alloc, "script", bytes)?;
    }
    Ok(folder)
}

/// The name of the script's file, if there is one.
fn name_of(script: Option<&[u8]>) -> Option<&'static str>
    ensures { option_map spoken result ≡ option_map (λ bytes. codes "script") script.entry }
{
    match script {
        None => None,
        Some(_) => Some("script"),
    }
}

/// Runs the file `program` of a folder on the file of this name, without devices.
fn run_named_files<K: Sink>(
    alloc: Global,
    script: Option<&str>,
    budget: u32,
    folder: &mut SureFolder,
    out: &mut K,
) -> Ending
    requires budget { IsBudget budget }
    ensures { (devices : List (Option SureDevice)) × Concludes (of_sink K.taken K.faults out.old out.new)
        (of_devices ⟦<SureDevice as Device>⟧.account [] devices) []
        (MayAnswer (told_by ⟦<SureFolder as Folder>⟧.holds ⟦<SureFolder as Folder>⟧.faults folder.old folder.new)
        (Some (run_program (codes "program") (option_map spoken script.entry) budget false false))) result }
{
    let behind = AskedBehind {
        stats: false,
        image: false,
    };
    let options = RunOptions { budget, behind };
    let asked = AskedRun { script, options };
    let mut places: Vec<Option<SureDevice>> = Vec::new(alloc);
    run(alloc, "program", asked, folder, out, &mut places)
}

/// Does what `sts run program script --budget B` does where these are the bytes of the two files, and answers its status; without a script what `sts run program --budget B` does. No device is plugged in.
pub fn run_posted<K: Sink>(
    alloc: Global,
    text: &[u8],
    script: Option<&[u8]>,
    budget: u32,
    out: &mut K,
) -> u8
    requires budget { IsBudget budget }
    ensures { RanPosted ⟦<SureDevice as Device>⟧.account text.now (option_map (λ bytes. bytes.now) script.entry) budget
        (of_sink K.taken K.faults out.old out.new) result }
{
    one_answer();
    match folder_of(alloc, text, script) {
        Ok(mut folder) => run_named_files(
            alloc,
            name_of(script),
            budget,
            &mut folder,
            out,
        ).number(),
        Err(NoMemory) => Ending::NoMemory.number(),
    }
}
