// The script that a command names.
ghost use Rattle.std.specs.Prelude.{◌≡◌, ◌≤◌, ℕ, List, Ok, IfOk, IfErr, OnOk, ◌++◌, codes};
ghost use Rattle.std.specs.Option.{option_to_list, option_map};
ghost use Rattle.sts_base.specs.Faults.{Rose};
ghost use Rattle.tool_io.specs.Putting.{PutsTo};
ghost use Rattle.event_script.specs.Codes.{number_of};
ghost use Rattle.event_script.specs.Sound.{IsSound};
ghost use Rattle.event_script.specs.Verdict.{Tells};
ghost use Rattle.sts_words.specs.Views.{spoken};
ghost use Rattle.run_tool.specs.declared.ending.Status.TheVariants as status;
ghost use Rattle.run_tool.specs.Answers.{IsFailureTold, says};
ghost use Rattle.run_tool.specs.inner.{GivesOneOf, IsScriptOf, FoundNoMemory, wants_never, none_to_read};
ghost use Rattle.run_tool.specs.Scripts.{AnswersScript, OverScript, default_script};
ghost use Rattle.run_tool.specs.Files.{code_line, told_by};
ghost use Rattle.run_tool.specs.Wanted.{HasAsked, WantsScript};

use crate::ending::{Ending, Status};
use crate::fetched::text_of;
use event_script::{Script, ScriptCode, ScriptRefused, read_script};
use std::alloc::Global;
use sts_base::Seq;
use tool_folder::Folder;
use tool_io::{PutFailed, Sink, then_put, then_put_decimal};

/// The moment at which the script ends that is run where none is named.
const DEFAULT_END: u32 = 1000;

/// Puts the line of a refusal of a script: the code's number.
fn put_script_refused<K: Sink>(out: &mut K, code: ScriptCode) -> Result<(), PutFailed>
    ensures { PutsTo K.taken K.faults out.old out.new (code_line (codes "script refused ") (number_of code)) result }
{
    let put = then_put(Ok(()), out, b"script refused ");
    let put = then_put_decimal(put, out, u32::from(code.number()));
    then_put(put, out, b"\n")
}

/// Gives the answer that a text stands for no script.
fn say_script_refused<K: Sink>(out: &mut K, code: ScriptCode) -> Ending
    ensures { GivesOneOf K.taken K.faults out.old out.new
        (λ answer. answer ≡ says status.ScriptRefused (code_line (codes "script refused ") (number_of code))) result }
{
    match put_script_refused(out, code) {
        Ok(()) => Ending::Gave(Status::ScriptRefused),
        Err(PutFailed) => Ending::Cut,
    }
}

/// The script that a text stands for, with nothing written. Where it stands for none, the answer that says so was given.
fn script_in<K: Sink>(alloc: Global, text: &[u8], out: &mut K) -> Result<Script, Ending>
    ensures script { IfOk result (λ script. Tells text.now (Ok script)) }
    ensures sound { IfOk result IsSound }
    ensures unwritten { OnOk result (K.taken out.new ≡ K.taken out.old) }
    ensures none { IfErr result (GivesOneOf K.taken K.faults out.old out.new (AnswersScript none_to_read text.now)) }
    ensures later { K.faults out.old ≤ K.faults out.new }
{
    match read_script(alloc, text) {
        Ok(script) => Ok(script),
        Err(ScriptRefused::Script(code)) => Err(say_script_refused(out, code)),
        Err(ScriptRefused::NoMemory) => Err(Ending::NoMemory),
    }
}

/// The script where none is named: it has no entries, and ends at 1000 ms.
pub fn default_script(alloc: Global) -> Script
    ensures script { result ≡ default_script }
    ensures sound { IsSound result }
{
    Script {
        end: DEFAULT_END,
        entries: Seq::new(alloc),
    }
}

/// The script of the file of that name, or where none is named the one without entries that ends at 1000 ms; nothing was written. Where there is
/// none, the answer that says so was given.
pub fn script_of<F: Folder, K: Sink>(
    alloc: Global,
    name: Option<&str>,
    folder: &mut F,
    out: &mut K,
) -> Result<Script, Ending>
    ensures script { IfOk result
        (IsScriptOf (told_by F.holds F.faults folder.old folder.new) (option_map spoken name.entry)) }
    ensures sound { IfOk result IsSound }
    ensures unwritten { OnOk result (K.taken out.new ≡ K.taken out.old) }
    ensures none { IfErr result (GivesOneOf K.taken K.faults out.old out.new
        (OverScript (told_by F.holds F.faults folder.old folder.new) (option_map spoken name.entry) none_to_read)) }
    ensures asked { OnOk result
        (F.asked folder.new ≡ F.asked folder.old ++ option_to_list (option_map spoken name.entry)) }
    ensures stopped { IfErr result (λ ending. HasAsked F.asked folder.old folder.new
        (WantsScript (told_by F.holds F.faults folder.old folder.new) (FoundNoMemory ending)
        (option_map spoken name.entry) wants_never)) }
    ensures stays { (file : List ℕ) → F.holds folder.new file ≡ F.holds folder.old file }
    ensures folder_later { F.faults folder.old ≤ F.faults folder.new }
    ensures unfailed { OnOk result (F.faults folder.new ≡ F.faults folder.old) }
    ensures failure { IfErr result (λ ending. IsFailureTold (F.faults folder.old) (F.faults folder.new) ending) }
    ensures later { K.faults out.old ≤ K.faults out.new }
{
    match name {
        None => Ok(default_script(alloc)),
        Some(name) => match text_of(alloc, name, folder, out) {
            Ok(text) => script_in(alloc, &text, out),
            Err(ending) => Err(ending),
        },
    }
}
