// Which bytes are a script, and why others are none.
ghost use Rattle.std.specs.Prelude.{◌≡◌, Ok, Err, IfOk};
ghost use Rattle.serde_json.specs.Data.{Data};
ghost use Rattle.event_script.specs.Json.{IsTree};
ghost use Rattle.event_script.specs.Verdict.{is_past, judged, Tells};
ghost use Rattle.event_script.specs.Sound.{IsSound, IsWithinForm};

use crate::form::script_of;
use crate::order::{Ordered, falls};
use crate::trees::{TreeRefused, tree_of};
use crate::{ENTRY_LIMIT, Entry, Script, ScriptCode, ScriptRefused};
use std::alloc::Global;

impl Ordered for Entry {
    ghost place = { λ e. e.at };

    fn place(&self) -> u32 {
        self.at
    }
}

/// Whether some entry comes after the end.
fn is_past_end(entries: &[Entry], end: u32) -> bool
    ensures { result ≡ is_past end entries.now }
{
    for entry in entries {
        if entry.at > end {
            return true;
        }
    }
    false
}

/// The rules over the whole list, in the order of their codes.
fn judge(script: Script) -> Result<Script, ScriptCode>
    ensures { result ≡ judged script }
{
    let entries = script.entries.as_slice();
    if falls(entries) {
        return Err(ScriptCode::OutOfOrder);
    }
    if is_past_end(entries, script.end) {
        return Err(ScriptCode::PastEnd);
    }
    if entries.len() > ENTRY_LIMIT {
        return Err(ScriptCode::TooMany);
    }
    Ok(script)
}

/// Reads a script. The bytes are refused by the first rule that they break, in the order of the codes: they are JSON by
/// `serde_json`; the tree has a script's form; the entries stand in order; none is after the end; there are at most `ENTRY_LIMIT`.
pub fn read_script(alloc: Global, bytes: &[u8]) -> Result<Script, ScriptRefused>
    ensures ok { IfOk result (λ s. Tells bytes.now (Ok s)) }
    ensures sound { IfOk result IsSound }
    ensures within_form { IfOk result IsWithinForm }
    ensures not_json { result ≡ Err (ScriptRefused.Script ScriptCode.NotJson) → (tree : Data)
        → ¬ IsTree bytes.now tree }
    ensures not_script { result ≡ Err (ScriptRefused.Script ScriptCode.NotScript)
        → Tells bytes.now (Err ScriptCode.NotScript) }
    ensures out_of_order { result ≡ Err (ScriptRefused.Script ScriptCode.OutOfOrder)
        → Tells bytes.now (Err ScriptCode.OutOfOrder) }
    ensures past_end { result ≡ Err (ScriptRefused.Script ScriptCode.PastEnd)
        → Tells bytes.now (Err ScriptCode.PastEnd) }
    ensures too_many { result ≡ Err (ScriptRefused.Script ScriptCode.TooMany)
        → Tells bytes.now (Err ScriptCode.TooMany) }
{
    let tree = match tree_of(alloc, bytes) {
        Ok(tree) => tree,
        Err(TreeRefused::NotJson) => return Err(ScriptRefused::Script(ScriptCode::NotJson)),
        Err(TreeRefused::NoMemory) => return Err(ScriptRefused::NoMemory),
    };
    match script_of(alloc, &tree) {
        Err(_) => Err(ScriptRefused::NoMemory),
        Ok(None) => Err(ScriptRefused::Script(ScriptCode::NotScript)),
        Ok(Some(script)) => match judge(script) {
            Ok(script) => Ok(script),
            Err(code) => Err(ScriptRefused::Script(code)),
        },
    }
}
