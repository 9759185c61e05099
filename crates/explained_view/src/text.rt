// A transcript with the sentences that are said of its lines, and with what explains a refusal below its line.
ghost use Rattle.std.specs.Prelude.{◌≡◌, List, [], OnOk, OnErr, IsErrOf};
ghost use Rattle.sts_base.specs.Faults.{Rose};
ghost use Rattle.tool_io.specs.Putting.{Took, TookPart};
ghost use Rattle.view_forms.specs.Rows.{text_view};
ghost use Rattle.view_forms.specs.declared.notes.Note.{Note};
ghost use Rattle.view_forms.specs.declared.below.Below.{Below};

use crate::refusal::first_refusal;
use std::alloc::Global;
use tool_io::Sink;
use transcript_view::{ViewFault, view_text};
use view_forms::{Below, NOTES, Note};

/// Writes the view by these sentences of lines.
fn view_by<K: Sink>(
    alloc: Global,
    notes: &[Note],
    below: &[Below<'_>],
    input: &[u8],
    width: usize,
    out: &mut K,
) -> Result<(), ViewFault>
    ensures whole { OnOk result ((notes : List Note)
        × Took (K.taken out.old) (K.taken out.new) (text_view notes below.now width input.now)) }
    ensures part { OnErr result ((notes : List Note)
        × TookPart (K.taken out.old) (K.taken out.new) (text_view notes below.now width input.now)) }
    ensures failed { IsErrOf result ViewFault.Sink → Rose (K.faults out.old) (K.faults out.new) }
    ensures untouched { IsErrOf result ViewFault.NoMemory → out.new ≡ out.old }
{
    view_text(alloc, notes, below, input, width, out)
}

/// Writes the view with these texts below lines. The sentences of lines are named here alone: the proof of a function that names a long table takes a
/// minute.
pub fn view_below<K: Sink>(
    alloc: Global,
    below: &[Below<'_>],
    input: &[u8],
    width: usize,
    out: &mut K,
) -> Result<(), ViewFault>
    ensures whole { OnOk result ((notes : List Note)
        × Took (K.taken out.old) (K.taken out.new) (text_view notes below.now width input.now)) }
    ensures part { OnErr result ((notes : List Note)
        × TookPart (K.taken out.old) (K.taken out.new) (text_view notes below.now width input.now)) }
    ensures failed { IsErrOf result ViewFault.Sink → Rose (K.faults out.old) (K.faults out.new) }
    ensures untouched { IsErrOf result ViewFault.NoMemory → out.new ≡ out.old }
{
    view_by(alloc, &NOTES, below, input, width, out)
}

/// Writes the view of a transcript with nothing below its lines.
pub fn view_plain<K: Sink>(
    alloc: Global,
    input: &[u8],
    width: usize,
    out: &mut K,
) -> Result<(), ViewFault>
    ensures whole { OnOk result ((notes : List Note)
        × Took (K.taken out.old) (K.taken out.new) (text_view notes [] width input.now)) }
    ensures part { OnErr result ((notes : List Note)
        × TookPart (K.taken out.old) (K.taken out.new) (text_view notes [] width input.now)) }
    ensures failed { IsErrOf result ViewFault.Sink → Rose (K.faults out.old) (K.faults out.new) }
    ensures untouched { IsErrOf result ViewFault.NoMemory → out.new ≡ out.old }
{
    view_below(alloc, &[], input, width, out)
}

/// Writes the view of a transcript with what explains its first refusal by the program's text below that line.
pub fn view_explained<K: Sink>(
    alloc: Global,
    program: &[u8],
    input: &[u8],
    width: usize,
    out: &mut K,
) -> Result<(), ViewFault>
    ensures whole { OnOk result ((notes : List Note) × (below : List Below)
        × Took (K.taken out.old) (K.taken out.new) (text_view notes below width input.now)) }
    ensures part { OnErr result ((notes : List Note) × (below : List Below)
        × TookPart (K.taken out.old) (K.taken out.new) (text_view notes below width input.now)) }
    ensures failed { IsErrOf result ViewFault.Sink → Rose (K.faults out.old) (K.faults out.new) }
    ensures untouched { IsErrOf result ViewFault.NoMemory → out.new ≡ out.old }
{
    let Some(refusal) = first_refusal(input) else {
        return view_plain(alloc, input, width, out);
    };
    match refusal.explained(alloc, program) {
        Err(_) => Err(ViewFault::NoMemory),
        Ok(text) => {
            let below = [Below {
                line: refusal.told,
                text: text.as_bytes(),
            }];
            view_below(alloc, &below, input, width, out)
        }
    }
}
