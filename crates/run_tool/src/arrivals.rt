// The arrivals that a command names.
ghost use Rattle.std.specs.Prelude.{◌≡◌, ◌≤◌, Ok, IfOk, IfErr, OnOk, IsErrOf, codes};
ghost use Rattle.sts_base.specs.Faults.{Rose};
ghost use Rattle.tool_io.specs.Putting.{PutsTo};
ghost use Rattle.arrival_file.specs.Codes.{number_of};
ghost use Rattle.arrival_file.specs.Sound.{IsSound};
ghost use Rattle.arrival_file.specs.Verdict.{Tells};
ghost use Rattle.run_tool.specs.declared.ending.Status.TheVariants as status;
ghost use Rattle.run_tool.specs.Answers.{IsFailureTold, says};
ghost use Rattle.run_tool.specs.inner.{GivesOneOf, HasText, none_to_read};
ghost use Rattle.run_tool.specs.RunAt.{AnswersArrivals};
ghost use Rattle.run_tool.specs.Files.{code_line, told_by, AnswersFile};
ghost use Rattle.run_tool.specs.Wanted.{HasAsked, WantsFile, wants_none};

use crate::ending::{Ending, Status};
use crate::fetched::text_of;
use arrival_file::{Arrival, ArrivalCode, ArrivalRefused, read_arrivals};
use std::alloc::Global;
use sts_base::Seq;
use tool_folder::Folder;
use tool_io::{PutFailed, Sink, then_put, then_put_decimal};

/// Puts the line of a refusal of arrivals: the code's number.
fn put_arrivals_refused<K: Sink>(out: &mut K, code: ArrivalCode) -> Result<(), PutFailed>
    ensures { PutsTo K.taken K.faults out.old out.new (code_line (codes "arrivals refused ") (number_of code)) result }
{
    let put = then_put(Ok(()), out, b"arrivals refused ");
    let put = then_put_decimal(put, out, u32::from(code.number()));
    then_put(put, out, b"\n")
}

/// Gives the answer that a text stands for no arrivals.
fn say_arrivals_refused<K: Sink>(out: &mut K, code: ArrivalCode) -> Ending
    ensures { GivesOneOf K.taken K.faults out.old out.new
        (λ answer. answer ≡ says status.ArrivalsRefused
        (code_line (codes "arrivals refused ") (number_of code))) result }
{
    match put_arrivals_refused(out, code) {
        Ok(()) => Ending::Gave(Status::ArrivalsRefused),
        Err(PutFailed) => Ending::Cut,
    }
}

/// The arrivals that a text stands for, with nothing written. Where it stands for none, the answer that says so was given.
fn arrivals_in<K: Sink>(alloc: Global, text: &[u8], out: &mut K) -> Result<Seq<Arrival>, Ending>
    ensures arrivals { IfOk result (λ arrivals. Tells text.now (Ok arrivals)) }
    ensures sound { IfOk result IsSound }
    ensures unwritten { OnOk result (K.taken out.new ≡ K.taken out.old) }
    ensures none { IfErr result (GivesOneOf K.taken K.faults out.old out.new (AnswersArrivals none_to_read text.now)) }
    ensures later { K.faults out.old ≤ K.faults out.new }
{
    match read_arrivals(alloc, text) {
        Ok(arrivals) => Ok(arrivals),
        Err(ArrivalRefused::Arrivals(code)) => Err(say_arrivals_refused(out, code)),
        Err(ArrivalRefused::NoMemory) => Err(Ending::NoMemory),
    }
}

/// The arrivals of the file of that name, with nothing written. Where there are none, the answer that says so was given.
pub fn arrivals_of<F: Folder, K: Sink>(
    alloc: Global,
    name: &str,
    folder: &mut F,
    out: &mut K,
) -> Result<Seq<Arrival>, Ending>
    ensures arrivals { IfOk result (λ come. HasText (told_by F.holds F.faults folder.old folder.new) name.now
        (λ text. Tells text (Ok come))) }
    ensures sound { IfOk result IsSound }
    ensures unwritten { OnOk result (K.taken out.new ≡ K.taken out.old) }
    ensures none { IfErr result (GivesOneOf K.taken K.faults out.old out.new
        (AnswersFile (told_by F.holds F.faults folder.old folder.new) name.now (AnswersArrivals none_to_read))) }
    ensures asked { HasAsked F.asked folder.old folder.new
        (WantsFile (told_by F.holds F.faults folder.old folder.new) (IsErrOf result Ending.NoMemory)
        name.now (λ text. wants_none)) }
    ensures folder_later { F.faults folder.old ≤ F.faults folder.new }
    ensures unfailed { OnOk result (F.faults folder.new ≡ F.faults folder.old) }
    ensures failure { IfErr result (λ ending. IsFailureTold (F.faults folder.old) (F.faults folder.new) ending) }
    ensures later { K.faults out.old ≤ K.faults out.new }
{
    match text_of(alloc, name, folder, out) {
        Ok(text) => arrivals_in(alloc, &text, out),
        Err(ending) => Err(ending),
    }
}
