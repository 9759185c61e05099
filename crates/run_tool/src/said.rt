// Answers of one line.
ghost use Rattle.std.specs.Prelude.{◌≡◌, ◌⊎◌, ◌≤◌, ◌<◌, ◌++◌, List, ℕ, length};
ghost use Rattle.std.specs.declared.option.Option.{Option};
ghost use Rattle.sts_base.specs.Numbers.{number_of};
ghost use Rattle.typed_program.specs.Accepting as accepting;
ghost use Rattle.tool_io.specs.Putting.{Puts};
ghost use Rattle.run_tool.specs.Answers.{says};
ghost use Rattle.run_tool.specs.inner.{GivesOneOf, none_to_read};
ghost use Rattle.run_tool.specs.Programs.{AnswersRefusal, refused_line, OverProgram};

use crate::ending::{Ending, Status};
use sts_base::{Code, Refused, number, place};
use tool_io::{PutFailed, Sink, then_put, then_put_decimal};
use typed_program::refusals_stand_in_their_texts;

/// Gives an answer of one line.
pub fn say<K: Sink>(out: &mut K, status: Status, line: &[u8]) -> Ending
    ensures answer { GivesOneOf K.taken K.faults out.old out.new (λ answer. answer ≡ says status line.now) result }
    ensures ending { (result ≡ Ending.Gave status) ⊎ (result ≡ Ending.Cut) }
{
    match out.put(line) {
        Ok(()) => Ending::Gave(status),
        Err(PutFailed) => Ending::Cut,
    }
}

/// Goes on with the line of a refusal: the code's number, the line and the column.
pub fn then_put_refused<K: Sink>(
    before: Result<(), PutFailed>,
    out: &mut K,
    code: Code,
    line: u32,
    column: u32,
) -> Result<(), PutFailed>
    ensures { (taken : Option (List ℕ)) (faults : ℕ) (text : List ℕ)
        → Puts taken (K.taken out.old) faults (K.faults out.old) text before
        → Puts taken (K.taken out.new) faults (K.faults out.new)
        (text ++ refused_line (number_of code) line column) result }
{
    let put = then_put(before, out, b"refused ");
    let put = then_put_decimal(put, out, u32::from(number(code)));
    let put = then_put(put, out, b" ");
    let put = then_put_decimal(put, out, line);
    let put = then_put(put, out, b" ");
    let put = then_put_decimal(put, out, column);
    then_put(put, out, b"\n")
}

/// Gives the answer that the text is refused by a code at a place.
pub fn say_refused<K: Sink>(out: &mut K, text: &[u8], code: Code, at: u32) -> Ending
    requires within { at ≤ length text.now }
    requires fits { at < 4294967295 }
    ensures { GivesOneOf K.taken K.faults out.old out.new (AnswersRefusal text.now code at) result }
{
    let (line, column) = place(text, at);
    match then_put_refused(Ok(()), out, code, line, column) {
        Ok(()) => Ending::Gave(Status::Refused),
        Err(PutFailed) => Ending::Cut,
    }
}

/// Gives the answer that the text is refused for this reason; without memory none.
pub fn say_refusal<K: Sink>(out: &mut K, text: &[u8], why: Refused) -> Ending
    requires { accepting.RefusesText text.now why }
    ensures { GivesOneOf K.taken K.faults out.old out.new (OverProgram (λ P. none_to_read) text.now) result }
{
    refusals_stand_in_their_texts();
    match why {
        Refused::Program { code, at } => say_refused(out, text, code, at),
        Refused::NoMemory => Ending::NoMemory,
    }
}
