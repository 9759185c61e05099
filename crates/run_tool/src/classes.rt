// The class that a command names.
ghost use Rattle.std.specs.Prelude.{◌≡◌, ◌≤◌, Ok, IfOk, IfErr, OnOk, All, codes};
ghost use Rattle.tool_io.specs.Putting.{PutsTo};
ghost use Rattle.class_file.specs.Codes.{number_of};
ghost use Rattle.class_file.specs.Verdict.{Tells};
ghost use Rattle.class_file.specs.Within.{AreTexts, IsWithinForm};
ghost use Rattle.run_tool.specs.inner.{GivesOneOf, none_to_read};
ghost use Rattle.run_tool.specs.ClassBoards.{AnswersClassFile, refuses_class};
ghost use Rattle.run_tool.specs.Files.{code_line};

use crate::ending::{Ending, Status};
use class_file::{ClassCode, ClassFile, ClassRefused, read_class};
use std::alloc::Global;
use tool_io::{PutFailed, Sink, then_put, then_put_decimal};

/// Puts the line of a refusal of a class: the code's number.
fn put_class_refused<K: Sink>(out: &mut K, code: ClassCode) -> Result<(), PutFailed>
    ensures { PutsTo K.taken K.faults out.old out.new (code_line (codes "class refused ") (number_of code)) result }
{
    let put = then_put(Ok(()), out, b"class refused ");
    let put = then_put_decimal(put, out, u32::from(code.number()));
    then_put(put, out, b"\n")
}

/// Gives the answer that a text stands for no class, or that a board's script has another end than the class.
pub fn say_class_refused<K: Sink>(out: &mut K, code: ClassCode) -> Ending
    ensures { GivesOneOf K.taken K.faults out.old out.new (λ answer. answer ≡ refuses_class code) result }
{
    match put_class_refused(out, code) {
        Ok(()) => Ending::Gave(Status::ClassRefused),
        Err(PutFailed) => Ending::Cut,
    }
}

/// The class that a text stands for, with nothing written. Where it stands for none, the answer that says so was given.
pub fn class_in<K: Sink>(alloc: Global, text: &[u8], out: &mut K) -> Result<ClassFile, Ending>
    ensures class { IfOk result (λ class. Tells text.now (Ok class)) }
    ensures within { IfOk result IsWithinForm }
    ensures texts { IfOk result (λ class. All AreTexts class.boards) }
    ensures unwritten { OnOk result (K.taken out.new ≡ K.taken out.old) }
    ensures none { IfErr result (GivesOneOf K.taken K.faults out.old out.new (AnswersClassFile none_to_read text.now)) }
    ensures later { K.faults out.old ≤ K.faults out.new }
{
    match read_class(alloc, text) {
        Ok(class) => Ok(class),
        Err(ClassRefused::Class(code)) => Err(say_class_refused(out, code)),
        Err(ClassRefused::NoMemory) => Err(Ending::NoMemory),
    }
}
