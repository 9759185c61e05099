// The command `big`.
ghost use Rattle.std.specs.Prelude.{◌≡◌, ◌++◌, ◌≤◌, ◌<◌, List, false, OnOk, IfOk, decimal, length, vec_len};
ghost use Rattle.board_world.specs.Observations.{ByteList};
ghost use Rattle.thumb_code.specs.Map.{flash_end};
ghost use Rattle.tool_io.specs.Putting.{PutsTo};
ghost use Rattle.sts_syntax.specs.TypedTrees.{TypedProgram};
ghost use Rattle.typed_program.specs.Accepting as accepting;
ghost use Rattle.sts_whole.specs.Compiled.{IsBuiltFor};
ghost use Rattle.sts_words.specs.Orders.{IsBudget};
ghost use Rattle.run_tool.specs.Answers.{Concludes, Led, of_devices, of_sink};
ghost use Rattle.run_tool.specs.inner.{GivesOneOf, none_to_read};
ghost use Rattle.run_tool.specs.Big as spec;
ghost use Rattle.run_tool.specs.Programs.{OverProgram, AnswersRefusal};
ghost use Rattle.run_tool.specs.Run.{RunsProgram};
ghost use Rattle.run_tool.specs.Scripts.{default_script};

use crate::ending::{Ending, Status};
use crate::images::build;
use crate::run::{AskedBehind, RunOptions, run_program};
use crate::said::then_put_refused;
use crate::script::default_script;
use board_ports::Device;
use itoa::Buffer;
use std::alloc::{AllocError, Global};
use sts_base::{Code, NoMemory, Refused, place};
use tool_io::{PutFailed, Sink, then_put, then_put_decimal};
use typed_program::refusals_stand_in_their_texts;

/// Adds a number in decimal.
fn put_number(out: &mut Vec<u8>, number: u32) -> Result<(), AllocError>
    ensures { OnOk result (out.new.items ≡ out.old.items ++ decimal number) }
{
    let mut buffer = Buffer::new();
    out.extend_from_slice(buffer.format(number).as_bytes())
}

/// Adds a function that is named by its number.
fn put_function(out: &mut Vec<u8>, number: u32) -> Result<(), AllocError>
    ensures { OnOk result (out.new.items ≡ out.old.items ++ spec.function_line number) }
{
    out.extend_from_slice(b"function f")?;
    put_number(out, number)?;
    out.extend_from_slice(b"(n: number): number { return (n * ")?;
    put_number(out, number)?;
    out.extend_from_slice(b" + 7) % 1000 }\n")?;
    Ok(())
}

/// Adds a call of the function of that number.
fn put_call(out: &mut Vec<u8>, number: u32) -> Result<(), AllocError>
    ensures { OnOk result (out.new.items ≡ out.old.items ++ spec.call_line number) }
{
    out.extend_from_slice(b"x = f")?;
    put_number(out, number)?;
    out.extend_from_slice(b"(x)\n")
}

/// Adds the functions of the numbers from 1 to `size`.
fn put_functions(out: &mut Vec<u8>, size: u32) -> Result<(), AllocError>
    ensures { OnOk result (out.new.items ≡ out.old.items ++ spec.lines_of_numbers spec.function_line size) }
{
    for before in 0..size {
        put_function(out, before + 1)?;
    }
    Ok(())
}

/// Adds a call of each of these functions.
fn put_calls(out: &mut Vec<u8>, size: u32) -> Result<(), AllocError>
    ensures { OnOk result (out.new.items ≡ out.old.items ++ spec.lines_of_numbers spec.call_line size) }
{
    for before in 0..size {
        put_call(out, before + 1)?;
    }
    Ok(())
}

/// The text, or want of memory.
fn written(alloc: Global, size: u32) -> Result<Vec<u8>, AllocError>
    ensures { IfOk result (λ text. text.items ≡ spec.big_text size) }
{
    let mut out = Vec::new(alloc);
    out.extend_from_slice(b"let x = 1\nlet done = 0\n")?;
    put_functions(&mut out, size)?;
    out.extend_from_slice(b"function worker(): void {\nfor (let r = 0; r < 10; r++) {\n")?;
    put_calls(&mut out, size)?;
    out.extend_from_slice(
        b"basic.pause(1)\n}\ndone += 1\nif (done == 5) { serial.writeNumber(x) }\n}\n",
    )?;
    out.extend_from_slice(
        b"control.inBackground(worker)\ncontrol.inBackground(worker)\ncontrol.inBackground(worker)\n",
    )?;
    out.extend_from_slice(b"control.inBackground(worker)\ncontrol.inBackground(worker)\n")?;
    Ok(out)
}

/// The program that `big` builds for a size, from 1 to 200: so many functions, and five activities that call each of them ten times.
pub fn big_text(alloc: Global, size: u32) -> Result<Vec<u8>, NoMemory>
    requires least { 1 ≤ size }
    requires most { size ≤ 200 }
    ensures { IfOk result (λ text. text.items ≡ spec.big_text size) }
{
    written(alloc, size).map_err(|_| NoMemory)
}

/// Puts the command's line.
fn put_big_line<K: Sink>(out: &mut K, size: u32) -> Result<(), PutFailed>
    ensures { PutsTo K.taken K.faults out.old out.new (spec.big_line size) result }
{
    let put = then_put(Ok(()), out, b"big ");
    let put = then_put_decimal(put, out, size);
    then_put(put, out, b"\n")
}

/// Gives the answer that the program is refused by a code at a place, behind the command's line.
fn refuse_big<K: Sink>(out: &mut K, size: u32, text: &[u8], code: Code, at: u32) -> Ending
    requires within { at ≤ length text.now }
    requires fits { at < 4294967295 }
    ensures { GivesOneOf K.taken K.faults out.old out.new
        (Led (spec.big_line size) (AnswersRefusal text.now code at)) result }
{
    let (line, column) = place(text, at);
    let put = put_big_line(out, size);
    match then_put_refused(put, out, code, line, column) {
        Ok(()) => Ending::Gave(Status::Refused),
        Err(PutFailed) => Ending::Cut,
    }
}

/// The same for this reason; without memory nothing is given.
fn say_big_refused<K: Sink>(out: &mut K, size: u32, text: &[u8], why: Refused) -> Ending
    requires { accepting.RefusesText text.now why }
    ensures { GivesOneOf K.taken K.faults out.old out.new
        (Led (spec.big_line size) (OverProgram (λ P. none_to_read) text.now)) result }
{
    refusals_stand_in_their_texts();
    match why {
        Refused::Program { code, at } => refuse_big(out, size, text, code, at),
        Refused::NoMemory => Ending::NoMemory,
    }
}

/// Puts the command's line, and runs the image of its program, which is built, behind it.
fn run_big<K: Sink, D: Device>(
    alloc: Global,
    size: u32,
    image: Vec<u8>,
    options: RunOptions,
    out: &mut K,
    places: &mut Vec<Option<D>>,
) -> Ending
    requires size { vec_len image ≤ flash_end }
    requires budget { IsBudget options.budget }
    ensures { (P : TypedProgram) (texts : List ByteList) → IsBuiltFor P texts image.items
        → Concludes (of_sink K.taken K.faults out.old out.new)
        (of_devices D.account places.old.items places.new.items) (spec.big_line size)
        (RunsProgram P texts default_script options.budget options.behind.stats options.behind.image) result }
{
    match put_big_line(out, size) {
        Ok(()) => run_program(alloc, image, default_script(alloc), options, out, places),
        Err(PutFailed) => Ending::Cut,
    }
}

/// The same with the text of the program, which is built first.
fn big_of<K: Sink, D: Device>(
    alloc: Global,
    size: u32,
    text: &[u8],
    options: RunOptions,
    out: &mut K,
    places: &mut Vec<Option<D>>,
) -> Ending
    requires budget { IsBudget options.budget }
    ensures { Concludes (of_sink K.taken K.faults out.old out.new)
        (of_devices D.account places.old.items places.new.items) (spec.big_line size)
        (OverProgram (λ P texts. RunsProgram P texts default_script
        options.budget options.behind.stats options.behind.image) text.now) result }
{
    match build(alloc, text) {
        Ok(image) => run_big(alloc, size, image, options, out, places),
        Err(why) => say_big_refused(out, size, text, why),
    }
}

/// The command `big`: its program is built, and behind the command's line it is run, on the script of no name.
pub fn big<K: Sink, D: Device>(
    alloc: Global,
    size: u32,
    budget: u32,
    stats: bool,
    out: &mut K,
    places: &mut Vec<Option<D>>,
) -> Ending
    requires least { 1 ≤ size }
    requires most { size ≤ 200 }
    requires budget { IsBudget budget }
    ensures { Concludes (of_sink K.taken K.faults out.old out.new)
        (of_devices D.account places.old.items places.new.items) (spec.big_line size)
        (OverProgram (λ P texts. RunsProgram P texts default_script budget stats false) (spec.big_text size)) result }
{
    let behind = AskedBehind {
        stats,
        image: false,
    };
    let options = RunOptions { budget, behind };
    match big_text(alloc, size) {
        Ok(text) => big_of(alloc, size, &text, options, out, places),
        Err(NoMemory) => Ending::NoMemory,
    }
}
