// The lines of a transcript.
ghost use Rattle.std.specs.Prelude.{◌≡◌, ◌<◌, ◌≤◌, ◌^◌, ◌+◌, ◌*◌, ◌++◌, ◌∷◌, [], List, ℕ, codes, length, take};
ghost use Rattle.std.specs.declared.option.Option.{Option};
ghost use Rattle.tool_io.specs.Putting.{Puts};
ghost use Rattle.board_world.specs.Observations.{Show, Serial, Pin, Radio, Quietly, By_script, Panicked, Faulted};
ghost use Rattle.armv6m_machine.specs.Answers.{number_of};
ghost use Rattle.bank_model.specs.Texts.{flash_bytes, text_at};
ghost use Rattle.board_world.specs.Transcript.{hex_digit, hex_text, lights, frame_text, decimal_text, line, closing_line};

use crate::flash::{flash_byte, flash_number, image_bytes};
use armv6m_machine::{Fault, Machine, number};
use itoa::Buffer;
use tool_io::{PutFailed, Sink, then_put, then_put_decimal};

/// A hexadecimal digit, in lower case.
fn hex_digit(digit: u8) -> u8
    requires { digit < 16 }
    ensures { result ≡ hex_digit digit }
{
    if digit < 10 {
        b'0' + digit
    } else {
        b'a' + (digit - 10)
    }
}

/// So many bytes are put together at most.
const TOGETHER: usize = 128;

/// Writes the two digits of each byte, from the front on.
fn write_digits(digits: &mut [u8; 256], bytes: &[u8])
    requires { length bytes.now ≤ 128 }
    ensures { take (2 * length bytes.now) digits.new ≡ hex_text bytes.now }
{
    for i in 0..bytes.len() {
        let byte = bytes[i];
        digits[2 * i] = hex_digit(byte / 16);
        digits[2 * i + 1] = hex_digit(byte % 16);
    }
}

/// Puts a few bytes as hexadecimal text, two digits each, in one piece.
fn then_put_few<K: Sink>(
    before: Result<(), PutFailed>,
    out: &mut K,
    bytes: &[u8],
) -> Result<(), PutFailed>
    requires { length bytes.now ≤ 128 }
    ensures { (taken : Option (List ℕ)) (faults : ℕ) (text : List ℕ)
        → Puts taken (K.taken out.old) faults (K.faults out.old) text before
        → Puts taken (K.taken out.new) faults (K.faults out.new) (text ++ hex_text bytes.now) result }
{
    let mut digits = [0; 2 * TOGETHER];
    write_digits(&mut digits, bytes);
    then_put(before, out, &digits[..2 * bytes.len()])
}

/// Puts bytes as hexadecimal text, two digits each.
fn then_put_hex<K: Sink>(
    before: Result<(), PutFailed>,
    out: &mut K,
    bytes: &[u8],
) -> Result<(), PutFailed>
    ensures { (taken : Option (List ℕ)) (faults : ℕ) (text : List ℕ)
        → Puts taken (K.taken out.old) faults (K.faults out.old) text before
        → Puts taken (K.taken out.new) faults (K.faults out.new) (text ++ hex_text bytes.now) result }
{
    let mut put = before;
    for i in 0..bytes.len().div_ceil(TOGETHER) {
        let from = i * TOGETHER;
        let next = bytes.len().min(from + TOGETHER);
        put = then_put_few(put, out, &bytes[from..next]);
    }
    put
}

/// Puts the line of bytes that were written to the serial port at a moment.
pub fn then_put_serial<K: Sink>(
    before: Result<(), PutFailed>,
    out: &mut K,
    at: u32,
    bytes: &[u8],
) -> Result<(), PutFailed>
    ensures { (taken : Option (List ℕ)) (faults : ℕ) (text : List ℕ)
        → Puts taken (K.taken out.old) faults (K.faults out.old) text before
        → Puts taken (K.taken out.new) faults (K.faults out.new) (text ++ line (Serial at bytes.now)) result }
{
    let put = then_put_decimal(before, out, at);
    let put = then_put(put, out, b" serial ");
    let put = then_put_hex(put, out, bytes);
    then_put(put, out, b"\n")
}

/// Puts bytes of flash, from an address on, as hexadecimal text, one by one.
fn then_put_each_hex<K: Sink>(
    before: Result<(), PutFailed>,
    out: &mut K,
    machine: &Machine,
    at: u64,
    count: u32,
) -> Result<(), PutFailed>
    requires small { at < 2 ^ 34 }
    ensures { (taken : Option (List ℕ)) (faults : ℕ) (text : List ℕ)
        → Puts taken (K.taken out.old) faults (K.faults out.old) text before
        → Puts taken (K.taken out.new) faults (K.faults out.new)
        (text ++ hex_text (flash_bytes machine.now.memory.flash count at)) result }
{
    let mut put = before;
    for i in 0..count {
        put = then_put_few(put, out, &[flash_byte(machine, at + u64::from(i))]);
    }
    put
}

/// Puts bytes of flash, from an address on, as hexadecimal text: those of the image together, and those past it one by one.
fn then_put_flash_hex<K: Sink>(
    before: Result<(), PutFailed>,
    out: &mut K,
    machine: &Machine,
    at: u64,
    count: u32,
) -> Result<(), PutFailed>
    requires small { at < 2 ^ 33 }
    ensures { (taken : Option (List ℕ)) (faults : ℕ) (text : List ℕ)
        → Puts taken (K.taken out.old) faults (K.faults out.old) text before
        → Puts taken (K.taken out.new) faults (K.faults out.new)
        (text ++ hex_text (flash_bytes machine.now.memory.flash count at)) result }
{
    let bytes = image_bytes(machine, at, count);
    let put = then_put_hex(before, out, bytes);
    then_put_each_hex(
        put,
        out,
        machine,
        at + bytes.len() as u64,
        count - bytes.len() as u32,
    )
}

/// Puts the line of a text in flash that was written to the serial port at a moment.
pub fn then_put_text<K: Sink>(
    before: Result<(), PutFailed>,
    out: &mut K,
    at: u32,
    machine: &Machine,
    address: u32,
) -> Result<(), PutFailed>
    ensures { (taken : Option (List ℕ)) (faults : ℕ) (text : List ℕ)
        → Puts taken (K.taken out.old) faults (K.faults out.old) text before
        → Puts taken (K.taken out.new) faults (K.faults out.new)
        (text ++ line (Serial at (text_at machine.now.memory.flash address))) result }
{
    let count = flash_number(machine, u64::from(address));
    let put = then_put_decimal(before, out, at);
    let put = then_put(put, out, b" serial ");
    let put = then_put_flash_hex(put, out, machine, u64::from(address) + 4, count);
    then_put(put, out, b"\n")
}

/// The sign of a light, by the lowest bit.
fn light(frame: u32) -> u8
    ensures { result ∷ [] ≡ lights 1 frame }
{
    if frame % 2 == 1 { b'#' } else { b'.' }
}

/// Puts the five lights of a row, from the lowest bit on.
fn then_put_row<K: Sink>(
    before: Result<(), PutFailed>,
    out: &mut K,
    frame: u32,
) -> Result<(), PutFailed>
    ensures { (taken : Option (List ℕ)) (faults : ℕ) (text : List ℕ)
        → Puts taken (K.taken out.old) faults (K.faults out.old) text before
        → Puts taken (K.taken out.new) faults (K.faults out.new) (text ++ lights 5 frame) result }
{
    let second = frame / 2;
    let third = second / 2;
    let fourth = third / 2;
    let fifth = fourth / 2;
    then_put(
        before,
        out,
        &[
            light(frame),
            light(second),
            light(third),
            light(fourth),
            light(fifth),
        ],
    )
}

/// Puts a row behind a slash.
fn then_put_next_row<K: Sink>(
    before: Result<(), PutFailed>,
    out: &mut K,
    frame: u32,
) -> Result<(), PutFailed>
    ensures { (taken : Option (List ℕ)) (faults : ℕ) (text : List ℕ)
        → Puts taken (K.taken out.old) faults (K.faults out.old) text before
        → Puts taken (K.taken out.new) faults (K.faults out.new) (text ++ (codes "/" ++ lights 5 frame)) result }
{
    let put = then_put(before, out, b"/");
    then_put_row(put, out, frame)
}

/// Puts the five rows of a frame.
fn then_put_frame<K: Sink>(
    before: Result<(), PutFailed>,
    out: &mut K,
    frame: u32,
) -> Result<(), PutFailed>
    ensures { (taken : Option (List ℕ)) (faults : ℕ) (text : List ℕ)
        → Puts taken (K.taken out.old) faults (K.faults out.old) text before
        → Puts taken (K.taken out.new) faults (K.faults out.new) (text ++ frame_text frame) result }
{
    let second = frame / 32;
    let third = second / 32;
    let fourth = third / 32;
    let fifth = fourth / 32;
    let put = then_put_row(before, out, frame);
    let put = then_put_next_row(put, out, second);
    let put = then_put_next_row(put, out, third);
    let put = then_put_next_row(put, out, fourth);
    then_put_next_row(put, out, fifth)
}

/// Puts the line of a frame that is shown from a moment on.
pub fn then_put_display<K: Sink>(
    before: Result<(), PutFailed>,
    out: &mut K,
    at: u32,
    frame: u32,
) -> Result<(), PutFailed>
    ensures { (taken : Option (List ℕ)) (faults : ℕ) (text : List ℕ)
        → Puts taken (K.taken out.old) faults (K.faults out.old) text before
        → Puts taken (K.taken out.new) faults (K.faults out.new) (text ++ line (Show at frame)) result }
{
    let put = then_put_decimal(before, out, at);
    let put = then_put(put, out, b" display ");
    let put = then_put_frame(put, out, frame);
    then_put(put, out, b"\n")
}

/// Puts the line of a pin that was set at a moment.
pub fn then_put_pin<K: Sink>(
    before: Result<(), PutFailed>,
    out: &mut K,
    at: u32,
    pin: u32,
    level: u32,
) -> Result<(), PutFailed>
    ensures { (taken : Option (List ℕ)) (faults : ℕ) (text : List ℕ)
        → Puts taken (K.taken out.old) faults (K.faults out.old) text before
        → Puts taken (K.taken out.new) faults (K.faults out.new) (text ++ line (Pin at pin level)) result }
{
    let put = then_put_decimal(before, out, at);
    let put = then_put(put, out, b" pin ");
    let put = then_put_decimal(put, out, pin);
    let put = then_put(put, out, b" ");
    let put = then_put_decimal(put, out, level);
    then_put(put, out, b"\n")
}

/// Puts the line of a number that was sent by radio at a moment.
pub fn then_put_radio<K: Sink>(
    before: Result<(), PutFailed>,
    out: &mut K,
    at: u32,
    number: i32,
) -> Result<(), PutFailed>
    ensures { (taken : Option (List ℕ)) (faults : ℕ) (text : List ℕ)
        → Puts taken (K.taken out.old) faults (K.faults out.old) text before
        → Puts taken (K.taken out.new) faults (K.faults out.new) (text ++ line (Radio at number)) result }
{
    let mut buffer = Buffer::new();
    let put = then_put_decimal(before, out, at);
    let put = then_put(put, out, b" radio ");
    let put = then_put(put, out, buffer.format(number).as_bytes());
    then_put(put, out, b"\n")
}

/// Puts the closing line of a run that ended quiet at a moment.
pub fn then_put_quiet<K: Sink>(
    before: Result<(), PutFailed>,
    out: &mut K,
    at: u32,
) -> Result<(), PutFailed>
    ensures { (taken : Option (List ℕ)) (faults : ℕ) (text : List ℕ)
        → Puts taken (K.taken out.old) faults (K.faults out.old) text before
        → Puts taken (K.taken out.new) faults (K.faults out.new) (text ++ closing_line at (Some Quietly)) result }
{
    let put = then_put(before, out, b"end ");
    let put = then_put_decimal(put, out, at);
    then_put(put, out, b" quiet\n")
}

/// Puts the closing line of a run that ended at its script's end.
pub fn then_put_script<K: Sink>(
    before: Result<(), PutFailed>,
    out: &mut K,
    at: u32,
) -> Result<(), PutFailed>
    ensures { (taken : Option (List ℕ)) (faults : ℕ) (text : List ℕ)
        → Puts taken (K.taken out.old) faults (K.faults out.old) text before
        → Puts taken (K.taken out.new) faults (K.faults out.new) (text ++ closing_line at (Some By_script)) result }
{
    let put = then_put(before, out, b"end ");
    let put = then_put_decimal(put, out, at);
    then_put(put, out, b" script\n")
}

/// Puts the closing line of a run that panicked with a code at a moment.
pub fn then_put_panic<K: Sink>(
    before: Result<(), PutFailed>,
    out: &mut K,
    at: u32,
    code: u8,
) -> Result<(), PutFailed>
    ensures { (taken : Option (List ℕ)) (faults : ℕ) (text : List ℕ)
        → Puts taken (K.taken out.old) faults (K.faults out.old) text before
        → Puts taken (K.taken out.new) faults (K.faults out.new)
        (text ++ closing_line at (Some (Panicked code))) result }
{
    let put = then_put(before, out, b"panic ");
    let put = then_put_decimal(put, out, at);
    let put = then_put(put, out, b" ");
    let put = then_put_decimal(put, out, u32::from(code));
    then_put(put, out, b"\n")
}

/// Puts the closing line of a run that a fault with an address ended at a moment.
pub fn then_put_fault<K: Sink>(
    before: Result<(), PutFailed>,
    out: &mut K,
    at: u32,
    fault: Fault,
    address: u32,
) -> Result<(), PutFailed>
    ensures { (taken : Option (List ℕ)) (faults : ℕ) (text : List ℕ)
        → Puts taken (K.taken out.old) faults (K.faults out.old) text before
        → Puts taken (K.taken out.new) faults (K.faults out.new)
        (text ++ closing_line at (Some (Faulted (number_of fault) address))) result }
{
    let put = then_put(before, out, b"fault ");
    let put = then_put_decimal(put, out, at);
    let put = then_put(put, out, b" ");
    let put = then_put_decimal(put, out, u32::from(number(fault)));
    let put = then_put(put, out, b" ");
    let put = then_put_hex(put, out, &address.to_be_bytes());
    then_put(put, out, b"\n")
}

/// Puts the closing line of a run whose budget ended first, at a moment.
pub fn then_put_budget<K: Sink>(
    before: Result<(), PutFailed>,
    out: &mut K,
    at: u32,
) -> Result<(), PutFailed>
    ensures { (taken : Option (List ℕ)) (faults : ℕ) (text : List ℕ)
        → Puts taken (K.taken out.old) faults (K.faults out.old) text before
        → Puts taken (K.taken out.new) faults (K.faults out.new) (text ++ closing_line at None) result }
{
    let put = then_put(before, out, b"budget ");
    let put = then_put_decimal(put, out, at);
    then_put(put, out, b"\n")
}
