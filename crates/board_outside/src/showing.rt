// A line, and then its words.
ghost use Rattle.std.specs.Prelude.{◌≡◌, ◌++◌, ◌∷◌, [], List, ℕ, OnOk, OnErr};
ghost use Rattle.std.specs.declared.option.Option.{Option};
ghost use Rattle.tool_io.specs.Putting.{Puts};
ghost use Rattle.board_world.specs.Transcript.{decimal_text, lines};
ghost use Rattle.std.specs.Int.{cast_unsigned, w32};
ghost use Rattle.board_world.specs.Observations.{Serial, Radio};
ghost use Rattle.board_ports.specs.History.{PortMove, Word, words_sent, FollowsMoves};
ghost use Rattle.board_outside.specs.Moves.{seen_of};
ghost use Rattle.board_outside.specs.Ports.{serial_port, radio_port, port_moves};
ghost use Rattle.board_outside.specs.Outputs.{moves_of, IsSeen};

use crate::lines::{
    then_put_display, then_put_pin, then_put_radio, then_put_serial, then_put_text,
};
use crate::output::Output;
use crate::sending::{send_bytes, send_text, send_word};
use armv6m_machine::Machine;
use board_ports::{Device, Plugs};
use itoa::Buffer;
use tool_io::{PutFailed, Sink};

/// Puts the line of a number's decimal text.
fn put_number<K: Sink>(now: u32, number: i32, out: &mut K) -> Result<(), PutFailed>
    ensures { Puts (K.taken out.old) (K.taken out.new) (K.faults out.old) (K.faults out.new)
        (lines (Serial now (decimal_text number) ∷ [])) result }
{
    let mut buffer = Buffer::new();
    then_put_serial(Ok(()), out, now, buffer.format(number).as_bytes())
}

/// Puts the line of a number that was sent by radio.
fn put_radio<K: Sink>(now: u32, number: i32, out: &mut K) -> Result<(), PutFailed>
    ensures { Puts (K.taken out.old) (K.taken out.new) (K.faults out.old) (K.faults out.new)
        (lines (Radio now number ∷ [])) result }
{
    then_put_radio(Ok(()), out, now, number)
}

/// Puts the line of what was seen at a moment.
fn put_output<K: Sink>(
    output: Output,
    now: u32,
    machine: &Machine,
    out: &mut K,
) -> Result<(), PutFailed>
    ensures puts { Puts (K.taken out.old) (K.taken out.new) (K.faults out.old) (K.faults out.new)
        (lines (seen_of (moves_of machine.now.memory.flash now output))) result }
    ensures seen { OnErr result (IsSeen machine.now.memory.flash now output) }
{
    match output {
        Output::Nothing => Ok(()),
        Output::Frame(frame) => then_put_display(Ok(()), out, now, frame),
        Output::Number(number) => put_number(now, number, out),
        Output::Text(address) => then_put_text(Ok(()), out, now, machine, address),
        Output::Pin(pin, level) => then_put_pin(Ok(()), out, now, u32::from(pin), u32::from(level)),
        Output::Radio(number) => put_radio(now, number, out),
    }
}

/// Sends the bytes of a number's decimal text.
fn send_number<D: Device>(now: u32, number: i32, plugs: &mut Plugs<D>)
    ensures { (moves : List PortMove) (start : List (Option D)) → FollowsMoves D.account moves start plugs.old
        → FollowsMoves D.account (moves ++ (words_sent serial_port now (decimal_text number) ++ [])) start plugs.new }
{
    let mut buffer = Buffer::new();
    send_bytes(plugs, now, buffer.format(number).as_bytes());
}

/// Sends a number's word by radio.
fn send_radio<D: Device>(now: u32, number: i32, plugs: &mut Plugs<D>)
    ensures { (moves : List PortMove) (start : List (Option D)) → FollowsMoves D.account moves start plugs.old
        → FollowsMoves D.account (moves ++ Word radio_port now (cast_unsigned w32 number) ∷ []) start plugs.new }
{
    send_word(plugs, 3, now, number.cast_unsigned());
}

/// Sends the words of what was seen at a moment.
fn send_output<D: Device>(output: Output, now: u32, machine: &Machine, plugs: &mut Plugs<D>)
    ensures { (moves : List PortMove) (start : List (Option D)) → FollowsMoves D.account moves start plugs.old
        → FollowsMoves D.account (moves ++ port_moves (moves_of machine.now.memory.flash now output)) start plugs.new }
{
    match output {
        Output::Nothing => {}
        Output::Frame(frame) => send_word(plugs, 0, now, frame),
        Output::Number(number) => send_number(now, number, plugs),
        Output::Text(address) => send_text(plugs, now, machine, address),
        Output::Pin(pin, level) => send_word(plugs, 2, now, 2 * u32::from(pin) + u32::from(level)),
        Output::Radio(number) => send_radio(now, number, plugs),
    }
}

/// Puts the line of what was seen at a moment, in milliseconds, and then sends its words to the devices. Where the sink fails, no device is
/// touched.
pub fn show<K: Sink, D: Device>(
    output: Output,
    now: u32,
    machine: &Machine,
    out: &mut K,
    plugs: &mut Plugs<D>,
) -> Result<(), PutFailed>
    ensures puts { Puts (K.taken out.old) (K.taken out.new) (K.faults out.old) (K.faults out.new)
        (lines (seen_of (moves_of machine.now.memory.flash now output))) result }
    ensures sends { OnOk result
        ((moves : List PortMove) (start : List (Option D)) → FollowsMoves D.account moves start plugs.old
        → FollowsMoves D.account (moves ++ port_moves (moves_of machine.now.memory.flash now output)) start plugs.new) }
    ensures stays { OnErr result (plugs.new ≡ plugs.old) }
    ensures seen { OnErr result (IsSeen machine.now.memory.flash now output) }
{
    match put_output(output, now, machine, out) {
        Ok(()) => {
            send_output(output, now, machine, plugs);
            Ok(())
        }
        Err(PutFailed) => Err(PutFailed),
    }
}
