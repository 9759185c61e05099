// The words of what was seen, to the devices at the board's ports.
ghost use Rattle.std.specs.Prelude.{◌≡◌, ◌<◌, ◌≤◌, ◌+◌, ◌*◌, ◌^◌, ◌++◌, ◌∷◌, [], List, ℕ};
ghost use Rattle.std.specs.declared.option.Option.{Option};
ghost use Rattle.std.specs.Int.{cast_unsigned, w32};
ghost use Rattle.bank_model.specs.Texts.{flash_bytes, text_at};
ghost use Rattle.board_ports.specs.History.{PortMove, Word, words_sent, FollowsMoves};
ghost use Rattle.board_outside.specs.Ports.{serial_port};

use crate::flash::{flash_byte, flash_number, image_bytes};
use armv6m_machine::Machine;
use board_ports::{Device, Plugs};

/// The port of the serial line.
const SERIAL: usize = 1;

/// Sends bytes to the serial port, a word for each.
pub fn send_bytes<D: Device>(plugs: &mut Plugs<D>, now: u32, bytes: &[u8])
    ensures { (moves : List PortMove) (start : List (Option D)) → FollowsMoves D.account moves start plugs.old
        → FollowsMoves D.account (moves ++ words_sent serial_port now bytes.now) start plugs.new }
{
    plugs.send_bytes(SERIAL, now, bytes);
}

/// Sends bytes of flash to the serial port, from an address on, one by one.
fn send_each<D: Device>(plugs: &mut Plugs<D>, now: u32, machine: &Machine, at: u64, count: u32)
    requires small { at < 2 ^ 34 }
    ensures { (moves : List PortMove) (start : List (Option D)) → FollowsMoves D.account moves start plugs.old
        → FollowsMoves D.account
        (moves ++ words_sent serial_port now (flash_bytes machine.now.memory.flash count at)) start plugs.new }
{
    for i in 0..count {
        let byte = flash_byte(machine, at + u64::from(i));
        let _ = plugs.send(SERIAL, now, u32::from(byte));
    }
}

/// Sends bytes of flash to the serial port, from an address on: those of the image together, and those past it one by one.
fn send_flash<D: Device>(plugs: &mut Plugs<D>, now: u32, machine: &Machine, at: u64, count: u32)
    requires small { at < 2 ^ 33 }
    ensures { (moves : List PortMove) (start : List (Option D)) → FollowsMoves D.account moves start plugs.old
        → FollowsMoves D.account
        (moves ++ words_sent serial_port now (flash_bytes machine.now.memory.flash count at)) start plugs.new }
{
    let bytes = image_bytes(machine, at, count);
    plugs.send_bytes(SERIAL, now, bytes);
    send_each(
        plugs,
        now,
        machine,
        at + bytes.len() as u64,
        count - bytes.len() as u32,
    );
}

/// Sends a word to a port.
pub fn send_word<D: Device>(plugs: &mut Plugs<D>, port: usize, now: u32, word: u32)
    requires { port < 4 }
    ensures { (moves : List PortMove) (start : List (Option D)) → FollowsMoves D.account moves start plugs.old
        → FollowsMoves D.account (moves ++ Word port now word ∷ []) start plugs.new }
{
    let _ = plugs.send(port, now, word);
}

/// Sends the text at an address of flash to the serial port.
pub fn send_text<D: Device>(plugs: &mut Plugs<D>, now: u32, machine: &Machine, address: u32)
    ensures { (moves : List PortMove) (start : List (Option D)) → FollowsMoves D.account moves start plugs.old
        → FollowsMoves D.account (moves ++ words_sent serial_port now (text_at machine.now.memory.flash address)) start plugs.new }
{
    let count = flash_number(machine, u64::from(address));
    send_flash(plugs, now, machine, u64::from(address) + 4, count);
}
