// How a fiber begins.
ghost use Rattle.std.specs.Prelude.{◌≡◌};
ghost use Rattle.thumb_code.specs.Machine.{begun, base_of, main_of, return_of};

use armv6m_machine::Machine;
use thumb_code::Registers;

/// Word 0 of flash: the base of a fiber that begins where no raiser stands.
pub fn first_base(machine: &Machine) -> u32
    ensures { result ≡ base_of machine.now.memory.flash }
{
    match machine.word(0) {
        Some(word) => word,
        None => unreachable!(),
    }
}

/// Word 1 of flash: the code address of main.
pub fn main_entry(machine: &Machine) -> u32
    ensures { result ≡ main_of machine.now.memory.flash }
{
    match machine.word(4) {
        Some(word) => word,
        None => unreachable!(),
    }
}

/// The registers with which a fiber begins at a code address, on a base.
pub fn begun(machine: &Machine, entry: u32, base: u32) -> Registers
    ensures { result ≡ begun base (return_of machine.now.memory.flash) entry }
{
    let lr = match machine.word(8) {
        Some(word) => word,
        None => unreachable!(),
    };
    Registers {
        r: [0; 13],
        sp: base,
        lr,
        pc: entry.wrapping_sub(1),
        flags: 0,
    }
}
