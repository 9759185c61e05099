//! Faults, and what a step comes to.
ghost use Rattle.std.specs.Prelude.{◌≡◌};
ghost use Rattle.armv6m_machine.specs.Answers.{number_of};

/// Why an instruction can't be executed.
#[derive(Clone, Copy, PartialEq, Eq, Debug, Drop)]
pub enum Fault {
    /// No row of the table spells what stands at PC, or it is UDF.
    Undefined,
    /// The address of a word or a halfword is no multiple of its size.
    Unaligned,
    /// An access is outside the map, a store is to flash, or a halfword of an instruction is outside flash.
    OutOfMap,
    /// BX, BLX or POP goes to an address with bit 0 clear, a service is given such a code address, or PC is odd.
    NotThumb,
    /// SP would be below the stack region or above the base, or the base is none.
    StackRange,
    /// A store in the stack region is at or above the base.
    AboveBase,
    /// BKPT.
    Breakpoint,
    /// A service that is asked for isn't there, or its arguments aren't sound.
    BadService,
}

/// What a step comes to: it went on, it asks for the service of this number, or it is a fault with this address.
#[derive(Clone, Copy, PartialEq, Eq, Debug, Drop)]
pub enum Turn {
    Went,
    Service(u8),
    Fault(Fault, u32),
}

/// What came of instructions one after the other: how many were executed, PC before the last of them, and what that one
/// came to.
#[derive(Clone, Copy, Drop)]
pub struct Stretch {
    pub count: u32,
    pub at: u32,
    pub turn: Turn,
}

/// The number of a fault, from 1, as it is printed.
pub fn number(fault: Fault) -> u8
    ensures { result ≡ number_of fault }
{
    fault as u8 + 1
}
