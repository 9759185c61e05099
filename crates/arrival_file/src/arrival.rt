// Arrivals, and why bytes are none.
ghost use Rattle.std.specs.Prelude.{◌≡◌};

use event_script::Act;

/// The most arrivals that a run has.
pub const ARRIVAL_LIMIT: usize = 4096;

/// An act, and the number of executed instructions behind which it comes, counted from 1.
#[derive(Clone, Copy, Debug, PartialEq, Eq)]
pub struct Arrival {
    pub after: u32,
    pub act: Act,
}

/// Why bytes are no arrivals.
#[derive(Clone, Copy, Debug, PartialEq, Eq)]
pub enum ArrivalCode {
    /// They are no JSON.
    NotJson,
    /// The JSON tree hasn't the form of arrivals.
    NotArrivals,
    /// Some arrival comes behind fewer instructions than the one before it.
    OutOfOrder,
    /// There are more than `ARRIVAL_LIMIT` arrivals.
    TooMany,
}

/// A refusal: of the bytes, by a code, or for want of memory.
#[derive(Clone, Copy, Debug, PartialEq, Eq)]
pub enum ArrivalRefused {
    Arrivals(ArrivalCode),
    NoMemory,
}

impl ArrivalCode {
    ghost use Rattle.arrival_file.specs.Codes.{number_of};

    /// The number of a code, from 1 to 4, as it is printed.
    pub fn number(self) -> u8
        ensures { result ≡ number_of self }
    {
        self as u8 + 1
    }
}
