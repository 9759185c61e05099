// Scripts, and why bytes are none.
ghost use Rattle.std.specs.Prelude.{◌≡◌};

use board_world::Event;
use sts_base::Seq;

/// The most entries that a script has.
pub const ENTRY_LIMIT: usize = 4096;

/// What someone outside does to the board.
#[derive(Clone, Copy, Debug, PartialEq, Eq)]
pub enum Act {
    /// A button goes down: A is 1 and B is 2.
    Down(u8),
    /// A button goes up.
    Up(u8),
    /// An event is raised.
    Raise(Event),
    /// The device at this port is unplugged.
    Unplug(u8),
}

/// An act at its moment, in milliseconds from the start of the run.
#[derive(Clone, Copy, Debug, PartialEq, Eq)]
pub struct Entry {
    pub at: u32,
    pub act: Act,
}

/// What comes to a board, in order, and the last moment of its run, in milliseconds.
#[derive(Debug, Drop)]
pub struct Script {
    pub end: u32,
    pub entries: Seq<Entry>,
}

/// Why bytes are no script.
#[derive(Clone, Copy, Debug, PartialEq, Eq)]
pub enum ScriptCode {
    /// They are no JSON.
    NotJson,
    /// The JSON tree hasn't a script's form.
    NotScript,
    /// Some entry comes at an earlier moment than the one before it.
    OutOfOrder,
    /// Some entry comes after the end.
    PastEnd,
    /// There are more than `ENTRY_LIMIT` entries.
    TooMany,
}

/// A refusal: of the bytes, by a code, or for want of memory.
#[derive(Clone, Copy, Debug, PartialEq, Eq)]
pub enum ScriptRefused {
    Script(ScriptCode),
    NoMemory,
}

impl ScriptCode {
    ghost use Rattle.event_script.specs.Codes.{number_of};

    /// The number of a code, from 1 to 5, as it is printed.
    pub fn number(self) -> u8
        ensures { result ≡ number_of self }
    {
        self as u8 + 1
    }
}
