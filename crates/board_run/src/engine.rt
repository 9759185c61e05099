// The board without its outside.

use crate::end::{Counts, Stop};
use crate::places::Places;
use arena_heap::Arena;
use board_drivers::{Buttons, Display};
use board_outside::Output;
use event_script::Script;
use fiber_runtime::Runtime;
use message_bus::Bus;
use thumb_switch::Copier;

/// All that a board is, apart from the devices at its ports: the machine with its fibers, the switch that copies their words, the bus, the
/// dispatch places, the drivers, the arena's count, the script with the place of the entry that comes next, the clock in milliseconds, the
/// counts, and how the run ended.
#[derive(Drop)]
pub struct Engine {
    pub runtime: Runtime,
    pub switch: Copier,
    pub bus: Bus,
    pub places: Places,
    pub buttons: Buttons,
    pub display: Display,
    pub arena: Arena,
    pub script: Script,
    pub next: usize,
    pub clock: u32,
    pub counts: Counts,
    pub end: Option<Stop>,
}

/// What came of a service that was asked for.
#[derive(Clone, Copy, Drop)]
pub enum Served {
    /// The run goes on, and this was seen.
    Goes(Output),
    /// The run ends, and nothing has changed.
    Stops(Stop),
}
