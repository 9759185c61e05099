//! How a run ends, and what is counted in it.

use armv6m_machine::Fault;

/// How a run ends by itself.
#[derive(Clone, Copy, Drop)]
pub enum Stop {
    /// Nothing is left to come.
    Quiet,
    /// What is left to come lies past the script's end.
    Script,
    /// A panic with this code.
    Panic(u8),
    /// A fault of the machine, with its address.
    Fault(Fault, u32),
}

/// How a run over a sink ended.
#[derive(Clone, Copy, Debug, PartialEq, Eq, Drop)]
pub enum End {
    /// Nothing was left to come.
    Quiet,
    /// What was left to come lay past the script's end.
    Script,
    /// A panic with this code.
    Panic(u8),
    /// It hadn't ended after its budget of instructions.
    Budget,
    /// A fault of the machine, with its address.
    Fault(Fault, u32),
    /// The sink failed.
    SinkFault,
}

/// What is counted of fibers.
#[derive(Clone, Copy, Drop)]
pub struct Counts {
    /// Main and the fibers that were spawned.
    pub spawned: u64,
    /// The handlers that blocked at least once.
    pub blocked: u64,
    /// The sum, over all blocks, of the words that the fiber had.
    pub words: u64,
    /// The most seats that were taken at once.
    pub most: u64,
}
