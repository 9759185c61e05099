//! Who runs, and who is suspended.

use thumb_code::Registers;

/// What is known of a fiber on RAM besides its registers, base and words.
#[derive(Clone, Copy)]
pub struct Turning {
    /// The key of its record. A handler has none before its first block.
    pub key: Option<usize>,
    /// The value of the latest event that started or woke it, 0 where there was none.
    pub value: i32,
    /// Of a handler, the number of its listener.
    pub listener: Option<u32>,
}

/// A fiber that is suspended on its live frames: its words stay in RAM while the handlers that it raised run below them.
#[derive(Clone, Copy)]
pub struct Raiser {
    pub registers: Registers,
    pub base: u32,
    pub turning: Turning,
}
