//! The sink that output goes to: what it tells of itself, when it may fail, and three implementations. That of the
//! operating system tells no content.
#![tactic(auto)]

mod memory_sink;
mod puts;
mod sink;
mod std_sink;
mod sure;

pub use memory_sink::MemorySink;
pub use puts::{then_put, then_put_decimal};
pub use sink::{PutFailed, Sink};
pub use std_sink::StdSink;
pub use sure::SureSink;
