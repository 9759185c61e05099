//! Handlers without a record: how one begins on the frames that stand, gets a record at its first block, ends and begins again, and how a fiber
//! is suspended while the handlers that it raised run.
#![tactic(auto)]

mod handlers;
mod laws;
mod nesting;

pub use handlers::{again, fork, invoke, leave};
pub use laws::{handlers_are_fibers_from_their_start, nesting_changes_no_bank};
pub use nesting::{NestFull, nest, unnest};
