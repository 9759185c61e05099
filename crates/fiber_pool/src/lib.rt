//! The records of the fibers that aren't running, by key. Contracts see them as a map from keys to what is kept: registers, base, event value, listener and
//! words.
#![tactic(auto)]

mod pool;
mod record;

pub use pool::Pool;
