//! A sink in memory that grows as it takes bytes, up to a most.
#![tactic(auto)]

mod sink;

pub use sink::GrowingSink;
