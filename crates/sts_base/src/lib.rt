//! What every crate of the toolchain shares: a list that contracts see as its items, spans and places in a text,
//! refusals with their numbers, and the tables of names and texts.
#![tactic(auto)]

mod memory;
mod places;
mod refused;
mod seq;
mod tables;

pub use memory::NoMemory;
pub use places::{Span, place};
pub use refused::{Code, Refused, number};
pub use seq::Seq;
pub use tables::Tables;
