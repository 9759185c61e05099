//! Maps from numbers to numbers that are made one from another: a map goes on as it was when a further one is made from it.
#![tactic(auto)]

mod maps;

pub use maps::PersistentMap;
