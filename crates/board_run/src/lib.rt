//! A board without its outside: one machine, records and lists, a bus and dispatch places, which together show the bank machine's world at
//! each instruction.
#![tactic(auto)]

mod arguments;
mod asking;
mod begin;
mod blocking;
mod board;
mod closing;
mod end;
mod end_services;
mod engine;
mod idle;
mod instruct;
mod moments;
mod number_services;
mod parting;
mod place;
mod places;
mod serve;
mod slots;
mod staying;
mod texts;

pub use board::{Board, NotMounted, Stats};
pub use end::{Counts, End, Stop};
pub use engine::{Engine, Served};
pub use moments::Gone;
pub use place::PendingDispatch;
pub use places::Places;
pub use slots::Slots;
pub use staying::others_keep_their_banks;
