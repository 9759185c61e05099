//! The running fiber in the machine, the raisers whose words stay in RAM below it, and the records of all others with the lists that they stand in. Contracts see
//! one state, whose keys each stand once, and say what a call does to it as one move.
#![tactic(auto)]

mod banks;
mod begun;
mod blocking;
mod copy;
mod raisers;
mod runtime;
mod turning;
mod wake;

pub use banks::{anybody_may_copy, moves_keep_banks, others_keep_banks};
pub use blocking::Why;
pub use runtime::{Runtime, SeatsFull};
pub use turning::{Raiser, Turning};
