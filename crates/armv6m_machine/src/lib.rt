//! A machine that runs images: the registers of one fiber, flash, RAM in its three regions, and the base.
//!
//! The model is `thumb_code`'s machine with one RAM. `execute` is one instruction over any memory, `Machine::step` fetches,
//! decodes and executes one over the machine's own, and `Machine::go` one after the other.
#![tactic(auto)]

mod arithmetic;
mod execution;
mod faults;
mod flash;
mod groups;
mod laws;
mod machine;
mod mapped_memory;
mod memory;
mod operands;
mod parts;
mod rows;
mod transfers;

pub use execution::execute;
pub use faults::{Fault, Stretch, Turn, number};
pub use laws::steps_keep_the_stack_pointer;
pub use machine::Machine;
pub use memory::Memory;
