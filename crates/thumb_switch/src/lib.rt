//! The switch: a routine of Thumb that copies words, and what executes it where a fiber blocks or is resumed, over a memory of three parts. Contracts see
//! the bytes that a switch holds and how many of their instructions were executed, and say what these leave, whatever the bytes are.
#![tactic(auto)]

mod copier;
mod copying;
mod desk;
mod parts;
mod running;
mod slots;
mod space;
mod switch;
mod theorems;

pub use copier::Copier;
pub use copying::routine;
pub use switch::Switch;
pub use theorems::{the_routine_copies, the_routine_switches};
