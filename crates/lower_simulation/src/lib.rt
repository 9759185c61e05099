//! Lowering keeps what a program means.
//!
//! `specs/` says when an activity of flat code does what one of the source has left to do (`Tied`), and what ops may weigh (`IsLight`). The law is what every later
//! pass builds on. It speaks of the definition of lowered code and of no Rust.
#![tactic(auto)]

mod lowering;
mod world;

pub use lowering::{lowered_code_does_what_the_source_does, lowered_code_makes_no_fault};
pub use world::flat_code_implements_its_program;
