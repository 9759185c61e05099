//! What it is that an image implements a program.
//!
//! `specs/` has the definition, over the source of programs and the bank machine as kinds of activity. What follows from it for a
//! run that nothing interrupts is a law.
#![tactic(auto)]

mod images;

pub use images::images_do_what_programs_do;
