//! What is wrong with a script, a class file or a list of arrivals: the line, the entry, and what is right there.
//!
//! The file is read in tokens of its own (`tokens`), so that each has its line. First it is asked whether they spell JSON (`grammar`), then whether its members and entries are those of docs/FORMATS.md (`files`).
#![tactic(auto)]

mod acts;
mod faults;
mod files;
mod grammar;
mod members;
mod tokens;

pub use faults::InputFault;
pub use files::{InputKind, input_fault};
