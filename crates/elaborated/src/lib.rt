//! Elaboration as one definition, its law and worked rows. No code.
#![tactic(auto)]

mod law;
mod rows;

pub use law::elaboration_agrees;
pub use rows::{rows_of_first_failures, rows_of_made_statements};
