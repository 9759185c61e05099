//! Worked rows of measures: typed functions, the words of their frames and their weights, computed by the definitions. No code.
#![tactic(auto)]

mod rows;

pub use rows::{rows_of_functions, rows_of_handlers, rows_of_the_game};
