//! What a refusal of a program's text means at its place: a sentence for a pupil, and an example of what would be taken.
//!
//! The tables in src/tables have it all, by the code of the refusal; `around_place` finds the first row that fits, and where none fits the code's own sentence is told.
#![tactic(auto)]

mod hints;
mod own;
mod tables;

pub use around_place::Explanation;
pub use hints::{Hints, hints_of};
pub use tables::Rows;
