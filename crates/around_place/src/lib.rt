//! What stands around a place of a text, in words, and the first row of tables that fits it.
//!
//! A row asks for words from the place on, before it and at the beginning of its line, and for the bracket that is open there (`row`); `explain_by` tells the first row that fits. Words
//! are read as a reader sees them (`words`): nothing here stands on the compiler.
#![tactic(auto)]

mod brackets;
mod explaining;
mod places;
mod row;
mod words;

pub use explaining::{Explanation, explain_by};
pub use places::place_at;
pub use row::{ANYWHERE, Inside, Row, Test};
pub use words::{WordKind, is_in, next_word};
