//! Which name is meant by a word that isn't known: the nearest of the board's members, the program's own names in scope and the words of the language (`names`, `meant`).
#![tactic(auto)]

mod meaning;
mod names;
mod own;
mod tables;

pub use meaning::{Meant, meaning_at};
pub use names::nearest;
