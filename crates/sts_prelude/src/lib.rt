//! The library of the board's interface: its text, and the tree that it spells. `library` gives the tree, in the tables of a program.
#![tactic(auto)]

mod functions;
mod nodes;
mod prelude;
mod text;
mod theorems;

pub use prelude::library;
pub use text::LIBRARY;
pub use theorems::{text_spells_library, tree_becomes_routines};
