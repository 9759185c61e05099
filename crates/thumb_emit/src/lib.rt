//! Emission: from a function of flat code with places to pieces of Thumb code.
//!
//! `specs/` has the pieces of each op, of an entry and of a function, what they take at most, and what a flash shows of a whole program.
#![tactic(auto)]

mod calls;
mod emission;
mod entry;
mod frame;
mod joined;
mod numbers;
mod pieces;
mod theorems;
mod things;
mod worked;

pub use emission::emit;
pub use theorems::{pieces_can_be_laid, pieces_keep_their_bounds, pieces_name_what_ops_name};
pub use worked::rows_of_pieces;
