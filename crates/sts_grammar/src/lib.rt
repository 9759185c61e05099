//! The grammar: which tree the tokens from one place to another spell, and which program those of a whole text, how they are read, and laws
//! of both.
#![tactic(auto)]

mod theorems;

pub use theorems::{
    one_program, one_tree, one_verdict, the_longest_is_read, the_program_is_read,
    what_is_read_is_spelled, what_is_spelled_is_read,
};
