//! Whole texts: classes with their members, functions and statements, as the tokens spell them.
#![tactic(auto)]

mod brackets;
mod members;
mod parts;
mod whole;

pub use sts_grammar::one_program;
pub use whole::parse;
