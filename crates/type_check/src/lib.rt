//! The first failure of a text's overriding methods and of its nodes, in code.
#![tactic(auto)]

mod arguments;
mod bounds;
mod codes;
mod failure;
mod finding;
mod nodes;
mod overrides;
mod passes;
mod places;
mod seen;

pub use finding::find_failure;
