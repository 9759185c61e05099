//! The types of declarations whose type isn't written: the least table, in code.
#![tactic(auto)]

mod origins;
mod rules;
mod solving;
mod work;

pub use solving::solve;
