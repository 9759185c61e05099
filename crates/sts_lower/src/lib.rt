//! Lowering: from a well-typed program to flat code.
#![tactic(auto)]

mod arguments;
mod assign;
mod calls;
mod expressions;
mod frame;
mod lowering;
mod ops;
mod repeats;
mod routines;
mod sizes;
mod statement_sizes;
mod statements;
mod targets;
mod values;
mod work;

pub use lowering::lower;
