//! Flat code: functions of ops over numbered temporaries, which stand between the typed tree and the machine's instructions.
#![tactic(auto)]

mod check;
mod operators;
mod ops;

pub use check::well_formed;
pub use operators::{DECREMENT, INCREMENT};
pub use ops::{FlatClass, FlatCode, Function, Op};
